//! A script as commands.
ghost use Rattle.std.specs.Prelude.{◌≡◌, IfErr, IfOk};
ghost use Rattle.sim_words.specs.Reading.{Gives};
ghost use Rattle.sim_words.specs.Texts.{is_comment};
ghost use Rattle.sim_words.specs.Script.{IsUnread, IsUnreadFrom, commands_from, is_passed_over, script_of, stops_of, taken};
ghost use Rattle.sim_words.specs.Texts.{lines_of};
ghost use Rattle.sim_words.specs.declared.script_cursor.ScriptCursor.TheVariants.{FirstOfStops};

use crate::command::Command;
use crate::fault::{LineFault, ScriptFault};
use crate::line::command_of;
use crate::parts::Parts;
use crate::script_cursor::ScriptCursor;
use crate::words::Words;
use std::alloc::Global;

/// The commands of a script in their order, or its first bad line: one that isn't a command, or a command that may
/// not stand there. Lines are parted by line feeds and words by blanks. A line without words is passed over, and so is
/// one that begins with `#`.
pub fn commands(alloc: Global, text: &[u8]) -> Result<Vec<Command>, ScriptFault>
    ensures read { IfOk result (λ commands. script_of text.now ≡ Ok commands.items) }
    ensures unread { IfErr result (IsUnread text.now) }
{
    commands_from(alloc, ScriptCursor::First, text)
}

/// Those of a script whose every stop is to be tried, or its first bad line: such a script has one image at most, and no
/// `open`, `crash`, `poke`, `fail` or `show`.
pub fn stop_commands(alloc: Global, text: &[u8]) -> Result<Vec<Command>, ScriptFault>
    ensures read { IfOk result (λ commands. stops_of text.now ≡ Ok commands.items) }
    ensures unread { IfErr result (IsUnreadFrom FirstOfStops text.now) }
{
    commands_from(alloc, ScriptCursor::FirstOfStops, text)
}

// The commands of a text, of which the first stands at a place.
#[tactic(auto, using(crate::proofs::Cut::parts_few, crate::proofs::OneByOne::passes, crate::proofs::OneByOne::goes, crate::proofs::OneByOne::stops, crate::proofs::OneByOne::ends, crate::proofs::OneByOne::commands_behind, crate::proofs::OneByOne::only_commands))]
fn commands_from(
    alloc: Global,
    first: ScriptCursor,
    text: &[u8],
) -> Result<Vec<Command>, ScriptFault>
    ensures read { IfOk result (λ commands. commands_from first 1 (lines_of text.now) ≡ Ok commands.items) }
    ensures unread { IfErr result (IsUnreadFrom first text.now) }
{
    let mut commands = Vec::new(alloc);
    let mut lines = Parts::new(text, b'\n');
    let mut script_cursor = first;
    let mut number: usize = 0;
    'lines: while let Some(line) = lines.next() {
        number += 1;
        if is_passed_over(line) {
            continue;
        }
        match taken(alloc, script_cursor, line) {
            Ok((command, next)) => {
                commands.push(command)?;
                script_cursor = next;
            }
            Err(fault) => return Err(fault.at_line(number)),
        }
    }
    Ok(commands)
}

fn is_passed_over(line: &[u8]) -> bool
    ensures { result ≡ is_passed_over line.now }
{
    is_comment(line) || Words::new(line).next().is_none()
}

fn is_comment(line: &[u8]) -> bool
    ensures { result ≡ is_comment line.now }
{
    !line.is_empty() && line[0] == b'#'
}

// The command of a line that stands at a place, and the place behind it.
fn taken(
    alloc: Global,
    script_cursor: ScriptCursor,
    line: &[u8],
) -> Result<(Command, ScriptCursor), LineFault>
    ensures { Gives (λ it. it) result (taken script_cursor line.now) }
{
    let mut words = Words::new(line);
    let command = command_of(alloc, &mut words)?;
    match script_cursor.after(&command) {
        Some(next) => Ok((command, next)),
        None => Err(LineFault::Bad),
    }
}
