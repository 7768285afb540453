//! One line as a command.
ghost use Rattle.std.specs.Prelude.{◌≡◌};
ghost use Rattle.sim_words.specs.Lines as meaning;
ghost use Rattle.sim_words.specs.Reading.{Gives};

use crate::command::{Action, Choice, Command, OneEvent};
use crate::fault::LineFault;
use crate::message::message_of;
use crate::numbers::{bytes_of, number_of};
use crate::words::{Words, is};
use base::NANOSECONDS;
use bytes::Bytes;
use nfs_types::{Moment, NumberList, Octets};
use std::alloc::Global;

/// The first word of a line.
#[derive(Clone, Copy)]
pub enum Verb {
    Time,
    Image,
    Open,
    Call,
    Drive,
    Log,
    Install,
    Event,
    Fail,
    Crash,
    Poke,
    Show,
}

/// What the words of a line ask for.
pub fn command_of(alloc: Global, words: &mut Words) -> Result<Command, LineFault>
    ensures { Gives (λ command. command) result (meaning.command_of words.old) }
{
    let word = words.word()?;
    let verb = verb_of(word)?;
    let command = command_at(alloc, verb, words)?;
    words.end()?;
    Ok(command)
}

fn verb_of(word: &[u8]) -> Result<Verb, LineFault>
    ensures { Gives (λ verb. verb) result (meaning.verb_of word.now) }
{
    if is(word, "time") {
        return Ok(Verb::Time);
    }
    if is(word, "image") {
        return Ok(Verb::Image);
    }
    if is(word, "open") {
        return Ok(Verb::Open);
    }
    if is(word, "call") {
        return Ok(Verb::Call);
    }
    if is(word, "drive") {
        return Ok(Verb::Drive);
    }
    if is(word, "log") {
        return Ok(Verb::Log);
    }
    if is(word, "install") {
        return Ok(Verb::Install);
    }
    if is(word, "event") {
        return Ok(Verb::Event);
    }
    if is(word, "fail") {
        return Ok(Verb::Fail);
    }
    if is(word, "crash") {
        return Ok(Verb::Crash);
    }
    if is(word, "poke") {
        return Ok(Verb::Poke);
    }
    if is(word, "show") {
        return Ok(Verb::Show);
    }
    Err(LineFault::Bad)
}

// What the words behind the first one ask for.
fn command_at(alloc: Global, verb: Verb, words: &mut Words) -> Result<Command, LineFault>
    ensures { Gives (λ command. (command, words.new)) result (meaning.command_at verb words.old) }
{
    match verb {
        Verb::Time => Ok(Command::Time(moment(words)?)),
        Verb::Image => {
            let blocks = words.number()?;
            let inodes = words.number()?;
            Ok(Command::Image { blocks, inodes })
        }
        Verb::Open => Ok(Command::Open),
        Verb::Call => Ok(Command::Act(call(alloc, words)?)),
        Verb::Drive => Ok(Command::Act(Action::Drive(words.worker()?))),
        Verb::Log => Ok(Command::Act(Action::Log(words.number()?))),
        Verb::Install => Ok(Command::Act(Action::Install(words.number()?))),
        Verb::Event => Ok(Command::Act(Action::Event(event(words)?))),
        Verb::Fail => Ok(Command::Act(Action::Fail(call_number(words)?))),
        Verb::Crash => Ok(Command::Crash(choice(alloc, words)?)),
        Verb::Poke => poke(alloc, words),
        Verb::Show => Ok(Command::Show),
    }
}

fn moment(words: &mut Words) -> Result<Moment, LineFault>
    ensures { Gives (λ moment. (moment, words.new)) result (meaning.moment_at words.old) }
{
    let seconds = words.number()?;
    let nanoseconds = words.number()?;
    if nanoseconds < NANOSECONDS {
        Ok(Moment {
            seconds,
            nanoseconds,
        })
    } else {
        Err(LineFault::Bad)
    }
}

fn call(alloc: Global, words: &mut Words) -> Result<Action, LineFault>
    ensures { Gives (λ action. (action, words.new)) result (meaning.call_at words.old) }
{
    let worker = words.worker()?;
    let digits = words.word()?;
    let bytes = Bytes::from_vec(bytes_of(alloc, digits)?)?;
    let message = message_of(alloc, &bytes)?;
    Ok(Action::Call {
        worker,
        xid: message.xid,
        credential: message.credential,
        call: message.call,
    })
}

fn event(words: &mut Words) -> Result<OneEvent, LineFault>
    ensures { Gives (λ event. (event, words.new)) result (meaning.event_at words.old) }
{
    let word = words.word()?;
    event_named(word, words)
}

// The event of this name, of the worker that is named next where it is a worker's.
fn event_named(word: &[u8], words: &mut Words) -> Result<OneEvent, LineFault>
    ensures { Gives (λ event. (event, words.new)) result (meaning.event_named word.now words.old) }
{
    if is(word, "work") {
        return Ok(OneEvent::Work(words.worker()?));
    }
    if is(word, "read") {
        return Ok(OneEvent::Read(words.worker()?));
    }
    if is(word, "log") {
        return Ok(OneEvent::Log);
    }
    if is(word, "logio") {
        return Ok(OneEvent::LogIo);
    }
    if is(word, "install") {
        return Ok(OneEvent::Install);
    }
    if is(word, "instio") {
        return Ok(OneEvent::InstIo);
    }
    Err(LineFault::Bad)
}

// The number of a device call.
fn call_number(words: &mut Words) -> Result<u32, LineFault>
    ensures { Gives (λ number. (number, words.new)) result (meaning.call_number_at words.old) }
{
    let number = words.number()?;
    if number > 0 {
        Ok(number)
    } else {
        Err(LineFault::Bad)
    }
}

fn choice(alloc: Global, words: &mut Words) -> Result<Choice, LineFault>
    ensures { Gives (λ choice. (choice, words.new)) result (meaning.choice_at words.old) }
{
    let word = words.word()?;
    if is(word, "old") {
        return Ok(Choice::Old);
    }
    if is(word, "new") {
        return Ok(Choice::New);
    }
    let digits = digits(alloc, word, words)?;
    Ok(Choice::Each(NumberList::new(digits)))
}

// Numbers up to the end of the line, of which this word is the first.
#[tactic(auto, using(crate::proofs::OneByOne::numbers_behind, crate::proofs::OneByOne::numbers_go, crate::proofs::OneByOne::numbers_fail, crate::proofs::OneByOne::numbers_end))]
fn digits(alloc: Global, first: &[u8], words: &mut Words) -> Result<Vec<u32>, LineFault>
    ensures { Gives (λ digits. (digits.items, words.new)) result (meaning.digits_at first.now words.old) }
{
    let mut digits = Vec::new(alloc);
    digits.push(number_of(first)?)?;
    'words: while let Some(word) = words.next() {
        digits.push(number_of(word)?)?;
    }
    Ok(digits)
}

fn poke(alloc: Global, words: &mut Words) -> Result<Command, LineFault>
    ensures { Gives (λ command. (command, words.new)) result (meaning.poke_at words.old) }
{
    let block = words.number()?;
    let offset = words.number()?;
    let digits = words.word()?;
    let bytes = bytes_of(alloc, digits)?;
    Ok(Command::Poke {
        block,
        offset,
        bytes: Octets::new(bytes),
    })
}
