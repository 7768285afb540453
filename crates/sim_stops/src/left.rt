//! Where an image was left, and what differs in it, as a text.

use crate::fault::StopsFault;
use layout::InodeKind;
use std::alloc::{AllocError, Global};
use store::{Line, OpenFault};

/// Where an opening of an image was stopped.
#[derive(Clone, Copy)]
pub struct InOpening<'a> {
    /// The number of its device call, from 1, that was the last.
    pub call: u64,
    pub choice: &'a [u32],
}

/// Where an image was left.
#[derive(Clone, Copy)]
pub struct Left<'a> {
    /// Behind so many of so many device calls of log and installer.
    pub calls: usize,
    pub all: usize,
    /// What the crash left there.
    pub choice: &'a [u32],
    pub opening: Option<InOpening<'a>>,
}

/// What differs.
#[derive(Clone, Copy)]
pub enum Difference {
    /// The image isn't opened, or its files can't be told.
    Refused(OpenFault),
    /// A line of its files, or none, in place of this one, or of none.
    Line(Option<Line>, Option<Line>),
}

impl<'a> Left<'a> {
    /// The same, behind a stop of its opening.
    pub fn in_opening(self, opening: InOpening<'a>) -> Left<'a> {
        let opening = Some(opening);
        Left {
            calls: self.calls,
            all: self.all,
            choice: self.choice,
            opening,
        }
    }

    /// That an image that was left here isn't what it is to be.
    pub fn torn(&self, alloc: Global, difference: &Difference) -> StopsFault {
        match self.text(alloc, difference) {
            Ok(text) => StopsFault::Torn(text),
            Err(_) => StopsFault::NoMemory,
        }
    }

    fn text(&self, alloc: Global, difference: &Difference) -> Result<String, AllocError> {
        let calls = self.calls;
        let all = self.all;
        let mut text = format!(in alloc; "behind {calls} of {all} calls, crash")?;
        add_choice(&mut text, self.choice)?;
        if let Some(opening) = self.opening {
            let call = opening.call;
            write!(text, ", behind call {call} of its opening, crash")?;
            add_choice(&mut text, opening.choice)?;
        }
        match difference {
            Difference::Refused(fault) => {
                let why = name_of(*fault);
                write!(text, ": refused {why}")?;
            }
            Difference::Line(found, wanted) => {
                text.push_str(": ")?;
                add_line(&mut text, *found)?;
                text.push_str(", not ")?;
                add_line(&mut text, *wanted)?;
            }
        }
        Ok(text)
    }
}

// What a crash leaves, as a script writes it.
fn add_choice(text: &mut String, choice: &[u32]) -> Result<(), AllocError> {
    if choice.is_empty() {
        return text.push_str(" old");
    }
    for index in choice {
        let index = *index;
        write!(text, " {index}")?;
    }
    Ok(())
}

fn add_line(text: &mut String, line: Option<Line>) -> Result<(), AllocError> {
    match line {
        None => text.push_str("no file"),
        Some(line) => {
            let Line {
                number,
                kind,
                mode,
                uid,
                gid,
                nlink,
                size,
                blocks,
            } = line;
            let kind = word_of(kind);
            write!(
                text,
                "{number} {kind} {mode:o} {uid} {gid} {nlink} {size} {blocks}"
            )
        }
    }
}

fn word_of(kind: InodeKind) -> &'static str {
    match kind {
        InodeKind::Regular => "file",
        InodeKind::Directory => "dir",
        InodeKind::Link => "link",
    }
}

fn name_of(fault: OpenFault) -> &'static str {
    match fault {
        OpenFault::Magic => "1 Magic",
        OpenFault::Version => "2 Version",
        OpenFault::Range => "3 Range",
        OpenFault::Log => "4 Log",
        OpenFault::Device => "5 Device",
        OpenFault::NoMemory(_) => "6 NoMemory",
    }
}
