//! Which command may stand where.
ghost use Rattle.std.specs.Prelude.{◌≡◌};
ghost use Rattle.sim_words.specs.Places.{after, after_image, after_show, lies_in_a_block, open_blocks, stopped_blocks};
ghost use Rattle.sim_words.specs.Places.{after_action, after_poke, fails};

use crate::command::{Action, Command};
use base::BLOCK_BYTES;

/// Where the next command of a script stands, and how many blocks the image has.
#[derive(Clone, Copy)]
pub enum ScriptCursor {
    /// No image was made yet.
    First,
    /// The store was just opened.
    Opened(u32),
    /// The store is open, and something may have happened to it.
    Running(u32),
    /// The device has stopped.
    Stopped(u32),
    /// Of a script whose every stop is tried: no image was made yet.
    FirstOfStops,
    /// And its store is open.
    OpenForStops,
}

impl ScriptCursor {
    /// The place behind a command, or None where it may not stand here.
    pub fn after(self, command: &Command) -> Option<ScriptCursor>
        ensures { result ≡ after self command.now }
    {
        match command {
            Command::Time(_) => Some(self),
            Command::Image { blocks, .. } => self.after_image(*blocks),
            Command::Open => Some(ScriptCursor::Opened(self.stopped_blocks()?)),
            Command::Act(action) => self.after_action(action),
            Command::Crash(_) => Some(ScriptCursor::Stopped(self.open_blocks()?)),
            Command::Poke {
                block,
                offset,
                bytes,
            } => self.after_poke(*block, *offset, bytes.as_slice()),
            Command::Show => self.after_show(),
        }
    }

    // An image is made once.
    fn after_image(self, blocks: u32) -> Option<ScriptCursor>
        ensures { result ≡ after_image self blocks }
    {
        match self {
            ScriptCursor::First => Some(ScriptCursor::Opened(blocks)),
            ScriptCursor::FirstOfStops => Some(ScriptCursor::OpenForStops),
            ScriptCursor::Opened(_)
            | ScriptCursor::Running(_)
            | ScriptCursor::Stopped(_)
            | ScriptCursor::OpenForStops => None,
        }
    }

    // Something happens to an open store. No device call fails where each stop is tried.
    fn after_action(self, action: &Action) -> Option<ScriptCursor>
        ensures { result ≡ after_action self action.now }
    {
        match self {
            ScriptCursor::Opened(blocks) | ScriptCursor::Running(blocks) => Some(
                ScriptCursor::Running(blocks),
            ),
            ScriptCursor::OpenForStops => {
                if fails(action) {
                    None
                } else {
                    Some(ScriptCursor::OpenForStops)
                }
            }
            ScriptCursor::First | ScriptCursor::Stopped(_) | ScriptCursor::FirstOfStops => None,
        }
    }

    // Bytes may be changed within a block of the image.
    fn after_poke(self, block: u32, offset: u32, bytes: &[u8]) -> Option<ScriptCursor>
        ensures { result ≡ after_poke self block offset bytes.now }
    {
        let blocks = self.stopped_blocks()?;
        if block < blocks && lies_in_a_block(offset, bytes) {
            Some(ScriptCursor::Stopped(blocks))
        } else {
            None
        }
    }

    // Files are told only of a store that was just opened.
    fn after_show(self) -> Option<ScriptCursor>
        ensures { result ≡ after_show self }
    {
        match self {
            ScriptCursor::Opened(blocks) => Some(ScriptCursor::Running(blocks)),
            ScriptCursor::First
            | ScriptCursor::Running(_)
            | ScriptCursor::Stopped(_)
            | ScriptCursor::FirstOfStops
            | ScriptCursor::OpenForStops => None,
        }
    }

    // The blocks of the image of an open store.
    fn open_blocks(self) -> Option<u32>
        ensures { result ≡ open_blocks self }
    {
        match self {
            ScriptCursor::Opened(blocks) | ScriptCursor::Running(blocks) => Some(blocks),
            ScriptCursor::First
            | ScriptCursor::Stopped(_)
            | ScriptCursor::FirstOfStops
            | ScriptCursor::OpenForStops => None,
        }
    }

    // The blocks of an image that a crash left.
    fn stopped_blocks(self) -> Option<u32>
        ensures { result ≡ stopped_blocks self }
    {
        match self {
            ScriptCursor::Stopped(blocks) => Some(blocks),
            ScriptCursor::First
            | ScriptCursor::Opened(_)
            | ScriptCursor::Running(_)
            | ScriptCursor::FirstOfStops
            | ScriptCursor::OpenForStops => None,
        }
    }
}

// Whether it lets a device call fail.
fn fails(action: &Action) -> bool
    ensures { result ≡ fails action.now }
{
    matches!(action, Action::Fail(_))
}

// Whether bytes from an offset on lie in a block.
fn lies_in_a_block(offset: u32, bytes: &[u8]) -> bool
    ensures { result ≡ lies_in_a_block offset bytes.now }
{
    offset as usize + bytes.len() <= BLOCK_BYTES
}
