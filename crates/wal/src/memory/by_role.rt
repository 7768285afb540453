//! In what the two sides of the log differ: the logger takes the tail, to the slots of the log, and tells of it by
//! the header; the installer takes what is logged, home, and tells of it by the start.
ghost use Rattle.std.specs.Prelude.{◌≡◌, ◌≤◌, ◌<◌, ◌+◌, ◌%◌, false, length};
ghost use Rattle.base.specs.declared.TheConstants.{FIRST_SLOT_BLOCK, LOG_SLOTS};
ghost use Rattle.wal.specs.Batch.{IsStageOf, step_at};
ghost use Rattle.wal.specs.ByRole.{IsBody, IsControlWrite, preceding_of, next_body, out_of, taken_by, to_take, with_ended};

use super::Wal;
use super::batch::Stage;
use super::header::put_header;
use base::{FIRST_SLOT_BLOCK, LOG_HEADER_BLOCK, LOG_SLOTS, START_BLOCK};
use circ::put_start;
use disk::{Block, BlockNo, Handed, Side};

impl Wal {
    // How many changes a side may take at once: the logger the tail, where its positions fit behind the settled
    // start.
    pub(super) fn to_take(&self, role: Side) -> usize
        ensures { result ≡ to_take role self.now }
    {
        match role {
            Side::Log => {
                if self.changes.len() as u64 <= LOG_SLOTS {
                    self.changes.len() - self.logged
                } else {
                    0
                }
            }
            Side::Home => self.logged,
        }
    }

    // How many changes stand before those that a side has taken.
    pub(super) fn preceding(&self, role: Side) -> usize
        ensures { result ≡ preceding_of role self.now }
    {
        match role {
            Side::Log => self.logged,
            Side::Home => 0,
        }
    }

    // The call of a side for the blocks of so many changes from one on: the installer passes over what isn't the
    // newest of its block.
    pub(super) fn body_from(&self, role: Side, taken: usize, number: usize) -> Stage
        requires order { number ≤ taken }
        requires within { taken ≤ length self.now.changes }
        ensures value { step_at taken result ≡ next_body role self.now taken number }
        ensures stage { IsStageOf taken result }
    {
        let next = match role {
            Side::Log => number,
            Side::Home => self.changes.next_newest(number, taken),
        };
        if next < taken {
            Stage::Body(next)
        } else {
            Stage::BodyBarrier
        }
    }

    // Hands a block of what a side has taken out as a call's content, with the buffer beside it, and answers where it goes.
    pub(super) fn hand_body(&self, role: Side, number: usize, buffer: Block) -> (BlockNo, Handed)
        requires { number < taken_by role self.now }
        ensures value { IsBody role self.now number result.0 result.1 }
        ensures within { result.0.0 < self.now.blocks }
    {
        match role {
            Side::Log => {
                let index = self.logged + number;
                let content = Handed::shared(buffer, &self.changes.list()[index].content);
                (slot_block(self.changes.start() + index as u64), content)
            }
            Side::Home => {
                let change = &self.changes.list()[number];
                (change.block, Handed::shared(buffer, &change.content))
            }
        }
    }

    // Puts what tells of a side's changes into a call's content, and answers where it goes.
    pub(super) fn put_control(&self, role: Side, content: &mut Block) -> BlockNo
        ensures value { IsControlWrite role self.now result content.new }
        ensures within { result.0 < self.now.blocks }
    {
        match role {
            Side::Log => {
                let end = self.logged + self.batches.log.taken;
                put_header(content, self.changes.start(), self.changes.list(), end);
                BlockNo(LOG_HEADER_BLOCK)
            }
            Side::Home => {
                put_start(
                    content,
                    self.changes.start() + self.batches.home.taken as u64,
                );
                BlockNo(START_BLOCK)
            }
        }
    }

    // What a side has taken is done: the group is logged, or the changes are home and go.
    pub(super) fn end(&mut self, role: Side)
        requires { out_of role self.old ≡ false }
        ensures { self.new ≡ with_ended role self.old }
    {
        match role {
            Side::Log => {
                self.logged += self.batches.log.taken;
                self.batches.log.end();
            }
            Side::Home => {
                let taken = self.batches.home.taken;
                self.changes.take_out(taken);
                self.logged -= taken;
                self.batches.home.end();
            }
        }
    }
}

// The block of a log position.
fn slot_block(position: u64) -> BlockNo
    ensures { result.0 ≡ FIRST_SLOT_BLOCK + position % LOG_SLOTS }
{
    BlockNo(FIRST_SLOT_BLOCK + (position % LOG_SLOTS) as u32)
}
