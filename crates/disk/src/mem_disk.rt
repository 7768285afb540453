//! A device in memory, for tests and for what is proved of every run. It can be made to fail and to crash.
ghost use Rattle.std.specs.Prelude.{◌≡◌, ℕ, ◌<◌, ◌^◌, ◌-◌, ◌↔◌, min, length, [], ◌∷◌, map, replicate};
ghost use Rattle.std.specs.Prelude.{All, Contains, IsTrue, slice_index, slice_index_or, IfOk, if◌then◌else◌};
ghost use Rattle.base.specs.declared.TheConstants.{BLOCK_BYTES};
ghost use Rattle.disk.specs.Device.{is_on, newest_only};
ghost use Rattle.disk.specs.Blocks.{AreContents, AreWhole};
ghost use Rattle.disk.specs.Choice.{chosen};

use crate::call_record::{Call, CallRecord};
use crate::content_allocator::ContentAllocator;
use crate::contents::Contents;
use crate::history::History;
use crate::{Block, BlockNo, CrashDisk, Failed, Side};
use std::alloc::{AllocError, Global};
use std::snapshot::Snapshot;

/// A device in memory. What it held before each of its calls is kept for proofs alone, and takes no memory.
#[derive(Drop)]
pub struct MemDisk {
    content_allocator: ContentAllocator,
    blocks: Vec<Contents>,
    fails: Vec<u64>,
    history: History,
    ghost numbered: { length blocks.items < 2 ^ 32 },
    ghost whole: { All AreContents blocks.items },
    ghost past: { All (λ e. AreWhole (length blocks.items) e.0.value.items) history.past.items },
}

impl MemDisk {
    ghost use Rattle.std.specs.Prelude.{◌++◌, slice_set, IsErr, OnOk, OnErr};
    ghost use Rattle.disk.specs.Device.{current};
    ghost use Rattle.disk.specs.Crash.{IsCrashImage, IsAtRest};
    ghost use Rattle.disk.specs.Memory.{blocks_of, past_of, to_fail, memory_device, image_of, IsDue};

    /// A device of blocks of zeros.
    pub fn new(alloc: Global, blocks: u32) -> Result<MemDisk, AllocError>
        ensures zeros { IfOk result (λ d. blocks_of d ≡ replicate blocks (replicate BLOCK_BYTES 0 ∷ [])) }
        ensures fresh { IfOk result (λ d. past_of d ≡ []) }
        ensures none { IfOk result (λ d. to_fail d ≡ []) }
        ensures rest { IfOk result (λ d. IsAtRest (memory_device d)) }
    {
        Ok(MemDisk {
            content_allocator: ContentAllocator::new(alloc),
            blocks: zeros(alloc, blocks)?,
            fails: Vec::new(alloc),
            history: History::new(),
        })
    }

    /// Lets the calls with these numbers fail too, counted from 1 since the device was made.
    pub fn fail_at(&mut self, calls: &[u64]) -> Result<(), AllocError>
        ensures added { OnOk result (to_fail self.new ≡ to_fail self.old ++ calls.now) }
        ensures refused { OnErr result (to_fail self.new ≡ to_fail self.old) }
        ensures blocks { blocks_of self.new ≡ blocks_of self.old }
        ensures past { past_of self.new ≡ past_of self.old }
    {
        self.fails.extend_from_slice(calls)
    }

    /// What a crash leaves: of each block one of its contents. Each block that has several, in the order of
    /// the blocks, takes the next digit as the index of its content.
    pub fn crash(self, digits: &[u32]) -> MemDisk
        ensures chosen { blocks_of result ≡ map (λ c. c ∷ []) (chosen digits.now (blocks_of self)) }
        ensures image { IsCrashImage (memory_device self) (memory_device self).clock (image_of result) }
        ensures rest { IsAtRest (memory_device result) }
        ensures fresh { past_of result ≡ [] }
        ensures none { to_fail result ≡ [] }
    {
        let MemDisk {
            content_allocator,
            mut blocks,
            mut fails,
            history: _,
        } = self;
        choose(&mut blocks, digits);
        fails.clear();
        MemDisk {
            content_allocator,
            blocks,
            fails,
            history: History::new(),
        }
    }

    /// The newest content of a block.
    pub fn newest(&self, block: BlockNo) -> &Block
        requires { block.0 < (memory_device self.now).size }
        ensures { result.now ≡ image_of self.now block.0 }
    {
        self.blocks[block.0 as usize].newest()
    }

    /// How many contents a crash may leave of a block.
    pub fn count(&self, block: BlockNo) -> usize
        requires { block.0 < (memory_device self.now).size }
        ensures { result ≡ length (current (memory_device self.now) block.0) }
    {
        self.blocks[block.0 as usize].count()
    }

    /// Gives a block this content alone, without a call: for images that are built by hand.
    pub fn set(&mut self, block: BlockNo, content: &Block)
        requires { block.0 < (memory_device self.old).size }
        ensures blocks { blocks_of self.new ≡ slice_set (blocks_of self.old) block.0 (content.now ∷ []) }
        ensures past { past_of self.new ≡ past_of self.old }
        ensures fails { to_fail self.new ≡ to_fail self.old }
    {
        self.blocks[block.0 as usize].set(content);
    }

    /// How many calls were made, up to the greatest number.
    pub fn calls(&self) -> u64
        ensures { result ≡ min (memory_device self.now).clock (2 ^ 64 - 1) }
    {
        self.history.calls()
    }

    fn is_due(&self) -> bool
        ensures { IsTrue result ↔ IsDue self.now }
    {
        let fails = self.fails.as_slice();
        match self.history.calls().checked_add(1) {
            Some(next) => is_named(fails, next),
            None => false,
        }
    }

    fn outcome(&self) -> Result<(), Failed>
        ensures { IsErr result ↔ IsDue self.now }
    {
        if self.is_due() { Err(Failed) } else { Ok(()) }
    }

    // Notes a call, before which the blocks held this.
    fn trace(&mut self, before: &Snapshot<Vec<Contents>>, call: Call, outcome: Result<(), Failed>)
        requires { AreWhole (length (blocks_of self.old)) before.now.value.items }
        ensures past { past_of self.new ≡ past_of self.old
            ++ (before.now.value.items, record { call = call; result = outcome }) ∷ [] }
        ensures blocks { blocks_of self.new ≡ blocks_of self.old }
        ensures fails { to_fail self.new ≡ to_fail self.old }
        ensures content_allocator { self.new.content_allocator ≡ self.old.content_allocator }
    {
        let traced = CallRecord {
            call,
            result: outcome,
        };
        self.history = self.history.and(before, &traced);
    }
}

impl CrashDisk for MemDisk {
    ghost use Rattle.std.specs.Prelude.{◌≢◌, ◌⊎◌, ◌∷◌, ◌++◌, slice_set, is_err, IsErr, IsOk, OnOk, false};
    ghost use Rattle.disk.specs.Device.{newest, current, CountsFailure, HasRead, HasWritten, HasSettled};
    ghost use Rattle.disk.specs.Memory.{memory_device, blocks_of, to_fail, IsDue, IsFull};
    ghost use Rattle.disk.specs.MemoryBlocks.{memory_blocks};

    ghost device = { memory_device };

    ghost keeps_model = { λ _. Unit {0} };

    ghost whole = { λ d _. memory_blocks d };

    fn blocks(&self) -> u32 {
        self.blocks.len() as u32
    }

    // It needs no memory: it fails exactly where it is to fail.
    fn read(&mut self, block: BlockNo, out: &mut Block) -> Result<(), Failed>
        requires { block.0 < (memory_device self.old).size }
        ensures call { HasRead (memory_device self.old) (memory_device self.new) }
        ensures failure { CountsFailure (memory_device self.old) (memory_device self.new) result }
        ensures newest { OnOk result (out.new ≡ newest (current (memory_device self.old) block.0)) }
        ensures due { IsErr result ↔ IsDue self.old }
        ensures fails { to_fail self.new ≡ to_fail self.old }
    {
        let before = Snapshot::of(&self.blocks);
        let result = self.outcome();
        if result.is_ok() {
            out.copy_from(self.blocks[block.0 as usize].newest());
        }
        self.trace(&before, Call::Read(block), result);
        result
    }

    // It fails exactly where it is to fail or memory was refused. Where none was refused it is made all the
    // same, and else nothing changes.
    fn write(&mut self, block: BlockNo, content: &Block) -> Result<(), Failed>
        requires { block.0 < (memory_device self.old).size }
        ensures call { HasWritten (memory_device self.old) block.0 content.now result (memory_device self.new) }
        ensures failure { CountsFailure (memory_device self.old) (memory_device self.new) result }
        ensures due { IsErr result ↔ (IsDue self.old ⊎ IsFull self.old self.new) }
        ensures full { IsFull self.old self.new → blocks_of self.new ≡ blocks_of self.old }
        ensures made { ¬ (IsFull self.old self.new)
            → blocks_of self.new ≡ slice_set (blocks_of self.old) block.0
            (current (memory_device self.old) block.0 ++ content.now ∷ []) }
        ensures fails { to_fail self.new ≡ to_fail self.old }
    {
        let before = Snapshot::of(&self.blocks);
        let due = self.outcome();
        let made = self
            .content_allocator
            .append(&mut self.blocks[block.0 as usize], content);
        let result = if made.is_ok() { due } else { Err(Failed) };
        self.trace(&before, Call::Write(block), result);
        result
    }

    fn barrier(&mut self, side: Side) -> Result<(), Failed>
        ensures call { HasSettled (memory_device self.old) side result (memory_device self.new) }
        ensures failure { CountsFailure (memory_device self.old) (memory_device self.new) result }
        ensures due { IsErr result ↔ IsDue self.old }
        ensures fails { to_fail self.new ≡ to_fail self.old }
    {
        let before = Snapshot::of(&self.blocks);
        let result = self.outcome();
        if result.is_ok() {
            settle(&mut self.blocks, side);
        }
        self.trace(&before, Call::Barrier(side), result);
        result
    }
}

fn is_named(numbers: &[u64], number: u64) -> bool
    ensures { IsTrue result ↔ Contains numbers.now number }
{
    numbers.contains(&number)
}

// Blocks of zeros.
fn zeros(alloc: Global, count: u32) -> Result<Vec<Contents>, AllocError>
    ensures zeros { IfOk result (λ blocks. blocks.items ≡ replicate count (replicate BLOCK_BYTES 0 ∷ [])) }
    ensures whole { IfOk result (λ blocks. All AreContents blocks.items) }
{
    let mut blocks = Vec::new(alloc);
    for _made in 0..count {
        blocks.push(Contents::one(alloc, Block::zeros(alloc)?)?)?;
    }
    Ok(blocks)
}

// Keeps of each block the content that the digits choose.
fn choose(blocks: &mut [Contents], digits: &[u32])
    ensures chosen { blocks.new ≡ map (λ c. c ∷ []) (chosen digits.now blocks.old) }
    ensures len { length blocks.new ≡ length blocks.old }
    ensures filled { (block : ℕ) → block < length blocks.old
        → 0 < length (slice_index_or blocks.old block []) }
{
    let mut next = 0;
    for index in 0..blocks.len() {
        if blocks[index].count() > 1 {
            blocks[index].keep_one(digit_at(digits, next));
            next += 1;
        } else {
            blocks[index].keep_one(0);
        }
    }
}

// The digit at an index, or 0 where there is none.
fn digit_at(digits: &[u32], at: usize) -> usize
    ensures { result ≡ slice_index digits.now at }
{
    if at < digits.len() {
        digits[at] as usize
    } else {
        0
    }
}

// Settles the blocks of a side.
fn settle(blocks: &mut [Contents], side: Side)
    requires { length blocks.old < 2 ^ 32 }
    ensures contents { (block : ℕ) → slice_index_or blocks.new block []
        ≡ (if is_on side block then newest_only (slice_index_or blocks.old block []) else slice_index_or
        blocks.old block []) }
    ensures len { length blocks.new ≡ length blocks.old }
    ensures whole { All AreContents blocks.old → All AreContents blocks.new }
{
    for index in 0..blocks.len() {
        if BlockNo(index as u32).side() == side {
            blocks[index].keep_newest();
        }
    }
}
