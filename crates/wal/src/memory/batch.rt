//! What a side of the log has taken, and which of its calls comes next.
ghost use Rattle.std.specs.Prelude.{◌≡◌, ◌≤◌, Some};
ghost use Rattle.std.specs.Borrow.{sem};
ghost use Rattle.base.specs.declared.TheConstants.{LOG_SLOTS};
ghost use Rattle.wal.specs.Batch.{batch_of, step_at};
ghost use Rattle.wal.specs.Lent.{LendsBatch};
ghost use Rattle.wal.specs.declared.memory.batch.Stage.TheVariants.{BodyBarrier};

use disk::{Block, Side};

/// The calls of a batch, in their order.
#[derive(Clone, Copy)]
pub(super) enum Stage {
    /// The write of one of its blocks, by its number in the batch.
    Body(usize),
    /// The barrier behind them.
    BodyBarrier,
    /// The write that tells of them: the header of the log, or its start.
    Header,
    /// The barrier behind that.
    HeaderBarrier,
}

/// The changes that a side has taken.
#[derive(Drop)]
pub(super) struct Batch {
    // How many they are, 0 where it has none.
    pub(super) taken: usize,
    // Its next call, or the one that is out.
    pub(super) stage: Stage,
    // What a call writes stands in it. A call that is out has it.
    pub(super) buffer: Option<Block>,
}

impl Batch {
    /// None is taken.
    pub(super) fn new(buffer: Block) -> Batch
        ensures { result ≡ record { taken = 0; stage = BodyBarrier; buffer = Some buffer } }
    {
        Batch {
            taken: 0,
            stage: Stage::BodyBarrier,
            buffer: Some(buffer),
        }
    }

    /// None is taken any more.
    pub(super) fn end(&mut self)
        ensures { self.new ≡ record self.old { taken = 0; stage = BodyBarrier } }
    {
        self.taken = 0;
        self.stage = Stage::BodyBarrier;
    }

    /// How many of its calls come before the next.
    pub(super) fn step(&self) -> usize
        requires { self.now.taken ≤ LOG_SLOTS }
        ensures { result ≡ step_at self.now.taken self.now.stage }
    {
        match self.stage {
            Stage::Body(number) => number,
            Stage::BodyBarrier => self.taken,
            Stage::Header => self.taken + 1,
            Stage::HeaderBarrier => self.taken + 2,
        }
    }
}

/// What each side has taken.
#[derive(Drop)]
pub(super) struct Batches {
    pub(super) log: Batch,
    pub(super) home: Batch,
}

impl Batches {
    /// That of a side.
    pub(super) fn of(&self, role: Side) -> &Batch
        ensures { result.now ≡ batch_of role self.now }
    {
        match role {
            Side::Log => &self.log,
            Side::Home => &self.home,
        }
    }

    /// That of a side, to be changed.
    pub(super) fn of_mut(&mut self, role: Side) -> &mut Batch
        ensures* lends { sem 𝓛 (LendsBatch role self.entry result) }
        ensures now { result.now ≡ batch_of role self.old }
    {
        match role {
            Side::Log => &mut self.log,
            Side::Home => &mut self.home,
        }
    }
}
