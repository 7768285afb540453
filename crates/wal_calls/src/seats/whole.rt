//! A ledger of device calls whose parts a type may name.
ghost use Rattle.disk.specs.declared.block.Side.{Side};
ghost use Rattle.disk.specs.declared.block.Side.TheVariants.{Log};

use std::marker::Brand;
use std::sync::ledger::Ledger;

/// A ledger of the device calls that a core hands out to a side. Who names it says which side that is, how many parts
/// it has, how many calls the core had handed out when the ledger began, and the core's boot number.
pub trait Whole: Ledger {
    ghost use Rattle.std.specs.Prelude.{ℕ};

    /// The side.
    ghost side: { Side };

    /// Its parts.
    ghost all: { ℕ };

    /// How many calls were handed out before it.
    ghost first: { ℕ };

    /// The boot number of the core.
    ghost boot: { ℕ };
}

impl Whole for Brand {
    ghost side = { Log };

    ghost all = { 0 };

    ghost first = { 0 };

    ghost boot = { 0 };
}
