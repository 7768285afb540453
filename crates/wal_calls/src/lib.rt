//! The device calls of the log's two writers: who takes one from the core, makes it on a port and gives it back,
//! alone or among threads.
#![tactic(auto)]

mod callers;
mod seats;

pub use callers::{Caller, Installer, Logger, Stepped, install_one, log_one, make_one};
pub use seats::{
    Gate, HandedOut, IoSeat, NoGate, Point, Shown, Turn, Whole, give_up, make_call, step_calls,
};
