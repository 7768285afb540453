//! The device calls of the logger and the installer of a core among threads: each is taken and given back by
//! one step of the core, and made on a port in between.

mod due;
mod gate;
mod handed;
mod seat;
mod steps;
mod turn;
mod whole;

pub use due::Shown;
pub use gate::{Gate, NoGate, Point};
pub use handed::HandedOut;
pub use seat::IoSeat;
pub use steps::{give_up, make_call, step_calls};
pub use turn::Turn;
pub use whole::Whole;
