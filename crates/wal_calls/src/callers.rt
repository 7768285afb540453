//! The device calls of the log: who takes one from the core, makes it and gives it back.

mod caller;
mod calls;
mod one_call;
mod options;
mod stepped;

pub use caller::{Caller, Installer, Logger};
pub use one_call::{install_one, log_one, make_one};
pub use stepped::Stepped;
