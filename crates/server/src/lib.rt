//! The TCP server: its threads, its connections, and how it ends.
#![tactic(auto)]

mod acceptor;
mod announcer;
mod batch;
mod driver;
mod installer;
mod jobs;
mod logger;
mod reader;
mod startup;
mod state;
mod threads;
mod workers;

pub use announcer::Announcer;
pub use pool::Ended;
pub use startup::serve_store;
pub use threads::{ServeFault, serve};
