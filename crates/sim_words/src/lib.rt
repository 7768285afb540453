//! Scripts of schedules: what each line asks for, or the first line that asks for nothing.
#![tactic(auto)]

mod command;
mod fault;
mod line;
mod message;
mod numbers;
mod parts;
mod script;
mod script_cursor;
mod words;

pub use command::{Action, Choice, Command, OneEvent, WORKERS};
pub use fault::ScriptFault;
pub use script::{commands, stop_commands};
