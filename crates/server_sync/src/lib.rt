//! What the threads of a TCP server share: the moments of calls, what threads wait for, how long a connection is
//! silent, and changes that wait to be settled.
#![tactic(auto)]

mod free_keys;
mod free_seats;
mod log_waits;
mod moments;
mod notifier;
mod pending;
mod rounds;
mod seats;
mod silence;
mod waiting;

pub use free_keys::{FreeKeys, SeatKey};
pub use free_seats::FreeSeats;
pub use log_waits::LogWaits;
pub use moments::{Moments, moment_of};
pub use notifier::Notifier;
pub use pending::{Notice, Pending};
pub use rounds::Rounds;
pub use seats::Seats;
pub use silence::{Silence, Silent, steady_second};
pub use waiting::{Next, SeatAwaitingLog, Waiting};
