//! What connections and workers hand each other: jobs and where their answers go, replies to what begins no transaction,
//! and the connections that are open.

mod connections;
mod immediate;
mod job;
mod received;
mod reply_address;
mod stream;

pub use connections::{Bearer, ConnectionKey, Connections};
pub use immediate::Immediate;
pub use job::Job;
pub use received::Received;
pub use reply_address::ReplyAddress;
pub use stream::Stream;
