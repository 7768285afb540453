//! A device of blocks that may stop at any time: what it promises, and one in memory.
#![tactic(auto)]

mod block;
mod call_record;
mod content_allocator;
mod contents;
mod device;
mod device_laws;
mod handed;
mod history;
mod mem_disk;
mod mem_ports;
mod ports;

pub use base::{Block, SharedBlock};
pub use block::{BlockNo, Side};
pub use device::{CrashDisk, Failed};
pub use device_laws::{
    a_crash_leaves_blocks, a_device_tells_of_blocks, one_image_at_rest, overlapping_calls_commute,
};
pub use handed::Handed;
pub use mem_disk::MemDisk;
pub use mem_ports::{MemPort, MemSource};
pub use ports::{Port, PortCall, Source, Splits};
