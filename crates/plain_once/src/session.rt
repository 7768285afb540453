//! A session over a fresh tree in memory: bytes in, in any pieces, and the bytes of the replies out. It judges
//! messages and spells replies as the server's wire does, and runs the bodies of the procedures that the server
//! runs, over that tree. It shares nothing else with the server.

mod answers;
mod image;
mod mounted;
mod reader;
mod records;
mod session;
mod session_laws;

pub use answers::FakeClock;
pub use image::data_blocks;
pub use records::{Cut, first_record};
pub use session::{Connection, PlainSession, answer_stream};
pub use session_laws::{a_stream_begins_one_way, pieces_come_to_one, sessions_keep_files_sound};
