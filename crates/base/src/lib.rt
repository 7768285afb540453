//! What everything stands on: the numbers of the server that are choices (limits, sizes and places of the format),
//! which no code and no proof repeats, blocks and bytes that are shared by pointer, and the parts of a failed allocation.
#![tactic(auto)]

mod buffers;
mod refused;

pub use buffers::{Block, CowBlock, Pieces, SharedBlock, SharedOctets};
pub use refused::apart;

/// The bytes of a block.
pub const BLOCK_BYTES: usize = 4096;

// The places of blocks in an image.

/// The super block.
pub const SUPER_BLOCK: u32 = 0;
/// The header of the log: `end` and the home addresses of the slots.
pub const LOG_HEADER_BLOCK: u32 = 1;
/// The block of the log's slot 0.
pub const FIRST_SLOT_BLOCK: u32 = 2;
/// The slots of the log, one a block.
pub const LOG_SLOTS: u64 = 511;
/// The block of `start`, the first that isn't on the device's log side.
pub const START_BLOCK: u32 = 513;
/// The first block that a change may write.
pub const FIRST_HOME_BLOCK: u32 = 514;

// The sizes of an image.

/// The fewest blocks of an image.
pub const LEAST_BLOCKS: u32 = 1024;
/// The most blocks of an image.
pub const MOST_BLOCKS: u32 = 1_048_576;
/// The fewest inodes of an image.
pub const LEAST_INODES: u32 = 32;
/// The most inodes of an image.
pub const MOST_INODES: u32 = 65_536;
/// The inodes of a block of the inode table, of which the inodes of an image are a multiple.
pub const INODES_PER_BLOCK: u32 = 32;
/// The fewest data blocks of an image.
pub const LEAST_DATA_BLOCKS: u32 = 64;
/// The bytes of an inode.
pub const INODE_BYTES: usize = 128;
/// The bits of a block of a bitmap.
pub const BITS_PER_BLOCK: u32 = 32_768;
/// The first version of the format: its images are opened, and have the newest version from then on.
pub const FIRST_VERSION: u32 = 1;
/// The version of the format that a new image gets.
pub const FORMAT_VERSION: u32 = 2;

// The sizes of files.

/// The number of the one file system that is exported.
pub const FILE_SYSTEM: u64 = 1;
/// The number of the root.
pub const ROOT: u32 = 1;
/// The mode of a fresh root: read, write and search for its owner, read and search for everybody else.
pub const ROOT_MODE: u32 = 0o755;
/// The indexes of a file that its inode names directly.
pub const DIRECT_INDEXES: usize = 8;
/// The indexes that an indirect block names.
pub const INDIRECT_INDEXES: usize = 1024;
/// The first index that a double indirect block reaches.
pub const FIRST_DOUBLE_INDEX: usize = 1032;
/// The indexes that a double indirect block reaches: it has the numbers of so many inner blocks as an indirect
/// block has numbers, and each of these has as many.
pub const DOUBLE_INDEXES: usize = 1_048_576;
/// The indexes of the largest file.
pub const FILE_INDEXES: usize = 1_049_608;
/// The bytes of the largest file.
pub const LARGEST_FILE: u64 = 4_299_194_368;
/// The most blocks that a directory spans.
pub const MOST_SPAN: usize = 1032;
/// The bytes of the largest directory.
pub const LARGEST_DIRECTORY: u64 = 4_227_072;
/// The slots of a block of a directory.
pub const SLOTS_PER_BLOCK: u32 = 32;
/// The most bytes of a name.
pub const NAME_BYTES: usize = 112;
/// The most bytes of a link's target.
pub const TARGET_BYTES: usize = 1024;
/// The most names of a file, and the greatest link count of a directory.
pub const MOST_LINKS: u32 = 32_000;
/// The bits of a mode that a file keeps.
pub const MODE_BITS: u32 = 4095;
/// The bit of a mode that lets others read.
pub const READ_RIGHT: u32 = 4;
/// The bit of a mode that lets others write.
pub const WRITE_RIGHT: u32 = 2;
/// The bit of a mode that lets others execute a file or search a directory.
pub const EXECUTE_RIGHT: u32 = 1;
/// By what the bits of others are multiplied to have those of the group.
pub const GROUP_CLASS: u32 = 8;
/// By what the bits of others are multiplied to have those of the owner.
pub const OWNER_CLASS: u32 = 64;
/// The mode of a new file that is given none: read and write for its owner, read for everybody else.
pub const NEW_FILE_MODE: u32 = 0o644;
/// The mode of a new file of an exclusive CREATE, which gives none: read and write for its owner.
pub const EXCLUSIVE_MODE: u32 = 0o600;
/// The mode of a new directory that is given none.
pub const NEW_DIRECTORY_MODE: u32 = 0o755;
/// The mode of a new link that is given none.
pub const NEW_LINK_MODE: u32 = 0o777;
/// Nanoseconds of a second: those of a time lie below.
pub const NANOSECONDS: u32 = 1_000_000_000;

// The sizes of calls.

/// The most bytes of a record.
pub const RECORD_BYTES: usize = 139_264;
/// The bytes of a handle of this server.
pub const HANDLE_BYTES: usize = 20;
/// The most bytes of a handle on the wire.
pub const MOST_HANDLE_BYTES: usize = 64;
/// The most bytes of the body of a credential or a verifier.
pub const MOST_AUTH_BYTES: usize = 400;
/// The most bytes of a machine's name in a credential.
pub const MACHINE_NAME_BYTES: usize = 255;
/// The most further groups of a credential.
pub const MOST_GIDS: usize = 16;
/// The user and the group of a call without credential.
pub const NOBODY: u32 = 65_534;
/// The most bytes that one READ or WRITE moves.
pub const TRANSFER_BYTES: u32 = 131_072;
/// Of what the sizes of READ and WRITE are best a multiple.
pub const TRANSFER_MULTIPLE: u32 = 4096;
/// The most bytes of a listing of a directory that its call may ask for.
pub const LISTING_BYTES: u32 = 32_768;
/// The bytes of a listing that are best asked for.
pub const LISTING_PREFERRED: u32 = 8192;
/// The bytes that a listing takes before its first entry.
pub const LISTING_FRAME: u32 = 104;
/// The bytes that an entry of READDIR takes, but for its name.
pub const LISTED_ITEM_BYTES: u32 = 24;
/// The bytes that an entry of READDIRPLUS takes, but for its name.
pub const LISTED_ITEM_PLUS_BYTES: u32 = 140;
/// The step in which the server tells the time of day, in nanoseconds.
pub const CLOCK_STEP: u32 = 1;

// The sizes of sessions.

/// The most reads of one session.
pub const MOST_READS: u64 = 1 << 48;
/// The bytes that a session reads at once.
pub const PIECE_BYTES: usize = 4096;

// The sizes of transactions and runs.

/// The most blocks that a transaction changes.
pub const CHANGED_BLOCKS: usize = 128;
/// The most commits that an open store keeps in memory once it has settled: where there are more, what is
/// logged is brought home.
pub const MOST_UNINSTALLED_COMMITS: usize = 64;
/// How many clean blocks stay in memory that no call needs, those used last.
pub const CLEAN_BLOCKS: usize = 16_384;

// The sizes of `serve`.

/// The most workers, of the type by which `clap` bounds a number.
pub const MOST_WORKERS: i64 = 64;
/// The most connections that are open: a further one is closed at once, where none of them gives it its place.
pub const MOST_CONNECTIONS: usize = 64;
/// A connection that has been silent for longer gives its place to a new one.
pub const SILENT_SECONDS: u64 = 60;
/// The most jobs that wait for a worker: each has a record of up to 136 KB.
pub const MOST_JOBS: usize = 64;
/// The most threads that take jobs off their queue.
pub const MOST_JOB_THREADS: usize = 4;
/// The bytes that are read of a stream at once.
pub const STREAM_PIECE_BYTES: usize = 65_536;
/// The most calls of a connection that are driven in one batch, while the others wait for theirs.
pub const BATCH_CALLS: usize = 8;
/// The most steps of a call that are made in a row, before others come to theirs.
pub const STEPS_IN_A_ROW: usize = 64;
/// Replies of a piece are written once there are so many bytes of them.
pub const REPLY_BATCH_BYTES: usize = 65_536;
/// Where more bytes of replies wait to be written, the connection isn't read.
pub const MOST_WAITING_BYTES: usize = 262_144;
/// How long a write may wait for its client, before the connection ends.
pub const WRITE_SECONDS: u64 = 15;
/// How long nothing may come of a client, before the connection ends.
pub const IDLE_SECONDS: u64 = 900;
/// How long the installer waits for more groups, once one is settled.
pub const INSTALL_MILLISECONDS: u64 = 50;
/// Of how many kept commits on the installer doesn't wait.
pub const URGENT_COMMITS: usize = 256;
/// Of how many pinned blocks on who has committed waits until some are let go: a commit pins what it has read until it is home.
pub const CROWDING_BLOCKS: usize = 16_384;
/// How often a thread that is kept off yields before it sleeps.
pub const YIELDS: u32 = 8;
/// How long it sleeps first.
pub const FIRST_SLEEP_MICROSECONDS: u64 = 50;
/// How long it sleeps at most.
pub const LONGEST_SLEEP_MICROSECONDS: u64 = 1000;
/// How long is waited after an accept that failed, before the next.
pub const ACCEPT_SLEEP_MILLISECONDS: u64 = 20;
/// How long who found no room in the log, or too many blocks pinned, waits before looking again.
pub const FULL_MILLISECONDS: u64 = 20;

const _: () = prove!(FIRST_DOUBLE_INDEX == DIRECT_INDEXES + INDIRECT_INDEXES);

const _: () = prove!(DOUBLE_INDEXES == INDIRECT_INDEXES * INDIRECT_INDEXES);

const _: () = prove!(FILE_INDEXES == FIRST_DOUBLE_INDEX + DOUBLE_INDEXES);

const _: () = prove!(LARGEST_FILE == FILE_INDEXES as u64 * BLOCK_BYTES as u64);

const _: () = prove!(MOST_SPAN == DIRECT_INDEXES + INDIRECT_INDEXES);

const _: () = prove!(LARGEST_DIRECTORY == MOST_SPAN as u64 * BLOCK_BYTES as u64);

const _: () = prove!(FIRST_SLOT_BLOCK as u64 + LOG_SLOTS == START_BLOCK as u64);
