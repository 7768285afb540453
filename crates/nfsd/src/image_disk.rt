//! What a command left of an image, for proofs alone.
use disk_file::{BlockFile, FileDisk, ThreadedDisk};
use server::Ended;
use std::snapshot::Snapshot;

/// The device of an image over its file, or over one that is watched, as `serve` opens it: as a command left it; or of a
/// server that ended well the core, in which all is settled. It is for proofs alone, and takes no memory. The device itself
/// is closed, so who has this can do nothing to the image.
#[derive(Drop)]
pub enum ImageDisk<F: BlockFile, W: BlockFile> {
    Plain(Snapshot<FileDisk<F>>),
    Watched(Snapshot<ThreadedDisk<W>>),
    Served(Snapshot<Ended>),
}
