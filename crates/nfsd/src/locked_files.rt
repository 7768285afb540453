//! The file, or the block device, that an image lies in.
ghost use Rattle.std.specs.Prelude.{◌≡◌, [], IfOk};
ghost use Rattle.disk.specs.Crash.{IsAtRest};
ghost use Rattle.disk_file.specs.File.{file_device, first_in};
ghost use Rattle.nfsd.specs.Done.{AreAsked};

use base::{BLOCK_BYTES, MOST_BLOCKS};
use disk_file::{BlockFile, FileDisk, open_locked};
use layout::Super;
use std::fs::{Files, OpenFile};
use std::io;
use std::io::{ErrorKind, Read, Seek, SeekFrom};
use std::os::unix::fs::FileTypeExt;

// How many blocks a file gets where no number is asked for.
const FILE_BLOCKS: u32 = 16_384;

/// Opens or makes what is to hold an image, locks it, and settles it. A file is given as many blocks as are asked
/// for, or 16384. A block device keeps its size: what is asked for has to fit, and is else all of it, up to the
/// most blocks of an image.
pub fn make_image<R: Files>(
    rt: &R,
    path: &str,
    blocks: Option<u32>,
) -> io::Result<FileDisk<R::File>>
where
    R::File: BlockFile,
    ensures size { IfOk result (λ d. AreAsked blocks d.blocks) }
    ensures rest { IfOk result (λ d. IsAtRest (file_device (first_in d.first.blocks.items) d.blocks
        d.file.calls.items)) }
    ensures fresh { IfOk result (λ d. d.file.calls.items ≡ []) }
{
    if !is_block_device(rt, path) {
        return match blocks {
            None => FileDisk::create(rt, path, FILE_BLOCKS),
            Some(asked) => FileDisk::create(rt, path, asked),
        };
    }
    let mut file = open_locked(rt, path)?;
    let size = size_of_device(&mut file)?;
    match blocks {
        None => Ok(FileDisk::over(file, size.min(MOST_BLOCKS))),
        Some(asked) if asked <= size => Ok(FileDisk::over(file, asked)),
        Some(_) => Err(io::Error::from(ErrorKind::FileTooLarge)),
    }
}

/// Opens a file or a block device, locks it, and then settles it. Its blocks are the whole ones of a file's length, up
/// to the greatest number of them, and those that the image's first block tells of a device.
pub fn open_image<R: Files>(rt: &R, path: &str) -> io::Result<FileDisk<R::File>>
where
    R::File: BlockFile,
    ensures rest { IfOk result (λ d. IsAtRest (file_device (first_in d.first.blocks.items) d.blocks
        d.file.calls.items)) }
    ensures fresh { IfOk result (λ d. d.file.calls.items ≡ []) }
{
    if !is_block_device(rt, path) {
        return FileDisk::open(rt, path);
    }
    let mut file = open_locked(rt, path)?;
    let blocks = blocks_in(rt, path, &mut file)?;
    Ok(FileDisk::over(file, blocks))
}

/// How many blocks there are in the file or block device of this name, by an opening of it.
pub fn blocks_in<R: Files>(rt: &R, path: &str, file: &mut R::File) -> io::Result<u32> {
    if is_block_device(rt, path) {
        let size = size_of_device(file)?;
        return blocks_of_image(file, size);
    }
    let blocks = file.metadata()?.len() / BLOCK_BYTES as u64;
    Ok(blocks.min(u64::from(u32::MAX)) as u32)
}

// Whether a block device has this name.
fn is_block_device<R: Files>(rt: &R, path: &str) -> bool {
    match rt.metadata(path) {
        Ok(file_facts) => file_facts.file_type().is_block_device(),
        Err(_) => false,
    }
}

// How many blocks a block device has. Its length is 0: seeking tells.
fn size_of_device<F: Seek>(file: &mut F) -> io::Result<u32> {
    let blocks = file.seek(SeekFrom::End(0))? / BLOCK_BYTES as u64;
    Ok(blocks.min(u64::from(u32::MAX)) as u32)
}

/// How many blocks an image has that lies on a device of this size: all of it, where its first block can't be read or
/// tells nothing lawful.
pub fn blocks_of_image<F: Read + Seek>(file: &mut F, size: u32) -> io::Result<u32> {
    let mut block = [0u8; BLOCK_BYTES];
    file.seek(SeekFrom::Start(0))?;
    if file.read_exact(&mut block).is_err() {
        // The opening tells of it.
        return Ok(size);
    }
    match Super::read(&block) {
        Ok(found) => Ok(found.geometry.blocks.min(size)),
        Err(_) => Ok(size),
    }
}
