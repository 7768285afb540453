//! Making an image: the order of its device calls. What its blocks hold is `layout`'s.
ghost use Rattle.std.specs.Prelude.{◌≡◌, ◌≤◌, ◌<◌, OnOk, alloc_error, replicate};
ghost use Rattle.disk.specs.Blocks.{AreBlocks};
ghost use Rattle.disk.specs.Crash.{IsAtRest};
ghost use Rattle.disk.specs.Device.{CountsFailure, Device, HasWritten};
ghost use Rattle.layout.specs.Fresh.{fresh};
ghost use Rattle.layout.specs.Geometry.{IsLawful, data_at};
ghost use Rattle.base.specs.declared.TheConstants.{BLOCK_BYTES, FIRST_HOME_BLOCK, SUPER_BLOCK};
ghost use Rattle.nfs_spec.specs.Model.Sound.{SoundTime};
ghost use Rattle.store_images.specs.Formatting.{HasFormatted, HasWrittenUpTo, IsBlank, IsMade, IsMadeBehind};
ghost use Rattle.store_images.specs.Formatting.{LeavesByFormat, LeavesSuper, Stops};

use base::{FIRST_HOME_BLOCK, LOG_HEADER_BLOCK, START_BLOCK, SUPER_BLOCK};
use disk::{Block, BlockNo, CrashDisk, Failed, Side};
use layout::{FormatVersion, FreshImage, Geometry, GeometryFault};
use nfs_types::Moment;
use std::alloc::{AllocError, Global};
use thiserror::Error;

/// Why an image isn't made.
#[derive(Clone, Copy, Debug, PartialEq, Eq, Error)]
pub enum FormatFault {
    /// The disk has too few blocks, or too many.
    #[error("Size")]
    Size,
    /// The inodes are too few, too many, no multiple of those of a block, or leave too few data blocks.
    #[error("Inodes")]
    Inodes,
    /// A call of the device failed.
    #[error("Device")]
    Device,
    /// An allocation failed: it bears the refusal.
    #[error("NoMemory")]
    NoMemory(AllocError),
}

impl From<AllocError> for FormatFault {
    ghost use Rattle.store_images.specs.declared.formatter.FormatFault.TheVariants.{NoMemory};

    ghost from_gives = { λ _ fault. fault ≡ NoMemory alloc_error };

    fn from(error: AllocError) -> FormatFault {
        FormatFault::NoMemory(error)
    }
}

/// Makes an image of all blocks of the disk, of the newest version of the format, with so many inodes, whose root is
/// made at the moment, which has less than a second of nanoseconds: no good image has a file of another one. It answers
/// the count of data blocks. The faults in their order: Size, Inodes, NoMemory, each before any write, and Device. While
/// it goes on, and where the device fails, the image is the old one, or one that has no super block, or the new one.
pub fn format<D: CrashDisk>(
    alloc: Global,
    disk: &mut D,
    inodes: u32,
    moment: Moment,
) -> Result<u32, FormatFault>
    requires { SoundTime moment }
    ensures formatted { HasFormatted (D.device disk.old) inodes moment result (D.device disk.new) }
    ensures lawful { OnOk result (IsLawful (D.device disk.old).size inodes) }
    ensures left { D.keeps_model disk.new
        → LeavesByFormat (D.device disk.old) inodes moment result (D.device disk.new) }
    ensures model { D.keeps_model disk.new → D.keeps_model disk.old }
{
    let geometry = match Geometry::new(FormatVersion::Second, disk.blocks(), inodes) {
        Ok(geometry) => geometry,
        Err(GeometryFault::Size) => return Err(FormatFault::Size),
        Err(GeometryFault::Inodes) => return Err(FormatFault::Inodes),
    };
    let mut block = Block::zeros(alloc)?;
    let image = FreshImage::new(alloc, geometry, moment)?;
    match make(disk, &mut block, &image, geometry.data().0) {
        Ok(()) => Ok(geometry.data_blocks()),
        Err(Failed) => Err(FormatFault::Device),
    }
}

// Writes the image's blocks and settles them, the super block last.
fn make<D: CrashDisk>(
    disk: &mut D,
    block: &mut Block,
    image: &FreshImage,
    end: u32,
) -> Result<(), Failed>
    requires blocks { image.now.geometry.blocks ≡ (D.device disk.old).size }
    requires end { end ≡ data_at image.now.geometry.blocks image.now.geometry.inodes }
    requires zeros { block.old ≡ replicate BLOCK_BYTES 0 }
    ensures made { OnOk result (IsMade (D.device disk.new) image.now.geometry image.now.made) }
    ensures stops { AreBlocks (D.device disk.new)
        → Stops (D.device disk.old) (D.device disk.new) image.now.geometry image.now.made }
    ensures rest { OnOk result (IsAtRest (D.device disk.old) → IsAtRest (D.device disk.new)) }
    ensures failure { CountsFailure (D.device disk.old) (D.device disk.new) result }
    ensures size { (D.device disk.new).size ≡ (D.device disk.old).size }
    ensures model { D.keeps_model disk.new → D.keeps_model disk.old }
{
    blank(disk, block)?;
    fill(disk, block, image, end)?;
    name(disk, block, image)
}

// Makes the super block's place blank, so that no image is there while the other blocks are written.
fn blank<D: CrashDisk>(disk: &mut D, zeros: &Block) -> Result<(), Failed>
    requires some { SUPER_BLOCK < (D.device disk.old).size }
    requires zeros { zeros.now ≡ replicate BLOCK_BYTES 0 }
    ensures blank { OnOk result (IsBlank (D.device disk.new)) }
    ensures stops { (g : Geometry) (moment : Moment) → Stops (D.device disk.old) (D.device disk.new) g moment }
    ensures rest { OnOk result (IsAtRest (D.device disk.old) → IsAtRest (D.device disk.new)) }
    ensures failure { CountsFailure (D.device disk.old) (D.device disk.new) result }
    ensures size { (D.device disk.new).size ≡ (D.device disk.old).size }
    ensures model { D.keeps_model disk.new → D.keeps_model disk.old }
{
    disk.write(BlockNo(SUPER_BLOCK), zeros)?;
    disk.barrier(Side::Home)
}

// Writes all other blocks that an image needs, and settles them.
fn fill<D: CrashDisk>(
    disk: &mut D,
    block: &mut Block,
    image: &FreshImage,
    end: u32,
) -> Result<(), Failed>
    requires blocks { image.now.geometry.blocks ≡ (D.device disk.old).size }
    requires end { end ≡ data_at image.now.geometry.blocks image.now.geometry.inodes }
    requires blank { IsBlank (D.device disk.old) }
    ensures made { OnOk result (IsMadeBehind (D.device disk.new) image.now.geometry image.now.made) }
    ensures first { LeavesSuper (D.device disk.old) (D.device disk.new) }
    ensures rest { OnOk result (IsAtRest (D.device disk.old) → IsAtRest (D.device disk.new)) }
    ensures failure { CountsFailure (D.device disk.old) (D.device disk.new) result }
    ensures size { (D.device disk.new).size ≡ (D.device disk.old).size }
    ensures model { D.keeps_model disk.new → D.keeps_model disk.old }
{
    write_one(disk, block, image, LOG_HEADER_BLOCK)?;
    write_one(disk, block, image, START_BLOCK)?;
    write_up_to(disk, block, image, end)?;
    disk.barrier(Side::Log)?;
    disk.barrier(Side::Home)
}

// Writes the super block, and settles it: from then on there is an image.
fn name<D: CrashDisk>(disk: &mut D, block: &mut Block, image: &FreshImage) -> Result<(), Failed>
    requires blocks { image.now.geometry.blocks ≡ (D.device disk.old).size }
    requires blank { IsBlank (D.device disk.old) }
    requires made { IsMadeBehind (D.device disk.old) image.now.geometry image.now.made }
    ensures made { OnOk result (IsMade (D.device disk.new) image.now.geometry image.now.made) }
    ensures stops { (before : Device) → AreBlocks (D.device disk.new)
        → Stops before (D.device disk.old) image.now.geometry image.now.made
        → Stops before (D.device disk.new) image.now.geometry image.now.made }
    ensures rest { OnOk result (IsAtRest (D.device disk.old) → IsAtRest (D.device disk.new)) }
    ensures failure { CountsFailure (D.device disk.old) (D.device disk.new) result }
    ensures size { (D.device disk.new).size ≡ (D.device disk.old).size }
    ensures model { D.keeps_model disk.new → D.keeps_model disk.old }
{
    write_one(disk, block, image, SUPER_BLOCK)?;
    disk.barrier(Side::Home)
}

// Writes the image's blocks from the first behind the log up to one.
fn write_up_to<D: CrashDisk>(
    disk: &mut D,
    block: &mut Block,
    image: &FreshImage,
    end: u32,
) -> Result<(), Failed>
    requires blocks { image.now.geometry.blocks ≡ (D.device disk.old).size }
    requires end { end ≤ image.now.geometry.blocks }
    requires some { FIRST_HOME_BLOCK ≤ end }
    ensures written { OnOk result
        (HasWrittenUpTo (D.device disk.old) image.now.geometry image.now.made end (D.device disk.new)) }
    ensures failure { CountsFailure (D.device disk.old) (D.device disk.new) result }
    ensures first { LeavesSuper (D.device disk.old) (D.device disk.new) }
    ensures size { (D.device disk.new).size ≡ (D.device disk.old).size }
    ensures model { D.keeps_model disk.new → D.keeps_model disk.old }
{
    'numbers: for number in FIRST_HOME_BLOCK..end {
        write_one(disk, block, image, number)?;
    }
    Ok(())
}

// Writes the image's block of this number.
fn write_one<D: CrashDisk>(
    disk: &mut D,
    block: &mut Block,
    image: &FreshImage,
    number: u32,
) -> Result<(), Failed>
    requires blocks { image.now.geometry.blocks ≡ (D.device disk.old).size }
    requires number { number < image.now.geometry.blocks }
    ensures written { HasWritten (D.device disk.old) number (fresh image.now.geometry image.now.made number)
        result (D.device disk.new) }
    ensures failure { CountsFailure (D.device disk.old) (D.device disk.new) result }
    ensures size { (D.device disk.new).size ≡ (D.device disk.old).size }
    ensures model { D.keeps_model disk.new → D.keeps_model disk.old }
{
    image.put(number, block);
    disk.write(BlockNo(number), block)
}
