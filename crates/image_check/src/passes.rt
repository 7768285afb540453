//! An image, checked.
ghost use Rattle.std.specs.Prelude.{◌≡◌, ◌≤◌, length};
ghost use Rattle.base.specs.declared.TheConstants.{SUPER_BLOCK};
ghost use Rattle.layout.specs.SuperForm.{IsSuper};
ghost use Rattle.circ.specs.Log.Recovery.{HasOnlyRead, IsCertain, image_of};
ghost use Rattle.image_read.specs.LoggedImage.WithOverlay.{with_overlay};
ghost use Rattle.image_read.specs.Files.Content.{content_on};
ghost use Rattle.image_contents.specs.Bodies.Bodies.{FitsFound, IsFound};
ghost use Rattle.image_check.specs.Checked.{CountsCheck, IsChecked};
ghost use Rattle.image_check.specs.Refused.{of_part};
ghost use Rattle.image_check.specs.Searched.{AreBlocksOf, IsRead, IsSearched};

use crate::CheckFault;
use crate::first::{read_first, read_overlay};
use crate::judgement::{Counts, judge};
use disk::CrashDisk;
use image_contents::{Found, Progress, Untold, scan_all_files};
use image_read::{Overlay, PartFault, are_marked, read_table};
use layout::{Inode, Super};
use std::alloc::Global;

/// Whether the image of a disk is good, and how much of it is in use. It only reads. An image is refused by the first
/// of these that holds: the super block is refused as an opening refuses it (Magic, Version, Range), the log is (Log),
/// an inode is none (Range), the blocks of a file or the slots of a directory aren't as one file may have them (Range);
/// a block has two owners (Shared), a bitmap doesn't mark what is in use (Bitmap), the files make no tree (Tree). A
/// call of the device that fails and an allocation that fails end it at once (Device, NoMemory).
pub fn check<D: CrashDisk>(alloc: Global, disk: &mut D) -> Result<Counts, CheckFault>
    ensures reads { HasOnlyRead (D.device disk.old) (D.device disk.new) }
    ensures failure { CountsCheck (D.device disk.old) (D.device disk.new) result }
    ensures model { D.keeps_model disk.new → D.keeps_model disk.old }
    ensures checked { D.keeps_model disk.new → IsCertain (D.device disk.old)
        → IsChecked (D.device disk.old).size (image_of (D.device disk.old)) result }
{
    check_with_progress(alloc, disk, &mut Untold)
}

/// The same, by which `progress` is told how many inodes were gone through.
#[tactic(auto, using(circ::proofs::LogLemmas::OnlyRead::reads_then))]
pub fn check_with_progress<D: CrashDisk, P: Progress>(
    alloc: Global,
    disk: &mut D,
    progress: &mut P,
) -> Result<Counts, CheckFault>
    ensures reads { HasOnlyRead (D.device disk.old) (D.device disk.new) }
    ensures failure { CountsCheck (D.device disk.old) (D.device disk.new) result }
    ensures model { D.keeps_model disk.new → D.keeps_model disk.old }
    ensures checked { D.keeps_model disk.new → IsCertain (D.device disk.old)
        → IsChecked (D.device disk.old).size (image_of (D.device disk.old)) result }
{
    match read_first(alloc, disk) {
        Ok(found) => check_log(alloc, disk, &found, progress),
        Err(cause) => Err(cause),
    }
}

// The same, by the super block of the image.
#[tactic(auto, using(circ::proofs::LogLemmas::OnlyRead::reads_then))]
fn check_log<D: CrashDisk, P: Progress>(
    alloc: Global,
    disk: &mut D,
    found: &Super,
    progress: &mut P,
) -> Result<Counts, CheckFault>
    requires { found.now.geometry.blocks ≡ (D.device disk.old).size }
    ensures reads { HasOnlyRead (D.device disk.old) (D.device disk.new) }
    ensures failure { CountsCheck (D.device disk.old) (D.device disk.new) result }
    ensures model { D.keeps_model disk.new → D.keeps_model disk.old }
    ensures checked { D.keeps_model disk.new → IsCertain (D.device disk.old)
        → IsSuper (image_of (D.device disk.old) SUPER_BLOCK) found.now
        → IsChecked (D.device disk.old).size (image_of (D.device disk.old)) result }
{
    match read_overlay(alloc, disk) {
        Ok(overlay) => search(alloc, disk, &overlay, found, progress),
        Err(cause) => Err(cause),
    }
}

// Whether the files of an image, with these blocks laid over it, make a tree by the numbers of this super block.
#[tactic(auto, using(circ::proofs::LogLemmas::OnlyRead::reads_then))]
fn search<D: CrashDisk, P: Progress>(
    alloc: Global,
    disk: &mut D,
    overlay: &Overlay,
    found: &Super,
    progress: &mut P,
) -> Result<Counts, CheckFault>
    requires { found.now.geometry.blocks ≤ (D.device disk.old).size }
    ensures reads { HasOnlyRead (D.device disk.old) (D.device disk.new) }
    ensures failure { CountsCheck (D.device disk.old) (D.device disk.new) result }
    ensures model { D.keeps_model disk.new → D.keeps_model disk.old }
    ensures searched { D.keeps_model disk.new → IsCertain (D.device disk.old)
        → AreBlocksOf found.now.geometry.blocks (with_overlay overlay.now (image_of (D.device disk.old)))
        → IsSearched found.now.geometry found.now.boot (with_overlay overlay.now (image_of (D.device disk.old))) result }
{
    match read_table(alloc, disk, overlay, &found.geometry) {
        Ok(table) => search_files(alloc, disk, overlay, found, &table, progress),
        Err(cause) => Err(of_part(cause)),
    }
}

// The same, by the table of the image.
#[tactic(auto, using(circ::proofs::LogLemmas::OnlyRead::reads_then))]
fn search_files<D: CrashDisk, P: Progress>(
    alloc: Global,
    disk: &mut D,
    overlay: &Overlay,
    found: &Super,
    table: &[Option<Inode>],
    progress: &mut P,
) -> Result<Counts, CheckFault>
    requires size { found.now.geometry.blocks ≤ (D.device disk.old).size }
    requires table { length table.now ≡ found.now.geometry.inodes }
    ensures reads { HasOnlyRead (D.device disk.old) (D.device disk.new) }
    ensures failure { CountsCheck (D.device disk.old) (D.device disk.new) result }
    ensures model { D.keeps_model disk.new → D.keeps_model disk.old }
    ensures searched { D.keeps_model disk.new → IsCertain (D.device disk.old)
        → IsRead found.now.geometry (with_overlay overlay.now (image_of (D.device disk.old))) table.now
        → IsSearched found.now.geometry found.now.boot (with_overlay overlay.now (image_of (D.device disk.old))) result }
{
    match scan_all_files(alloc, disk, overlay, &found.geometry, table, progress) {
        Ok(files) => search_marks(alloc, disk, overlay, found, table, &files),
        Err(cause) => Err(of_part(cause)),
    }
}

// The same, by what was found in all files.
#[tactic(auto, using(circ::proofs::LogLemmas::OnlyRead::no_read))]
fn search_marks<D: CrashDisk>(
    alloc: Global,
    disk: &mut D,
    overlay: &Overlay,
    found: &Super,
    table: &[Option<Inode>],
    files: &Found,
) -> Result<Counts, CheckFault>
    requires size { found.now.geometry.blocks ≤ (D.device disk.old).size }
    requires table { length table.now ≡ found.now.geometry.inodes }
    requires fits { FitsFound found.now.geometry files.now }
    ensures reads { HasOnlyRead (D.device disk.old) (D.device disk.new) }
    ensures failure { CountsCheck (D.device disk.old) (D.device disk.new) result }
    ensures model { D.keeps_model disk.new → D.keeps_model disk.old }
    ensures searched { D.keeps_model disk.new → IsCertain (D.device disk.old)
        → IsRead found.now.geometry (with_overlay overlay.now (image_of (D.device disk.old))) table.now
        → IsFound found.now.geometry (content_on found.now.geometry overlay.now (D.device disk.old)) table.now
        found.now.geometry.inodes files.now
        → IsSearched found.now.geometry found.now.boot (with_overlay overlay.now (image_of (D.device disk.old))) result }
{
    if files.owners.is_shared() {
        return Err(CheckFault::Shared);
    }
    match are_marked(alloc, disk, overlay, &found.geometry, &files.owners, table) {
        Ok(true) => judge(alloc, found.boot, table, files),
        Ok(false) => Err(CheckFault::Bitmap),
        Err(cause) => Err(of_part(cause)),
    }
}

// What is refused of a part is refused of the image.
fn of_part(cause: PartFault) -> CheckFault
    ensures { result ≡ of_part cause }
{
    match cause {
        PartFault::Range => CheckFault::Range,
        PartFault::Device => CheckFault::Device,
        PartFault::NoMemory(error) => CheckFault::NoMemory(error),
    }
}
