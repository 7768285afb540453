//! What is told of the files of an image.
ghost use Rattle.std.specs.Prelude.{◌≡◌, ◌≤◌, ℕ, MatchResult};
ghost use Rattle.base.specs.declared.TheConstants.{FIRST_HOME_BLOCK};
ghost use Rattle.layout.specs.Homes.{homes_of};
ghost use Rattle.layout.specs.Stands.{Stands};
ghost use Rattle.nfs_spec.specs.Model.Tree.{Tree};
ghost use Rattle.circ.specs.Log.Overlay.{logged_in, over};
ghost use Rattle.circ.specs.Log.Recovery.{HasOnlyRead, IsCertain, image_of};
ghost use Rattle.image_read.specs.Parts.Table.{CountsPart};
ghost use Rattle.store_images.specs.BringingHome.{CountsCause};
ghost use Rattle.store_promise.specs.GoodImage.{IsGoodImage};
ghost use Rattle.image_contents.specs.Lines.Shown.{AreLines, IsOverlay, IsShown};

use crate::lines::{Line, read_lines};
use circ::{LogFault, read_log};
use disk::{Block, CrashDisk};
use image_read::{Overlay, PartFault, read_table};
use layout::Geometry;
use std::alloc::Global;
use store_images::read_super;
use store_promise::OpenFault;

/// The lines of the files of an image, by rising number, as its log makes them. It only reads. An image is refused as an
/// opening refuses it, by its super block (Magic, Version, Range) or its log (Log), and where the layout refuses an inode
/// or the numbers of a regular file's blocks (Range). Device comes just where a call of the device failed, and NoMemory
/// where an allocation did. Of an image that isn't good the lines may be of no tree.
#[tactic(auto, using(circ::proofs::LogLemmas::OnlyRead::reads_then, circ::proofs::LogLemmas::OnlyRead::no_read))]
pub fn show<D: CrashDisk>(alloc: Global, disk: &mut D) -> Result<Vec<Line>, OpenFault>
    ensures reads { HasOnlyRead (D.device disk.old) (D.device disk.new) }
    ensures failure { MatchResult result (λ _. (D.device disk.new).failures ≡ (D.device disk.old).failures)
        (λ cause. CountsCause cause (D.device disk.old) (D.device disk.new)) }
    ensures model { D.keeps_model disk.new → D.keeps_model disk.old }
    ensures shown { D.keeps_model disk.new → IsCertain (D.device disk.old) → (tree : Tree) (boot : ℕ)
        → IsGoodImage (D.device disk.old).size (image_of (D.device disk.old)) tree boot
        → IsShown tree boot result }
{
    let mut block = Block::zeros(alloc)?;
    let found = read_super(disk, &mut block)?;
    let overlay = read_overlay(alloc, disk)?;
    match all_lines(alloc, disk, &overlay, &found.geometry) {
        Ok(lines) => Ok(lines),
        Err(PartFault::Range) => Err(OpenFault::Range),
        Err(PartFault::Device) => Err(OpenFault::Device),
        Err(PartFault::NoMemory(error)) => Err(OpenFault::NoMemory(error)),
    }
}

// What the log of an image lays over it.
#[tactic(auto, using(circ::proofs::LogLemmas::OnlyRead::no_read))]
fn read_overlay<D: CrashDisk>(alloc: Global, disk: &mut D) -> Result<Overlay, OpenFault>
    requires { FIRST_HOME_BLOCK ≤ (D.device disk.old).size }
    ensures reads { HasOnlyRead (D.device disk.old) (D.device disk.new) }
    ensures failure { MatchResult result (λ _. (D.device disk.new).failures ≡ (D.device disk.old).failures)
        (λ cause. CountsCause cause (D.device disk.old) (D.device disk.new)) }
    ensures model { D.keeps_model disk.new → D.keeps_model disk.old }
    ensures overlay { D.keeps_model disk.new → IsCertain (D.device disk.old)
        → IsOverlay (D.device disk.old).size (image_of (D.device disk.old)) result }
{
    match read_log(alloc, disk) {
        Ok(logged) => Ok(Overlay::new(logged)),
        Err(LogFault::Range | LogFault::Address) => Err(OpenFault::Log),
        Err(LogFault::Device) => Err(OpenFault::Device),
        Err(LogFault::NoMemory(error)) => Err(OpenFault::NoMemory(error)),
    }
}

// The lines of the files in the table of an image.
#[tactic(auto, using(circ::proofs::LogLemmas::OnlyRead::reads_then, circ::proofs::LogLemmas::OnlyRead::no_read))]
fn all_lines<D: CrashDisk>(
    alloc: Global,
    disk: &mut D,
    overlay: &Overlay,
    geometry: &Geometry,
) -> Result<Vec<Line>, PartFault>
    requires { geometry.now.blocks ≤ (D.device disk.old).size }
    ensures reads { HasOnlyRead (D.device disk.old) (D.device disk.new) }
    ensures failure { CountsPart (D.device disk.old) (D.device disk.new) result }
    ensures model { D.keeps_model disk.new → D.keeps_model disk.old }
    ensures lines { D.keeps_model disk.new → IsCertain (D.device disk.old) → (tree : Tree)
        → overlay.now ≡ logged_in (image_of (D.device disk.old))
        → Stands geometry.now (homes_of geometry.now.blocks (over (image_of (D.device disk.old)))) tree
        → AreLines tree result }
{
    let table = read_table(alloc, disk, overlay, geometry)?;
    read_lines(alloc, disk, overlay, geometry, &table)
}
