//! What an opening reads too: the super block, and the log.
ghost use Rattle.std.specs.Prelude.{◌≡◌, ◌≤◌, IfErr, IfOk};
ghost use Rattle.base.specs.declared.TheConstants.{FIRST_HOME_BLOCK, SUPER_BLOCK};
ghost use Rattle.layout.specs.SuperForm.{IsSuper};
ghost use Rattle.circ.specs.Log.Overlay.{HasHomes, IsInRange, logged_in};
ghost use Rattle.circ.specs.Log.Recovery.{HasOnlyRead, IsCertain, image_of};
ghost use Rattle.image_check.specs.Checked.{CountsCheck, IsNotGood};
ghost use Rattle.image_check.specs.Refused.{IsRefusal, of_log, of_open};

use crate::CheckFault;
use circ::{LogFault, read_log};
use disk::{Block, CrashDisk};
use image_read::Overlay;
use layout::Super;
use std::alloc::Global;
use store_images::read_super;
use store_promise::OpenFault;

// The super block of an image, as far as it may be opened.
#[tactic(auto, using(circ::proofs::LogLemmas::OnlyRead::no_read))]
pub(crate) fn read_first<D: CrashDisk>(alloc: Global, disk: &mut D) -> Result<Super, CheckFault>
    ensures reads { HasOnlyRead (D.device disk.old) (D.device disk.new) }
    ensures failure { CountsCheck (D.device disk.old) (D.device disk.new) result }
    ensures model { D.keeps_model disk.new → D.keeps_model disk.old }
    ensures blocks { IfOk result (λ found. found.geometry.blocks ≡ (D.device disk.old).size) }
    ensures found { D.keeps_model disk.new → IsCertain (D.device disk.old)
        → IfOk result (IsSuper (image_of (D.device disk.old) SUPER_BLOCK)) }
    ensures refused { D.keeps_model disk.new → IsCertain (D.device disk.old) → IfErr result
        (IsRefusal (IsNotGood (D.device disk.old).size (image_of (D.device disk.old)))) }
{
    let mut block = match Block::zeros(alloc) {
        Ok(block) => block,
        Err(error) => return Err(CheckFault::NoMemory(error)),
    };
    match read_super(disk, &mut block) {
        Ok(found) => Ok(found),
        Err(cause) => Err(of_open(cause)),
    }
}

// The blocks in the log of an image.
pub(crate) fn read_overlay<D: CrashDisk>(alloc: Global, disk: &mut D) -> Result<Overlay, CheckFault>
    requires { FIRST_HOME_BLOCK ≤ (D.device disk.old).size }
    ensures reads { HasOnlyRead (D.device disk.old) (D.device disk.new) }
    ensures failure { CountsCheck (D.device disk.old) (D.device disk.new) result }
    ensures model { D.keeps_model disk.new → D.keeps_model disk.old }
    ensures log { D.keeps_model disk.new → IsCertain (D.device disk.old)
        → IfOk result (λ overlay. overlay ≡ logged_in (image_of (D.device disk.old))) }
    ensures range { D.keeps_model disk.new → IsCertain (D.device disk.old)
        → IfOk result (λ _. IsInRange (image_of (D.device disk.old))) }
    ensures homes { D.keeps_model disk.new → IsCertain (D.device disk.old)
        → IfOk result (λ _. HasHomes (D.device disk.old).size (image_of (D.device disk.old))) }
    ensures refused { D.keeps_model disk.new → IsCertain (D.device disk.old) → IfErr result
        (IsRefusal (IsNotGood (D.device disk.old).size (image_of (D.device disk.old)))) }
{
    match read_log(alloc, disk) {
        Ok(logged) => Ok(Overlay::new(logged)),
        Err(cause) => Err(of_log(cause)),
    }
}

// What refuses an opening refuses a check.
fn of_open(cause: OpenFault) -> CheckFault
    ensures { result ≡ of_open cause }
{
    match cause {
        OpenFault::Magic => CheckFault::Magic,
        OpenFault::Version => CheckFault::Version,
        OpenFault::Range => CheckFault::Range,
        OpenFault::Log => CheckFault::Log,
        OpenFault::Device => CheckFault::Device,
        OpenFault::NoMemory(error) => CheckFault::NoMemory(error),
    }
}

// So does a log that can't be read.
fn of_log(cause: LogFault) -> CheckFault
    ensures { result ≡ of_log cause }
{
    match cause {
        LogFault::Range | LogFault::Address => CheckFault::Log,
        LogFault::Device => CheckFault::Device,
        LogFault::NoMemory(error) => CheckFault::NoMemory(error),
    }
}
