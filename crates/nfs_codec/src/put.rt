//! Writing the items that arguments and results share (RFC 1813, sections 2.4 to 2.6).
ghost use Rattle.xdr.specs.Writing.{Writes};
ghost use Rattle.nfs_codec.specs.Items.{handle as handle_code, text as text_code, verifier as verifier_code};
ghost use Rattle.nfs_codec.specs.Items.{moment};
ghost use Rattle.nfs_codec.specs.Items.{device as device_code, stability as stability_code};

use crate::numbers::number_of_stability;
use nfs_types::{DeviceNumber, Handle, Moment, Octets, Stability, Verifier};
use xdr::{Writer, XdrFault};

/// A handle (`nfs_fh3`).
#[tactic(auto, unfolding(crate::specs::Items::handle))]
pub fn put_handle(out: &mut Writer, handle: &Handle) -> Result<(), XdrFault>
    ensures { Writes handle_code result out.old out.new handle.now }
{
    out.opaque(handle.bytes.as_slice())
}

/// A name, a target or data.
#[tactic(auto, unfolding(crate::specs::Items::text))]
pub fn put_text(out: &mut Writer, text: &Octets) -> Result<(), XdrFault>
    ensures { Writes text_code result out.old out.new text.now }
{
    out.opaque(text.as_slice())
}

/// Eight bytes as they came (`cookieverf3`, `createverf3`, `writeverf3`).
#[tactic(auto, unfolding(crate::specs::Items::verifier))]
pub fn put_verifier(out: &mut Writer, verifier: &Verifier) -> Result<(), XdrFault>
    ensures { Writes verifier_code result out.old out.new verifier.now }
{
    out.eight(&verifier.bytes)
}

/// A time (`nfstime3`).
#[tactic(auto, unfolding(crate::specs::Items::moment))]
pub fn put_moment(out: &mut Writer, time: &Moment) -> Result<(), XdrFault>
    ensures { Writes moment result out.old out.new time.now }
{
    out.unsigned(time.seconds)?;
    out.unsigned(time.nanoseconds)
}

/// The two numbers of a device (`specdata3`).
#[tactic(auto, unfolding(crate::specs::Items::device))]
pub fn put_device(out: &mut Writer, device: &DeviceNumber) -> Result<(), XdrFault>
    ensures { Writes device_code result out.old out.new device.now }
{
    out.unsigned(device.major)?;
    out.unsigned(device.minor)
}

/// How what is written is kept (`stable_how`).
#[tactic(auto, unfolding(crate::specs::Items::stability))]
pub fn put_stability(out: &mut Writer, stability: Stability) -> Result<(), XdrFault>
    ensures { Writes stability_code result out.old out.new stability }
{
    out.unsigned(number_of_stability(stability))
}
