//! Writing what replies tell of files (RFC 1813, section 2.6).
ghost use Rattle.xdr.specs.Writing.{Writes};
ghost use Rattle.nfs_codec.specs.Items.{attributes, optional_attributes, optional_handle};
ghost use Rattle.nfs_codec.specs.Items.{weak_cache_attributes, before_attributes, weak_cache};
ghost use Rattle.nfs_codec.specs.Items.{kind as kind_code, device, moment};
ghost use Rattle.xdr.specs.Codes.{double, ◌then◌};

use nfs_codec::{number_of_kind, put_device, put_handle, put_moment};
use nfs_types::{Attributes, FileKind, Handle, WeakCacheAttributes, WeakCacheData};
use xdr::{Writer, XdrFault};

/// A handle that may be absent (`post_op_fh3`).
#[tactic(auto, unfolding(nfs_codec::specs::Items::optional_handle))]
pub fn put_optional_handle(out: &mut Writer, handle: &Option<Handle>) -> Result<(), XdrFault>
    ensures { Writes optional_handle result out.old out.new handle.now }
{
    match handle {
        None => out.flag(false),
        Some(handle) => {
            out.flag(true)?;
            put_handle(out, handle)
        }
    }
}

/// What a file is (`ftype3`).
#[tactic(auto, unfolding(nfs_codec::specs::Items::kind))]
fn put_kind(out: &mut Writer, kind: FileKind) -> Result<(), XdrFault>
    ensures { Writes kind_code result out.old out.new kind }
{
    out.unsigned(number_of_kind(kind))
}

/// All attributes of a file (`fattr3`).
#[tactic(auto, unfolding(nfs_codec::specs::Items::attributes))]
pub fn put_attributes(out: &mut Writer, file: &Attributes) -> Result<(), XdrFault>
    ensures { Writes attributes result out.old out.new file.now }
{
    put_kind(out, file.kind)?;
    out.unsigned(file.mode)?;
    out.unsigned(file.nlink)?;
    out.unsigned(file.uid)?;
    out.unsigned(file.gid)?;
    put_other_attributes(out, file)
}

// What of them comes behind the owner and the group.
fn put_other_attributes(out: &mut Writer, file: &Attributes) -> Result<(), XdrFault>
    ensures { Writes (double then double then device then double then double then moment then moment then moment) result
        out.old out.new (
          file.now.size,
          (
            file.now.used,
            (
              file.now.device,
              (
                file.now.file_system,
                (
                  file.now.number,
                  (file.now.atime, (file.now.mtime, file.now.ctime)),
                ),
              ),
            ),
          ),
        ) }
{
    out.hyper(file.size)?;
    out.hyper(file.used)?;
    put_device(out, &file.device)?;
    out.hyper(file.file_system)?;
    out.hyper(file.number)?;
    put_times(out, file)
}

// The times of a file.
fn put_times(out: &mut Writer, file: &Attributes) -> Result<(), XdrFault>
    ensures { Writes (moment then moment then moment) result out.old out.new
        (file.now.atime, (file.now.mtime, file.now.ctime)) }
{
    put_moment(out, &file.atime)?;
    put_moment(out, &file.mtime)?;
    put_moment(out, &file.ctime)
}

/// Attributes that may be absent (`post_op_attr`).
#[tactic(auto, unfolding(nfs_codec::specs::Items::optional_attributes))]
pub fn put_optional_attributes(out: &mut Writer, file: &Option<Attributes>) -> Result<(), XdrFault>
    ensures { Writes optional_attributes result out.old out.new file.now }
{
    match file {
        None => out.flag(false),
        Some(file) => {
            out.flag(true)?;
            put_attributes(out, file)
        }
    }
}

// What a file was before a change (`wcc_attr`).
#[tactic(auto, unfolding(nfs_codec::specs::Items::weak_cache_attributes))]
fn put_weak_cache_attributes(out: &mut Writer, file: &WeakCacheAttributes) -> Result<(), XdrFault>
    ensures { Writes weak_cache_attributes result out.old out.new file.now }
{
    out.hyper(file.size)?;
    put_moment(out, &file.mtime)?;
    put_moment(out, &file.ctime)
}

// What a file was before a change, which may be absent (`pre_op_attr`).
#[tactic(auto, unfolding(nfs_codec::specs::Items::before_attributes))]
fn put_before(out: &mut Writer, before: &Option<WeakCacheAttributes>) -> Result<(), XdrFault>
    ensures { Writes before_attributes result out.old out.new before.now }
{
    match before {
        None => out.flag(false),
        Some(file) => {
            out.flag(true)?;
            put_weak_cache_attributes(out, file)
        }
    }
}

/// A file before and after a change (`wcc_data`).
#[tactic(auto, unfolding(nfs_codec::specs::Items::weak_cache))]
pub fn put_weak_cache(out: &mut Writer, file: &WeakCacheData) -> Result<(), XdrFault>
    ensures { Writes weak_cache result out.old out.new file.now }
{
    put_before(out, &file.before)?;
    put_optional_attributes(out, &file.after)
}
