//! Reading the items of arguments and results (RFC 1813, sections 2.4 to 2.6).
ghost use Rattle.std.specs.Prelude.{◌≡◌};
ghost use Rattle.xdr.specs.Reading.{Reads};
ghost use Rattle.nfs_codec.specs.Items.{handle, text, directory_name, moment, verifier as verifier_code};
ghost use Rattle.nfs_codec.specs.Items.{set_time};
ghost use Rattle.nfs_codec.specs.Items.{optional_word, optional_double, guard, new_attributes, create_how};
ghost use Rattle.nfs_codec.specs.Items.{stability, device, special_file};

use base::{MOST_HANDLE_BYTES, RECORD_BYTES};
use nfs_types::{
    CreateHow, DeviceNumber, Moment, NewAttributes, SetTime, SpecialFile, Stability, Verifier,
};
use xdr::{Reader, XdrFault};

/// The bytes of a handle (`nfs_fh3`).
#[tactic(auto, unfolding(crate::specs::Items::handle))]
pub fn read_handle<'a>(reader: &mut Reader<'a>) -> Result<&'a [u8], XdrFault>
    ensures { Reads (λ x. (record { bytes = x.now }, reader.new)) result (handle.read reader.old) }
{
    reader.opaque(MOST_HANDLE_BYTES)
}

/// A name, a target or data.
#[tactic(auto, unfolding(crate::specs::Items::text))]
pub fn read_text<'a>(reader: &mut Reader<'a>) -> Result<&'a [u8], XdrFault>
    ensures { Reads (λ x. (x.now, reader.new)) result (text.read reader.old) }
{
    reader.opaque(RECORD_BYTES)
}

/// A name in a directory as it stands in the message.
#[derive(Clone, Copy)]
pub struct NameBytes<'a> {
    pub directory: &'a [u8],
    pub name: &'a [u8],
}

/// A name in a directory (`diropargs3`).
#[tactic(auto, unfolding(crate::specs::Items::directory_name))]
pub fn read_directory_name<'a>(reader: &mut Reader<'a>) -> Result<NameBytes<'a>, XdrFault>
    ensures { Reads (λ x. (
      record { directory = record { bytes = x.directory.now }; name = x.name.now },
      reader.new,
    )) result (directory_name.read reader.old) }
{
    let directory = read_handle(reader)?;
    let name = read_text(reader)?;
    Ok(NameBytes { directory, name })
}

/// A time (`nfstime3`).
#[tactic(auto, unfolding(crate::specs::Items::moment))]
pub fn read_moment(reader: &mut Reader) -> Result<Moment, XdrFault>
    ensures { Reads (λ x. (x, reader.new)) result (moment.read reader.old) }
{
    let seconds = reader.unsigned()?;
    let nanoseconds = reader.unsigned()?;
    Ok(Moment {
        seconds,
        nanoseconds,
    })
}

/// Eight bytes as they came (`cookieverf3`, `createverf3`, `writeverf3`).
#[tactic(auto, unfolding(crate::specs::Items::verifier))]
pub fn read_verifier(reader: &mut Reader) -> Result<Verifier, XdrFault>
    ensures { Reads (λ x. (x, reader.new)) result (verifier_code.read reader.old) }
{
    let bytes = reader.eight()?;
    Ok(Verifier { bytes })
}

/// A number that may be absent (`set_mode3`, `set_uid3`, `set_gid3`).
#[tactic(auto, unfolding(crate::specs::Items::optional_word))]
pub fn read_optional_unsigned(reader: &mut Reader) -> Result<Option<u32>, XdrFault>
    ensures { Reads (λ x. (x, reader.new)) result (optional_word.read reader.old) }
{
    if reader.flag()? {
        Ok(Some(reader.unsigned()?))
    } else {
        Ok(None)
    }
}

/// A size that may be absent (`set_size3`).
#[tactic(auto, unfolding(crate::specs::Items::optional_double))]
pub fn read_optional_hyper(reader: &mut Reader) -> Result<Option<u64>, XdrFault>
    ensures { Reads (λ x. (x, reader.new)) result (optional_double.read reader.old) }
{
    if reader.flag()? {
        Ok(Some(reader.hyper()?))
    } else {
        Ok(None)
    }
}

/// What is to become of a time (`set_atime`, `set_mtime`).
#[tactic(auto, unfolding(crate::specs::Items::set_time))]
pub fn read_set_time(reader: &mut Reader) -> Result<SetTime, XdrFault>
    ensures { Reads (λ x. (x, reader.new)) result (set_time.read reader.old) }
{
    match reader.unsigned()? {
        0 => Ok(SetTime::Unchanged),
        1 => Ok(SetTime::Server),
        2 => Ok(SetTime::Client(read_moment(reader)?)),
        _ => Err(XdrFault::Value),
    }
}

/// The attributes that a call sets (`sattr3`).
#[tactic(auto, unfolding(crate::specs::Items::new_attributes))]
pub fn read_new_attributes(reader: &mut Reader) -> Result<NewAttributes, XdrFault>
    ensures { Reads (λ x. (x, reader.new)) result (new_attributes.read reader.old) }
{
    let mode = read_optional_unsigned(reader)?;
    let uid = read_optional_unsigned(reader)?;
    let gid = read_optional_unsigned(reader)?;
    let size = read_optional_hyper(reader)?;
    let atime = read_set_time(reader)?;
    let mtime = read_set_time(reader)?;
    Ok(NewAttributes {
        mode,
        uid,
        gid,
        size,
        atime,
        mtime,
    })
}

/// The time that a file must have for it to be changed (`sattrguard3`).
#[tactic(auto, unfolding(crate::specs::Items::guard))]
pub fn read_guard(reader: &mut Reader) -> Result<Option<Moment>, XdrFault>
    ensures { Reads (λ x. (x, reader.new)) result (guard.read reader.old) }
{
    if reader.flag()? {
        Ok(Some(read_moment(reader)?))
    } else {
        Ok(None)
    }
}

/// How a file is to be made (`createhow3`).
#[tactic(auto, unfolding(crate::specs::Items::create_how))]
pub fn read_create_how(reader: &mut Reader) -> Result<CreateHow, XdrFault>
    ensures { Reads (λ x. (x, reader.new)) result (create_how.read reader.old) }
{
    match reader.unsigned()? {
        0 => Ok(CreateHow::Unchecked(read_new_attributes(reader)?)),
        1 => Ok(CreateHow::Guarded(read_new_attributes(reader)?)),
        2 => Ok(CreateHow::Exclusive(read_verifier(reader)?)),
        _ => Err(XdrFault::Value),
    }
}

/// How a WRITE is to be kept (`stable_how`).
#[tactic(auto, unfolding(crate::specs::Items::stability))]
pub fn read_stability(reader: &mut Reader) -> Result<Stability, XdrFault>
    ensures { Reads (λ x. (x, reader.new)) result (stability.read reader.old) }
{
    match reader.unsigned()? {
        0 => Ok(Stability::Unstable),
        1 => Ok(Stability::DataSync),
        2 => Ok(Stability::FileSync),
        _ => Err(XdrFault::Value),
    }
}

/// The two numbers of a device (`specdata3`).
#[tactic(auto, unfolding(crate::specs::Items::device))]
pub fn read_device(reader: &mut Reader) -> Result<DeviceNumber, XdrFault>
    ensures { Reads (λ x. (x, reader.new)) result (device.read reader.old) }
{
    let major = reader.unsigned()?;
    let minor = reader.unsigned()?;
    Ok(DeviceNumber { major, minor })
}

/// What MKNOD is to make (`mknoddata3`).
#[tactic(auto, unfolding(crate::specs::Items::special_file))]
pub fn read_special_file(reader: &mut Reader) -> Result<SpecialFile, XdrFault>
    ensures { Reads (λ x. (x, reader.new)) result (special_file.read reader.old) }
{
    match reader.unsigned()? {
        1 => Ok(SpecialFile::Regular),
        2 => Ok(SpecialFile::Directory),
        3 => {
            let attributes = read_new_attributes(reader)?;
            Ok(SpecialFile::BlockDevice(attributes, read_device(reader)?))
        }
        4 => {
            let attributes = read_new_attributes(reader)?;
            Ok(SpecialFile::CharacterDevice(attributes, read_device(reader)?))
        }
        5 => Ok(SpecialFile::Link),
        6 => Ok(SpecialFile::Socket(read_new_attributes(reader)?)),
        7 => Ok(SpecialFile::Fifo(read_new_attributes(reader)?)),
        _ => Err(XdrFault::Value),
    }
}
