//! Writing the items that only arguments have (RFC 1813, sections 2.5, 2.6 and 3.3).
ghost use Rattle.nfs_codec.specs.Items as codes;
ghost use Rattle.xdr.specs.Writing.{Writes};

use nfs_codec::{put_device, put_handle, put_moment, put_stability, put_text, put_verifier};
use nfs_types::{
    CreateHow, DeviceNumber, DirectoryName, Moment, NewAttributes, SetTime, SpecialFile,
};
use xdr::{Writer, XdrFault};

/// A name in a directory (`diropargs3`).
#[tactic(auto, unfolding(nfs_codec::specs::Items::directory_name))]
pub fn put_directory_name(out: &mut Writer, name: &DirectoryName) -> Result<(), XdrFault>
    ensures { Writes codes.directory_name result out.old out.new name.now }
{
    put_handle(out, &name.directory)?;
    put_text(out, &name.name)
}

// A number that may be absent (`set_mode3`, `set_uid3`, `set_gid3`).
#[tactic(auto, unfolding(nfs_codec::specs::Items::optional_word))]
fn put_optional_unsigned(out: &mut Writer, number: Option<u32>) -> Result<(), XdrFault>
    ensures { Writes codes.optional_word result out.old out.new number }
{
    match number {
        None => out.flag(false),
        Some(number) => {
            out.flag(true)?;
            out.unsigned(number)
        }
    }
}

// A size that may be absent (`set_size3`).
#[tactic(auto, unfolding(nfs_codec::specs::Items::optional_double))]
fn put_optional_hyper(out: &mut Writer, number: Option<u64>) -> Result<(), XdrFault>
    ensures { Writes codes.optional_double result out.old out.new number }
{
    match number {
        None => out.flag(false),
        Some(number) => {
            out.flag(true)?;
            out.hyper(number)
        }
    }
}

// What is to become of a time (`set_atime`, `set_mtime`).
#[tactic(auto, unfolding(nfs_codec::specs::Items::set_time))]
fn put_set_time(out: &mut Writer, time: &SetTime) -> Result<(), XdrFault>
    ensures { Writes codes.set_time result out.old out.new time.now }
{
    match time {
        SetTime::Unchanged => out.unsigned(0),
        SetTime::Server => out.unsigned(1),
        SetTime::Client(time) => {
            out.unsigned(2)?;
            put_moment(out, time)
        }
    }
}

/// The attributes that a call sets (`sattr3`).
#[tactic(auto, unfolding(nfs_codec::specs::Items::new_attributes))]
pub fn put_new_attributes(out: &mut Writer, wanted: &NewAttributes) -> Result<(), XdrFault>
    ensures { Writes codes.new_attributes result out.old out.new wanted.now }
{
    put_optional_unsigned(out, wanted.mode)?;
    put_optional_unsigned(out, wanted.uid)?;
    put_optional_unsigned(out, wanted.gid)?;
    put_optional_hyper(out, wanted.size)?;
    put_set_time(out, &wanted.atime)?;
    put_set_time(out, &wanted.mtime)
}

/// The time that a file must have for it to be changed (`sattrguard3`).
#[tactic(auto, unfolding(nfs_codec::specs::Items::guard))]
pub fn put_guard(out: &mut Writer, guard: &Option<Moment>) -> Result<(), XdrFault>
    ensures { Writes codes.guard result out.old out.new guard.now }
{
    match guard {
        None => out.flag(false),
        Some(time) => {
            out.flag(true)?;
            put_moment(out, time)
        }
    }
}

/// How a file is to be made (`createhow3`).
#[tactic(auto, unfolding(nfs_codec::specs::Items::create_how))]
pub fn put_create_how(out: &mut Writer, how: &CreateHow) -> Result<(), XdrFault>
    ensures { Writes codes.create_how result out.old out.new how.now }
{
    match how {
        CreateHow::Unchecked(wanted) => {
            out.unsigned(0)?;
            put_new_attributes(out, wanted)
        }
        CreateHow::Guarded(wanted) => {
            out.unsigned(1)?;
            put_new_attributes(out, wanted)
        }
        CreateHow::Exclusive(verifier) => {
            out.unsigned(2)?;
            put_verifier(out, verifier)
        }
    }
}

/// What MKNOD is to make (`mknoddata3`).
#[tactic(auto, unfolding(nfs_codec::specs::Items::special_file))]
pub fn put_special_file(out: &mut Writer, special: &SpecialFile) -> Result<(), XdrFault>
    ensures { Writes codes.special_file result out.old out.new special.now }
{
    match special {
        SpecialFile::Regular => out.unsigned(1),
        SpecialFile::Directory => out.unsigned(2),
        SpecialFile::BlockDevice(wanted, device) => {
            out.unsigned(3)?;
            put_new_attributes(out, wanted)?;
            put_device(out, device)
        }
        SpecialFile::CharacterDevice(wanted, device) => {
            out.unsigned(4)?;
            put_new_attributes(out, wanted)?;
            put_device(out, device)
        }
        SpecialFile::Link => out.unsigned(5),
        SpecialFile::Socket(wanted) => {
            out.unsigned(6)?;
            put_new_attributes(out, wanted)
        }
        SpecialFile::Fifo(wanted) => {
            out.unsigned(7)?;
            put_new_attributes(out, wanted)
        }
    }
}
