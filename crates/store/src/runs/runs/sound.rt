//! Whether a call can be spelled, and a moment is one.
ghost use Rattle.std.specs.Prelude.{◌↔◌, IfSome, IsTrue};
ghost use Rattle.nfs_spec.specs.Model.Sound.{SoundTime};
ghost use Rattle.nfs_types.specs.Fits.{CallFits, CreateHowFits, DirectoryNameFits, HandleFits, MomentFits};
ghost use Rattle.nfs_types.specs.Fits.{NewAttributesFit, SpecialFileFits, StringFits, TextFits, VerifierFits};

use base::{MOST_HANDLE_BYTES, NANOSECONDS, RECORD_BYTES};
use nfs_types::{
    Call, CreateHow, DirectoryName, Handle, Moment, NewAttributes, SpecialFile, Verifier,
};

/// Whether a moment has less than a second of nanoseconds.
pub(super) fn is_moment(moment: Moment) -> bool
    ensures { IsTrue result ↔ SoundTime moment }
{
    moment.nanoseconds < NANOSECONDS
}

/// Whether a call can be spelled: its handles and its texts are as short as they may be. Each number has its bits.
pub fn can_be_spelled(call: &Call) -> bool
    ensures { IsTrue result ↔ CallFits call.now }
{
    match call {
        Call::Null => true,
        Call::GetAttr { object: handle }
        | Call::ReadLink { link: handle }
        | Call::FsStat { object: handle }
        | Call::FsInfo { object: handle }
        | Call::PathConf { object: handle } => fits_handle(handle),
        Call::Lookup { name } | Call::Remove { name } | Call::RmDir { name } => fits_name(name),
        Call::Rename { source, target } => fits_name(source) && fits_name(target),
        Call::Link { file, name } => fits_handle(file) && fits_name(name),
        Call::SetAttr {
            object,
            attributes,
            guard,
        } => {
            fit_attributes(*attributes);
            fits_guard(*guard);
            fits_handle(object)
        }
        Call::Access { object, bits } => {
            let _numbers = *bits;
            fits_handle(object)
        }
        Call::Read {
            file,
            offset,
            count,
        }
        | Call::Commit {
            file,
            offset,
            count,
        } => {
            let _numbers = (*offset, *count);
            fits_handle(file)
        }
        Call::Write {
            file,
            offset,
            count,
            stability: _,
            bytes,
        } => {
            let _numbers = (*offset, *count);
            fits_handle(file) && fits_text(bytes.as_slice())
        }
        Call::Create { name, how } => {
            fits_how(*how);
            fits_name(name)
        }
        Call::MkDir { name, attributes } => {
            fit_attributes(*attributes);
            fits_name(name)
        }
        Call::SymLink {
            name,
            attributes,
            target,
        } => {
            fit_attributes(*attributes);
            fits_name(name) && fits_text(target.as_slice())
        }
        Call::MkNod { name, special } => {
            fits_special(*special);
            fits_name(name)
        }
        Call::ReadDir {
            directory,
            cookie,
            verifier,
            count,
        } => {
            fits_verifier(*verifier);
            let _numbers = (*cookie, *count);
            fits_handle(directory)
        }
        Call::ReadDirPlus {
            directory,
            cookie,
            verifier,
            directory_count,
            greatest_count,
        } => {
            fits_verifier(*verifier);
            let _numbers = (*cookie, *directory_count, *greatest_count);
            fits_handle(directory)
        }
    }
}

fn fits_name(place: &DirectoryName) -> bool
    ensures { IsTrue result ↔ DirectoryNameFits place.now }
{
    fits_handle(&place.directory) && fits_text(place.name.as_slice())
}

fn fits_handle(handle: &Handle) -> bool
    ensures { IsTrue result ↔ HandleFits handle.now }
{
    fits(handle.bytes.as_slice(), MOST_HANDLE_BYTES)
}

fn fits_text(text: &[u8]) -> bool
    ensures { IsTrue result ↔ TextFits text.now }
{
    fits(text, RECORD_BYTES)
}

fn fits(bytes: &[u8], most: usize) -> bool
    ensures { IsTrue result ↔ StringFits most bytes.now }
{
    bytes.len() <= most
}

// Each value of these can be spelled: for proofs alone.

fn fits_guard(guard: Option<Moment>)
    ensures { IfSome guard MomentFits }
{}

fn fit_attributes(wanted: NewAttributes)
    ensures { NewAttributesFit wanted }
{}

fn fits_verifier(verifier: Verifier)
    ensures { VerifierFits verifier }
{}

fn fits_how(how: CreateHow)
    ensures { CreateHowFits how }
{
    match how {
        CreateHow::Unchecked(wanted) | CreateHow::Guarded(wanted) => fit_attributes(wanted),
        CreateHow::Exclusive(verifier) => fits_verifier(verifier),
    }
}

fn fits_special(special: SpecialFile)
    ensures { SpecialFileFits special }
{}
