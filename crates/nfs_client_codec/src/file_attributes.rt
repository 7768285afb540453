//! Reading what replies tell of files (RFC 1813, section 2.6).
ghost use Rattle.nfs_codec.specs.Items as codes;

use crate::decode::Decode;
use base::{MOST_HANDLE_BYTES, RECORD_BYTES};
use nfs_types::{
    Attributes, DeviceNumber, FileKind, Handle, Moment, Octets, Stability, Verifier,
    WeakCacheAttributes, WeakCacheData,
};
use std::alloc::Global;
use xdr::{Reader, XdrFault};

// A handle (`nfs_fh3`).
impl Decode for Handle {
    ghost code = { codes.handle };

    #[tactic(auto, unfolding(nfs_codec::specs::Items::handle))]
    fn decode(alloc: Global, reader: &mut Reader) -> Result<Handle, XdrFault> {
        let bytes = reader.opaque(MOST_HANDLE_BYTES)?;
        Ok(Handle {
            bytes: Octets::copied(alloc, bytes)?,
        })
    }
}

// A name, a target or data.
impl Decode for Octets {
    ghost code = { codes.text };

    #[tactic(auto, unfolding(nfs_codec::specs::Items::text))]
    fn decode(alloc: Global, reader: &mut Reader) -> Result<Octets, XdrFault> {
        let bytes = reader.opaque(RECORD_BYTES)?;
        Ok(Octets::copied(alloc, bytes)?)
    }
}

// Eight bytes as they came (`cookieverf3`, `writeverf3`).
impl Decode for Verifier {
    ghost code = { codes.verifier };

    #[tactic(auto, unfolding(nfs_codec::specs::Items::verifier))]
    fn decode(_alloc: Global, reader: &mut Reader) -> Result<Verifier, XdrFault> {
        Ok(Verifier {
            bytes: reader.eight()?,
        })
    }
}

// A time (`nfstime3`).
impl Decode for Moment {
    ghost code = { codes.moment };

    #[tactic(auto, unfolding(nfs_codec::specs::Items::moment))]
    fn decode(_alloc: Global, reader: &mut Reader) -> Result<Moment, XdrFault> {
        Ok(Moment {
            seconds: reader.unsigned()?,
            nanoseconds: reader.unsigned()?,
        })
    }
}

// How what was written is kept (`stable_how`).
impl Decode for Stability {
    ghost code = { codes.stability };

    #[tactic(auto, unfolding(nfs_codec::specs::Items::stability))]
    fn decode(_alloc: Global, reader: &mut Reader) -> Result<Stability, XdrFault> {
        match reader.unsigned()? {
            0 => Ok(Stability::Unstable),
            1 => Ok(Stability::DataSync),
            2 => Ok(Stability::FileSync),
            _ => Err(XdrFault::Value),
        }
    }
}

// What a file is (`ftype3`).
impl Decode for FileKind {
    ghost code = { codes.kind };

    #[tactic(auto, unfolding(nfs_codec::specs::Items::kind))]
    fn decode(_alloc: Global, reader: &mut Reader) -> Result<FileKind, XdrFault> {
        match reader.unsigned()? {
            1 => Ok(FileKind::Regular),
            2 => Ok(FileKind::Directory),
            3 => Ok(FileKind::BlockDevice),
            4 => Ok(FileKind::CharacterDevice),
            5 => Ok(FileKind::Link),
            6 => Ok(FileKind::Socket),
            7 => Ok(FileKind::Fifo),
            _ => Err(XdrFault::Value),
        }
    }
}

// The two numbers of a device (`specdata3`).
impl Decode for DeviceNumber {
    ghost code = { codes.device };

    #[tactic(auto, unfolding(nfs_codec::specs::Items::device))]
    fn decode(_alloc: Global, reader: &mut Reader) -> Result<DeviceNumber, XdrFault> {
        Ok(DeviceNumber {
            major: reader.unsigned()?,
            minor: reader.unsigned()?,
        })
    }
}

// All attributes of a file (`fattr3`).
impl Decode for Attributes {
    ghost code = { codes.attributes };

    #[tactic(auto, unfolding(nfs_codec::specs::Items::attributes))]
    fn decode(alloc: Global, reader: &mut Reader) -> Result<Attributes, XdrFault> {
        Ok(Attributes {
            kind: FileKind::decode(alloc, reader)?,
            mode: reader.unsigned()?,
            nlink: reader.unsigned()?,
            uid: reader.unsigned()?,
            gid: reader.unsigned()?,
            size: reader.hyper()?,
            used: reader.hyper()?,
            device: DeviceNumber::decode(alloc, reader)?,
            file_system: reader.hyper()?,
            number: reader.hyper()?,
            atime: Moment::decode(alloc, reader)?,
            mtime: Moment::decode(alloc, reader)?,
            ctime: Moment::decode(alloc, reader)?,
        })
    }
}

// What a file was before a change (`wcc_attr`).
impl Decode for WeakCacheAttributes {
    ghost code = { codes.weak_cache_attributes };

    #[tactic(auto, unfolding(nfs_codec::specs::Items::weak_cache_attributes))]
    fn decode(alloc: Global, reader: &mut Reader) -> Result<WeakCacheAttributes, XdrFault> {
        Ok(WeakCacheAttributes {
            size: reader.hyper()?,
            mtime: Moment::decode(alloc, reader)?,
            ctime: Moment::decode(alloc, reader)?,
        })
    }
}

// A file before and after a change (`wcc_data`).
impl Decode for WeakCacheData {
    ghost code = { codes.weak_cache };

    #[tactic(auto, unfolding(nfs_codec::specs::Items::weak_cache, nfs_codec::specs::Items::before_attributes, nfs_codec::specs::Items::optional_attributes))]
    fn decode(alloc: Global, reader: &mut Reader) -> Result<WeakCacheData, XdrFault> {
        Ok(WeakCacheData {
            before: Option::decode(alloc, reader)?,
            after: Option::decode(alloc, reader)?,
        })
    }
}
