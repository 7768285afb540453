//! Answering MOUNT (RFC 1813, section 5.2): a function of the call alone.
ghost use Rattle.std.specs.Prelude.{◌≡◌, IfOk};
ghost use Rattle.nfs_spec.specs.Model.Mount.{is_root_path, mount_reply as reply_of, mounted_at, root_mounted};

use base::ROOT;
use nfs_types::{Handle, MountCall, MountReply, Mounted, NumberList, Stamp, Status};
use rpc::AUTH_SYS;
use std::alloc::{AllocError, Global};

/// The reply to a call of MOUNT. The root alone is exported, under the path `/`.
pub fn mount_reply(alloc: Global, call: &MountCall) -> Result<MountReply, AllocError>
    ensures { IfOk result (λ r. r ≡ reply_of call.now) }
{
    match call {
        MountCall::Null => Ok(MountReply::Null),
        MountCall::Mount { path } => Ok(MountReply::Mount {
            outcome: mounted(alloc, path.as_slice())?,
        }),
        MountCall::Unmount { .. } => Ok(MountReply::Unmount),
    }
}

// What MNT of a path is answered.
fn mounted(alloc: Global, path: &[u8]) -> Result<Result<Mounted, Status>, AllocError>
    ensures { IfOk result (λ r. r ≡ mounted_at path.now) }
{
    if is_root(path) {
        Ok(Ok(root(alloc)?))
    } else {
        Ok(Err(Status::NoEnt))
    }
}

// Whether the path is just the one byte `/`.
fn is_root(path: &[u8]) -> bool
    ensures { result ≡ is_root_path path.now }
{
    path.len() == 1 && path[0] == b'/'
}

fn root(alloc: Global) -> Result<Mounted, AllocError>
    ensures { IfOk result (λ m. m ≡ root_mounted) }
{
    let stamp = Stamp {
        boot: 0,
        transaction: 0,
    };
    let root = Handle::of(alloc, ROOT, stamp)?;
    let mut flavors = Vec::new(alloc);
    flavors.push(AUTH_SYS)?;
    Ok(Mounted {
        root,
        flavors: NumberList::new(flavors),
    })
}
