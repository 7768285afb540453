//! Answering MOUNT (RFC 1813, section 5.2). The root alone is exported, under the path `/`.
ghost use Rattle.std.specs.Prelude.{◌≡◌, ◌∷◌, [], IfOk};
ghost use Rattle.nfs_spec.specs.Model.Mount.{mount_reply, mounted_at, root_mounted};

use base::ROOT;
use nfs_types::{Handle, MountCall, MountReply, Mounted, NumberList, Stamp, Status};
use std::alloc::{AllocError, Global};

// The one flavor of credentials that MNT lists (RFC 5531, section 8.2).
const AUTH_SYS: u32 = 1;

/// What a call of MOUNT is answered.
pub fn mount(alloc: Global, call: &MountCall) -> Result<MountReply, AllocError>
    ensures { IfOk result (λ reply. reply ≡ mount_reply call.now) }
{
    match call {
        MountCall::Null => Ok(MountReply::Null),
        MountCall::Unmount { .. } => Ok(MountReply::Unmount),
        MountCall::Mount { path } => Ok(MountReply::Mount {
            outcome: mounted(alloc, path.as_slice())?,
        }),
    }
}

// What there is under a path.
fn mounted(alloc: Global, path: &[u8]) -> Result<Result<Mounted, Status>, AllocError>
    ensures { IfOk result (λ outcome. outcome ≡ mounted_at path.now) }
{
    match path {
        [b'/'] => Ok(Ok(root(alloc)?)),
        _ => Ok(Err(Status::NoEnt)),
    }
}

// The root, which no transaction made, with a list of that one flavor.
fn root(alloc: Global) -> Result<Mounted, AllocError>
    ensures { IfOk result (λ root. root ≡ root_mounted) }
{
    let stamp = Stamp {
        boot: 0,
        transaction: 0,
    };
    let mut flavors = Vec::new(alloc);
    flavors.push(AUTH_SYS)?;
    Ok(Mounted {
        root: Handle::of(alloc, ROOT, stamp)?,
        flavors: NumberList::new(flavors),
    })
}
