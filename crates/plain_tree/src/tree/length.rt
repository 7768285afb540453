//! The size of a file as it is set.
ghost use Rattle.std.specs.Prelude.{◌≡◌, OnOk, OnErr};
ghost use Rattle.nfs_spec.specs.Model.SetAttr.{with_length};
ghost use Rattle.plain_tree.specs.Tree.Plain.{body_of};

use crate::tree::PlainBody;
use std::alloc::AllocError;

/// Gives a regular file its new size.
pub fn set_length(body: &mut PlainBody, size: &Option<u64>) -> Result<(), AllocError>
    ensures ok { OnOk result (body_of body.new ≡ with_length size.now (body_of body.old)) }
    ensures err { OnErr result (body_of body.new ≡ body_of body.old) }
{
    let Some(size) = size else {
        return Ok(());
    };
    let PlainBody::Regular { bytes, mapped } = body else {
        return Ok(());
    };
    let old = bytes.len() as u64;
    bytes.resize(*size as usize, 0)?;
    if *size < old {
        mapped.cut(*size);
    }
    Ok(())
}
