//! Parts of a block: taken out of it, and laid into it.
ghost use Rattle.std.specs.Prelude.{◌≡◌, ◌+◌, ◌≤◌, ◌⊎◌, ℕ, IfOk, length, take, drop};
ghost use Rattle.base.specs.declared.TheConstants.{BLOCK_BYTES};
ghost use Rattle.objects.specs.Spliced.{extracted, spliced};

use crate::{Addr, Object, SharedBytes};
use base::BLOCK_BYTES;
use disk::Block;
use std::alloc::{AllocError, Global};

/// The bytes that lie at an address of a block.
pub fn extract(alloc: Global, content: &Block, addr: Addr) -> Result<SharedBytes, AllocError>
    ensures bytes { IfOk result (λ bytes. bytes ≡ extracted content.now addr.offset addr.len) }
    ensures len { IfOk result (λ bytes. length bytes ≡ addr.len) }
{
    SharedBytes::new(copied(alloc, content.as_slice(), addr)?)
}

/// Lays an object's bytes into a block at its address. Extracted again, there are just these; and what lies
/// elsewhere in the block stays.
pub fn splice(content: &mut Block, object: &Object)
    ensures content { content.new ≡ spliced content.old object.now.addr.offset object.now.bytes }
    ensures there { extracted content.new object.now.addr.offset object.now.addr.len ≡ object.now.bytes }
    ensures elsewhere { (from len : ℕ)
        → (from + len ≤ object.now.addr.offset) ⊎ (object.now.addr.offset + object.now.addr.len ≤ from)
        → extracted content.new from len ≡ extracted content.old from len }
    ensures whole { length content.new ≡ BLOCK_BYTES }
{
    let addr = object.addr();
    let _ = content.as_slice();
    content.put(addr.offset, object.bytes());
}

// The bytes at an address of a block. How many a block has is known beforehand, so a whole one is copied faster.
fn copied(alloc: Global, content: &[u8], addr: Addr) -> Result<Vec<u8>, AllocError>
    requires { length content.now ≡ BLOCK_BYTES }
    ensures { IfOk result (λ bytes. bytes.items ≡ extracted content.now addr.offset addr.len) }
{
    if addr.len == BLOCK_BYTES {
        return content[addr.offset..addr.offset + BLOCK_BYTES].to_vec(alloc);
    }
    content[addr.offset..addr.offset + addr.len].to_vec(alloc)
}
