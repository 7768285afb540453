//! The blocks that objects lie in, and these blocks with the objects laid over what is current.
ghost use Rattle.std.specs.Prelude.{◌≡◌, ◌≤◌, length, replicate, All, IfOk, IfSome, MatchOption};
ghost use Rattle.base.specs.declared.TheConstants.{BLOCK_BYTES, CHANGED_BLOCKS};
ghost use Rattle.disk.specs.Device.{Content};
ghost use Rattle.circ.specs.Log.Log.{blocks_of as group_blocks};
ghost use Rattle.circ.specs.Log.Log.{newest};
ghost use Rattle.txn_law.specs.Group.{blocks_of, is_among, base_in, overlaid_content, IsOverlaid};
ghost use Rattle.objects.specs.Present.{present_of, content_in};
ghost use Rattle.objects.specs.Spliced.{spliced};
ghost use Rattle.std.specs.Option.{unwrap_or};

use arrayvec::ArrayVec;
use base::{BLOCK_BYTES, CHANGED_BLOCKS, CowBlock};
use disk::{Block, BlockNo, SharedBlock};
use objects::{Object, Residency, splice};
use std::alloc::{AllocError, Global};
use wal::Wal;

/// The numbers of the blocks that a change writes.
pub type Blocks = ArrayVec<BlockNo, CHANGED_BLOCKS>;

/// The blocks that the objects lie in, each once.
pub fn blocks_of_objects(objects: &[Object]) -> Blocks
    requires { length (blocks_of objects.now) ≤ CHANGED_BLOCKS }
    ensures { result.items ≡ blocks_of objects.now }
{
    let mut blocks = ArrayVec::new();
    for object in objects {
        let block = object.addr().block;
        if !contains(blocks.as_slice(), block) {
            blocks.push(block);
        }
    }
    blocks
}

// Whether the block is among these.
fn contains(blocks: &[BlockNo], block: BlockNo) -> bool
    ensures { result ≡ is_among block blocks.now }
{
    blocks.contains(&block)
}

/// Each object has as many bytes as its address names.
pub fn are_sized(objects: &[Object])
    ensures { All (λ object. length object.bytes ≡ object.addr.len) objects.now }
{
    for object in objects {
        let _ = object.bytes();
    }
}

// The block's current content: from memory, or what the log has. It may be zeros where a change writes all of it.
fn base_of<'a>(present: &'a Residency, wal: &'a Wal, block: BlockNo) -> Option<&'a Block>
    ensures base { MatchOption result
        (base_in (content_in (present_of present.now.blocks block)) (newest wal.now block.0) ≡ replicate BLOCK_BYTES 0)
        (λ base. base_in (content_in (present_of present.now.blocks block)) (newest wal.now block.0) ≡ base.now) }
    ensures whole { length (base_in (content_in (present_of present.now.blocks block)) (newest wal.now block.0))
        ≡ BLOCK_BYTES }
{
    let base = match present.content_of(block) {
        Some(content) => content,
        None => wal.latest(block)?.block(),
    };
    let _ = base.as_slice();
    Some(base)
}

// An object laid over its block: over what it was made so far, or over what is current. That isn't copied where the
// object is the whole block.
fn overlay_object(
    alloc: Global,
    present: &Residency,
    wal: &Wal,
    made: Option<CowBlock>,
    object: &Object,
) -> Result<CowBlock, AllocError>
    ensures { IfOk result (λ content. content ≡ spliced (unwrap_or made
        (base_in (content_in (present_of present.now.blocks object.now.addr.block))
        (newest wal.now object.now.addr.block.0)))
        object.now.addr.offset object.now.bytes) }
{
    match made {
        Some(content) => Ok(with_object(content.into_owned(alloc)?, object)),
        None => overlay_first(alloc, present, wal, object),
    }
}

// An object laid over what is current of its block.
#[tactic(auto, using(crate::proofs::Whole::all_of_it))]
fn overlay_first(
    alloc: Global,
    present: &Residency,
    wal: &Wal,
    object: &Object,
) -> Result<CowBlock, AllocError>
    ensures { IfOk result (λ content. content ≡ spliced
        (base_in (content_in (present_of present.now.blocks object.now.addr.block))
        (newest wal.now object.now.addr.block.0))
        object.now.addr.offset object.now.bytes) }
{
    let addr = object.addr();
    let base = base_of(present, wal, addr.block);
    let bytes = object.bytes();
    if bytes.len() == BLOCK_BYTES {
        return all_of(alloc, object);
    }
    Ok(with_object(copied(alloc, base)?, object))
}

// A block with an object laid over it.
fn with_object(block: Block, object: &Object) -> CowBlock
    ensures { result ≡ spliced block object.now.addr.offset object.now.bytes }
{
    let mut content = block;
    splice(&mut content, object);
    CowBlock::owned(content)
}

// An object that is a whole block: by pointer, where its bytes are those of a shared block.
fn all_of(alloc: Global, object: &Object) -> Result<CowBlock, AllocError>
    requires { length object.now.bytes ≡ BLOCK_BYTES }
    ensures { IfOk result (λ content. content ≡ object.now.bytes) }
{
    match object.whole() {
        Some(block) => Ok(CowBlock::shared(block.clone()?)),
        None => Ok(CowBlock::owned(Block::from_slice(alloc, object.bytes())?)),
    }
}

// A block of one owner again, or zeros.
fn copied(alloc: Global, block: Option<&Block>) -> Result<Block, AllocError>
    ensures { MatchOption block.entry (IfOk result (λ content. content ≡ replicate BLOCK_BYTES 0))
        (λ block. IfOk result (λ content. content ≡ block.now)) }
{
    match block {
        Some(block) => block.copied(alloc),
        None => Block::zeros(alloc),
    }
}

// The block with those of the objects that lie in it laid over what is current.
fn content_with(
    alloc: Global,
    present: &Residency,
    wal: &Wal,
    block: BlockNo,
    objects: &[Object],
) -> Result<SharedBlock, AllocError>
    ensures { IfOk result (λ content. IsOverlaid present.now.blocks wal.now objects.now (block, content)) }
{
    let mut made = None;
    for object in objects {
        let addr = object.addr();
        if addr.block == block {
            made = Some(overlay_object(alloc, present, wal, made, object)?);
        }
    }
    match made {
        Some(content) => Ok(content.into_shared(alloc)?),
        None => Ok(SharedBlock::new(alloc, copied(alloc, base_of(present, wal, block))?)?),
    }
}

/// The blocks with the bytes that they get.
pub fn group_of(
    alloc: Global,
    present: &Residency,
    wal: &Wal,
    blocks: &[BlockNo],
    objects: &[Object],
) -> Result<Vec<(BlockNo, SharedBlock)>, AllocError>
    ensures blocks { IfOk result (λ group. group_blocks group.items ≡ blocks.now) }
    ensures contents { IfOk result (λ group. All (IsOverlaid present.now.blocks wal.now objects.now) group.items) }
    ensures whole { IfOk result (λ group. All (λ change. length change.1 ≡ BLOCK_BYTES) group.items) }
{
    let mut group = Vec::with_capacity(alloc, blocks.len())?;
    for block in blocks {
        let content = content_with(alloc, present, wal, *block, objects)?;
        let _ = content.as_slice();
        group.push((*block, content))?;
    }
    Ok(group)
}

/// The same blocks of a group once more, by pointer: the log takes the first, and what is in memory these.
pub fn pointers_to(
    alloc: Global,
    group: &[(BlockNo, SharedBlock)],
) -> Result<Vec<(BlockNo, SharedBlock)>, AllocError>
    ensures { IfOk result (λ pointers. pointers.items ≡ group.now) }
{
    let mut pointers = Vec::with_capacity(alloc, group.len())?;
    for change in group {
        pointers.push((change.0, change.1.clone()?))?;
    }
    Ok(pointers)
}
