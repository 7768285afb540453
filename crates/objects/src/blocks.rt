//! The blocks in memory, found by their numbers.
ghost use Rattle.std.specs.Prelude.{◌≡◌, ◌<◌, ◌≤◌, ℕ, [], IfOk, IfSome, OnErr, OnOk, length, option_map, slice_index};
ghost use Rattle.std.specs.Prelude.{is_some, nat_eq, position};
ghost use Rattle.std.specs.Fn.{CalledAt};
ghost use Rattle.std.specs.List.Retain.{IsFiltered};
ghost use Rattle.objects.specs.Indexed.{AreHomed, IsIndex, numbers};
ghost use Rattle.objects.specs.Present.{IsOnce, bytes_in, content_in, filled, present_of, with_block};
ghost use Rattle.objects.specs.Present.{without_clean, without_pending};
ghost use Rattle.objects.specs.Present.{renewed_resident, renewed, without_block};

use crate::{Addr, Present, PresentBlock, SharedBytes};
use disk::{Block, BlockNo, SharedBlock};
use std::alloc::{AllocError, Global};
use std::marker::Model;

/// The blocks in memory, each with its content or with its fetch pending. Its type keeps that a block has one resident.
#[derive(Drop)]
pub(crate) struct Blocks {
    list: Vec<Present>,
    // Of the number of each of them its index in the list. What stands at another number means nothing, and there are as
    // many as there had to be.
    indices: Vec<usize>,
}

impl Model for Blocks {
    ghost use Rattle.std.specs.Prelude.{List};
    ghost use Rattle.objects.specs.declared.present.Present.{Present};

    ghost Value = { List Present };

    ghost view = { λ blocks. blocks.list.items };

    ghost use Rattle.objects.specs.Indexed.{IsSound};

    ghost invariant = { IsSound };
}

impl Blocks {
    /// None.
    pub(crate) fn new(alloc: Global) -> Blocks
        ensures { result ≡ [] }
    {
        Blocks {
            list: Vec::new(alloc),
            indices: Vec::new(alloc),
        }
    }

    /// A block has one resident.
    pub(crate) fn lawful(&self)
        ensures { IsOnce self.now }
    {
        let _ = &self.list;
    }

    /// The block's resident, if it has one.
    pub(crate) fn get(&self, block: BlockNo) -> Option<&Present>
        ensures { option_map (λ resident. resident.now) result ≡ present_of self.now block }
    {
        let Some(i) = index_of(&self.list, &self.indices, block) else {
            return None;
        };
        Some(&self.list[i])
    }

    /// Brings a block with this content, or with a fetch pending where there is none. One that is there stays as it is.
    /// Where there is no room nothing changes.
    pub(crate) fn bring(
        &mut self,
        block: BlockNo,
        content: Option<SharedBlock>,
    ) -> Result<(), AllocError>
        ensures brought { OnOk result (self.new ≡ with_block self.old block content) }
        ensures refused { OnErr result (self.new ≡ self.old) }
    {
        if self.has(block) {
            return Ok(());
        }
        let at = block.0 as usize;
        reach(&mut self.indices, at)?;
        let i = self.list.len();
        self.list.push(Present {
            block,
            content: with_content(content),
        })?;
        self.indices[at] = i;
        Ok(())
    }

    // Whether the block has a resident.
    fn has(&self, block: BlockNo) -> bool
        ensures { result ≡ is_some (present_of self.now block) }
    {
        match self.get(block) {
            Some(_) => true,
            None => false,
        }
    }

    /// The bytes at an address, if its block is there and its fetch isn't pending.
    pub(crate) fn bytes_at(
        &mut self,
        alloc: Global,
        addr: Addr,
    ) -> Result<Option<SharedBytes>, AllocError>
        ensures same { self.new ≡ self.old }
        ensures bytes { IfOk result (λ found. found
            ≡ bytes_in (content_in (present_of self.old addr.block)) addr.offset addr.len) }
        ensures len { IfOk result (λ found. IfSome found (λ bytes. length bytes ≡ addr.len)) }
    {
        bytes_in(&mut self.list, &self.indices, alloc, addr)
    }

    /// Puts the content of a block in its place, where its fetch is pending.
    pub(crate) fn fill(&mut self, block: BlockNo, content: Block)
        ensures { self.new ≡ filled self.old block content }
    {
        fill_in(&mut self.list, &self.indices, block, content);
    }

    /// Makes the content of a block this one, where it is in memory.
    pub(crate) fn renew(&mut self, block: BlockNo, content: SharedBlock)
        ensures { self.new ≡ renewed self.old block content }
    {
        renew_in(&mut self.list, &self.indices, block, content);
    }

    /// Lets go of the block where its fetch is pending.
    pub(crate) fn let_go(&mut self, block: BlockNo)
        ensures { self.new ≡ without_pending self.old block }
    {
        self.keep_only(|resident| resident.block != block || resident.content.is_some());
    }

    /// Lets go of the block where no fetch of it is pending.
    pub(crate) fn unpin(&mut self, block: BlockNo)
        ensures { self.new ≡ without_clean self.old block }
    {
        self.keep_only(|resident| resident.block != block || resident.content.is_none());
    }

    /// Lets go of the block.
    pub(crate) fn take_back(&mut self, block: BlockNo)
        ensures { self.new ≡ without_block self.old block }
    {
        self.keep_only(|resident| resident.block != block);
    }

    /// Lets go of all blocks but those of which the test says that they stay.
    pub(crate) fn keep_only<F: FnMut(&Present) -> bool>(&mut self, test: F)
        requires { F.IsAlwaysCallable test }
        ensures { IsFiltered (CalledAt F.FnMut) test self.old self.new }
    {
        self.list.retain(test);
        renumber(&self.list, &mut self.indices);
    }
}

// What stands at the number of the block.
fn tracked(indices: &[usize], block: BlockNo) -> usize
    ensures { result ≡ slice_index indices.now block.0 }
{
    let at = block.0 as usize;
    if at < indices.len() { indices[at] } else { 0 }
}

// Where the block stands, if it is there.
fn index_of(list: &[Present], indices: &[usize], block: BlockNo) -> Option<usize>
    requires { IsIndex (numbers list.now) indices.now }
    ensures { result ≡ position (λ resident. nat_eq resident.block.0 block.0) list.now }
{
    let i = tracked(indices, block);
    if i < list.len() && list[i].block == block {
        return Some(i);
    }
    None
}

// Makes the indices so many that one stands at this number.
fn reach(indices: &mut Vec<usize>, at: usize) -> Result<(), AllocError>
    ensures same { (number : ℕ) → slice_index indices.new.items number ≡ slice_index indices.old.items number }
    ensures more { length indices.old.items ≤ length indices.new.items }
    ensures long { OnOk result (at < length indices.new.items) }
{
    while indices.len() <= at {
        indices.push(0)?;
    }
    Ok(())
}

// Notes anew where each of them stands.
fn renumber(list: &[Present], indices: &mut [usize])
    requires once { IsOnce list.now }
    requires homed { AreHomed (length indices.old) (numbers list.now) }
    ensures { IsIndex (numbers list.now) indices.new }
{
    for i in 0..list.len() {
        indices[list[i].block.0 as usize] = i;
    }
}

// The content of a block as it is in memory, where there is one.
fn with_content(content: Option<SharedBlock>) -> Option<PresentBlock>
    ensures { result ≡ content }
{
    match content {
        Some(block) => Some(PresentBlock::shared(block)),
        None => None,
    }
}

// The bytes at an address, if its block is there and its fetch isn't pending.
fn bytes_in(
    list: &mut [Present],
    indices: &[usize],
    alloc: Global,
    addr: Addr,
) -> Result<Option<SharedBytes>, AllocError>
    requires { IsIndex (numbers list.old) indices.now }
    ensures same { list.new ≡ list.old }
    ensures bytes { IfOk result (λ found. found
        ≡ bytes_in (content_in (present_of list.old addr.block)) addr.offset addr.len) }
    ensures len { IfOk result (λ found. IfSome found (λ bytes. length bytes ≡ addr.len)) }
{
    let Some(i) = index_of(list, indices, addr.block) else {
        return Ok(None);
    };
    bytes_of(&mut list[i], alloc, addr)
}

// The same of one resident. Its content is taken out while it becomes shared, and put back.
fn bytes_of(
    resident: &mut Present,
    alloc: Global,
    addr: Addr,
) -> Result<Option<SharedBytes>, AllocError>
    ensures same { resident.new ≡ resident.old }
    ensures bytes { IfOk result (λ found. found ≡ bytes_in resident.old.content addr.offset addr.len) }
    ensures len { IfOk result (λ found. IfSome found (λ bytes. length bytes ≡ addr.len)) }
{
    let Some(there) = resident.content.take() else {
        return Ok(None);
    };
    let (there, bytes) = there.bytes_at(alloc, addr);
    resident.content = Some(there);
    Ok(Some(bytes?))
}

// Puts the content of a block in its place, where its fetch is pending.
fn fill_in(list: &mut [Present], indices: &[usize], block: BlockNo, content: Block)
    requires { IsIndex (numbers list.old) indices.now }
    ensures { list.new ≡ filled list.old block content }
{
    let Some(i) = index_of(list, indices, block) else {
        return;
    };
    let resident = &mut list[i];
    if resident.content.is_none() {
        resident.content = Some(PresentBlock::new(content));
    }
}

// Makes the content of a block this one, where it is there.
fn renew_in(list: &mut [Present], indices: &[usize], block: BlockNo, content: SharedBlock)
    requires once { IsOnce list.old }
    requires index { IsIndex (numbers list.old) indices.now }
    ensures { list.new ≡ renewed list.old block content }
{
    let Some(i) = index_of(list, indices, block) else {
        return;
    };
    renew(&mut list[i], block, content);
}

// The same of one resident.
fn renew(resident: &mut Present, block: BlockNo, content: SharedBlock)
    ensures { resident.new ≡ renewed_resident block content resident.old }
{
    if resident.block != block {
        return;
    }
    if let Some(there) = resident.content.as_mut() {
        there.renew(content);
    }
}
