//! Where the blocks of a file lie.
ghost use Rattle.std.specs.Prelude.{◌≡◌, ◌<◌, ◌≤◌, ℕ, true, length, IfOk, IfErr};
ghost use Rattle.std.specs.List.{list_all};
ghost use Rattle.base.specs.declared.TheConstants.{BLOCK_BYTES, FILE_INDEXES, FIRST_DOUBLE_INDEX, INDIRECT_INDEXES};
ghost use Rattle.disk.specs.Crash.{Image};
ghost use Rattle.nfs_spec.specs.Model.Tree.{Tree};
ghost use Rattle.layout.specs.Decode.{numbers_in};
ghost use Rattle.layout.specs.InodeForm.{is_data_block_or_none};
ghost use Rattle.layout.specs.Parts.{content_in};
ghost use Rattle.layout.specs.Places.{is_data};
ghost use Rattle.inode.specs.Asked.{ArePointerNumbers, IsBlockAddr, IsPointerNumber, IsNumberAt, IsPointerFor, IsSuspendFor};
ghost use Rattle.inode.specs.Asked.{MaySuspendFor, WasReadBlock};
ghost use Rattle.inode.specs.Over.{HasInode, IsOver, IsResumable, MaySuspend, are_pointers_placed, pointer_number_at, number_at};

use crate::read::object_at;
use crate::snap::Snap;
use crate::suspend::Suspend;
use base::{DIRECT_INDEXES, FIRST_DOUBLE_INDEX, INDIRECT_INDEXES};
use disk::BlockNo;
use layout::{Inode, Numbers};
use objects::{Addr, Object};
use std::alloc::Global;

/// A data block, once it was read.
pub(crate) fn data_object(snap: &Snap, number: u32) -> Result<&Object, Suspend>
    requires { is_data snap.now.geometry number ≡ true }
    ensures len { IfOk result (λ object. object.now.addr.len ≡ BLOCK_BYTES) }
    ensures ok { IfOk result (λ object. (blocks : Image) (tree : Tree) → IsOver snap.now blocks tree
        → object.now.bytes ≡ content_in snap.now.geometry blocks number) }
    ensures read { IfOk result (λ object. WasReadBlock snap.now.objects.items number object.now.bytes) }
    ensures err { IfErr result (λ suspend. MaySuspend snap.now suspend) }
    ensures asks { IfErr result (λ suspend. IsSuspendFor (IsBlockAddr number) suspend) }
    ensures resumable { IfErr result (λ suspend. IsResumable suspend) }
{
    object_at(snap, Addr::whole(BlockNo(number)))
}

/// The bytes of a data block, once they were read.
pub fn data_block(snap: &Snap, number: u32) -> Result<&[u8], Suspend>
    requires { is_data snap.now.geometry number ≡ true }
    ensures len { IfOk result (λ bytes. length bytes.now ≡ BLOCK_BYTES) }
    ensures ok { IfOk result (λ bytes. (blocks : Image) (tree : Tree) → IsOver snap.now blocks tree
        → bytes.now ≡ content_in snap.now.geometry blocks number) }
    ensures read { IfOk result (λ bytes. WasReadBlock snap.now.objects.items number bytes.now) }
    ensures err { IfErr result (λ suspend. MaySuspend snap.now suspend) }
    ensures asks { IfErr result (λ suspend. IsSuspendFor (IsBlockAddr number) suspend) }
    ensures resumable { IfErr result (λ suspend. IsResumable suspend) }
{
    match data_object(snap, number) {
        Ok(object) => Ok(object.bytes()),
        Err(suspend) => Err(suspend),
    }
}

// The number at an index of a pointer block: 0 where there is none.
fn pointer_number(snap: &Snap, indirect: u32, index: usize) -> Result<u32, Suspend>
    requires { index < INDIRECT_INDEXES }
    ensures ok { IfOk result (λ number. (blocks : Image) (tree : Tree) → IsOver snap.now blocks tree
        → number ≡ pointer_number_at (content_in snap.now.geometry blocks) indirect index) }
    ensures read { IfOk result (λ number. IsPointerNumber snap.now.objects.items indirect index number) }
    ensures err { IfErr result (λ suspend. MaySuspend snap.now suspend) }
    ensures asks { IfErr result (λ suspend. IsSuspendFor (IsBlockAddr indirect) suspend) }
    ensures resumable { IfErr result (λ suspend. is_data_block_or_none snap.now.geometry indirect ≡ true → IsResumable suspend) }
{
    if indirect == 0 {
        return Ok(0);
    }
    if !snap.geometry.is_data(indirect) {
        return Err(Suspend::Io);
    }
    let bytes = data_block(snap, indirect)?;
    Ok(Numbers::at(bytes, index))
}

/// The numbers in a pointer block, once it was read: zeros where there is none.
pub fn pointer_numbers(alloc: Global, snap: &Snap, pointer: u32) -> Result<Vec<u32>, Suspend>
    ensures len { IfOk result (λ numbers. length numbers.items ≡ INDIRECT_INDEXES) }
    ensures placed { IfOk result
        (λ numbers. list_all (is_data_block_or_none snap.now.geometry) numbers.items ≡ true) }
    ensures ok { IfOk result (λ numbers. (blocks : Image) (tree : Tree) → IsOver snap.now blocks tree
        → numbers.items ≡ numbers_in (content_in snap.now.geometry blocks) pointer) }
    ensures read { IfOk result (λ numbers. ArePointerNumbers snap.now.objects.items pointer numbers.items) }
    ensures err { IfErr result (λ suspend. MaySuspend snap.now suspend) }
    ensures asks { IfErr result (λ suspend. MaySuspendFor (IsBlockAddr pointer) suspend) }
    ensures resumable { IfErr result (λ suspend. (blocks : Image) (tree : Tree) → IsOver snap.now blocks tree
        → is_data_block_or_none snap.now.geometry pointer ≡ true
        → are_pointers_placed snap.now.geometry blocks pointer → IsResumable suspend) }
{
    if pointer == 0 {
        let zeros = vec![in alloc; 0; INDIRECT_INDEXES]?;
        return Ok(zeros);
    }
    if !snap.geometry.is_data(pointer) {
        return Err(Suspend::Io);
    }
    let bytes = data_block(snap, pointer)?;
    match Numbers::read(alloc, &snap.geometry, bytes)? {
        Ok(read) => {
            let numbers = Vec::from_slice(alloc, read.as_slice())?;
            Ok(numbers)
        }
        Err(_) => Err(Suspend::Io),
    }
}

/// The numbers in the indirect block of a file, once it was read: zeros where there is none.
pub fn indirect_numbers(alloc: Global, snap: &Snap, inode: &Inode) -> Result<Vec<u32>, Suspend>
    ensures len { IfOk result (λ numbers. length numbers.items ≡ INDIRECT_INDEXES) }
    ensures placed { IfOk result
        (λ numbers. list_all (is_data_block_or_none snap.now.geometry) numbers.items ≡ true) }
    ensures ok { IfOk result (λ numbers. (blocks : Image) (tree : Tree) (file : ℕ)
        → HasInode snap.now blocks tree file inode.now
        → numbers.items ≡ numbers_in (content_in snap.now.geometry blocks) inode.now.indirect) }
    ensures read { IfOk result (λ numbers. ArePointerNumbers snap.now.objects.items inode.now.indirect numbers.items) }
    ensures err { IfErr result (λ suspend. MaySuspend snap.now suspend) }
    ensures asks { IfErr result (λ suspend. MaySuspendFor (IsBlockAddr inode.now.indirect) suspend) }
    ensures resumable { IfErr result (λ suspend. (blocks : Image) (tree : Tree) (file : ℕ)
        → HasInode snap.now blocks tree file inode.now → IsResumable suspend) }
{
    pointer_numbers(alloc, snap, inode.indirect)
}

/// The numbers of the inner blocks of a file, once its double indirect block was read: zeros where there is none.
pub fn double_numbers(alloc: Global, snap: &Snap, inode: &Inode) -> Result<Vec<u32>, Suspend>
    ensures len { IfOk result (λ numbers. length numbers.items ≡ INDIRECT_INDEXES) }
    ensures placed { IfOk result
        (λ numbers. list_all (is_data_block_or_none snap.now.geometry) numbers.items ≡ true) }
    ensures ok { IfOk result (λ numbers. (blocks : Image) (tree : Tree) (file : ℕ)
        → HasInode snap.now blocks tree file inode.now
        → numbers.items ≡ numbers_in (content_in snap.now.geometry blocks) inode.now.double) }
    ensures read { IfOk result (λ numbers. ArePointerNumbers snap.now.objects.items inode.now.double numbers.items) }
    ensures err { IfErr result (λ suspend. MaySuspend snap.now suspend) }
    ensures asks { IfErr result (λ suspend. MaySuspendFor (IsBlockAddr inode.now.double) suspend) }
    ensures resumable { IfErr result (λ suspend. (blocks : Image) (tree : Tree) (file : ℕ)
        → HasInode snap.now blocks tree file inode.now → IsResumable suspend) }
{
    pointer_numbers(alloc, snap, inode.double)
}

/// The number of an inner block of a file, as it stands in its double indirect block: 0 where there is none.
pub fn inner_number(snap: &Snap, inode: &Inode, inner: usize) -> Result<u32, Suspend>
    requires { inner < INDIRECT_INDEXES }
    ensures ok { IfOk result (λ number. (blocks : Image) (tree : Tree) (file : ℕ)
        → HasInode snap.now blocks tree file inode.now
        → number ≡ pointer_number_at (content_in snap.now.geometry blocks) inode.now.double inner) }
    ensures read { IfOk result (λ number. IsPointerNumber snap.now.objects.items inode.now.double inner number) }
    ensures err { IfErr result (λ suspend. MaySuspend snap.now suspend) }
    ensures asks { IfErr result (λ suspend. IsSuspendFor (IsBlockAddr inode.now.double) suspend) }
    ensures resumable { IfErr result (λ suspend. (blocks : Image) (tree : Tree) (file : ℕ)
        → HasInode snap.now blocks tree file inode.now → IsResumable suspend) }
{
    pointer_number(snap, inode.double, inner)
}

// The number at an index of a file that an inner block names, as it stands there.
fn double_number(snap: &Snap, inode: &Inode, index: usize) -> Result<u32, Suspend>
    requires past { FIRST_DOUBLE_INDEX ≤ index }
    requires within { index < FILE_INDEXES }
    ensures ok { IfOk result (λ number. (blocks : Image) (tree : Tree) (file : ℕ)
        → HasInode snap.now blocks tree file inode.now → number ≡ number_at snap.now.geometry blocks inode.now index) }
    ensures read { IfOk result (λ number. IsNumberAt snap.now.objects.items inode.now index number) }
    ensures err { IfErr result (λ suspend. MaySuspend snap.now suspend) }
    ensures asks { IfErr result (λ suspend. IsSuspendFor (IsPointerFor snap.now.objects.items inode.now index) suspend) }
    ensures resumable { IfErr result (λ suspend. (blocks : Image) (tree : Tree) (file : ℕ)
        → HasInode snap.now blocks tree file inode.now → IsResumable suspend) }
{
    let behind = index - FIRST_DOUBLE_INDEX;
    let inner = inner_number(snap, inode, behind / INDIRECT_INDEXES)?;
    pointer_number(snap, inner, behind % INDIRECT_INDEXES)
}

// The number at an index of a file, as it stands there.
fn named_number(snap: &Snap, inode: &Inode, index: usize) -> Result<u32, Suspend>
    requires { index < FILE_INDEXES }
    ensures ok { IfOk result (λ number. (blocks : Image) (tree : Tree) (file : ℕ)
        → HasInode snap.now blocks tree file inode.now → number ≡ number_at snap.now.geometry blocks inode.now index) }
    ensures read { IfOk result (λ number. IsNumberAt snap.now.objects.items inode.now index number) }
    ensures err { IfErr result (λ suspend. MaySuspend snap.now suspend) }
    ensures asks { IfErr result (λ suspend. IsSuspendFor (IsPointerFor snap.now.objects.items inode.now index) suspend) }
    ensures resumable { IfErr result (λ suspend. (blocks : Image) (tree : Tree) (file : ℕ)
        → HasInode snap.now blocks tree file inode.now → IsResumable suspend) }
{
    if index < DIRECT_INDEXES {
        return Ok(inode.direct[index]);
    }
    if index < FIRST_DOUBLE_INDEX {
        return pointer_number(snap, inode.indirect, index - DIRECT_INDEXES);
    }
    double_number(snap, inode, index)
}

// Whether the number is that of a data block, or 0.
fn is_data_or_none(snap: &Snap, number: u32) -> bool
    ensures { result ≡ is_data_block_or_none snap.now.geometry number }
{
    number == 0 || snap.geometry.is_data(number)
}

/// The number of the block at an index of a file: 0 where none is mapped.
pub fn block_number(snap: &Snap, inode: &Inode, index: usize) -> Result<u32, Suspend>
    requires { index < FILE_INDEXES }
    ensures ok { IfOk result (λ number. (blocks : Image) (tree : Tree) (file : ℕ)
        → HasInode snap.now blocks tree file inode.now → number ≡ number_at snap.now.geometry blocks inode.now index) }
    ensures read { IfOk result (λ number. IsNumberAt snap.now.objects.items inode.now index number) }
    ensures data { IfOk result (λ number. is_data_block_or_none snap.now.geometry number ≡ true) }
    ensures err { IfErr result (λ suspend. MaySuspend snap.now suspend) }
    ensures asks { IfErr result (λ suspend. IsSuspendFor (IsPointerFor snap.now.objects.items inode.now index) suspend) }
    ensures resumable { IfErr result (λ suspend. (blocks : Image) (tree : Tree) (file : ℕ)
        → HasInode snap.now blocks tree file inode.now → IsResumable suspend) }
{
    match named_number(snap, inode, index) {
        Ok(number) => {
            if is_data_or_none(snap, number) {
                Ok(number)
            } else {
                Err(Suspend::Io)
            }
        }
        Err(suspend) => Err(suspend),
    }
}
