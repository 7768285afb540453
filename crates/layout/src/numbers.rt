//! Indirect blocks: the numbers of the blocks that an inode doesn't name itself.
ghost use Rattle.std.specs.Prelude.{◌≡◌, ◌*◌, ◌<◌, ◌≤◌, true, false, get_or, length, IfOk, IfErr};
ghost use Rattle.std.specs.List.{list_all};
ghost use Rattle.base.specs.declared.TheConstants.{BLOCK_BYTES, INDIRECT_INDEXES};
ghost use Rattle.layout.specs.Fields.{numbers_at, number_bytes, count_of};
ghost use Rattle.layout.specs.InodeForm.{is_data_block_or_none};

use crate::fields::four_at;
use crate::inode_bytes::put_numbers;
use crate::inode_rules::{are_data_blocks_or_none, is_data_block_or_none};
use crate::{Geometry, LayoutFault};
use base::{BLOCK_BYTES, INDIRECT_INDEXES};
use objects::Object;
use std::alloc::{AllocError, Global};
use std::marker::Model;

/// The bytes of a number in an indirect block.
pub const NUMBER_BYTES: usize = 4;

/// The numbers of an indirect block, 0 where no block is mapped.
#[derive(Drop)]
pub struct Numbers {
    numbers: Vec<u32>,
}

impl Model for Numbers {
    ghost use Rattle.std.specs.Prelude.{List, ℕ, ◌≡◌, length};
    ghost use Rattle.base.specs.declared.TheConstants.{INDIRECT_INDEXES};

    ghost Value = { List ℕ };

    ghost view = { λ n. n.numbers.items };

    ghost invariant = { λ n. length n.numbers.items ≡ INDIRECT_INDEXES };
}

impl Numbers {
    /// Reads an indirect block of an image of this geometry. It is refused (Range) where a number is neither
    /// 0 nor that of a data block.
    pub fn read(
        alloc: Global,
        geometry: &Geometry,
        bytes: &[u8],
    ) -> Result<Result<Numbers, LayoutFault>, AllocError>
        requires { length bytes.now ≡ BLOCK_BYTES }
        ensures ok { IfOk result (λ read. IfOk read (λ n. n ≡ numbers_at INDIRECT_INDEXES 0 bytes.now)) }
        ensures places { IfOk result
            (λ read. IfOk read (λ n. list_all (is_data_block_or_none geometry.now)
            n ≡ true)) }
        ensures refused { IfOk result
            (λ read. IfErr read (λ fault. (fault ≡ LayoutFault.Range)
            × (list_all (is_data_block_or_none geometry.now)
            (numbers_at INDIRECT_INDEXES 0 bytes.now) ≡ false))) }
    {
        let mut numbers = Vec::with_capacity(alloc, INDIRECT_INDEXES)?;
        'indexes: for index in 0..INDIRECT_INDEXES {
            numbers.push(four_at(bytes, NUMBER_BYTES * index))?;
        }
        if !are_data_blocks_or_none(geometry, &numbers) {
            return Ok(Err(LayoutFault::Range));
        }
        Ok(Ok(Numbers { numbers }))
    }

    /// How many blocks an indirect block of an image of this geometry maps. It is refused (Range) where a number is
    /// neither 0 nor that of a data block. Where the block comes with what its numbers count to, none of them is looked
    /// at.
    pub fn mapped_in(geometry: &Geometry, block: &Object) -> Result<u32, LayoutFault>
        requires { block.now.addr.len ≡ BLOCK_BYTES }
        ensures few { IfOk result (λ mapped. mapped ≤ INDIRECT_INDEXES) }
        ensures count { IfOk result (λ mapped. mapped ≡ count_of (numbers_at INDIRECT_INDEXES 0 block.now.bytes)) }
        ensures places { IfOk result (λ mapped. list_all (is_data_block_or_none geometry.now)
            (numbers_at INDIRECT_INDEXES 0 block.now.bytes) ≡ true) }
        ensures refused { IfErr result (λ fault. (fault ≡ LayoutFault.Range)
            × (list_all (is_data_block_or_none geometry.now)
            (numbers_at INDIRECT_INDEXES 0 block.now.bytes) ≡ false)) }
    {
        let data = geometry.data().0;
        let counted = block.counted();
        if counted.least < data {
            return Err(LayoutFault::Range);
        }
        if geometry.blocks <= counted.greatest {
            return Err(LayoutFault::Range);
        }
        Ok(counted.count)
    }

    /// The number at an index of an indirect block, as it stands there.
    pub fn at(bytes: &[u8], index: usize) -> u32
        requires len { length bytes.now ≡ BLOCK_BYTES }
        requires index { index < INDIRECT_INDEXES }
        ensures { result ≡ get_or (numbers_at INDIRECT_INDEXES 0 bytes.now) index 0 }
    {
        four_at(bytes, NUMBER_BYTES * index)
    }

    /// The bytes of an indirect block with these numbers.
    pub fn spelled(alloc: Global, numbers: &[u32]) -> Result<Vec<u8>, AllocError>
        ensures bytes { IfOk result (λ bytes. bytes.items ≡ number_bytes numbers.now) }
        ensures len { IfOk result (λ bytes. length bytes.items ≡ NUMBER_BYTES * length numbers.now) }
    {
        let mut bytes = Vec::new(alloc);
        put_numbers(&mut bytes, numbers)?;
        Ok(bytes)
    }

    /// The numbers.
    pub fn as_slice(&self) -> &[u32]
        ensures { result.now ≡ self.now }
    {
        &self.numbers
    }
}

/// How many of these numbers are those of blocks.
pub(crate) fn count_mapped(numbers: &[u32]) -> u32
    requires { length numbers.now ≤ INDIRECT_INDEXES }
    ensures few { result ≤ length numbers.now }
    ensures count { result ≡ count_of numbers.now }
{
    let mut mapped = 0;
    for number in numbers {
        if *number != 0 {
            mapped += 1;
        }
    }
    mapped
}
