//! How often blocks are pinned.
ghost use Rattle.std.specs.Prelude.{◌≡◌, ◌<◌, ◌+◌, ◌-◌, ◌^◌, IsSome, OnOk, OnErr, if◌then◌else◌, nat_eq};
ghost use Rattle.std.specs.Map.{lookup};
ghost use Rattle.disk.specs.declared.block.BlockNo.{BlockNo};
ghost use Rattle.objects.specs.Pins.{HasReserved, count_in, once_at};

use disk::BlockNo;
use std::alloc::AllocError;
use std::collections::HashMap;

/// How often the block is pinned.
pub(crate) fn count_of(pins: &HashMap<u32, u128>, block: BlockNo) -> u128
    ensures { result ≡ count_in pins.now.entries block }
{
    pins.get(&block.0).copied().unwrap_or(0)
}

/// Pins the block once more. Where there is no room nothing changes.
pub(crate) fn add(pins: &mut HashMap<u32, u128>, block: BlockNo) -> Result<(), AllocError>
    requires { count_in pins.old.entries block + 1 < 2 ^ 128 }
    ensures added { OnOk result ((at : BlockNo) → count_in pins.new.entries at
        ≡ count_in pins.old.entries at + once_at block at) }
    ensures refused { OnErr result ((at : BlockNo) → count_in pins.new.entries at ≡ count_in pins.old.entries at) }
{
    let count = count_of(pins, block);
    pins.insert(block.0, count + 1)?;
    Ok(())
}

/// Makes room for one pin more of the block. Nothing else changes.
pub(crate) fn reserve_next(pins: &mut HashMap<u32, u128>, block: BlockNo) -> Result<(), AllocError>
    ensures has_space { OnOk result (HasReserved pins.new.entries block) }
    ensures same { (at : BlockNo) → count_in pins.new.entries at ≡ count_in pins.old.entries at }
{
    if pins.get(&block.0).is_none() {
        pins.insert(block.0, 0)?;
    }
    Ok(())
}

// Makes the count of a block that is counted this one.
fn set(pins: &mut HashMap<u32, u128>, block: BlockNo, count: u128)
    requires { IsSome (lookup (nat_eq block.0) pins.old.entries) }
    ensures { (at : BlockNo) → count_in pins.new.entries at
        ≡ (if nat_eq at.0 block.0 then count else count_in pins.old.entries at) }
{
    if let Some(there) = pins.get_mut(&block.0) {
        *there = count;
    }
}

/// Pins a block once more for which there is room.
pub(crate) fn add_reserved(pins: &mut HashMap<u32, u128>, block: BlockNo)
    requires reserved { HasReserved pins.old.entries block }
    requires countable { count_in pins.old.entries block + 1 < 2 ^ 128 }
    ensures { (at : BlockNo) → count_in pins.new.entries at ≡ count_in pins.old.entries at + once_at block at }
{
    let count = count_of(pins, block);
    set(pins, block, count + 1);
}

/// Pins a block once more that is pinned.
pub(crate) fn add_again(pins: &mut HashMap<u32, u128>, block: BlockNo)
    requires there { 0 < count_in pins.old.entries block }
    requires countable { count_in pins.old.entries block + 1 < 2 ^ 128 }
    ensures { (at : BlockNo) → count_in pins.new.entries at ≡ count_in pins.old.entries at + once_at block at }
{
    let count = count_of(pins, block);
    set(pins, block, count + 1);
}

/// Takes one pin off a block, if it has one, and tells how many are left.
pub(crate) fn take(pins: &mut HashMap<u32, u128>, block: BlockNo) -> u128
    ensures counts { (at : BlockNo) → count_in pins.new.entries at ≡ count_in pins.old.entries at - once_at block at }
    ensures left { result ≡ count_in pins.new.entries block }
{
    let count = count_of(pins, block);
    if count > 1 {
        set(pins, block, count - 1);
        return count - 1;
    }
    let _ = pins.remove(&block.0);
    0
}
