//! Blocks that stay in memory though nobody has pinned them.
ghost use Rattle.std.specs.Prelude.{◌≡◌, ◌<◌, ◌*◌, ◌||◌, ◌∷◌, ℕ, List, length};
ghost use Rattle.base.specs.declared.TheConstants.{CLEAN_BLOCKS};
ghost use Rattle.objects.specs.Pins.{LetsGo, count_in, is_wanted, spared};
ghost use Rattle.objects.specs.Recent.{is_tracked};
ghost use Rattle.objects.specs.Unneeded.{AreTracked, TracksUnneeded};

use crate::Present;
use crate::blocks::Blocks;
use crate::pins::count_of;
use crate::recent::Recent;
use disk::BlockNo;
use std::collections::HashMap;

/// Notes a block that nobody has pinned any more, and lets many go that were noted longest ago, once there are too
/// many. Where there is no memory to note it, the block goes itself.
pub(crate) fn keep_clean(
    blocks: &mut Blocks,
    pins: &HashMap<u32, u128>,
    recent: &mut Recent,
    block: BlockNo,
)
    requires few { length recent.old < 2 * CLEAN_BLOCKS }
    requires tracked { AreTracked (block.0 ∷ recent.old) (count_in pins.now.entries) blocks.old }
    ensures goes { LetsGo (count_in pins.now.entries) blocks.old blocks.new }
    ensures well_formed { TracksUnneeded recent.new (count_in pins.now.entries) blocks.new }
{
    if !recent.track(block) {
        let_clean_go(blocks, pins, block);
        return;
    }
    if recent.forget_oldest() {
        let_others_go(blocks, pins, recent);
    }
}

// Lets a block go where nobody has pinned it and no fetch of it is pending.
fn let_clean_go(blocks: &mut Blocks, pins: &HashMap<u32, u128>, block: BlockNo)
    ensures goes { LetsGo (count_in pins.now.entries) blocks.old blocks.new }
    ensures tracked { (numbers : List ℕ) → AreTracked (block.0 ∷ numbers) (count_in pins.now.entries) blocks.old
        → AreTracked numbers (count_in pins.now.entries) blocks.new }
{
    if count_of(pins, block) == 0 {
        blocks.unpin(block);
    }
}

// Lets all blocks go that nobody has pinned, of which no fetch is pending and which aren't noted.
fn let_others_go(blocks: &mut Blocks, pins: &HashMap<u32, u128>, recent: &Recent)
    ensures { blocks.new ≡ spared (λ one. is_tracked recent.now one.block) (count_in pins.now.entries) blocks.old }
{
    blocks.keep_only(|resident| stays(pins, recent, resident));
}

// Whether the block is pinned, a fetch of it is pending, or it is noted.
fn stays(pins: &HashMap<u32, u128>, recent: &Recent, resident: &Present) -> bool
    ensures { result ≡ (is_tracked recent.now resident.now.block || is_wanted (count_in pins.now.entries) resident.now) }
{
    resident.content.is_none() || count_of(pins, resident.block) > 0 || recent.has(resident.block)
}
