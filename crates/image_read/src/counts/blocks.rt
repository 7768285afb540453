//! The blocks that a file owns.
ghost use Rattle.std.specs.Prelude.{◌≡◌, ◌++◌, ◌∷◌, [], ℕ, List, filter, length, true};
ghost use Rattle.std.specs.List.{list_all};
ghost use Rattle.image_read.specs.ImageCounts.Tally.{IsOwned};
ghost use Rattle.image_read.specs.Counts.Adds.{is_none_or_below, is_some};

use crate::image_counts::Owners;

/// Meets the blocks of a file: the one with numbers and those of its indexes, as far as they are there.
pub fn meet_blocks(owners: &mut Owners, indirect: u32, numbers: &[u32])
    requires indirect { is_none_or_below (length owners.old.has) indirect ≡ true }
    requires numbers { list_all (is_none_or_below (length owners.old.has)) numbers.now ≡ true }
    ensures size { length owners.new.has ≡ length owners.old.has }
    ensures met { (met : List ℕ) → IsOwned met owners.old
        → IsOwned (met ++ filter is_some (indirect ∷ numbers.now)) owners.new }
{
    meet_block(owners, indirect);
    'places: for index_within in 0..numbers.len() {
        meet_block(owners, numbers[index_within]);
    }
}

// Meets a block, if there is one.
fn meet_block(owners: &mut Owners, number: u32)
    requires { is_none_or_below (length owners.old.has) number ≡ true }
    ensures size { length owners.new.has ≡ length owners.old.has }
    ensures met { (met : List ℕ) → IsOwned met owners.old → IsOwned (met ++ filter is_some (number ∷ [])) owners.new }
{
    if number == 0 {
        return;
    }
    owners.meet(number);
}
