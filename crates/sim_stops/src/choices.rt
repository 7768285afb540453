//! The choices of what a crash leaves.
ghost use Rattle.std.specs.Prelude.{◌≡◌, IfOk};
ghost use Rattle.disk.specs.Memory.{blocks_of};
ghost use Rattle.sim_stops.specs.CrashChoices.{single_choice, choice_of, choices_of, counts_in, each_choice, product_from};

use disk::{BlockNo, CrashDisk, MemDisk};
use std::alloc::{AllocError, Global};

/// The blocks of a device that have several contents: in their order, how many each has.
#[tactic(auto, using(crate::proofs::Counted::counts_more, crate::proofs::Counted::counts_same, crate::proofs::Counted::counts_all))]
pub fn counts_of(alloc: Global, disk: &MemDisk) -> Result<Vec<u32>, AllocError>
    ensures { IfOk result (λ counts. counts.items ≡ counts_in (blocks_of disk.now)) }
{
    let mut counts = Vec::new(alloc);
    for block in 0..disk.blocks() {
        let count = disk.count(BlockNo(block));
        if count > 1 {
            counts.push(count.min(u32::MAX as usize) as u32)?;
        }
    }
    Ok(counts)
}

/// How many choices are tried. Of up to so many blocks it is each; of more it is all old, all new, and each block alone
/// new.
pub fn choices(counts: &[u32], most: usize) -> u64
    ensures { result ≡ choices_of counts.now most }
{
    if counts.len() > most {
        return counts.len() as u64 + 2;
    }
    product(counts)
}

#[tactic(auto, using(crate::proofs::Counted::product_more, crate::proofs::Counted::product_end))]
fn product(counts: &[u32]) -> u64
    ensures { result ≡ product_from 1 counts.now }
{
    let mut all: u64 = 1;
    'counts: for count in counts {
        all = all.saturating_mul(*count as u64);
    }
    all
}

/// The choice of this number, from 0: the index of the content that each of these blocks keeps.
pub fn choice(
    alloc: Global,
    counts: &[u32],
    most: usize,
    number: u64,
) -> Result<Vec<u32>, AllocError>
    ensures { IfOk result (λ choice. choice.items ≡ choice_of most counts.now number) }
{
    if counts.len() > most {
        return single_choice(alloc, counts, number);
    }
    each_choice(alloc, counts, number)
}

// Of all choices the one of this number.
#[tactic(auto, using(crate::proofs::Counted::each_more, crate::proofs::Counted::each_end))]
fn each_choice(alloc: Global, counts: &[u32], number: u64) -> Result<Vec<u32>, AllocError>
    ensures { IfOk result (λ choice. choice.items ≡ each_choice number counts.now) }
{
    let mut choice = Vec::new(alloc);
    let mut rest = number;
    'counts: for count in counts {
        let several = (*count).max(1) as u64;
        choice.push((rest % several) as u32)?;
        rest /= several;
    }
    Ok(choice)
}

// All old, all new, or a block alone new.
#[tactic(auto, using(crate::proofs::Counted::single_more, crate::proofs::Counted::single_end))]
fn single_choice(alloc: Global, counts: &[u32], number: u64) -> Result<Vec<u32>, AllocError>
    ensures { IfOk result (λ choice. choice.items ≡ single_choice number 0 counts.now) }
{
    let mut choice = Vec::new(alloc);
    for at in 0..counts.len() {
        let last = counts[at].max(1) - 1;
        let is_new = number == 1 || number == at as u64 + 2;
        choice.push(if is_new { last } else { 0 })?;
    }
    Ok(choice)
}
