//! Where the parents of directories lead.
ghost use Rattle.std.specs.Prelude.{◌≡◌, ◌<◌, ◌≤◌, ℕ, length, IfOk};
ghost use Rattle.base.specs.declared.TheConstants.{MOST_INODES};
ghost use Rattle.image_read.specs.ImageCounts.Iterated.{AreFurthest, in_list};

use std::alloc::{AllocError, Global};

// How often the steps are doubled: they are at least as many as an image may have inodes.
const DOUBLINGS: u32 = 16;

/// Where as many steps lead from each number as there are numbers, or more, if one leads to what stands in the
/// list at its place.
pub fn furthest_of(alloc: Global, next: &[u32]) -> Result<Vec<u32>, AllocError>
    requires few { length next.now ≤ MOST_INODES }
    requires within { (index_within : ℕ) → index_within < length next.now → in_list next.now index_within < length next.now }
    ensures len { IfOk result (λ furthest. length furthest.items ≡ length next.now) }
    ensures iterated { IfOk result (λ furthest. AreFurthest next.now furthest.items) }
{
    let mut furthest = Vec::from_slice(alloc, next)?;
    'doublings: for doubling in 0..DOUBLINGS {
        furthest = doubled(alloc, &furthest)?;
    }
    Ok(furthest)
}

// Where twice as many steps lead.
fn doubled(alloc: Global, furthest: &[u32]) -> Result<Vec<u32>, AllocError>
    requires { (index_within : ℕ) → index_within < length furthest.now → in_list furthest.now index_within < length furthest.now }
    ensures len { IfOk result (λ twice. length twice.items ≡ length furthest.now) }
    ensures twice { IfOk result (λ twice. (index_within : ℕ) → index_within < length furthest.now
        → in_list twice.items index_within ≡ in_list furthest.now (in_list furthest.now index_within)) }
{
    let mut twice = Vec::with_capacity(alloc, furthest.len())?;
    'places: for index_within in furthest {
        twice.push(furthest[*index_within as usize])?;
    }
    Ok(twice)
}
