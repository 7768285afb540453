//! What is found in the files of an image.
ghost use Rattle.std.specs.Prelude.{◌≡◌, [], None, IfOk};
ghost use Rattle.image_read.specs.ImageCounts.Tally.{IsOwned};
ghost use Rattle.image_read.specs.Counts.Adds.{AreNamed};
ghost use Rattle.image_contents.specs.Bodies.Bodies.{FitsFound};

use image_read::{Links, Named, Owners};
use layout::Geometry;
use std::alloc::{AllocError, Global};

/// What was found in files: who owns their blocks, the names in their slots, and the lowest number of a file that isn't
/// clean: something lies past its size, or of the names in its slots one is no name or stands twice.
#[derive(Drop)]
pub struct Found {
    pub owners: Owners,
    pub links: Links,
    pub unclean: Option<u32>,
}

impl Found {
    /// Nothing was found in no files.
    pub fn new(alloc: Global, geometry: &Geometry) -> Result<Found, AllocError>
        ensures fits { IfOk result (FitsFound geometry.now) }
        ensures owned { IfOk result (λ found. IsOwned [] found.owners) }
        ensures named { IfOk result (λ found. AreNamed [] [] [] found.links) }
        ensures is_clean { IfOk result (λ found. found.unclean ≡ None) }
    {
        Ok(Found {
            owners: Owners::new(alloc, geometry.blocks)?,
            links: Links {
                names: Named::new(alloc, geometry.inodes)?,
                by_parent: Named::new(alloc, geometry.inodes)?,
                children: Named::new(alloc, geometry.inodes)?,
            },
            unclean: None,
        })
    }
}
