//! What is found is what is owned and counted.
ghost use Rattle.std.specs.Prelude.{◌≡◌, ◌<◌, ℕ, List, None, Ok, Option, get_or, length};
ghost use Rattle.disk.specs.Crash.{Image};
ghost use Rattle.layout.specs.declared.geometry.Geometry.{Geometry};
ghost use Rattle.layout.specs.declared.inode.Inode.{Inode};
ghost use Rattle.layout.specs.Owners.{owned};
ghost use Rattle.layout.specs.Parts.{content_in, parts_of, table_of};
ghost use Rattle.image_read.specs.ImageCounts.Tally.{IsOwned};
ghost use Rattle.image_contents.specs.Found.Counted.{IsCounted};
ghost use Rattle.image_contents.specs.declared.bodies.found.Found.{Found};
ghost use Rattle.image_contents.specs.Bodies.Bodies.{FitsFound, IsFound};

/// Whose blocks were met in all files of an image's table, to these it is told who owns the blocks of the image.
pub fn what_is_found_is_owned()
    ensures { (g : Geometry) (blocks : Image) (table : List (Option Inode)) (found : Found)
        → ((number : ℕ) → number < g.inodes → table_of g blocks number ≡ Ok (get_or table number None))
        → IsFound g (content_in g blocks) table g.inodes found → IsOwned (owned g (parts_of g blocks)) found.owners }
{}

/// What was counted of the names in all files of an image's table is what is counted of the image.
pub fn what_is_found_is_counted()
    ensures { (g : Geometry) (blocks : Image) (table : List (Option Inode)) (found : Found)
        → length table ≡ g.inodes
        → ((number : ℕ) → number < g.inodes → table_of g blocks number ≡ Ok (get_or table number None))
        → FitsFound g found → IsFound g (content_in g blocks) table g.inodes found
        → IsCounted g blocks table found.links }
{}
