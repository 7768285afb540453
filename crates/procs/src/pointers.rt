//! The pointer blocks of a file, which are asked for one behind the other. These are positions, of which nothing is
//! claimed.
ghost use Rattle.std.specs.Prelude.{◌≡◌, length, IfErr};
ghost use Rattle.base.specs.declared.TheConstants.{BLOCK_BYTES};
ghost use Rattle.inode.specs.Over.{MaySuspend};

use base::INDIRECT_INDEXES;
use inode::{Snap, Suspend, data_block, held};
use layout::{Inode, Numbers};

/// The pointer blocks of a file. So many inner blocks were asked for, of those that its double indirect block names.
#[derive(Drop)]
pub(crate) struct Pointers {
    inode: Inode,
    inners: usize,
}

/// Asks for a data block, if the number is that of one.
pub(crate) fn ask_data(snap: &Snap, number: u32) -> Result<(), Suspend>
    ensures { IfErr result (λ why. MaySuspend snap.now why) }
{
    if snap.geometry.is_data(number) {
        data_block(snap, number)?;
    }
    Ok(())
}

impl Pointers {
    /// Those of a file.
    pub(crate) fn begin(inode: Inode) -> Pointers {
        Pointers { inode, inners: 0 }
    }

    /// Asks for the next that wasn't read.
    pub(crate) fn go_on(&mut self, snap: &Snap) -> Result<(), Suspend>
        ensures { IfErr result (λ why. MaySuspend snap.now why) }
    {
        ask_data(snap, self.inode.indirect)?;
        if !snap.geometry.is_data(self.inode.double) {
            return Ok(());
        }
        let numbers = data_block(snap, self.inode.double)?;
        self.ask_inners(snap, numbers)
    }

    // Asks for the next inner block that wasn't read, of those that the double indirect block names.
    fn ask_inners(&mut self, snap: &Snap, numbers: &[u8]) -> Result<(), Suspend>
        requires { length numbers.now ≡ BLOCK_BYTES }
        ensures { IfErr result (λ why. MaySuspend snap.now why) }
    {
        'inners: for inner in self.inners..INDIRECT_INDEXES {
            ask_data(snap, Numbers::at(numbers, inner))?;
            self.inners = inner + 1;
        }
        Ok(())
    }
}

/// Those of the file of a number, if it has a double indirect block.
pub(crate) fn pointers_of(snap: &Snap, number: u32) -> Option<Pointers> {
    match held(snap, number) {
        Ok(Some(inode)) => {
            if inode.double == 0 {
                None
            } else {
                Some(Pointers::begin(inode))
            }
        }
        Ok(None) => None,
        Err(_) => None,
    }
}
