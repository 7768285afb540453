//! What a log lays over the homes of an image.
ghost use Rattle.std.specs.Prelude.{◌≡◌, ◌<◌, MatchOption, Some, None, OnOk};
ghost use Rattle.disk.specs.Device.{CountsFailure};
ghost use Rattle.circ.specs.Log.Effects.{newest_in};
ghost use Rattle.circ.specs.Log.Overlay.{logged_in, over};
ghost use Rattle.circ.specs.Log.Recovery.{HasOnlyRead, IsCertain, image_of};
ghost use Rattle.image_read.specs.LoggedImage.WithOverlay.{with_overlay};

use disk::{Block, BlockNo, CrashDisk, Failed};
use std::marker::Model;

/// The blocks of a log, in log order, which lie over the homes of its image.
#[derive(Drop)]
pub struct Overlay {
    logged: Vec<(BlockNo, Block)>,
}

impl Model for Overlay {
    ghost use Rattle.std.specs.Prelude.{List};
    ghost use Rattle.disk.specs.Device.{Content};
    ghost use Rattle.disk.specs.declared.block.BlockNo.{BlockNo};

    ghost Value = { List (BlockNo × Content) };

    ghost view = { λ o. o.logged.items };
}

impl Overlay {
    /// These blocks lie over the homes, the later ones over the earlier ones.
    pub fn new(logged: Vec<(BlockNo, Block)>) -> Overlay
        ensures { result ≡ logged.items }
    {
        Overlay { logged }
    }

    /// Reads a block of the image: as the last block of the log that is written there, or from its home.
    #[tactic(auto, using(circ::proofs::LogLemmas::OnlyRead::single_read, circ::proofs::LogLemmas::OnlyRead::no_read))]
    pub fn read<D: CrashDisk>(
        &self,
        disk: &mut D,
        block: BlockNo,
        out: &mut Block,
    ) -> Result<(), Failed>
        requires { block.0 < (D.device disk.old).size }
        ensures reads { HasOnlyRead (D.device disk.old) (D.device disk.new) }
        ensures failure { CountsFailure (D.device disk.old) (D.device disk.new) result }
        ensures model { D.keeps_model disk.new → D.keeps_model disk.old }
        ensures overlaid_content { D.keeps_model disk.new → IsCertain (D.device disk.old)
            → OnOk result (out.new ≡ with_overlay self.now (image_of (D.device disk.old)) block.0) }
        ensures over { D.keeps_model disk.new → IsCertain (D.device disk.old)
            → self.now ≡ logged_in (image_of (D.device disk.old))
            → OnOk result (out.new ≡ over (image_of (D.device disk.old)) block.0) }
    {
        match self.last_of(block) {
            Some(content) => {
                out.copy_from(content);
                Ok(())
            }
            None => disk.read(block, out),
        }
    }

    // The last block of the log that is written there.
    fn last_of(&self, block: BlockNo) -> Option<&Block>
        ensures { MatchOption result (newest_in self.now block.0 ≡ None)
            (λ content. newest_in self.now block.0 ≡ Some content.now) }
    {
        let mut i = self.logged.len();
        while i > 0 {
            i -= 1;
            let change = &self.logged[i];
            if change.0 == block {
                return Some(&change.1);
            }
        }
        None
    }
}
