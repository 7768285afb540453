//! Laws on an open store.
ghost use Rattle.std.specs.Prelude.{◌≡◌, ℕ, ◌+◌, ◌≤◌, List, [], drop, length};
ghost use Rattle.base.specs.declared.TheConstants.{BLOCK_BYTES, SUPER_BLOCK};
ghost use Rattle.disk.specs.Crash.{Image, IsCrashImage};
ghost use Rattle.disk.specs.Device.{Content, Device};
ghost use Rattle.nfs_spec.specs.Model.Entry.{Entry};
ghost use Rattle.nfs_spec.specs.Procedures.After.{after};
ghost use Rattle.nfs_spec.specs.Model.Tree.{Tree};
ghost use Rattle.layout.specs.declared.super_block.Super.{Super};
ghost use Rattle.layout.specs.SuperForm.{IsSuper};
ghost use Rattle.circ.specs.Log.Calls.{Pending, idle};
ghost use Rattle.circ.specs.Log.Law.{IsBoundary, with_home};
ghost use Rattle.circ.specs.Log.Log.{IsLawful};
ghost use Rattle.circ.specs.Log.Overlay.{over};
ghost use Rattle.layout.specs.Homes.{homes_of};
ghost use Rattle.txn_law.specs.Core.{CoreState};
ghost use Rattle.store_promise.specs.OpenSince.{IsOpenSince, blocks_after};
ghost use Rattle.store_promise.specs.OpenStore.{HasFilesOver, IsBoot, IsNewOver, IsOpenOver, IsSettledOf};
ghost use Rattle.store_promise.specs.Openings.{IsOpened};
ghost use Rattle.store_promise.specs.Prefix.{HasPrefix};

/// An image that has whole groups over what is at home is good, and has the tree after the first so many of the
/// entries, not fewer than are settled, and the blocks after their commits; the others lead on from that tree.
/// It needs no device that agrees, and so holds within the write of a super block too.
pub fn whole_groups_are_a_good_image()
    ensures { (base : Image) (core : CoreState) (boot : ℕ) (tree last : Tree) (entries : List Entry)
        (image : Image)
        → IsLawful core.log → HasFilesOver base core boot tree entries last → IsBoundary base core.log image
        → (left : HasPrefix core.log.blocks (IsBoot boot) tree entries (length entries)
        (IsSettledOf core.log) image)
        × (homes_of core.log.blocks (over image) ≡ blocks_after base core left.count)
        × after left.left (drop left.count entries) last }
{
    txn_law::a_crash_leaves_a_prefix();
}

/// Whatever a stop leaves of an open store is such an image.
pub fn a_stop_leaves_a_good_image()
    ensures { (d : Device) (base : Image) (core : CoreState) (logging installing : Pending) (boot : ℕ)
        (tree last : Tree) (entries : List Entry) (image : Image)
        → IsOpenOver base d core logging installing boot tree entries last → IsCrashImage d d.clock image
        → (left : HasPrefix core.log.blocks (IsBoot boot) tree entries (length entries)
        (IsSettledOf core.log) image)
        × (homes_of core.log.blocks (over image) ≡ blocks_after base core left.count)
        × after left.left (drop left.count entries) last }
{
    circ::law::a_crash_leaves_whole_groups();
    whole_groups_are_a_good_image();
}

/// What an opening leaves is an open store, with the tree that the image had and no entry since.
pub fn an_opening_leaves_an_open_store()
    ensures { (before opened : Device) (base : Image) (core : CoreState) (tree : Tree) (first position : ℕ)
        → IsOpened before opened tree first position → IsNewOver base opened core
        → IsOpenSince base opened core idle idle (first + 1) tree [] tree }
{
    circ::law::a_crash_leaves_whole_groups();
}

/// Where no commit is kept, a new super block at home leaves the files as they were, with the boot number
/// that it tells.
pub fn the_files_stay_under_a_new_super_block()
    ensures { (base : Image) (core : CoreState) (boot : ℕ) (tree : Tree) (super : Super) (content : Content)
        (files : HasFilesOver base core boot tree [] tree)
        → core.log.changes ≡ [] → core.records ≡ [] → core.present ≡ []
        → length content ≡ BLOCK_BYTES → IsSuper content super → super.geometry ≡ files.super.geometry
        → boot ≤ super.boot
        → HasFilesOver (with_home base SUPER_BLOCK content) core super.boot tree [] tree }
{}
