//! Laws on handles over many steps.
ghost use Rattle.std.specs.Prelude.{◌≡◌, ℕ, List, Err};
ghost use Rattle.nfs_types.specs.declared.status.Status.TheVariants as status;
ghost use Rattle.nfs_spec.specs.Model.Entry.{Entry};
ghost use Rattle.nfs_spec.specs.Model.Find.{find_file, stamp_in};
ghost use Rattle.nfs_spec.specs.Model.Tree.{Tree};
ghost use Rattle.nfs_spec.specs.Procedures.After.{after};
ghost use Rattle.nfs_spec.specs.Procedures.Histories.{IsGivenByNone};

/// A stale handle stays stale over each history of which no entry has the handle's own stamp.
pub fn a_stale_handle_stays_stale()
    ensures { (tree next : Tree) (entries : List Entry) (handle : List ℕ)
        → find_file tree handle ≡ Err status.Stale → IsGivenByNone (stamp_in handle) entries
        → after tree entries next → find_file next handle ≡ Err status.Stale }
{}
