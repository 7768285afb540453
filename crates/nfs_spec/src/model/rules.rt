//! Laws on single rules: what comes first, what is set, and whose bits count.
ghost use Rattle.std.specs.Prelude.{◌≡◌, ◌≢◌, ℕ, ◌<◌, ◌^◌, true, not, nat_eq, bit_and, List, Some, None};
ghost use Rattle.std.specs.Prelude.{Result, Ok, Err};
ghost use Rattle.base.specs.declared.TheConstants.{MODE_BITS, WRITE_RIGHT};
ghost use Rattle.nfs_types.specs.Handle.{handle_bytes};
ghost use Rattle.nfs_types.specs.declared.attributes.NewAttributes.{NewAttributes};
ghost use Rattle.nfs_types.specs.declared.attributes.SetTime.TheVariants.{Unchanged};
ghost use Rattle.nfs_types.specs.declared.attributes.WeakCacheData.{WeakCacheData};
ghost use Rattle.nfs_types.specs.declared.ctx.Credential.{Credential};
ghost use Rattle.nfs_types.specs.declared.ctx.Ctx.{Ctx};
ghost use Rattle.nfs_types.specs.declared.ctx.Moment.{Moment};
ghost use Rattle.nfs_types.specs.declared.handle.Stamp.{Stamp};
ghost use Rattle.nfs_types.specs.declared.status.Status.{Status};
ghost use Rattle.nfs_types.specs.declared.status.Status.TheVariants as status;
ghost use Rattle.nfs_spec.specs.Model.Attributes.{change_of};
ghost use Rattle.nfs_spec.specs.Model.Find.{find_file};
ghost use Rattle.nfs_spec.specs.Model.Node.{Node};
ghost use Rattle.nfs_spec.specs.Model.Permissions.{acts_as_owner, has_right};
ghost use Rattle.nfs_spec.specs.Model.SetAttr.{SetAttrStep};
ghost use Rattle.nfs_spec.specs.Model.Tree.{Tree, node_at, with_node};

/// A handle with the number of a file and another stamp, as that of an earlier file has, is STALE.
pub fn another_stamp_is_stale()
    ensures { (tree : Tree) (number : ℕ) (stamp : Stamp) (node : Node) → 0 < number
        → number < tree.geometry.inodes → number < 2 ^ 32
        → stamp.boot < 2 ^ 64 → stamp.transaction < 2 ^ 64 → node_at tree number ≡ Some node
        → stamp ≢ node.stamp
        → find_file tree (handle_bytes number stamp) ≡ Err status.Stale }
{}

/// A SETATTR whose guard isn't the time of the last change is answered NOT_SYNC, whatever else it asks for
/// and whoever asks, and changes nothing.
pub fn the_guard_comes_first()
    ensures { (tree next : Tree) (ctx : Ctx) (handle : List ℕ) (wanted : NewAttributes) (time : Moment)
        (number : ℕ) (node : Node) (outcome : Result (Unit {0}) Status) (file_attributes : WeakCacheData)
        → find_file tree handle ≡ Ok (number, node) → time ≢ node.ctime
        → SetAttrStep tree ctx handle wanted (Some time) outcome file_attributes next
        → (outcome ≡ Err status.NotSync) × (file_attributes ≡ change_of number node node) × (next ≡ tree) }
{}

/// A SETATTR of the mode alone by uid 0 or the owner sets the bits of a mode and the time of the last change,
/// and nothing else.
pub fn only_a_mode_is_set()
    ensures { (tree next : Tree) (ctx : Ctx) (handle : List ℕ) (mode number : ℕ) (node : Node)
        (outcome : Result (Unit {0}) Status) (file_attributes : WeakCacheData)
        → find_file tree handle ≡ Ok (number, node) → acts_as_owner ctx.credential node ≡ true
        → SetAttrStep tree ctx handle (record {
          mode = Some mode;
          uid = None;
          gid = None;
          size = None;
          atime = Unchanged;
          mtime = Unchanged;
        }) None outcome file_attributes next
        → (outcome ≡ Ok tt)
        × (file_attributes
        ≡ change_of number node (record node { mode = bit_and mode MODE_BITS; ctime = ctx.moment }))
        × (next ≡ with_node tree number (record node { mode = bit_and mode MODE_BITS; ctime = ctx.moment })) }
{}

/// For an owner who isn't uid 0 the owner's bits count, and no others: here the right to write.
pub fn only_the_owners_bits_count()
    ensures { (caller : Credential) (node : Node) → caller.uid ≢ 0 → caller.uid ≡ node.uid
        → has_right WRITE_RIGHT caller node ≡ not (nat_eq (bit_and node.mode 128) 0) }
{}
