//! Laws of the window of commits that aren't installed.
ghost use Rattle.std.specs.Prelude.{◌≡◌, ◌≢◌, ◌+◌, ℕ, List, [], ◌∷◌, length, Contains};
ghost use Rattle.objects.specs.declared.addr.Addr.{Addr};
ghost use Rattle.circ.specs.Log.Log.{Log, installed_place};
ghost use Rattle.disk.specs.Device.{Content};
ghost use Rattle.objects.specs.Object.{ObjectBytes};
ghost use Rattle.txn_law.specs.Window.{Footprint, IsLegalWindow};

/// Two commits in a row that read one object differently, the first without a write, are in no legal window.
pub fn a_window_reads_one_content()
    ensures { (log : Log) (held : List (ℕ × Content)) (place : ℕ) (addr : Addr) (one other : List ℕ)
        → one ≢ other
        → IsLegalWindow log
        (record { place = place; read = record { addr = addr; bytes = one } ∷ []; written = [] }
        ∷ record { place = place + 1; read = record { addr = addr; bytes = other } ∷ []; written = [] } ∷ []) held
        → ⊥ }
{}

/// A commit whose record is kept though it is installed, or one that is left out, is in no legal window.
pub fn a_window_has_each_commit_that_is_not_installed()
    ensures { (log : Log) (commits : List Footprint) (held : List (ℕ × Content))
        → installed_place log + length commits ≢ log.places
        → IsLegalWindow log commits held → ⊥ }
{}

/// A block that a kept commit read and that isn't in memory is in no legal window.
pub fn a_window_preserves_what_was_read()
    ensures { (log : Log) (commits : List Footprint) (commit : Footprint) (object : ObjectBytes)
        → Contains commits commit → Contains commit.read object → IsLegalWindow log commits [] → ⊥ }
{}
