//! Laws of the cutting of records. Nothing runs here: each contract is what the definitions entail.
ghost use Rattle.std.specs.Prelude.{◌≡◌, ◌+◌, ◌≤◌, ◌++◌, ◌∷◌, [], false, ℕ, List};
ghost use Rattle.nfs_types.specs.Fits.{AreBytes};
ghost use Rattle.base.specs.declared.TheConstants.{RECORD_BYTES};
ghost use Rattle.rpc.specs.Records.{records, CutsOff, HasBegun, IsPart, IsRecord, IsRest, IsTooLong};
ghost use Rattle.rpc.specs.Records.{fragment, held_of};

/// A stream is cut into records, and a rest, in one way.
pub fn streams_have_one_cut()
    ensures { (bytes : List ℕ) (list others : List (List ℕ)) (rest last : List ℕ) → records bytes list rest
        → records bytes others last → (list ≡ others) × (rest ≡ last) }
{}

/// Each stream of bytes has a cut.
pub fn each_stream_has_a_cut()
    ensures { (bytes : List ℕ) → AreBytes bytes → (list : List (List ℕ)) × (rest : List ℕ)
        × records bytes list rest }
{}

/// What is left is empty, a record that has begun, or one that announces too much, and only one of these.
pub fn a_rest_is_one_of_three()
    ensures each { (bytes : List ℕ) (list : List (List ℕ)) (rest : List ℕ) → AreBytes bytes
        → records bytes list rest → IsRest rest }
    ensures begun_is_not_empty { HasBegun [] → ⊥ }
    ensures too_long_is_not_empty { IsTooLong [] → ⊥ }
    ensures begun_is_not_too_long { (rest : List ℕ) → HasBegun rest → IsTooLong rest → ⊥ }
{}

/// A record stands before the records of what follows it.
pub fn records_are_handed_out_in_order()
    ensures { (text content more rest : List ℕ) (list : List (List ℕ)) → IsRecord text content
        → records more list rest → records (text ++ more) (content ∷ list) rest }
{}

/// What was cut off stands before the records of what is left.
pub fn a_cut_goes_on()
    ensures { (bytes left rest : List ℕ) (list others : List (List ℕ)) → CutsOff bytes list left
        → records left others rest → records bytes (list ++ others) rest }
{}

/// Where nothing is there, a record has only begun, or announces too much, no record stands.
pub fn no_record_stands_there()
    ensures { (bytes : List ℕ) → IsRest bytes → records bytes [] bytes }
{}

/// Marks that announce too much do so whatever follows.
pub fn too_long_stays()
    ensures { (bytes more : List ℕ) → IsTooLong bytes → IsTooLong (bytes ++ more) }
{}

/// How many bytes of a record that isn't whole are held is told by the bytes. A fragment of no bytes adds
/// nothing, so any number of them adds nothing; and what is held fits a record and a mark that isn't whole.
pub fn fragments_of_no_bytes_are_not_held()
    ensures one { (rest : List ℕ) (part other : IsPart rest) → held_of part ≡ held_of other }
    ensures empty { (rest : List ℕ) (part : IsPart rest) (more : IsPart (fragment false [] ++ rest))
        → held_of more ≡ held_of part }
    ensures few { (rest : List ℕ) (part : IsPart rest) → held_of part ≤ RECORD_BYTES + 3 }
{}
