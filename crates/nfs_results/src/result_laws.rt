//! Laws of the spelling of results. Nothing runs here: each contract is what the definitions entail.
ghost use Rattle.std.specs.Prelude.{◌≡◌, ◌↔◌, ℕ, List, Ok, Err};
ghost use Rattle.nfs_types.specs.Fits.{AreBytes};
ghost use Rattle.nfs_types.specs.declared.program.ProgramProcedure.{ProgramProcedure};
ghost use Rattle.nfs_types.specs.declared.program.ProgramReply.{ProgramReply};
ghost use Rattle.nfs_codec.specs.Procedures.{replied_to};
ghost use Rattle.xdr.specs.Codes.{refused_whole};
ghost use Rattle.xdr.specs.declared.fault.XdrFault.{XdrFault};
ghost use Rattle.nfs_results.specs.Results.{ReplyFits, replies_to, reply_of, result_bytes};

/// Bytes are read as the result of a reply exactly where the reply is to the procedure and they are its
/// spelling.
pub fn spelled_results_are_read()
    ensures { (p : ProgramProcedure) (bytes : List ℕ) (r : ProgramReply) → AreBytes bytes
        → (reply_of p bytes ≡ Ok r) ↔ ((replied_to r ≡ p) × ReplyFits r × (bytes ≡ result_bytes r)) }
{}

/// What a reply is spelled by is read as that reply.
pub fn spelling_gives_the_reply()
    ensures { (r : ProgramReply) → ReplyFits r → reply_of (replied_to r) (result_bytes r) ≡ Ok r }
{}

/// Bytes are refused as the result of a reply exactly for the first item from the left that has no spelling,
/// or for what is left behind a result.
pub fn results_are_refused_so()
    ensures { (p : ProgramProcedure) (bytes : List ℕ) (e : XdrFault) → AreBytes bytes
        → (reply_of p bytes ≡ Err e) ↔ refused_whole (replies_to p) bytes e }
{}

/// No two replies to a procedure share a spelling.
pub fn results_share_no_spelling()
    ensures { (x y : ProgramReply) → ReplyFits x → ReplyFits y → replied_to x ≡ replied_to y
        → result_bytes x ≡ result_bytes y → x ≡ y }
{}
