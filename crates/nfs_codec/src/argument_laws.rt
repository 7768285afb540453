//! Laws of the spelling of arguments. Nothing runs here: each contract is what the definitions entail.
ghost use Rattle.std.specs.Prelude.{◌≡◌, ◌↔◌, ℕ, List, Ok, Err};
ghost use Rattle.nfs_types.specs.Fits.{AreBytes, ProgramCallFits};
ghost use Rattle.nfs_types.specs.declared.program.ProgramCall.{ProgramCall};
ghost use Rattle.nfs_types.specs.declared.program.ProgramProcedure.{ProgramProcedure};
ghost use Rattle.nfs_codec.specs.Arguments.{arguments, call_of, calls_of};
ghost use Rattle.nfs_codec.specs.Procedures.{called};
ghost use Rattle.xdr.specs.Codes.{refused_whole};
ghost use Rattle.xdr.specs.declared.fault.XdrFault.{XdrFault};

/// Bytes are read as the arguments of a call exactly where the call is of the procedure and they are its
/// spelling.
pub fn spelled_arguments_are_read()
    ensures { (p : ProgramProcedure) (bytes : List ℕ) (c : ProgramCall) → AreBytes bytes
        → (call_of p bytes ≡ Ok c) ↔ ((called c ≡ p) × ProgramCallFits c × (bytes ≡ arguments c)) }
{}

/// What a call is spelled by is read as that call.
pub fn spelling_gives_the_call()
    ensures { (c : ProgramCall) → ProgramCallFits c → call_of (called c) (arguments c) ≡ Ok c }
{}

/// Bytes are refused as the arguments of a call exactly for the first item from the left that has no
/// spelling, or for what is left behind a call.
pub fn arguments_are_refused_so()
    ensures { (p : ProgramProcedure) (bytes : List ℕ) (e : XdrFault) → AreBytes bytes
        → (call_of p bytes ≡ Err e) ↔ refused_whole (calls_of p) bytes e }
{}

/// No two calls of a procedure share a spelling.
pub fn arguments_share_no_spelling()
    ensures { (x y : ProgramCall) → ProgramCallFits x → ProgramCallFits y → called x ≡ called y
        → arguments x ≡ arguments y → x ≡ y }
{}
