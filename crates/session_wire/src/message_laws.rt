//! Laws of the spelling of messages and of the cutting of records. Nothing runs here: each contract is what
//! the definitions entail.
ghost use Rattle.std.specs.Prelude.{◌≡◌, ◌<◌, ◌≤◌, ◌↔◌, ◌^◌, ◌++◌, ◌∷◌, [], ℕ, List, Ok, true, length};
ghost use Rattle.std.specs.Prelude.{slice_index};
ghost use Rattle.nfs_types.specs.declared.ctx.Credential.{Credential};
ghost use Rattle.nfs_types.specs.declared.program.ProgramCall.{ProgramCall};
ghost use Rattle.nfs_types.specs.declared.program.ProgramProcedure.{ProgramProcedure};
ghost use Rattle.session_wire.specs.declared.message.CallMessage.{CallMessage};
ghost use Rattle.session_wire.specs.Calls.{SpellsCall, caller_of};
ghost use Rattle.session_wire.specs.declared.message.ReplyMessage.{ReplyMessage};
ghost use Rattle.session_wire.specs.declared.message.ReplyBody.{ReplyBody};
ghost use Rattle.session_wire.specs.Replies.{BodyFits, IsTooLong, SpellsReply, reply_bytes};
ghost use Rattle.session_wire.specs.ReadingReplies.{reply_of};
ghost use Rattle.session_wire.specs.Judging.{judged};

use crate::message::Judged;

/// A call has one spelling.
pub fn calls_have_one_spelling()
    ensures { (a b : List ℕ) (m : CallMessage) → SpellsCall a m → SpellsCall b m → a ≡ b }
{}

/// No two calls share a spelling.
pub fn calls_share_no_spelling()
    ensures { (bytes : List ℕ) (m n : CallMessage) → SpellsCall bytes m → SpellsCall bytes n → m ≡ n }
{}

/// What spells a call is taken for it.
#[tactic(auto, using(crate::proofs::CallLaws::judged_again))]
pub fn spelled_calls_are_judged_so()
    ensures { (bytes : List ℕ) (m : CallMessage) → SpellsCall bytes m
        → judged bytes ≡ Judged.Call m.xid (caller_of m.credential) m.call }
{}

/// What is taken for a call spells one, with this number, this caller and these arguments.
pub fn judged_calls_are_spelled()
    ensures { (bytes : List ℕ) (xid : ℕ) (caller : Credential) (call : ProgramCall)
        → ((i : ℕ) → slice_index bytes i < 256) → judged bytes ≡ Judged.Call xid caller call
        → (m : CallMessage) × SpellsCall bytes m × (m.xid ≡ xid) × (caller_of m.credential ≡ caller)
        × (m.call ≡ call) }
{}

/// A reply has one spelling.
pub fn replies_have_one_spelling()
    ensures { (p : ProgramProcedure) (a b : List ℕ) (m : ReplyMessage) → SpellsReply p a m → SpellsReply p b m
        → a ≡ b }
{}

/// No two replies to one procedure share a spelling.
pub fn replies_share_no_spelling()
    ensures { (p : ProgramProcedure) (bytes : List ℕ) (m n : ReplyMessage) → SpellsReply p bytes m
        → SpellsReply p bytes n → m ≡ n }
{}

/// Bytes spell a reply exactly where reading them from the left gives it.
pub fn spelled_replies_are_read()
    ensures { (p : ProgramProcedure) (bytes : List ℕ) (m : ReplyMessage) → ((i : ℕ) → slice_index bytes i < 256)
        → (SpellsReply p bytes m ↔ (reply_of p bytes ≡ Ok m)) }
{}

/// A reply that fits is too long for a record exactly where it has 2^31 bytes or more: it has no length that
/// four bytes can't tell.
#[tactic(auto, using(crate::proofs::CountedReplies::long_by_bytes))]
pub fn what_fits_is_too_long_only_by_its_bytes()
    ensures { (xid : ℕ) (body : ReplyBody) → BodyFits body
        → (IsTooLong xid body ↔ (2 ^ 31 ≤ length (reply_bytes xid body))) }
{}
