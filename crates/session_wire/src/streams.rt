//! Laws on the served stream. Nothing runs here: each contract is what the definitions entail.
ghost use Rattle.std.specs.Prelude.{◌≡◌, ℕ, List, [], ◌∷◌, ◌++◌, length};
ghost use Rattle.session_wire.specs.declared.message.Judged.TheVariants.{Closed, Refused};
ghost use Rattle.rpc.specs.declared.refusal.Refusal.{Refusal};
ghost use Rattle.session_wire.specs.Judging.{judged};
ghost use Rattle.rpc.specs.Refused.{refused};
ghost use Rattle.session_wire.specs.Served.{HasNoCause, IsLater, IsServable, Serving, Standing};
ghost use Rattle.session_wire.specs.Served.{all_done, done_but_for_memory, served};

/// A stream without messages gets no reply, and nothing changes.
pub fn no_messages_get_no_replies()
    ensures { (s : Serving) (old new : Standing) (replies : List (List ℕ)) → served s old [] replies new
        → (replies ≡ []) × (new ≡ old) }
{}

/// From a message on which the connection closes on, nothing is answered.
pub fn a_closed_connection_gets_no_reply()
    ensures { (s : Serving) (old new : Standing) (message : List ℕ) (messages replies : List (List ℕ))
        → judged message ≡ Closed
        → served s old (message ∷ messages) replies new → (replies ≡ []) × (new ≡ old) }
{}

/// A call that is refused by its header or its arguments gets its refusal, and changes nothing.
pub fn a_refused_call_gets_its_refusal()
    ensures { (s : Serving) (old new : Standing) (xid : ℕ) (why : Refusal) (message : List ℕ)
        (messages replies : List (List ℕ))
        → judged message ≡ Refused xid why → served s old (message ∷ messages) replies new
        → (others : List (List ℕ)) × (replies ≡ refused xid why ∷ others) × served s old messages others new }
{}

/// The replies to two streams, one after another, are those to the stream of both, where the first has a
/// reply to each of its messages.
pub fn streams_join()
    ensures { (s : Serving) (old middle new : Standing) (first second replies others : List (List ℕ))
        → length replies ≡ length first → served s old first replies middle
        → served s middle second others new
        → served s old (first ++ second) (replies ++ others) new }
{}

/// Whatever a stream is answered, nothing is taken back: no number, no place, no log position and no device
/// call; and the store breaks only with a device call that failed in the time of the stream.
pub fn a_stream_goes_on()
    ensures { (s : Serving) (old new : Standing) (messages replies : List (List ℕ))
        → served s old messages replies new → IsLater s old new }
{}

/// A stream that is answered so that nothing fails is a served stream.
pub fn what_is_done_is_served()
    ensures { (s : Serving) (old new : Standing) (messages replies : List (List ℕ))
        → all_done s old messages replies new → served s old messages replies new }
{}

/// Where no device call failed in the time of the stream, the store isn't broken before it, and behind it a number is
/// left, a place, and log positions for the change of each message, nothing fails but for want of memory: each call
/// but NULL gets the reply of its step, each other its plain reply, or a system error where memory was refused.
pub fn without_a_cause_nothing_fails()
    ensures { (s : Serving) (old new : Standing) (messages replies : List (List ℕ))
        → served s old messages replies new → HasNoCause s old new
        → done_but_for_memory s old messages replies new }
{}

/// Each stream of bytes can be served that comes to a sound tree, while numbers of transactions are left; and
/// that so that nothing fails: each call but NULL gets the reply of its step, and each other its plain
/// reply.
pub fn each_stream_can_be_served()
    ensures { (s : Serving) (old : Standing) (messages : List (List ℕ)) → IsServable s old messages
        → (replies : List (List ℕ)) × (new : Standing) × served s old messages replies new
        × all_done s old messages replies new }
{}
