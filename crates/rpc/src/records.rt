//! Records cut out of a stream that comes in any pieces (RFC 5531, section 11).
ghost use Rattle.std.specs.Prelude.{◌≡◌, ◌<◌, ◌++◌, ◌∷◌, [], ◌==◌, ◌⊎◌, ℕ, List, length, IfOk, IfSome, IfNone};
ghost use Rattle.std.specs.Prelude.{OnOk, OnErr, IsErrOf};
ghost use Rattle.rpc.specs.Records.{records, BeginsWithRecord, IsPart, IsRecord, IsTooLong, HasBegun, held_of};

use crate::cutter::Cutter;
use crate::fault::RpcFault;
use bytes::Bytes;
use std::alloc::{AllocError, Global};
use std::marker::Model;

/// A stream that is cut into records. Contracts see the bytes that aren't handed out yet, marks included.
#[derive(Drop)]
pub struct Records {
    cutter: Cutter,
}

impl Model for Records {
    ghost use Rattle.std.specs.Prelude.{List, ℕ};
    ghost use Rattle.rpc.specs.Cutting.{IsCut, text_of};

    ghost Value = { List ℕ };

    ghost view = { λ r. text_of r.cutter };

    ghost invariant = { λ r. IsCut r.cutter };
}

impl Records {
    pub fn new(alloc: Global) -> Records
        ensures { result ≡ [] }
    {
        Records {
            cutter: Cutter::new(alloc),
        }
    }

    /// Takes the next piece of the stream.
    pub fn feed(&mut self, piece: &[u8]) -> Result<(), AllocError>
        ensures ok { OnOk result (self.new ≡ self.old ++ piece.now) }
        ensures err { OnErr result (self.new ≡ self.old) }
    {
        self.cutter.feed(piece)
    }

    /// Whether nothing is left. Where it isn't so after `next` found no record, the stream stands inside one.
    pub fn is_empty(&self) -> bool
        ensures { result ≡ (length self.now == 0) }
    {
        self.cutter.is_empty()
    }

    /// Hands out the next record, in any fragments, or None while it isn't whole. A refusal changes nothing,
    /// so that one which isn't for memory comes again at each later call, whatever is fed.
    pub fn next(&mut self) -> Result<Option<Bytes>, RpcFault>
        ensures found { IfOk result (λ o. IfSome o (λ content. (text : List ℕ) × IsRecord text content
            × (self.old ≡ text ++ self.new))) }
        ensures in_order { IfOk result (λ o. IfSome o (λ content. (list : List (List ℕ)) (rest : List ℕ)
            → records self.new list rest → records self.old (content ∷ list) rest)) }
        ensures shorter { IfOk result (λ o. IfSome o (λ _. length self.new < length self.old)) }
        ensures nothing { IfOk result (λ o. IfNone o (self.new ≡ self.old)) }
        ensures begun { IfOk result (λ o. IfNone o ((self.old ≡ []) ⊎ HasBegun self.old)) }
        ensures err { OnErr result (self.new ≡ self.old) }
        ensures too_long { IsErrOf result RpcFault.TooLong → IsTooLong self.old }
    {
        if self.cutter.scan()? {
            return Ok(Some(self.cutter.hand_out()?));
        }
        Ok(None)
    }

    /// How many bytes memory holds for the next record, or None where that is whole. Nothing is handed out. A
    /// record that isn't whole is held as its content, without the marks that came: so fragments of no bytes,
    /// however many, are not held.
    pub fn held(&mut self) -> Result<Option<usize>, RpcFault>
        ensures same { self.new ≡ self.old }
        ensures waits { IfOk result (λ o. IfSome o (λ n. (part : IsPart self.new) × (n ≡ held_of part))) }
        ensures whole { IfOk result (λ o. IfNone o (BeginsWithRecord self.new)) }
        ensures too_long { IsErrOf result RpcFault.TooLong → IsTooLong self.new }
    {
        if self.cutter.scan()? {
            return Ok(None);
        }
        Ok(Some(self.cutter.held()))
    }
}
