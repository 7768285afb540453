//! Bytes that are kept for proofs alone.
ghost use Rattle.std.specs.Prelude.{◌≡◌, ◌++◌, ◌∷◌, []};

use http_server::Log;
use std::marker::Model;

/// Bytes for proofs alone, in `http_server`'s `Log`: that takes no memory, and does nothing at run time.
#[derive(Drop)]
pub(crate) struct GhostBytes {
    bytes: Log<u8, ()>,
}

impl Model for GhostBytes {
    ghost use Rattle.std.specs.Prelude.{List, ℕ, map};

    ghost Value = { List ℕ };

    ghost view = { λ g. map (λ one. one.0) g.bytes.items };
}

impl GhostBytes {
    /// None.
    pub(crate) fn new() -> GhostBytes
        ensures { result ≡ [] }
    {
        GhostBytes { bytes: Log::new() }
    }

    /// Puts these behind the others.
    pub(crate) fn put(&mut self, bytes: &[u8])
        ensures { self.new ≡ self.old ++ bytes.now }
    {
        for byte in bytes {
            self.put_one(*byte);
        }
    }

    fn put_one(&mut self, byte: u8)
        ensures { self.new ≡ self.old ++ byte ∷ [] }
    {
        self.bytes = self.bytes.and(&byte, &());
    }
}
