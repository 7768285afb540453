//! Verifiers of eight bytes (RFC 1813, section 2.5: `cookieverf3`, `createverf3`, `writeverf3`).
ghost use Rattle.std.specs.Prelude.{◌≡◌};
ghost use Rattle.nfs_types.specs.Verifier.{boot_verifier, is_zeros};

/// The bytes of a verifier (RFC 1813, section 2.4).
pub const VERIFIER_BYTES: usize = 8;

/// A verifier: eight bytes, kept and given back as they came.
#[derive(Clone, Copy, Debug, PartialEq, Eq)]
pub struct Verifier {
    pub bytes: [u8; VERIFIER_BYTES],
}

impl Verifier {
    /// The verifier of what is written while the store has this boot number.
    pub fn of_boot(boot: u64) -> Verifier
        ensures { result ≡ boot_verifier boot }
    {
        Verifier {
            bytes: boot.to_be_bytes(),
        }
    }

    /// Whether it has no byte but zeros, as that of a listing from its beginning.
    pub fn is_zeros(&self) -> bool
        ensures { result ≡ is_zeros self.now }
    {
        self.bytes.iter().all(|byte| *byte == 0)
    }
}
