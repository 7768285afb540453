//! Reading the arguments.
ghost use Rattle.std.specs.Prelude.{◌≡◌, ◌⊎◌, IfErr};

use crate::fault::Fault;
use std::env;
use std::env::Env;

/// The arguments, of which the first is the program's name. Those that aren't all text are NotText.
pub fn arguments<R: Env + AllocGlobal>(rt: &R) -> Result<Vec<String>, Fault>
    ensures { IfErr result (λ fault. (fault ≡ Fault.Memory) ⊎ (fault ≡ Fault.NotText)) }
{
    match env::args(rt) {
        Ok(given) => given.collect(rt.alloc()).or(Err(Fault::Memory)),
        Err(error) => Err(Fault::of_reading(&error)),
    }
}
