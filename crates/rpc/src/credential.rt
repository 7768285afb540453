//! Whom a call is made for (RFC 5531, sections 8.2 and 10, appendix A). A credential is read without memory:
//! the groups that it names stay in the bytes that spell them.
ghost use Rattle.std.specs.Prelude.{◌≡◌, IfOk, []};
ghost use Rattle.xdr.specs.Reading.{Gives, Reads};
ghost use Rattle.rpc.specs.Credentials.{numbers_at, gids_at, caller_at, credential_of, no_caller};
ghost use Rattle.rpc.specs.Credentials.{Names, named, system};

use crate::{AUTH_NONE, AUTH_SYS, Refusal};
use base::{MACHINE_NAME_BYTES, MOST_GIDS, NOBODY};
use nfs_types::{Credential, NumberList};
use std::alloc::{AllocError, Global};
use std::marker::Model;
use xdr::{Reader, XdrFault};

/// Groups as a credential spells them: at most 16 numbers of four bytes.
#[derive(Drop)]
pub struct SpelledGids<'a> {
    bytes: &'a [u8],
}

impl<'a> Model for SpelledGids<'a> {
    ghost use Rattle.std.specs.Prelude.{List, ℕ};
    ghost use Rattle.rpc.specs.Groups.{AreGroups, numbers_in};

    ghost Value = { List ℕ };

    ghost view = { λ g. numbers_in g.bytes.now };

    ghost invariant = { λ g. AreGroups g.bytes.now };
}

impl<'a> SpelledGids<'a> {
    // No groups.
    #[tactic(auto, using(crate::proofs::Spelled::no_groups, crate::proofs::Spelled::nothing_spelled))]
    fn none() -> SpelledGids<'a>
        ensures { result ≡ [] }
    {
        SpelledGids { bytes: &[] }
    }

    /// The numbers in memory of their own.
    pub fn numbers(&self, alloc: Global) -> Result<Vec<u32>, AllocError>
        ensures { IfOk result (λ v. v.items ≡ self.now) }
    {
        let mut reader = Reader::new(self.bytes);
        let count = self.bytes.len() / 4;
        match read_numbers(alloc, count as u32, &mut reader) {
            Ok(numbers) => Ok(numbers),
            Err(fault) => match fault {
                XdrFault::NoMemory(error) => Err(error),
                _ => unreachable!(),
            },
        }
    }
}

/// The caller that a credential names, with the groups as they are spelled.
#[derive(Drop)]
pub struct NamedCaller<'a> {
    pub uid: u32,
    pub gid: u32,
    pub gids: SpelledGids<'a>,
}

impl<'a> NamedCaller<'a> {
    /// The caller in memory of its own.
    pub fn credential(&self, alloc: Global) -> Result<Credential, AllocError>
        ensures { IfOk result (λ c. c ≡ named self.now) }
    {
        Ok(Credential {
            uid: self.uid,
            gid: self.gid,
            gids: NumberList::new(self.gids.numbers(alloc)?),
        })
    }
}

/// The caller that a credential names, or why the credential is refused. It takes no memory.
pub fn read_credential(flavor: u32, body: &[u8]) -> Result<NamedCaller<'_>, Refusal>
    ensures { Names result (credential_of flavor body.now) }
{
    match flavor {
        AUTH_NONE if body.is_empty() => Ok(nobody()),
        AUTH_NONE => Err(Refusal::BadCredential),
        AUTH_SYS => match read_caller(body) {
            Ok(system) => Ok(system.caller),
            Err(_) => Err(Refusal::BadCredential),
        },
        _ => Err(Refusal::RejectedCredential),
    }
}

// The caller of a call that names none.
fn nobody<'a>() -> NamedCaller<'a>
    ensures { named result ≡ no_caller }
{
    NamedCaller {
        uid: NOBODY,
        gid: NOBODY,
        gids: SpelledGids::none(),
    }
}

/// The body of a credential that names a caller.
#[derive(Drop)]
pub struct SystemCredential<'a> {
    pub stamp: u32,
    pub machine: &'a [u8],
    pub caller: NamedCaller<'a>,
}

/// Reads the body of a credential that names a caller. It takes no memory.
#[tactic(auto, unfolding(crate::specs::Credentials::caller_at))]
pub fn read_caller(body: &[u8]) -> Result<SystemCredential<'_>, XdrFault>
    ensures { Reads system result (caller_at body.now) }
{
    let mut reader = Reader::new(body);
    let stamp = reader.unsigned()?;
    let machine = reader.opaque(MACHINE_NAME_BYTES)?;
    let uid = reader.unsigned()?;
    let gid = reader.unsigned()?;
    let gids = read_gids(&mut reader)?;
    reader.end()?;
    Ok(SystemCredential {
        stamp,
        machine,
        caller: NamedCaller { uid, gid, gids },
    })
}

// A counted list of at most 16 groups.
#[tactic(auto, unfolding(crate::specs::Credentials::gids_at))]
fn read_gids<'a>(reader: &mut Reader<'a>) -> Result<SpelledGids<'a>, XdrFault>
    ensures { Reads (λ g. (g, reader.new)) result (gids_at reader.old) }
{
    let count = reader.unsigned()? as usize;
    if count > MOST_GIDS {
        return Err(XdrFault::Length);
    }
    let rest = reader.rest();
    if rest.len() < 4 * count {
        return Err(XdrFault::Short);
    }
    let (bytes, behind) = rest.split_at(4 * count);
    *reader = Reader::new(behind);
    Ok(SpelledGids { bytes })
}

// So many numbers, in memory that is taken once.
fn read_numbers(alloc: Global, count: u32, reader: &mut Reader) -> Result<Vec<u32>, XdrFault>
    ensures { Gives (λ v. (v.items, reader.new)) result (numbers_at count reader.old) }
{
    let mut numbers = Vec::with_capacity(alloc, count as usize)?;
    for _ in 0..count {
        let number = reader.unsigned()?;
        numbers.push(number)?;
    }
    Ok(numbers)
}
