//! The program `plain_once BLOCKS INODES MADE TIME [RISE]`: answers the records of the standard input over a fresh
//! tree in memory, by plain code, to compare another server with.
#![tactic(auto)]

ghost use Rattle.std.specs.Prelude.{◌≡◌, ◌<◌, ◌≤◌, ℕ, List, [], Option, Some, None, true, false, length};
ghost use Rattle.std.specs.Prelude.{IfNone, IfSome};
ghost use Rattle.std.specs.Io.KnownBytes.{Appends};
ghost use Rattle.plain_once.specs.Session.Serving.{Ends, IsFed, Session, session_of};
ghost use Rattle.plain_once.specs.declared.session.session.Connection.TheVariants as progress;
ghost use Rattle.plain_once.specs.Session.Counts.{HasData};
ghost use Rattle.plain_once.specs.Attending.{IsServedWhole, IsAttended, IsDone};

mod session;
mod words;

use crate::session::{Connection, PlainSession};
use crate::words::{Asked, parse};
use base::{MOST_READS, PIECE_BYTES};
use std::alloc::{AllocError, Global};
use std::env;
use std::env::Env;
use std::io::{ErrorKind, Read, Write};
use std::process::ExitCode;

// The arguments ask for nothing that can be done.
const SENSELESS: u8 = 2;

// The connection closes, or a read, a write or an allocation failed.
const CLOSED: u8 = 1;

// The input has ended.
const ENDED: u8 = 0;

fn main(rt: HostRuntime) -> ExitCode {
    ExitCode::from(attend(&rt))
}

// Reads the arguments, and answers the standard input.
fn attend(rt: &HostRuntime) -> u8 {
    match read_arguments(rt) {
        Ok(Some(asked)) => answer_asked(rt.alloc(), asked, &mut rt.reader(), &mut rt.stdout()),
        Ok(None) => SENSELESS,
        Err(_) => CLOSED,
    }
}

// What the arguments ask for. Arguments that can't be read ask for nothing.
fn read_arguments<R: Env + AllocGlobal>(rt: &R) -> Result<Option<Asked>, AllocError> {
    let Ok(given) = env::args(rt) else {
        return Ok(None);
    };
    let line: Vec<String> = given.collect(rt.alloc())?;
    Ok(parse(line.as_slice()))
}

// Answers the records of an input over the image that is asked for, and gives the exit status. It is 0 only
// where the whole input is answered and its replies are written, and 2 only where no image has these counts.
fn answer_asked<R: Read, W: Write>(
    alloc: Global,
    asked: Asked,
    reader: &mut R,
    writer: &mut W,
) -> u8
    ensures ended { result ≡ ENDED → IsServedWhole asked (R.remaining reader.old) (R.remaining reader.new)
        (W.contents writer.old) (W.contents writer.new) }
    ensures senseless { result ≡ SENSELESS → HasData asked.blocks asked.inodes None }
{
    let mut piece = [0; PIECE_BYTES];
    match PlainSession::new(
        alloc,
        asked.blocks,
        asked.inodes,
        asked.made,
        asked.fake_clock,
    ) {
        Ok(Some(mut session)) => {
            answer_input(alloc, &mut session, reader, writer, &mut piece, MOST_READS)
        }
        Ok(None) => SENSELESS,
        Err(_) => CLOSED,
    }
}

// Answers the records of an input as they come, over at most so many reads, and gives the exit status. It is
// 0 only where the whole input is answered, and its replies are written.
fn answer_input<R: Read, W: Write>(
    alloc: Global,
    session: &mut PlainSession,
    reader: &mut R,
    writer: &mut W,
    piece: &mut [u8],
    most_reads: u64,
) -> u8
    requires { 0 < length piece.old }
    ensures sensible { result ≤ CLOSED }
    ensures ended { (session_of session.old).is_closed ≡ false → result ≡ ENDED
        → IsDone (session_of session.old) (session_of session.new) (R.remaining reader.old)
        (R.remaining reader.new) (W.contents writer.old) (W.contents writer.new) }
{
    for _reads in 0..most_reads {
        if let Some(status) = answer_read(alloc, session, reader, writer, piece) {
            return status;
        }
    }
    CLOSED
}

// Answers the records that are whole by the next read. Gives the exit status where nothing more comes.
fn answer_read<R: Read, W: Write>(
    alloc: Global,
    session: &mut PlainSession,
    reader: &mut R,
    writer: &mut W,
    piece: &mut [u8],
) -> Option<u8>
    requires { 0 < length piece.old }
    ensures goes_on { (start : Session) (unread first : Option (List ℕ)) → IsAttended start
        (session_of session.old) unread (R.remaining reader.old) first (W.contents writer.old)
        → IfNone result (IsAttended start (session_of session.new) unread (R.remaining reader.new) first
        (W.contents writer.new)) }
    ensures ends { (start : Session) (unread first : Option (List ℕ)) → IsAttended start
        (session_of session.old) unread (R.remaining reader.old) first (W.contents writer.old)
        → result ≡ Some ENDED → IsDone start (session_of session.new) unread (R.remaining reader.new) first
        (W.contents writer.new) }
    ensures sensible { IfSome result (λ status. status ≤ CLOSED) }
{
    match reader.read(piece) {
        Ok(0) => Some(status_at_the_end(session)),
        Ok(count) => {
            if answer_piece(alloc, session, &piece[..count], writer) {
                None
            } else {
                Some(CLOSED)
            }
        }
        Err(error) if error.kind() == ErrorKind::Interrupted => None,
        Err(_) => Some(CLOSED),
    }
}

fn status_at_the_end(session: &PlainSession) -> u8
    ensures ended { result ≡ ENDED → Ends (session_of session.now) progress.Open }
    ensures sensible { result ≤ CLOSED }
{
    match session.end() {
        Connection::Open => ENDED,
        Connection::Closed => CLOSED,
    }
}

// Answers the records that are whole by now, and tells whether the session goes on.
fn answer_piece<W: Write>(
    alloc: Global,
    session: &mut PlainSession,
    piece: &[u8],
    writer: &mut W,
) -> bool
    ensures { (session_of session.old).is_closed ≡ false → result ≡ true → (replies_added : List ℕ)
        × IsFed (session_of session.old) piece.now [] progress.Open replies_added (session_of session.new)
        × Appends (W.contents writer.old) (W.contents writer.new) replies_added }
{
    let mut replies = Vec::new(alloc);
    let is_open = feed(alloc, session, piece, &mut replies);
    let is_written = write_out(writer, replies.as_slice());
    is_written && is_open
}

// Takes the next bytes, and tells whether no fault came of it and the session is open.
fn feed(alloc: Global, session: &mut PlainSession, piece: &[u8], replies: &mut Vec<u8>) -> bool
    ensures { (session_of session.old).is_closed ≡ false → result ≡ true
        → IsFed (session_of session.old) piece.now replies.old.items progress.Open replies.new.items
        (session_of session.new) }
{
    match session.feed(alloc, piece, replies) {
        Ok(Connection::Open) => true,
        Ok(Connection::Closed) | Err(_) => false,
    }
}

// Writes bytes to the last one, and tells whether no fault came of it.
fn write_out<W: Write>(writer: &mut W, bytes: &[u8]) -> bool
    ensures { result ≡ true → Appends (W.contents writer.old) (W.contents writer.new) bytes.now }
{
    match writer.write_all(bytes) {
        Ok(()) => writer.flush().is_ok(),
        Err(_) => false,
    }
}
