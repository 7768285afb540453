//! A session: the bytes of a client in any pieces, and the replies to them.
ghost use Rattle.std.specs.Prelude.{◌≡◌, ◌++◌, ℕ, List, drop, true, false, Ok, Some, None, IfOk, IfSome};
ghost use Rattle.std.specs.Prelude.{IfNone, OnErr};
ghost use Rattle.plain_once.specs.Session.Answering.{files_of};
ghost use Rattle.plain_once.specs.Session.Counts.{HasData};
ghost use Rattle.plain_once.specs.Session.Serving.{AreAnswered, BeginsAnswered, Ends, Fails, IsCutOff, IsFed};
ghost use Rattle.plain_once.specs.Session.Answering.{at_second as moment_at};
ghost use Rattle.plain_once.specs.Session.Serving.{IsNew, IsStream, Stops, fresh_files};
ghost use Rattle.plain_once.specs.Session.Serving.{session_of};

use crate::session::answers::{FakeClock, PlainFiles, answer_record};
use crate::session::image::data_blocks;
use crate::session::records::{Cut, first_record};
use bytes::Bytes;
use nfs_types::Moment;
use plain_tree::PlainTree;
use std::alloc::{AllocError, Global};

/// Whether the connection of a session is open.
#[derive(Clone, Copy, Debug, PartialEq, Eq)]
pub enum Connection {
    Open,
    /// The connection closes: behind the replies that were written before.
    Closed,
}

/// The files, the bytes of the client that aren't answered yet, and whether it has closed.
#[derive(Drop)]
pub struct PlainSession {
    files: PlainFiles,
    unread: Vec<u8>,
    is_closed: bool,
}

impl PlainSession {
    /// A session over the tree of a fresh image, whose root was made at second `made`, with calls by this pace.
    /// None where no image has these counts.
    pub fn new(
        alloc: Global,
        blocks: u32,
        inodes: u32,
        made: u32,
        fake_clock: FakeClock,
    ) -> Result<Option<PlainSession>, AllocError>
        ensures { IfOk result (λ session. IsNew blocks inodes made fake_clock session) }
    {
        let Some(data_blocks) = data_blocks(blocks, inodes) else {
            return Ok(None);
        };
        let tree = PlainTree::formatted(alloc, data_blocks, inodes, at_second(made))?;
        Ok(Some(PlainSession {
            files: PlainFiles {
                tree,
                fake_clock,
                transactions: 0,
            },
            unread: Vec::new(alloc),
            is_closed: false,
        }))
    }

    /// Takes the next bytes, and writes the replies to the records that are whole by now. A session that has
    /// closed takes nothing more. An error is an allocation that failed, and closes the session.
    pub fn feed(
        &mut self,
        alloc: Global,
        piece: &[u8],
        replies: &mut Vec<u8>,
    ) -> Result<Connection, AllocError>
        ensures closed { (session_of self.old).is_closed ≡ true → (result ≡ Ok Connection.Closed)
            × (session_of self.new ≡ session_of self.old) × (replies.new.items ≡ replies.old.items) }
        ensures ok { IfOk result (λ progress. (session_of self.old).is_closed ≡ false
            → IsFed (session_of self.old) piece.now replies.old.items progress replies.new.items
            (session_of self.new)) }
        ensures err { OnErr result (((session_of self.new).is_closed ≡ true)
            × Fails (session_of self.old).files ((session_of self.old).unread ++ piece.now) replies.old.items
            replies.new.items (session_of self.new).files) }
    {
        if self.is_closed {
            return Ok(Connection::Closed);
        }
        self.is_closed = true;
        self.unread.extend_from_slice(piece)?;
        let progress = answer_all(alloc, &mut self.files, &mut self.unread, replies)?;
        self.is_closed = matches!(progress, Connection::Closed);
        Ok(progress)
    }

    /// How it stands at the end of the input: closed, where it has closed, or where that is inside a record.
    pub fn end(&self) -> Connection
        ensures { Ends (session_of self.now) result }
    {
        if self.is_closed || !self.unread.is_empty() {
            Connection::Closed
        } else {
            Connection::Open
        }
    }
}

// The moment at which a second begins.
fn at_second(seconds: u32) -> Moment
    ensures { result ≡ moment_at seconds }
{
    Moment {
        seconds,
        nanoseconds: 0,
    }
}

// Answers the records that are whole, one after another, and takes their bytes away.
fn answer_all(
    alloc: Global,
    files: &mut PlainFiles,
    unread: &mut Vec<u8>,
    replies: &mut Vec<u8>,
) -> Result<Connection, AllocError>
    ensures ok { IfOk result (λ progress. AreAnswered (files_of files.old) unread.old.items replies.old.items
        replies.new.items unread.new.items (files_of files.new) × Stops unread.new.items progress) }
    ensures err { OnErr result (Fails (files_of files.old) unread.old.items replies.old.items
        replies.new.items (files_of files.new)) }
{
    // A record takes four bytes at least.
    for _answered in 0..unread.len() {
        if let Some(progress) = answer_next(alloc, files, unread, replies)? {
            return Ok(progress);
        }
    }
    Ok(Connection::Open)
}

// Answers the next record, and takes its bytes away. Tells how the session goes on where none is answered.
fn answer_next(
    alloc: Global,
    files: &mut PlainFiles,
    unread: &mut Vec<u8>,
    replies: &mut Vec<u8>,
) -> Result<Option<Connection>, AllocError>
    ensures stops { IfOk result (λ answer_given. IfSome answer_given (λ progress. Stops unread.old.items progress
        × (unread.new.items ≡ unread.old.items) × (replies.new.items ≡ replies.old.items)
        × (files_of files.new ≡ files_of files.old))) }
    ensures answers { IfOk result (λ answer_given. IfNone answer_given ((reply : List ℕ)
        × BeginsAnswered (files_of files.old) unread.old.items reply unread.new.items (files_of files.new)
        × (replies.new.items ≡ replies.old.items ++ reply))) }
    ensures err { OnErr result ((replies.new.items ≡ replies.old.items)
        × IsCutOff (files_of files.old) unread.old.items (files_of files.new)) }
{
    let (record, taken) = match first_record(alloc, unread.as_slice())? {
        Cut::NeedsMore => return Ok(Some(Connection::Open)),
        Cut::TooLong => return Ok(Some(Connection::Closed)),
        Cut::Record { record, taken } => (record, taken),
    };
    let rest = rest_of(alloc, unread.as_slice(), taken)?;
    let message = Bytes::from_vec(record)?;
    let Some(reply) = answer_record(alloc, files, &message)? else {
        return Ok(Some(Connection::Closed));
    };
    replies.extend_from_slice(reply.as_slice())?;
    *unread = rest;
    Ok(None)
}

// The bytes behind the first ones.
fn rest_of(alloc: Global, bytes: &[u8], taken: usize) -> Result<Vec<u8>, AllocError>
    ensures { IfOk result (λ rest. rest.items ≡ drop taken bytes.now) }
{
    if taken < bytes.len() {
        bytes[taken..].to_vec(alloc)
    } else {
        Ok(Vec::new(alloc))
    }
}

/// Answers a whole input, and tells the exit status: 0 at its end, 1 where the connection closes before it.
/// None where no image has these counts.
pub fn answer_stream(
    alloc: Global,
    blocks: u32,
    inodes: u32,
    made: u32,
    fake_clock: FakeClock,
    input: &[u8],
) -> Result<Option<(Vec<u8>, u8)>, AllocError>
    ensures none { result ≡ Ok None → HasData blocks inodes None }
    ensures answered { IfOk result (λ answer_given. IfSome answer_given (λ ended. (data_blocks : ℕ)
        × HasData blocks inodes (Some data_blocks)
        × IsStream (fresh_files data_blocks inodes made fake_clock) input.now ended.0.items ended.1)) }
{
    let Some(mut session) = PlainSession::new(alloc, blocks, inodes, made, fake_clock)? else {
        return Ok(None);
    };
    let mut replies = Vec::new(alloc);
    let _progress = session.feed(alloc, input, &mut replies)?;
    match session.end() {
        Connection::Open => Ok(Some((replies, 0))),
        Connection::Closed => Ok(Some((replies, 1))),
    }
}
