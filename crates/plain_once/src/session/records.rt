//! Cutting records out of a stream (RFC 5531, section 11).
ghost use Rattle.std.specs.Prelude.{◌≡◌, ◌<◌, ◌^◌, IfOk};
ghost use Rattle.plain_once.specs.Session.Records.{Cuts, mark as mark_of};
ghost use Rattle.xdr.specs.Items.{word};

use crate::session::reader::StreamReader;
use base::RECORD_BYTES;
use std::alloc::{AllocError, Global};

/// What stands at the beginning of a stream.
#[derive(Drop)]
pub enum Cut {
    /// No record is whole yet.
    NeedsMore,
    /// Marks that announce more than a record may have.
    TooLong,
    /// A record, and how many bytes its fragments take with their marks.
    Record { record: Vec<u8>, taken: usize },
}

// The highest bit of a mark.
const LAST_FRAGMENT: u32 = 0x8000_0000;

/// What stands at the beginning of a stream. The marks are looked at before the bytes behind them are there.
pub fn first_record(alloc: Global, stream: &[u8]) -> Result<Cut, AllocError>
    ensures { IfOk result (λ cut. Cuts stream.now cut) }
{
    let mut record: Vec<u8> = Vec::new(alloc);
    let mut reader = StreamReader::new(stream);
    // Each fragment takes four bytes at least.
    for _taken in 0..stream.len() {
        let Ok(mark) = reader.word() else {
            return Ok(Cut::NeedsMore);
        };
        let (is_last, length) = announced(mark);
        if record.len().saturating_add(length) > RECORD_BYTES {
            return Ok(Cut::TooLong);
        }
        let Ok(fragment) = reader.take(length) else {
            return Ok(Cut::NeedsMore);
        };
        record.extend_from_slice(fragment)?;
        if is_last {
            let taken = stream.len().saturating_sub(reader.rest().len());
            return Ok(Cut::Record { record, taken });
        }
    }
    Ok(Cut::NeedsMore)
}

// Whether a mark is that of a last fragment, and the length that it announces.
fn announced(mark: u32) -> (bool, usize)
    ensures is { word mark ≡ mark_of result.0 result.1 }
    ensures bound { result.1 < 2 ^ 31 }
{
    if mark < LAST_FRAGMENT {
        (false, mark as usize)
    } else {
        (true, (mark - LAST_FRAGMENT) as usize)
    }
}
