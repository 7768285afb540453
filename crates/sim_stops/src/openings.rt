//! An image that was left, opened, and opened again behind the stops of its opening.
ghost use Rattle.std.specs.Prelude.{IfOk, OnOk};
ghost use Rattle.sim_stops.specs.Runs.{HasWanted};

use crate::beginnings::copy_of;
use crate::choices::{choice, choices, counts_of};
use crate::fault::StopsFault;
use crate::left::{Difference, InOpening, Left};
use crate::wanted::Wanted;
use disk::MemDisk;
use std::alloc::Global;
use store::{OpenFault, run, show};

// Of up to so many blocks with several contents each choice is tried in an opening.
const MOST_IN_OPENING: usize = 1;

/// Opens an image, and opens it again behind each stop of the opening: it has wanted files each time.
pub fn try_image(
    alloc: Global,
    image: MemDisk,
    wanted: Wanted<'_>,
    left: Left<'_>,
) -> Result<(), StopsFault>
    ensures { OnOk result (HasWanted wanted.entry.files.now wanted.entry.least wanted.entry.most image) }
{
    let (opened, calls) = open_whole(alloc, copy_of(alloc, &image)?, wanted, left)?;
    let behind = left.in_opening(InOpening {
        call: calls,
        choice: &[],
    });
    open_whole(alloc, opened, wanted, behind)?;
    'calls: for call in 0..calls {
        try_stopped(alloc, &image, call, wanted, left)?;
    }
    open_whole(alloc, image, wanted, left)?;
    Ok(())
}

// Opens an image behind a stop of an opening at the device call behind so many.
fn try_stopped(
    alloc: Global,
    image: &MemDisk,
    before: u64,
    wanted: Wanted<'_>,
    left: Left<'_>,
) -> Result<(), StopsFault> {
    let call = before.saturating_add(1);
    let counts = counts_of(alloc, &stopped(alloc, image, call)?)?;
    if counts.is_empty() {
        return Ok(());
    }
    for number in 0..choices(&counts, MOST_IN_OPENING) {
        let choice = choice(alloc, &counts, MOST_IN_OPENING, number)?;
        let disk = stopped(alloc, image, call)?.crash(&choice);
        let behind = left.in_opening(InOpening {
            call,
            choice: &choice,
        });
        open_whole(alloc, disk, wanted, behind)?;
    }
    Ok(())
}

// What is left of an image by an opening whose device call of this number fails, and is made all the same if it writes.
fn stopped(alloc: Global, image: &MemDisk, call: u64) -> Result<MemDisk, StopsFault> {
    let mut disk = copy_of(alloc, image)?;
    disk.fail_at(&[call])?;
    let (disk, _) = run(alloc, disk, 1, Vec::new(alloc));
    Ok(disk)
}

// Opens an image, and tells how many device calls that took. It has wanted files then.
fn open_whole(
    alloc: Global,
    image: MemDisk,
    wanted: Wanted<'_>,
    left: Left<'_>,
) -> Result<(MemDisk, u64), StopsFault>
    ensures { IfOk result (λ _. HasWanted wanted.entry.files.now wanted.entry.least wanted.entry.most image) }
{
    let (disk, opened) = run(alloc, image, 1, Vec::new(alloc));
    if let Err(fault) = opened {
        return Err(refused(alloc, left, fault));
    }
    let mut disk = disk;
    let calls = disk.calls();
    match show(alloc, &mut disk) {
        Ok(found) => match wanted.differs(&found) {
            None => Ok((disk, calls)),
            Some(difference) => Err(left.torn(alloc, &difference)),
        },
        Err(fault) => Err(refused(alloc, left, fault)),
    }
}

// That an image isn't opened, or its files aren't told. For want of memory it isn't torn.
fn refused(alloc: Global, left: Left<'_>, fault: OpenFault) -> StopsFault {
    match fault {
        OpenFault::NoMemory(_) => StopsFault::NoMemory,
        other => left.torn(alloc, &Difference::Refused(other)),
    }
}
