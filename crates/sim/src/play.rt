//! A run of the store, and what it prints.
ghost use Rattle.std.specs.Prelude.{◌≡◌, ◌++◌, map, IfOk, OnOk};
ghost use Rattle.disk.specs.Memory.{blocks_of, memory_device, past_of, to_fail};
ghost use Rattle.sim.specs.Simulated.{HasPlayed, Prints, number_behind};

use crate::fault::SimFault;
use crate::image_files::{print_files, scan_image};
use crate::lines::{print_boot, print_open_refused};
use crate::replies::print_replies;
use crate::segment::Segment;
use disk::MemDisk;
use sim_words::WORKERS;
use std::alloc::{AllocError, Global};
use std::io::Write;
use store::run;

/// Opens the store and takes all that happens, and prints what came of it. Where it was opened the device is handed
/// back.
pub fn play<W: Write>(
    alloc: Global,
    mut disk: MemDisk,
    segment: Segment,
    out: &mut W,
) -> Result<Option<MemDisk>, SimFault>
    ensures { IfOk result (λ left. Prints (W.contents out.old) (W.contents out.new) (HasPlayed disk segment left)) }
{
    let Segment {
        events,
        handed,
        fails,
        shows,
    } = segment;
    let files = scan_image(alloc, &mut disk, shows);
    let_fail(&mut disk, &fails)?;
    let all = events.len();
    let (disk, ran) = run(alloc, disk, WORKERS as usize, events);
    match ran {
        Err(fault) => {
            print_open_refused(out, fault)?;
            Ok(None)
        }
        Ok(run) => {
            if run.steps.len() != all {
                return Err(SimFault::NoMemory);
            }
            print_boot(out, run.boot)?;
            print_files(out, &files)?;
            print_replies(alloc, out, &run, &handed)?;
            Ok(Some(disk))
        }
    }
}

// Lets device calls fail, counted behind those that were made.
fn let_fail(disk: &mut MemDisk, calls: &[u32]) -> Result<(), AllocError>
    ensures blocks { blocks_of disk.new ≡ blocks_of disk.old }
    ensures past { past_of disk.new ≡ past_of disk.old }
    ensures fails { OnOk result (to_fail disk.new
        ≡ to_fail disk.old ++ map (number_behind (memory_device disk.old).clock) calls.now) }
{
    let made = disk.calls();
    'calls: for call in calls {
        disk.fail_at(&[made.saturating_add(*call as u64)])?;
    }
    Ok(())
}
