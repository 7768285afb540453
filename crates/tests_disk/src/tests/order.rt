//! The calls of the file system that opening and making a device take: their order, and each of them failing.

use crate::tests::fake::{FakeFiles, Step, Steps};
use disk::CrashDisk;
use disk_file::FileDisk;
use std::alloc::Global;
use std::process::Abort;
use std::test::Fail;

// What is done with a file.
#[derive(Clone, Copy)]
enum TestStep {
    Open,
    Create,
}

// Does it, and gives the calls that were made, and whether it went well.
fn done(
    alloc: Global,
    test_step: TestStep,
    has_image: bool,
    failing: usize,
) -> Result<(Vec<Step>, bool), Fail> {
    let steps = Steps::new(alloc, failing, usize::MAX);
    let files = FakeFiles {
        steps: &steps,
        has_image,
    };
    let disk = match test_step {
        TestStep::Open => FileDisk::open(&files, "images/a.img"),
        TestStep::Create => FileDisk::create(&files, "images/a.img", 3),
    };
    let is_done = disk.is_ok_and(|disk| disk.blocks() > 0);
    let made = steps.made.into_inner();
    Ok((made, is_done))
}

// The calls come in this order where all go well, and where one fails it is the last and there is no device.
fn assert_order(
    rt: &(impl Abort + AllocGlobal),
    test_step: TestStep,
    has_image: bool,
    wanted: &[Step],
) -> Result<(), Fail> {
    let (made, is_done) = done(rt.alloc(), test_step, has_image, usize::MAX)?;
    assert!(rt; made.as_slice() == wanted && is_done, "{made:?}");
    for failing in 0..wanted.len() {
        let (made, is_done) = done(rt.alloc(), test_step, has_image, failing)?;
        assert!(rt;
            made.as_slice() == &wanted[..failing + 1] && !is_done,
            "{made:?}"
        );
    }
    Ok(())
}

// What is done, whether the image is there, and the calls in their order.
const ROWS: [(TestStep, bool, &[Step]); 3] = [
    // a lock comes before the length is asked
    (
        TestStep::Open,
        true,
        &[Step::Open, Step::Lock, Step::Sync, Step::AskLength],
    ),
    // a lock comes before the length is set
    (
        TestStep::Create,
        true,
        &[Step::Open, Step::Lock, Step::Length(12288), Step::Sync],
    ),
    // the folder of a new file is settled
    (
        TestStep::Create,
        false,
        &[
            Step::Open,
            Step::Make,
            Step::OpenFolder,
            Step::SyncFolder,
            Step::Lock,
            Step::Length(12288),
            Step::Sync,
        ],
    ),
];

#[test]
fn what_a_file_system_is_asked(rt: HostRuntime) -> Result<(), Fail> {
    for (test_step, has_image, wanted) in &ROWS {
        assert_order(&rt, *test_step, *has_image, wanted)?;
    }
    Ok(())
}
