//! Laws of files as devices, over definitions alone.
ghost use Rattle.std.specs.Prelude.{◌≡◌, ℕ, ◌<◌, Result, [], ◌∷◌, ◌++◌};
ghost use Rattle.disk.specs.declared.block.Side.TheVariants.{Home, Log};
ghost use Rattle.disk.specs.declared.device.Failed.{Failed};
ghost use Rattle.disk_file.specs.declared.file.FirstContents.{FirstContents};
ghost use Rattle.disk.specs.Device.{Content};
ghost use Rattle.disk.specs.Blocks.{IsBlock, AreBlocks};
ghost use Rattle.disk.specs.Crash.{Image};
ghost use Rattle.disk.specs.Overlap.{DeviceCall, Makes};
ghost use Rattle.disk_file.specs.File.{AreOfBlocks, Calls, EachFits, IsHonest, KeepsModel, file_device, first_in};
ghost use Rattle.disk.specs.Ports.{AnsweredCalls};
ghost use Rattle.disk_file.specs.Sides.{ComeInOrder, IsHonestTo, file_calls};

/// A file that held blocks, whichever they were, and answers each read by what is stored keeps the model,
/// whatever fails.
pub fn honest_file_keeps_model()
    ensures { (first : ℕ → Content) (size : ℕ) (calls : Calls)
        → ((block : ℕ) → block < size → IsBlock (first block)) → EachFits (IsHonest first) calls
        → KeepsModel first size calls }
{}

/// A file that is honest to each side, by the list of what that side asked, is honest, and so keeps the model, in
/// whatever order the calls of the two sides came.
pub fn a_file_honest_to_each_side_keeps_the_model()
    ensures honest { (first : ℕ → Content) (size : ℕ) (log home calls : AnsweredCalls)
        → IsHonestTo first size Log log → IsHonestTo first size Home home
        → ComeInOrder size log home calls → EachFits (IsHonest first) (file_calls calls) }
    ensures model { (first : ℕ → Content) (size : ℕ) (log home calls : AnsweredCalls)
        → ((block : ℕ) → block < size → IsBlock (first block))
        → IsHonestTo first size Log log → IsHonestTo first size Home home
        → ComeInOrder size log home calls → KeepsModel first size (file_calls calls) }
{}

/// Each call of a file that keeps the model is that call of the device over it, which tells of blocks where the calls
/// brought and wrote blocks.
pub fn calls_of_a_file_are_the_devices()
    ensures call { (first : ℕ → Content) (size : ℕ) (calls later : AnsweredCalls) (call : DeviceCall)
        (result : Result Unit Failed) → KeepsModel first size (file_calls (calls ++ (call, result) ∷ later))
        → Makes (file_device first size (file_calls calls)) call result
        (file_device first size (file_calls (calls ++ (call, result) ∷ []))) }
    ensures blocks { (first : ℕ → Content) (size : ℕ) (calls : AnsweredCalls)
        → KeepsModel first size (file_calls calls) → AreOfBlocks (file_calls calls)
        → AreBlocks (file_device first size (file_calls calls)) }
{}

/// Each image may be what a file held.
pub fn a_file_may_begin_with_each_image()
    ensures { (image : Image) (size : ℕ) → (first : FirstContents)
        × ((block : ℕ) → block < size → first_in first.blocks.items block ≡ image block) }
{}
