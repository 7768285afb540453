//! Laws of sessions. Nothing runs here: each contract is what the definitions entail.
ghost use Rattle.std.specs.Prelude.{◌≡◌, ◌<◌, ◌^◌, ◌++◌, ℕ, List, Some};
ghost use Rattle.plain_once.specs.Session.Answering.{Files, SoundFiles};
ghost use Rattle.plain_once.specs.declared.session.answers.FakeClock.{FakeClock};
ghost use Rattle.plain_once.specs.Session.Counts.{HasData};
ghost use Rattle.plain_once.specs.Session.Records.{IsTooLong, NeedsMore};
ghost use Rattle.plain_once.specs.Session.Serving.{AreAnswered, IsFirst, fresh_files};

/// A stream begins with one record and one rest, or announces too much, or needs more: and with one of
/// these alone.
pub fn a_stream_begins_one_way()
    ensures single_record { (bytes message other behind rest : List ℕ) → IsFirst bytes message behind
        → IsFirst bytes other rest → (message ≡ other) × (behind ≡ rest) }
    ensures whole_or_more { (bytes message behind : List ℕ) → IsFirst bytes message behind
        → NeedsMore bytes → ⊥ }
    ensures whole_or_long { (bytes message behind : List ℕ) → IsFirst bytes message behind
        → IsTooLong bytes → ⊥ }
    ensures more_or_long { (bytes : List ℕ) → NeedsMore bytes → IsTooLong bytes → ⊥ }
{}

/// Pieces that come one behind another are answered as they are in one.
pub fn pieces_come_to_one()
    ensures { (before middle after : Files) (bytes piece first written answer_given left last : List ℕ)
        → AreAnswered before bytes first written left middle
        → AreAnswered middle (left ++ piece) written answer_given last after
        → AreAnswered before (bytes ++ piece) first answer_given last after }
{}

/// The files of a session are sound, from those of a fresh image on: so what its calls are answered is always a
/// step of the sequential server.
pub fn sessions_keep_files_sound()
    ensures fresh { (blocks inodes data_blocks made : ℕ) (fake_clock : FakeClock) → HasData blocks inodes (Some data_blocks)
        → made < 2 ^ 32 → fake_clock.second < 2 ^ 32 → SoundFiles (fresh_files data_blocks inodes made fake_clock) }
    ensures is_preserved { (before : Files) (bytes first written left : List ℕ) (after : Files)
        → AreAnswered before bytes first written left after → SoundFiles before → SoundFiles after }
{}
