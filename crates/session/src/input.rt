//! The input of a session, and what its reads answered.
use http_server::Log;
use std::io::{self, Read};

/// An input: a reader, and what each read of it answered. Who has one can't read without a note of it. The notes
/// are for proofs alone, in `http_server`'s `Log`, and take no memory.
#[derive(Drop)]
pub struct Input<R> {
    reader: R,
    answers: Log<io::Result<usize>, ()>,
}

impl<R: Read> Input<R> {
    ghost use Rattle.std.specs.Prelude.{◌≡◌, [], ◌∷◌, ◌++◌};
    ghost use Rattle.std.specs.Io.{ReadsAtMost};
    ghost use Rattle.std.specs.Io.KnownBytes.{ReadConsumes};

    /// An input of which nothing was read yet.
    pub fn new(reader: R) -> Input<R>
        ensures reader { result.reader ≡ reader }
        ensures answers { result.answers.items ≡ [] }
    {
        Input {
            reader,
            answers: Log::new(),
        }
    }

    /// Reads bytes, and tells how many.
    pub(crate) fn read(&mut self, piece: &mut [u8]) -> io::Result<usize>
        ensures bound { ReadsAtMost result piece.new }
        ensures bytes { ReadConsumes (R.remaining self.old.reader) (R.remaining self.new.reader) result
            piece.new }
        ensures traced { self.new.answers.items ≡ self.old.answers.items ++ (result, tt) ∷ [] }
    {
        let answer = self.reader.read(piece);
        self.answers = self.answers.and(&answer, &());
        answer
    }
}
