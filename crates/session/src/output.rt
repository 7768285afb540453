//! The output of a session, and what its writes and flushes answered.
use http_server::Log;
use std::io::{self, Write};
use std::snapshot::Snapshot;

/// A call of the writer of an output, with what it was asked and what it answered, for proofs alone.
#[derive(Drop)]
pub enum OutputCall {
    /// To write the bytes of a buffer from a place on: how many of them it took.
    Write(Snapshot<Vec<u8>>, Snapshot<usize>, Snapshot<io::Result<usize>>),
    /// To flush.
    Flush(Snapshot<io::Result<()>>),
    /// To write other bytes, of which there is no note.
    Other(Snapshot<io::Result<usize>>),
}

/// An output: a writer, and each call of it. Who has one can't write or flush without a note of it. The notes are for
/// proofs alone, in `http_server`'s `Log`, and take no memory.
#[derive(Drop)]
pub struct Output<W> {
    writer: W,
    calls: Log<OutputCall, ()>,
}

impl<W: Write> Output<W> {
    ghost use Rattle.std.specs.Prelude.{◌≡◌, ◌≤◌, [], ◌∷◌, ◌++◌, length, drop};
    ghost use Rattle.std.specs.Io.{WritesAtMost};
    ghost use Rattle.std.specs.Io.KnownBytes.{WriteAppends};
    ghost use Rattle.session.specs.Writing.{IsWrite};
    ghost use Rattle.session.specs.declared.output.OutputCall.{OutputCall};

    /// An output of which nothing was written yet.
    pub fn new(writer: W) -> Output<W>
        ensures writer { result.writer ≡ writer }
        ensures calls { result.calls.items ≡ [] }
    {
        Output {
            writer,
            calls: Log::new(),
        }
    }

    /// The writer.
    pub fn into_writer(self) -> W
        ensures { result ≡ self.writer }
    {
        self.writer
    }

    /// Writes bytes of a buffer, from a place in it on, and tells how many.
    pub(crate) fn write_from(&mut self, buffer: &Vec<u8>, from: usize) -> io::Result<usize>
        requires { from ≤ length buffer.now.items }
        ensures bound { WritesAtMost result (drop from buffer.now.items) }
        ensures bytes { WriteAppends (W.contents self.old.writer) (W.contents self.new.writer) result
            (drop from buffer.now.items) }
        ensures traced { (call : OutputCall) × IsWrite call (drop from buffer.now.items) result
            × (self.new.calls.items ≡ self.old.calls.items ++ (call, tt) ∷ []) }
    {
        let answer = self.writer.write(&buffer.as_slice()[from..]);
        let call = OutputCall::Write(
            Snapshot::of(buffer),
            Snapshot::of(&from),
            Snapshot::of(&answer),
        );
        self.calls = self.calls.and(&call, &());
        answer
    }
}

/// What the program writes besides, which is noted as that.
impl<W: Write> Write for Output<W> {
    ghost use Rattle.std.specs.Prelude.{◌≡◌, [], ◌∷◌, ◌++◌};
    ghost use Rattle.std.specs.Io.KnownBytes.{Keeps};
    ghost use Rattle.session.specs.Writing.{IsFlush};
    ghost use Rattle.session.specs.declared.output.OutputCall.{OutputCall};

    ghost contents = { λ o. W.contents o.writer };

    fn write(&mut self, buf: &[u8]) -> io::Result<usize> {
        let answer = self.writer.write(buf);
        let call = OutputCall::Other(Snapshot::of(&answer));
        self.calls = self.calls.and(&call, &());
        answer
    }

    fn flush(&mut self) -> io::Result<()>
        ensures bytes { Keeps (W.contents self.old.writer) (W.contents self.new.writer) }
        ensures traced { (call : OutputCall) × IsFlush call result
            × (self.new.calls.items ≡ self.old.calls.items ++ (call, tt) ∷ []) }
    {
        let answer = self.writer.flush();
        let call = OutputCall::Flush(Snapshot::of(&answer));
        self.calls = self.calls.and(&call, &());
        answer
    }
}
