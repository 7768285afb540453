//! The stream that faults are told on.
use crate::fault::Fault;
use http_server::Log;
use std::io::{self, Write};

/// A stream that faults are told on, such as standard error. What was told is kept for proofs alone, in
/// `http_server`'s `Log`, and takes no memory: each fault, with the stream's answer.
#[derive(Drop)]
pub struct FaultStream<E> {
    stream: E,
    reports: Log<Fault, io::Result<()>>,
}

impl<E: Write> FaultStream<E> {
    ghost use Rattle.std.specs.Prelude.{◌≡◌, []};
    ghost use Rattle.nfsd.specs.Done.{TellsFault};

    /// A stream that nothing was told on.
    pub fn new(stream: E) -> FaultStream<E>
        ensures stream { result.stream ≡ stream }
        ensures reports { result.reports.items ≡ [] }
    {
        FaultStream {
            stream,
            reports: Log::new(),
        }
    }

    /// Tells a fault by its text. Where the stream doesn't take it, that alone is lost.
    pub fn tell(&mut self, fault: &Fault)
        ensures { TellsFault self.old.reports.items (E.contents self.old.stream) fault.now
            self.new.reports.items (E.contents self.new.stream) }
    {
        let answer = write!(self.stream, "{fault}");
        self.reports = self.reports.and(fault, &answer);
    }
}
