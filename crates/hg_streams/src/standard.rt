//! A reader of `std` as a source, and a writer of `std` as a sink, as standard input and output are. Both tell the bytes that pass: this is
//! the trusted edge.

ghost use Rattle.std.specs.Prelude.{◌≡◌, [], false};
ghost use Rattle.std.specs.Io.KnownBytes.{WriteAppends};
ghost use Rattle.hg_base.specs.Faults.{HasCause, TakesSome};
ghost use Rattle.hg_base.specs.Flows.{AddsFirst};
ghost use Rattle.hg_streams.specs.Standard.{inflow_of, outflow_of, writer_of};

use hg_base::{Failed, Piece, Sink, Source, ToldBytes};
use std::io::{self, Read, Stdin, Stdout, Write};

/// What a reader reads. What is given back is kept.
#[derive(Drop)]
pub struct ReaderSource<R> {
    inner: R,
    given: ToldBytes,
    is_over: bool,
    faults: u64,
    fault: Option<io::Error>,
    kept: Option<Vec<u8>>,
}

/// Standard input.
pub type StdinSource = ReaderSource<Stdin>;

impl<R: Read> ReaderSource<R> {
    /// Nothing was read yet, and no fault has come.
    pub fn new(inner: R) -> ReaderSource<R>
        ensures { inflow_of R.remaining result ≡
            record { given = []; is_over = false; left = R.remaining inner; faults = 0 } }
    {
        ReaderSource {
            inner,
            given: ToldBytes::new(),
            is_over: false,
            faults: 0,
            fault: None,
            kept: None,
        }
    }

    /// What was given back last.
    pub fn kept(&self) -> Option<&[u8]> {
        self.kept.as_deref()
    }

    /// Why the last read failed that did.
    pub fn fault(&self) -> Option<&io::Error> {
        self.fault.as_ref()
    }
}

impl<R: Read> Source for ReaderSource<R> {
    ghost flow = { inflow_of R.remaining };

    fn read(&mut self, into: &mut [u8]) -> Result<usize, Failed> {
        match self.inner.read(into) {
            Ok(count) => {
                self.is_over = count == 0 && !into.is_empty();
                self.given = self.given.then(&Piece {
                    bytes: &into[..count],
                });
                Ok(count)
            }
            Err(fault) => {
                self.fault = Some(fault);
                self.faults = self.faults.saturating_add(1);
                Err(Failed)
            }
        }
    }

    fn give_back(&mut self, bytes: Vec<u8>) {
        self.kept = Some(bytes);
    }
}

/// What a writer is given to write.
#[derive(Drop)]
pub struct WriterSink<W> {
    inner: W,
    taken: ToldBytes,
    faults: u64,
    fault: Option<io::Error>,
}

/// Standard output.
pub type StdoutSink = WriterSink<Stdout>;

impl<W: Write> WriterSink<W> {
    /// Nothing was written yet, and no fault has come.
    pub fn new(inner: W) -> WriterSink<W>
        ensures told { outflow_of result ≡ record { taken = []; faults = 0 } }
        ensures writer { writer_of result ≡ inner }
    {
        WriterSink {
            inner,
            taken: ToldBytes::new(),
            faults: 0,
            fault: None,
        }
    }

    /// Why the last write failed that did, where the writer said why.
    pub fn fault(&self) -> Option<&io::Error> {
        self.fault.as_ref()
    }
}

impl<W: Write> Sink for WriterSink<W> {
    ghost flow = { outflow_of };

    // A writer that takes nothing has ended, and that is a fault.
    fn write(&mut self, piece: &[u8]) -> Result<usize, Failed>
        ensures bound { TakesSome result piece.now }
        ensures taken { AddsFirst (outflow_of self.old).taken (outflow_of self.new).taken result piece.now }
        ensures cause { HasCause (outflow_of self.old).faults (outflow_of self.new).faults result }

        // They are the bytes that the writer took.
        ensures written { WriteAppends (W.contents (writer_of self.old)) (W.contents (writer_of self.new))
            result piece.now }
    {
        match self.inner.write(piece) {
            Ok(count) if count > 0 || piece.is_empty() => {
                self.taken = self.taken.then(&Piece {
                    bytes: &piece[..count],
                });
                return Ok(count);
            }
            Ok(_) => {}
            Err(fault) => self.fault = Some(fault),
        }
        self.faults = self.faults.saturating_add(1);
        Err(Failed)
    }
}
