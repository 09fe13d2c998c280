//! A source and a sink that watch how they are called.

ghost use Rattle.std.specs.Prelude.{None};

use hg_base::{Failed, Piece, Sink, Source, ToldBytes};

// The least buffer, where as much may still come.
const LEAST: usize = 4_096;

/// Gives so many bytes `1`, of which at most so many may be read, and notes whether each buffer was as long as it has to be: at least 4,096 bytes and at most as many
/// as may still be read, and exactly that many where these are fewer. Behind an empty answer nothing may be asked.
#[derive(Drop)]
pub(crate) struct WatchedSource {
    left: usize,
    most: usize,
    count: usize,
    given: ToldBytes,
    is_over: bool,
    pub(crate) is_well_asked: bool,
}

impl WatchedSource {
    pub(crate) fn new(count: usize, most: usize) -> WatchedSource {
        WatchedSource {
            left: count,
            most,
            count: 0,
            given: ToldBytes::new(),
            is_over: false,
            is_well_asked: true,
        }
    }
}

impl Source for WatchedSource {
    ghost flow = { λ s. record { given = s.given.bytes; is_over = s.is_over; left = None; faults = 0 } };

    fn read(&mut self, into: &mut [u8]) -> Result<usize, Failed> {
        let missing = self.most.saturating_sub(self.count);
        let is_long = into.len() >= LEAST || into.len() == missing;
        if self.is_over || into.len() > missing || !is_long {
            self.is_well_asked = false;
        }
        let count = self.left.min(into.len());
        into[..count].fill(b'1');
        self.left -= count;
        self.count = self.count.saturating_add(count);
        self.given = self.given.then(&Piece {
            bytes: &into[..count],
        });
        self.is_over = count == 0 && !into.is_empty();
        Ok(count)
    }
}

/// Takes three bytes a call, and notes whether each call was given all that the earlier ones had left.
#[derive(Drop)]
pub(crate) struct WatchedSink {
    rest: Option<usize>,
    taken: ToldBytes,
    pub(crate) is_well_given: bool,
}

impl WatchedSink {
    pub(crate) fn new() -> WatchedSink {
        WatchedSink {
            rest: None,
            taken: ToldBytes::new(),
            is_well_given: true,
        }
    }

    /// Whether all of the first piece was taken.
    pub(crate) fn is_done(&self) -> bool {
        self.rest == Some(0)
    }
}

impl Sink for WatchedSink {
    ghost flow = { λ s. record { taken = s.taken.bytes; faults = 0 } };

    fn write(&mut self, piece: &[u8]) -> Result<usize, Failed> {
        if self.rest.unwrap_or(piece.len()) != piece.len() {
            self.is_well_given = false;
        }
        let count = piece.len().min(3);
        self.rest = Some(piece.len() - count);
        self.taken = self.taken.then(&Piece {
            bytes: &piece[..count],
        });
        Ok(count)
    }
}
