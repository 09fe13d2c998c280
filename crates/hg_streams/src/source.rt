//! Reading a source to its end.

ghost use Rattle.std.specs.Prelude.{◌+◌, ◌≤◌, length, IfOk, OnOk, IsErrOf};
ghost use Rattle.hg_streams.specs.Streams.{Gave, HasGiven, IsOver, IsTooLong, ReadFailed, change_of};

use hg_base::{Failed, Source};
use std::alloc::{AllocError, Global};

/// Why a source was not read to its end.
#[derive(Clone, Copy, PartialEq, Eq)]
pub enum ReadError {
    Fault,
    TooLong,
    NoMemory,
}

impl From<Failed> for ReadError {
    ghost use Rattle.std.specs.Prelude.{◌≡◌};
    ghost use Rattle.hg_streams.specs.declared.source.ReadError.TheVariants as error;

    ghost from_gives = { λ _ e. e ≡ error.Fault };

    fn from(_: Failed) -> ReadError {
        ReadError::Fault
    }
}

impl From<AllocError> for ReadError {
    ghost use Rattle.std.specs.Prelude.{◌≡◌};
    ghost use Rattle.hg_streams.specs.declared.source.ReadError.TheVariants as error;

    ghost from_gives = { λ _ e. e ≡ error.NoMemory };

    fn from(_: AllocError) -> ReadError {
        ReadError::NoMemory
    }
}

// At most how many bytes one call of a source is asked for.
const CHUNK: usize = 65_536;

/// All bytes of a source, up to the first read that gives none, if they are at most so many. Of a source with more, one byte more is read
/// and then nothing, not even to find out whether the source fails.
pub fn read_all<S: Source>(alloc: Global, source: &mut S, most: usize) -> Result<Vec<u8>, ReadError>
    ensures whole { IfOk result
        (λ bytes. Gave (change_of S.flow source.old source.new) bytes.items) }
    ensures end { OnOk result (IsOver (S.flow source.new)) }
    ensures short { IfOk result (λ bytes. length bytes.items ≤ most) }
    ensures too_long { IsErrOf result ReadError.TooLong →
        IsTooLong most (change_of S.flow source.old source.new) }
    ensures no_more { HasGiven (most + 1) (change_of S.flow source.old source.new) }
    ensures fault { IsErrOf result ReadError.Fault →
        ReadFailed (change_of S.flow source.old source.new) }
    ensures within { IsErrOf result ReadError.Fault →
        HasGiven most (change_of S.flow source.old source.new) }
    ensures later { (S.flow source.old).faults ≤ (S.flow source.new).faults }
{
    let mut bytes = Vec::new(alloc);
    let mut chunk = [0; CHUNK];
    while bytes.len() <= most {
        let room = (most - bytes.len()).min(CHUNK - 1) + 1;
        let count = source.read(&mut chunk[..room])?;
        if count == 0 {
            return Ok(bytes);
        }
        bytes.extend_from_slice(&chunk[..count])?;
    }
    Err(ReadError::TooLong)
}
