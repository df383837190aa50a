//! The bytes of the input, all at once.
ghost use Rattle.std.specs.Prelude.{◌^◌, ◌<◌, IfOk, IfErr};
ghost use Rattle.uhura.specs.Bytes.{TakesAll, TakesSome, HasTaken, MeetsFault};

use std::alloc::{AllocError, Global};
use uhura_io::{Failed, Source};

/// How many bytes each read asks for.
pub(crate) const PIECE: usize = 4096;

/// How many bytes the input may have.
pub(crate) const INPUT_LIMIT: usize = 67_108_864;

/// Why not all bytes of the input are there.
#[derive(Clone, Copy, Debug, PartialEq, Eq)]
pub(crate) enum Unread {
    TooLong,
    ReadFault,
    NoMemory,
}

/// Reads the input to its end, or to what stops it first.
pub(crate) fn read_all<S: Source>(alloc: Global, source: &mut S) -> Result<Vec<u8>, Unread>
    ensures all { IfOk result (λ bytes.
        TakesAll (S.left source.old) (S.left source.new) bytes.items) }
    ensures some { IfErr result (TakesSome (S.left source.old) (S.left source.new)) }
    ensures size { S.given source.old < 2 ^ 63 →
        HasTaken result (S.given source.old) (S.given source.new) }
    ensures fault { MeetsFault result (S.faults source.old) (S.faults source.new) }
{
    let mut bytes = Vec::new(alloc);
    let mut buffer = [0; PIECE];
    'pieces: loop {
        let given = match source.read(&mut buffer) {
            Ok(given) => given,
            Err(Failed) => return Err(Unread::ReadFault),
        };
        if given == 0 {
            return Ok(bytes);
        }
        if given > INPUT_LIMIT - bytes.len() {
            return Err(Unread::TooLong);
        }
        match bytes.extend_from_slice(&buffer[..given]) {
            Ok(()) => {}
            Err(AllocError) => return Err(Unread::NoMemory),
        }
    }
}
