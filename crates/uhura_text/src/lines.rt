//! Lines out of a stream of bytes, fed one byte after another.
ghost use Rattle.std.specs.Prelude.{◌≡◌, ◌+◌, ◌<◌, ◌≤◌, [], length, take, Some, IsSome, IfOk};
ghost use Rattle.uhura_text.specs.Lines.{shown};
ghost use Rattle.uhura_text.specs.Reading.{IsFresh, Ends, Feeds, Finishes};

use std::alloc::{AllocError, Global};
use std::marker::Model;

/// A line of more bytes is long.
pub const LINE_LIMIT: usize = 4096;

/// What a byte did to the line that is being read.
#[derive(Clone, Copy, Debug, PartialEq, Eq)]
pub enum Fed {
    /// It ended no line.
    More,
    /// It ended a line of at most 4,096 bytes.
    Line,
    /// It ended a line of more than 4,096 bytes.
    Long,
}

/// A reader of lines. It keeps the first 4,097 bytes of the line that is being read.
#[derive(Debug, Drop)]
pub struct Lines {
    buffer: Vec<u8>,
    used: usize,
    ended: Option<usize>,
}

impl Model for Lines {
    ghost use Rattle.std.specs.Prelude.{◌≡◌, ◌+◌, ◌≤◌, length, take, option_map, IfSome};
    ghost use Rattle.uhura_text.specs.declared.lines.TheConstants.{LINE_LIMIT};
    ghost use Rattle.uhura_text.specs.Reading.{Reading};

    ghost Value = { Reading };

    ghost view = { λ r. record {
      held = take r.used r.buffer.items;
      line = option_map (λ n. take n r.buffer.items) r.ended;
    } };

    ghost invariant = { λ r. (length r.buffer.items ≡ LINE_LIMIT + 1) × (r.used ≤ LINE_LIMIT + 1)
        × IfSome r.ended (λ n. n ≤ LINE_LIMIT + 1) };
}

impl Lines {
    /// Takes all the memory that it will ever need: 4,097 bytes.
    pub fn new(alloc: Global) -> Result<Lines, AllocError>
        ensures { IfOk result IsFresh }
    {
        let buffer = vec![in alloc; 0; LINE_LIMIT + 1]?;
        Ok(Lines {
            buffer,
            used: 0,
            ended: None,
        })
    }

    /// Takes the next byte. Of a line of more than 4,096 bytes those past the first 4,097 are dropped.
    pub fn feed(&mut self, byte: u8) -> Fed
        ensures { Feeds self.old byte result self.new }
    {
        if byte == b'\n' {
            return self.end();
        }
        self.ended = None;
        if self.used <= LINE_LIMIT {
            self.buffer[self.used] = byte;
            self.used += 1;
        }
        Fed::More
    }

    /// Ends the line that is being read, at the end of the input.
    pub fn finish(&mut self) -> Fed
        ensures { Finishes self.old result self.new }
    {
        if self.used == 0 {
            self.ended = None;
            return Fed::More;
        }
        self.end()
    }

    /// The line that the last call of `feed` or `finish` ended: without its CR where it has at most 4,096 bytes,
    /// else its first 4,097 bytes.
    pub fn line(&self) -> &[u8]
        requires { IsSome self.now.line }
        ensures { self.now.line ≡ Some result.now }
    {
        match self.ended {
            Some(used) => &self.buffer[..used],
            None => unreachable!(),
        }
    }

    /// Ends the line that is being read.
    fn end(&mut self) -> Fed
        ensures { Ends self.old result self.new }
    {
        let used = self.used;
        self.used = 0;
        self.ended = Some(shown_length(&self.buffer[..used]));
        if used <= LINE_LIMIT {
            Fed::Line
        } else {
            Fed::Long
        }
    }
}

/// How many of a held line's bytes are shown.
fn shown_length(line: &[u8]) -> usize
    requires { length line.now ≤ LINE_LIMIT + 1 }
    ensures bound { result ≤ length line.now }
    ensures shown { take result line.now ≡ shown line.now }
{
    let length = line.len();
    if length > LINE_LIMIT || length == 0 {
        return length;
    }
    if line[length - 1] == b'\r' {
        length - 1
    } else {
        length
    }
}
