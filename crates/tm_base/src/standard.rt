// A source and a sink over std's readers and writers. As a source and a sink they do not say which octets: a reader or
// a writer need not say so before its first call. Where it does, each call promises just the octets that it returns.
ghost use Rattle.std.specs.Prelude.{◌≡◌, ◌||◌, None, false};
ghost use Rattle.std.specs.Io.{ReadsAtMost, WritesAtMost};
ghost use Rattle.std.specs.Io.KnownBytes.{ReadConsumes, WriteAppends};
ghost use Rattle.tm_base.specs.Count.{last_count};
ghost use Rattle.tm_base.specs.Outside.{HasCause, HasWriteCause, is_nothing};

use crate::{Failed, Sink, Source};
use std::io::{Read, Write};
use std::marker::Model;

/// A source over a reader of std, which counts the reader's errors.
#[derive(Drop)]
pub struct StdSource<R: Read> {
    reader: R,
    faults: u64,
    ended: bool,
}

impl<R: Read> Model for StdSource<R> {
    ghost use Rattle.tm_base.specs.Standard.{ReaderState};

    ghost Value = { ReaderState };

    ghost view = { λ s. record { remaining = R.remaining s.reader; faults = s.faults; ended = s.ended } };
}

impl<R: Read> StdSource<R> {
    /// A source over `reader`, which has not ended.
    pub fn new(reader: R) -> StdSource<R>
        ensures state { result ≡ record { remaining = R.remaining reader; faults = 0; ended = false } }
        ensures ended { ⟦<StdSource<R> as Source>⟧.ended result ≡ false }
        ensures faults { ⟦<StdSource<R> as Source>⟧.faults result ≡ 0 }
    {
        StdSource {
            reader,
            faults: 0,
            ended: false,
        }
    }
}

impl<R: Read> Source for StdSource<R> {
    ghost given = { λ _. None };

    ghost left = { λ _. None };

    ghost ended = { λ s. s.ended };

    ghost faults = { λ s. s.faults };

    ghost is_last = { λ s. s.faults ≡ last_count };

    fn read(&mut self, buf: &mut [u8]) -> Result<usize, Failed>
        ensures bound { ReadsAtMost result buf.new }
        ensures ended { self.new.ended ≡ (self.old.ended || is_nothing result buf.new) }
        ensures cause { HasCause self.old.faults self.new.faults (self.new.faults ≡ last_count) result }

        // The reader loses just the octets that are returned.
        ensures octets { ReadConsumes self.old.remaining self.new.remaining result buf.new }
    {
        let Ok(count) = self.reader.read(buf) else {
            self.faults = self.faults.saturating_add(1);
            return Err(Failed);
        };
        if count == 0 && !buf.is_empty() {
            self.ended = true;
        }
        Ok(count)
    }
}

/// A sink over a writer of std, which counts the writer's errors, and each write that took nothing of a piece.
#[derive(Drop)]
pub struct StdSink<W: Write> {
    writer: W,
    faults: u64,
}

impl<W: Write> Model for StdSink<W> {
    ghost use Rattle.tm_base.specs.Standard.{WriterState};

    ghost Value = { WriterState };

    ghost view = { λ s. record { contents = W.contents s.writer; faults = s.faults } };
}

impl<W: Write> StdSink<W> {
    /// A sink over `writer`.
    pub fn new(writer: W) -> StdSink<W>
        ensures state { result ≡ record { contents = W.contents writer; faults = 0 } }
        ensures faults { ⟦<StdSink<W> as Sink>⟧.faults result ≡ 0 }
    {
        StdSink { writer, faults: 0 }
    }
}

impl<W: Write> Sink for StdSink<W> {
    ghost taken = { λ _. None };

    ghost faults = { λ s. s.faults };

    ghost is_last = { λ s. s.faults ≡ last_count };

    fn write(&mut self, piece: &[u8]) -> Result<usize, Failed>
        ensures bound { WritesAtMost result piece.now }
        ensures cause { HasWriteCause self.old.faults self.new.faults (self.new.faults ≡ last_count) result piece.now }

        // The writer takes just the octets that are returned.
        ensures octets { WriteAppends self.old.contents self.new.contents result piece.now }
    {
        let Ok(count) = self.writer.write(piece) else {
            self.faults = self.faults.saturating_add(1);
            return Err(Failed);
        };
        if count == 0 && !piece.is_empty() {
            self.faults = self.faults.saturating_add(1);
        }
        Ok(count)
    }
}
