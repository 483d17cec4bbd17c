// A source and a sink that never fail.
ghost use Rattle.std.specs.Prelude.{◌≡◌, ◌+◌, ◌||◌, ◌==◌, ℕ, Some, None, Ok, [], take, drop, length, min, false, IsTrue};
ghost use Rattle.std.specs.Io.{ReadsAtMost, WritesAtMost};
ghost use Rattle.std.specs.Io.KnownBytes.{append_known, prepend_known, IsAtEnd};
ghost use Rattle.tm_base.specs.Outside.{HasCause, HasWriteCause, moved, is_nothing};
ghost use Rattle.tm_base.specs.Count.{raised_by};

use crate::{Failed, Sink, Source};
use std::marker::Model;

/// A list of octets. No read of it fails.
#[derive(Drop)]
pub struct SureSource {
    content: Vec<u8>,
    at: usize,
    ended: bool,
}

impl Model for SureSource {
    ghost use Rattle.std.specs.Prelude.{take, drop, length, ◌≤◌};
    ghost use Rattle.tm_base.specs.SureState.{SureState};

    ghost Value = { SureState };

    ghost view = { λ s. record {
      given = take s.at s.content.items;
      left = drop s.at s.content.items;
      ended = s.ended;
    } };

    ghost invariant = { λ s. s.at ≤ length s.content.items };
}

impl SureSource {
    /// A source that gives `content`, as much of it at a time as there is room for.
    pub fn new(content: Vec<u8>) -> SureSource
        ensures { result ≡ record { given = []; left = content.items; ended = false } }
    {
        SureSource {
            content,
            at: 0,
            ended: false,
        }
    }
}

impl Source for SureSource {
    ghost given = { λ s. Some s.given };

    ghost left = { λ s. Some s.left };

    ghost ended = { λ s. s.ended };

    ghost faults = { λ _. 0 };

    ghost is_last = { λ _. ⊥ };

    fn read(&mut self, buf: &mut [u8]) -> Result<usize, Failed>
        ensures bound { ReadsAtMost result buf.new }
        ensures given { Some self.new.given ≡ append_known (Some self.old.given) (moved result buf.new) }
        ensures left { Some self.old.left ≡ prepend_known (moved result buf.new) (Some self.new.left) }
        ensures ended { self.new.ended ≡ (self.old.ended || is_nothing result buf.new) }
        ensures end { IsTrue (is_nothing result buf.new) → IsAtEnd (Some self.new.left) }
        ensures cause { HasCause 0 0 ⊥ result }

        // It gives as much as there is, or as there is room for.
        ensures answer { result ≡ Ok (min (length self.old.left) (length buf.old)) }
    {
        let count = (self.content.len() - self.at).min(buf.len());
        buf[..count].copy_from_slice(&self.content[self.at..self.at + count]);
        self.at += count;
        self.ended = self.ended | ((count == 0) & !buf.is_empty());
        Ok(count)
    }
}

/// Counts octets, and keeps none. No write to it fails.
#[derive(Drop)]
pub struct SureSink {
    count: u64,
}

impl Model for SureSink {
    ghost use Rattle.std.specs.Prelude.{ℕ};

    ghost Value = { ℕ };

    ghost view = { λ s. s.count };
}

impl SureSink {
    /// A sink that has taken nothing.
    pub fn new() -> SureSink
        ensures { result ≡ 0 }
    {
        SureSink { count: 0 }
    }

    /// How many octets it has taken, up to 2^64-1.
    pub fn count(&self) -> u64
        ensures { result ≡ self.now }
    {
        self.count
    }
}

impl Sink for SureSink {
    ghost taken = { λ _. None };

    ghost faults = { λ _. 0 };

    ghost is_last = { λ _. ⊥ };

    fn write(&mut self, piece: &[u8]) -> Result<usize, Failed>
        ensures bound { WritesAtMost result piece.now }
        ensures taken { append_known None (moved result piece.now) ≡ None }
        ensures cause { HasWriteCause 0 0 ⊥ result piece.now }

        // It takes the whole piece, and counts it.
        ensures answer { result ≡ Ok (length piece.now) }
        ensures counted { self.new ≡ raised_by (length piece.now) self.old }
    {
        self.count = self.count.saturating_add(piece.len() as u64);
        Ok(piece.len())
    }
}
