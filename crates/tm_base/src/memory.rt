// A source and a sink in memory, which fail where they are told to.
ghost use Rattle.std.specs.Prelude.{◌≡◌, ◌==◌, ◌||◌, ◌<◌, ◌≤◌, ◌-◌, ◌++◌, [], Some, take, drop, length, IfOk, IsTrue, false, min, slice_get, if◌then◌else◌, ◌+◌, vec_len, vec_capacity};
ghost use Rattle.std.specs.Io.{ReadsAtMost, WritesAtMost};
ghost use Rattle.std.specs.Io.KnownBytes.{append_known, prepend_known, IsAtEnd};
ghost use Rattle.tm_base.specs.Outside.{HasCause, HasWriteCause, moved, is_nothing};
ghost use Rattle.tm_base.specs.Count.{raised_by, last_count};
ghost use Rattle.tm_base.specs.SourceInMemory.{source_of, most_of, given_by, after_read};
ghost use Rattle.tm_base.specs.SinkInMemory.{sink_of, taken_by, after_write};

use crate::{Failed, NoMemory, Sink, Source};
use std::alloc::Global;
use std::marker::Model;

/// A list of octets, which is given in pieces.
#[derive(Drop)]
pub struct MemSource {
    content: Vec<u8>,
    cuts: Vec<usize>,
    fails: Vec<usize>,
    at: usize,
    calls: usize,
    faults: u64,
    ended: bool,
}

impl Model for MemSource {
    ghost use Rattle.std.specs.Prelude.{take, drop, length, ◌≤◌};
    ghost use Rattle.tm_base.specs.SourceInMemory.{SourceState};

    ghost Value = { SourceState };

    ghost view = { λ s. record {
      given = take s.at s.content.items;
      left = drop s.at s.content.items;
      cuts = s.cuts.items;
      fails = s.fails.items;
      calls = s.calls;
      faults = s.faults;
      ended = s.ended;
    } };

    ghost invariant = { λ s. s.at ≤ length s.content.items };
}

impl MemSource {
    /// A source that gives `content`. Its call number i, counted from 0, fails where i is in `fails`, and else gives at
    /// most `cuts[i]` octets, where a cut of 0 is read as 1, and as many as there is room for where there is no
    /// `cuts[i]`.
    pub fn new(content: Vec<u8>, cuts: Vec<usize>, fails: Vec<usize>) -> MemSource
        ensures state { result ≡ source_of content.items cuts.items fails.items }
        ensures given { ⟦<MemSource as Source>⟧.given result ≡ Some [] }
        ensures left { ⟦<MemSource as Source>⟧.left result ≡ Some content.items }
        ensures ended { ⟦<MemSource as Source>⟧.ended result ≡ false }
        ensures faults { ⟦<MemSource as Source>⟧.faults result ≡ 0 }
    {
        MemSource {
            content,
            cuts,
            fails,
            at: 0,
            calls: 0,
            faults: 0,
            ended: false,
        }
    }

    /// How often it was read so far, up to 2^64-1.
    pub fn calls(&self) -> u64
        ensures { result ≡ self.now.calls }
    {
        self.calls as u64
    }
}

// The most octets that the call of this number may give where there is room for `room`.
fn most_at(cuts: &[usize], call: usize, room: usize) -> usize
    ensures { result ≡ most_of (slice_get cuts.now call) room }
{
    match cuts.get(call) {
        Some(cut) => (*cut).max(1),
        None => room,
    }
}

impl Source for MemSource {
    ghost given = { λ s. Some s.given };

    ghost left = { λ s. Some s.left };

    ghost ended = { λ s. s.ended };

    ghost faults = { λ s. s.faults };

    ghost is_last = { λ s. s.faults ≡ last_count };

    fn read(&mut self, buf: &mut [u8]) -> Result<usize, Failed>
        ensures bound { ReadsAtMost result buf.new }
        ensures given { Some self.new.given ≡ append_known (Some self.old.given) (moved result buf.new) }
        ensures left { Some self.old.left ≡ prepend_known (moved result buf.new) (Some self.new.left) }
        ensures ended { self.new.ended ≡ (self.old.ended || is_nothing result buf.new) }
        ensures end { IsTrue (is_nothing result buf.new) → IsAtEnd (Some self.new.left) }
        ensures cause { HasCause self.old.faults self.new.faults (self.new.faults ≡ last_count) result }

        // Which call fails, and how many octets each other call gives.
        ensures answer { result ≡ given_by self.old (length buf.old) }
        ensures state { self.new ≡ after_read self.old (length buf.old) }
    {
        let call = self.calls;
        self.calls = self.calls.saturating_add(1);
        if self.fails.contains(&call) {
            self.faults = self.faults.saturating_add(1);
            return Err(Failed);
        }
        let left = self.content.len() - self.at;
        let count = left
            .min(most_at(&self.cuts, call, buf.len()))
            .min(buf.len());
        buf[..count].copy_from_slice(&self.content[self.at..self.at + count]);
        self.at += count;
        self.ended = self.ended | ((count == 0) & !buf.is_empty());
        Ok(count)
    }
}

/// A list of octets that grows up to a room.
#[derive(Drop)]
pub struct MemSink {
    octets: Vec<u8>,
    room: usize,
    fails: Vec<usize>,
    calls: usize,
    faults: u64,
}

impl Model for MemSink {
    ghost use Rattle.std.specs.Prelude.{length, ◌≤◌, vec_capacity};
    ghost use Rattle.tm_base.specs.SinkInMemory.{SinkState};

    ghost Value = { SinkState };

    ghost view = { λ s. record {
      octets = s.octets.items;
      room = s.room;
      fails = s.fails.items;
      calls = s.calls;
      faults = s.faults;
    } };

    ghost invariant = { λ s. (length s.octets.items ≤ s.room) × (s.room ≤ vec_capacity s.octets) };
}

impl MemSink {
    /// A sink that takes up to `room` octets; it takes the memory for them here. Its call number i, counted from 0,
    /// fails where i is in `fails`. `NoMemory` comes where there is no memory for the room.
    pub fn new(alloc: Global, room: usize, fails: Vec<usize>) -> Result<MemSink, NoMemory>
        ensures state { IfOk result (λ sink. sink ≡ sink_of room fails.items) }
        ensures taken { IfOk result (λ sink. ⟦<MemSink as Sink>⟧.taken sink ≡ Some []) }
        ensures faults { IfOk result (λ sink. ⟦<MemSink as Sink>⟧.faults sink ≡ 0) }
    {
        match Vec::with_capacity(alloc, room) {
            Ok(octets) => Ok(MemSink {
                octets,
                room,
                fails,
                calls: 0,
                faults: 0,
            }),
            Err(_) => Err(NoMemory),
        }
    }

    /// The octets that it has taken.
    pub fn octets(&self) -> &[u8]
        ensures says { ⟦<MemSink as Sink>⟧.taken self.now ≡ Some result.now }
        ensures octets { result.now ≡ self.now.octets }
    {
        &self.octets
    }

    /// How often it was written to so far, up to 2^64-1.
    pub fn calls(&self) -> u64
        ensures { result ≡ self.now.calls }
    {
        self.calls as u64
    }
}

// Appends a piece that fits into the memory taken.
fn append(octets: &mut Vec<u8>, piece: &[u8])
    requires { vec_len octets.old + length piece.now ≤ vec_capacity octets.old }
    ensures items { octets.new.items ≡ octets.old.items ++ piece.now }
    ensures capacity { vec_capacity octets.old ≤ vec_capacity octets.new }
{
    for octet in piece {
        octets.push(*octet).unwrap();
    }
}

// The count of faults after a write that took nothing, or one that took something.
fn raised_where(stalled: bool, faults: u64) -> u64
    ensures { result ≡ (if stalled then raised_by 1 faults else faults) }
{
    if stalled {
        faults.saturating_add(1)
    } else {
        faults
    }
}

impl Sink for MemSink {
    ghost taken = { λ s. Some s.octets };

    ghost faults = { λ s. s.faults };

    ghost is_last = { λ s. s.faults ≡ last_count };

    fn write(&mut self, piece: &[u8]) -> Result<usize, Failed>
        ensures bound { WritesAtMost result piece.now }
        ensures taken { Some self.new.octets ≡ append_known (Some self.old.octets) (moved result piece.now) }
        ensures cause { HasWriteCause self.old.faults self.new.faults (self.new.faults ≡ last_count) result piece.now }

        // Which call fails, and how many octets each other call takes.
        ensures answer { result ≡ taken_by self.old piece.now }
        ensures state { self.new ≡ after_write self.old piece.now }
    {
        let call = self.calls;
        self.calls = self.calls.saturating_add(1);
        if self.fails.contains(&call) {
            self.faults = self.faults.saturating_add(1);
            return Err(Failed);
        }
        let count = piece.len().min(self.room - self.octets.len());
        self.faults = raised_where(count == 0 && !piece.is_empty(), self.faults);
        append(&mut self.octets, &piece[..count]);
        Ok(count)
    }
}
