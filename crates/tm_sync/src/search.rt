// The search, bit by bit.
ghost use Rattle.std.specs.Prelude.{◌≡◌, ◌<◌, ◌≤◌, ◌^◌, ◌+◌, ◌-◌, ◌*◌, ◌/◌, ◌%◌, ◌↔◌, ◌⊎◌, ℕ, Bool, true, false, List, [], ◌∷◌, ◌++◌, length, take, drop, slice_index_or, IsTrue, IsSome, IfSome, IfNone, Some, None, Option, count_ones, unwrap_or};
ghost use Rattle.std.specs.Option.{option_map};
ghost use Rattle.tm_base.specs.Bits.{number_of, bits_of, bits_of_octet};
ghost use Rattle.tm_base.specs.Marker.{most_tolerance, marker_size};
ghost use Rattle.tm_sync.specs.declared.found.Found.{Found};
ghost use Rattle.tm_sync.specs.declared.found.Before.{Before};
ghost use Rattle.tm_sync.specs.Places.{Rules, wrong_bits, match_of, are_verified, place_polarity, verify_bits, found_at, place_by, places};
ghost use Rattle.tm_sync.specs.Paused.{is_resumable, resumed};
ghost use Rattle.tm_sync.specs.Searching.{Counts, IsNewlyFound, Recalls, Remembers, Searching, SearchStandsFor, TellFar, awaited_at, far_count, end_of, inside_ahead, inside_by, inside_next, inside_of, is_pending, is_right_after, most_inside, waiting_of};
ghost use Rattle.tm_sync.specs.Bits.{bits_bound};

use crate::found::{Awaited, Before, Found, Paused};
use std::marker::Model;
use tm_base::MARKER;

// The most bits of a marker that may be wrong.
const MOST_TOLERANCE: u8 = 8;

/// What a search keeps of the bits that it was given.
#[derive(Drop)]
pub struct Search {
    tolerance: u8,
    fly: u8,
    either: bool,
    block_bits: u32,
    verify: u8,
    // The last 32 bits.
    received: u32,
    // The bits given, and those before the end of the last codeblock found.
    pushed: u64,
    start: u64,
    before: Option<Before>,
    // The first place after that codeblock, and the bits after its marker.
    awaited: Option<Awaited>,
    after: u64,
    // 32 bits match in no way where the number of them that differ from the marker is one of `far` numbers from here
    // on.
    too_many: u8,
    // None while every bit is looked at more closely: a place is awaited, or the next one may be bridged.
    far: u8,
}

impl Model for Search {
    ghost use Rattle.std.specs.Prelude.{◌≡◌, ◌<◌, ◌≤◌, ◌+◌, ◌-◌, None};
    ghost use Rattle.tm_base.specs.Marker.{most_tolerance, marker_size};
    ghost use Rattle.tm_sync.specs.Searching.{Searching, far_count, inside_by};

    ghost Value = { Searching };

    ghost view = { λ s. record {
      rules = record {
        tolerance = s.tolerance;
        fly = s.fly;
        either = s.either;
        block_bits = s.block_bits;
        verify = s.verify;
      };
      pushed = s.pushed;
      received = s.received;
      start = s.start;
      before = s.before;
      awaited = s.awaited;
      after = s.after;
    } };

    ghost invariant = { λ s. (s.after ≤ inside_by s.verify s.block_bits) × (s.tolerance ≤ most_tolerance)
        × (s.too_many ≡ s.tolerance + 1)
        × (0 < s.far → (s.far ≡ far_count s.tolerance s.either) × (s.awaited ≡ None)
        × (s.start + marker_size ≤ s.pushed)) };
}

impl Search {
    /// A search that was given no bits.
    ///
    /// `tolerance` is the most wrong bits, at most 8, with which a marker still matches; `fly` the most places in a row
    /// that are taken though no marker matches there; `either` says whether inverted markers match too; `block_bits` is
    /// the size of a codeblock in bits; and `verify` is how many further markers, each right after the codeblock of the
    /// one before, must match in the same polarity before a place that is searched for is taken.
    pub fn new(tolerance: u8, fly: u8, either: bool, block_bits: u32, verify: u8) -> Search
        requires { tolerance ≤ most_tolerance }
        ensures rules { result.rules ≡ record {
          tolerance = tolerance;
          fly = fly;
          either = either;
          block_bits = block_bits;
          verify = verify;
        } }
        ensures inside { inside_of result ≡ None }
        ensures stands { (room : List ℕ) → length room ≡ verify_bits result.rules → SearchStandsFor result room [] [] }
    {
        Search {
            tolerance,
            fly,
            either,
            block_bits,
            verify,
            received: 0,
            pushed: 0,
            start: 0,
            before: None,
            awaited: None,
            after: 0,
            too_many: tolerance + 1,
            far: 0,
        }
    }

    /// How many octets its room has: one for each bit of as many codeblocks with their markers as verify a place. The
    /// room is handed to the calls that write or read it, and to no others; what it holds before the first does not
    /// matter. Where a place needs no further markers it is empty.
    pub fn room(&self) -> usize
        ensures { result ≡ verify_bits self.now.rules }
    {
        verified_by(self.verify, self.block_bits) as usize
    }

    /// The search that goes on from these values. None where no search has them: where the tolerance is above 8, or
    /// more bits follow a marker than a codeblock has, or those with their markers that verify a place.
    pub fn resume(paused: &Paused) -> Option<Search>
        ensures some { IfSome result (λ search. search ≡ resumed paused.now) }
        ensures valid { IsTrue (is_resumable paused.now) ↔ IsSome result }
    {
        if paused.tolerance > MOST_TOLERANCE
            || paused.after > most_after(paused.verify, paused.block_bits)
        {
            return None;
        }
        Some(Search {
            tolerance: paused.tolerance,
            fly: paused.fly,
            either: paused.either,
            block_bits: paused.block_bits,
            verify: paused.verify,
            received: paused.received,
            pushed: paused.pushed,
            start: paused.start,
            before: paused.before,
            awaited: paused.awaited,
            after: paused.after,
            too_many: paused.tolerance + 1,
            far: 0,
        })
    }

    /// The values that `resume` goes on from.
    pub fn pause(&self) -> Paused
        ensures values { resumed result ≡ self.now }
        ensures valid { IsTrue (is_resumable result) }
    {
        Paused {
            tolerance: self.tolerance,
            fly: self.fly,
            either: self.either,
            block_bits: self.block_bits,
            verify: self.verify,
            received: self.received,
            pushed: self.pushed,
            start: self.start,
            before: self.before,
            awaited: self.awaited,
            after: self.after,
        }
    }

    /// Takes the next bit of the stream. The codeblocks that are whole must have been asked for, by `next`. `room` is
    /// the search's own, of `room()` octets.
    ///
    /// The bits given in all are to be below 2^63.
    #[inline(always)]
    pub fn push_bit(&mut self, room: &mut [u8], bit: bool)
        requires { is_pending self.old ≡ false }
        ensures rules { self.new.rules ≡ self.old.rules }
        ensures more { IfSome (inside_of self.old) (λ count. inside_of self.new ≡ Some (count + 1)) }
        ensures first { IfNone (inside_of self.old) (IsNewlyFound self.new) }
        ensures within { unwrap_or (inside_of self.new) 0 ≤ most_inside self.new.rules }
        ensures size { length room.new ≡ length room.old }
        ensures stands { (bits : List Bool) (found : List Found) → length bits < bits_bound
            → SearchStandsFor self.old room.old bits found
            → SearchStandsFor self.new room.new (bits ++ bit ∷ []) found }
    {
        remember(room, self.pushed, self.received >> 31 == 1);
        self.received = (self.received << 1) | u32::from(bit);
        self.pushed = self.pushed.wrapping_add(1);
        if self.pushed != 0 && is_far(self.received, self.too_many, self.far) {
            return;
        }
        self.far = 0;
        self.look_closer(room);
    }

    /// Takes the next eight bits of the stream, the most significant bit of `octet` first, as eight calls of `push_bit`
    /// do. No codeblock may be whole before the last of them: the one under way lacks eight bits or more, and where
    /// none is under way, a codeblock has eight or more, and no further markers verify a place.
    ///
    /// The bits given in all are to be below 2^63.
    pub fn push_octet(&mut self, octet: u8)
        requires fits { unwrap_or (inside_of self.old) 0 + 8 ≤ self.old.rules.block_bits }
        requires alone { IfNone (inside_of self.old) (self.old.rules.verify ≡ 0) }
        ensures rules { self.new.rules ≡ self.old.rules }
        ensures more { IfSome (inside_of self.old) (λ count. inside_of self.new ≡ Some (count + 8)) }
        ensures first { IfNone (inside_of self.old) (unwrap_or (inside_of self.new) 0 < 8) }
        ensures within { unwrap_or (inside_of self.new) 0 ≤ self.new.rules.block_bits }
        ensures stands { (room : List ℕ) (bits : List Bool) (found : List Found) → length bits + 8 ≤ bits_bound
            → SearchStandsFor self.old room bits found
            → SearchStandsFor self.new room (bits ++ bits_of_octet octet) found }
    {
        match self.awaited {
            Some(_) => self.push_octets(&[octet]),
            None => self.push_bits(octet),
        }
    }

    /// Takes the next octets of a codeblock that is under way and lacks as many bits as they have or more, as
    /// `push_octet` does one by one.
    ///
    /// The bits given in all are to be below 2^63.
    pub fn push_octets(&mut self, octets: &[u8])
        requires inside { IsSome (inside_of self.old) }
        requires fits { unwrap_or (inside_of self.old) 0 + 8 * length octets.now ≤ self.old.rules.block_bits }
        ensures rules { self.new.rules ≡ self.old.rules }
        ensures more { inside_of self.new ≡ Some (unwrap_or (inside_of self.old) 0 + 8 * length octets.now) }
        ensures stands { (room : List ℕ) (bits : List Bool) (found : List Found)
            → length bits + 8 * length octets.now ≤ bits_bound
            → SearchStandsFor self.old room bits found
            → SearchStandsFor self.new room (bits ++ bits_of octets.now) found }
    {
        self.received = last_bits(self.received, octets);
        let count = 8 * octets.len() as u64;
        self.pushed = self.pushed.wrapping_add(count);
        self.after += count;
    }

    // Takes the bits of an octet: at once, or one by one.
    fn push_bits(&mut self, octet: u8)
        requires free { inside_of self.old ≡ None }
        requires alone { self.old.rules.verify ≡ 0 }
        requires fits { 8 ≤ self.old.rules.block_bits }
        ensures rules { self.new.rules ≡ self.old.rules }
        ensures first { unwrap_or (inside_of self.new) 0 < 8 }
        ensures stands { (room : List ℕ) (bits : List Bool) (found : List Found) → length bits + 8 ≤ bits_bound
            → SearchStandsFor self.old room bits found
            → SearchStandsFor self.new room (bits ++ bits_of_octet octet) found }
    {
        if self.pass_octet(octet) {
            return;
        }
        let mut room: [u8; 0] = [];
        let mut left: u32 = 8;
        while left > 0 {
            left -= 1;
            self.push_bit(&mut room, octet >> left & 1 == 1);
        }
    }

    // Takes an octet at once where no place is found with any of its bits: they are too few after a codeblock, or with
    // each of them the last 32 bits match in no way. Returns whether it did.
    fn pass_octet(&mut self, octet: u8) -> bool
        requires free { inside_of self.old ≡ None }
        requires alone { self.old.rules.verify ≡ 0 }
        ensures unchanged { result ≡ false → self.new ≡ self.old }
        ensures rules { self.new.rules ≡ self.old.rules }
        ensures free { inside_of self.new ≡ None }
        ensures stands { IsTrue result → (room : List ℕ) (bits : List Bool) (found : List Found)
            → length bits + 8 ≤ bits_bound
            → SearchStandsFor self.old room bits found
            → SearchStandsFor self.new room (bits ++ bits_of_octet octet) found }
    {
        let since = self.pushed.wrapping_sub(self.start);
        if since < 24 {
            self.received = last_bits(self.received, &[octet]);
            self.pushed = self.pushed.wrapping_add(8);
            return true;
        }
        if self.pushed > u64::MAX - 8 {
            return false;
        }
        let both = u64::from(self.received) * 256 + u64::from(octet);
        let mut left: u32 = 8;
        while left > 0 {
            left -= 1;
            if !is_far(window(both, left), self.too_many, self.far) {
                return false;
            }
        }
        self.received = window(both, 0);
        self.pushed += 8;
        true
    }

    // Takes the last bit, which is counted and in the last 32 bits, where they may be a place or one is awaited.
    #[cold]
    #[inline(never)]
    fn look_closer(&mut self, room: &[u8])
        requires { is_pending self.old ≡ false }
        ensures rules { self.new.rules ≡ self.old.rules }
        ensures more { IfSome (inside_of self.old) (λ count. inside_of self.new ≡ Some (count + 1)) }
        ensures first { IfNone (inside_of self.old) (IsNewlyFound self.new) }
        ensures within { unwrap_or (inside_of self.new) 0 ≤ most_inside self.new.rules }
        ensures stands { (s : Searching) (was : List ℕ) (bit : Bool) (bits : List Bool) (found : List Found)
            → length bits < bits_bound → Counts s self.old bit → Remembers was room.now bits bit
            → SearchStandsFor s was bits found → SearchStandsFor self.new room.now (bits ++ bit ∷ []) found }
    {
        if self.awaited.is_some() {
            self.after += 1;
            return;
        }
        let since = self.pushed.wrapping_sub(self.start);
        if since < 32 {
            return;
        }
        let (awaited, after) = self.place_found(room);
        self.awaited = awaited;
        self.after = after;
        self.far = far_while(
            self.awaited,
            self.start,
            self.pushed,
            self.tolerance,
            self.either,
        );
    }

    // The place that is found with the last bit, which is counted and in the last 32 bits, and the bits after its
    // marker, where none was awaited.
    #[inline(never)]
    fn place_found(&self, room: &[u8]) -> (Option<Awaited>, u64)
        ensures first { (result.1 ≡ 0) ⊎ (result.1 ≡ verify_bits self.now.rules) }
        ensures fresh { IfNone result.0 (result.1 ≡ 0) }
        ensures stands { (s : Searching) (was : List ℕ) (bit : Bool) (bits : List Bool) (found : List Found)
            → length bits < bits_bound → Counts s self.now bit → Remembers was room.now bits bit → s.awaited ≡ None
            → SearchStandsFor s was bits found
            → SearchStandsFor (record self.now { awaited = result.0; after = result.1 }) room.now
            (bits ++ bit ∷ []) found }
    {
        let since = self.pushed.wrapping_sub(self.start);
        if right_after(since, self.before) {
            return (
                place_of(
                    self.received,
                    self.pushed.wrapping_sub(32),
                    self.before,
                    self.tolerance,
                    self.fly,
                    self.either,
                ),
                0,
            );
        }
        let lag = verified_by(self.verify, self.block_bits);
        if since < 32 + lag {
            return (None, 0);
        }
        match self.place_verified(room, lag) {
            Some(awaited) => (Some(awaited), lag),
            None => (None, 0),
        }
    }

    // The place `lag` bits before the last 32, where the markers after it verify it.
    fn place_verified(&self, room: &[u8], lag: u64) -> Option<Awaited>
        requires { lag ≡ verify_bits self.now.rules }
        ensures { (bits : List Bool) (from : ℕ) → Recalls self.now room.now bits from
            → from + marker_size + lag ≤ length bits
            → result ≡ option_map (awaited_at None) (place_by self.now.rules (length bits - (marker_size + lag)) None
            (drop (length bits - (marker_size + lag)) bits)
            (place_polarity self.now.rules None (drop (length bits - (marker_size + lag)) bits))) }
    {
        let received = self.received_at(room, lag);
        let place = self.pushed.wrapping_sub(32 + lag);
        match place_of(received, place, None, self.tolerance, self.fly, self.either) {
            Some(awaited) if self.is_verified(room, awaited.found.inverted) => Some(awaited),
            _ => None,
        }
    }

    // Whether the markers up to the last 32 bits match in this polarity.
    fn is_verified(&self, room: &[u8], inverted: bool) -> bool
        ensures { (bits : List Bool) (from : ℕ) → Recalls self.now room.now bits from
            → from + marker_size + verify_bits self.now.rules ≤ length bits
            → result ≡ are_verified self.now.rules inverted self.now.rules.verify
            (drop (length bits - (marker_size + verify_bits self.now.rules)) bits) }
    {
        let mut left = self.verify;
        while left > 0 {
            left -= 1;
            let received = self.received_at(room, verified_by(left, self.block_bits));
            match polarity_of(wrong_count(received), self.tolerance, self.either) {
                Some(polarity) if polarity == inverted => {}
                _ => return false,
            }
        }
        true
    }

    // The 32 bits that end `back` bits before the last: the last 32, or bits of the room.
    #[inline(never)]
    fn received_at(&self, room: &[u8], back: u64) -> u32
        ensures { (bits : List Bool) (from : ℕ) → Recalls self.now room.now bits from
            → (back ≡ 0) ⊎ ((marker_size ≤ back) × (back ≤ verify_bits self.now.rules))
            → from + marker_size + back ≤ length bits
            → result ≡ number_of (take marker_size (drop (length bits - (marker_size + back)) bits)) }
    {
        if back == 0 || room.is_empty() {
            return self.received;
        }
        let first = self.pushed.wrapping_sub(32).wrapping_sub(back);
        let mut received: u32 = 0;
        for k in 0..32u64 {
            let at = first.wrapping_add(k) % room.len() as u64;
            received = (received << 1) | u32::from(room[at as usize]);
        }
        received
    }

    /// How many bits were given after the marker of the first place after the last codeblock found, upright, inverted
    /// or bridged; None where no place stands there yet, or further markers that are to verify it were not given. Once
    /// they are, these may be the bits of several codeblocks.
    pub fn inside(&self) -> Option<u64>
        ensures count { result ≡ inside_of self.now }
        ensures ahead { (room : List ℕ) (bits : List Bool) (found : List Found)
            → SearchStandsFor self.now room bits found
            → result ≡ inside_ahead self.now.rules bits found }
    {
        match self.awaited {
            Some(_) => Some(self.after),
            None => None,
        }
    }

    /// Whether a codeblock is whole and was not given by `next`.
    pub fn pending(&self) -> bool
        ensures { result ≡ is_pending self.now }
    {
        match self.awaited {
            Some(_) => self.after >= u64::from(self.block_bits),
            None => false,
        }
    }

    /// The next place, once its codeblock is whole. Of places that were verified together each call gives one. `room`
    /// is the search's own.
    pub fn next(&mut self, room: &[u8]) -> Option<Found>
        ensures rules { self.new.rules ≡ self.old.rules }
        ensures pending { IsSome result ↔ IsTrue (is_pending self.old) }
        ensures free { IfNone result (is_pending self.new ≡ false) }
        ensures unchanged { IfNone result (self.new ≡ self.old) }
        ensures whole { IfSome result (λ f. (count : ℕ) × (inside_of self.old ≡ Some count)
            × (self.old.rules.block_bits ≤ count) × (inside_of self.new ≡ inside_next self.old.rules count)) }
        ensures once { IfSome result (λ f. self.old.rules.verify ≡ 0
            → (inside_of self.old ≡ Some self.old.rules.block_bits) × (inside_of self.new ≡ None)) }
        ensures none { IfNone result ((bits : List Bool) (found : List Found)
            → SearchStandsFor self.old room.now bits found → places self.old.rules bits ≡ found) }
        ensures some { IfSome result (λ f. (bits : List Bool) (found : List Found)
            → SearchStandsFor self.old room.now bits found
            → SearchStandsFor self.new room.now bits (found ++ f ∷ [])
            × ((rest : List Found) × (places self.old.rules bits ≡ found ++ f ∷ rest)
            × (length rest ≡ waiting_of self.new))
            × (f.place + marker_size + unwrap_or (inside_of self.old) 0 ≡ length bits)) }
    {
        if !self.pending() {
            return None;
        }
        match self.awaited {
            Some(awaited) => {
                let block = u64::from(self.block_bits);
                let left = self.after - block;
                self.before = Some(awaited.next);
                self.start = awaited.found.place.wrapping_add(32 + block);
                if left < 32 {
                    self.awaited = None;
                    self.after = 0;
                    return Some(awaited.found);
                }
                let received = self.received_at(room, left - 32);
                self.awaited = Some(matched(received, self.start, awaited.found.inverted));
                self.after = left - 32;
                Some(awaited.found)
            }
            None => None,
        }
    }

    /// The number of bits after the last codeblock that is whole, or of all bits where none is.
    pub fn finish(self) -> u64
        ensures { (room : List ℕ) (bits : List Bool) (found : List Found) → length bits < bits_bound
            → SearchStandsFor self room bits found → result ≡ length bits - end_of self.rules (places self.rules bits) }
    {
        if self.pending() {
            let block = u64::from(self.block_bits);
            return (self.after - block) % (32 + block);
        }
        self.pushed.wrapping_sub(self.start)
    }
}

// How many bits `count` codeblocks have with their markers.
fn verified_by(count: u8, block_bits: u32) -> u64
    ensures value { result ≡ count * (marker_size + block_bits) }
    ensures few { result < 2 ^ 42 }
{
    u64::from(count) * (32 + u64::from(block_bits))
}

// The most bits after the marker of a place that was not given yet.
fn most_after(verify: u8, block_bits: u32) -> u64
    ensures { result ≡ inside_by verify block_bits }
{
    if verify == 0 {
        return u64::from(block_bits);
    }
    verified_by(verify, block_bits)
}

// Keeps the bit that leaves the last 32, where `pushed` bits were given.
fn remember(room: &mut [u8], pushed: u64, oldest: bool)
    ensures size { length room.new ≡ length room.old }
    ensures remembers { (bits : List Bool) (bit : Bool) → pushed ≡ length bits
        → (marker_size ≤ length bits → oldest ≡ slice_index_or bits (length bits - marker_size) false)
        → Remembers room.old room.new bits bit }
{
    if !room.is_empty() && pushed >= 32 {
        let at = (pushed - 32) % room.len() as u64;
        room[at as usize] = u8::from(oldest);
    }
}

// The last 32 bits, where they were `received` before these octets.
fn last_bits(received: u32, octets: &[u8]) -> u32
    ensures { (bits : List Bool) → received ≡ number_of bits % 2 ^ marker_size
        → result ≡ number_of (bits ++ bits_of octets.now) % 2 ^ marker_size }
{
    let mut last = received;
    for octet in octets {
        last = (last << 8) | u32::from(*octet);
    }
    last
}

// The 32 of these bits before the last `left` ones.
pub fn window(bits: u64, left: u32) -> u32
    requires { left < 64 }
    ensures { result ≡ bits / 2 ^ left % 2 ^ marker_size }
{
    (bits >> left & 0xFFFF_FFFF) as u32
}

// How many numbers of wrong bits, from one more than the tolerance on, show without a closer look that 32 bits are no
// place: none while a place is awaited, or may directly follow the last codeblock found.
fn far_while(awaited: Option<Awaited>, start: u64, pushed: u64, tolerance: u8, either: bool) -> u8
    requires { tolerance ≤ most_tolerance }
    ensures { 0 < result → (result ≡ far_count tolerance either) × (awaited ≡ None) × (start + marker_size ≤ pushed) }
{
    if awaited.is_some() || pushed < 32 || pushed - 32 < start {
        0
    } else if either {
        31 - 2 * tolerance
    } else {
        32 - tolerance
    }
}

// Whether the last 32 bits match in no way.
pub fn is_far(received: u32, too_many: u8, far: u8) -> bool
    ensures far { IsTrue result → (0 < far) × ((rules : Rules) (bits : List Bool) → TellFar rules too_many far
        → length bits ≡ marker_size → received ≡ number_of bits → match_of rules bits ≡ None) }
    ensures near { result ≡ false → (rules : Rules) (bits : List Bool) → TellFar rules too_many far
        → length bits ≡ marker_size → received ≡ number_of bits → IsSome (match_of rules bits) }
{
    wrong_count(received).wrapping_sub(too_many) < far
}

// Whether the last 32 bits directly follow a codeblock, where `since` bits were given after its end.
fn right_after(since: u64, before: Option<Before>) -> bool
    ensures { result ≡ is_right_after since before }
{
    match before {
        Some(_) => since == 32,
        None => false,
    }
}

// The number of the last 32 bits that differ from the marker.
pub fn wrong_count(received: u32) -> u8
    ensures few { result ≤ marker_size }
    ensures upright { (bits : List Bool) → length bits ≡ marker_size → received ≡ number_of bits
        → result ≡ wrong_bits false bits }
{
    (received ^ u32::from_be_bytes(MARKER)).count_ones() as u8
}

// The polarity in which 32 bits match of which `wrong` differ from the marker.
pub fn polarity_of(wrong: u8, tolerance: u8, either: bool) -> Option<bool>
    requires { wrong ≤ marker_size }
    ensures { (rules : Rules) (bits : List Bool) → rules.tolerance ≡ tolerance → rules.either ≡ either
        → length bits ≡ marker_size → wrong ≡ wrong_bits false bits → result ≡ match_of rules bits }
{
    if wrong <= tolerance {
        return Some(false);
    }
    if !either {
        return None;
    }
    if 32 - wrong <= tolerance {
        return Some(true);
    }
    None
}

// The number of 32 bits that differ from the marker, or from the inverted one, where `wrong` differ from the marker.
pub fn distance_of(wrong: u8, inverted: bool) -> u8
    requires { wrong ≤ marker_size }
    ensures { (bits : List Bool) → length bits ≡ marker_size → wrong ≡ wrong_bits false bits
        → result ≡ wrong_bits inverted bits }
{
    if inverted { 32 - wrong } else { wrong }
}

// The place after `place` bits whose 32 bits are `received`, which match in this polarity.
fn matched(received: u32, place: u64, inverted: bool) -> Awaited
    ensures { (before : Option Before) (bits : List Bool) → length bits ≡ marker_size → received ≡ number_of bits
        → result ≡ awaited_at before (found_at place false inverted bits) }
{
    Awaited {
        found: Found {
            place,
            distance: distance_of(wrong_count(received), inverted),
            bridged: false,
            inverted,
        },
        next: Before {
            inverted,
            bridged: 0,
        },
    }
}

// The place that 32 bits are, after `place` others. `before` is what ends right before them.
fn place_of(
    received: u32,
    place: u64,
    before: Option<Before>,
    tolerance: u8,
    fly: u8,
    either: bool,
) -> Option<Awaited>
    ensures { (rules : Rules) (bits : List Bool) → rules.tolerance ≡ tolerance → rules.fly ≡ fly
        → rules.either ≡ either → length bits ≡ marker_size → received ≡ number_of bits
        → result ≡ option_map (awaited_at before) (place_by rules place before bits (match_of rules bits)) }
{
    let wrong = wrong_count(received);
    match polarity_of(wrong, tolerance, either) {
        Some(inverted) => Some(matched(received, place, inverted)),
        None => match before {
            Some(before) if before.bridged < fly => Some(Awaited {
                found: Found {
                    place,
                    distance: distance_of(wrong, before.inverted),
                    bridged: true,
                    inverted: before.inverted,
                },
                next: Before {
                    inverted: before.inverted,
                    bridged: before.bridged + 1,
                },
            }),
            _ => None,
        },
    }
}
