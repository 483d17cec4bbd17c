// The bits of a stream that are not passed yet.
ghost use Rattle.std.specs.Prelude.{◌≡◌, ◌<◌, ◌≤◌, ◌+◌, ◌-◌, ◌*◌, ◌/◌, ℕ, List, [], ◌∷◌, ◌++◌, drop, take, length, None, IsSome, IsTrue};
ghost use Rattle.tm_base.specs.Bits.{bits_of, bits_of_octet, low_bits, number_of};
ghost use Rattle.tm_base.specs.Marker.{most_tolerance, marker_size};
ghost use Rattle.tm_sync.specs.Places.{Rules, match_of};
ghost use Rattle.tm_sync.specs.Searching.{IsFirstMatch, NoneMatch, TellFar};
ghost use Rattle.tm_sync.specs.Finding.{Recent, octets_bound};

use crate::search::{is_far, window};
use std::marker::Model;

/// The last bits of a stream, from the first one on that is not passed, in a room of its own. The bits of octets stand
/// in it with the most significant one first.
#[derive(Drop)]
pub struct RecentBits {
    room: Vec<u8>,
    // They are the bits of the room from this one on, up to that one.
    from: usize,
    to: usize,
}

impl Model for RecentBits {
    ghost use Rattle.std.specs.Prelude.{◌≤◌, ◌<◌, ◌*◌, drop, take, length};
    ghost use Rattle.tm_base.specs.Bits.{bits_of};
    ghost use Rattle.tm_sync.specs.Finding.{Recent, octets_bound};

    ghost Value = { Recent };

    ghost view = { λ r. record {
      bits = drop r.from (take r.to (bits_of r.room.items));
      size = length r.room.items;
    } };

    ghost invariant = { λ r. (r.from ≤ r.to) × (r.to ≤ 8 * length r.room.items)
        × (length r.room.items < octets_bound) };
}

impl RecentBits {
    /// No bits, with this room: of fewer than 2^32 octets.
    pub fn new(room: Vec<u8>) -> RecentBits
        requires { length room.items < octets_bound }
        ensures { result ≡ record { bits = []; size = length room.items } }
    {
        RecentBits {
            room,
            from: 0,
            to: 0,
        }
    }

    /// How many bits there are.
    pub fn count(&self) -> usize
        ensures value { result ≡ length self.now.bits }
        ensures few { result ≤ 8 * self.now.size }
        ensures bound { self.now.size < octets_bound }
    {
        self.to - self.from
    }

    /// How many octets fit after the bits, at whichever bit of an octet these begin: as many as the room has, but for
    /// those of the bits and up to one more.
    pub fn free(&self) -> usize
        ensures { result ≡ self.now.size - (length self.now.bits + 14) / 8 }
    {
        self.room.len().saturating_sub((self.count() + 14) / 8)
    }

    /// Passes the first bits.
    pub fn pass(&mut self, count: usize)
        requires { count ≤ length self.old.bits }
        ensures { self.new ≡ record self.old { bits = drop count self.old.bits } }
    {
        self.from += count;
    }

    /// Passes all bits.
    pub fn clear(&mut self)
        ensures { self.new ≡ record self.old { bits = [] } }
    {
        self.from = 0;
        self.to = 0;
    }

    /// The 32 bits after the first `at` ones.
    pub fn word(&self, at: usize) -> u32
        requires { at + marker_size ≤ length self.now.bits }
        ensures { result ≡ number_of (take marker_size (drop at self.now.bits)) }
    {
        word_at(self.room.as_slice(), self.from + at)
    }

    /// Adds the bits of octets after the first `from` ones. The octets must fit.
    pub fn push(&mut self, octets: &[u8], from: usize)
        requires from { from ≤ 8 * length octets.now }
        requires room { length self.old.bits + 8 * length octets.now + 7 ≤ 8 * self.old.size }
        ensures { self.new ≡ record self.old { bits = self.old.bits ++ drop from (bits_of octets.now) } }
    {
        if self.to + 8 * octets.len() > 8 * self.room.len() {
            let first = self.from / 8;
            self.room.copy_within(first..self.to.div_ceil(8), 0);
            self.from -= 8 * first;
            self.to -= 8 * first;
        }
        put_bits(self.room.as_mut_slice(), self.to, octets, from);
        self.to += 8 * octets.len() - from;
    }

    /// Writes octets of the bits after the first `at` ones.
    pub fn copy(&self, at: usize, octets: &mut [u8])
        requires { at + 8 * length octets.old ≤ length self.now.bits }
        ensures length { length octets.new ≡ length octets.old }
        ensures bits { bits_of octets.new ≡ take (8 * length octets.old) (drop at self.now.bits) }
    {
        copy_bits(self.room.as_slice(), self.from + at, octets);
    }

    /// The first of the next `most` bits at which 32 bits match: at most `tolerance` of them, of at most 8, differ from
    /// the marker, or with `either` from the inverted marker. It is `most` where none match.
    pub fn first_near(&self, most: usize, tolerance: u8, either: bool) -> usize
        requires tolerance { tolerance ≤ most_tolerance }
        requires room { most + marker_size ≤ length self.now.bits + 1 }
        ensures most { result ≤ most }
        ensures far { (rules : Rules) (q : ℕ) → rules.tolerance ≡ tolerance → rules.either ≡ either → q < result
            → match_of rules (drop q self.now.bits) ≡ None }
        ensures near { (rules : Rules) → rules.tolerance ≡ tolerance → rules.either ≡ either → result < most
            → IsSome (match_of rules (drop result self.now.bits)) }
    {
        let far = if either {
            31 - 2 * tolerance
        } else {
            32 - tolerance
        };
        far_until(self.room.as_slice(), self.from, most, tolerance + 1, far)
    }
}

// Writes the bits of octets after the first `from` ones into the room, after the first `to` ones there.
fn put_bits(room: &mut [u8], to: usize, octets: &[u8], from: usize)
    requires from { from ≤ 8 * length octets.now }
    requires room { to + 8 * length octets.now ≤ 8 * length room.old }
    requires size { length room.old < octets_bound }
    ensures length { length room.new ≡ length room.old }
    ensures bits { take (to + (8 * length octets.now - from)) (bits_of room.new)
        ≡ take to (bits_of room.old) ++ drop from (bits_of octets.now) }
{
    let first = from.div_ceil(8);
    let begun = 8 * first - from;
    if begun > 0 {
        put_octets(room, to, &[joined(octets[first - 1], 0, begun as u32)]);
    }
    put_octets(room, to + begun, &octets[first..]);
}

// Writes the bits of octets into the room, after the first `to` ones there.
fn put_octets(room: &mut [u8], to: usize, octets: &[u8])
    requires { to + 8 * length octets.now ≤ 8 * length room.old }
    ensures length { length room.new ≡ length room.old }
    ensures bits { take (to + 8 * length octets.now) (bits_of room.new)
        ≡ take to (bits_of room.old) ++ bits_of octets.now }
{
    let at = to / 8;
    let end = at + octets.len();
    let shift = (to % 8) as u32;
    if shift == 0 {
        room[at..end].copy_from_slice(octets);
        return;
    }
    let begun = room[at] >> (8 - shift);
    let last = join(&mut room[at..end], begun, octets, shift);
    room[end] = joined(last, 0, shift);
}

// Writes octets of the bits of the room after the first `at` ones.
fn copy_bits(room: &[u8], at: usize, octets: &mut [u8])
    requires { at + 8 * length octets.old ≤ 8 * length room.now }
    ensures length { length octets.new ≡ length octets.old }
    ensures bits { bits_of octets.new ≡ take (8 * length octets.old) (drop at (bits_of room.now)) }
{
    let first = at / 8;
    let end = first + octets.len();
    let shift = (at % 8) as u32;
    if shift == 0 {
        octets.copy_from_slice(&room[first..end]);
        return;
    }
    join(octets, room[first], &room[first + 1..end + 1], 8 - shift);
}

// Writes octets of the lowest `count` bits of `begun` and of the bits of `octets`. Returns the octet whose lowest
// `count` bits are left.
fn join(joint: &mut [u8], begun: u8, octets: &[u8], count: u32) -> u8
    requires length { length joint.old ≡ length octets.now }
    requires count { count ≤ 8 }
    ensures length { length joint.new ≡ length joint.old }
    ensures bits { low_bits count begun ++ bits_of octets.now ≡ bits_of joint.new ++ low_bits count result }
{
    let mut last = begun;
    for k in 0..octets.len() {
        joint[k] = joined(last, octets[k], count);
        last = octets[k];
    }
    last
}

// The octet of the lowest `count` bits of one octet and the first bits of the next.
fn joined(octet: u8, next: u8, count: u32) -> u8
    requires { count ≤ 8 }
    ensures { low_bits count octet ++ bits_of_octet next ≡ bits_of_octet result ++ low_bits count next }
{
    ((u32::from(octet) * 256 + u32::from(next)) >> count & 0xFF) as u8
}

// The 32 bits of the room after the first `at` ones.
fn word_at(room: &[u8], at: usize) -> u32
    requires { at + marker_size ≤ 8 * length room.now }
    ensures { result ≡ number_of (take marker_size (drop at (bits_of room.now))) }
{
    let octets = &room[at / 8..];
    let word = first_word(octets);
    let shift = (at % 8) as u32;
    if shift == 0 {
        return word;
    }
    window(u64::from(word) * 256 + u64::from(octets[4]), 8 - shift)
}

// The first 32 bits of octets.
fn first_word(octets: &[u8]) -> u32
    requires { 4 ≤ length octets.now }
    ensures { low_bits marker_size result ≡ bits_of (take 4 octets.now) }
{
    u32::from_be_bytes([octets[0], octets[1], octets[2], octets[3]])
}

// The first of `most` bits of the room, from this one on, at which 32 bits match; `most` where none match. They match
// in no way where the number of them that differ from the marker is one of `far` numbers from `too_many` on.
fn far_until(room: &[u8], from: usize, most: usize, too_many: u8, far: u8) -> usize
    requires room { from + most + marker_size ≤ 8 * length room.now + 1 }
    requires size { length room.now < octets_bound }
    ensures most { result ≤ most }
    ensures first { (rules : Rules) → TellFar rules too_many far
        → IsFirstMatch rules (drop from (bits_of room.now)) most result }
{
    let aligned = (8 - from % 8) % 8;
    let first = far_bits(room, from, aligned.min(most), too_many, far);
    if first < aligned {
        return first;
    }
    let octets = far_octets(
        &room[(from + first) / 8..],
        (most - first) / 8,
        too_many,
        far,
    );
    let at = first + 8 * octets;
    at + far_bits(room, from + at, most - at, too_many, far)
}

// The first of `count` bits of the room, from this one on, at which 32 bits match, looked for bit by bit; `count` where
// none match.
fn far_bits(room: &[u8], from: usize, count: usize, too_many: u8, far: u8) -> usize
    requires room { from + count + marker_size ≤ 8 * length room.now + 1 }
    requires size { length room.now < octets_bound }
    ensures most { result ≤ count }
    ensures first { (rules : Rules) → TellFar rules too_many far
        → IsFirstMatch rules (drop from (bits_of room.now)) count result }
{
    for k in 0..count {
        if !is_far(word_at(room, from + k), too_many, far) {
            return k;
        }
    }
    count
}

// How many octets from the first on, at most `count`, have no bit at which 32 bits match.
fn far_octets(octets: &[u8], count: usize, too_many: u8, far: u8) -> usize
    requires { 0 < count → count + 4 ≤ length octets.now }
    ensures count { result ≤ count }
    ensures far { (rules : Rules) → TellFar rules too_many far → NoneMatch rules (8 * result) (bits_of octets.now) }
{
    if count == 0 {
        return 0;
    }
    let mut word = first_word(octets);
    for k in 0..count {
        let bits = u64::from(word) * 256 + u64::from(octets[k + 4]);
        if !are_far(bits, too_many, far) {
            return k;
        }
        word = window(bits, 0);
    }
    count
}

// Whether 32 bits match at none of the first eight of the last 40 bits.
fn are_far(bits: u64, too_many: u8, far: u8) -> bool
    ensures { IsTrue result → (rules : Rules) → TellFar rules too_many far → NoneMatch rules 8 (low_bits 40 bits) }
{
    let mut left: u32 = 8;
    while left > 0 {
        if !is_far(window(bits, left), too_many, far) {
            return false;
        }
        left -= 1;
    }
    true
}
