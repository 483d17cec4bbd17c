// Bits or octets in, the places of sync markers out, one at a time.
ghost use Rattle.std.specs.Prelude.{◌≡◌, ◌==◌, ◌<◌, ◌≤◌, ◌+◌, ◌*◌, Bool, List, ◌++◌, length, false, IfNone, IsSome, unwrap_or};
ghost use Rattle.tm_base.specs.Bits.{bits_of};
ghost use Rattle.tm_sync.specs.declared.found.Found.{Found};
ghost use Rattle.tm_sync.specs.Searching.{SearchStandsFor, is_pending};
ghost use Rattle.tm_sync.specs.Bits.{bits_bound};
ghost use Rattle.tm_buffers.specs.Searching.{Finds, NoneSooner, Takes, bits_in, span};
ghost use Rattle.tm_buffers.specs.Buffer.{most_taken};

use tm_sync::{Found, Search};

/// Takes bits from index `from` on, each 0 or any other number for 1, up to the one with which the next place is found
/// and no further, or all of them; none where a place is left that came with the bit before. Returns how many of the
/// array are taken then, and the place. `room` is the search's own.
///
/// The bits given in all, those of the array too, are to be at most 2^63.
pub fn find_in_bits(
    search: &mut Search,
    room: &mut [u8],
    bits: &[u8],
    from: usize,
) -> (usize, Option<Found>)
    requires { from ≤ length bits.now }
    ensures rules { search.new.rules ≡ search.old.rules }
    ensures within { (from ≤ result.0) × (result.0 ≤ length bits.now) }
    ensures all { IfNone result.1 (result.0 ≡ length bits.now) }
    ensures free { IfNone result.1 (is_pending search.new ≡ false) }
    ensures finds { (given : List Bool) (found : List Found) → length given + length bits.now ≤ bits_bound
        → SearchStandsFor search.old room.old given found
        → Finds search.new room.new (given ++ span from result.0 (bits_in bits.now)) found result.1 }
    ensures none_sooner { (given : List Bool) (found : List Found) → length given + length bits.now ≤ bits_bound
        → SearchStandsFor search.old room.old given found
        → NoneSooner search.old.rules given found (bits_in bits.now) from result.0 }
{
    let mut end = from;
    while !search.pending() && end < bits.len() {
        search.push_bit(room, bits[end] != 0);
        end += 1;
    }
    (end, search.next(room))
}

/// Takes the bits of octets, the most significant bit of each octet first, from bit `from` on; all else is as for
/// `find_in_bits`.
pub fn find_in_octets(
    search: &mut Search,
    room: &mut [u8],
    block_bits: u32,
    octets: &[u8],
    from: u64,
) -> (u64, Option<Found>)
    requires block { search.old.rules.block_bits ≡ block_bits }
    requires few { length octets.now ≤ most_taken }
    requires from { from ≤ 8 * length octets.now }
    ensures rules { search.new.rules ≡ search.old.rules }
    ensures within { (from ≤ result.0) × (result.0 ≤ 8 * length octets.now) }
    ensures all { IfNone result.1 (result.0 ≡ 8 * length octets.now) }
    ensures free { IfNone result.1 (is_pending search.new ≡ false) }
    ensures finds { (given : List Bool) (found : List Found) → length given + 8 * length octets.now ≤ bits_bound
        → SearchStandsFor search.old room.old given found
        → Finds search.new room.new (given ++ span from result.0 (bits_of octets.now)) found result.1 }
    ensures none_sooner { (given : List Bool) (found : List Found) → length given + 8 * length octets.now ≤ bits_bound
        → SearchStandsFor search.old room.old given found
        → NoneSooner search.old.rules given found (bits_of octets.now) from result.0 }
{
    let size = 8 * octets.len() as u64;
    let mut taken = from;
    while !search.pending() && taken < size {
        taken += take_some(search, room, block_bits, octets, taken);
    }
    (taken, search.next(room))
}

// Takes some of the bits of octets from bit `from` on, none of which but the last ends a codeblock: whole octets inside
// one, which has `block_bits` bits, and else one bit. Returns how many bits.
fn take_some(search: &mut Search, room: &mut [u8], block_bits: u32, octets: &[u8], from: u64) -> u64
    requires block { search.old.rules.block_bits ≡ block_bits }
    requires few { length octets.now ≤ most_taken }
    requires from { from < 8 * length octets.now }
    requires free { is_pending search.old ≡ false }
    ensures some { 0 < result }
    ensures within { from + result ≤ 8 * length octets.now }
    ensures takes { Takes search.old search.new room.old room.new (bits_of octets.now) from (from + result) }
{
    let first = (from / 8) as usize;
    let whole = whole_octets(search.inside(), block_bits, from % 8).min(octets.len() - first);
    if whole > 0 {
        search.push_octets(&octets[first..first + whole]);
        return 8 * whole as u64;
    }
    search.push_bit(room, octets[first] >> (7 - from % 8) & 1 == 1);
    1
}

// How many whole octets may be taken at a time, where `inside` bits of a codeblock were taken, and `odd` of an octet.
fn whole_octets(inside: Option<u64>, block_bits: u32, odd: u64) -> usize
    ensures { 0 < result → IsSome inside × (unwrap_or inside 0 + 8 * result ≤ block_bits) × (odd ≡ 0) }
{
    match inside {
        Some(count) if odd == 0 => (u64::from(block_bits).saturating_sub(count) / 8) as usize,
        _ => 0,
    }
}
