// The search for sync markers: bits or octets in, places out.
ghost use Rattle.std.specs.Prelude.{◌≡◌, ◌==◌, ◌*◌, ◌≤◌, None, Some, IfOk, IfErr, OnOk, length, pos};
ghost use Rattle.tm_base.specs.Bits.{bits_of};
ghost use Rattle.tm_base.specs.Marker.{most_tolerance};
ghost use Rattle.tm_config.specs.Configuration.{most_fly, most_verify};
ghost use Rattle.tm_buffers.specs.Searching.{bits_in};
ghost use Rattle.tm_buffers.specs.Buffer.{most_taken};
ghost use Rattle.tmchan_c.specs.Refusal.{Refuses};
ghost use Rattle.tmchan_c.specs.Searches.{Begins, FindsInto, found_answer, paused_of, place_after, rules_refusal, search_of, span_refusal};

use crate::refusal::Refusal;
use tm_buffers::{find_in_bits, find_in_octets};
use tm_config::ConfigError;
use tm_sync::{Awaited, Before, Found, NO_PLACE, Paused, Search};

// The most octets that are taken at a time.
const MOST: usize = 1 << 40;

// The bounds of a search's rules: how many bits of a marker may be wrong, how many markers in a row missing, and how
// many further ones must match, at most.
const MOST_TOLERANCE: u32 = 8;

const MOST_FLY: u32 = 15;

const MOST_VERIFY: u32 = 7;

/// A search between two calls, as a program in C keeps it, which changes none of it.
#[repr(C)]
#[derive(Clone, Copy)]
pub struct SearchState {
    pub is_open: u64,
    pub pushed: u64,
    pub start: u64,
    pub place: u64,
    pub after: u64,
    pub block_bits: u32,
    pub received: u32,
    pub tolerance: u8,
    pub fly: u8,
    pub either: u8,
    pub verify: u8,
    pub has_before: u8,
    pub before_inverted: u8,
    pub before_bridged: u8,
    pub has_place: u8,
    pub distance: u8,
    pub bridged: u8,
    pub inverted: u8,
    pub next_inverted: u8,
    pub next_bridged: u8,
}

/// The place of a marker, for C.
#[repr(C)]
#[derive(Clone, Copy)]
pub struct PlaceState {
    pub place: u64,
    pub distance: u8,
    pub bridged: u8,
    pub inverted: u8,
}

/// Begins a search. Returns 0, or the reason of the refusal.
#[unsafe(no_mangle)]
pub extern "C" fn tmchan_search_open(
    search: &mut SearchState,
    tolerance: u32,
    fly: u32,
    either: u32,
    block_bits: u32,
    verify: u32,
) -> i32
    ensures refused { Refuses (rules_refusal tolerance fly either verify) result (search.new ≡ search.old) }
    ensures opened { rules_refusal tolerance fly either verify ≡ None → (result ≡ pos 0) × Begins search.new
        × ((search_of search.new).rules ≡ (record {
          tolerance = tolerance;
          fly = fly;
          either = either == 1;
          block_bits = block_bits;
          verify = verify;
        })) }
{
    match rules_refusal(tolerance, fly, either, verify) {
        Some(refusal) => refusal.answer(),
        None => {
            let begun = Search::new(
                tolerance as u8,
                fly as u8,
                either == 1,
                block_bits,
                verify as u8,
            );
            *search = state(&begun.pause());
            0
        }
    }
}

/// Takes bits from number `at` of an array on, each 0 or another number for 1, up to the one with which the next place
/// is found and no further, or all, and says how far it came. `room` is the search's own. Returns 1 where a place is
/// found, whose codeblock is whole, and gives it, and else 0; or the reason of the refusal.
///
/// The bits given in all, those of the array too, are to be at most 2^63.
#[unsafe(no_mangle)]
pub extern "C" fn tmchan_search_bits(
    search: &mut SearchState,
    room: &mut [u8],
    bits: &[u8],
    at: &mut u64,
    place: &mut PlaceState,
) -> i32
    ensures refused { Refuses (span_refusal search.old (length room.old) at.old (length bits.now) (length bits.now))
        result
        ((search.new ≡ search.old) × (room.new ≡ room.old) × (at.new ≡ at.old) × (place.new ≡ place.old)) }
    ensures found { span_refusal search.old (length room.old) at.old (length bits.now) (length bits.now) ≡ None
        → FindsInto search.old search.new room.old room.new at.old at.new (length bits.now)
        (bits_in bits.now) place.old place.new result }
{
    let size = bits.len() as u64;
    match resumed(search, room.len(), *at, bits.len(), size) {
        Err(refusal) => refusal.answer(),
        Ok(mut resumed) => {
            let (end, found) = find_in_bits(&mut resumed, room, bits, *at as usize);
            *search = state(&resumed.pause());
            *at = end as u64;
            report_place(found, place)
        }
    }
}

/// Takes the bits of octets, the most significant bit of each octet first, from bit `at` on; all else is as for
/// `tmchan_search_bits`.
#[unsafe(no_mangle)]
pub extern "C" fn tmchan_search_octets(
    search: &mut SearchState,
    room: &mut [u8],
    octets: &[u8],
    at: &mut u64,
    place: &mut PlaceState,
) -> i32
    ensures refused { Refuses
        (span_refusal search.old (length room.old) at.old (length octets.now) (8 * length octets.now)) result
        ((search.new ≡ search.old) × (room.new ≡ room.old) × (at.new ≡ at.old) × (place.new ≡ place.old)) }
    ensures found { span_refusal search.old (length room.old) at.old (length octets.now) (8 * length octets.now)
        ≡ None
        → FindsInto search.old search.new room.old room.new at.old at.new (8 * length octets.now)
        (bits_of octets.now) place.old place.new result }
{
    let size = 8 * octets.len().min(MOST) as u64;
    match resumed(search, room.len(), *at, octets.len(), size) {
        Err(refusal) => refusal.answer(),
        Ok(mut resumed) => {
            let (end, found) = find_in_octets(&mut resumed, room, search.block_bits, octets, *at);
            *search = state(&resumed.pause());
            *at = end;
            report_place(found, place)
        }
    }
}

// The first reason to refuse the rules of a search, or none.
fn rules_refusal(tolerance: u32, fly: u32, either: u32, verify: u32) -> Option<Refusal>
    ensures value { result ≡ rules_refusal tolerance fly either verify }
    ensures fit { result ≡ None → (tolerance ≤ most_tolerance) × (fly ≤ most_fly)
        × (verify ≤ most_verify) }
{
    if tolerance > MOST_TOLERANCE {
        return Some(Refusal::Value(ConfigError::Tolerance));
    }
    if fly > MOST_FLY {
        return Some(Refusal::Value(ConfigError::Fly));
    }
    if either != 0 && either != 1 {
        return Some(Refusal::Value(ConfigError::Polarity));
    }
    if verify > MOST_VERIFY {
        return Some(Refusal::Value(ConfigError::Verify));
    }
    None
}

// The search that goes on with a room of `room` octets and an array of `count` elements that has `size` bits, from bit
// `at` on; or the first reason to refuse it.
fn resumed(
    search: &SearchState,
    room: usize,
    at: u64,
    count: usize,
    size: u64,
) -> Result<Search, Refusal>
    ensures ok { IfOk result (λ resumed. (span_refusal search.now room at count size ≡ None)
        × (resumed ≡ search_of search.now)) }
    ensures few { OnOk result (count ≤ most_taken) }
    ensures at { OnOk result (at ≤ size) }
    ensures err { IfErr result (λ refusal. span_refusal search.now room at count size ≡ Some refusal) }
{
    if search.is_open != 1 {
        return Err(Refusal::Closed);
    }
    let Some(resumed) = Search::resume(&paused(search)) else {
        return Err(Refusal::Closed);
    };
    if room != resumed.room() || count > MOST || at > size {
        return Err(Refusal::Room);
    }
    Ok(resumed)
}

// Reports a place that was found. Returns 1 where one was, and else 0.
fn report_place(found: Option<Found>, place: &mut PlaceState) -> i32
    ensures answer { result ≡ found_answer found }
    ensures place { place.new ≡ place_after found place.old }
{
    match found {
        Some(found) => {
            *place = PlaceState {
                place: found.place,
                distance: found.distance,
                bridged: u8::from(found.bridged),
                inverted: u8::from(found.inverted),
            };
            1
        }
        None => 0,
    }
}

// What a program in C keeps of a search.
fn state(paused: &Paused) -> SearchState
    ensures paused { paused_of result ≡ paused.now }
    ensures open { result.is_open ≡ 1 }
{
    let none = Before {
        inverted: false,
        bridged: 0,
    };
    let before = paused.before.unwrap_or(none);
    let awaited = paused.awaited.unwrap_or(Awaited {
        found: NO_PLACE,
        next: none,
    });
    SearchState {
        is_open: 1,
        pushed: paused.pushed,
        start: paused.start,
        place: awaited.found.place,
        after: paused.after,
        block_bits: paused.block_bits,
        received: paused.received,
        tolerance: paused.tolerance,
        fly: paused.fly,
        either: u8::from(paused.either),
        verify: paused.verify,
        has_before: u8::from(paused.before.is_some()),
        before_inverted: u8::from(before.inverted),
        before_bridged: before.bridged,
        has_place: u8::from(paused.awaited.is_some()),
        distance: awaited.found.distance,
        bridged: u8::from(awaited.found.bridged),
        inverted: u8::from(awaited.found.inverted),
        next_inverted: u8::from(awaited.next.inverted),
        next_bridged: awaited.next.bridged,
    }
}

// The search that it stands for.
fn paused(search: &SearchState) -> Paused
    ensures { result ≡ paused_of search.now }
{
    Paused {
        tolerance: search.tolerance,
        fly: search.fly,
        either: search.either == 1,
        block_bits: search.block_bits,
        verify: search.verify,
        received: search.received,
        pushed: search.pushed,
        start: search.start,
        before: (search.has_before == 1).then_some(Before {
            inverted: search.before_inverted == 1,
            bridged: search.before_bridged,
        }),
        awaited: (search.has_place == 1).then_some(Awaited {
            found: Found {
                place: search.place,
                distance: search.distance,
                bridged: search.bridged == 1,
                inverted: search.inverted == 1,
            },
            next: Before {
                inverted: search.next_inverted == 1,
                bridged: search.next_bridged,
            },
        }),
        after: search.after,
    }
}
