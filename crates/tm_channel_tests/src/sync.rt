// The search for markers on worked streams.
ghost use Rattle.std.specs.Prelude.{◌≡◌};

use std::alloc::{AllocError, Global};
use std::process::Abort;
use std::test::Fail;
use tm_base::{BitReader, MARKER};
use tm_sync::{Found, Search};

/// A place that was found, as its number of bits before it, how many bits of its marker are wrong, and whether it is
/// bridged, and inverted.
pub type Place = (u64, u8, bool, bool);

pub fn place_of(found: Found) -> Place {
    (found.place, found.distance, found.bridged, found.inverted)
}

// How a search is made, octets, and what comes of them: the places, and how many bits stand after the last one's
// codeblock.
#[derive(Drop)]
struct Row<'a> {
    tolerance: u8,
    fly: u8,
    either: bool,
    verify: u8,
    octets: &'a [u8],
    places: &'a [Place],
    left: u64,
}

// A search for markers without a wrong bit.
const EXACT: Row<'static> = Row {
    tolerance: 0,
    fly: 0,
    either: false,
    verify: 0,
    octets: &[],
    places: &[],
    left: 0,
};

static ROWS: [Row; 5] = [
    // The first place within the tolerance is taken, and not the nearest marker.
    Row {
        tolerance: 1,
        octets: &[0x1A, 0xCF, 0xFC, 0x1C, 0x1A, 0xCF, 0xFC, 0x1D, 0x5A],
        places: &[(0, 1, false, false)],
        left: 32,
        ..EXACT
    },
    Row {
        octets: &[0x1A, 0xCF, 0xFC, 0x1C, 0x1A, 0xCF, 0xFC, 0x1D, 0x5A],
        places: &[(32, 0, false, false)],
        ..EXACT
    },
    // Of two markers in a row that are missing one is bridged.
    Row {
        fly: 1,
        octets: &[
            0x1A, 0xCF, 0xFC, 0x1D, 0x5A, 0, 0, 0, 0, 0x5B, 0, 0, 0, 0, 0x5C, 0x1A, 0xCF, 0xFC,
            0x1D, 0x5D,
        ],
        places: &[
            (0, 0, false, false),
            (40, 19, true, false),
            (120, 0, false, false),
        ],
        ..EXACT
    },
    Row {
        either: true,
        octets: &[0xE5, 0x30, 0x03, 0xE2, 0xA5],
        places: &[(0, 0, false, true)],
        ..EXACT
    },
    // A lone marker, and after it a run of two codeblocks, of which the second marker verifies the first.
    Row {
        verify: 1,
        octets: &[
            0x1A, 0xCF, 0xFC, 0x1D, 0x5A, 0, 0x1A, 0xCF, 0xFC, 0x1D, 0x5B, 0x1A, 0xCF, 0xFC, 0x1D,
            0x5C,
        ],
        places: &[(48, 0, false, false), (88, 0, false, false)],
        ..EXACT
    },
];

#[test]
fn places_of_markers(rt: HostRuntime) -> Result<(), Fail> {
    for row in &ROWS {
        let (found, left) = searched(&rt, rt.alloc(), row)?;
        assert!(rt; found.as_slice() == row.places && left == row.left);
    }
    Ok(())
}

// The places that a search finds, and how many bits stand after the last one's codeblock.
fn searched(
    rt: &impl Abort,
    alloc: Global,
    row: &Row<'_>,
) -> Result<(Vec<Place>, u64), AllocError> {
    assert!(rt; row.tolerance <= 8 && row.octets.len() <= 20);
    let mut search = Search::new(row.tolerance, row.fly, row.either, 8, row.verify);
    let mut room = vec![in alloc; 7; search.room()]?;
    let mut found = Vec::new(alloc);
    let mut bits = BitReader::new(row.octets);
    for _ in 0..8 * row.octets.len() {
        assert!(rt; !search.pending());
        search.push_bit(&mut room, bits.next() == Some(1));
        // No more places are known at once than further markers verify one.
        for _ in 0..row.verify.max(1) {
            match search.next(&room) {
                Some(place) => found.push(place_of(place))?,
                None => {}
            }
        }
    }
    Ok((found, search.finish()))
}

// Pushes an octet where no codeblock of 33 bits becomes whole.
fn push_octet(rt: &impl Abort, search: &mut Search, octet: u8)
    requires block { search.old.rules.block_bits ≡ 33 }
    requires alone { search.old.rules.verify ≡ 0 }
    ensures { search.new.rules ≡ search.old.rules }
{
    assert!(rt; search.inside().unwrap_or(0) <= 25);
    search.push_octet(octet);
}

// Pushes four octets, of which none makes a codeblock of 33 bits whole.
fn push_four(rt: &impl Abort, search: &mut Search, octets: [u8; 4])
    requires block { search.old.rules.block_bits ≡ 33 }
    requires alone { search.old.rules.verify ≡ 0 }
    ensures { search.new.rules ≡ search.old.rules }
{
    push_octet(rt, search, octets[0]);
    push_octet(rt, search, octets[1]);
    push_octet(rt, search, octets[2]);
    push_octet(rt, search, octets[3]);
}

// The first of two codeblocks of 33 bits, so that the second marker begins at the second bit of an octet.
fn check_first(rt: &impl Abort, search: &mut Search)
    requires block { search.old.rules.block_bits ≡ 33 }
    requires alone { search.old.rules.verify ≡ 0 }
    ensures { search.new.rules ≡ search.old.rules }
{
    push_four(rt, search, MARKER);
    assert!(rt; search.inside() == Some(0));
    search.push_octets(&[0xFF, 0x00, 0xFF]);
    search.push_octet(0x00);
    assert!(rt; search.inside() == Some(32));
    search.push_bit(&mut [], true);
}

#[test]
fn octets_are_taken_as_their_bits(rt: HostRuntime) {
    let mut search = Search::new(0, 0, false, 33, 0);
    check_first(&rt, &mut search);
    let found = search.next(&[]).expect(&rt, "a place");
    assert!(rt; place_of(found) == (0, 0, false, false));
    push_four(&rt, &mut search, [0x0D, 0x67, 0xFE, 0x0E]);
    assert!(rt; search.inside() == None);
    push_octet(&rt, &mut search, 0xD5);
    assert!(rt; search.inside() == Some(7));
}
