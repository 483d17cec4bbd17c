// The search inside codeblocks, on worked streams.
ghost use Rattle.std.specs.Prelude.{◌≡◌};
ghost use Rattle.tm_sync.specs.Finding.{IsWhole};

use crate::sync::{Place, place_of};
use std::alloc::{AllocError, Global};
use std::process::Abort;
use std::test::Fail;
use tm_sync::{Columns, Finder, Found, RecentBits};

// Three codeblocks of 136 bits, each a column of 17 symbols of which up to eight wrong ones are corrected. A bit of the
// first is lost.
const LOST: [u8; 63] = [
    0x1A, 0xCF, 0xFC, 0x1D, 0xEE, 0xA3, 0xDE, 0x80, 0x29, 0xCC, 0x85, 0x01, 0xD5, 0x60, 0xCC, 0xD8,
    0x29, 0xEF, 0x2C, 0x4A, 0x96, 0x35, 0x9F, 0xF8, 0x3B, 0xBB, 0x3F, 0x5E, 0x83, 0xFB, 0x1D, 0x35,
    0x08, 0x8E, 0x28, 0xF2, 0x5D, 0x80, 0x6D, 0xCE, 0x32, 0xF0, 0x35, 0x9F, 0xF8, 0x3B, 0x98, 0xE8,
    0xFE, 0x02, 0x9C, 0x9E, 0xDE, 0x30, 0x47, 0x11, 0x19, 0xDE, 0xE6, 0xEC, 0x6F, 0xE4, 0xD2,
];

// A bit of the first is doubled.
const DOUBLED: [u8; 64] = [
    0x1A, 0xCF, 0xFC, 0x1D, 0xEE, 0xA3, 0xDE, 0x80, 0x29, 0xCC, 0x85, 0x30, 0x75, 0x58, 0x33, 0x36,
    0x0A, 0x7B, 0xCB, 0x12, 0xA5, 0x8D, 0x67, 0xFE, 0x0E, 0xEE, 0xCF, 0xD7, 0xA0, 0xFE, 0xC7, 0x4D,
    0x42, 0x23, 0x8A, 0x3C, 0x97, 0x60, 0x1B, 0x73, 0x8C, 0xBC, 0x0D, 0x67, 0xFE, 0x0E, 0xE6, 0x3A,
    0x3F, 0x80, 0xA7, 0x27, 0xB7, 0x8C, 0x11, 0xC4, 0x46, 0x77, 0xB9, 0xBB, 0x1B, 0xF9, 0x34, 0x80,
];

// The first is not sound, and has a marker inside whose own codeblock is not either.
const UNSOUND: [u8; 63] = [
    0x1A, 0xCF, 0xFC, 0x1D, 0xEE, 0xA3, 0x8B, 0xD1, 0xAC, 0xFF, 0xC1, 0xD5, 0xBF, 0xE5, 0x33, 0x6C,
    0x14, 0xF7, 0x96, 0x25, 0x4B, 0x1A, 0xCF, 0x03, 0xE2, 0xDD, 0x9F, 0xAF, 0x41, 0xFD, 0x8E, 0x9A,
    0x84, 0x47, 0x14, 0x79, 0x2E, 0xC0, 0x36, 0xE7, 0x19, 0x78, 0x1A, 0xCF, 0xFC, 0x1D, 0xCC, 0x74,
    0x7F, 0x01, 0x4E, 0x4F, 0x6F, 0x18, 0x23, 0x88, 0x8C, 0xEF, 0x73, 0x76, 0x37, 0xF2, 0x69,
];

// The first is sound, and has a marker in its last eight symbols.
const SOUND: [u8; 55] = [
    0x1A, 0xCF, 0xFC, 0x1D, 0xFF, 0x48, 0x0E, 0xC0, 0x9A, 0x0D, 0x70, 0xBC, 0x8E, 0x1A, 0xCF, 0xFC,
    0x1D, 0xDD, 0x9F, 0xAF, 0x41, 0xFD, 0x8E, 0x9A, 0x84, 0x47, 0x14, 0x79, 0x2E, 0xC0, 0x36, 0xE7,
    0x19, 0x78, 0x1A, 0xCF, 0xFC, 0x1D, 0xCC, 0x74, 0x7F, 0x01, 0x4E, 0x4F, 0x6F, 0x18, 0x23, 0x88,
    0x8C, 0xEF, 0x73, 0x76, 0x37, 0xF2, 0x69,
];

// Of four a bit of the first is lost, the second and third are inverted, and the third has no marker.
const INVERTED: [u8; 84] = [
    0x1A, 0xCF, 0xFC, 0x1D, 0xEE, 0xA3, 0xDE, 0x80, 0x29, 0xCC, 0x85, 0x01, 0xD5, 0x60, 0xCC, 0xD8,
    0x29, 0xEF, 0x2C, 0x4A, 0x97, 0xCA, 0x60, 0x07, 0xC4, 0x44, 0xC0, 0xA1, 0x7C, 0x04, 0xE2, 0xCA,
    0xF7, 0x71, 0xD7, 0x0D, 0xA2, 0x7F, 0x92, 0x31, 0xCD, 0x0F, 0xCA, 0x61, 0xF8, 0x3A, 0x67, 0x17,
    0x01, 0xFD, 0x63, 0x61, 0x21, 0xCF, 0xB8, 0xEE, 0xE6, 0x21, 0x19, 0x13, 0x90, 0x1B, 0x2C, 0x35,
    0x9F, 0xF8, 0x3B, 0x77, 0xCC, 0x99, 0x84, 0xA8, 0x17, 0x49, 0x9A, 0x3A, 0xBA, 0x8F, 0x56, 0xD3,
    0x6A, 0x08, 0xC0, 0x3C,
];

// The next place that a search finds, and whether it is one, where the codeblocks of these are sound.
fn take_next(finder: &mut Finder, recent: &mut RecentBits, sound: &[u64]) -> Option<(Found, bool)>
    requires { IsWhole finder.old recent.old.bits }
    ensures { IsWhole finder.new recent.new.bits }
{
    match finder.next(recent) {
        Some(found) => {
            let taken = finder.take(recent, found, sound.contains(&found.place));
            Some((found, taken))
        }
        None => None,
    }
}

// The places in the octets of a row, and those of markers inside codeblocks where they are looked for.
fn places_in(
    rt: &impl Abort,
    alloc: Global,
    looks_inside: bool,
    row: &Row<'_>,
) -> Result<Vec<Place>, AllocError> {
    assert!(rt; row.octets.len() <= 84);
    let mut recent = RecentBits::new(vec![in alloc; 7; 96]?);
    recent.push(row.octets, 0);
    let columns = if looks_inside {
        Some(Columns {
            stride: 8,
            strength: 8,
        })
    } else {
        None
    };
    let mut finder = Finder::new(0, row.fly, row.either, 136, 0, columns);
    let mut places = Vec::new(alloc);
    for _ in row.octets {
        match take_next(&mut finder, &mut recent, row.sound) {
            Some((found, true)) => places.push(place_of(found))?,
            Some(_) => {}
            None => return Ok(places),
        }
    }
    Ok(places)
}

// Octets, the places whose codeblocks are sound, and what is found by a search with `fly` and `either`: the places, and
// those where markers inside codeblocks are looked for.
#[derive(Drop)]
struct Row<'a> {
    fly: u8,
    either: bool,
    octets: &'a [u8],
    sound: &'a [u64],
    places: &'a [Place],
    inside: &'a [Place],
}

static ROWS: [Row; 5] = [
    Row {
        fly: 0,
        either: false,
        octets: &LOST,
        sound: &[167, 335],
        places: &[(0, 0, false, false), (335, 0, false, false)],
        inside: &[
            (0, 0, false, false),
            (167, 0, false, false),
            (335, 0, false, false),
        ],
    },
    Row {
        fly: 1,
        either: false,
        octets: &DOUBLED,
        sound: &[169, 337],
        places: &[
            (0, 0, false, false),
            (168, 12, true, false),
            (337, 0, false, false),
        ],
        inside: &[
            (0, 0, false, false),
            (168, 12, true, false),
            (169, 0, false, false),
            (337, 0, false, false),
        ],
    },
    Row {
        fly: 1,
        either: false,
        octets: &UNSOUND,
        sound: &[168, 336],
        places: &[
            (0, 0, false, false),
            (168, 16, true, false),
            (336, 0, false, false),
        ],
        inside: &[
            (0, 0, false, false),
            (168, 16, true, false),
            (336, 0, false, false),
        ],
    },
    Row {
        fly: 1,
        either: false,
        octets: &SOUND,
        sound: &[0, 104, 272],
        places: &[(0, 0, false, false), (168, 16, true, false)],
        inside: &[
            (0, 0, false, false),
            (104, 0, false, false),
            (272, 0, false, false),
        ],
    },
    Row {
        fly: 1,
        either: true,
        octets: &INVERTED,
        sound: &[167, 335, 503],
        places: &[
            (0, 0, false, false),
            (168, 21, true, false),
            (503, 0, false, false),
        ],
        inside: &[
            (0, 0, false, false),
            (167, 0, false, true),
            (335, 16, true, true),
            (503, 0, false, false),
        ],
    },
];

#[test]
fn places_with_markers_inside_codeblocks(rt: HostRuntime) -> Result<(), Fail> {
    for row in &ROWS {
        let places = places_in(&rt, rt.alloc(), false, row)?;
        assert!(rt; places.as_slice() == row.places);
        let inside = places_in(&rt, rt.alloc(), true, row)?;
        assert!(rt; inside.as_slice() == row.inside);
    }
    Ok(())
}
