// Worked values: the receiver of the inner code, and what is said of the windows of a decoder.
ghost use Rattle.std.specs.Prelude.{◌≡◌, false};

use crate::takers::{Collector, Kept, STEP};
use std::alloc::Global;
use std::process::Abort;
use std::test::Fail;
use tm_config::{Config, Raw};
use tm_inner::{InnerDecoder, InnerEnd, InnerReceiver, Window, inner_all, watch_due, watch_last};
use tm_windows::{Chosen, FeedError};

// Octets, and what comes of them.
#[derive(Drop)]
struct Row<'a> {
    skip: u64,
    phase: u64,
    octets: &'a [u8],
    chosen: Option<(u8, u64)>,
    block: Kept,
}

// One octet is skipped before one step.
static SKIPPED: Row = Row {
    skip: 1,
    phase: 0,
    octets: &[0xAA, 0x80, 0x00],
    chosen: None,
    block: Kept {
        metric: 127,
        first: 1,
        end_state: 32,
        ..STEP
    },
};

#[test]
fn octets_are_skipped(rt: HostRuntime) -> Result<(), Fail> {
    check(&rt, rt.alloc(), &SKIPPED)
}

// An octet before the undisturbed symbols of the marker 1A CF FC 1D, with each second one inverted.
fn octet_and_marker() -> [u8; 65] {
    let symbols: u64 = 0x56081C971AA73D3E;
    let mut octets = [0x00; 65];
    for i in 0..64 {
        if symbols >> (63 - i) & 1 == 1 {
            octets[1 + i] = 0xFF;
        }
    }
    octets
}

#[test]
fn the_phase_is_found(rt: HostRuntime) -> Result<(), Fail> {
    let row = Row {
        skip: 0,
        phase: 1,
        octets: &octet_and_marker(),
        chosen: Some((1, 0)),
        block: Kept {
            steps: 32,
            kept: 32,
            end_state: 46,
            ..STEP
        },
    };
    check(&rt, rt.alloc(), &row)
}

// The octets one by one, and in one call.
fn check(rt: &impl Abort, alloc: Global, row: &Row<'_>) -> Result<(), Fail> {
    let config = Config::check(&Raw {
        skip: row.skip,
        phase: row.phase,
        ..Raw::default()
    })?;
    let mut receiver = InnerReceiver::open(alloc, &config)?;
    check_pieces(rt, &mut receiver, &mut Collector::new(alloc), row)?;
    check_at_once(rt, alloc, &config, row)
}

fn check_at_once(
    rt: &impl Abort,
    alloc: Global,
    config: &Config,
    row: &Row<'_>,
) -> Result<(), Fail> {
    let mut taker = Collector::new(alloc);
    let end = inner_all(alloc, config, row.octets, &mut taker)?;
    check_end(rt, end, &taker, row);
    Ok(())
}

// A finished receiver is stopped.
fn check_pieces(
    rt: &impl Abort,
    receiver: &mut InnerReceiver,
    taker: &mut Collector,
    row: &Row<'_>,
) -> Result<(), Fail> {
    for piece in row.octets.chunks(1) {
        feed(receiver, piece, taker)?;
    }
    let end = finish(receiver, taker)?;
    check_end(rt, end, taker, row);
    assert!(rt; chosen_by(receiver) == row.chosen);
    assert!(rt; feed(receiver, row.octets, taker) == Err(FeedError::Stopped));
    Ok(())
}

// The receiver's calls, of which the tests know nothing.
fn feed(
    receiver: &mut InnerReceiver,
    octets: &[u8],
    taker: &mut Collector,
) -> Result<(), FeedError> {
    receiver.feed(octets, taker)
}

fn finish(receiver: &mut InnerReceiver, taker: &mut Collector) -> Result<InnerEnd, FeedError> {
    receiver.finish(taker)
}

fn chosen_by(receiver: &InnerReceiver) -> Option<(u8, u64)> {
    match receiver.chosen() {
        Some(Chosen { skip, cost }) => Some((skip, cost)),
        None => None,
    }
}

fn check_end(rt: &impl Abort, end: InnerEnd, taker: &Collector, row: &Row<'_>) {
    let wanted = InnerEnd {
        bits: u64::from(row.block.kept),
        slips: None,
        leftover: 0,
    };
    assert!(rt; end == wanted && taker.phase() == row.chosen);
    assert!(rt; taker.kept() == [row.block].as_slice());
}

// Noisy symbols at rate 7/8 after three octets, of which two are skipped, and with octet 65 missing. What is said of
// their windows is by docs/reference, a program outside.
static NOISY: [u8; 180] = [
    0x05, 0xFA, 0xC8, 0x00, 0x00, 0xFF, 0xF9, 0xD6, 0x6B, 0x31, 0x00, 0x22, 0x00, 0xB9, 0x18, 0xFF,
    0xFF, 0xFF, 0xFF, 0x2F, 0x02, 0xDA, 0x18, 0x0B, 0x00, 0xFF, 0x00, 0x13, 0x00, 0x00, 0x24, 0x1A,
    0x46, 0x00, 0xFF, 0x00, 0xFF, 0x00, 0xFF, 0x00, 0xFF, 0xFF, 0x00, 0x00, 0xF5, 0x00, 0x00, 0xEE,
    0x00, 0xFF, 0xFF, 0xCD, 0xFF, 0xC3, 0xD6, 0x00, 0xFF, 0xF5, 0xF1, 0x00, 0xFF, 0x00, 0x00, 0xEB,
    0x36, 0x00, 0xEF, 0xF7, 0x00, 0xFF, 0x63, 0x00, 0xFF, 0xC6, 0x00, 0x1A, 0x16, 0x00, 0xFF, 0xE7,
    0x0B, 0xAA, 0xFF, 0x00, 0xF4, 0xF9, 0xB9, 0x4F, 0x00, 0x39, 0xFF, 0x00, 0x0A, 0x00, 0xFF, 0xFF,
    0xB0, 0x00, 0xFF, 0x19, 0xFF, 0xF4, 0xFF, 0xE9, 0x00, 0x09, 0x00, 0x16, 0x00, 0x26, 0xFF, 0x9B,
    0xD3, 0xFB, 0x35, 0xFF, 0xFF, 0xFF, 0x00, 0xE8, 0xA6, 0xFF, 0x2F, 0x00, 0xFF, 0xF0, 0xFF, 0x61,
    0xFF, 0x3A, 0xFF, 0x22, 0xFF, 0x00, 0xFF, 0x00, 0xFF, 0x00, 0xFF, 0x00, 0xFF, 0x47, 0x68, 0x00,
    0xF9, 0x0B, 0xFF, 0x00, 0xF8, 0x00, 0xD3, 0xC9, 0x2C, 0x00, 0xFF, 0xE1, 0xC6, 0x1E, 0x00, 0xC8,
    0x0C, 0x00, 0xFF, 0xD0, 0x00, 0x05, 0xEE, 0x40, 0x2B, 0x00, 0x07, 0xFF, 0x02, 0xEA, 0x31, 0xDE,
    0xFB, 0x11, 0x2E, 0x00,
];

static NOISY_WINDOWS: [Window; 3] = [
    Window {
        symbol: 3,
        dropped: 0,
        steps: 72,
        kept: 64,
        metric: 1301,
        octets: 74,
        wrong: 1,
        distance: 1164,
        squares: 74558,
    },
    Window {
        symbol: 83,
        dropped: 6,
        steps: 72,
        kept: 64,
        metric: 1636,
        octets: 73,
        wrong: 1,
        distance: 1435,
        squares: 103007,
    },
    Window {
        symbol: 156,
        dropped: 0,
        steps: 21,
        kept: 21,
        metric: 636,
        octets: 24,
        wrong: 1,
        distance: 636,
        squares: 54576,
    },
];

#[test]
fn windows_of_noisy_octets(rt: HostRuntime) -> Result<(), Fail> {
    let config = Config::check(&Raw {
        inner: 78,
        start: 1,
        skip: 2,
        keep: 64,
        ahead: 8,
        phase: 2,
        ..Raw::default()
    })?;
    let mut decoder = InnerDecoder::open(rt.alloc(), &config, 1, 1 << 20)?;
    check_watched(&rt, &mut decoder, &mut Collector::new(rt.alloc()));
    Ok(())
}

fn check_watched(rt: &impl Abort, decoder: &mut InnerDecoder, taker: &mut Collector)
    requires going { decoder.old.has_ended ≡ false }
{
    watch_due(decoder, &NOISY, taker);
    let end = watch_last(decoder, taker);
    assert!(rt; taker.windows() == NOISY_WINDOWS.as_slice());
    assert!(rt; end.slips == Some(1));
}
