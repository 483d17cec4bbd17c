// A receiver by itself: what it hands over, and how it stops.
ghost use Rattle.std.specs.Prelude.{◌≡◌};
ghost use Rattle.tm_base.specs.Count.{last_count};

use crate::units::UNIT;
use std::alloc::Global;
use std::process::Abort;
use std::test::Fail;
use std::thread::Threads;
use tm_base::Failed;
use tm_channel::{
    AllError, Alone, Answer, Config, Item, ItemTaker, ItemWatch, NoWatch, OpenGate, Raw, Receiver,
    RecvError, decode_columns_alone, receive_all,
};

// An item that was handed over, with its first answer and the first octet of its frame.
#[derive(Clone, Copy, PartialEq, Eq)]
struct Kept {
    place: u64,
    answer: Option<Answer>,
    octet: Option<u8>,
}

// It takes the phase and the first items, and fails from then on.
#[derive(Drop)]
struct Collector {
    // Its skip and its cost.
    phase: Option<(u8, u64)>,
    kept: Vec<Kept>,
    room: usize,
    faults: u64,
}

impl Collector {
    fn new(alloc: Global, room: usize) -> Collector {
        Collector {
            phase: None,
            kept: Vec::new(alloc),
            room,
            faults: 0,
        }
    }

    // Keeps an item, where there is room.
    fn keep(&mut self, item: &Item<'_>) -> bool
        ensures { self.new.faults ≡ self.old.faults }
    {
        let kept = Kept {
            place: item.place,
            answer: item.answers.first().copied(),
            octet: item.frame.first().copied(),
        };
        self.kept.len() < self.room && self.kept.push(kept).is_ok()
    }
}

impl ItemTaker for Collector {
    ghost faults = { λ c. c.faults };

    ghost is_last = { λ c. c.faults ≡ last_count };

    ghost took = { λ before item now. Unit {0} };

    ghost broke = { λ before item now. Unit {0} };

    ghost took_phase = { λ before skip cost now. Unit {0} };

    ghost broke_phase = { λ before skip cost now. Unit {0} };

    fn item(&mut self, item: &Item<'_>) -> Result<(), Failed> {
        if self.keep(item) {
            return Ok(());
        }
        self.faults = self.faults.saturating_add(1);
        Err(Failed)
    }

    fn phase(&mut self, skip: u8, cost: u64) -> Result<(), Failed> {
        self.phase = Some((skip, cost));
        Ok(())
    }
}

impl ItemWatch for Collector {
    ghost took = { λ before item now. Unit {0} };

    ghost took_phase = { λ before skip cost now. Unit {0} };

    fn item(&mut self, item: &Item<'_>) {
        let _ = self.keep(item);
    }

    fn phase(&mut self, skip: u8, cost: u64) {
        self.phase = Some((skip, cost));
    }
}

// Of the codeword of one symbol after the marker.
const FIRST: Kept = Kept {
    place: 0,
    answer: Some(Answer::Fixed(0)),
    octet: Some(0x7B),
};

// Frames of one octet with no inner code, whose phase is to be found, and which are not randomized.
fn config() -> Result<Config, Fail> {
    Ok(Config::check(&Raw {
        length: Some(1),
        inner: 0,
        randomize: 0,
        phase: 1,
        ..Raw::default()
    })?)
}

fn open(alloc: Global) -> Result<Receiver, Fail> {
    Ok(Receiver::open(alloc, config()?)?)
}

// The receiver's calls, of which the tests know nothing.
fn feed(
    rt: &(impl Threads + Sync),
    receiver: &mut Receiver,
    octets: &[u8],
    taker: &mut Collector,
) -> Result<(), RecvError> {
    receiver.feed(rt, octets, taker, &OpenGate)
}

fn finish(
    rt: &(impl Threads + Sync),
    receiver: &mut Receiver,
    taker: &mut Collector,
) -> Result<u64, RecvError> {
    Ok(receiver.finish(rt, taker, &OpenGate)?.bits)
}

fn receive(
    rt: &(impl Threads + Sync),
    alloc: Global,
    config: Config,
    octets: &[u8],
    taker: &mut Collector,
) -> Result<u64, AllError> {
    Ok(receive_all(rt, alloc, config, octets, taker)?.bits)
}

fn feed_alone(receiver: &mut Receiver, octets: &[u8], taker: &mut Collector) -> bool {
    let decoder = |config: &Config, words: &mut [_]| decode_columns_alone(config, words);
    receiver.receive(&Alone, &decoder, octets, &mut NoWatch, taker)
}

fn finish_alone(receiver: &mut Receiver, taker: &mut Collector) -> Option<u64> {
    let decoder = |config: &Config, words: &mut [_]| decode_columns_alone(config, words);
    match receiver.end(&Alone, &decoder, &mut NoWatch, taker) {
        Some(totals) => Some(totals.bits),
        None => None,
    }
}

// The phase of bits and the one item were taken.
fn check_taken(rt: &impl Abort, taker: &Collector) {
    assert!(rt; taker.phase == Some((0, 0)));
    assert!(rt; taker.kept.as_slice() == [FIRST].as_slice());
}

// A receiver that has stopped takes no octets, and has no end.
fn check_stopped(
    rt: &(impl Abort + Threads + Sync),
    receiver: &mut Receiver,
    taker: &mut Collector,
) {
    assert!(rt; feed(rt, receiver, &UNIT, taker) == Err(RecvError::Stopped));
    assert!(rt; finish(rt, receiver, taker) == Err(RecvError::Stopped));
}

#[test]
fn octets_are_received_in_pieces(rt: HostRuntime) -> Result<(), Fail> {
    check_pieces(
        &rt,
        &mut open(rt.alloc())?,
        &mut Collector::new(rt.alloc(), 9),
    )
}

fn check_pieces(
    rt: &(impl Abort + Threads + Sync),
    receiver: &mut Receiver,
    taker: &mut Collector,
) -> Result<(), Fail> {
    for piece in UNIT.chunks(1) {
        feed(rt, receiver, piece, taker)?;
    }
    assert!(rt; finish(rt, receiver, taker) == Ok(296));
    check_taken(rt, taker);
    check_stopped(rt, receiver, taker);
    Ok(())
}

#[test]
fn octets_are_received_without_threads(rt: HostRuntime) -> Result<(), Fail> {
    check_alone(
        &rt,
        &mut open(rt.alloc())?,
        &mut Collector::new(rt.alloc(), 9),
    );
    Ok(())
}

fn check_alone(rt: &impl Abort, receiver: &mut Receiver, taker: &mut Collector) {
    assert!(rt; feed_alone(receiver, &UNIT, taker));
    assert!(rt; finish_alone(receiver, taker) == Some(296));
    check_taken(rt, taker);
}

#[test]
fn octets_are_received_at_once(rt: HostRuntime) -> Result<(), Fail> {
    let mut taker = Collector::new(rt.alloc(), 9);
    assert!(rt; receive(&rt, rt.alloc(), config()?, &UNIT, &mut taker) == Ok(296));
    check_taken(&rt, &taker);
    Ok(())
}

#[test]
fn a_taker_that_fails(rt: HostRuntime) -> Result<(), Fail> {
    check_fault(
        &rt,
        &mut open(rt.alloc())?,
        &mut Collector::new(rt.alloc(), 0),
    )
}

fn check_fault(
    rt: &(impl Abort + Threads + Sync),
    receiver: &mut Receiver,
    taker: &mut Collector,
) -> Result<(), Fail> {
    feed(rt, receiver, &UNIT, taker)?;
    assert!(rt; finish(rt, receiver, taker) == Err(RecvError::Taker));
    check_stopped(rt, receiver, taker);
    Ok(())
}
