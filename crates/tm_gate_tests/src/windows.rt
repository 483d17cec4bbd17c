// Windows of the inner code that are decoded side by side, and looks for slips before windows that are made so: where
// there is enough to share out, and not where there is a little less. All symbols are 0.
use crate::gates::{Holding, gate_that_holds};
use std::alloc::Global;
use std::process::Abort;
use std::sync::atomic::Ordering;
use std::test::Fail;
use std::thread::Threads;
use tm_conv::Rate;
use tm_viterbi::{Start, WindowDecoder, WindowShape};
use tm_windows::{
    Candidate, Crew, Looks, QueueSettings, WindowQueue, WindowRun, decode_shared, first_drop_shared,
};

// Shares out as the program's threads do, and has them enter a gate.
#[derive(Drop)]
struct Gated<'a, R: Threads + Sync> {
    rt: &'a R,
    gate: &'a Holding,
}

impl<'a, R: Threads + Sync> Crew for Gated<'a, R> {
    ghost use Rattle.std.specs.Thread.{IsSync};

    ghost is_ready = { λ crew. IsSync R.row };

    ghost share = { λ crew workers. workers };

    fn share(&self, workers: usize) -> usize {
        workers
    }

    fn decode(
        &self,
        decoders: &mut [WindowDecoder],
        candidates: &mut [Candidate],
        run: &WindowRun<'_>,
    ) {
        decode_shared(self.rt, self.gate, decoders, candidates, run);
    }

    fn first_drop(&self, looks: &Looks<'_>, workers: usize, first: usize, last: usize) -> usize {
        first_drop_shared(self.rt, self.gate, looks, workers, first, last)
    }
}

// Windows at rate 1/2.
#[derive(Clone, Copy)]
struct Windows {
    count: usize,
    keep: usize,
    ahead: usize,
    follow: bool,
}

// Has `workers` workers decode as many of these windows together as there is room for, and enter the gate where they
// share them out. Returns how many.
fn decode<R: Abort + Threads + Sync>(
    rt: &R,
    alloc: Global,
    gate: &Holding,
    windows: &Windows,
    workers: u8,
) -> Result<usize, Fail> {
    let Windows {
        count,
        keep,
        ahead,
        follow,
    } = *windows;
    assert!(rt; 64 <= keep && keep <= 8192 && ahead <= 64 && count <= 1024);
    assert!(rt; 0 < workers && workers <= 64);
    let shape = WindowShape {
        rate: Rate::R12,
        invert: false,
        keep,
        ahead,
    };
    let settings = QueueSettings {
        shape,
        start: Start::Zero,
        find: false,
        follow,
    };
    let mut queue = WindowQueue::open(alloc, settings, workers, u64::MAX)?;
    let octets = vec![in alloc; 0; 2 * (count * keep + ahead + 1)]?;
    queue.fill(false, octets.as_slice());
    Ok(queue.decode(&Gated { rt, gate }))
}

// How many windows two workers decode together, and whether one of them is held at number `number`, and freed by
// `others` others.
fn freed<R: Abort + Threads + Sync>(
    rt: &R,
    alloc: Global,
    windows: &Windows,
    number: u32,
    others: u64,
) -> Result<(usize, bool), Fail> {
    let gate = gate_that_holds(number, others);
    let together = decode(rt, alloc, &gate, windows, 2)?;
    Ok((together, gate.freed.load(Ordering::SeqCst) == 1))
}

// Eight windows of 8,192 steps, of which one is held until all of the other parts have entered, and those before it in
// its own.
#[test]
fn windows_are_decoded_in_even_parts(rt: HostRuntime) -> Result<(), Fail> {
    let windows = Windows {
        count: 8,
        keep: 8_192,
        ahead: 64,
        follow: false,
    };
    for (workers, part) in [(2u8, 4u32), (4, 2)] {
        assert!(rt; 0 < part && part <= 8);
        for held in 0..8u32 {
            let gate = gate_that_holds(held, u64::from(8 - part + held % part));
            assert!(rt; decode(&rt, rt.alloc(), &gate, &windows, workers)? == 8);
            assert!(rt; gate.freed.load(Ordering::SeqCst) == 1);
        }
    }
    Ok(())
}

// How many windows, the steps that they keep and those ahead, whether the phase is followed; how many are decoded
// together, one for each worker where fewer than 64 steps are ahead; and whether they are shared out, from 65,536 steps
// on that they keep.
static SHARED: [(usize, usize, usize, bool, usize, bool); 6] = [
    (8, 8_192, 64, false, 8, true),
    (8, 8_192, 64, true, 8, true),
    (8, 8_191, 64, false, 8, false),
    (8, 8_192, 63, false, 2, false),
    (1_024, 64, 64, false, 1_024, true),
    (1_022, 64, 64, false, 1_022, false),
];

#[test]
fn windows_of_enough_steps_are_decoded_side_by_side(rt: HostRuntime) -> Result<(), Fail> {
    for (count, keep, ahead, follow, together, is_shared) in SHARED {
        let windows = Windows {
            count,
            keep,
            ahead,
            follow,
        };
        let others = (count / 2) as u64;
        assert!(rt; freed(&rt, rt.alloc(), &windows, 0, others)? == (together, is_shared));
    }
    Ok(())
}

// Before so few windows of so few steps looks alone are shared out: those before windows 64 to 127, which are just
// enough, and of which 32 fall to each worker; and one less are too few.
#[test]
fn enough_looks_are_made_side_by_side(rt: HostRuntime) -> Result<(), Fail> {
    let windows = Windows {
        count: 128,
        keep: 64,
        ahead: 64,
        follow: true,
    };
    let fewer = Windows {
        count: 127,
        ..windows
    };
    assert!(rt; freed(&rt, rt.alloc(), &windows, 64, 32)? == (128, true));
    assert!(rt; freed(&rt, rt.alloc(), &fewer, 64, 31)? == (127, false));
    Ok(())
}
