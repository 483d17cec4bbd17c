// How many workers there are, and how words are shared out among them. A gate waits for nothing: it looks at atomic
// words a stated number of times.
use crate::gates::{ERASED_ZEROS, SPINS, ZEROS, gate_that_holds};
use std::sync::atomic::{AtomicU64, Ordering};
use std::test::Fail;
use tm_gf256::Basis;
use tm_records::{Coding, Records};
use tm_rs_code::Params;
use tm_workers::{Gate, decode_all, decode_batch, decode_erased_batch, split_evenly};

// How long a word stays under way once as many are as there are workers, so that one worker too many would show.
const LINGERING: u64 = 1_000_000;

// How many words are under way, and the most that were at once.
#[derive(Drop)]
struct UnderWay {
    workers: u64,
    now: AtomicU64,
    most: AtomicU64,
}

impl UnderWay {
    fn by(workers: u8) -> UnderWay {
        UnderWay {
            workers: u64::from(workers),
            now: AtomicU64::new(0),
            most: AtomicU64::new(0),
        }
    }

    // Whether at some time as many words as there are workers were under way, and never more.
    fn were_as_many(&self) -> bool {
        self.most.load(Ordering::SeqCst) == self.workers
    }
}

impl Gate for UnderWay {
    // A word is under way until as many words were as there are workers, and a while longer.
    fn enter(&self, _index: u32) {
        let now = self.now.fetch_add(1, Ordering::SeqCst).saturating_add(1);
        self.most.fetch_max(now, Ordering::SeqCst);
        for _ in 0..SPINS {
            if self.most.load(Ordering::SeqCst) >= self.workers {
                break;
            }
        }
        for _ in 0..LINGERING {
            if self.most.load(Ordering::SeqCst) > self.workers {
                break;
            }
        }
        self.now.fetch_sub(1, Ordering::SeqCst);
    }
}

#[test]
fn as_many_words_are_under_way_as_there_are_workers(rt: HostRuntime) -> Result<(), Fail> {
    let at_once = |_word: &mut u8| ();
    for workers in [1u8, 2, 3, 5] {
        let drawn = UnderWay::by(workers);
        decode_all(&rt, rt.alloc(), &at_once, &mut [0; 10], workers, &drawn);
        assert!(rt; drawn.were_as_many());
        let split = UnderWay::by(workers);
        split_evenly(&rt, &split, &at_once, 0, workers, &mut [0; 10]);
        assert!(rt; split.were_as_many());
    }
    Ok(())
}

#[test]
fn a_batch_is_decoded_by_as_many_workers_as_are_asked_for(rt: HostRuntime) -> Result<(), Fail> {
    let Ok(params) = Params::new(8, 17) else {
        panic!(rt; "no code")
    };
    for workers in [1u8, 2, 3, 5] {
        let here = UnderWay::by(workers);
        decode_batch(
            &rt,
            rt.alloc(),
            &params,
            8,
            &mut [ZEROS; 10],
            workers,
            &here,
        );
        assert!(rt; here.were_as_many());
    }
    for workers in [1u8, 2, 3, 5] {
        let here = UnderWay::by(workers);
        decode_erased_batch(
            &rt,
            rt.alloc(),
            &params,
            8,
            &mut [ERASED_ZEROS; 10],
            workers,
            &here,
        );
        assert!(rt; here.were_as_many());
    }
    Ok(())
}

// A word is held until all of the other parts have entered, and those before it in its own.
#[test]
fn parts_are_even(rt: HostRuntime) -> Result<(), Fail> {
    for (workers, part) in [(2u8, 4u32), (4, 2)] {
        assert!(rt; 0 < part && part <= 8);
        for held in 0..8u32 {
            let gate = gate_that_holds(held, u64::from(8 - part + held % part));
            let mut words = [0u8; 8];
            split_evenly(&rt, &gate, &|_word: &mut u8| (), 0, workers, &mut words);
            assert!(rt; gate.freed.load(Ordering::SeqCst) == 1);
        }
    }
    Ok(())
}

// Two workers have 2,048 words a start.
const START: u64 = 2048;

// Holds word 0 until all words of its start have entered, and a while longer, so that a word of the next one would show,
// and notes how many had entered by then. It adds up their numbers.
#[derive(Drop)]
struct FirstStart {
    entered: AtomicU64,
    sum: AtomicU64,
    freed_at: AtomicU64,
}

impl Gate for FirstStart {
    fn enter(&self, index: u32) {
        self.sum.fetch_add(u64::from(index), Ordering::SeqCst);
        self.entered.fetch_add(1, Ordering::SeqCst);
        if index != 0 {
            return;
        }
        for _ in 0..SPINS {
            if self.entered.load(Ordering::SeqCst) >= START {
                break;
            }
        }
        for _ in 0..LINGERING {
            if self.entered.load(Ordering::SeqCst) > START {
                break;
            }
        }
        let entered = self.entered.load(Ordering::SeqCst);
        self.freed_at.store(entered, Ordering::SeqCst);
    }
}

#[test]
fn a_start_is_decoded_whole_before_the_next(rt: HostRuntime) -> Result<(), Fail> {
    let gate = FirstStart {
        entered: AtomicU64::new(0),
        sum: AtomicU64::new(0),
        freed_at: AtomicU64::new(0),
    };
    let mut words = [0u8; 2052];
    decode_all(&rt, rt.alloc(), &|_word: &mut u8| (), &mut words, 2, &gate);
    assert!(rt; gate.freed_at.load(Ordering::SeqCst) == START);
    assert!(rt; gate.entered.load(Ordering::SeqCst) == 2052);
    assert!(rt; gate.sum.load(Ordering::SeqCst) == 2_104_326);
    Ok(())
}

#[test]
fn records_are_decoded_by_all_workers(rt: HostRuntime) -> Result<(), Fail> {
    let Ok(params) = Params::new(8, 17) else {
        panic!(rt; "no code")
    };
    let coding = Coding {
        params,
        basis: Basis::Poly,
        repair: 8,
    };
    let Ok(mut records) = Records::open(rt.alloc(), coding, 2) else {
        panic!(rt; "no memory")
    };
    let gate = gate_that_holds(5, 7);
    assert!(rt; records.take(&[0; 8 * 34]) == 8 * 34);
    records.decode(&rt, &gate);
    assert!(rt; gate.freed.load(Ordering::SeqCst) == 1);
    assert!(rt; records.count() == 8);
    Ok(())
}
