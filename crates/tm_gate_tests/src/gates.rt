// Workers that are held. A gate waits for nothing: it looks at an atomic word a stated number of times.
use std::sync::atomic::{AtomicU64, Ordering};
use std::test::Fail;
use tm_base::Failed;
use tm_channel::{Item, ItemTaker, Receiver, Totals};
use tm_config::{Config, Raw};
use tm_gf256::Gf;
use tm_rs::{Answer, ErasedAnswer};
use tm_rs_code::Params;
use tm_workers::{ErasedWord, Gate, Word, decode_batch, decode_erased_batch};

pub const SPINS: u64 = 1_000_000_000;

pub const ZEROS: Word = Word {
    symbols: [Gf(0); 255],
    answer: None,
};

pub const ERASED_ZEROS: ErasedWord = ErasedWord {
    symbols: [Gf(0); 255],
    erased: [false; 255],
    answer: None,
};

// Holds the worker that enters with `number` until there were `others` entries with other numbers, and notes in `freed`
// whether these ended the hold.
#[derive(Drop)]
pub struct Holding {
    number: u32,
    others: u64,
    entered: AtomicU64,
    pub freed: AtomicU64,
}

impl Gate for Holding {
    fn enter(&self, index: u32) {
        if index != self.number {
            self.entered.fetch_add(1, Ordering::SeqCst);
            return;
        }
        for _ in 0..SPINS {
            if self.entered.load(Ordering::SeqCst) >= self.others {
                self.freed.store(1, Ordering::SeqCst);
                return;
            }
        }
    }
}

pub fn gate_that_holds(number: u32, others: u64) -> Holding {
    Holding {
        number,
        others,
        entered: AtomicU64::new(0),
        freed: AtomicU64::new(0),
    }
}

#[test]
fn two_words_are_decoded_side_by_side(rt: HostRuntime) -> Result<(), Fail> {
    let Ok(params) = Params::new(16, 255) else {
        panic!(rt; "no code")
    };
    let gate = gate_that_holds(0, 1);
    let mut words = [ZEROS; 2];
    decode_batch(&rt, rt.alloc(), &params, 16, &mut words, 2, &gate);
    assert!(rt; gate.freed.load(Ordering::SeqCst) == 1);
    assert!(rt; words[0].answer == Some(Answer::Fixed(0)));
    assert!(rt; words[1].answer == Some(Answer::Fixed(0)));
    Ok(())
}

#[test]
fn whichever_word_is_held_the_other_worker_decodes_the_rest(rt: HostRuntime) -> Result<(), Fail> {
    let Ok(params) = Params::new(16, 255) else {
        panic!(rt; "no code")
    };
    for held in 0..8 {
        let gate = gate_that_holds(held, 7);
        let mut words = [ZEROS; 8];
        decode_batch(&rt, rt.alloc(), &params, 16, &mut words, 2, &gate);
        assert!(rt; gate.freed.load(Ordering::SeqCst) == 1);
    }
    Ok(())
}

#[test]
fn words_with_erased_places_are_drawn_too(rt: HostRuntime) -> Result<(), Fail> {
    let Ok(params) = Params::new(8, 17) else {
        panic!(rt; "no code")
    };
    let gate = gate_that_holds(5, 7);
    let mut words = [ERASED_ZEROS; 8];
    decode_erased_batch(&rt, rt.alloc(), &params, 8, &mut words, 2, &gate);
    assert!(rt; gate.freed.load(Ordering::SeqCst) == 1);
    assert!(rt; words[5].answer == Some(ErasedAnswer::Fixed(0, 0)));
    Ok(())
}

// The sync marker, and after it the codeword of the one data symbol 01 in the dual basis.
const MARKED: [u8; 37] = [
    0x1A, 0xCF, 0xFC, 0x1D, 0x7B, 0x47, 0x32, 0x5F, 0x86, 0x4A, 0x18, 0xA0, 0x78, 0x83, 0xFA, 0xB9,
    0x5C, 0x5F, 0x4F, 0xEC, 0xFE, 0xEC, 0x4F, 0x5F, 0x5C, 0xB9, 0xFA, 0x83, 0x78, 0xA0, 0x18, 0x4A,
    0x86, 0x5F, 0x32, 0x47, 0x7B,
];

// Counts the items.
#[derive(Drop)]
struct Counting {
    count: u64,
}

impl ItemTaker for Counting {
    ghost faults = { λ c. 0 };

    ghost is_last = { λ c. ⊥ };

    ghost took = { λ before item now. Unit {0} };

    ghost broke = { λ before item now. ⊥ };

    ghost took_phase = { λ before skip cost now. Unit {0} };

    ghost broke_phase = { λ before skip cost now. ⊥ };

    fn item(&mut self, _item: &Item<'_>) -> Result<(), Failed> {
        self.count = self.count.saturating_add(1);
        Ok(())
    }

    fn phase(&mut self, _skip: u8, _cost: u64) -> Result<(), Failed> {
        Ok(())
    }
}

// Eight codeblocks are no batch of 32 before the end, and are one of eight as soon as they are there.
#[test]
fn a_receiver_decodes_a_batch_by_all_its_workers(rt: HostRuntime) -> Result<(), Fail> {
    for (batch, count_fed) in [(32, 0), (8, 8)] {
        let link = Raw {
            length: Some(1),
            inner: 0,
            randomize: 0,
            workers: 2,
            batch,
            ..Raw::default()
        };
        let Ok(config) = Config::check(&link) else {
            panic!(rt; "refused")
        };
        let Ok(mut receiver) = Receiver::open(rt.alloc(), config) else {
            panic!(rt; "no memory")
        };
        let gate = gate_that_holds(0, 7);
        let mut counting = Counting { count: 0 };
        for _ in 0..8 {
            assert!(rt; receiver.feed(&rt, &MARKED, &mut counting, &gate) == Ok(()));
        }
        assert!(rt; counting.count == count_fed);
        assert!(rt; (gate.freed.load(Ordering::SeqCst) == 1) == (count_fed == 8));
        let totals = Totals {
            bits: 2368,
            slips: None,
        };
        assert!(rt; receiver.finish(&rt, &mut counting, &gate) == Ok(totals));
        assert!(rt; gate.freed.load(Ordering::SeqCst) == 1);
        assert!(rt; counting.count == 8);
    }
    Ok(())
}

// Where markers are looked for inside codeblocks too, those that stand one right behind another are decoded together,
// before the search asks for the first of them.
#[test]
fn expected_codeblocks_are_decoded_by_all_workers(rt: HostRuntime) -> Result<(), Fail> {
    let link = Raw {
        length: Some(1),
        inner: 0,
        randomize: 0,
        workers: 2,
        batch: 64,
        rescan: 1,
        ..Raw::default()
    };
    let Ok(config) = Config::check(&link) else {
        panic!(rt; "refused")
    };
    let Ok(mut receiver) = Receiver::open(rt.alloc(), config) else {
        panic!(rt; "no memory")
    };
    let gate = gate_that_holds(0, 63);
    let mut counting = Counting { count: 0 };
    let mut octets = [0; 2368];
    for k in 0..64usize {
        octets[37 * k..37 * k + 37].copy_from_slice(&MARKED);
    }
    assert!(rt; receiver.feed(&rt, &octets, &mut counting, &gate) == Ok(()));
    assert!(rt; gate.freed.load(Ordering::SeqCst) == 1);
    assert!(rt; counting.count == 64);
    Ok(())
}

// Those that come one at a time are searched together too. Their bits wait until so many are there that a batch of 256
// might be whole, its codeblocks standing as near as they can: the bits of 74 that stand one right behind another.
#[test]
fn codeblocks_that_come_one_by_one_are_decoded_by_all_workers(rt: HostRuntime) -> Result<(), Fail> {
    let link = Raw {
        length: Some(1),
        inner: 0,
        randomize: 0,
        workers: 2,
        batch: 256,
        rescan: 1,
        ..Raw::default()
    };
    let Ok(config) = Config::check(&link) else {
        panic!(rt; "refused")
    };
    let Ok(mut receiver) = Receiver::open(rt.alloc(), config) else {
        panic!(rt; "no memory")
    };
    let gate = gate_that_holds(0, 73);
    let mut counting = Counting { count: 0 };
    for number in 1..257u64 {
        assert!(rt; receiver.feed(&rt, &MARKED, &mut counting, &gate) == Ok(()));
        assert!(rt; (gate.freed.load(Ordering::SeqCst) == 1) == (number >= 74));
        assert!(rt; (counting.count == 256) == (number == 256));
    }
    Ok(())
}
