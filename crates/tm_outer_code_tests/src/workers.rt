// Worked batches. They hold whatever memory is refused.
use crate::generators::OF_16;
use std::sync::atomic::{AtomicU64, Ordering};
use std::test::Fail;
use tm_gf256::Gf;
use tm_rs::{Answer, ErasedAnswer};
use tm_rs_code::Params;
use tm_workers::{
    ErasedWord, Gate, OpenGate, Word, decode_all, decode_batch, decode_erased_batch, split_evenly,
};

// The codeword with its first symbols wrong, before symbols that are no part of it.
fn symbols_with(wrong: usize) -> [Gf; 255] {
    let mut symbols = [Gf(0x55); 255];
    for i in 0..33 {
        symbols[i] = Gf(OF_16[i] ^ u8::from(i < wrong));
    }
    symbols
}

fn word(wrong: usize) -> Word {
    Word {
        symbols: symbols_with(wrong),
        answer: None,
    }
}

fn decoded(wrong: usize, answer: Answer) -> Word {
    Word {
        symbols: symbols_with(wrong),
        answer: Some(answer),
    }
}

#[test]
fn each_word_is_decoded_in_its_place(rt: HostRuntime) -> Result<(), Fail> {
    let Ok(params) = Params::new(16, 33) else {
        panic!(rt; "no code")
    };
    for workers in [1u8, 2, 3, 5, 64] {
        let mut words = [word(0), word(16), word(17), word(1), word(4)];
        decode_batch(&rt, rt.alloc(), &params, 16, &mut words, workers, &OpenGate);
        let outcome = [
            decoded(0, Answer::Fixed(0)),
            decoded(0, Answer::Fixed(16)),
            decoded(17, Answer::Beyond),
            decoded(0, Answer::Fixed(1)),
            decoded(0, Answer::Fixed(4)),
        ];
        assert!(rt; words == outcome);
    }
    Ok(())
}

// The first 17 symbols are wrong, which is too many without two of them erased.
#[test]
fn each_word_is_decoded_with_its_own_erased_places(rt: HostRuntime) -> Result<(), Fail> {
    let Ok(params) = Params::new(16, 33) else {
        panic!(rt; "no code")
    };
    let plain = ErasedWord {
        symbols: symbols_with(17),
        erased: [false; 255],
        answer: None,
    };
    let mut erased = plain;
    erased.erased[0] = true;
    erased.erased[1] = true;
    for workers in [1u8, 2, 64] {
        let mut words = [plain, erased, plain];
        decode_erased_batch(&rt, rt.alloc(), &params, 16, &mut words, workers, &OpenGate);
        for i in [0usize, 2] {
            assert!(rt; words[i].answer == Some(ErasedAnswer::Beyond));
            assert!(rt; words[i].symbols == symbols_with(17) && words[i].erased == plain.erased);
        }
        assert!(rt; words[1].answer == Some(ErasedAnswer::Fixed(15, 2)));
        assert!(rt; words[1].symbols == symbols_with(0) && words[1].erased == erased.erased);
    }
    Ok(())
}

// Adds up a power of two for each number that enters.
#[derive(Drop)]
struct Noting {
    entered: AtomicU64,
}

impl Gate for Noting {
    fn enter(&self, index: u32) {
        self.entered.fetch_add(1 << (index % 64), Ordering::SeqCst);
    }
}

// A word with its number, which tells, once it is decoded, whether the number had entered.
#[derive(Clone, Copy)]
struct Watched {
    number: u32,
    had_entered: bool,
}

fn watch(gate: &Noting, word: &mut Watched) {
    let entered = gate.entered.load(Ordering::SeqCst);
    word.had_entered = (entered >> (word.number % 64)) % 2 == 1;
}

#[test]
fn each_number_enters_once_and_before_its_word_is_decoded(rt: HostRuntime) -> Result<(), Fail> {
    for is_drawn in [false, true] {
        let gate = Noting {
            entered: AtomicU64::new(0),
        };
        let unseen = Watched {
            number: 0,
            had_entered: false,
        };
        let mut words = [unseen; 6];
        for number in 0..6u32 {
            words[number as usize].number = number;
        }
        let watching = |word: &mut Watched| watch(&gate, word);
        if is_drawn {
            decode_all(&rt, rt.alloc(), &watching, &mut words, 4, &gate);
        } else {
            split_evenly(&rt, &gate, &watching, 0, 4, &mut words);
        }
        for word in &words {
            assert!(rt; word.had_entered);
        }
        assert!(rt; gate.entered.load(Ordering::SeqCst) == 63);
    }
    Ok(())
}

// Adds up how many numbers enter, and the numbers.
#[derive(Drop)]
struct Adding {
    entered: AtomicU64,
    sum: AtomicU64,
}

impl Gate for Adding {
    fn enter(&self, index: u32) {
        self.entered.fetch_add(1, Ordering::SeqCst);
        self.sum.fetch_add(u64::from(index), Ordering::SeqCst);
    }
}

// Two workers have 2,048 words a start. A word is how often it was decoded.
#[test]
fn each_start_goes_on_with_the_numbers(rt: HostRuntime) -> Result<(), Fail> {
    let count = |times: &mut u32| *times = times.saturating_add(1);
    for workers in [1u8, 2, 3] {
        let gate = Adding {
            entered: AtomicU64::new(0),
            sum: AtomicU64::new(0),
        };
        let mut words = [0u32; 2052];
        decode_all(&rt, rt.alloc(), &count, &mut words, workers, &gate);
        assert!(rt; gate.entered.load(Ordering::SeqCst) == 2052);
        assert!(rt; gate.sum.load(Ordering::SeqCst) == 2_104_326);
        for times in &words {
            assert!(rt; *times == 1);
        }
    }
    Ok(())
}
