// The decoding of records.
ghost use Rattle.std.specs.Prelude.{◌≡◌, ◌==◌, ◌<◌, ◌≤◌, ◌*◌, not, length, map, take, drop};
ghost use Rattle.tm_base.specs.Limits.{most_workers};
ghost use Rattle.tm_gf256.specs.Octet.{element_of};
ghost use Rattle.tm_gf256.specs.Poly.{numbers};
ghost use Rattle.tm_records.specs.Batch.{AreRead, all_nearest};
ghost use Rattle.tm_records.specs.Records.{AreFirstNearest, record_size, most_records};

use crate::coding::Coding;
use std::alloc::Global;
use std::thread::Threads;
use tm_workers::{ErasedWord, Gate, decode_erased_batch};

// Reads which symbols are erased.
fn read_flags(flags: &[u8], erased: &mut [bool])
    requires { length erased.old ≡ length flags.now }
    ensures { erased.new ≡ map (λ flag. not (flag == 0)) flags.now }
{
    for i in 0..flags.len() {
        erased[i] = flags[i] != 0;
    }
}

// Reads a record into a word.
fn read_record(coding: &Coding, octets: &[u8], word: &mut ErasedWord)
    requires { length octets.now ≡ record_size coding.now }
    ensures symbols { numbers (take coding.now.params.n word.new.symbols)
        ≡ map (element_of coding.now.basis) (take coding.now.params.n octets.now) }
    ensures erased { take coding.now.params.n word.new.erased
        ≡ map (λ flag. not (flag == 0)) (drop coding.now.params.n octets.now) }
{
    let n = coding.params.n() as usize;
    let basis = coding.basis;
    let (symbols, flags) = octets.split_at(n);
    basis.octets_to_elements(symbols, &mut word.symbols[..n]);
    read_flags(flags, &mut word.erased[..n]);
}

// Reads records, each into the word of its number.
fn read_records(coding: &Coding, octets: &[u8], words: &mut [ErasedWord])
    requires count { length words.old ≤ most_records }
    requires size { length words.old * record_size coding.now ≤ length octets.now }
    ensures read { AreRead coding.now octets.now words.new }
    ensures length { length words.new ≡ length words.old }
{
    let size = 2 * coding.params.n() as usize;
    for index in 0..words.len() {
        let first = index * size;
        read_record(coding, &octets[first..first + size], &mut words[index]);
    }
}

/// Decodes the first `count` records, each in the word of its number, by `workers` workers, which pass the gate.
pub fn decode_records<R: Threads + Sync, G: Gate + Sync>(
    rt: &R,
    gate: &G,
    alloc: Global,
    coding: &Coding,
    workers: u8,
    octets: &[u8],
    count: usize,
    words: &mut [ErasedWord],
)
    requires bound { coding.now.repair ≤ coding.now.params.e }
    requires workers { (0 < workers) × (workers ≤ most_workers) }
    requires count { count ≤ length words.old }
    requires most { length words.old ≤ most_records }
    requires size { count * record_size coding.now ≤ length octets.now }
    ensures nearest { AreFirstNearest coding.now octets.now (all_nearest coding.now (take count words.new)) }
    ensures length { length words.new ≡ length words.old }
{
    let words = &mut words[..count];
    read_records(coding, octets, words);
    decode_erased_batch(
        rt,
        alloc,
        &coding.params,
        coding.repair,
        words,
        workers,
        gate,
    );
}
