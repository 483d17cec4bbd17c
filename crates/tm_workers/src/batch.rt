// Batches of words.
ghost use Rattle.std.specs.Prelude.{◌≡◌, ◌+◌, ◌<◌, ◌≤◌, [], length, OnOk, OnErr};
ghost use Rattle.boxcar.specs.Table.{Tagged};
ghost use Rattle.tm_base.specs.Limits.{most_workers};
ghost use Rattle.tm_workers.specs.Batch.{EachBecomes, IsBatch, words_bound};
ghost use Rattle.tm_workers.specs.Words.{Decodes, DecodesErased};
ghost use Rattle.tm_workers.specs.Working.{KeepsEach, Leaves};

use crate::draws::call_each;
use crate::results::{Decoded, make_slots, result_of};
use crate::split::split_evenly;
use crate::tickets::Tickets;
use crate::words::{ErasedWord, Word};
use boxcar::slot::{OnceSlot, SlotRule};
use std::alloc::{AllocError, Global};
use std::marker::Brand;
use std::thread::Threads;
use tm_base::Gate;
use tm_rs_code::Params;

// How many words of a start there are for each worker. The words are decoded in starts, one after another, so slots
// are needed for those of one start alone.
const START_WORDS: usize = 1024;

// Puts each word's result in its place. The first word has the number `first`.
fn put_results<G: Gate, W: Copy, F: Fn(&mut W), K: SlotRule<Decoded<W>>>(
    gate: &G,
    decode: &F,
    first: u32,
    slots: &[OnceSlot<Decoded<W>, K>],
    words: &mut [W],
)
    requires calls { F.IsAlwaysCallable decode.now }
    requires count { first + length words.old < words_bound }
    requires slots { Tagged [] 0 (length words.old) slots.now }
    requires kept { KeepsEach (Leaves F.Fn decode.now) words.old K.holds }
    ensures { EachBecomes (Leaves F.Fn decode.now) words.old words.new }
{
    for index in 0..words.len() {
        words[index] = result_of(
            gate,
            decode,
            first + index as u32,
            &words[index],
            &slots[index],
        );
    }
}

// Decodes each word of a start, by workers that draw the words' numbers. The first has the number `first`. Where memory
// is refused no gate was entered and no word has changed.
fn decode_drawn<
    R: Threads + Sync,
    G: Gate + Sync,
    W: Copy + Send + Sync,
    F: Fn(&mut W) + Sync,
    K: SlotRule<Decoded<W>> + Sync,
>(
    rt: &R,
    alloc: Global,
    gate: &G,
    decode: &F,
    first: u32,
    workers: u32,
    words: &mut [W],
) -> Result<(), AllocError>
    requires calls { F.IsAlwaysCallable decode.now }
    requires count { first + length words.old < words_bound }
    requires workers { (0 < workers) × (workers ≤ most_workers) }
    requires kept { KeepsEach (Leaves F.Fn decode.now) words.old K.holds }
    ensures ok { OnOk result (EachBecomes (Leaves F.Fn decode.now) words.old words.new) }
    ensures err { OnErr result (words.new ≡ words.old) }
{
    let results = make_slots::<W, K>(alloc, words.len())?;
    let Ok((tickets, mut seat)) = Tickets::new(alloc, words.len() as u32) else {
        return Err(AllocError);
    };
    let slots = results.as_slice();
    let given = &words[..];
    let decode_at = |number: u32|
        requires { F.IsAlwaysCallable decode.now × (first + length given.now < words_bound)
            × (number < length given.now) × Tagged [] 0 (length given.now) slots.now
            × KeepsEach (Leaves F.Fn decode.now) given.now K.holds }
    {
        let index = number as usize;
        result_of(gate, decode, first + number, &given[index], &slots[index]);
    };
    call_each(rt, &decode_at, &tickets, &mut seat, workers);
    // That all numbers were drawn, since each worker has seen it, is known from here on.
    tickets.close(seat);
    put_results(gate, decode, first, slots, words);
    Ok(())
}

// Decodes each word of a start in its place. The first has the number `first`.
#[tactic(auto, unfolding(crate::specs::Working::Leaves))]
fn decode_start<R: Threads + Sync, G: Gate + Sync, W: Copy + Send + Sync, F: Fn(&mut W) + Sync>(
    rt: &R,
    alloc: Global,
    gate: &G,
    decode: &F,
    first: u32,
    words: &mut [W],
    workers: u8,
)
    requires calls { F.IsAlwaysCallable decode.now }
    requires count { first + length words.old < words_bound }
    requires workers { (0 < workers) × (workers ≤ most_workers) }
    ensures { EachBecomes (Leaves F.Fn decode.now) words.old words.new }
{
    // No more workers than words.
    let most = words.len().min(usize::from(workers)) as u32;
    if most < 2
        || decode_drawn::<R, G, W, F, Brand>(rt, alloc, gate, decode, first, most, words).is_err()
    {
        split_evenly(rt, gate, decode, first, workers, words);
    }
}

/// Decodes each word in its place by `decode`, in starts of 1,024 words for each worker. The workers draw the numbers of
/// a start's words, or have a part of them each where memory is refused.
pub fn decode_all<R: Threads + Sync, G: Gate + Sync, W: Copy + Send + Sync, F: Fn(&mut W) + Sync>(
    rt: &R,
    alloc: Global,
    decode: &F,
    words: &mut [W],
    workers: u8,
    gate: &G,
)
    requires calls { F.IsAlwaysCallable decode.now }
    requires count { length words.old < words_bound }
    requires workers { (0 < workers) × (workers ≤ most_workers) }
    ensures { EachBecomes (Leaves F.Fn decode.now) words.old words.new }
{
    let size = START_WORDS * usize::from(workers);
    let mut first = 0;
    while first < words.len() {
        let end = words.len().min(first + size);
        decode_start(
            rt,
            alloc,
            gate,
            decode,
            first as u32,
            &mut words[first..end],
            workers,
        );
        first = end;
    }
}

/// Decodes each word in its place, as `decode_word` does, and puts its answer into it, by at most `workers` workers.
/// The symbols after the first n stay. `workers` is at least one and at most 64, the words are fewer than 2^32, and
/// `repair` is at most e. Before a worker decodes the word of number i it calls `gate.enter(i)`. The words are the same
/// for every number of workers, and whatever memory is refused: it tries for memory, so that a worker that is done
/// early can draw more words, and where it gets none each worker has a fixed part of them.
pub fn decode_batch<R: Threads + Sync, G: Gate + Sync>(
    rt: &R,
    alloc: Global,
    params: &Params,
    repair: u8,
    words: &mut [Word],
    workers: u8,
    gate: &G,
)
    requires { IsBatch params.now.e repair (length words.old) workers }
    ensures { EachBecomes (Decodes params.now repair) words.old words.new }
{
    let decode = |word: &mut Word|
        requires { repair ≤ params.now.e }
        ensures { Decodes params.entry.now repair word.old word.new }
    { word.decode(params, repair) };
    decode_all(rt, alloc, &decode, words, workers, gate);
}

/// Decodes each word with erased places, as `decode_erased` does, and otherwise as `decode_batch`.
pub fn decode_erased_batch<R: Threads + Sync, G: Gate + Sync>(
    rt: &R,
    alloc: Global,
    params: &Params,
    repair: u8,
    words: &mut [ErasedWord],
    workers: u8,
    gate: &G,
)
    requires { IsBatch params.now.e repair (length words.old) workers }
    ensures { EachBecomes (DecodesErased params.now repair) words.old words.new }
{
    let decode = |word: &mut ErasedWord|
        requires { repair ≤ params.now.e }
        ensures { DecodesErased params.entry.now repair word.old word.new }
    { word.decode(params, repair) };
    decode_all(rt, alloc, &decode, words, workers, gate);
}

/// Decodes each word in its place, one after another, as `decode_batch` does with one worker. It starts no thread,
/// enters no gate and takes no memory. The words are fewer than 2^32, and `repair` at most e.
pub fn decode_in_order(params: &Params, repair: u8, words: &mut [Word])
    requires bound { repair ≤ params.now.e }
    requires count { length words.old < words_bound }
    ensures { EachBecomes (Decodes params.now repair) words.old words.new }
{
    for word in words {
        word.decode(params, repair);
    }
}
