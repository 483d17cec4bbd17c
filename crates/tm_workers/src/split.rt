// The words in equal parts, one for each worker.
ghost use Rattle.std.specs.Prelude.{◌+◌, ◌<◌, length};
ghost use Rattle.tm_workers.specs.Batch.{EachBecomes, words_bound};
ghost use Rattle.tm_workers.specs.Working.{Leaves};

use std::thread::{Threads, for_each_mut};
use tm_base::Gate;

// Decodes a word in its place, after the gate.
#[tactic(auto, unfolding(crate::specs::Working::Leaves))]
pub fn decode_one<G: Gate, W, F: Fn(&mut W)>(gate: &G, decode: &F, number: u32, word: &mut W)
    requires { F.IsAlwaysCallable decode.now }
    ensures { Leaves F.Fn decode.now word.old word.new }
{
    gate.enter(number);
    decode(word);
}

/// Decodes each word in its place, by at most `workers` workers: each has one part of the words, all as long as the
/// first but the last, which may be shorter. The first word has the number `first`. It takes no memory.
pub fn split_evenly<R: Threads + Sync, G: Gate + Sync, W: Send, F: Fn(&mut W) + Sync>(
    rt: &R,
    gate: &G,
    decode: &F,
    first: u32,
    workers: u8,
    words: &mut [W],
)
    requires calls { F.IsAlwaysCallable decode.now }
    requires count { first + length words.old < words_bound }
    ensures { EachBecomes (Leaves F.Fn decode.now) words.old words.new }
{
    let decode_at = |index: usize, word: &mut W|
        requires { F.IsAlwaysCallable decode.now × (first + index < words_bound) }
        ensures { Leaves F.Fn decode.entry.now word.old word.new }
    { decode_one(gate, decode, first + index as u32, word) };
    for_each_mut(rt, words, usize::from(workers).max(1), &decode_at);
}
