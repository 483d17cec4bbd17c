// Windows decoded side by side.
ghost use Rattle.std.specs.Prelude.{◌≡◌, ◌↔◌, ◌+◌, ◌*◌, ◌<◌, ◌≤◌, IsTrue, drop, length};
ghost use Rattle.std.specs.List.{All};
ghost use Rattle.std.specs.Option.{ForSome};
ghost use Rattle.std.specs.Thread.{IsSync};
ghost use Rattle.tm_base.specs.Limits.{most_workers};
ghost use Rattle.tm_conv.specs.Path.{steps_size, registers};
ghost use Rattle.tm_viterbi.specs.WindowSizes.{window_bound};
ghost use Rattle.tm_windows.specs.Candidates.{AreCandidates, HaveRoom, HoldsWindows};
ghost use Rattle.tm_windows.specs.Sharing.{least_shared_ahead, most_octets, most_candidates};

use crate::candidate::Candidate;
use crate::guessing::known_or_guessed;
use crate::run::decode_each;
use crate::window_run::WindowRun;
use std::thread::{Threads, join_mut};
use tm_base::{Gate, OpenGate};
use tm_conv::steps_len;
use tm_viterbi::{WindowDecoder, WindowShape};

// The least steps ahead with which windows are shared out: a guess is often wrong where few stand there.
const LEAST_SHARED_AHEAD: usize = 64;

// The least steps that they keep together: one worker decodes fewer in the millisecond that a thread may take to begin.
const LEAST_SHARED_STEPS: usize = 65_536;

// One worker's windows, one after another.
fn decode_part<G: Gate>(
    gate: &G,
    shape: WindowShape,
    decoder: &mut WindowDecoder,
    known: Option<Option<u8>>,
    t: u64,
    octets: &[u8],
    at: usize,
    candidates: &mut [Candidate],
)
    requires shape { decoder.old ≡ shape }
    requires bits { HaveRoom (shape.keep + shape.ahead) candidates.old }
    requires start { ForSome known (λ starts. ForSome starts (λ register. register < registers)) }
    requires room { at + steps_size shape.rate t
        (length candidates.old * shape.keep + shape.ahead + 1) ≤ length octets.now }
    requires few { t + length candidates.old * shape.keep < window_bound }
    ensures candidates { AreCandidates shape t (drop at octets.now) 0 (length candidates.old) candidates.new }
    ensures bits { HaveRoom (shape.keep + shape.ahead) candidates.new }
    ensures same { decoder.new ≡ shape }
{
    if candidates.is_empty() {
        return;
    }
    let starts = known_or_guessed(decoder, shape, &mut candidates[0], known, t, octets, at);
    let run = WindowRun {
        shape,
        starts,
        t,
        octets: &octets[at..],
    };
    decode_each(gate, decoder, candidates, &run);
}

/// Decodes a window for each candidate, by at most as many workers as there are decoders: each has one part of the
/// windows, and the parts are nearly equal. The first window begins at step t, and its octets at place `at`; `known` is
/// its start set. Each worker but the first begins with a guess. Workers enter the gate before each window. It takes no
/// memory.
#[cycle(parts)]
pub(crate) fn decode_evenly<R: Threads + Sync, G: Gate + Sync>(
    rt: &R,
    gate: &G,
    shape: WindowShape,
    decoders: &mut [WindowDecoder],
    known: Option<Option<u8>>,
    t: u64,
    octets: &[u8],
    at: usize,
    candidates: &mut [Candidate],
)
    requires some { (0 < length decoders.old) × (length decoders.old ≤ most_workers) }
    requires shape { All (λ d. d ≡ shape) decoders.old }
    requires bits { HaveRoom (shape.keep + shape.ahead) candidates.old }
    requires long { (length candidates.old ≤ most_candidates) × (length octets.now ≤ most_octets) }
    requires start { ForSome known (λ starts. ForSome starts (λ register. register < registers)) }
    requires within { at ≤ length octets.now }
    requires room { at + steps_size shape.rate t
        (length candidates.old * shape.keep + shape.ahead + 1) ≤ length octets.now }
    requires few { t + length candidates.old * shape.keep < window_bound }
    ensures candidates { AreCandidates shape t (drop at octets.now) 0 (length candidates.old) candidates.new }
    ensures bits { HaveRoom (shape.keep + shape.ahead) candidates.new }
    ensures shape { All (λ d. d ≡ shape) decoders.new }
{
    let parts = decoders.len().min(candidates.len());
    if parts < 2 {
        decode_part(
            gate,
            shape,
            &mut decoders[0],
            known,
            t,
            octets,
            at,
            candidates,
        );
        return;
    }
    // A thread is made for the first part alone, and the caller goes on with the others: a thread begins late, and none
    // is to wait for one that another makes.
    let middle = candidates.len() / parts;
    let steps = middle * shape.keep;
    let after = t + steps as u64;
    let place = at + steps_len(shape.rate, t, steps);
    let (first, others) = decoders.split_at_mut(1);
    let (first_part, other_part) = candidates.split_at_mut(middle);
    decode_both(
        rt, gate, shape, known, octets, first, t, at, first_part, others, after, place, other_part,
    );
}

// The two parts side by side. It is a function of its own, so that what the closures require is what it is given.
#[cycle(parts)]
fn decode_both<R: Threads + Sync, G: Gate + Sync>(
    rt: &R,
    gate: &G,
    shape: WindowShape,
    known: Option<Option<u8>>,
    octets: &[u8],
    first: &mut [WindowDecoder],
    t: u64,
    at: usize,
    first_part: &mut [Candidate],
    others: &mut [WindowDecoder],
    after: u64,
    place: usize,
    other_part: &mut [Candidate],
)
    requires start { ForSome known (λ starts. ForSome starts (λ register. register < registers)) }
    requires long { length octets.now ≤ most_octets }
    requires first { ((0 < length first.old) × (length first.old ≤ most_workers)) × All (λ d. d ≡ shape) first.old }
    requires first_part { HaveRoom (shape.keep + shape.ahead) first_part.old × (length first_part.old ≤ most_candidates)
        × (at ≤ length octets.now)
        × (at + steps_size shape.rate t (length first_part.old * shape.keep + shape.ahead + 1) ≤ length octets.now)
        × (t + length first_part.old * shape.keep < window_bound) }
    requires others { ((0 < length others.old) × (length others.old ≤ most_workers)) × All (λ d. d ≡ shape) others.old }
    requires other_part { HaveRoom (shape.keep + shape.ahead) other_part.old × (length other_part.old ≤ most_candidates)
        × (place ≤ length octets.now)
        × (place + steps_size shape.rate after (length other_part.old * shape.keep + shape.ahead + 1)
        ≤ length octets.now)
        × (after + length other_part.old * shape.keep < window_bound) }
    ensures first_part { AreCandidates shape t (drop at octets.now) 0 (length first_part.old) first_part.new
        × HaveRoom (shape.keep + shape.ahead) first_part.new × All (λ d. d ≡ shape) first.new }
    ensures other_part { AreCandidates shape after (drop place octets.now) 0 (length other_part.old) other_part.new
        × HaveRoom (shape.keep + shape.ahead) other_part.new × All (λ d. d ≡ shape) others.new }
{
    let mut decode_first = ||
        requires { IsSync R.row × IsSync G.row
            × ForSome known (λ starts. ForSome starts (λ register. register < registers))
            × (length octets.now ≤ most_octets)
            × ((0 < length first.now) × (length first.now ≤ most_workers)) × All (λ d. d ≡ shape) first.now
            × HaveRoom (shape.keep + shape.ahead) first_part.now × (length first_part.now ≤ most_candidates)
            × (at ≤ length octets.now)
            × (at + steps_size shape.rate t (length first_part.now * shape.keep + shape.ahead + 1) ≤ length octets.now)
            × (t + length first_part.now * shape.keep < window_bound) }
        ensures { AreCandidates shape t (drop at octets.entry.now) 0 (length first_part.entry.now) first_part.exit.now
            × HaveRoom (shape.keep + shape.ahead) first_part.exit.now × All (λ d. d ≡ shape) first.exit.now }
    { decode_evenly(rt, gate, shape, first, known, t, octets, at, first_part) };
    let mut decode_other = ||
        requires { IsSync R.row × IsSync G.row × (length octets.now ≤ most_octets)
            × ((0 < length others.now) × (length others.now ≤ most_workers)) × All (λ d. d ≡ shape) others.now
            × HaveRoom (shape.keep + shape.ahead) other_part.now × (length other_part.now ≤ most_candidates)
            × (place ≤ length octets.now)
            × (place + steps_size shape.rate after
            (length other_part.now * shape.keep + shape.ahead + 1) ≤ length octets.now)
            × (after + length other_part.now * shape.keep < window_bound) }
        ensures { AreCandidates shape after (drop place octets.entry.now) 0
            (length other_part.entry.now) other_part.exit.now
            × HaveRoom (shape.keep + shape.ahead) other_part.exit.now × All (λ d. d ≡ shape) others.exit.now }
    {
        decode_evenly(
            rt, gate, shape, others, None, after, octets, place, other_part,
        )
    };
    join_mut(rt, &mut decode_first, &mut decode_other);
}

/// Whether windows of this shape are shared out, where they have enough steps together.
pub(crate) fn are_shared(shape: WindowShape) -> bool
    ensures { IsTrue result ↔ (least_shared_ahead ≤ shape.ahead) }
{
    shape.ahead >= LEAST_SHARED_AHEAD
}

/// Decodes a window for each candidate of a run: by all workers, which enter the gate before each window, where there
/// is enough to share out, and else by the first one, which enters none.
pub fn decode_shared<R: Threads + Sync, G: Gate + Sync>(
    rt: &R,
    gate: &G,
    decoders: &mut [WindowDecoder],
    candidates: &mut [Candidate],
    run: &WindowRun<'_>,
)
    requires some { (0 < length decoders.old) × (length decoders.old ≤ most_workers) }
    requires long { (length candidates.old ≤ most_candidates) × (length run.now.octets.now ≤ most_octets) }
    requires shape { All (λ d. d ≡ run.now.shape) decoders.old }
    requires bits { HaveRoom (run.now.shape.keep + run.now.shape.ahead) candidates.old }
    requires room { HoldsWindows run.now (length candidates.old) }
    requires few { run.now.t + length candidates.old * run.now.shape.keep < window_bound }
    ensures candidates { AreCandidates run.now.shape run.now.t run.now.octets.now 0 (length candidates.old) candidates.new }
    ensures bits { HaveRoom (run.now.shape.keep + run.now.shape.ahead) candidates.new }
    ensures shape { All (λ d. d ≡ run.now.shape) decoders.new }
{
    if !are_shared(run.shape) || candidates.len() * run.shape.keep < LEAST_SHARED_STEPS {
        decode_each(&OpenGate, &mut decoders[0], candidates, run);
        return;
    }
    decode_evenly(
        rt,
        gate,
        run.shape,
        decoders,
        Some(run.starts),
        run.t,
        run.octets,
        0,
        candidates,
    );
}
