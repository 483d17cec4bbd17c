// The windows of a run, decoded and settled.
ghost use Rattle.std.specs.Prelude.{◌≡◌, ◌↔◌, ◌+◌, ◌*◌, ◌<◌, ◌≤◌, IsTrue, length, map, take};
ghost use Rattle.std.specs.List.{All};
ghost use Rattle.std.specs.Option.{ForSome};
ghost use Rattle.tm_base.specs.Limits.{most_workers};
ghost use Rattle.tm_conv.specs.Path.{registers};
ghost use Rattle.tm_viterbi.specs.WindowSizes.{window_bound};
ghost use Rattle.tm_windows.specs.Candidates.{AreBlocksOfRun, AreCandidates, AreSettled, HaveRoom, HoldsWindows, block_of};
ghost use Rattle.tm_windows.specs.Sharing.{most_octets, most_windows};

use crate::candidate::Candidate;
use crate::crew::Crew;
use crate::window_run::WindowRun;
use tm_base::Gate;
use tm_viterbi::WindowDecoder;

/// Decodes a window for each candidate, one after another, each but the first from the register after the one before
/// it. The gate is entered before each with the window's number in the stream, up to 2^32-1.
pub(crate) fn decode_each<G: Gate>(
    gate: &G,
    decoder: &mut WindowDecoder,
    candidates: &mut [Candidate],
    run: &WindowRun<'_>,
)
    requires shape { decoder.old ≡ run.now.shape }
    requires bits { HaveRoom (run.now.shape.keep + run.now.shape.ahead) candidates.old }
    requires room { HoldsWindows run.now (length candidates.old) }
    requires few { run.now.t + length candidates.old * run.now.shape.keep < window_bound }
    ensures candidates { AreCandidates run.now.shape run.now.t run.now.octets.now 0 (length candidates.old)
        candidates.new }
    ensures bits { HaveRoom (run.now.shape.keep + run.now.shape.ahead) candidates.new }
    ensures same { decoder.new ≡ run.now.shape }
{
    let mut here = *run;
    for j in 0..candidates.len() {
        let number = here.t / here.shape.keep.max(1) as u64;
        gate.enter(number.min(u64::from(u32::MAX)) as u32);
        here.decode_first(decoder, &mut candidates[j]);
        here = here.after_first(candidates[j].path.end_state);
    }
}

// Whether a window was decoded from this start set.
fn is_from(candidate: &Candidate, starts: Option<u8>) -> bool
    ensures { IsTrue result ↔ (candidate.now.starts ≡ starts) }
{
    match (candidate.starts, starts) {
        (None, None) => true,
        (Some(taken), Some(register)) => taken == register,
        _ => false,
    }
}

/// Decodes again each window that was decoded from another register than the one after the window before it. Returns
/// the register from which the window after them starts.
pub(crate) fn settle(
    decoder: &mut WindowDecoder,
    candidates: &mut [Candidate],
    run: &WindowRun<'_>,
) -> Option<u8>
    requires candidates { AreCandidates run.now.shape run.now.t run.now.octets.now 0 (length candidates.old)
        candidates.old }
    requires bits { HaveRoom (run.now.shape.keep + run.now.shape.ahead) candidates.old }
    requires room { HoldsWindows run.now (length candidates.old) }
    requires few { run.now.t + length candidates.old * run.now.shape.keep < window_bound }
    requires shape { decoder.old ≡ run.now.shape }
    ensures settled { AreSettled run.now (length candidates.old) candidates.new result }
    ensures small { ForSome result (λ register. register < registers) }
    ensures bits { HaveRoom (run.now.shape.keep + run.now.shape.ahead) candidates.new }
    ensures same { decoder.new ≡ run.now.shape }
{
    let mut here = *run;
    for j in 0..candidates.len() {
        if !is_from(&candidates[j], here.starts) {
            here.decode_first(decoder, &mut candidates[j]);
        }
        here = here.after_first(candidates[j].path.end_state);
    }
    here.starts
}

/// Has the crew decode a window for each of the first `count` candidates. Those that were decoded from another register
/// than the one after the window before them are decoded again. `dropped` octets were dropped before the first. Returns
/// the register from which the window after them starts.
pub(crate) fn decode_windows<C: Crew>(
    crew: &C,
    decoders: &mut [WindowDecoder],
    candidates: &mut [Candidate],
    count: usize,
    run: &WindowRun<'_>,
    dropped: u8,
) -> Option<u8>
    requires ready { C.is_ready crew.now }
    requires workers { (0 < length decoders.old) × (length decoders.old ≤ most_workers) }
    requires count { (0 < count) × (count ≤ length candidates.old) × (count ≤ most_windows) }
    requires long { length run.now.octets.now ≤ most_octets }
    requires shape { All (λ d. d ≡ run.now.shape) decoders.old }
    requires bits { HaveRoom (run.now.shape.keep + run.now.shape.ahead) candidates.old }
    requires room { HoldsWindows run.now count }
    requires few { run.now.t + count * run.now.shape.keep < window_bound }
    ensures blocks { AreBlocksOfRun run.now count dropped (map block_of (take count candidates.new)) result }
    ensures small { ForSome result (λ register. register < registers) }
    ensures bits { HaveRoom (run.now.shape.keep + run.now.shape.ahead) candidates.new }
    ensures shape { All (λ d. d ≡ run.now.shape) decoders.new }
{
    let first = &mut candidates[..count];
    crew.decode(decoders, first, run);
    let next = settle(&mut decoders[0], first, run);
    candidates[0].dropped = dropped;
    next
}
