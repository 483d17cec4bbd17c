// Who works on what can be shared out: the caller alone, or threads beside it.
ghost use Rattle.std.specs.Prelude.{◌≡◌, ◌+◌, ◌*◌, ◌<◌, ◌≤◌, ℕ, length};
ghost use Rattle.std.specs.List.{All};
ghost use Rattle.tm_base.specs.Limits.{most_workers};
ghost use Rattle.tm_viterbi.specs.WindowSizes.{stream_bound, window_bound};
ghost use Rattle.tm_windows.specs.Candidates.{AreCandidates, HaveRoom, HoldsWindows};
ghost use Rattle.tm_windows.specs.Looks.{HoldLooks, IsFirstDrop};
ghost use Rattle.tm_windows.specs.Sharing.{most_candidates, most_octets};

use crate::candidate::Candidate;
use crate::looks::{Looks, first_drop_shared};
use crate::run::decode_each;
use crate::sharing::decode_shared;
use crate::window_run::WindowRun;
use std::thread::Threads;
use tm_base::OpenGate;
use tm_viterbi::WindowDecoder;

/// Who works on what can be shared out. What is decoded is the same for any crew.
pub trait Crew {
    /// What a call needs to be known of it.
    ghost is_ready: { Self → Type 0 };

    /// How many workers of a given number work at a time.
    ghost share: { Self → ℕ → ℕ };

    /// How many of `workers` workers work at a time.
    fn share(&self, workers: usize) -> usize
        requires some { 0 < workers }
        ensures value { result ≡ share self.now workers }
        ensures some { (0 < result) × (result ≤ workers) };

    /// Decodes a window for each candidate of a run, each but the first from the register after the one before it, or
    /// from a guess of it.
    fn decode(
        &self,
        decoders: &mut [WindowDecoder],
        candidates: &mut [Candidate],
        run: &WindowRun<'_>,
    )
        requires ready { is_ready self.now }
        requires some { (0 < length decoders.old) × (length decoders.old ≤ most_workers) }
        requires long { (length candidates.old ≤ most_candidates) × (length run.now.octets.now ≤ most_octets) }
        requires shape { All (λ d. d ≡ run.now.shape) decoders.old }
        requires bits { HaveRoom (run.now.shape.keep + run.now.shape.ahead) candidates.old }
        requires room { HoldsWindows run.now (length candidates.old) }
        requires few { run.now.t + length candidates.old * run.now.shape.keep < window_bound }
        ensures candidates { AreCandidates run.now.shape run.now.t run.now.octets.now 0 (length candidates.old)
            candidates.new }
        ensures bits { HaveRoom (run.now.shape.keep + run.now.shape.ahead) candidates.new }
        ensures shape { All (λ d. d ≡ run.now.shape) decoders.new };

    /// The first of the windows from number `first` on, up to number `last`, before which octets are dropped, or `last`
    /// where there is none, by at most `workers` workers.
    fn first_drop(&self, looks: &Looks<'_>, workers: usize, first: usize, last: usize) -> usize
        requires ready { is_ready self.now }
        requires workers { (0 < workers) × (workers ≤ most_workers) }
        requires within { first ≤ last }
        requires room { HoldLooks looks.now last }
        requires few { looks.now.t + last * looks.now.shape.keep < stream_bound }
        ensures { IsFirstDrop looks.now first last result };
}

/// The caller alone. It starts no thread.
#[derive(Clone, Copy, Debug)]
pub struct Alone;

impl Crew for Alone {
    ghost use Rattle.std.specs.Prelude.{⊤};

    ghost is_ready = { λ crew. ⊤ };

    ghost share = { λ crew workers. 1 };

    fn share(&self, _workers: usize) -> usize {
        1
    }

    fn decode(
        &self,
        decoders: &mut [WindowDecoder],
        candidates: &mut [Candidate],
        run: &WindowRun<'_>,
    ) {
        decode_each(&OpenGate, &mut decoders[0], candidates, run);
    }

    fn first_drop(&self, looks: &Looks<'_>, _workers: usize, first: usize, last: usize) -> usize {
        looks.first_drop(&OpenGate, first, last)
    }
}

/// Threads beside the caller, which share out what is enough for it.
#[derive(Drop)]
pub struct Threaded<'a, R: Threads + Sync> {
    pub rt: &'a R,
}

impl<'a, R: Threads + Sync> Crew for Threaded<'a, R> {
    ghost use Rattle.std.specs.Thread.{IsSync};

    ghost is_ready = { λ crew. IsSync R.row };

    ghost share = { λ crew workers. workers };

    fn share(&self, workers: usize) -> usize {
        workers
    }

    fn decode(
        &self,
        decoders: &mut [WindowDecoder],
        candidates: &mut [Candidate],
        run: &WindowRun<'_>,
    ) {
        decode_shared(self.rt, &OpenGate, decoders, candidates, run);
    }

    fn first_drop(&self, looks: &Looks<'_>, workers: usize, first: usize, last: usize) -> usize {
        first_drop_shared(self.rt, &OpenGate, looks, workers, first, last)
    }
}
