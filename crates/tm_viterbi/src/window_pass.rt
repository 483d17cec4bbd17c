// The forward pass over windows one after another: it goes on over the steps that two windows share.
ghost use Rattle.std.specs.Prelude.{◌≡◌, Bool, IsTrue, ℕ, List, IfOk, ◌+◌, ◌-◌, ◌*◌, ◌^◌, ◌<◌, ◌≤◌, [], drop, length, take, vec_len};
ghost use Rattle.std.specs.Option.{ForSome};
ghost use Rattle.tm_conv.specs.declared.rates.Rate.{Rate};
ghost use Rattle.tm_conv.specs.Path.{steps_size, registers, register_after};
ghost use Rattle.tm_viterbi.specs.Carries.{Carries};
ghost use Rattle.tm_viterbi.specs.Overlap.{IsOverlap, IsPathFrom, most_before};
ghost use Rattle.tm_viterbi.specs.Starts.{starts_from};
ghost use Rattle.tm_viterbi.specs.Totals.{AreAtMost, AreFirsts};
ghost use Rattle.tm_viterbi.specs.WindowSizes.{most_window, window_bound};

use crate::forward_pass::run;
use crate::narrow_sums::greatest_sum;
use crate::path_ends::{first_sums, least_register};
use crate::traceback::{end_register, trace_back};
use crate::window_decoder::BestPath;
use std::alloc::Global;
use tm_base::NoMemory;
use tm_conv::{Rate, steps_len};

// The forward pass over the steps beyond the kept ones of the window that was decoded last, which the next window
// begins with.
#[derive(Drop)]
pub(crate) struct WindowPass {
    // At which step they begin, how many they are, and how many octets they have.
    pub(crate) t: u64,
    pub(crate) overlap: usize,
    pub(crate) size: usize,
    // Their octets are the first here.
    pub(crate) octets: Vec<u8>,
    // The path metrics before and after them, whatever came before.
    pub(crate) before: [u32; 64],
    pub(crate) after: [u32; 64],
    // Their survivors are the first here.
    pub(crate) survivors: Vec<u64>,
}

// Before how many octets of a window of `steps` steps its first `overlap` steps end, and its first `kept`.
fn places(
    rate: Rate,
    t: u64,
    overlap: usize,
    kept: usize,
    steps: usize,
    octets: &[u8],
) -> (usize, usize)
    requires size { length octets.now ≡ steps_size rate t steps }
    requires order { (overlap ≤ kept) × (kept ≤ steps) }
    requires few { steps ≤ most_window }
    requires first { t < window_bound }
    ensures first { result.0 ≡ steps_size rate t overlap }
    ensures middle { result.1 ≡ steps_size rate t kept }
    ensures order { (result.0 ≤ result.1) × (result.1 ≤ length octets.now) }
{
    (steps_len(rate, t, overlap), steps_len(rate, t, kept))
}

// The steps of a window from step `overlap` on, the path metrics before which are `sums`. Returns those after the kept ones.
pub(crate) fn forward(
    rate: Rate,
    invert: bool,
    t: u64,
    octets: &[u8],
    overlap: usize,
    kept: usize,
    sums: &mut [u32; 64],
    survivors: &mut [u64],
) -> [u32; 64]
    requires size { length octets.now ≡ steps_size rate t (length survivors.old) }
    requires order { (overlap ≤ kept) × (kept ≤ length survivors.old) }
    requires steps { length survivors.old ≤ most_window }
    requires first { t < window_bound }
    requires bounded { AreAtMost most_before sums.old }
    ensures whole { (before : List ℕ) → Carries rate invert t (take (steps_size rate t overlap) octets.now) before sums.old
        (take overlap survivors.old) → Carries rate invert t octets.now before sums.new survivors.new }
    ensures rest { Carries rate invert (t + kept) (drop (steps_size rate t kept) octets.now) result sums.new
        (drop kept survivors.new) }
{
    let steps = survivors.len();
    let size = octets.len();
    let (first, middle) = places(rate, t, overlap, kept, steps, octets);
    let head = &octets[first..middle];
    let tail = &octets[middle..size];
    run(
        rate,
        invert,
        t + overlap as u64,
        head,
        sums,
        &mut survivors[overlap..kept],
        1 << 31,
    );
    let between = *sums;
    run(
        rate,
        invert,
        t + kept as u64,
        tail,
        sums,
        &mut survivors[kept..steps],
        (1 << 31) + 510 * (kept - overlap) as u32,
    );
    between
}

impl WindowPass {
    // A pass over no steps, for windows of at most `steps` steps, of which `size` octets may go on.
    pub(crate) fn new(alloc: Global, steps: usize, size: usize) -> Result<WindowPass, NoMemory>
        ensures overlap { (rate : Rate) (invert : Bool) → IfOk result (λ p. IsOverlap rate invert p) }
        ensures room { IfOk result (λ p. vec_len p.survivors ≡ steps) }
    {
        let Ok(survivors) = vec![in alloc; 0u64; steps] else {
            return Err(NoMemory);
        };
        let Ok(octets) = vec![in alloc; 0u8; size] else {
            return Err(NoMemory);
        };
        let mut pass = WindowPass {
            t: 0,
            overlap: 0,
            size: 0,
            octets,
            before: [0; 64],
            after: [0; 64],
            survivors,
        };
        pass.begin(0, None);
        Ok(pass)
    }

    // Whether the window from step `t` on with these octets begins with the steps of the pass, and keeps as many or more.
    pub(crate) fn goes_on(&self, t: u64, kept: usize, octets: &[u8]) -> bool
        requires { self.now.size ≤ vec_len self.now.octets }
        ensures place { IsTrue result → self.now.t ≡ t }
        ensures fits { IsTrue result → self.now.overlap ≤ kept }
        ensures octets { IsTrue result → take self.now.size octets.now ≡ take self.now.size self.now.octets.items }
    {
        self.overlap > 0
            && self.t == t
            && self.overlap <= kept
            && octets.starts_with(&self.octets[..self.size])
    }

    // Begins anew: before step `t`, with no steps.
    pub(crate) fn begin(&mut self, t: u64, starts: Option<u8>)
        ensures overlap { (rate : Rate) (invert : Bool) → IsOverlap rate invert self.new }
        ensures place { self.new.t ≡ t }
        ensures none { (self.new.overlap ≡ 0) × (self.new.size ≡ 0) }
        ensures firsts { AreFirsts (starts_from starts) self.new.before }
        ensures room { vec_len self.new.survivors ≡ vec_len self.old.survivors }
    {
        let sums = first_sums(starts);
        self.t = t;
        self.overlap = 0;
        self.size = 0;
        self.before = sums;
        self.after = sums;
    }

    // Keeps what goes on after the kept steps of a window of `steps` steps: from step `t` on, with these octets.
    fn keep(
        &mut self,
        t: u64,
        kept: usize,
        steps: usize,
        rest: &[u8],
        before: &[u32; 64],
        after: &[u32; 64],
    )
        requires steps { (kept ≤ steps) × (steps ≤ vec_len self.old.survivors) }
        ensures overlap { (rate : Rate) (invert : Bool) → Carries rate invert t rest.now before.now after.now
            (drop kept (take steps self.old.survivors.items)) → IsOverlap rate invert self.new }
        ensures room { vec_len self.new.survivors ≡ vec_len self.old.survivors }
    {
        let size = rest.len();
        if size > self.octets.len() || greatest_sum(after) > 1 << 31 {
            self.begin(t, None);
            return;
        }
        self.octets[0..size].copy_from_slice(rest);
        self.survivors.as_mut_slice().copy_within(kept..steps, 0);
        self.t = t;
        self.overlap = steps - kept;
        self.size = size;
        self.before = *before;
        self.after = *after;
    }

    // The best path of a window that begins with the steps of the pass, with the path metrics before them.
    pub(crate) fn finish(
        &mut self,
        rate: Rate,
        invert: bool,
        kept: usize,
        octets: &[u8],
        bits: &mut [u8],
    ) -> BestPath
        requires overlap { IsOverlap rate invert self.old }
        requires fits { self.old.overlap ≤ kept }
        requires octets { take self.old.size octets.now ≡ take self.old.size self.old.octets.items }
        requires kept { kept ≤ length bits.old }
        requires steps { (length bits.old ≤ vec_len self.old.survivors) × (vec_len self.old.survivors ≤ most_window) }
        requires size { length octets.now ≡ steps_size rate self.old.t (length bits.old) }
        requires first { self.old.t < window_bound }
        ensures path { IsPathFrom rate invert self.old.t (length bits.new) self.old.before octets.now result.start bits.new
            result.metric }
        ensures end_state { result.end_state ≡ register_after result.start (take kept bits.new) }
        ensures overlap { IsOverlap rate invert self.new }
        ensures room { vec_len self.new.survivors ≡ vec_len self.old.survivors }
    {
        let t = self.t;
        let steps = bits.len();
        let before = self.before;
        let mut sums = self.after;
        let (_, middle) = places(rate, t, self.overlap, kept, steps, octets);
        let between = forward(
            rate,
            invert,
            t,
            octets,
            self.overlap,
            kept,
            &mut sums,
            &mut self.survivors[0..steps],
        );
        let last = least_register(&sums);
        let start = trace_back(&self.survivors[..steps], last, bits) as u8;
        let metric = u64::from(sums[last] - before[usize::from(start)]);
        let end_state = end_register(start, &bits[..kept]);
        self.keep(
            t + kept as u64,
            kept,
            steps,
            &octets[middle..],
            &between,
            &sums,
        );
        BestPath {
            start,
            metric,
            end_state,
        }
    }
}
