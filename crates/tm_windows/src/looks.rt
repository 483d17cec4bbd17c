// Looks for slips before the windows of a run.
ghost use Rattle.std.specs.Prelude.{◌+◌, ◌*◌, ◌<◌, ◌≤◌, ◌↔◌, IsTrue};
ghost use Rattle.std.specs.Thread.{IsSync};
ghost use Rattle.tm_base.specs.Limits.{most_workers};
ghost use Rattle.tm_viterbi.specs.WindowSizes.{stream_bound};
ghost use Rattle.tm_windows.specs.Looks.{HoldLooks, IsFirstDrop, IsUndroppedAt};

use crate::crew::Crew;
use crate::slipping::slip;
use std::thread::{Threads, join};
use tm_base::{Gate, OpenGate};
use tm_conv::steps_len;
use tm_viterbi::WindowShape;

// The fewest looks that are shared out: one worker makes fewer in the millisecond that a thread may take to begin.
const LEAST_SHARED_LOOKS: usize = 64;

/// Looks over `steps` steps before windows of a shape one after another: number 0 begins at step `t` with these octets.
#[derive(Clone, Copy)]
pub struct Looks<'a> {
    pub(crate) shape: WindowShape,
    pub(crate) steps: usize,
    pub(crate) t: u64,
    pub(crate) octets: &'a [u8],
}

impl<'a> Looks<'a> {
    // Whether nothing is dropped before the window of this number, where nothing is dropped before those between.
    fn is_undropped(&self, number: usize) -> bool
        requires room { HoldLooks self.now (number + 1) }
        requires few { self.now.t + (number + 1) * self.now.shape.keep < stream_bound }
        ensures { IsTrue result ↔ IsUndroppedAt self.now number }
    {
        let shape = self.shape;
        let kept = number * shape.keep;
        let size = steps_len(shape.rate, self.t, kept);
        let octets = &self.octets[size..];
        let t = self.t + kept as u64;
        slip(shape.rate, shape.invert, t, self.steps, octets) == 0
    }

    /// The first of the windows from number `first` on, up to number `last`, before which octets are dropped, or `last`
    /// where there is none. The gate is entered before each look with the window's number, up to 2^32-1.
    pub(crate) fn first_drop<G: Gate>(&self, gate: &G, first: usize, last: usize) -> usize
        requires within { first ≤ last }
        requires room { HoldLooks self.now last }
        requires few { self.now.t + last * self.now.shape.keep < stream_bound }
        ensures { IsFirstDrop self.now first last result }
    {
        for number in first..last {
            gate.enter(number.min(u32::MAX as usize) as u32);
            if !self.is_undropped(number) {
                return number;
            }
        }
        last
    }
}

/// The first of the windows from number 1 on, up to number `last`, before which octets are dropped, or `last` where
/// there is none. The crew looks before one window, then two, four and so on, so that at most twice as many looks are
/// made as one after another would take.
pub(crate) fn next_drop<C: Crew>(crew: &C, looks: &Looks<'_>, workers: usize, last: usize) -> usize
    requires ready { C.is_ready crew.now }
    requires workers { (0 < workers) × (workers ≤ most_workers) }
    requires some { 0 < last }
    requires room { HoldLooks looks.now last }
    requires few { looks.now.t + last * looks.now.shape.keep < stream_bound }
    ensures { IsFirstDrop looks.now 1 last result }
{
    let mut looked = 1;
    while looked < last {
        let end = looked + looked.min(last - looked);
        let found = crew.first_drop(looks, workers, looked, end);
        if found < end {
            return found;
        }
        looked = end;
    }
    last
}

/// The first of the windows from number `first` on, up to number `last`, before which octets are dropped, or `last`
/// where there is none: by at most `workers` workers, which enter the gate before each look, where there are enough
/// looks to share out, and else by the caller, which enters none.
pub fn first_drop_shared<R: Threads + Sync, G: Gate + Sync>(
    rt: &R,
    gate: &G,
    looks: &Looks<'_>,
    workers: usize,
    first: usize,
    last: usize,
) -> usize
    requires workers { (0 < workers) × (workers ≤ most_workers) }
    requires within { first ≤ last }
    requires room { HoldLooks looks.now last }
    requires few { looks.now.t + last * looks.now.shape.keep < stream_bound }
    ensures { IsFirstDrop looks.now first last result }
{
    if last - first < LEAST_SHARED_LOOKS {
        return looks.first_drop(&OpenGate, first, last);
    }
    look_evenly(rt, gate, looks, workers, first, last)
}

/// The first of the windows from number `first` on, up to number `last`, before which octets are dropped, or `last`
/// where there is none: by at most `workers` workers, however few the looks are. Each has one part of the windows, and
/// the parts are nearly equal. It takes no memory.
#[cycle(looks)]
pub(crate) fn look_evenly<R: Threads + Sync, G: Gate + Sync>(
    rt: &R,
    gate: &G,
    looks: &Looks<'_>,
    workers: usize,
    first: usize,
    last: usize,
) -> usize
    requires workers { (0 < workers) × (workers ≤ most_workers) }
    requires within { first ≤ last }
    requires room { HoldLooks looks.now last }
    requires few { looks.now.t + last * looks.now.shape.keep < stream_bound }
    ensures { IsFirstDrop looks.now first last result }
{
    let parts = workers.min(last - first);
    if parts < 2 {
        return looks.first_drop(gate, first, last);
    }
    // A thread is made for the first part alone, and the caller goes on with the others, as with windows.
    let middle = first + (last - first) / parts;
    look_both(rt, gate, looks, workers - 1, first, middle, last)
}

// Two parts side by side. It is a function of its own, so that what the closures require is what it is given.
#[cycle(looks)]
fn look_both<R: Threads + Sync, G: Gate + Sync>(
    rt: &R,
    gate: &G,
    looks: &Looks<'_>,
    others: usize,
    first: usize,
    middle: usize,
    last: usize,
) -> usize
    requires others { (0 < others) × (others ≤ most_workers) }
    requires within { (first ≤ middle) × (middle ≤ last) }
    requires first_part { HoldLooks looks.now middle × (looks.now.t + middle * looks.now.shape.keep < stream_bound) }
    requires other_part { HoldLooks looks.now last × (looks.now.t + last * looks.now.shape.keep < stream_bound) }
    ensures { IsFirstDrop looks.now first last result }
{
    let look_first = || -> usize
        requires { (first ≤ middle) × HoldLooks looks.now middle
            × (looks.now.t + middle * looks.now.shape.keep < stream_bound) }
        ensures { IsFirstDrop looks.entry.now first middle result }
    { looks.first_drop(gate, first, middle) };
    let look_later = || -> usize
        requires { IsSync R.row × IsSync G.row × ((0 < others) × (others ≤ most_workers)) × (middle ≤ last)
            × HoldLooks looks.now last × (looks.now.t + last * looks.now.shape.keep < stream_bound) }
        ensures { IsFirstDrop looks.entry.now middle last result }
    { look_evenly(rt, gate, looks, others, middle, last) };
    let (found, found_later) = join(rt, look_first, look_later);
    if found < middle { found } else { found_later }
}
