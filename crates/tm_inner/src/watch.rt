// Who is told of what the soft decoder decodes.
ghost use Rattle.std.specs.Prelude.{◌≡◌, ℕ, ◌<◌, ◌≤◌, ◌++◌, false, List, [], None, length, map};
ghost use Rattle.tm_base.specs.Handed.{Handed, Item, Phase};
ghost use Rattle.tm_base.specs.Takers.{HandedOver};
ghost use Rattle.tm_viterbi.specs.WindowBlock.{WindowBlock};
ghost use Rattle.tm_inner.specs.Handing.{IsKept, LeavesPhase, ReadsDue, ReadsLast};
ghost use Rattle.tm_inner.specs.InnerDecoding.{IsDrained, IsSameDecoder, has_phase_now, held_in, ready_in, unread};
ghost use Rattle.tm_inner.specs.InnerWindows.{AreThere, AreTold, AreWindows, block_in, window_in, windows_in};
ghost use Rattle.tm_inner.specs.Phase.{with_phase};
ghost use Rattle.tm_inner.specs.Receiving.{Hands, HasRead};
ghost use Rattle.tm_inner.specs.declared.window.Window.{Window};

use crate::decoder::{InnerDecoder, InnerEnd};
use tm_windows::Alone;

/// What is told of the symbol phase, where it is to be found, and then of each window whose block is ready, once. It
/// reads of the decoder what it wants to know, so that what nobody asks for is not computed. It never fails.
pub trait WindowWatch {
    /// What a window does to it.
    ghost took: { Self → Window → Self → Type 0 };

    /// What the symbol phase, or the block of a window, does to it.
    ghost told: { Self → Handed WindowBlock → Self → Type 0 };

    /// Takes the symbol phase that was chosen: `skip` octets are skipped, and the best path after them costs `cost`.
    fn phase(&mut self, skip: u8, cost: u64)
        ensures { told self.old (Phase skip cost) self.new };

    /// Takes the window of the block of this number.
    fn window(&mut self, inner: &InnerDecoder, index: usize)
        requires index { index < length (ready_in inner.now.queue) }
        requires there { AreThere inner.now.queue }
        ensures window { took self.old (window_in inner.now index) self.new }
        ensures block { told self.old (Item (block_in inner.now index)) self.new };
}

/// Takes nothing.
#[derive(Drop)]
pub struct NoWatch;

impl WindowWatch for NoWatch {
    ghost use Rattle.std.specs.Prelude.{◌≡◌};

    ghost took = { λ a window b. b ≡ a };

    ghost told = { λ a item b. b ≡ a };

    fn phase(&mut self, _skip: u8, _cost: u64) {}

    fn window(&mut self, _inner: &InnerDecoder, _index: usize) {}
}

/// Tells of the windows of the blocks that are ready.
pub fn watch_ready<W: WindowWatch>(inner: &InnerDecoder, watch: &mut W)
    requires there { AreThere inner.now.queue }
    ensures windows { HandedOver W.took watch.old (windows_in inner.now) watch.new }
    ensures blocks { HandedOver W.told watch.old (map Item (ready_in inner.now.queue)) watch.new }
{
    for index in 0..inner.ready() {
        watch.window(inner, index);
    }
}

/// Puts octets in, and tells of the symbol phase, once it is chosen, and of the windows that are closed.
pub fn watch_due<W: WindowWatch>(inner: &mut InnerDecoder, octets: &[u8], watch: &mut W)
    requires { 0 < length octets.now → inner.old.has_ended ≡ false }
    ensures read { ReadsDue W.told inner.old inner.new watch.old watch.new octets.now }
    ensures watched { LeavesPhase W.told → Hands W.took AreTold inner.old inner.new watch.old watch.new octets.now }
{
    let mut done = 0;
    'runs: loop {
        let count = watch_run(inner, watch);
        if count > 0 {
            continue;
        }
        if done == octets.len() {
            return;
        }
        done += inner.fill(&octets[done..]);
    }
}

/// Says that no octets come any more, and tells of what is left. Returns what came of all octets.
pub fn watch_last<W: WindowWatch>(inner: &mut InnerDecoder, watch: &mut W) -> InnerEnd
    ensures read { ReadsLast W.told inner.old inner.new watch.old watch.new result }
    ensures watched { LeavesPhase W.told → (last : List Window) × HandedOver W.took watch.old last watch.new
        × ((given : List ℕ) (done : List Window) → AreTold inner.old given done
        → AreWindows inner.old.config given (done ++ last)) }
{
    inner.settle();
    watch_due(inner, &[], watch);
    let end = inner.last();
    watch_ready(inner, watch);
    end
}

// Decodes the next run of windows, and tells of the phase, where it was chosen since, and of the windows. Returns how
// many.
fn watch_run<W: WindowWatch>(inner: &mut InnerDecoder, watch: &mut W) -> usize
    ensures same { IsSameDecoder inner.old inner.new }
    ensures drained { (result ≡ 0 → IsDrained inner.new.queue) × (unread inner.new ≡ None) }
    ensures moved { length (held_in inner.new.queue) ≤ length (held_in inner.old.queue) }
    ensures shorter { 0 < result → length (held_in inner.new.queue) < length (held_in inner.old.queue) }
    ensures read { Hands W.told HasRead inner.old inner.new watch.old watch.new [] }
    ensures watched { LeavesPhase W.told → Hands W.took AreTold inner.old inner.new watch.old watch.new [] }
    ensures chosen { (given : List ℕ) (done : List (Handed WindowBlock)) → HasRead inner.old given done
        → IsKept inner.new given }
{
    let count = inner.decode(&Alone);
    watch_phase(inner, watch);
    watch_ready(inner, watch);
    count
}

// Tells of the phase, where it was chosen since.
fn watch_phase<W: WindowWatch>(inner: &mut InnerDecoder, watch: &mut W)
    ensures read { inner.new ≡ record inner.old { has_phase = has_phase_now inner.old } }
    ensures told { HandedOver W.told watch.old (with_phase (unread inner.old) []) watch.new }
{
    match inner.new_phase() {
        Some(chosen) => watch.phase(chosen.skip, chosen.cost),
        None => {}
    }
}
