// The inner code of a configuration over a queue of windows.
ghost use Rattle.std.specs.Prelude.{◌≡◌, ◌++◌, ◌==◌, ℕ, ◌-◌, ◌+◌, ◌^◌, ◌<◌, ◌≤◌, List, [], true, false, IfOk, IsTrue, Some, drop, length, map, min, slice_index_or, take};
ghost use Rattle.std.specs.Option.{is_some};
ghost use Rattle.tm_base.specs.Limits.{most_workers};
ghost use Rattle.tm_conv.specs.Path.{AreBits};
ghost use Rattle.tm_viterbi.specs.Clean.{kept_bits};
ghost use Rattle.tm_viterbi.specs.WindowBlock.{WindowBlock};
ghost use Rattle.tm_viterbi.specs.WindowSizes.{most_window, stream_bound};
ghost use Rattle.tm_windows.specs.Queue.{IsWindowPath, Queueing, window_size};
ghost use Rattle.tm_windows.specs.Windows.{dropped_of, slips_of};
ghost use Rattle.tm_windows.specs.declared.choosing.Chosen.{Chosen};
ghost use Rattle.tm_inner.specs.Inner.{AreInnerBlocks, AreInnerDue, inner_bits, nearest_bit, plain_count, reported_slips};
ghost use Rattle.tm_inner.specs.Phase.{IsChosen, IsSettled, IsSoFarBy, phase_octets, skip_of, skipped_at};
ghost use Rattle.tm_inner.specs.InnerDecoding.{DecodesFor, GoesWith, HasChosen, HasFilled, HasWorkers, HoldsMore, InnerDecoderStandsFor, IsDrained, IsQueueOf, IsSettledQueue, has_phase_now, held_in, lost_in, origin_in, plain_phase, ready_in, shared_by, sharing_in, unread};
ghost use Rattle.tm_inner.specs.InnerWindows.{AreReadOf, AreThere, octets_in, shape_in, step_in, window_in, windows_in, windows_after};
ghost use Rattle.tm_inner.specs.Receiving.{HasHanded};

use crate::code::{is_packed, is_signed, rate_of, shape_of};
use crate::counting::{plain_count, reported};
use crate::nearest::nearest_bits;
use crate::window::{NO_WINDOW, Window};
use std::alloc::Global;
use std::marker::Model;
use tm_base::NoMemory;
use tm_config::{Config, Sought};
use tm_conv::symbols_of;
use tm_viterbi::{Block, WindowShape};
use tm_windows::{Chosen, Crew, QueueSettings, STREAM_BOUND, WindowQueue};

/// What came of all octets.
#[derive(Clone, Copy, Debug, PartialEq, Eq)]
pub struct InnerEnd {
    /// How many bits were received.
    pub bits: u64,
    /// Before how many windows octets were dropped; None where the symbol phase is not followed.
    pub slips: Option<u64>,
    /// How many octets are left over after the last whole step of the inner code: none or one.
    pub leftover: u8,
}

/// The decoder of a configuration's inner code (CCSDS 131.0-B, Convolutional Coding): it drops the octets that are to be
/// skipped, undoes the soft form, and has a queue of windows. With no inner code the octets hold the bits themselves,
/// and it only counts them. It hands nothing over: octets are put in, runs of windows are decoded by a crew, and the
/// symbol phase and blocks are read. It takes all its memory at `open`.
#[derive(Drop)]
pub struct InnerDecoder {
    config: Config,
    // None where there is no inner code.
    queue: Option<WindowQueue>,
    // The octets given.
    count: u64,
    // Whether the symbol phase was read, or is given.
    has_phase: bool,
    // Whether all octets were given.
    has_ended: bool,
}

// No block, where there is none to speak of.
const NO_BLOCK: Block<'static> = Block {
    start: 0,
    steps: 0,
    kept: 0,
    metric: 0,
    bits: &[],
    end_state: 0,
    dropped: 0,
};

// The queue of windows of a configuration, or None where there is no inner code. Windows that keep up to `waiting` bits
// may be buffered.
fn queue_of(
    alloc: Global,
    config: &Config,
    workers: u8,
    waiting: u64,
) -> Result<Option<WindowQueue>, NoMemory>
    requires { (0 < workers) × (workers ≤ most_workers) }
    ensures of { IfOk result (IsQueueOf config.now) }
    ensures stands { IfOk result (λ queue. DecodesFor queue [] [] × IsDrained queue × HasChosen queue None) }
    ensures goes { IfOk result (λ queue. GoesWith queue 0 false) }
    ensures workers { IfOk result (HasWorkers workers waiting) }
{
    let Some(rate) = rate_of(config) else {
        return Ok(None);
    };
    let settings = QueueSettings {
        shape: shape_of(rate, config),
        start: config.values().start,
        find: config.values().phase == Sought::Find,
        follow: config.values().follow,
    };
    let queue = WindowQueue::open(alloc, settings, workers, waiting)?;
    Ok(Some(queue))
}

impl Model for InnerDecoder {
    ghost use Rattle.tm_config.specs.Accepted.{IsAccepted};
    ghost use Rattle.tm_inner.specs.InnerDecoding.{GoesWith, InnerDecoding, IsQueueOf, chosen_in};

    ghost Value = { InnerDecoding };

    ghost view = { λ d. record {
      config = d.config;
      queue = d.queue;
      count = d.count;
      chosen = chosen_in d.config d.queue d.count d.has_ended;
      has_phase = d.has_phase;
      has_ended = d.has_ended;
    } };

    ghost invariant = { λ d. IsQueueOf d.config d.queue × GoesWith d.queue d.count d.has_ended × IsAccepted d.config };
}

impl InnerDecoder {
    /// Opens a decoder of a configuration for 1 to 64 workers, with room to buffer windows that keep up to `waiting`
    /// bits, or as many as the workers decode at a time. It fails only where there isn't enough memory.
    pub fn open(
        alloc: Global,
        config: &Config,
        workers: u8,
        waiting: u64,
    ) -> Result<InnerDecoder, NoMemory>
        requires workers { (0 < workers) × (workers ≤ most_workers) }
        ensures config { IfOk result (λ d. d.config ≡ config.now) }
        ensures going { IfOk result (λ d. d.has_ended ≡ false) }
        ensures stands { IfOk result (λ d. HasHanded d [] []) }
        ensures workers { IfOk result (λ d. HasWorkers workers waiting d.queue) }
    {
        let queue = queue_of(alloc, config, workers, waiting)?;
        Ok(InnerDecoder {
            config: *config,
            queue,
            count: 0,
            has_phase: config.values().phase == Sought::Given,
            has_ended: false,
        })
    }

    /// Takes the next octets, or the first of them until there is no room for one more, decodes none, and returns how
    /// many it took. With no inner code it takes all. The octets given in all are to be below 2^60.
    pub fn fill(&mut self, octets: &[u8]) -> usize
        ensures config { self.new.config ≡ self.old.config }
        ensures most { result ≤ length octets.now }
        ensures all { HasFilled self.new.queue (length octets.now - result) }
        ensures some { IsDrained self.old.queue → 0 < length octets.now → 0 < result }
        ensures stands { (given : List ℕ) (blocks : List WindowBlock) → self.old.has_ended ≡ false
            → length given + result < stream_bound → InnerDecoderStandsFor self.old given blocks
            → InnerDecoderStandsFor self.new (given ++ take result octets.now) blocks }
        ensures settled { (chosen : Chosen) → self.old.chosen ≡ Some chosen → self.new.chosen ≡ Some chosen }
        ensures coded { is_some self.old.config.inner ≡ true → self.new.chosen ≡ self.old.chosen }
        ensures phase { (self.new.has_phase ≡ self.old.has_phase) × (self.new.has_ended ≡ self.old.has_ended) }
        ensures moved { length (held_in self.new.queue) ≤ length (held_in self.old.queue) + result }
        ensures sharing { sharing_in self.new.queue ≡ sharing_in self.old.queue }
    {
        if self.has_ended || octets.len() as u64 >= STREAM_BOUND.saturating_sub(self.count) {
            self.count = self.count.saturating_add(octets.len() as u64);
            return octets.len();
        }
        let skipped = self.octets_to_skip(octets.len());
        let taken = match &mut self.queue {
            Some(queue) => skipped + queue.fill(is_signed(&self.config), &octets[skipped..]),
            None => octets.len(),
        };
        self.count = self.count.saturating_add(taken as u64);
        taken
    }

    /// Decodes the next windows that are closed, and returns how many. Their blocks are ready then, and no others. With
    /// none ready, all that is due was decoded. The symbol phase may have been chosen: before the end it is, once it is
    /// settled.
    pub fn decode<C: Crew>(&mut self, crew: &C) -> usize
        requires ready { C.is_ready crew.now }
        ensures config { self.new.config ≡ self.old.config }
        ensures count { result ≡ length (ready_in self.new.queue) }
        ensures later { dropped_of (drop 1 (ready_in self.new.queue)) ≡ 0 }
        ensures there { AreThere self.new.queue }
        ensures windows { (given : List ℕ) (blocks : List WindowBlock) → InnerDecoderStandsFor self.old given blocks
            → windows_in self.new
            ≡ windows_after self.new.config (skip_of self.new.chosen) given blocks (ready_in self.new.queue) }
        ensures read { (given : List ℕ) (blocks : List WindowBlock) → InnerDecoderStandsFor self.old given blocks
            → AreReadOf self.new.queue (phase_octets self.new.config given) blocks }
        ensures stands { (given : List ℕ) (blocks : List WindowBlock) → InnerDecoderStandsFor self.old given blocks
            → InnerDecoderStandsFor self.new given (blocks ++ ready_in self.new.queue)
            × (self.old.has_ended ≡ false
            → IsSoFarBy self.new.config (phase_octets self.new.config given) self.new.chosen) }
        ensures drained { result ≡ 0 → IsDrained self.new.queue }
        ensures shorter { 0 < result → length (held_in self.new.queue) < length (held_in self.old.queue) }
        ensures moved { length (held_in self.new.queue) ≤ length (held_in self.old.queue) }
        ensures settled { (chosen : Chosen) → self.old.chosen ≡ Some chosen → self.new.chosen ≡ Some chosen }
        ensures still { IsSettledQueue self.old.queue → IsSettledQueue self.new.queue }
        ensures phase { (self.new.has_phase ≡ self.old.has_phase) × (self.new.has_ended ≡ self.old.has_ended) }
        ensures sharing { sharing_in self.new.queue ≡ shared_by (C.share crew.now) (sharing_in self.old.queue) }
    {
        match &mut self.queue {
            Some(queue) => queue.decode(crew),
            None => 0,
        }
    }

    /// Says that no octets come any more: the symbol phase is chosen, where it is to be found and was not chosen yet.
    pub fn settle(&mut self)
        ensures config { self.new.config ≡ self.old.config }
        ensures stands { (given : List ℕ) (blocks : List WindowBlock) → InnerDecoderStandsFor self.old given blocks
            → InnerDecoderStandsFor self.new given blocks × IsChosen self.new.config given self.new.chosen }
        ensures settled { IsSettledQueue self.new.queue }
        ensures stays { (chosen : Chosen) → self.old.chosen ≡ Some chosen → self.new.chosen ≡ Some chosen }
        ensures ended { self.new.has_ended ≡ true }
        ensures phase { self.new.has_phase ≡ self.old.has_phase }
        ensures sharing { sharing_in self.new.queue ≡ sharing_in self.old.queue }
    {
        self.has_ended = true;
        match &mut self.queue {
            Some(queue) => queue.settle(),
            None => {}
        }
    }

    /// Decodes the last window, once no other is closed: its block is ready then, where a step is left for it. Returns
    /// what came of all octets.
    pub fn last(&mut self) -> InnerEnd
        requires settled { IsSettledQueue self.old.queue }
        requires drained { IsDrained self.old.queue }
        ensures config { self.new.config ≡ self.old.config }
        ensures ends { (given : List ℕ) (blocks : List WindowBlock) → InnerDecoderStandsFor self.old given blocks
            → IsChosen self.old.config given self.old.chosen
            → AreInnerBlocks self.old.config (skip_of self.old.chosen) given
            (blocks ++ ready_in self.new.queue) result.leftover
            × (result.bits ≡ length (inner_bits self.old.config given (blocks ++ ready_in self.new.queue)))
            × (result.slips ≡ reported_slips self.old.config (blocks ++ ready_in self.new.queue))
            × (lost_in self.new.queue ≡ dropped_of (blocks ++ ready_in self.new.queue)) }
        ensures there { AreThere self.new.queue }
        ensures windows { (given : List ℕ) (blocks : List WindowBlock) → InnerDecoderStandsFor self.old given blocks
            → windows_in self.new
            ≡ windows_after self.new.config (skip_of self.new.chosen) given blocks (ready_in self.new.queue) }
        ensures read { (given : List ℕ) (blocks : List WindowBlock) → InnerDecoderStandsFor self.old given blocks
            → AreReadOf self.new.queue (phase_octets self.new.config given) blocks }
        ensures left { result.leftover ≤ 1 }
        ensures one { length (ready_in self.new.queue) ≤ 1 }
        ensures phase { (self.new.chosen ≡ self.old.chosen) × (self.new.has_phase ≡ self.old.has_phase) }
        ensures ended { self.new.has_ended ≡ self.old.has_ended }
        ensures sharing { sharing_in self.new.queue ≡ sharing_in self.old.queue }
    {
        match &mut self.queue {
            Some(queue) => {
                let leftover = queue.last();
                InnerEnd {
                    bits: queue.steps(),
                    slips: reported(&self.config, queue.slips()),
                    leftover,
                }
            }
            None => InnerEnd {
                bits: plain_count(&self.config, self.count).saturating_sub(self.config.skip()),
                slips: reported(&self.config, 0),
                leftover: 0,
            },
        }
    }

    /// The symbol phase, once: where it was chosen since this was asked last.
    pub fn new_phase(&mut self) -> Option<Chosen>
        ensures value { result ≡ unread self.old }
        ensures read { self.new ≡ record self.old { has_phase = has_phase_now self.old } }
    {
        if self.has_phase {
            return None;
        }
        let chosen = self.chosen();
        self.has_phase = chosen.is_some();
        chosen
    }

    /// The shape of its windows, or None where there is no inner code.
    pub fn shape(&self) -> Option<WindowShape>
        ensures shape { result ≡ shape_in self.now.queue }
        ensures of { IsQueueOf self.now.config self.now.queue × HasChosen self.now.queue self.now.chosen }
    {
        match &self.queue {
            Some(queue) => Some(queue.shape()),
            None => None,
        }
    }

    /// How many blocks are ready.
    pub fn ready(&self) -> usize
        ensures { result ≡ length (ready_in self.now.queue) }
    {
        match &self.queue {
            Some(queue) => queue.count(),
            None => 0,
        }
    }

    /// The bits that a block keeps which is ready, each 0 or 1.
    pub fn kept_bits(&self, index: usize) -> &[u8]
        requires { index < length (ready_in self.now.queue) }
        ensures { (block : WindowBlock) → result.now ≡ take (slice_index_or (ready_in self.now.queue) index block).kept
            (slice_index_or (ready_in self.now.queue) index block).bits }
    {
        match &self.queue {
            Some(queue) => queue.kept_bits(index),
            None => &[],
        }
    }

    /// A block that is ready.
    pub fn block(&self, index: usize) -> Block<'_>
        requires { index < length (ready_in self.now.queue) }
        ensures { (block : WindowBlock) → result ≡ slice_index_or (ready_in self.now.queue) index block }
    {
        match &self.queue {
            Some(queue) => queue.block(index),
            None => NO_BLOCK,
        }
    }

    /// The number of the first step of the window of a block that is ready.
    pub fn step(&self, index: usize) -> u64
        requires index { index < length (ready_in self.now.queue) }
        requires there { AreThere self.now.queue }
        ensures { result ≡ step_in self.now.queue index }
    {
        match &self.queue {
            Some(queue) => queue.step(index),
            None => 0,
        }
    }

    /// The soft octets of the window of a block that is ready, of which 0 is the surest 0 and 255 the surest 1. No octet
    /// may have been put in since it was decoded.
    pub fn octets(&self, index: usize) -> &[u8]
        requires index { index < length (ready_in self.now.queue) }
        requires there { AreThere self.now.queue }
        ensures octets { (block : WindowBlock) → result.now
            ≡ octets_in self.now.queue index (slice_index_or (ready_in self.now.queue) index block) }
        ensures size { (queue : Queueing) (block : WindowBlock) → self.now.queue ≡ Some queue → length result.now
            ≡ window_size queue index (slice_index_or queue.ready index block) }
        ensures path { (block : WindowBlock)
            → IsWindowPath most_window (slice_index_or (ready_in self.now.queue) index block) }
    {
        match &self.queue {
            Some(queue) => queue.octets(index),
            None => &[],
        }
    }

    /// Whether no symbol phase is still to be chosen, and the octets held, with none of them dropped, close windows
    /// that keep at most `bits` bits. With no inner code false.
    pub fn may_wait(&self, bits: u64) -> bool
        ensures waits { IsTrue result → self.now.has_ended ≡ false → (given : List ℕ) (blocks : List WindowBlock)
            → InnerDecoderStandsFor self.now given blocks → IsSettled self.now.config given
            × IsChosen self.now.config given self.now.chosen
            × ((more : List WindowBlock) × (length (kept_bits more) ≤ bits)
            × AreInnerDue self.now.config (skip_of self.now.chosen) given (blocks ++ more)) }
        ensures lets { result ≡ false → HoldsMore self.now.queue bits }
        ensures coded { IsTrue result → is_some self.now.config.inner ≡ true }
    {
        match &self.queue {
            Some(queue) => queue.may_wait(bits),
            None => false,
        }
    }

    /// The symbol phase that was chosen: None before the choice, and where the phase is given.
    pub fn chosen(&self) -> Option<Chosen>
        ensures { result ≡ self.now.chosen }
    {
        match &self.queue {
            Some(queue) => queue.chosen(),
            None => self.plain_phase(),
        }
    }

    // With no inner code phase 0 at no cost, from the first octet on or at the end.
    fn plain_phase(&self) -> Option<Chosen>
        ensures { result ≡ plain_phase self.now.config self.now.count self.now.has_ended }
    {
        if self.config.values().phase == Sought::Find && (self.count > 0 || self.has_ended) {
            Some(Chosen { skip: 0, cost: 0 })
        } else {
            None
        }
    }

    /// Before how many of the windows that were decoded octets were dropped.
    pub fn slips(&self) -> u64
        ensures { (given : List ℕ) (blocks : List WindowBlock) → InnerDecoderStandsFor self.now given blocks
            → result ≡ slips_of blocks }
    {
        match &self.queue {
            Some(queue) => queue.slips(),
            None => 0,
        }
    }

    /// How many of the symbols that were given are of no step, up to those of the ready blocks: those that were skipped,
    /// of the phase, and dropped. With no inner code the skipped bits.
    pub fn origin(&self) -> u64
        ensures value { result ≡ origin_in self.now }
        ensures few { result < 2 ^ 63 + 2 ^ 62 }
    {
        let Some(queue) = &self.queue else {
            return self.config.skip();
        };
        let phase = match queue.chosen() {
            Some(chosen) => u64::from(chosen.skip),
            None => 0,
        };
        self.config.skip() + phase + queue.lost()
    }

    /// What is said of the window of a block that is ready. No octet may have been put in since it was decoded.
    pub fn window(&self, index: usize) -> Window
        requires index { index < length (ready_in self.now.queue) }
        requires there { AreThere self.now.queue }
        ensures { result ≡ window_in self.now index }
    {
        let Some(queue) = &self.queue else {
            return NO_WINDOW;
        };
        let Some(rate) = rate_of(&self.config) else {
            return NO_WINDOW;
        };
        let block = queue.block(index);
        let counts = queue.counts(index);
        Window {
            symbol: self.origin() + symbols_of(rate, queue.step(index)),
            dropped: u64::from(block.dropped),
            steps: u64::from(block.steps),
            kept: u64::from(block.kept),
            metric: block.metric,
            octets: counts.octets,
            wrong: counts.wrong,
            distance: counts.distance,
            squares: counts.squares,
        }
    }

    /// Whether the configuration has an inner code. Where it has none, no block comes, and the octets hold the bits.
    pub fn has_inner_code(&self) -> bool
        ensures { result ≡ is_some self.now.config.inner }
    {
        self.queue.is_some()
    }

    /// With no inner code, how many bits of the next octets are still to be skipped, 0 to 15. The bits after them are
    /// received.
    pub fn bits_to_skip(&self) -> u64
        ensures { result ≡ self.now.config.skip - plain_count self.now.config self.now.count }
    {
        self.config
            .skip()
            .saturating_sub(plain_count(&self.config, self.count))
    }

    /// Whether octets hold eight bits each where there is no inner code. Else each is one bit, which `nearest_bits`
    /// says.
    pub fn is_packed(&self) -> bool
        ensures { result ≡ self.now.config.pack }
    {
        is_packed(&self.config)
    }

    /// Puts the bits that octets are nearest to in `bits`, each 0 or 1: 1 for an octet from 80 (hex) on, or in the
    /// signed form from 00 to 7F.
    pub fn nearest_bits(&self, octets: &[u8], bits: &mut [u8])
        requires { length bits.old ≡ length octets.now }
        ensures size { length bits.new ≡ length bits.old }
        ensures are_bits { AreBits bits.new }
        ensures bits { map (λ bit. bit == 1) bits.new ≡ map (nearest_bit self.now.config) octets.now }
    {
        nearest_bits(&self.config, octets, bits);
    }

    /// How many of the next `count` octets may be given: in all they are below 2^60. Once no more may be given, the
    /// symbol phase is settled.
    pub fn within(&self, count: usize) -> usize
        ensures value { result ≡ min count (stream_bound - 1 - self.now.count) }
        ensures settles { (octets : List ℕ) → stream_bound ≤ length octets + 1 → IsSettled self.now.config octets }
    {
        let left = (STREAM_BOUND - 1).saturating_sub(self.count);
        left.min(count as u64) as usize
    }

    // How many of the next `count` octets are still to be skipped; with no inner code none, as bits are skipped then.
    fn octets_to_skip(&self, count: usize) -> usize
        ensures { result ≡ min (skipped_at self.now.config.inner self.now.config - self.now.count) count }
    {
        if self.has_inner_code() {
            let left = self.config.skip().saturating_sub(self.count);
            left.min(count as u64) as usize
        } else {
            0
        }
    }
}
