// The queue of windows: octets that are not decoded yet, and the blocks of the windows that were decoded last.
ghost use Rattle.std.specs.Prelude.{◌≡◌, ◌↔◌, ◌++◌, ◌⊎◌, ℕ, ◌+◌, ◌-◌, ◌*◌, ◌<◌, ◌≤◌, IsTrue, List, [], true, false, Some, None, if◌then◌else◌, IfOk, OnErr, OnOk, drop, length, min, slice_index_or, take, vec_len};
ghost use Rattle.std.specs.List.{All};
ghost use Rattle.std.specs.Option.{ForSome};
ghost use Rattle.tm_base.specs.Limits.{most_workers};
ghost use Rattle.tm_base.specs.Outside.{HasCause};
ghost use Rattle.tm_base.specs.SoftForm.{from_form};
ghost use Rattle.tm_base.specs.Takers.{HandedOver, HandedPart};
ghost use Rattle.tm_conv.specs.Path.{steps_size, registers};
ghost use Rattle.tm_viterbi.specs.Clean.{kept_bits};
ghost use Rattle.tm_viterbi.specs.Due.{AreDue};
ghost use Rattle.tm_viterbi.specs.WindowBlock.{WindowBlock};
ghost use Rattle.tm_viterbi.specs.WindowSizes.{least_keep, most_keep, most_ahead, most_window, stream_bound};
ghost use Rattle.tm_windows.specs.Candidates.{HaveRoom};
ghost use Rattle.tm_windows.specs.Phase.{most_period_size};
ghost use Rattle.tm_windows.specs.Slip.{octets_seen, steps_seen};
ghost use Rattle.tm_windows.specs.Windows.{dropped_of, slip_at, starts_after, undecided};
ghost use Rattle.tm_windows.specs.Sharing.{least_shared_ahead, most_windows, most_window_steps, worker_steps};

use crate::candidate::Candidate;
use crate::choosing::{Chosen, choose, octets_needed};
use crate::crew::Crew;
use crate::looks::{Looks, next_drop};
use crate::run::decode_windows;
use crate::sharing::are_shared;
use crate::slipping::{octets_seen, slip, steps_seen};
use crate::window_run::WindowRun;
use std::alloc::{AllocError, Global};
use std::marker::Model;
use tm_base::{Failed, Held, NoMemory};
use tm_conv::{Rate, SymbolCounts, best_path_law, steps_len, symbol_counts};
use tm_viterbi::{Block, BlockTaker, Start, WindowDecoder, WindowShape, first_start};

/// The octets given to a decoder in all are fewer.
pub const STREAM_BOUND: u64 = 1 << 60;

// The steps of the windows that a worker has at a time: enough that making a thread costs little beside them.
const STEPS_EACH: usize = 1 << 20;

/// How octets are cut into windows.
#[derive(Clone, Copy, Debug)]
pub struct QueueSettings {
    /// The windows' shape: they keep 64 to 65,536 steps, and have at most 4,096 ahead.
    pub shape: WindowShape,
    /// From which registers the first path may start.
    pub start: Start,
    /// Whether the symbol phase is to be found before the first window.
    pub find: bool,
    /// Whether a slip is looked for before each other window.
    pub follow: bool,
}

/// A stream of soft octets in windows (CCSDS 131.0-B, Convolutional Coding): the octets of windows that are not decoded
/// yet, and the blocks of the run of windows that was decoded last. Before each window it decides how many octets are
/// dropped: before the first one those of the symbol phase, where that is to be found, and before the others a slip,
/// where the phase is followed. It hands nothing over: octets are put in, runs are decoded by a crew, and blocks are
/// read. It takes all its memory at `open`.
#[derive(Drop)]
pub struct WindowQueue {
    settings: QueueSettings,
    // Over how many steps a slip is looked for, where the phase is followed.
    seen: Option<usize>,
    // None before the choice, and where the phase is given.
    chosen: Option<Chosen>,
    // Where the next window begins: from which registers, at which step, and after how many dropped octets, where this
    // was decided.
    starts: Option<u8>,
    t: u64,
    dropped: Option<u8>,
    // Before how many of the windows so far octets were dropped, and how many.
    slips: u64,
    lost: u64,
    // The octets that were put in, and after how many of them the next window begins.
    held: Held,
    passed: usize,
    decoders: Vec<WindowDecoder>,
    candidates: Vec<Candidate>,
    // No octets come any more.
    has_ended: bool,
    // How many candidates are the blocks of the last run.
    ready: usize,
    // The step at which it begins, and after how many of the octets.
    run_t: u64,
    run_at: usize,
    // By how many workers at most: what clauses alone read.
    by: usize,
}

impl Model for WindowQueue {
    ghost use Rattle.std.specs.Prelude.{◌≡◌, ◌⊎◌, ◌+◌, ◌*◌, ◌^◌, ◌<◌, ◌≤◌, None, Some, drop, length, map, take, true, vec_len};
    ghost use Rattle.std.specs.List.{All};
    ghost use Rattle.std.specs.Option.{ForSome};
    ghost use Rattle.tm_base.specs.Limits.{most_workers};
    ghost use Rattle.tm_conv.specs.Path.{registers};
    ghost use Rattle.tm_viterbi.specs.WindowSizes.{least_keep, most_keep, most_ahead};
    ghost use Rattle.tm_windows.specs.Candidates.{HaveRoom, block_of};
    ghost use Rattle.tm_windows.specs.Phase.{most_period_size};
    ghost use Rattle.tm_windows.specs.Queue.{Queueing, windows_of};
    ghost use Rattle.tm_windows.specs.Sharing.{most_windows};
    ghost use Rattle.tm_windows.specs.Slip.{most_seen};

    ghost Value = { Queueing };

    ghost view = { λ q. record {
      windows = windows_of q.settings q.seen;
      find = q.settings.find;
      most = vec_len q.candidates;
      workers = vec_len q.decoders;
      chosen = q.chosen;
      starts = q.starts;
      t = q.t;
      dropped = q.dropped;
      slips = q.slips;
      lost = q.lost;
      held = drop q.passed q.held.octets;
      has_ended = q.has_ended;
      ready = map block_of (take q.ready q.candidates.items);
      by = q.by;
      run_t = q.run_t;
      read = drop q.run_at q.held.octets;
    } };

    ghost invariant = { λ q.
        ((least_keep ≤ q.settings.shape.keep) × (q.settings.shape.keep ≤ most_keep) × (q.settings.shape.ahead ≤ most_ahead))
        × ((0 < vec_len q.decoders) × (vec_len q.decoders ≤ most_workers))
        × ((0 < vec_len q.candidates) × (vec_len q.candidates ≤ most_windows))
        × All (λ d. d ≡ q.settings.shape) q.decoders.items
        × HaveRoom (q.settings.shape.keep + q.settings.shape.ahead) q.candidates.items
        × ForSome q.starts (λ register. register < registers)
        × ForSome q.seen (λ steps. (1 ≤ steps) × (steps ≤ most_seen)
        × (steps + most_period_size ≤ q.settings.shape.keep + q.settings.shape.ahead))
        × (q.seen ≡ None → ((q.settings.find ≡ true) × (q.chosen ≡ None)) ⊎ (q.dropped ≡ Some 0))
        × (q.settings.find ≡ true → q.chosen ≡ None → q.dropped ≡ None)
        × (q.slips ≤ q.t) × (q.ready ≤ vec_len q.candidates)
        × ForSome q.dropped (λ count. count ≤ most_period_size) × (q.lost ≤ most_period_size * q.t)
        × (2 * (vec_len q.candidates * q.settings.shape.keep + q.settings.shape.ahead + 1) ≤ q.held.room)
        × (q.held.room ≤ 2 ^ 40) × (q.run_at ≤ q.passed) × (q.passed ≤ length q.held.octets) };
}

// `count` decoders of windows of one shape.
fn new_decoders(
    alloc: Global,
    shape: WindowShape,
    count: usize,
) -> Result<Vec<WindowDecoder>, AllocError>
    requires { shape.keep + shape.ahead ≤ most_window }
    ensures shape { IfOk result (λ decoders. All (λ d. d ≡ shape) decoders.items) }
    ensures count { IfOk result (λ decoders. vec_len decoders ≡ count) }
{
    let mut decoders = Vec::with_capacity(alloc, count)?;
    for _ in 0..count {
        let Ok(decoder) = WindowDecoder::new(alloc, shape) else {
            return Err(AllocError);
        };
        decoders.push(decoder)?;
    }
    Ok(decoders)
}

// Room for `count` candidates, each of a window of `steps` steps.
pub(crate) fn new_candidates(
    alloc: Global,
    steps: usize,
    count: usize,
) -> Result<Vec<Candidate>, AllocError>
    ensures room { IfOk result (λ candidates. HaveRoom steps candidates.items) }
    ensures count { IfOk result (λ candidates. vec_len candidates ≡ count) }
{
    let mut candidates = Vec::with_capacity(alloc, count)?;
    for _ in 0..count {
        let candidate = Candidate::new(alloc, steps)?;
        candidates.push(candidate)?;
    }
    Ok(candidates)
}

// How many windows `workers` workers have at a time: one each, and more where windows are shared out, but then no more
// than it takes to keep `waiting` bits and one more: as many as that, or as have `STEPS_EACH` steps a worker.
fn window_count(workers: u8, shape: WindowShape, waiting: u64) -> usize
    requires workers { (0 < workers) × (workers ≤ most_workers) }
    requires keep { (least_keep ≤ shape.keep) × (shape.keep ≤ most_keep) }
    requires ahead { shape.ahead ≤ most_ahead }
    ensures each { workers ≤ result }
    ensures alone { workers ≡ 1 → result ≡ 1 }
    ensures small { result ≤ most_windows }
    ensures bound { result * (shape.keep + shape.ahead) ≤ most_window_steps }
    ensures few { (result ≤ workers) ⊎ (result * shape.keep ≤ waiting + shape.keep) }
    ensures enough { 1 < workers → least_shared_ahead ≤ shape.ahead → (waiting < result * shape.keep)
        ⊎ (workers * worker_steps < (result + workers) * (shape.keep + shape.ahead)) }
{
    let each = usize::from(workers);
    if workers == 1 || !are_shared(shape) {
        return each;
    }
    let most = each * (STEPS_EACH / (shape.keep + shape.ahead));
    let needed = waiting / shape.keep as u64 + 1;
    each.max(needed.min(most as u64) as usize)
}

// How many whole steps `len` octets have from step t on, at most `limit`.
fn whole_steps(rate: Rate, t: u64, len: usize, limit: usize) -> usize
    requires few { (t < stream_bound) × (limit < stream_bound) }
    ensures whole { steps_size rate t result ≤ len }
    ensures most { result ≤ limit }
    ensures all { result < limit → len < steps_size rate t (result + 1) }
{
    let mut low = 0;
    let mut above = limit + 1;
    while above - low > 1 {
        let middle = low + (above - low) / 2;
        if steps_len(rate, t, middle) <= len {
            low = middle;
        } else {
            above = middle;
        }
    }
    low
}

// How many windows `len` octets close from step t on, at most `most`.
fn closed_windows(shape: WindowShape, t: u64, len: usize, most: usize) -> usize
    requires sizes { (least_keep ≤ shape.keep) × (shape.keep ≤ most_keep) × (shape.ahead ≤ most_ahead) }
    requires most { most ≤ most_windows }
    requires few { t < stream_bound }
    ensures most { result ≤ most }
    ensures room { 0 < result → steps_size shape.rate t (result * shape.keep + shape.ahead + 1) ≤ len }
    ensures some { 0 < most → steps_size shape.rate t (shape.keep + shape.ahead + 1) ≤ len → 0 < result }
    ensures all { result < most → len < steps_size shape.rate t ((result + 1) * shape.keep + shape.ahead + 1) }
{
    if len < steps_len(shape.rate, t, shape.keep + shape.ahead + 1) {
        return 0;
    }
    let limit = most * shape.keep + shape.ahead + 1;
    let steps = whole_steps(shape.rate, t, len, limit);
    steps.saturating_sub(shape.ahead + 1) / shape.keep
}

// From which registers a window may start after `dropped` octets are dropped: from any, unless that is 0.
fn starts_after(starts: Option<u8>, dropped: u8) -> Option<u8>
    requires { ForSome starts (λ register. register < registers) }
    ensures value { result ≡ starts_after dropped starts }
    ensures small { ForSome result (λ register. register < registers) }
{
    if dropped == 0 { starts } else { None }
}

// 1 where octets were dropped, and else 0.
fn slip_at(dropped: u8) -> u64
    ensures value { result ≡ slip_at dropped }
    ensures small { result ≤ 1 }
{
    if dropped == 0 { 0 } else { 1 }
}

// Before a window that is still to be looked at: nothing is dropped, where it is not looked for.
fn undecided(looks: bool) -> Option<u8>
    ensures { result ≡ undecided looks }
{
    if looks { None } else { Some(0) }
}

// Converts the octets from number `first` on to unsigned ones, where they are signed.
fn convert(held: &mut Held, is_signed: bool, first: usize)
    requires { first ≤ length held.old.octets }
    ensures octets { held.new.octets
        ≡ take first held.old.octets ++ from_form is_signed (drop first held.old.octets) }
    ensures room { held.new.room ≡ held.old.room }
{
    if is_signed {
        held.to_unsigned(first);
    }
}

// The octets from number `first` on.
fn octets_from(held: &Held, first: usize) -> &[u8]
    requires { first ≤ length held.now.octets }
    ensures octets { result.now ≡ drop first held.now.octets }
    ensures room { length result.now ≤ held.now.room }
{
    &held.as_slice()[first..]
}

// After how many octets those stand that come after the next `count`, or after all, where fewer are there.
fn passed_by(held: &Held, passed: usize, count: usize) -> usize
    requires { passed ≤ length held.now.octets }
    ensures octets { drop result held.now.octets ≡ drop count (drop passed held.now.octets) }
    ensures inside { (passed ≤ result) × (result ≤ length held.now.octets) }
{
    let left = held.as_slice().len() - passed;
    passed + left.min(count)
}

impl WindowQueue {
    ghost use Rattle.tm_windows.specs.Queue.{AfterPhase, AwaitsPhase, BeforePhase, HoldsRun, IsOpen, IsRead, IsSameQueue, IsThere, QueueEndsFor, QueueStandsFor, SharesAmong, fill_room, octets_of, phase_size, reached, shape_of, skip_of, step_of, window_size, windows_of};
    ghost use Rattle.tm_windows.specs.Windows.{AreDueIn, AreUndropped, block_counts};
    ghost use Rattle.tm_windows.specs.declared.choosing.Chosen.{Chosen};

    /// A queue with no octets, for 1 to 64 workers, where windows that keep at most `waiting` bits may be buffered.
    /// There is room for a window for each worker at least, and for one alone where there is one worker; for no more
    /// than one each, or than it takes to keep these bits and one more; where windows are shared out, for as many, or
    /// for those of 2^20 steps a worker. It fails only where there isn't enough memory.
    pub fn open(
        alloc: Global,
        settings: QueueSettings,
        workers: u8,
        waiting: u64,
    ) -> Result<WindowQueue, NoMemory>
        requires keep { (least_keep ≤ settings.shape.keep) × (settings.shape.keep ≤ most_keep) }
        requires ahead { settings.shape.ahead ≤ most_ahead }
        requires workers { (0 < workers) × (workers ≤ most_workers) }
        ensures windows { IfOk result (λ q. q.windows ≡ windows_of settings
            (if settings.follow then Some (steps_seen settings.shape.keep settings.shape.ahead) else None)) }
        ensures find { IfOk result (λ q. q.find ≡ settings.find) }
        ensures workers { IfOk result (λ q. SharesAmong workers waiting q) }
        ensures stands { IfOk result (λ q. QueueStandsFor q [] []) }
        ensures is_open { IfOk result (λ q. IsOpen q) }
        ensures fresh { IfOk result (λ q. (q.chosen ≡ None) × (q.has_ended ≡ false) × (reached q ≡ 0)) }
    {
        let shape = settings.shape;
        let most = window_count(workers, shape, waiting);
        let Ok(decoders) = new_decoders(alloc, shape, usize::from(workers)) else {
            return Err(NoMemory);
        };
        let Ok(candidates) = new_candidates(alloc, shape.keep + shape.ahead, most) else {
            return Err(NoMemory);
        };
        let Ok(held) = Held::open(alloc, 2 * (most * shape.keep + shape.ahead + 1)) else {
            return Err(NoMemory);
        };
        Ok(WindowQueue {
            settings,
            seen: if settings.follow {
                Some(steps_seen(shape.keep, shape.ahead))
            } else {
                None
            },
            chosen: None,
            starts: first_start(settings.start),
            t: 0,
            dropped: undecided(settings.find),
            slips: 0,
            lost: 0,
            held,
            passed: 0,
            decoders,
            candidates,
            has_ended: false,
            ready: 0,
            run_t: 0,
            run_at: 0,
            by: 0,
        })
    }

    // Whether the symbol phase is still to be chosen.
    fn awaits_phase(&self) -> bool
        ensures { IsTrue result ↔ AwaitsPhase self.now }
    {
        self.settings.find && self.chosen.is_none()
    }

    // With how many octets the phase is chosen, whatever octets come.
    fn phase_size(&self) -> usize
        ensures { result ≡ phase_size self.now }
    {
        let shape = self.settings.shape;
        octets_needed(shape.rate, (shape.keep + shape.ahead) as u32)
    }

    // How many octets are held at most: those by which the phase is chosen, and then those that close as many windows
    // as are decoded at a time.
    fn room(&self) -> usize
        requires few { self.now.t < stream_bound }
        ensures { result ≡ fill_room self.now }
    {
        if self.awaits_phase() {
            return self.phase_size();
        }
        let shape = self.settings.shape;
        let steps = self.candidates.len() * shape.keep + shape.ahead + 1;
        steps_len(shape.rate, self.t, steps)
    }

    /// Takes as many of the next soft octets as there is room for, signed or not, decodes none, and returns how many.
    /// Where no window was closed, some are taken. The octets given in all are to be below 2^60.
    pub fn fill(&mut self, is_signed: bool, octets: &[u8]) -> usize
        requires going { self.old.has_ended ≡ false }
        requires few { reached self.old + length octets.now < stream_bound }
        ensures count { result ≡ min (length octets.now) (fill_room self.old - length self.old.held) }
        ensures some { IsOpen self.old → 0 < length octets.now → 0 < result }
        ensures stands { (given : List ℕ) (done : List WindowBlock) → QueueStandsFor self.old given done
            → QueueStandsFor self.new (given ++ from_form is_signed (take result octets.now)) done }
        ensures counted { reached self.new ≡ reached self.old + result }
        ensures place { self.new.t ≡ self.old.t }
        ensures phase { self.new.chosen ≡ self.old.chosen }
        ensures ended { self.new.has_ended ≡ self.old.has_ended }
        ensures by { self.new.by ≡ self.old.by }
        ensures same { IsSameQueue self.old self.new }
    {
        let most = self.room();
        self.held.drop_first(self.passed);
        self.run_at = 0;
        self.passed = 0;
        let before = self.held.as_slice().len();
        let count = self.held.fill(octets, most.saturating_sub(before));
        convert(&mut self.held, is_signed, before);
        count
    }

    /// Decodes the next windows that the octets held close, up to the next before which octets are dropped, and returns
    /// how many. Their blocks are ready then, and no others. With none ready, all that is due was decoded; the symbol
    /// phase may have been chosen.
    pub fn decode<C: Crew>(&mut self, crew: &C) -> usize
        requires ready { C.is_ready crew.now }
        requires few { reached self.old < stream_bound }
        ensures count { result ≡ length self.new.ready }
        ensures stands { (given : List ℕ) (done : List WindowBlock) → QueueStandsFor self.old given done
            → QueueStandsFor self.new given (done ++ self.new.ready) }
        ensures later { dropped_of (drop 1 self.new.ready) ≡ 0 }
        ensures there { 0 < result → IsThere self.new }
        ensures read { 0 < result → (given : List ℕ) (done : List WindowBlock) → QueueStandsFor self.old given done
            → IsRead self.new given done }
        ensures is_open { result ≡ 0 → IsOpen self.new }
        ensures waits { result ≡ 0 → (given : List ℕ) (done : List WindowBlock) → BeforePhase self.new given done
            → length self.new.held < phase_size self.new }
        ensures shorter { 0 < result → length self.new.held < length self.old.held }
        ensures moved { length self.new.held ≤ length self.old.held }
        ensures counted { reached self.new ≤ reached self.old }
        ensures settled { (chosen : Chosen) → self.old.chosen ≡ Some chosen → self.new.chosen ≡ Some chosen }
        ensures ended { self.new.has_ended ≡ self.old.has_ended }
        ensures by { self.new.by ≡ C.share crew.now self.old.workers }
        ensures same { IsSameQueue self.old self.new }
    {
        let workers = crew.share(self.decoders.len());
        let is_decided = self.decide();
        self.by = workers;
        self.ready = 0;
        if !is_decided {
            return 0;
        }
        let count = self.count_run(crew);
        if count == 0 {
            return 0;
        }
        self.decode_run(crew, count);
        count
    }

    // Decides how many octets are dropped before the next window, and drops them, where enough are there. Returns
    // whether it is decided.
    #[tactic(auto, using(crate::proofs::Phases::period_size_most))]
    fn decide(&mut self) -> bool
        requires few { self.old.t < stream_bound }
        ensures stands { (given : List ℕ) (done : List WindowBlock) → QueueStandsFor self.old given done
            → QueueStandsFor self.new given done }
        ensures decided { IsTrue result → (dropped : ℕ) × (self.new.dropped ≡ Some dropped) }
        ensures chosen { IsTrue result → AwaitsPhase self.new → ⊥ }
        ensures undecided { result ≡ false → (self.new.dropped ≡ None)
            × ((AwaitsPhase self.new × (length self.new.held < phase_size self.new))
            ⊎ ((AwaitsPhase self.new → ⊥) × ((steps : ℕ) × (self.new.windows.seen ≡ Some steps)
            × (length self.new.held < octets_seen self.new.windows.settings.rate self.new.t steps)))) }
        ensures shorter { length self.new.held ≤ length self.old.held }
        ensures settled { (chosen : Chosen) → self.old.chosen ≡ Some chosen → self.new.chosen ≡ Some chosen }
        ensures place { self.new.t ≡ self.old.t }
        ensures ended { self.new.has_ended ≡ self.old.has_ended }
        ensures same { IsSameQueue self.old self.new }
    {
        if let Some(_) = self.dropped {
            return true;
        }
        if self.awaits_phase() {
            if octets_from(&self.held, self.passed).len() < self.phase_size() {
                return false;
            }
            self.choose();
            return true;
        }
        let Some(steps) = self.seen else {
            return true;
        };
        let shape = self.settings.shape;
        let octets = octets_from(&self.held, self.passed);
        if octets.len() < octets_seen(shape.rate, self.t, steps) {
            return false;
        }
        let count = slip(shape.rate, shape.invert, self.t, steps, octets);
        self.starts = starts_after(self.starts, count);
        self.passed = passed_by(&self.held, self.passed, usize::from(count));
        self.dropped = Some(count);
        true
    }

    // Chooses the symbol phase by the octets that are held.
    fn choose(&mut self)
        requires awaits { AwaitsPhase self.old }
        ensures stands { (given : List ℕ) (done : List WindowBlock) → QueueStandsFor self.old given done
            → AfterPhase (record self.new { has_ended = true }) given done }
        ensures lasts { phase_size self.old ≤ length self.old.held → (given : List ℕ) (done : List WindowBlock)
            → QueueStandsFor self.old given done → AfterPhase self.new given done }
        ensures decided { self.new.dropped ≡ Some 0 }
        ensures settled { AwaitsPhase self.new → ⊥ }
        ensures shorter { length self.new.held ≤ length self.old.held }
        ensures by { self.new.by ≡ self.old.by }
        ensures same { IsSameQueue self.old self.new × (self.new.t ≡ self.old.t)
            × (self.new.has_ended ≡ self.old.has_ended) }
    {
        let shape = self.settings.shape;
        let window = (shape.keep + shape.ahead) as u32;
        let octets = octets_from(&self.held, self.passed);
        let chosen = choose(shape.rate, shape.invert, window, octets);
        self.passed = passed_by(&self.held, self.passed, usize::from(chosen.skip));
        self.chosen = Some(chosen);
        self.dropped = Some(0);
    }

    /// Says that no octets come any more. The symbol phase is chosen by those that are held, where it is still to be
    /// chosen.
    pub fn settle(&mut self)
        ensures stands { (given : List ℕ) (done : List WindowBlock) → QueueStandsFor self.old given done
            → AfterPhase self.new given done }
        ensures settled { AwaitsPhase self.new → ⊥ }
        ensures stays { (chosen : Chosen) → self.old.chosen ≡ Some chosen → self.new.chosen ≡ Some chosen }
        ensures ended { self.new.has_ended ≡ true }
        ensures shorter { length self.new.held ≤ length self.old.held }
        ensures by { self.new.by ≡ self.old.by }
        ensures same { IsSameQueue self.old self.new × (self.new.t ≡ self.old.t) }
    {
        if self.awaits_phase() {
            self.choose();
        }
        self.has_ended = true;
    }

    // How many windows the octets held close from the next one on, with nothing dropped before any but the next. Where
    // the phase is followed the crew looks for the next drop.
    fn count_run<C: Crew>(&self, crew: &C) -> usize
        requires ready { C.is_ready crew.now }
        requires decided { (dropped : ℕ) × (self.now.dropped ≡ Some dropped) }
        requires few { reached self.now < stream_bound }
        ensures most { result ≤ self.now.most }
        ensures room { 0 < result → HoldsRun self.now result }
        ensures some { HoldsRun self.now 1 → 0 < result }
        ensures undropped { AreUndropped self.now.windows self.now.t self.now.held result }
        ensures longest { result < self.now.most → HoldsRun self.now (result + 1)
            → AreUndropped self.now.windows self.now.t self.now.held (result + 1) → ⊥ }
    {
        let shape = self.settings.shape;
        let octets = octets_from(&self.held, self.passed);
        let most = closed_windows(shape, self.t, octets.len(), self.candidates.len());
        if most < 2 {
            return most;
        }
        let Some(steps) = self.seen else {
            return most;
        };
        let looks = Looks {
            shape,
            steps,
            t: self.t,
            octets,
        };
        next_drop(crew, &looks, self.decoders.len(), most)
    }

    // Has the crew decode `count` windows, which the octets held close. Those that were decoded from another register
    // than the one after the window before them are decoded again.
    fn decode_run<C: Crew>(&mut self, crew: &C, count: usize)
        requires ready { C.is_ready crew.now }
        requires decided { (dropped : ℕ) × (self.old.dropped ≡ Some dropped) }
        requires some { (0 < count) × (count ≤ self.old.most) }
        requires room { HoldsRun self.old count }
        requires undropped { AreUndropped self.old.windows self.old.t self.old.held count }
        requires few { reached self.old < stream_bound }
        ensures count { length self.new.ready ≡ count }
        ensures later { dropped_of (drop 1 self.new.ready) ≡ 0 }
        ensures there { IsThere self.new }
        ensures read { (given : List ℕ) (done : List WindowBlock) → QueueStandsFor self.old given done
            → IsRead self.new given done }
        ensures stands { (given : List ℕ) (done : List WindowBlock) → QueueStandsFor self.old given done
            → QueueStandsFor self.new given (done ++ self.new.ready) }
        ensures shorter { length self.new.held < length self.old.held }
        ensures counted { reached self.new ≤ reached self.old }
        ensures phase { self.new.chosen ≡ self.old.chosen }
        ensures ended { self.new.has_ended ≡ self.old.has_ended }
        ensures by { self.new.by ≡ self.old.by }
        ensures same { IsSameQueue self.old self.new }
    {
        let shape = self.settings.shape;
        let steps = count * shape.keep;
        let size = steps_len(shape.rate, self.t, steps + shape.ahead + 1);
        let run = WindowRun {
            shape,
            starts: self.starts,
            t: self.t,
            octets: &octets_from(&self.held, self.passed)[..size],
        };
        let dropped = self.dropped.unwrap_or(0);
        let decoders = self.decoders.as_mut_slice();
        let candidates = self.candidates.as_mut_slice();
        self.starts = decode_windows(crew, decoders, candidates, count, &run, dropped);
        self.run_t = self.t;
        self.run_at = self.passed;
        let size = steps_len(shape.rate, self.t, steps);
        self.passed = passed_by(&self.held, self.passed, size);
        self.t += steps as u64;
        self.slips += slip_at(dropped);
        self.lost += u64::from(dropped);
        self.dropped = undecided(self.seen.is_some());
        self.ready = count;
    }

    /// Decodes the last window, where a step is left for it: its block is ready then. Returns how many octets are left
    /// over after the last whole step: none or one. It is called once no window is closed and no octets come.
    pub fn last(&mut self) -> u8
        requires settled { AwaitsPhase self.old → ⊥ }
        requires is_open { IsOpen self.old }
        requires few { self.old.t < stream_bound }
        ensures ends { (given : List ℕ) (done : List WindowBlock) → QueueStandsFor self.old given done
            → QueueEndsFor self.new given (done ++ self.new.ready) result }
        ensures left { result ≤ 1 }
        ensures one { length self.new.ready ≤ 1 }
        ensures there { 0 < length self.new.ready → IsThere self.new }
        ensures read { 0 < length self.new.ready → (given : List ℕ) (done : List WindowBlock)
            → QueueStandsFor self.old given done → IsRead self.new given done }
        ensures counted { reached self.new ≤ reached self.old }
        ensures phase { self.new.chosen ≡ self.old.chosen }
        ensures ended { self.new.has_ended ≡ self.old.has_ended }
        ensures by { self.new.by ≡ self.old.by }
        ensures same { IsSameQueue self.old self.new }
    {
        let shape = self.settings.shape;
        let octets = octets_from(&self.held, self.passed);
        let limit = shape.keep + shape.ahead;
        let steps = whole_steps(shape.rate, self.t, octets.len(), limit);
        let left = (octets.len() - steps_len(shape.rate, self.t, steps)) as u8;
        self.ready = 0;
        if steps == 0 {
            self.passed = self.held.as_slice().len();
            return left;
        }
        let run = WindowRun {
            shape,
            starts: self.starts,
            t: self.t,
            octets,
        };
        let dropped = self.dropped.unwrap_or(0);
        run.decode_last(
            &mut self.decoders[0],
            &mut self.candidates[0],
            steps,
            dropped,
        );
        self.run_t = self.t;
        self.run_at = self.passed;
        self.passed = self.held.as_slice().len();
        self.t += steps as u64;
        self.slips += slip_at(dropped);
        self.lost += u64::from(dropped);
        self.ready = 1;
        left
    }

    /// The shape of its windows.
    pub fn shape(&self) -> WindowShape
        ensures { result ≡ shape_of self.now }
    {
        self.settings.shape
    }

    /// How many blocks are ready.
    pub fn count(&self) -> usize
        ensures { result ≡ length self.now.ready }
    {
        self.ready
    }

    /// A block that is ready.
    pub fn block(&self, index: usize) -> Block<'_>
        requires { index < length self.now.ready }
        ensures { (block : WindowBlock) → result ≡ slice_index_or self.now.ready index block }
    {
        self.candidates[index].block()
    }

    /// The bits that it keeps, each 0 or 1.
    pub fn kept_bits(&self, index: usize) -> &[u8]
        requires { index < length self.now.ready }
        ensures { (block : WindowBlock) → result.now ≡ take (slice_index_or self.now.ready index block).kept
            (slice_index_or self.now.ready index block).bits }
    {
        self.candidates[index].kept_bits()
    }

    /// What the octets of the steps that it keeps say against the symbols of its path. No octet may have been put in
    /// since it was decoded.
    pub fn counts(&self, index: usize) -> SymbolCounts
        requires index { index < length self.now.ready }
        requires there { IsThere self.now }
        ensures { (block : WindowBlock) → result ≡ block_counts self.now.windows.settings (step_of self.now index)
            (octets_of self.now index) (slice_index_or self.now.ready index block) }
    {
        let shape = self.settings.shape;
        let register = self.block(index).start;
        let bits = self.kept_bits(index);
        let t = self.step(index);
        symbol_counts(
            shape.rate,
            shape.invert,
            t,
            register,
            bits,
            self.read_from(index),
        )
    }

    /// The soft octets of the steps of its window. No octet may have been put in since it was decoded.
    pub fn octets(&self, index: usize) -> &[u8]
        requires index { index < length self.now.ready }
        requires there { IsThere self.now }
        ensures octets { (block : WindowBlock) → result.now
            ≡ take (window_size self.now index (slice_index_or self.now.ready index block)) (octets_of self.now index) }
        ensures size { (block : WindowBlock) → length result.now
            ≡ window_size self.now index (slice_index_or self.now.ready index block) }
    {
        let steps = self.block(index).steps as usize;
        let size = steps_len(self.settings.shape.rate, self.step(index), steps);
        &self.read_from(index)[..size]
    }

    // The octets from the first step of its window on.
    fn read_from(&self, index: usize) -> &[u8]
        requires index { index < length self.now.ready }
        requires there { IsThere self.now }
        ensures octets { result.now ≡ octets_of self.now index }
        ensures room { (block : WindowBlock) → window_size self.now index (slice_index_or self.now.ready index block)
            ≤ length result.now }
    {
        let shape = self.settings.shape;
        let first = steps_len(shape.rate, self.run_t, index * shape.keep);
        &octets_from(&self.held, self.run_at)[first..]
    }

    /// The step at which the window of a block that is ready begins.
    pub fn step(&self, index: usize) -> u64
        requires index { index < length self.now.ready }
        requires there { IsThere self.now }
        ensures { result ≡ step_of self.now index }
    {
        self.run_t + (index * self.settings.shape.keep) as u64
    }

    /// Hands over the blocks that are ready.
    pub fn hand<B: BlockTaker>(&self, blocks: &mut B) -> Result<(), Failed>
        ensures ok { OnOk result (HandedOver B.took blocks.old self.now.ready blocks.new) }
        ensures err { OnErr result (HandedPart B.took B.broke blocks.old self.now.ready blocks.new) }
        ensures cause { HasCause (B.faults blocks.old) (B.faults blocks.new) (B.is_last blocks.new) result }
    {
        for index in 0..self.ready {
            match blocks.block(&self.block(index)) {
                Ok(()) => {}
                Err(Failed) => return Err(Failed),
            }
        }
        Ok(())
    }

    /// How many windows the octets held close, or more where the phase is followed, since octets may be dropped: with
    /// those before them no more than if none were. None before the phase is chosen.
    pub fn count_closed(&self) -> usize
        requires few { self.now.t < stream_bound }
        ensures due { (given : List ℕ) (done : List WindowBlock) → QueueStandsFor self.now given done
            → (AwaitsPhase self.now → ⊥) → (more : List WindowBlock) × (length more ≤ result)
            × (self.now.windows.seen ≡ None → length more ≡ result)
            × AreDueIn self.now.windows (drop (skip_of self.now.chosen) given) (done ++ more) }
        ensures most { (given : List ℕ) (done plain : List WindowBlock) → QueueStandsFor self.now given done
            → (AwaitsPhase self.now → ⊥)
            → AreDue self.now.windows.settings (drop (skip_of self.now.chosen) given) plain
            → length done + result ≤ length plain }
        ensures held { 0 < result → HoldsRun self.now result }
        ensures few { result ≤ self.now.most }
    {
        best_path_law();
        if self.awaits_phase() {
            return 0;
        }
        let len = octets_from(&self.held, self.passed).len();
        closed_windows(self.settings.shape, self.t, len, self.candidates.len())
    }

    /// Whether no symbol phase is still to be chosen, and the octets held, with none of them dropped, close windows
    /// that keep at most `bits` bits.
    pub fn may_wait(&self, bits: u64) -> bool
        requires few { self.now.t < stream_bound }
        ensures waits { IsTrue result → (AwaitsPhase self.now → ⊥)
            × ((given : List ℕ) (done : List WindowBlock) → QueueStandsFor self.now given done
            → (more : List WindowBlock) × (length (kept_bits more) ≤ bits)
            × AreDueIn self.now.windows (drop (skip_of self.now.chosen) given) (done ++ more)
            × ((plain : List WindowBlock) → AreDue self.now.windows.settings (drop (skip_of self.now.chosen) given) plain
            → length (kept_bits done) + length (kept_bits more) ≤ length (kept_bits plain))) }
        ensures lets { result ≡ false → AwaitsPhase self.now ⊎ ((count : ℕ) × HoldsRun self.now count
            × (bits < count * self.now.windows.settings.keep)) }
    {
        !self.awaits_phase() && self.count_closed() as u64 * self.settings.shape.keep as u64 <= bits
    }

    /// The symbol phase that was chosen: None before the choice, and where the phase is given.
    pub fn chosen(&self) -> Option<Chosen>
        ensures { result ≡ self.now.chosen }
    {
        self.chosen
    }

    /// Before how many of the windows that were decoded octets were dropped.
    pub fn slips(&self) -> u64
        ensures { result ≡ self.now.slips }
    {
        self.slips
    }

    /// How many octets were dropped before the windows that were decoded.
    pub fn lost(&self) -> u64
        ensures value { result ≡ self.now.lost }
        ensures few { result ≤ most_period_size * self.now.t }
    {
        self.lost
    }

    /// How many steps the windows keep that were decoded.
    pub fn steps(&self) -> u64
        ensures { result ≡ self.now.t }
    {
        self.t
    }
}

/// The octets of a piece, or none of them where more would be given in all than are counted.
pub(crate) fn counted(count: u64, piece: &[u8]) -> &[u8]
    requires { count < stream_bound }
    ensures fits { count + length result.now < stream_bound }
    ensures all { count + length piece.now < stream_bound → result.now ≡ piece.now }
    ensures prefix { (more : List ℕ) × (result.now ++ more ≡ piece.now) }
{
    if piece.len() as u64 >= STREAM_BOUND - count {
        &piece[..0]
    } else {
        piece
    }
}
