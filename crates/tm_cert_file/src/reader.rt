// A certificate that is being read, window by window.
ghost use Rattle.std.specs.Prelude.{◌≡◌, ◌++◌, ◌∷◌, ◌+◌, ◌<◌, ◌≤◌, ℕ, List, [], None, IfOk, length, take};
ghost use Rattle.tm_conv.specs.Path.{register_after};
ghost use Rattle.tm_viterbi.specs.WindowSizes.{most_keep, most_ahead};
ghost use Rattle.tm_path_cert.specs.Claim.{AreRegisters};
ghost use Rattle.tm_cert_file.specs.Window.{
  Window,
  header_size,
  steps_in,
  kept_in,
  start_in,
  metric_in,
  bits_end,
  soft_end,
  window_size,
  window_in,
  window_room,
};
ghost use Rattle.tm_cert_file.specs.Before.{at_first, after_window, most_kept};
ghost use Rattle.tm_cert_file.specs.Seen.{reason_in, IsSeen, IsVerdictOn};
ghost use Rattle.tm_cert_file.specs.File.{is_cut, kept_octets};
ghost use Rattle.tm_cert_file.specs.Reading.{IsOpen, HasPassed, ReaderStandsFor};

use crate::judging::{
    are_bits, has_shape, is_joined, is_over, next_after, register_after, seen_by,
};
use crate::numbers::{COLUMN, HEADER, read_column, read_u32, read_u64};
use crate::seen::{Next, Reason, Seen};
use crate::writing::span;
use std::alloc::Global;
use std::marker::Model;
use tm_base::{Held, NoMemory};
use tm_conv::Rate;
use tm_path_cert::{Check, Starts, Verdict};

// The most steps that the windows before one keep together.
const MOST_KEPT: u64 = 1 << 43;

/// Reads a certificate in pieces, and checks each of its windows once it is whole. It keeps the octets of one window,
/// and of the one before those after its kept steps. It takes its memory at `open`: 259 octets for each step of a
/// window, two for each step after the kept ones, and 273.
#[derive(Drop)]
pub struct Reader {
    rate: Rate,
    invert: bool,
    // Where the first path may start.
    first: Starts,
    keep: u32,
    ahead: u32,
    // What the windows before leave to the next one.
    t: u64,
    starts: Starts,
    tail: Held,
    next: Next,
    octets: Held,
}

impl Model for Reader {
    ghost use Rattle.std.specs.Prelude.{◌≤◌, ◌<◌, ◌+◌, ◌*◌, length};
    ghost use Rattle.tm_viterbi.specs.WindowSizes.{most_keep, most_ahead};
    ghost use Rattle.tm_path_cert.specs.Claim.{AreRegisters};
    ghost use Rattle.tm_cert_file.specs.Reading.{Reading};
    ghost use Rattle.tm_cert_file.specs.Before.{most_kept};
    ghost use Rattle.tm_cert_file.specs.Window.{window_room};

    ghost Value = { Reading };

    ghost view = { λ r. record {
      rules = record { rate = r.rate; invert = r.invert; starts = r.first; keep = r.keep; ahead = r.ahead };
      before = record { t = r.t; starts = r.starts; octets = r.tail.octets; next = r.next };
      octets = r.octets.octets;
    } };

    ghost invariant = { λ r. (r.keep ≤ most_keep) × (r.ahead ≤ most_ahead) × (r.t ≤ most_kept) × AreRegisters r.starts
        × (2 * r.ahead ≤ r.tail.room) × (window_room (r.keep + r.ahead) ≤ r.octets.room) };
}

impl Reader {
    /// A reader of the certificates of windows of `keep` steps, 64 to 65,536, and `ahead` more, at most 4,096. Where
    /// `invert` is set each second sum was sent inverted. It fails only where there isn't enough memory.
    pub fn open(
        alloc: Global,
        rate: Rate,
        invert: bool,
        starts: Starts,
        keep: u32,
        ahead: u32,
    ) -> Result<Reader, NoMemory>
        requires keep { keep ≤ most_keep }
        requires ahead { ahead ≤ most_ahead }
        requires start { AreRegisters starts }
        ensures rules { IfOk result (λ r. r.rules ≡ record {
          rate = rate;
          invert = invert;
          starts = starts;
          keep = keep;
          ahead = ahead;
        }) }
        ensures fresh { IfOk result (λ r. (r.before ≡ at_first r.rules) × (r.octets ≡ []) × IsOpen r) }
        ensures stands { IfOk result (λ r. ReaderStandsFor r [] []) }
    {
        let steps = (keep + ahead) as usize;
        let Ok(octets) = Held::open(alloc, HEADER + 3 * steps + COLUMN * (steps + 1)) else {
            return Err(NoMemory);
        };
        let Ok(tail) = Held::open(alloc, 2 * ahead as usize) else {
            return Err(NoMemory);
        };
        Ok(Reader {
            rate,
            invert,
            first: starts,
            keep,
            ahead,
            t: 0,
            starts,
            tail,
            next: Next::May,
            octets,
        })
    }

    /// Takes octets from the start of `piece`, until something is seen of the window, and returns how many and what is
    /// seen by them. It may be called while nothing is seen yet.
    pub fn push(&mut self, piece: &[u8]) -> (usize, Seen)
        requires open { IsOpen self.old }
        ensures taken { result.0 ≤ length piece.now }
        ensures some { 0 < length piece.now → 0 < result.0 }
        ensures octets { self.new.octets ≡ self.old.octets ++ take result.0 piece.now }
        ensures rules { self.new.rules ≡ self.old.rules }
        ensures before { self.new.before ≡ self.old.before }
        ensures seen { IsSeen self.old.rules self.old.before self.new.octets result.1 }
        ensures first { (count : ℕ) → count < result.0
            → IsSeen self.old.rules self.old.before (self.old.octets ++ take count piece.now) Seen.More }
        ensures all { result.1 ≡ Seen.More → result.0 ≡ length piece.now }
        ensures just { result.1 ≡ Seen.Passed → HasPassed self.new }
        ensures stands { (given : List ℕ) (windows : List Window) → ReaderStandsFor self.old given windows
            → ReaderStandsFor self.new (given ++ take result.0 piece.now) windows }
    {
        let mut taken = 0;
        while taken < piece.len() {
            let goal = self.goal();
            taken += self
                .octets
                .fill(&piece[taken..], goal - self.octets.as_slice().len());
            match self.look(goal) {
                Seen::More => {}
                seen => return (taken, seen),
            }
        }
        (taken, Seen::More)
    }

    // Where the bits, the soft octets and the columns of the window end, once its header is there.
    fn ends(&self) -> (usize, usize, usize)
        requires long { header_size ≤ length self.now.octets }
        requires few { steps_in self.now.octets ≤ self.now.rules.keep + self.now.rules.ahead }
        ensures bits { result.0 ≡ bits_end (steps_in self.now.octets) }
        ensures soft { result.1 ≡ soft_end self.now.rules.rate self.now.before.t (steps_in self.now.octets) }
        ensures columns { result.2 ≡ window_size self.now.rules.rate self.now.before.t (steps_in self.now.octets) }
        ensures room { result.2 ≤ window_room (self.now.rules.keep + self.now.rules.ahead) }
    {
        let steps = read_u32(self.octets.as_slice());
        let bits_end = HEADER + steps as usize;
        let soft_end = bits_end + span(self.rate, self.t, u64::from(steps));
        (bits_end, soft_end, soft_end + COLUMN * (steps as usize + 1))
    }

    // How many octets the window has once more of it can be seen.
    fn goal(&self) -> usize
        requires { IsOpen self.now }
        ensures more { length self.now.octets < result }
        ensures room { result ≤ window_room (self.now.rules.keep + self.now.rules.ahead) }
        ensures open { (more : List ℕ) → length self.now.octets + length more < result
            → IsSeen self.now.rules self.now.before (self.now.octets ++ more) Seen.More }
    {
        let held = self.octets.as_slice().len();
        if is_over(self.next) {
            return 1;
        }
        if held < HEADER {
            return HEADER;
        }
        let (bits_end, soft_end, end) = self.ends();
        if held < bits_end {
            return bits_end;
        }
        if held < soft_end {
            return soft_end;
        }
        end
    }

    // The first reason against the window but for its columns, as far as it shows in its octets.
    fn reason(&self) -> Option<Reason>
        ensures { result ≡ reason_in self.now.rules self.now.before self.now.octets }
    {
        let held = self.octets.as_slice();
        if held.is_empty() {
            return None;
        }
        if is_over(self.next) {
            return Some(Reason::Shape);
        }
        if held.len() < HEADER {
            return None;
        }
        let steps = read_u32(held);
        if !has_shape(
            self.keep,
            self.ahead,
            self.next,
            steps,
            read_u32(&held[4..]),
            held[8],
        ) {
            return Some(Reason::Shape);
        }
        let (bits_end, soft_end, _) = self.ends();
        if held.len() < bits_end {
            return None;
        }
        if !are_bits(&held[HEADER..bits_end]) {
            return Some(Reason::Shape);
        }
        if held.len() < soft_end {
            return None;
        }
        let tail = self.tail.as_slice();
        if !is_joined(self.starts, held[8], &held[bits_end..soft_end], tail) {
            return Some(Reason::Joint);
        }
        None
    }

    // What is answered of the path by the columns of a window that is whole and has no reason against it.
    fn verdict(&self) -> Verdict
        requires right { reason_in self.now.rules self.now.before self.now.octets ≡ None }
        requires whole { window_size self.now.rules.rate self.now.before.t (steps_in self.now.octets)
            ≤ length self.now.octets }
        ensures { IsVerdictOn self.now.rules self.now.before
            (window_in self.now.rules.rate self.now.before.t self.now.octets) result }
    {
        let (bits_end, soft_end, end) = self.ends();
        let held = self.octets.as_slice();
        let soft = &held[bits_end..soft_end];
        let mut check = Check::new(self.rate, self.invert, self.t, self.starts, soft);
        let mut at = soft_end;
        while at < end {
            check.column(&read_column(&held[at..at + COLUMN]));
            at += COLUMN;
        }
        check.finish(&held[HEADER..bits_end], held[8], read_u64(&held[9..]))
    }

    // What is seen of the window by its octets. Fewer than `goal` show nothing.
    fn look(&self, goal: usize) -> Seen
        requires { length self.now.octets < goal → IsOpen self.now }
        ensures { IsSeen self.now.rules self.now.before self.now.octets result }
    {
        let held = self.octets.as_slice();
        if held.len() < goal {
            return Seen::More;
        }
        if let Some(reason) = self.reason() {
            return Seen::Failed(reason);
        }
        if held.len() < HEADER {
            return Seen::More;
        }
        let (_, _, end) = self.ends();
        if held.len() < end {
            return Seen::More;
        }
        seen_by(self.verdict())
    }

    /// How many steps the window has that passed.
    pub fn steps(&self) -> u32
        requires { HasPassed self.now }
        ensures { result ≡ steps_in self.now.octets }
    {
        read_u32(self.octets.as_slice())
    }

    /// How many of them are kept.
    pub fn kept(&self) -> u32
        requires { HasPassed self.now }
        ensures { result ≡ kept_in self.now.octets }
    {
        read_u32(&self.octets.as_slice()[4..])
    }

    /// What the window's path costs.
    pub fn metric(&self) -> u64
        requires { HasPassed self.now }
        ensures { result ≡ metric_in self.now.octets }
    {
        read_u64(&self.octets.as_slice()[9..])
    }

    /// The soft octets of the kept steps of the window that passed.
    pub fn kept_octets(&self) -> &[u8]
        requires { HasPassed self.now }
        ensures { result.now ≡ kept_octets self.now.rules.rate self.now.before.t
            (window_in self.now.rules.rate self.now.before.t self.now.octets) }
    {
        let (first, _, _) = self.ends();
        let size = span(self.rate, self.t, u64::from(self.kept()));
        &self.octets.as_slice()[first..first + size]
    }

    /// Begins the next window, after the kept steps of the one that passed. Of all windows fewer than 2^43 steps are to
    /// be kept.
    pub fn next_window(&mut self)
        requires { HasPassed self.old }
        ensures rules { self.new.rules ≡ self.old.rules }
        ensures octets { self.new.octets ≡ [] }
        ensures open { IsOpen self.new }
        ensures before { self.old.before.t + kept_in self.old.octets ≤ most_kept
            → self.new.before ≡ after_window self.old.rules self.old.before
            (window_in self.old.rules.rate self.old.before.t self.old.octets) }
        ensures stands { (given : List ℕ) (windows : List Window)
            → self.old.before.t + kept_in self.old.octets ≤ most_kept → ReaderStandsFor self.old given windows
            → ReaderStandsFor self.new given (windows ++ window_in self.old.rules.rate self.old.before.t self.old.octets
            ∷ []) }
    {
        let steps = self.steps();
        let kept = self.kept();
        let (bits_end, soft_end, _) = self.ends();
        let first = bits_end + span(self.rate, self.t, u64::from(kept));
        let held = self.octets.as_slice();
        self.tail.clear();
        let _ = self.tail.fill(&held[first..soft_end], soft_end - first);
        let register = register_after(held[8], &held[HEADER..HEADER + kept as usize]);
        self.starts = Starts::One(register);
        self.next = next_after(self.keep, self.ahead, steps, kept);
        self.t = (self.t + u64::from(kept)).min(MOST_KEPT);
        self.octets.clear();
    }

    /// Whether the certificate may not end here: it would end inside of a window, or where one is missing.
    pub fn is_cut(&self) -> bool
        ensures { result ≡ is_cut self.now.before.next self.now.octets }
    {
        !self.octets.as_slice().is_empty() || self.next == Next::Must
    }
}
