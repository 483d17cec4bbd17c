// The check itself, fed column by column.
ghost use Rattle.std.specs.Prelude.{◌≡◌, ℕ, ◌+◌, ◌-◌, ◌*◌, ◌/◌, ◌^◌, ◌<◌, ◌≤◌, List, [], ◌∷◌, ◌++◌, IsTrue, length};
ghost use Rattle.tm_conv.specs.Path.{AreBits, steps_size, registers};
ghost use Rattle.tm_conv.specs.Best.{IsCandidate};
ghost use Rattle.tm_conv.specs.Columns.{last_certified};
ghost use Rattle.tm_path_cert.specs.Claim.{AreRegisters, is_start, path_cost, most_steps};
ghost use Rattle.tm_path_cert.specs.Tests.{HoldsAt, IsFirstFailing, first_place};

use crate::columns::{first_less, first_start_wrong, first_undercut};
use crate::steps::{Step, path_sum};
use crate::verdicts::{Starts, Verdict};
use std::marker::Model;
use tm_conv::{Rate, step_len};

/// Checks a path and its metric by columns of sums, which are given one after another. It keeps the last column alone.
#[derive(Drop)]
pub struct Check<'a> {
    rate: Rate,
    invert: bool,
    first: u64,
    starts: Starts,
    soft: &'a [u8],
    // The columns given so far, and the octets of the steps between them.
    count: u32,
    place: usize,
    last: [u32; 64],
    wrong: Option<(u32, u8)>,
}

impl<'a> Model for Check<'a> {
    ghost use Rattle.std.specs.Prelude.{◌≡◌, ◌≤◌, ◌-◌, ◌^◌, length};
    ghost use Rattle.tm_conv.specs.Path.{steps_size};
    ghost use Rattle.tm_conv.specs.Columns.{last_certified};
    ghost use Rattle.tm_path_cert.specs.Claim.{AreRegisters, most_soft};
    ghost use Rattle.tm_path_cert.specs.Checking.{Checking};

    ghost Value = { Checking };

    ghost view = { λ c. record {
      claim = record { rate = c.rate; invert = c.invert; first = c.first; starts = c.starts; soft = c.soft.now };
      count = c.count;
      last = c.last;
      wrong = c.wrong;
    } };

    ghost invariant = { λ c. (c.place ≡ steps_size c.rate c.first (c.count - 1)) × (length c.soft.now ≤ most_soft)
        × (c.first ≤ last_certified) };
}

impl<'a> Check<'a> {
    ghost use Rattle.tm_path_cert.specs.Checking.{CheckStandsFor, IsVerdict};

    /// A check of soft octets, which are the symbols of whole steps from step `first` on, at most 2^24 steps.
    /// It was given no column yet.
    pub fn new(rate: Rate, invert: bool, first: u64, start: Starts, soft: &'a [u8]) -> Check<'a>
        requires steps { (steps : ℕ) × (steps ≤ most_steps) × (length soft.now ≡ steps_size rate first steps) }
        requires first { first ≤ last_certified }
        requires start { AreRegisters start }
        ensures claim { result.claim ≡ record {
          rate = rate;
          invert = invert;
          first = first;
          starts = start;
          soft = soft.now;
        } }
        ensures count { result.count ≡ 0 }
        ensures stands { CheckStandsFor result [] }
    {
        Check {
            rate,
            invert,
            first,
            starts: start,
            soft,
            count: 0,
            place: 0,
            last: [0; 64],
            wrong: None,
        }
    }

    /// Takes the next column. Columns are given once more than there are steps.
    pub fn column(&mut self, sums: &[u32; 64])
        requires more { steps_size self.old.claim.rate self.old.claim.first self.old.count
            ≤ length self.old.claim.soft }
        ensures claim { self.new.claim ≡ self.old.claim }
        ensures count { self.new.count ≡ self.old.count + 1 }
        ensures stands { (given : List (List ℕ)) → CheckStandsFor self.old given
            → CheckStandsFor self.new (given ++ sums.now ∷ []) }
    {
        let size = self.step_size();
        let found = self.first_wrong(sums);
        self.wrong = first_place(self.wrong, self.count, found);
        self.last = *sums;
        self.place += size;
        self.count += 1;
    }

    // How many octets the step to the next column has; none before the first.
    fn step_size(&self) -> usize
        ensures { steps_size self.now.claim.rate self.now.claim.first (self.now.count - 1) + result
            ≡ steps_size self.now.claim.rate self.now.claim.first self.now.count }
    {
        if self.count == 0 {
            return 0;
        }
        step_len(self.rate, self.first + u64::from(self.count - 1))
    }

    // The least register at which the next column is wrong.
    fn first_wrong(&self, sums: &[u32; 64]) -> Option<u8>
        requires more { steps_size self.now.claim.rate self.now.claim.first self.now.count
            ≤ length self.now.claim.soft }
        ensures { IsFirstFailing (λ register. HoldsAt self.now.claim self.now.count self.now.last sums.now register)
            result }
    {
        if self.count == 0 {
            return first_start_wrong(self.starts, sums);
        }
        let t = self.first + u64::from(self.count - 1);
        let step = Step {
            rate: self.rate,
            invert: self.invert,
            t,
            octets: &self.soft[self.place..self.place + step_len(self.rate, t)],
        };
        first_undercut(&step, &self.last, sums)
    }

    /// Returns the answer for a path of `bits`, one to each step and each 0 or 1, from a start `register`, and its
    /// `metric`, once each column was given.
    pub fn finish(self, bits: &[u8], register: u8, metric: u64) -> Verdict
        requires steps { length self.claim.soft ≡ steps_size self.claim.rate self.claim.first (length bits.now) }
        requires bits { AreBits bits.now }
        requires columns { self.count ≡ length bits.now + 1 }
        requires register { register < registers }
        requires start { IsTrue (is_start self.claim.starts register) }
        ensures verdict { (given : List (List ℕ)) → CheckStandsFor self.entry given
            → IsVerdict self.entry.claim given register bits.now metric result }
        ensures least { (given : List (List ℕ)) → CheckStandsFor self.entry given → result ≡ Verdict.Yes
            → (initial : ℕ) (others : List ℕ)
            → IsCandidate (is_start self.entry.claim.starts) self.entry.claim.rate self.entry.claim.invert
            self.entry.claim.first self.entry.claim.soft initial others
            → metric ≤ path_cost self.entry.claim initial others }
        ensures reached { result ≡ Verdict.Yes → path_cost self.entry.claim register bits.now ≡ metric }
    {
        if let Some((column, state)) = self.wrong {
            return Verdict::No(column, state);
        }
        if let Some(state) = first_less(&self.last, metric) {
            return Verdict::No(self.count - 1, state);
        }
        let sum = path_sum(
            self.rate,
            self.invert,
            self.first,
            self.soft,
            register,
            bits,
        );
        if sum == metric {
            Verdict::Yes
        } else {
            Verdict::Sum(sum)
        }
    }
}

// The first place that is wrong, after a column in which this register was found.
fn first_place(earlier: Option<(u32, u8)>, column: u32, found: Option<u8>) -> Option<(u32, u8)>
    ensures { result ≡ first_place earlier column found }
{
    match (earlier, found) {
        (Some(place), _) => Some(place),
        (None, Some(register)) => Some((column, register)),
        (None, None) => None,
    }
}
