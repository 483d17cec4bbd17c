// The path metrics of the Viterbi algorithm without its survivors.
ghost use Rattle.std.specs.Prelude.{◌≡◌, ◌++◌, ℕ, ◌+◌, ◌*◌, ◌<◌, ◌≤◌, List, [], IfSome, length};
ghost use Rattle.tm_conv.specs.Path.{path, step_size, steps_size, registers};
ghost use Rattle.tm_conv.specs.Cost.{cost};
ghost use Rattle.tm_conv.specs.Columns.{IsColumn, last_certified};
ghost use Rattle.tm_viterbi.specs.Starts.{starts_from};
ghost use Rattle.tm_viterbi.specs.Summing.{SumsFor};
ghost use Rattle.tm_viterbi.specs.WindowSizes.{most_window};

use crate::block::Start;
use crate::forward_pass::step;
use crate::path_ends::first_sums;
use std::marker::Model;
use tm_conv::Rate;

/// The columns of least costs, one step after another (CCSDS 131.0-B, Convolutional Coding). It takes no memory.
#[derive(Drop)]
pub struct Sums {
    rate: Rate,
    invert: bool,
    first: u64,
    start: Option<u8>,
    steps: u32,
    column: [u32; 64],
}

impl Model for Sums {
    ghost use Rattle.std.specs.Prelude.{◌≤◌, ◌+◌, ◌*◌, ◌^◌};
    ghost use Rattle.tm_conv.specs.Columns.{last_certified, barred_cost};
    ghost use Rattle.tm_conv.specs.Cost.{most_branch_metric};
    ghost use Rattle.tm_viterbi.specs.Totals.{AreAtMost};
    ghost use Rattle.tm_viterbi.specs.Summing.{Summing};
    ghost use Rattle.tm_viterbi.specs.WindowSizes.{most_window};

    ghost Value = { Summing };

    ghost view = { λ s. record {
      rate = s.rate;
      invert = s.invert;
      first = s.first;
      start = s.start;
      steps = s.steps;
      column = s.column;
    } };

    ghost invariant = { λ s. (s.first ≤ last_certified) × (s.steps ≤ most_window)
        × AreAtMost (barred_cost + most_branch_metric * s.steps) s.column };
}

impl Sums {
    /// The sums before step `first`, at most 2^44: 0 for the register `start`, below 64, or for all 64 registers at
    /// `None`, and else 2^30.
    #[tactic(auto, unfolding(tm_conv::specs::Path::steps_size))]
    pub fn new(rate: Rate, invert: bool, first: u64, start: Option<u8>) -> Sums
        requires first { first ≤ last_certified }
        requires start { IfSome start (λ register. register < registers) }
        ensures began { (result.rate ≡ rate) × (result.invert ≡ invert) × (result.first ≡ first)
            × (result.start ≡ start) × (result.steps ≡ 0) }
        ensures stands { SumsFor result [] }
    {
        Sums {
            rate,
            invert,
            first,
            start,
            steps: 0,
            column: first_sums(start),
        }
    }

    /// Takes the soft octets of the next step, just as many as it sends symbols; at most 69,632 steps in all.
    pub fn step(&mut self, octets: &[u8])
        requires size { length octets.now ≡ step_size self.old.rate (self.old.first + self.old.steps) }
        requires few { self.old.steps < most_window }
        ensures began { (self.new.rate ≡ self.old.rate) × (self.new.invert ≡ self.old.invert)
            × (self.new.first ≡ self.old.first) × (self.new.start ≡ self.old.start) }
        ensures steps { self.new.steps ≡ self.old.steps + 1 }
        ensures stands { (given : List ℕ) → SumsFor self.old given → SumsFor self.new (given ++ octets.now) }
    {
        let most = (1 << 30) + 510 * self.steps;
        let now = self.first + u64::from(self.steps);
        let _ = step(self.rate, self.invert, now, octets, &mut self.column, most);
        self.steps += 1;
    }

    /// The column after the steps so far: for each register the least cost of a path to it, with what its first
    /// register costs.
    pub fn column(&self) -> &[u32; 64]
        ensures column { result.now ≡ self.now.column }
        ensures least { (given : List ℕ) → SumsFor self.now given
            → IsColumn (starts_from self.now.start) self.now.rate self.now.invert self.now.first given result.now }
    {
        &self.column
    }
}
