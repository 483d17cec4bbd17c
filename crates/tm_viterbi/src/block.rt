// What the decoder hands over, and to whom.
ghost use Rattle.std.specs.Prelude.{◌≡◌, ◌<◌, ℕ, OnErr, OnOk};
ghost use Rattle.std.specs.Option.{ForSome};
ghost use Rattle.tm_base.specs.Outside.{HasCause};
ghost use Rattle.tm_conv.specs.Path.{registers};
ghost use Rattle.tm_viterbi.specs.Starts.{first_start};
ghost use Rattle.tm_viterbi.specs.WindowBlock.{WindowBlock};

use std::marker::Model;
use tm_base::Failed;

/// Where the first window's path may start: from register 0 alone, or from any of the 64.
#[derive(Clone, Copy, Debug, PartialEq, Eq)]
pub enum Start {
    /// Register 0.
    Zero,
    /// Any register.
    Any,
}

/// The register that the first window's path may start from, where it is one alone.
pub fn first_start(start: Start) -> Option<u8>
    ensures value { result ≡ first_start start }
    ensures small { ForSome result (λ register. register < registers) }
{
    match start {
        Start::Zero => Some(0),
        Start::Any => None,
    }
}

/// The best path of a window (CCSDS 131.0-B, Convolutional Coding).
#[derive(Debug, Drop)]
pub struct Block<'a> {
    /// The register that the path starts from, below 64; u[t-1] has weight 32, u[t-6] weight 1.
    pub start: u8,
    /// How many steps the window has.
    pub steps: u32,
    /// How many of them, from the first, are kept: all in the last window.
    pub kept: u32,
    /// What the path costs over the whole window.
    pub metric: u64,
    /// A bit for each step of the window, each 0 or 1.
    pub bits: &'a [u8],
    /// The register after the kept bits, from which the next window starts.
    pub end_state: u8,
    /// How many octets were dropped before the window: none but where the symbol phase is followed.
    pub dropped: u8,
}

impl<'a> Model for Block<'a> {
    ghost Value = { WindowBlock };

    ghost view = { λ b. record {
      start = b.start;
      steps = b.steps;
      kept = b.kept;
      metric = b.metric;
      bits = b.bits.now;
      end_state = b.end_state;
      dropped = b.dropped;
    } };
}

/// What takes the symbol phase, where it is to be found, and then blocks, one after another. It counts its faults, and
/// the count never falls.
pub trait BlockTaker {
    /// How often a call has failed.
    ghost faults: { Self → ℕ };

    /// The count of faults stands at its last value, so that it can't rise.
    ghost is_last: { Self → Type 0 };

    /// What taking a block does to the taker.
    ghost took: { Self → WindowBlock → Self → Type 0 };

    /// What a block does at which the taker fails.
    ghost broke: { Self → WindowBlock → Self → Type 0 };

    /// What taking the symbol phase does: how many octets are skipped, and what the best path after them costs.
    ghost took_phase: { Self → ℕ → ℕ → Self → Type 0 };

    /// What a symbol phase does at which the taker fails.
    ghost broke_phase: { Self → ℕ → ℕ → Self → Type 0 };

    /// Takes the next block. `Failed` comes only where the count of faults rose.
    fn block(&mut self, b: &Block<'_>) -> Result<(), Failed>
        ensures ok { OnOk result (took self.old b.now self.new) }
        ensures err { OnErr result (broke self.old b.now self.new) }
        ensures cause { HasCause (faults self.old) (faults self.new) (is_last self.new) result };

    /// Takes the symbol phase that was chosen: `skip` octets are skipped, and the best path after them costs `cost`.
    /// `Failed` comes only where the count of faults rose.
    fn phase(&mut self, skip: u8, cost: u64) -> Result<(), Failed>
        ensures ok { OnOk result (took_phase self.old skip cost self.new) }
        ensures err { OnErr result (broke_phase self.old skip cost self.new) }
        ensures cause { HasCause (faults self.old) (faults self.new) (is_last self.new) result };
}
