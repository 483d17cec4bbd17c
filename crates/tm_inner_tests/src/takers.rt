// A taker that keeps the phase, what blocks tell, and what is said of windows.
ghost use Rattle.std.specs.Prelude.{◌≡◌};
ghost use Rattle.tm_base.specs.Count.{last_count};

use std::alloc::Global;
use tm_base::Failed;
use tm_inner::{InnerDecoder, Window, WindowWatch};
use tm_viterbi::{Block, BlockTaker};

/// A block that was handed over, with the first of its bits.
#[derive(Clone, Copy, PartialEq, Eq)]
pub struct Kept {
    pub start: u8,
    pub steps: u32,
    pub kept: u32,
    pub metric: u64,
    pub first: u8,
    pub end_state: u8,
}

/// A block of one step from register 0 to register 0, at no cost.
pub const STEP: Kept = Kept {
    start: 0,
    steps: 1,
    kept: 1,
    metric: 0,
    first: 0,
    end_state: 0,
};

/// It takes one phase, before any block, and fails where it is out of memory.
#[derive(Drop)]
pub struct Collector {
    kept: Vec<Kept>,
    windows: Vec<Window>,
    // Its skip and its cost.
    phase: Option<(u8, u64)>,
    faults: u64,
}

impl Collector {
    pub fn new(alloc: Global) -> Collector {
        Collector {
            kept: Vec::new(alloc),
            windows: Vec::new(alloc),
            phase: None,
            faults: 0,
        }
    }

    pub fn kept(&self) -> &[Kept] {
        self.kept.as_slice()
    }

    pub fn windows(&self) -> &[Window] {
        self.windows.as_slice()
    }

    pub fn phase(&self) -> Option<(u8, u64)> {
        self.phase
    }
}

impl BlockTaker for Collector {
    ghost faults = { λ c. c.faults };

    ghost is_last = { λ c. c.faults ≡ last_count };

    ghost took = { λ before block now. Unit {0} };

    ghost broke = { λ before block now. Unit {0} };

    ghost took_phase = { λ before skip cost now. Unit {0} };

    ghost broke_phase = { λ before skip cost now. Unit {0} };

    fn block(&mut self, b: &Block<'_>) -> Result<(), Failed> {
        let kept = Kept {
            start: b.start,
            steps: b.steps,
            kept: b.kept,
            metric: b.metric,
            first: if b.bits.is_empty() { 2 } else { b.bits[0] },
            end_state: b.end_state,
        };
        if self.kept.push(kept).is_ok() {
            return Ok(());
        }
        self.faults = self.faults.saturating_add(1);
        Err(Failed)
    }

    fn phase(&mut self, skip: u8, cost: u64) -> Result<(), Failed> {
        if self.phase.is_none() && self.kept.len() == 0 {
            self.phase = Some((skip, cost));
            return Ok(());
        }
        self.faults = self.faults.saturating_add(1);
        Err(Failed)
    }
}

impl WindowWatch for Collector {
    ghost took = { λ before window now. Unit {0} };

    ghost told = { λ before item now. Unit {0} };

    fn phase(&mut self, skip: u8, cost: u64) {
        self.phase = Some((skip, cost));
    }

    fn window(&mut self, inner: &InnerDecoder, index: usize) {
        let _ = self.windows.push(inner.window(index));
    }
}
