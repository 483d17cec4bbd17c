// Room for a window's best path.
ghost use Rattle.std.specs.Prelude.{◌≡◌, ◌<◌, ◌≤◌, ◌^◌, IfOk, take, vec_len};

use std::alloc::{AllocError, Global};
use tm_base::zeros;
use tm_viterbi::{BestPath, Block};

/// The best path of a window from the registers that were taken to be its start set.
#[derive(Drop)]
pub struct Candidate {
    pub(crate) starts: Option<u8>,
    pub(crate) path: BestPath,
    // How many steps the window has, how many of them are kept, and how many octets were dropped before it.
    pub(crate) steps: usize,
    pub(crate) kept: usize,
    pub(crate) dropped: u8,
    // Room for the bits of the longest window; those of this one are the first.
    pub(crate) bits: Vec<u8>,
    ghost within: { steps ≤ vec_len bits },
    ghost few: { (steps < 2 ^ 32) × (kept ≤ steps) },
}

impl Candidate {
    ghost use Rattle.tm_windows.specs.Candidates.{block_of};

    /// Room for the bits of `steps` steps, with none in it.
    pub(crate) fn new(alloc: Global, steps: usize) -> Result<Candidate, AllocError>
        ensures { IfOk result (λ c. vec_len c.bits ≡ steps) }
    {
        let bits = zeros(alloc, steps)?;
        Ok(Candidate {
            starts: None,
            path: BestPath {
                start: 0,
                metric: 0,
                end_state: 0,
            },
            steps: 0,
            kept: 0,
            dropped: 0,
            bits,
        })
    }

    /// The block.
    pub(crate) fn block(&self) -> Block<'_>
        ensures { result ≡ block_of self.now }
    {
        Block {
            start: self.path.start,
            steps: self.steps as u32,
            kept: self.kept as u32,
            metric: self.path.metric,
            bits: &self.bits[..self.steps],
            end_state: self.path.end_state,
            dropped: self.dropped,
        }
    }

    /// The bits that are kept.
    pub(crate) fn kept_bits(&self) -> &[u8]
        ensures { result.now ≡ take self.now.kept (take self.now.steps self.now.bits.items) }
    {
        &self.bits[..self.kept]
    }
}
