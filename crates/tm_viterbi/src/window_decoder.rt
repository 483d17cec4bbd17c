// One window, decoded by itself.
ghost use Rattle.std.specs.Prelude.{◌≡◌, ℕ, ◌+◌, ◌<◌, ◌≤◌, IfOk, length};
ghost use Rattle.std.specs.Option.{ForSome};
ghost use Rattle.tm_conv.specs.Path.{steps_size, registers};
ghost use Rattle.tm_viterbi.specs.Blocks.{IsBlock, window_steps, kept_steps};
ghost use Rattle.tm_viterbi.specs.WindowBlock.{undropped_block};
ghost use Rattle.tm_viterbi.specs.WindowSizes.{most_window, window_bound};

use crate::window_pass::WindowPass;
use std::alloc::Global;
use std::marker::Model;
use tm_base::NoMemory;
use tm_conv::{Rate, steps_len};

/// How windows are cut and decoded.
#[derive(Clone, Copy, Debug)]
pub struct WindowShape {
    /// The rate of the code.
    pub rate: Rate,
    /// Whether each second sum was sent inverted.
    pub invert: bool,
    /// How many steps of a window are kept, but of the last.
    pub keep: usize,
    /// How many steps follow them.
    pub ahead: usize,
}

/// The best path of a window, but for its bits: the register that it starts from, what it costs, and the register after
/// the kept steps.
#[derive(Drop)]
pub struct BestPath {
    /// The register that the path starts from, below 64.
    pub start: u8,
    /// What the path costs over the whole window.
    pub metric: u64,
    /// The register after the kept steps, from which the next window starts.
    pub end_state: u8,
    ghost small: { end_state < registers },
}

/// The decoder of windows whose octets are all there, one at a time and in any order (CCSDS 131.0-B, Convolutional
/// Coding). It takes its memory at `new`.
#[derive(Drop)]
pub struct WindowDecoder {
    shape: WindowShape,
    // Where a window is decoded after the one before it, the steps that both have are not gone over again.
    pass: WindowPass,
}

impl Model for WindowDecoder {
    ghost use Rattle.std.specs.Prelude.{◌≡◌, ◌+◌, ◌≤◌, vec_len};
    ghost use Rattle.tm_viterbi.specs.Overlap.{IsOverlap};
    ghost use Rattle.tm_viterbi.specs.WindowSizes.{most_window};
    ghost use Rattle.tm_viterbi.specs.declared.window_decoder.WindowShape.{WindowShape};

    ghost Value = { WindowShape };

    ghost view = { λ d. d.shape };

    ghost invariant = { λ d. IsOverlap d.shape.rate d.shape.invert d.pass
        × (vec_len d.pass.survivors ≡ d.shape.keep + d.shape.ahead) × (d.shape.keep + d.shape.ahead ≤ most_window) };
}

impl WindowDecoder {
    /// A decoder of windows of this shape, which have at most 69,632 steps. It fails only where there isn't enough
    /// memory.
    pub fn new(alloc: Global, shape: WindowShape) -> Result<WindowDecoder, NoMemory>
        requires { shape.keep + shape.ahead ≤ most_window }
        ensures { IfOk result (λ d. d ≡ shape) }
    {
        let pass = WindowPass::new(alloc, shape.keep + shape.ahead, 2 * shape.ahead)?;
        Ok(WindowDecoder { shape, pass })
    }

    /// Finds the best path of the window from step `t` on, at most 2^61, that starts from the register `starts`, below
    /// 64, or from any of the 64 at `None`. The window has as many steps as `bits`, at most those of the shape, and
    /// `kept` of them are kept; `octets` begins with its soft octets. The path's bits are written to `bits`.
    pub fn decode(
        &mut self,
        starts: Option<u8>,
        t: u64,
        kept: usize,
        octets: &[u8],
        bits: &mut [u8],
    ) -> BestPath
        requires steps { length bits.old ≤ self.old.keep + self.old.ahead }
        requires kept { kept ≤ length bits.old }
        requires octets { steps_size self.old.rate t (length bits.old) ≤ length octets.now }
        requires start { ForSome starts (λ register. register < registers) }
        requires few { t < window_bound }
        ensures block { (remaining : ℕ) → length bits.old ≡ window_steps self.old.keep self.old.ahead remaining
            → kept ≡ kept_steps self.old.keep self.old.ahead remaining
            → IsBlock self.old.rate self.old.invert self.old.keep self.old.ahead starts t remaining octets.now
            (undropped_block result.start (length bits.old) kept result.metric bits.new result.end_state) }
        ensures small { self.old.keep + self.old.ahead ≤ most_window }
        ensures same { self.new ≡ self.old }
    {
        let shape = self.shape;
        let size = steps_len(shape.rate, t, bits.len());
        let octets = &octets[..size];
        if let Some(register) = starts {
            if self.pass.goes_on(t, kept, octets) {
                let path = self
                    .pass
                    .finish(shape.rate, shape.invert, kept, octets, bits);
                if path.start == register {
                    return path;
                }
            }
        }
        self.pass.begin(t, starts);
        self.pass
            .finish(shape.rate, shape.invert, kept, octets, bits)
    }
}
