// A run of windows: windows of one shape one after another.
ghost use Rattle.std.specs.Prelude.{◌≡◌, ◌+◌, ◌*◌, ◌<◌, ◌≤◌, Some, drop, length, vec_len};
ghost use Rattle.std.specs.Option.{ForSome};
ghost use Rattle.tm_conv.specs.Path.{steps_size, registers};
ghost use Rattle.tm_viterbi.specs.WindowSizes.{window_bound};

use crate::candidate::Candidate;
use tm_conv::steps_len;
use tm_viterbi::{WindowDecoder, WindowShape};

/// Windows of a shape one after another: the first starts from this register, or from any, and begins at step `t` with
/// these octets.
#[derive(Clone, Copy)]
pub struct WindowRun<'a> {
    pub(crate) shape: WindowShape,
    pub(crate) starts: Option<u8>,
    pub(crate) t: u64,
    pub(crate) octets: &'a [u8],
    ghost start: { ForSome starts (λ register. register < registers) },
}

impl<'a> WindowRun<'a> {
    ghost use Rattle.tm_viterbi.specs.Blocks.{IsBlock};
    ghost use Rattle.tm_windows.specs.Candidates.{IsCandidate, block_of};
    ghost use Rattle.tm_windows.specs.Windows.{undropped};

    /// The windows after the first, of which the next starts from this register.
    pub(crate) fn after_first(&self, register: u8) -> WindowRun<'a>
        requires register { register < registers }
        requires within { steps_size self.now.shape.rate self.now.t self.now.shape.keep ≤ length self.now.octets.now }
        requires few { self.now.t + self.now.shape.keep < window_bound }
        ensures shape { result.shape ≡ self.now.shape }
        ensures starts { result.starts ≡ Some register }
        ensures t { result.t ≡ self.now.t + self.now.shape.keep }
        ensures octets { result.octets.now
            ≡ drop (steps_size self.now.shape.rate self.now.t self.now.shape.keep) self.now.octets.now }
    {
        let size = steps_len(self.shape.rate, self.t, self.shape.keep);
        WindowRun {
            shape: self.shape,
            starts: Some(register),
            t: self.t + self.shape.keep as u64,
            octets: &self.octets[size..],
        }
    }

    /// Decodes the first window. The octets have its steps and one more.
    pub(crate) fn decode_first(&self, decoder: &mut WindowDecoder, candidate: &mut Candidate)
        requires shape { decoder.old ≡ self.now.shape }
        requires bits { vec_len candidate.old.bits ≡ self.now.shape.keep + self.now.shape.ahead }
        requires room { steps_size self.now.shape.rate self.now.t (self.now.shape.keep + self.now.shape.ahead + 1)
            ≤ length self.now.octets.now }
        requires few { self.now.t < window_bound }
        ensures candidate { IsCandidate self.now.shape self.now.t self.now.octets.now candidate.new }
        ensures starts { candidate.new.starts ≡ self.now.starts }
        ensures dropped { candidate.new.dropped ≡ 0 }
        ensures bits { vec_len candidate.new.bits ≡ vec_len candidate.old.bits }
        ensures same { decoder.new ≡ self.now.shape }
    {
        let bits = candidate.bits.as_mut_slice();
        candidate.path = decoder.decode(self.starts, self.t, self.shape.keep, self.octets, bits);
        candidate.starts = self.starts;
        candidate.steps = self.shape.keep + self.shape.ahead;
        candidate.kept = self.shape.keep;
        candidate.dropped = 0;
    }

    /// Decodes the window as the last one, which has `steps` steps and keeps them all, after `dropped` dropped octets.
    pub(crate) fn decode_last(
        &self,
        decoder: &mut WindowDecoder,
        candidate: &mut Candidate,
        steps: usize,
        dropped: u8,
    )
        requires shape { decoder.old ≡ self.now.shape }
        requires bits { vec_len candidate.old.bits ≡ self.now.shape.keep + self.now.shape.ahead }
        requires steps { steps ≤ self.now.shape.keep + self.now.shape.ahead }
        requires room { steps_size self.now.shape.rate self.now.t steps ≤ length self.now.octets.now }
        requires few { self.now.t < window_bound }
        ensures block { IsBlock self.now.shape.rate self.now.shape.invert self.now.shape.keep self.now.shape.ahead
            self.now.starts self.now.t steps self.now.octets.now (undropped (block_of candidate.new)) }
        ensures kept { candidate.new.kept ≡ steps }
        ensures dropped { candidate.new.dropped ≡ dropped }
        ensures bits { vec_len candidate.new.bits ≡ vec_len candidate.old.bits }
        ensures same { decoder.new ≡ self.now.shape }
    {
        let bits = &mut candidate.bits[0..steps];
        candidate.path = decoder.decode(self.starts, self.t, steps, self.octets, bits);
        candidate.steps = steps;
        candidate.kept = steps;
        candidate.dropped = dropped;
    }
}
