// A guess of the register that a window starts from.
ghost use Rattle.std.specs.Prelude.{◌≡◌, ◌+◌, ◌<◌, vec_len};
ghost use Rattle.std.specs.Option.{ForSome};
ghost use Rattle.tm_conv.specs.Path.{registers};
ghost use Rattle.tm_viterbi.specs.WindowSizes.{window_bound};

use crate::candidate::Candidate;
use tm_conv::steps_len;
use tm_viterbi::{WindowDecoder, WindowShape};

// How many steps before a window, and how many of its own, a guess looks at: with 256 of each, no guess of a thousand
// was wrong at 0 dB.
const STEPS_SEEN: usize = 256;

// A guess of the register at step t, whose octets begin at place `at`: where the best path over the steps around it
// passes. Nothing but time rests on it. The candidate's bits are overwritten.
fn guess(
    decoder: &mut WindowDecoder,
    shape: WindowShape,
    candidate: &mut Candidate,
    t: u64,
    octets: &[u8],
    at: usize,
) -> u8
    requires shape { decoder.old ≡ shape }
    requires bits { vec_len candidate.old.bits ≡ shape.keep + shape.ahead }
    requires few { t < window_bound }
    ensures register { result < registers }
    ensures bits { vec_len candidate.new.bits ≡ vec_len candidate.old.bits }
    ensures same { decoder.new ≡ shape }
{
    let before = STEPS_SEEN.min(shape.keep);
    let after = STEPS_SEEN.min(shape.keep + shape.ahead - before);
    if t < before as u64 || octets.len() < at {
        return 0;
    }
    let first = t - before as u64;
    let size = steps_len(shape.rate, first, before);
    let more = steps_len(shape.rate, t, after);
    if at < size || octets.len() - at < more {
        return 0;
    }
    let path = decoder.decode(
        None,
        first,
        before,
        &octets[at - size..],
        &mut candidate.bits[0..before + after],
    );
    path.end_state
}

/// The start set of the window from step t on, whose octets begin at place `at`, where it is known, and else a guess of
/// it.
pub(crate) fn known_or_guessed(
    decoder: &mut WindowDecoder,
    shape: WindowShape,
    candidate: &mut Candidate,
    known: Option<Option<u8>>,
    t: u64,
    octets: &[u8],
    at: usize,
) -> Option<u8>
    requires shape { decoder.old ≡ shape }
    requires bits { vec_len candidate.old.bits ≡ shape.keep + shape.ahead }
    requires start { ForSome known (λ starts. ForSome starts (λ register. register < registers)) }
    requires few { t < window_bound }
    ensures start { ForSome result (λ register. register < registers) }
    ensures bits { vec_len candidate.new.bits ≡ vec_len candidate.old.bits }
    ensures same { decoder.new ≡ shape }
{
    match known {
        Some(starts) => starts,
        None => Some(guess(decoder, shape, candidate, t, octets, at)),
    }
}
