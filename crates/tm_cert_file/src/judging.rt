// The tests of a window's octets.
ghost use Rattle.std.specs.Prelude.{◌≡◌, ◌<◌, ◌≤◌};
ghost use Rattle.tm_conv.specs.Path.{AreBits, register_after, registers};
ghost use Rattle.tm_viterbi.specs.WindowSizes.{most_keep, most_ahead};
ghost use Rattle.tm_cert_file.specs.Before as before;
ghost use Rattle.tm_cert_file.specs.Seen as seen;

use crate::seen::{Next, Reason, Seen};
use tm_path_cert::{Starts, Verdict, is_start};

/// Whether the numbers before a window's bits are those of a window.
pub(crate) fn has_shape(keep: u32, ahead: u32, next: Next, steps: u32, kept: u32, start: u8) -> bool
    requires { (keep ≤ most_keep) × (ahead ≤ most_ahead) }
    ensures { (rules : before.Rules) → rules.keep ≡ keep → rules.ahead ≡ ahead
        → result ≡ seen.has_shape rules next steps kept start }
{
    let most = keep + ahead;
    0 < steps
        && steps <= most
        && (kept == steps || kept == keep && steps == most)
        && start < 64
        && (next != Next::Must || ahead < steps)
}

/// Whether no window comes.
pub(crate) fn is_over(next: Next) -> bool
    ensures { result ≡ seen.is_over next }
{
    next == Next::Never
}

/// Whether each octet is a bit.
pub(crate) fn are_bits(bits: &[u8]) -> bool
    ensures { result ≡ seen.are_bits bits.now }
{
    for bit in bits {
        if *bit >= 2 {
            return false;
        }
    }
    true
}

/// Whether a path starts where it may, and the soft octets begin with those after the kept ones before.
pub(crate) fn is_joined(starts: Starts, start: u8, octets: &[u8], tail: &[u8]) -> bool
    ensures { (rest : before.Before) → rest.starts ≡ starts → rest.octets ≡ tail.now
        → result ≡ seen.is_joined rest start octets.now }
{
    is_start(starts, start) && octets.starts_with(tail)
}

/// Whether a window comes after one of `steps` steps, of which `kept` are kept.
pub(crate) fn next_after(keep: u32, ahead: u32, steps: u32, kept: u32) -> Next
    requires { (keep ≤ most_keep) × (ahead ≤ most_ahead) }
    ensures { (rules : before.Rules) → rules.keep ≡ keep → rules.ahead ≡ ahead
        → result ≡ before.next_after rules steps kept }
{
    if kept < steps {
        Next::Must
    } else if steps < keep + ahead || 0 < ahead {
        Next::Never
    } else {
        Next::May
    }
}

/// The register after these bits.
pub(crate) fn register_after(start: u8, bits: &[u8]) -> u8
    requires register { start < registers }
    requires bits { AreBits bits.now }
    ensures value { result ≡ register_after start bits.now }
    ensures small { result < registers }
{
    let mut register = start;
    for bit in bits {
        register = register / 2 + 32 * *bit;
    }
    register
}

/// What is seen of a window by what is answered of its path.
pub(crate) fn seen_by(verdict: Verdict) -> Seen
    ensures { result ≡ seen.seen_by verdict }
{
    match verdict {
        Verdict::Yes => Seen::Passed,
        Verdict::No(column, register) => Seen::Failed(Reason::Edge(column, register)),
        Verdict::Sum(sum) => Seen::Failed(Reason::Sum(sum)),
    }
}
