// Where a window's paths may start, and where the best of them ends.
ghost use Rattle.std.specs.Prelude.{◌≡◌, Option};
ghost use Rattle.tm_conv.specs.Columns.{first_cost};
ghost use Rattle.tm_viterbi.specs.Starts.{starts_from};
ghost use Rattle.tm_viterbi.specs.Totals.{AreFirsts, IsFirstLeast};

// The register of least path metric, and of several the first.
pub(crate) fn least_register(sums: &[u32; 64]) -> usize
    ensures { IsFirstLeast sums.now result }
{
    let mut best = 0;
    for k in 1..64usize {
        if sums[k] < sums[best] {
            best = k;
        }
    }
    best
}

// Whether a path may start from a register.
fn is_start(starts: Option<u8>, register: usize) -> bool
    ensures { result ≡ starts_from starts register }
{
    match starts {
        None => true,
        Some(first) => register == usize::from(first),
    }
}

// The path metric of a register before any step: 0 at a start, and else more than any path costs.
fn first_sum(starts: Option<u8>, register: usize) -> u32
    ensures { result ≡ first_cost (starts_from starts) register }
{
    if is_start(starts, register) {
        0
    } else {
        1 << 30
    }
}

// The path metrics before any step.
pub(crate) fn first_sums(starts: Option<u8>) -> [u32; 64]
    ensures { AreFirsts (starts_from starts) result }
{
    let mut sums = [0; 64];
    for r in 0..64usize {
        sums[r] = first_sum(starts, r);
    }
    sums
}
