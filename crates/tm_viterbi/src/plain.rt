// The path metrics after a step from those before it, register by register.
ghost use Rattle.std.specs.Prelude.{◌≡◌, min, ℕ, ◌+◌, ◌-◌, ◌*◌, ◌/◌, ◌%◌, ◌^◌, ◌<◌, slice_index};
ghost use Rattle.tm_conv.specs.Path.{c1, c2, registers};
ghost use Rattle.tm_viterbi.specs.AddCompareSelect.{sum_via, IsNextSums, AreSurvivors};

// The two sums c1 and c2 of a step from register r by bit b, as 2 * c1 + c2: the index of its branch metric.
fn branch_index(r: usize, b: usize) -> usize
    requires register { r < registers }
    requires bit { b < 2 }
    ensures value { result ≡ 2 * c1 r b + c2 r b }
    ensures small { result < 4 }
{
    let first = (b + r / 32 + r / 16 + r / 8 + r) % 2;
    let second = (b + r / 16 + r / 8 + r / 2 + r) % 2;
    2 * first + second
}

// The path metric of the path to a register through register p before it, by bit b: that of p, and the branch metric.
fn path_metric(sums: &[u32; 64], metrics: &[u32; 4], p: usize, b: usize) -> u32
    requires fit { (s k : ℕ) → s < registers → k < 4 → slice_index sums.now s + slice_index metrics.now k < 2 ^ 32 }
    requires register { p < registers }
    requires bit { b < 2 }
    ensures { result ≡ sum_via sums.now metrics.now p b }
{
    sums[p] + metrics[branch_index(p, b)]
}

/// The path metrics after `sums`, by the four branch metrics of a step, at index 2 * first + second.
/// Returns the survivors: bit s says whether register s is reached at less cost from the odd one of its two registers.
pub fn plain_column(sums: &[u32; 64], metrics: &[u32; 4], next: &mut [u32; 64]) -> u64
    requires { (s k : ℕ) → s < registers → k < 4 → slice_index sums.now s + slice_index metrics.now k < 2 ^ 32 }
    ensures sums { IsNextSums sums.now metrics.now next.new }
    ensures survivors { AreSurvivors sums.now metrics.now result }
{
    let mut survivors = 0u64;
    for s in 0..64usize {
        let first = path_metric(sums, metrics, 2 * (s % 32), s / 32);
        let second = path_metric(sums, metrics, 2 * (s % 32) + 1, s / 32);
        next[s] = first.min(second);
        if second < first {
            survivors |= 1 << s;
        }
    }
    survivors
}
