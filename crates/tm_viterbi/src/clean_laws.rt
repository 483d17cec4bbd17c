// What holds of soft octets that were not disturbed, and of windows that are closed, over the definitions alone.
ghost use Rattle.std.specs.Prelude.{◌≡◌, ◌<◌, ◌≤◌, ◌⊎◌, ◌++◌, ℕ, List, [], length};
ghost use Rattle.tm_conv.specs.Path.{AreBits, complement, register_size, registers};
ghost use Rattle.tm_conv.specs.declared.rates.Rate.TheVariants.{R12};
ghost use Rattle.tm_viterbi.specs.declared.block.Start.TheVariants.{Any};
ghost use Rattle.tm_viterbi.specs.Settings.{Settings};
ghost use Rattle.tm_viterbi.specs.WindowBlock.{WindowBlock};
ghost use Rattle.tm_viterbi.specs.Blocks.{AreBlocksOf};
ghost use Rattle.tm_viterbi.specs.Due.{AreFirst};
ghost use Rattle.tm_viterbi.specs.Clean.{AreClean, IsFixed, sure_symbols, complemented_octets};
ghost use Rattle.tm_viterbi.specs.WindowSizes.{least_keep};

use tm_conv::{complement_law, six_pairs_law};

/// The blocks of symbols that were not disturbed keep exactly the bits that were sent, at no cost, and no octet is left
/// over: at every rate, inversion and window size where paths start from register 0; and at rate 1/2 also where they
/// start from any register and the symbols are those of six steps or more. With fewer steps and any start the bits are
/// not fixed. It does nothing.
pub fn clean_blocks_law()
    ensures { (s : Settings) (register : ℕ) (bits : List ℕ) (blocks : List WindowBlock) (left : ℕ) → least_keep ≤ s.keep
        → AreBits bits
        → IsFixed s register bits → AreBlocksOf s (sure_symbols s register bits) blocks left
        → AreClean bits blocks left }
{
    six_pairs_law();
}

/// At rate 1/2, where paths start from any register, the blocks of the symbols of no step or of six or more, each
/// complemented and not else disturbed, keep exactly the bits that were sent, each complemented. It does nothing.
pub fn complemented_blocks_law()
    ensures { (s : Settings) (register : ℕ) (bits : List ℕ) (blocks : List WindowBlock) (left : ℕ) → least_keep ≤ s.keep
        → AreBits bits
        → s.start ≡ Any → s.rate ≡ R12 → register < registers → (bits ≡ []) ⊎ (register_size ≤ length bits)
        → AreBlocksOf s (complemented_octets (sure_symbols s register bits)) blocks left
        → AreClean (complement bits) blocks left }
{
    six_pairs_law();
    complement_law();
}

/// The blocks of windows that are closed stand first in those of octets that go on. It does nothing.
pub fn closed_windows_law()
    ensures { (s : Settings) (octets more : List ℕ) (first : List WindowBlock) → AreFirst s octets first
        → AreFirst s (octets ++ more) first }
{}
