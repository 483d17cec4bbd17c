// What holds of received octets, over the definitions alone.
ghost use Rattle.std.specs.Prelude.{◌≡◌, ◌<◌, ◌≤◌, ◌++◌, ◌+◌, ◌*◌, ℕ, Bool, List};
ghost use Rattle.std.specs.List.{All};
ghost use Rattle.tm_conv.specs.Cost.{most_branch_metric};
ghost use Rattle.tm_base.specs.Bits.{AreOctets, bits_of};
ghost use Rattle.tm_base.specs.Handed.{Handed};
ghost use Rattle.tm_config.specs.Accepted.{IsAccepted};
ghost use Rattle.tm_config.specs.Configuration.{Configuration};
ghost use Rattle.tm_inner.specs.Handing.{AreHanded, AreHandedDue};
ghost use Rattle.tm_inner.specs.Inner.{IsStartKnown, AreInnerBlocks, AreInnerDue, Inner, inner_bits};
ghost use Rattle.tm_viterbi.specs.WindowBlock.{WindowBlock};
ghost use Rattle.tm_viterbi.specs.WindowSizes.{most_window};
ghost use Rattle.tm_windows.specs.Windows.{kept_of};
ghost use Rattle.tm_inner.specs.InnerWindows.{AreWindows, AreWindowsDue};
ghost use Rattle.tm_inner.specs.SymbolPlaces.{symbol_at};
ghost use Rattle.tm_inner.specs.Symbols.{symbols_of_octets};
ghost use Rattle.tm_inner.specs.declared.window.Window.{Window};

use tm_viterbi::clean_blocks_law;
use tm_windows::{
    closed_prefix_law, due_windows_law, one_windows_law, phase_law, whole_window_law,
};

/// Received octets come to one list of bits, and of blocks. It does nothing.
pub fn inner_law()
    ensures exists { (c : Configuration) (phase : ℕ) (octets : List ℕ) → IsAccepted c
        → (bits : List Bool) × Inner c phase octets bits }
    ensures one { (c : Configuration) (phase : ℕ) (octets : List ℕ) (bits others : List Bool)
        → Inner c phase octets bits → Inner c phase octets others → bits ≡ others }
    ensures blocks { (c : Configuration) (phase : ℕ) (octets : List ℕ) (blocks others : List WindowBlock)
        (left rest : ℕ)
        → AreInnerBlocks c phase octets blocks left → AreInnerBlocks c phase octets others rest → blocks ≡ others }
{
    one_windows_law();
}

/// Octets that were sent and not disturbed come to the bits that were sent, where none is skipped and it is known where
/// the first path starts. It does nothing.
pub fn clean_inner_law()
    ensures { (c : Configuration) (octets : List ℕ) (bits : List Bool) → IsAccepted c → c.skip ≡ 0 → IsStartKnown c
        → Inner c 0 (symbols_of_octets c octets) bits → bits ≡ bits_of octets }
{
    clean_blocks_law();
}

/// The bits that are due for octets stand first in the bits of these octets with any others after them. It does
/// nothing.
pub fn due_bits_law()
    ensures { (c : Configuration) (phase : ℕ) (octets more : List ℕ) (due blocks : List WindowBlock) (left : ℕ)
        → AreInnerDue c phase octets due → AreInnerBlocks c phase (octets ++ more) blocks left
        → (rest : List Bool) × (inner_bits c (octets ++ more) blocks ≡ inner_bits c octets due ++ rest) }
{
    closed_prefix_law();
    due_windows_law();
}

/// What is due for octets precedes all that is handed over of these octets with any others after them. It does nothing.
pub fn handed_law()
    ensures { (c : Configuration) (octets more : List ℕ) (due : List (Handed WindowBlock)) → IsAccepted c
        → AreHandedDue c octets due → (rest : List (Handed WindowBlock)) × (left : ℕ)
        × AreHanded c (octets ++ more) (due ++ rest) left }
{
    closed_prefix_law();
    due_windows_law();
    one_windows_law();
    phase_law();
    whole_window_law();
}

/// Where the first symbol of a received bit stands hangs on no block after the one that keeps it. It does nothing.
pub fn symbols_law()
    ensures { (c : Configuration) (phase n : ℕ) (blocks more : List WindowBlock) → n < kept_of blocks
        → symbol_at c phase (blocks ++ more) n ≡ symbol_at c phase blocks n }
{}

/// What is said of the windows that are due is said of them whatever octets come: it stands first in what is said of
/// those that are due then, and of all. It does nothing.
pub fn windows_law()
    ensures due { (c : Configuration) (octets more : List ℕ) (due later : List Window) → AreWindowsDue c octets due
        → AreWindowsDue c (octets ++ more) later → (rest : List Window) × (later ≡ due ++ rest) }
    ensures all { (c : Configuration) (octets more : List ℕ) (due windows : List Window) → AreWindowsDue c octets due
        → AreWindows c (octets ++ more) windows → (rest : List Window) × (windows ≡ due ++ rest) }
{
    closed_prefix_law();
    due_windows_law();
    phase_law();
    whole_window_law();
}

/// A block has at most keep+ahead steps, and costs at most 510 for each of them, since a step sends two symbols at
/// most: no metric is above 35,512,320. It does nothing.
pub fn metric_law()
    ensures { (c : Configuration) (phase : ℕ) (octets : List ℕ) (blocks : List WindowBlock) (left : ℕ) → IsAccepted c
        → AreOctets octets
        → AreInnerBlocks c phase octets blocks left
        → All (λ block. (block.steps ≤ c.keep + c.ahead) × (block.metric ≤ most_branch_metric * block.steps)
        × (block.metric ≤ most_branch_metric * most_window)) blocks }
{}
