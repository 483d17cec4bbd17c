// What holds of the blocks of soft octets in windows, over the definitions alone.
ghost use Rattle.std.specs.Prelude.{◌≡◌, ◌↔◌, ◌<◌, ◌⊎◌, ℕ, None, List, [], ◌∷◌, ◌++◌};
ghost use Rattle.tm_conv.specs.Path.{AreBits, registers};
ghost use Rattle.tm_viterbi.specs.Clean.{sure_symbols, complemented_octets};
ghost use Rattle.tm_viterbi.specs.WindowBlock.{WindowBlock};
ghost use Rattle.tm_viterbi.specs.Blocks.{AreBlocksOf};
ghost use Rattle.tm_viterbi.specs.Due.{AreDue, AreFirst};
ghost use Rattle.tm_windows.specs.Windows.{Windows, AreBlocksIn, AreDueIn, AreFirstIn, IsSeen};

use tm_conv::best_path_law;

/// Octets have one list of blocks, and one number of octets left over, where each window keeps a step or more, and a
/// window that is closed has been looked at. No octets have no blocks. It does nothing.
pub fn one_windows_law()
    ensures none { (w : Windows) → AreBlocksIn w [] [] 0 }
    ensures exists { (w : Windows) (octets : List ℕ) → 0 < w.settings.keep → IsSeen w
        → (blocks : List WindowBlock) × (left : ℕ) × AreBlocksIn w octets blocks left }
    ensures one { (w : Windows) (octets : List ℕ) (blocks others : List WindowBlock) (left right : ℕ)
        → AreBlocksIn w octets blocks left → AreBlocksIn w octets others right → (blocks ≡ others) × (left ≡ right) }
{
    best_path_law();
}

/// The blocks of closed windows are the first of all blocks. Those that are due are all but the last, where there are
/// blocks. Those that are due for octets that go on begin with those that are due for a prefix. It does nothing.
pub fn due_windows_law()
    ensures none { (w : Windows) → AreDueIn w [] [] }
    ensures first { (w : Windows) (octets : List ℕ) (first blocks : List WindowBlock) (left : ℕ)
        → AreFirstIn w octets first → AreBlocksIn w octets blocks left → (rest : List WindowBlock)
        × (blocks ≡ first ++ rest) }
    ensures due { (w : Windows) (octets : List ℕ) (due blocks : List WindowBlock) (left : ℕ) → IsSeen w
        → AreDueIn w octets due → AreBlocksIn w octets blocks left
        → ((blocks ≡ []) × (due ≡ [])) ⊎ ((last : WindowBlock) × (blocks ≡ due ++ last ∷ [])) }
    ensures longer { (w : Windows) (octets more : List ℕ) (due later : List WindowBlock)
        → AreDueIn w octets due → AreDueIn w (octets ++ more) later → (rest : List WindowBlock)
        × (later ≡ due ++ rest) }
{
    best_path_law();
}

/// The blocks of windows that are closed stand first in those of octets that go on. It does nothing.
pub fn closed_prefix_law()
    ensures { (w : Windows) (octets more : List ℕ) (first : List WindowBlock) → AreFirstIn w octets first
        → AreFirstIn w (octets ++ more) first }
{}

/// Of symbols that were not disturbed, or that were each complemented and not else disturbed, no octet is dropped:
/// their blocks are those of a phase that is not followed, at every rate, start and window size. It does nothing.
pub fn undisturbed_law()
    ensures sent { (w : Windows) (register : ℕ) (bits : List ℕ) (blocks : List WindowBlock) (left : ℕ) → AreBits bits
        → register < registers
        → AreBlocksIn w (sure_symbols w.settings register bits) blocks left
        → AreBlocksOf w.settings (sure_symbols w.settings register bits) blocks left }
    ensures complemented { (w : Windows) (register : ℕ) (bits : List ℕ) (blocks : List WindowBlock) (left : ℕ)
        → AreBits bits → register < registers
        → AreBlocksIn w (complemented_octets (sure_symbols w.settings register bits)) blocks left
        → AreBlocksOf w.settings (complemented_octets (sure_symbols w.settings register bits)) blocks left }
{}

/// Where no slip is looked for no octet is dropped, and the blocks are the plain list of those of windows one after
/// another. It does nothing.
pub fn plain_windows_law()
    ensures blocks { (w : Windows) (octets : List ℕ) (blocks : List WindowBlock) (left : ℕ) → w.seen ≡ None
        → 0 < w.settings.keep → AreBlocksIn w octets blocks left ↔ AreBlocksOf w.settings octets blocks left }
    ensures due { (w : Windows) (octets : List ℕ) (blocks : List WindowBlock) → w.seen ≡ None
        → AreDueIn w octets blocks ↔ AreDue w.settings octets blocks }
    ensures first { (w : Windows) (octets : List ℕ) (blocks : List WindowBlock) → w.seen ≡ None
        → AreFirstIn w octets blocks ↔ AreFirst w.settings octets blocks }
{
    best_path_law();
}
