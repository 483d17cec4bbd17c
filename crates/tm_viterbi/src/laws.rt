// What holds of the blocks of soft octets, over the definitions alone.
ghost use Rattle.std.specs.Prelude.{◌≡◌, ◌<◌, ◌⊎◌, ℕ, List, [], ◌∷◌, ◌++◌};
ghost use Rattle.tm_viterbi.specs.WindowBlock.{WindowBlock};
ghost use Rattle.tm_viterbi.specs.Settings.{Settings};
ghost use Rattle.tm_viterbi.specs.Blocks.{AreBlocksOf};
ghost use Rattle.tm_viterbi.specs.Due.{AreDue, AreFirst};

use tm_conv::best_path_law;

/// Octets have one list of blocks, and one number of octets left over, where each window keeps a step or more. No
/// octets have no blocks. It does nothing.
pub fn one_list_law()
    ensures none { (s : Settings) → AreBlocksOf s [] [] 0 }
    ensures exists { (s : Settings) (octets : List ℕ) → 0 < s.keep → (blocks : List WindowBlock) × (left : ℕ)
        × AreBlocksOf s octets blocks left }
    ensures one { (s : Settings) (octets : List ℕ) (blocks others : List WindowBlock) (left right : ℕ)
        → AreBlocksOf s octets blocks left → AreBlocksOf s octets others right → (blocks ≡ others) × (left ≡ right) }
{
    best_path_law();
}

/// The blocks of closed windows are the first of all blocks. Those that are due are all but the last, where there are
/// blocks. Those that are due for octets that go on begin with those that are due for a prefix. It does nothing.
pub fn due_law()
    ensures none { (s : Settings) → AreDue s [] [] }
    ensures first { (s : Settings) (octets : List ℕ) (first blocks : List WindowBlock) (left : ℕ)
        → AreFirst s octets first → AreBlocksOf s octets blocks left → (rest : List WindowBlock)
        × (blocks ≡ first ++ rest) }
    ensures due { (s : Settings) (octets : List ℕ) (due blocks : List WindowBlock) (left : ℕ)
        → AreDue s octets due → AreBlocksOf s octets blocks left → ((blocks ≡ []) × (due ≡ []))
        ⊎ ((last : WindowBlock) × (blocks ≡ due ++ last ∷ [])) }
    ensures longer { (s : Settings) (octets more : List ℕ) (due later : List WindowBlock)
        → AreDue s octets due → AreDue s (octets ++ more) later → (rest : List WindowBlock) × (later ≡ due ++ rest) }
{
    best_path_law();
}
