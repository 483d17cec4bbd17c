// What holds of the code's paths, over the definitions alone.
ghost use Rattle.std.specs.Prelude.{◌≡◌, ℕ, ◌+◌, ◌-◌, ◌*◌, ◌^◌, ◌<◌, ◌≤◌, Bool, IsTrue, List, [], ◌++◌, length, slice_index, All};
ghost use Rattle.tm_conv.specs.declared.rates.Rate.{Rate};
ghost use Rattle.tm_conv.specs.declared.rates.Rate.TheVariants.{R12};
ghost use Rattle.tm_conv.specs.Path.{AreBits, complement, next_register, step_symbols, step_size, steps_size, path, register_size, registers};
ghost use Rattle.tm_conv.specs.Cost.{cost, greatest_octet};
ghost use Rattle.tm_conv.specs.Best.{IsBest};
ghost use Rattle.tm_conv.specs.Columns.{IsColumn, first_cost, barred_cost};

/// From a known register, symbols that were not disturbed fix the bits, at every rate. It does nothing.
pub fn clean_symbols_law()
    ensures { (rate : Rate) (invert : Bool) (t register : ℕ) (bits others : List ℕ) → AreBits bits → AreBits others
        → path rate invert t register bits ≡ path rate invert t register others → bits ≡ others }
{}

/// Complementing the bits and the register complements every symbol, at every rate and either inversion. It does
/// nothing.
pub fn complement_law()
    ensures { (rate : Rate) (invert : Bool) (t register : ℕ) (bits : List ℕ) → register < registers → AreBits bits
        → path rate invert t (registers - 1 - register) (complement bits)
        ≡ complement (path rate invert t register bits) }
{}

/// At rate 1/2 the undisturbed pairs of six steps, or more, fix the register before them and the bits. It does nothing.
pub fn six_pairs_law()
    ensures { (invert : Bool) (t register other : ℕ) (bits others : List ℕ) → register < registers → other < registers
        → AreBits bits → AreBits others
        → register_size ≤ length bits → path R12 invert t register bits ≡ path R12 invert t other others
        → (register ≡ other) × (bits ≡ others) }
{}

/// Octets of whole steps have one best path, where a path may start from some register. It does nothing.
pub fn best_path_law()
    ensures exists { (starts : ℕ → Bool) (rate : Rate) (invert : Bool) (t steps start : ℕ) (octets : List ℕ)
        → IsTrue (starts start) → start < registers → length octets ≡ steps_size rate t steps
        → (register : ℕ) × (bits : List ℕ) × IsBest starts rate invert t octets register bits }
    ensures one { (starts : ℕ → Bool) (rate : Rate) (invert : Bool) (t : ℕ) (octets : List ℕ) (register other : ℕ)
        (bits others : List ℕ)
        → IsBest starts rate invert t octets register bits → IsBest starts rate invert t octets other others
        → (register ≡ other) × (bits ≡ others) }
{}

/// Octets of whole steps have one column of least costs. It is that of the first costs where there are no octets, a
/// step adds its cost at most, and none of its entries is less than what the best path costs, if that is 2^30 at most.
/// An entry is 2^30 and 255 an octet at most. It does nothing.
pub fn columns_law()
    ensures exists { (starts : ℕ → Bool) (rate : Rate) (invert : Bool) (t steps : ℕ) (octets : List ℕ)
        → length octets ≡ steps_size rate t steps
        → (column : List ℕ) × IsColumn starts rate invert t octets column }
    ensures one { (starts : ℕ → Bool) (rate : Rate) (invert : Bool) (t : ℕ) (octets column other : List ℕ)
        → IsColumn starts rate invert t octets column → IsColumn starts rate invert t octets other → column ≡ other }
    ensures first { (starts : ℕ → Bool) (rate : Rate) (invert : Bool) (t register : ℕ) (column : List ℕ)
        → IsColumn starts rate invert t [] column → register < registers
        → slice_index column register ≡ first_cost starts register }
    ensures edge { (starts : ℕ → Bool) (rate : Rate) (invert : Bool) (t steps from bit : ℕ)
        (octets here before after : List ℕ)
        → IsColumn starts rate invert t octets before → IsColumn starts rate invert t (octets ++ here) after
        → length octets ≡ steps_size rate t steps → length here ≡ step_size rate (t + steps)
        → from < registers → bit < 2
        → slice_index after (next_register from bit) ≤ slice_index before from + cost
        (step_symbols rate invert (t + steps) from bit) here }
    ensures least { (starts : ℕ → Bool) (rate : Rate) (invert : Bool) (t initial register : ℕ)
        (octets column bits : List ℕ)
        → IsColumn starts rate invert t octets column → IsBest starts rate invert t octets initial bits
        → cost (path rate invert t initial bits) octets ≤ barred_cost → register < registers
        → cost (path rate invert t initial bits) octets ≤ slice_index column register }
    ensures most { (starts : ℕ → Bool) (rate : Rate) (invert : Bool) (t register : ℕ) (octets column : List ℕ)
        → All (λ octet. octet < 256) octets → IsColumn starts rate invert t octets column → register < registers
        → slice_index column register ≤ barred_cost + greatest_octet * length octets }
{}
