// What holds of the symbol phase and of slips, over the definitions alone.
ghost use Rattle.std.specs.Prelude.{◌≡◌, ◌↔◌, ◌++◌, ℕ, ◌<◌, ◌≤◌, Bool, List, length};
ghost use Rattle.tm_conv.specs.declared.rates.Rate.{Rate};
ghost use Rattle.tm_conv.specs.Path.{AreBits, path, registers};
ghost use Rattle.tm_conv.specs.Cost.{sure};
ghost use Rattle.tm_windows.specs.declared.choosing.Chosen.{Chosen};
ghost use Rattle.tm_windows.specs.Phase.{period_size, octets_needed, AreCompared, IsPhase};
ghost use Rattle.tm_windows.specs.Slip.{octets_seen, IsSlip};

use tm_conv::best_path_law;

/// Octets have one phase, and no fewer octets than it skips. It does nothing.
pub fn phase_law()
    ensures exists { (rate : Rate) (invert : Bool) (window : ℕ) (octets : List ℕ) → (chosen : Chosen)
        × IsPhase rate invert window octets chosen }
    ensures one { (rate : Rate) (invert : Bool) (window : ℕ) (octets : List ℕ) (chosen other : Chosen)
        → IsPhase rate invert window octets chosen → IsPhase rate invert window octets other → chosen ≡ other }
    ensures within { (rate : Rate) (invert : Bool) (window : ℕ) (octets : List ℕ) (chosen : Chosen)
        → IsPhase rate invert window octets chosen → chosen.skip ≤ length octets }
{
    best_path_law();
}

/// The whole window is compared exactly where there are enough octets, and whatever octets come after these the phase
/// stays the same. It does nothing.
pub fn whole_window_law()
    ensures whole { (rate : Rate) (window : ℕ) (octets : List ℕ) → 1 ≤ window → AreCompared rate window octets window
        ↔ octets_needed rate window ≤ length octets }
    ensures prefix { (rate : Rate) (invert : Bool) (window : ℕ) (octets more : List ℕ) (chosen : Chosen)
        → octets_needed rate window ≤ length octets
        → IsPhase rate invert window octets chosen → IsPhase rate invert window (octets ++ more) chosen }
{}

/// Where enough octets are there they have one slip, below the symbols of a period, and whatever octets come after
/// these it stays the same. Symbols that were not disturbed have none. It does nothing.
pub fn slip_law()
    ensures exists { (rate : Rate) (invert : Bool) (t steps : ℕ) (octets : List ℕ)
        → octets_seen rate t steps ≤ length octets
        → (slip : ℕ) × IsSlip rate invert t steps octets slip }
    ensures one { (rate : Rate) (invert : Bool) (t steps : ℕ) (octets : List ℕ) (slip other : ℕ)
        → IsSlip rate invert t steps octets slip → IsSlip rate invert t steps octets other → slip ≡ other }
    ensures within { (rate : Rate) (invert : Bool) (t steps : ℕ) (octets : List ℕ) (slip : ℕ)
        → IsSlip rate invert t steps octets slip → slip < period_size rate }
    ensures prefix { (rate : Rate) (invert : Bool) (t steps : ℕ) (octets more : List ℕ) (slip : ℕ)
        → octets_seen rate t steps ≤ length octets
        → IsSlip rate invert t steps octets slip → IsSlip rate invert t steps (octets ++ more) slip }
    ensures sure { (rate : Rate) (invert : Bool) (t steps register : ℕ) (bits : List ℕ) (slip : ℕ) → AreBits bits
        → register < registers → steps ≤ length bits
        → IsSlip rate invert t steps (sure (path rate invert t register bits)) slip → slip ≡ 0 }
{
    best_path_law();
}
