// What soft octets say against the symbols of a path.
ghost use Rattle.std.specs.Prelude.{◌≡◌, ℕ, ◌+◌, ◌≤◌, ◌<◌, ◌^◌, [], ◌∷◌, length};
ghost use Rattle.tm_base.specs.Bits.{bit_number};
ghost use Rattle.tm_conv.specs.Cost.{distance};
ghost use Rattle.tm_conv.specs.Counts.{AreFew, added, counts_of, distances};
ghost use Rattle.tm_conv.specs.Encoding.{symbol_list};
ghost use Rattle.tm_conv.specs.Path.{AreBits, farthest_step, path, registers, steps_size};

use crate::encoder::{Symbols, sums, symbols_kept};
use crate::rates::{Rate, period, step_len};

/// What soft octets say against symbols.
#[derive(Clone, Copy, Debug, PartialEq, Eq)]
pub struct SymbolCounts {
    /// How many octets.
    pub octets: u64,
    /// How many of them are nearer to the other symbol.
    pub wrong: u64,
    /// The sum of their distances from the symbols, 0 to 255 each.
    pub distance: u64,
    /// The sum of the squares of these.
    pub squares: u64,
}

/// What the first of the soft octets say against the symbols of a path: from a register at step `t`, counted from the
/// stream's first bit, by these bits, 2^32 at most. There are octets for all its symbols.
pub fn symbol_counts(
    rate: Rate,
    invert: bool,
    t: u64,
    register: u8,
    bits: &[u8],
    octets: &[u8],
) -> SymbolCounts
    requires register { register < registers }
    requires bits { AreBits bits.now }
    requires few { (length bits.now ≤ 2 ^ 32) × (t + length bits.now ≤ farthest_step) }
    requires octets { steps_size rate t (length bits.now) ≤ length octets.now }
    ensures { result ≡ counts_of (path rate invert t register bits.now) octets.now }
{
    let mut counts = SymbolCounts {
        octets: 0,
        wrong: 0,
        distance: 0,
        squares: 0,
    };
    let mut place = 0;
    let mut now = register;
    for i in 0..bits.len() {
        let step = t + i as u64;
        let end = place + step_len(rate, step);
        let (first, second) = sums(now, bits[i] == 1);
        let position = (step % u64::from(period(rate))) as u8;
        let symbols = symbols_kept(rate, invert, position, first, second);
        add_step(&mut counts, symbols, &octets[place..end]);
        now = now / 2 + 32 * bits[i];
        place = end;
    }
    counts
}

// Counts the octets of a step.
fn add_step(counts: &mut SymbolCounts, symbols: Symbols, octets: &[u8])
    requires octets { length octets.now ≡ length (symbol_list symbols) }
    requires few { AreFew (2 ^ 40) counts.old }
    ensures added { counts.new ≡ added counts.old (distances (symbol_list symbols) octets.now) }
    ensures few { (most : ℕ) → AreFew most counts.old → AreFew (most + length octets.now) counts.new }
{
    match symbols {
        Symbols::One(symbol) => add(counts, symbol, octets[0]),
        Symbols::Two(first, second) => {
            add(counts, first, octets[0]);
            add(counts, second, octets[1]);
        }
    }
}

// Counts an octet more against its symbol.
fn add(counts: &mut SymbolCounts, symbol: bool, octet: u8)
    requires { AreFew (2 ^ 41) counts.old }
    ensures added { counts.new ≡ added counts.old (distance (bit_number symbol) octet ∷ []) }
    ensures few { (most : ℕ) → AreFew most counts.old → AreFew (most + 1) counts.new }
{
    let far = u64::from(if symbol { 255 - octet } else { octet });
    counts.octets += 1;
    counts.wrong += u64::from(far >= 128);
    counts.distance += far;
    counts.squares += far * far;
}
