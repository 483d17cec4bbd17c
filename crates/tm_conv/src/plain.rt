// The symbols of octets bit by bit: slower than by tables, and easier to read.
ghost use Rattle.std.specs.Prelude.{◌≡◌, ◌+◌, ◌*◌, ◌≤◌, Bool, List, ◌++◌, length, take};
ghost use Rattle.tm_base.specs.Bits.{bit_number, bits_of};
ghost use Rattle.tm_conv.specs.Encoding.{EncoderStandsFor, sent_for, symbol_list, level, levels};
ghost use Rattle.tm_conv.specs.Octets.{most_octet_symbols};

use crate::encoder::{Encoder, Symbols};

/// What `Encoder::encode` does, by one step for each bit.
pub fn plain_encode(encoder: &mut Encoder, octets: &[u8], low: u8, out: &mut [u8]) -> usize
    requires room { most_octet_symbols * length octets.now ≤ length out.old }
    ensures rate { encoder.new.rate ≡ encoder.old.rate }
    ensures invert { encoder.new.invert ≡ encoder.old.invert }
    ensures stands { (given : List Bool) → EncoderStandsFor encoder.old given
        → EncoderStandsFor encoder.new (given ++ bits_of octets.now) }
    ensures sent { (given : List Bool) → EncoderStandsFor encoder.old given
        → levels low (sent_for encoder.old.rate encoder.old.invert (given ++ bits_of octets.now))
        ≡ levels low (sent_for encoder.old.rate encoder.old.invert given) ++ take result out.new }
    ensures at_most { result ≤ most_octet_symbols * length octets.now }
    ensures length { length out.new ≡ length out.old }
{
    let mut count = 0;
    for k in 0..8 * octets.len() {
        let bit = octets[k / 8] >> (7 - k % 8) & 1 == 1;
        let symbols = encoder.step(bit);
        count = store(symbols, low, count, out);
    }
    count
}

// Writes the symbols of a step after the first `count` octets, and returns how many stand there then.
fn store(symbols: Symbols, low: u8, count: usize, out: &mut [u8]) -> usize
    requires { count + 2 ≤ length out.old }
    ensures stored { take result out.new ≡ take count out.old ++ levels low (symbol_list symbols) }
    ensures at_most { result ≤ count + 2 }
    ensures length { length out.new ≡ length out.old }
{
    match symbols {
        Symbols::One(symbol) => {
            out[count] = level(low, symbol);
            count + 1
        }
        Symbols::Two(first, second) => {
            out[count] = level(low, first);
            out[count + 1] = level(low, second);
            count + 2
        }
    }
}

// The octet of a symbol.
fn level(low: u8, symbol: bool) -> u8
    ensures { result ≡ level low (bit_number symbol) }
{
    if symbol { !low } else { low }
}
