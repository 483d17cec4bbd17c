// The encoder, bit by bit.
ghost use Rattle.std.specs.Prelude.{◌≡◌, ◌<◌, ◌≤◌, ◌*◌, Bool, List, [], ◌∷◌, ◌++◌, length, take};
ghost use Rattle.tm_base.specs.Bits.{bit_number, bits_of};
ghost use Rattle.tm_conv.specs.Path.{c1, c2, sent, registers};
ghost use Rattle.tm_conv.specs.Encoding.{EncoderStandsFor, sent_for, symbol_list, levels};
ghost use Rattle.tm_conv.specs.Octets.{most_octet_symbols};

use crate::octets::encode_octets;
use crate::rates::{Rate, kept, period};
use std::marker::Model;

/// What one step sends: one symbol, or two in their order.
#[derive(Clone, Copy, Debug, PartialEq, Eq)]
pub enum Symbols {
    One(bool),
    Two(bool, bool),
}

/// Makes symbols of bits, one step after another. The register and the position in the puncture pattern run on over
/// all bits.
#[derive(Drop)]
pub struct Encoder {
    rate: Rate,
    invert: bool,
    register: u8,
    position: u8,
}

impl Model for Encoder {
    ghost use Rattle.std.specs.Prelude.{◌<◌};
    ghost use Rattle.tm_conv.specs.Path.{period, registers};
    ghost use Rattle.tm_conv.specs.Encoding.{Encoding};

    ghost Value = { Encoding };

    ghost view = { λ e. record { rate = e.rate; invert = e.invert; register = e.register; position = e.position } };

    ghost invariant = { λ e. (e.register < registers) × (e.position < period e.rate) };
}

impl Encoder {
    /// A new encoder: register 0 at step 0. Where `invert` is set each second sum is sent inverted.
    pub fn new(rate: Rate, invert: bool) -> Encoder
        ensures rate { result.rate ≡ rate }
        ensures invert { result.invert ≡ invert }
        ensures stands { EncoderStandsFor result [] }
    {
        Encoder {
            rate,
            invert,
            register: 0,
            position: 0,
        }
    }

    /// Takes the next bit, and returns the symbols that its step sends (CCSDS 131.0-B, Convolutional Coding).
    pub fn step(&mut self, bit: bool) -> Symbols
        ensures rate { self.new.rate ≡ self.old.rate }
        ensures invert { self.new.invert ≡ self.old.invert }
        ensures stands { (given : List Bool) → EncoderStandsFor self.old given
            → EncoderStandsFor self.new (given ++ bit ∷ []) }
        ensures sent { (given : List Bool) → EncoderStandsFor self.old given
            → sent_for self.old.rate self.old.invert (given ++ bit ∷ [])
            ≡ sent_for self.old.rate self.old.invert given ++ symbol_list result }
    {
        let (first, second) = sums(self.register, bit);
        let symbols = symbols_kept(self.rate, self.invert, self.position, first, second);
        self.register = self.register / 2 + 32 * u8::from(bit);
        self.position = (self.position + 1) % period(self.rate);
        symbols
    }

    /// Takes the bits of octets, the most significant bit of each first, and writes their symbols to the start of
    /// `out`, each as an octet: a 0 as the octet `low`, and a 1 as its complement. Returns how many symbols these are,
    /// at most 16 for each octet. `out` has at least 16 octets for each octet; what follows the symbols there means
    /// nothing (CCSDS 131.0-B, Convolutional Coding).
    pub fn encode(&mut self, octets: &[u8], low: u8, out: &mut [u8]) -> usize
        requires room { most_octet_symbols * length octets.now ≤ length out.old }
        ensures rate { self.new.rate ≡ self.old.rate }
        ensures invert { self.new.invert ≡ self.old.invert }
        ensures stands { (given : List Bool) → EncoderStandsFor self.old given
            → EncoderStandsFor self.new (given ++ bits_of octets.now) }
        ensures sent { (given : List Bool) → EncoderStandsFor self.old given
            → levels low (sent_for self.old.rate self.old.invert (given ++ bits_of octets.now))
            ≡ levels low (sent_for self.old.rate self.old.invert given) ++ take result out.new }
        ensures at_most { result ≤ most_octet_symbols * length octets.now }
        ensures length { length out.new ≡ length out.old }
    {
        let (count, register, position) = encode_octets(
            self.rate,
            self.invert,
            low,
            self.position,
            self.register,
            octets,
            out,
        );
        self.register = register;
        self.position = position;
        count
    }
}

// The two sums of a step.
pub(crate) fn sums(register: u8, bit: bool) -> (bool, bool)
    requires { register < registers }
    ensures first { bit_number result.0 ≡ c1 register (bit_number bit) }
    ensures second { bit_number result.1 ≡ c2 register (bit_number bit) }
{
    let u = u8::from(bit);
    let first = (u + register / 32 + register / 16 + register / 8 + register) % 2;
    let second = (u + register / 16 + register / 8 + register / 2 + register) % 2;
    (first == 1, second == 1)
}

// What a step at this position of the pattern sends of its two sums.
pub(crate) fn symbols_kept(
    rate: Rate,
    invert: bool,
    position: u8,
    first: bool,
    second: bool,
) -> Symbols
    ensures { symbol_list result ≡ sent rate invert position (bit_number first) (bit_number second) }
{
    let sent_second = second != invert;
    match kept(rate, u64::from(position)) {
        (true, true) => Symbols::Two(first, sent_second),
        (true, false) => Symbols::One(first),
        (false, _) => Symbols::One(sent_second),
    }
}
