// The bits of octets, one after another.
ghost use Rattle.std.specs.Prelude.{◌≡◌, drop, slice_get};
ghost use Rattle.std.specs.Option.{option_map};
ghost use Rattle.tm_base.specs.Bits.{bits_of, bit_number};

use std::marker::Model;

/// The bits of a list of octets in their order, the most significant bit of each octet first.
#[derive(Drop)]
pub struct BitReader<'a> {
    octets: &'a [u8],
    // The octet under way, and how many of its bits are left.
    current: u8,
    pending: u32,
}

impl<'a> Model for BitReader<'a> {
    ghost use Rattle.std.specs.Prelude.{Bool, List, ◌++◌, ◌≤◌};
    ghost use Rattle.tm_base.specs.Bits.{bits_of, low_bits};

    ghost Value = { List Bool };

    ghost view = { λ reader. low_bits reader.pending reader.current ++ bits_of reader.octets.now };

    ghost invariant = { λ reader. reader.pending ≤ 8 };
}

impl<'a> BitReader<'a> {
    /// Reads `octets` from their first bit on.
    pub fn new(octets: &'a [u8]) -> BitReader<'a>
        ensures { result ≡ bits_of octets.now }
    {
        BitReader {
            octets,
            current: 0,
            pending: 0,
        }
    }

    /// The next bit, 0 or 1, or None where all bits were given.
    pub fn next(&mut self) -> Option<u8>
        ensures bit { result ≡ option_map bit_number (slice_get self.old 0) }
        ensures rest { self.new ≡ drop 1 self.old }
    {
        if self.pending > 0 {
            self.pending -= 1;
            return Some(self.current >> self.pending & 1);
        }
        match self.octets.split_first() {
            Some((first, rest)) => {
                self.octets = rest;
                self.current = *first;
                self.pending = 7;
                Some(*first >> 7)
            }
            None => None,
        }
    }
}
