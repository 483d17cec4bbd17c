// The bits of octets that hold one each.
ghost use Rattle.std.specs.Prelude.{◌≡◌, ◌==◌, length, map};
ghost use Rattle.tm_conv.specs.Path.{AreBits};
ghost use Rattle.tm_inner.specs.Inner.{nearest_bit};

use crate::code::is_signed;
use tm_base::unsigned;
use tm_config::Config;

// Puts the bits that octets are nearest to in `bits`, each 0 or 1.
pub fn nearest_bits(config: &Config, octets: &[u8], bits: &mut [u8])
    requires { length bits.old ≡ length octets.now }
    ensures size { length bits.new ≡ length bits.old }
    ensures are_bits { AreBits bits.new }
    ensures bits { map (λ bit. bit == 1) bits.new ≡ map (nearest_bit config.now) octets.now }
{
    let is_signed = is_signed(config);
    for k in 0..bits.len() {
        bits[k] = unsigned(is_signed, octets[k]) >> 7;
    }
}
