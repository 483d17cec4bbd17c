// An octet for each bit, as for a symbol.
ghost use Rattle.std.specs.Prelude.{◌≡◌, ◌*◌, ◌%◌, ◌≤◌, ◌==◌, length, take};
ghost use Rattle.tm_base.specs.Bits.{bit_number, bits_of_octet};
ghost use Rattle.tm_conv.specs.Encoding.{bit_numbers, level, levels};
ghost use Rattle.tm_inner.specs.Sending.{spread};

// Puts an octet for each bit of the octets at the start of `room`: `low` for a 0, and for a 1 its complement.
pub fn spread(low: u8, octets: &[u8], room: &mut [u8])
    requires { 8 * length octets.now ≤ length room.old }
    ensures bits { take (8 * length octets.now) room.new ≡ spread low octets.now }
    ensures length { length room.new ≡ length room.old }
{
    for k in 0..octets.len() {
        room[8 * k..8 * k + 8].copy_from_slice(&spread_octet(low, octets[k]));
    }
}

// An octet for each bit of an octet: `low` for a 0, and for a 1 its complement.
fn spread_octet(low: u8, octet: u8) -> [u8; 8]
    ensures { result ≡ levels low (bit_numbers (bits_of_octet octet)) }
{
    [
        level(low, octet >> 7),
        level(low, octet >> 6),
        level(low, octet >> 5),
        level(low, octet >> 4),
        level(low, octet >> 3),
        level(low, octet >> 2),
        level(low, octet >> 1),
        level(low, octet),
    ]
}

// The octet of the lowest bit.
fn level(low: u8, bits: u8) -> u8
    ensures { result ≡ level low (bit_number (bits % 2 == 1)) }
{
    if bits % 2 == 1 { !low } else { low }
}
