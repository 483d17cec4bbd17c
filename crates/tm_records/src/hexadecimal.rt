// Octets in hexadecimal on a line.
ghost use Rattle.std.specs.Prelude.{◌≡◌, ◌+◌, ◌*◌, ◌≤◌, ◌++◌, length};
ghost use Rattle.tm_driver.specs.Lines.{line_room};
ghost use Rattle.hex.specs.Hex.{encode_lower};

use crate::coding::LONGEST_WORD;
use hex::encode_to_slice;
use tm_driver::Line;

/// Adds the octets of a word, two lower-case digits for each.
pub fn add_octets(line: &mut Line, octets: &[u8])
    requires few { length octets.now ≤ LONGEST_WORD }
    requires room { length line.old + 2 * length octets.now ≤ line_room }
    ensures text { line.new ≡ line.old ++ encode_lower octets.now }
    ensures length { length line.new ≡ length line.old + 2 * length octets.now }
{
    let mut room = [0; 2 * LONGEST_WORD];
    let digits = &mut room[..2 * octets.len()];
    let _ = encode_to_slice(octets, digits);
    line.text(digits);
}
