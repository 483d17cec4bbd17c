// Bits that are octets 0 and 1, packed to octets for the search.
ghost use Rattle.std.specs.Prelude.{◌≡◌, ◌<◌, ◌≤◌, ◌⊎◌, ◌*◌, ◌%◌, ◌==◌, drop, length, map, take};
ghost use Rattle.tm_base.specs.Bits.{bits_of};
ghost use Rattle.tm_channel.specs.Receiving.{run_size};

use tm_codeblock::pack;

/// How many octets bits are packed to at a time.
pub const RUN: usize = 256;

/// Packs fewer than eight bits, each 0 or 1, or those of up to `RUN` octets. Returns how many octets these are, and
/// after how many bits of the first one they begin.
pub fn pack_run(bits: &[u8], room: &mut [u8]) -> (usize, usize)
    requires whole { (length bits.now < 8) ⊎ (length bits.now % 8 ≡ 0) }
    requires most { length bits.now ≤ 8 * run_size }
    requires room { length room.old ≡ run_size }
    ensures count { result.0 ≤ run_size }
    ensures from { result.1 ≤ 8 * result.0 }
    ensures bits { drop result.1 (bits_of (take result.0 room.new)) ≡ map (λ bit. bit == 1) bits.now }
    ensures length { length room.new ≡ length room.old }
{
    if bits.len() < 8 {
        // They follow others in an octet, which are left out.
        let from = 8 - bits.len();
        let mut eight = [0; 8];
        eight[from..].copy_from_slice(bits);
        pack(&eight, &mut room[..1]);
        return (1, from);
    }
    let count = bits.len() / 8;
    pack(bits, &mut room[..count]);
    (count, 0)
}
