// Octets, and their bits as octets 0 and 1.
ghost use Rattle.std.specs.Prelude.{◌≡◌, ◌<◌, ◌≤◌, ◌⊎◌, ◌*◌, ◌%◌, ◌==◌, length, map};
ghost use Rattle.tm_base.specs.Bits.{bits_of, bits_of_octet};

/// Packs bits, each 0 or 1, to octets, the most significant one first.
pub fn pack(bits: &[u8], octets: &mut [u8])
    requires { length bits.now ≡ 8 * length octets.old }
    ensures bits { bits_of octets.new ≡ map (λ bit. bit == 1) bits.now }
    ensures length { length octets.new ≡ length octets.old }
{
    for k in 0..octets.len() {
        octets[k] = octet_of(&bits[8 * k..8 * k + 8]);
    }
}

// The octet of eight bits.
fn octet_of(bits: &[u8]) -> u8
    requires { length bits.now ≡ 8 }
    ensures { bits_of_octet result ≡ map (λ bit. bit == 1) bits.now }
{
    let mut octet = 0;
    for k in 0..8usize {
        octet = octet << 1 | u8::from(bits[k] == 1);
    }
    octet
}

/// How many of `left` bits to pack at once: those of whole octets, up to `most` of these, or fewer than eight.
pub fn run_length(left: usize, most: usize) -> usize
    requires left { 0 < left }
    requires octets { (0 < most) × (most ≤ 4096) }
    ensures some { 0 < result }
    ensures within { result ≤ left }
    ensures most { result ≤ 8 * most }
    ensures whole { (result < 8) ⊎ (result % 8 ≡ 0) }
{
    if left < 8 {
        left
    } else {
        left.min(8 * most) / 8 * 8
    }
}
