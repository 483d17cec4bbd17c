// Numbers as octets, the most significant octet first.
ghost use Rattle.std.specs.Prelude.{◌≡◌, ◌≤◌, length};
ghost use Rattle.std.specs.Int.{w32, w64, from_be_bytes};
ghost use Rattle.tm_conv.specs.Path.{registers};
ghost use Rattle.tm_cert_file.specs.Window.{column_octets, header_octets, numbers_in, column_size};

/// How many octets stand before the bits of a window.
pub(crate) const HEADER: usize = 17;

/// How many octets a column has.
pub(crate) const COLUMN: usize = 256;

/// What stands before the bits of a window: its steps, how many of them are kept, the register its path starts from,
/// and what the path costs.
pub(crate) fn header(steps: u32, kept: u32, start: u8, metric: u64) -> [u8; 17]
    ensures { result ≡ header_octets steps kept start metric }
{
    let mut octets = [0; 17];
    octets[..4].copy_from_slice(&steps.to_be_bytes());
    octets[4..8].copy_from_slice(&kept.to_be_bytes());
    octets[8] = start;
    octets[9..].copy_from_slice(&metric.to_be_bytes());
    octets
}

/// The octets of a column.
pub(crate) fn column_octets(column: &[u32; 64]) -> [u8; 256]
    ensures { result ≡ column_octets column.now }
{
    let mut octets = [0; 256];
    for s in 0..64usize {
        octets[4 * s..4 * s + 4].copy_from_slice(&column[s].to_be_bytes());
    }
    octets
}

/// The number of the first four octets.
pub(crate) fn read_u32(octets: &[u8]) -> u32
    requires { 4 ≤ length octets.now }
    ensures { result ≡ from_be_bytes w32 octets.now }
{
    u32::from_be_bytes([octets[0], octets[1], octets[2], octets[3]])
}

/// The number of the first eight octets.
pub(crate) fn read_u64(octets: &[u8]) -> u64
    requires { 8 ≤ length octets.now }
    ensures { result ≡ from_be_bytes w64 octets.now }
{
    u64::from_be_bytes([
        octets[0], octets[1], octets[2], octets[3], octets[4], octets[5], octets[6], octets[7],
    ])
}

/// The column of the first 256 octets.
pub(crate) fn read_column(octets: &[u8]) -> [u32; 64]
    requires { column_size ≤ length octets.now }
    ensures { result ≡ numbers_in registers octets.now }
{
    let mut column = [0; 64];
    for s in 0..64usize {
        column[s] = read_u32(&octets[4 * s..4 * s + 4]);
    }
    column
}
