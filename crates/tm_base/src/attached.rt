// The attached sync marker.
ghost use Rattle.std.specs.Prelude.{◌≡◌};
ghost use Rattle.tm_base.specs.Marker as standard;

/// The attached sync marker, 32 bits, in the order sent (CCSDS 131.0-B, Frame Synchronization).
pub const MARKER: [u8; 4] = [0x1A, 0xCF, 0xFC, 0x1D];

/// The attached sync marker, in the order sent (CCSDS 131.0-B, Frame Synchronization).
pub fn marker() -> [u8; 4]
    ensures { result ≡ standard.marker }
{
    MARKER
}
