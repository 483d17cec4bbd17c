// The two forms of soft octets.
ghost use Rattle.std.specs.Prelude.{◌≡◌, true};
ghost use Rattle.tm_base.specs.SoftForm.{from_form, unsigned_value};

/// An octet, signed or not, as an unsigned one.
pub fn unsigned(is_signed: bool, octet: u8) -> u8
    ensures { result ≡ unsigned_value is_signed octet }
{
    if is_signed {
        octet.wrapping_add(0x80)
    } else {
        octet
    }
}

/// Converts signed octets to unsigned ones.
pub fn to_unsigned(octets: &mut [u8])
    ensures { octets.new ≡ from_form true octets.old }
{
    for k in 0..octets.len() {
        octets[k] = octets[k].wrapping_add(0x80);
    }
}
