// The check symbols of either code.
ghost use Rattle.std.specs.Prelude.{◌≡◌, ◌+◌, ◌*◌, ◌++◌, length};
ghost use Rattle.tm_gf256.specs.Poly.{numbers};
ghost use Rattle.tm_rs_code.specs.Code.{IsSystematic, encode_word};

use crate::{rs8, rs16};
use tm_gf256::Gf;
use tm_rs_code::Params;

/// Writes the 2e check symbols of n - 2e information symbols to `out`: `info` and `out` together are
/// the codeword that begins with `info` (CCSDS 131.0-B, Reed-Solomon Coding). It takes no memory.
pub fn checks(params: &Params, info: &[Gf], out: &mut [Gf])
    requires information { length info.now + 2 * params.now.e ≡ params.now.n }
    requires room { length out.old ≡ 2 * params.now.e }
    ensures codeword { numbers info.now ++ numbers out.new
        ≡ encode_word params.now.e (numbers info.now) }
    ensures systematic { IsSystematic params.now.e (numbers info.now)
        (numbers info.now ++ numbers out.new) }
{
    if params.e() == 16 {
        store(&rs16::remainder(info).to_array(), out);
    } else {
        store(&rs8::remainder(info).to_array(), out);
    }
}

// Copies a register's symbols.
fn store(register: &[u8], out: &mut [Gf])
    requires { length register.now ≡ length out.old }
    ensures { numbers out.new ≡ register.now }
{
    for i in 0..register.len() {
        out[i] = Gf(register[i]);
    }
}
