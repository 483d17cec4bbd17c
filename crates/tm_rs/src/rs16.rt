// The register of the (255,223) code.
ghost use Rattle.std.specs.Prelude.{◌≡◌, ◌++◌, length};
ghost use Rattle.tm_gf256.specs.Poly.{numbers};
ghost use Rattle.tm_rs_code.specs.Code.{IsSystematic, most_checks, most_correctable};
ghost use Rattle.tm_rs_code.specs.Register.{multiple, shift};

mod rows;

use rows::ROWS;
use std::simd::prelude::*;
use tm_gf256::Gf;

// The generator polynomial, the highest power first, without its first coefficient, which is 1.
pub const GENERATOR: [u8; 32] = [
    0x5B, 0x7F, 0x56, 0x10, 0x1E, 0x0D, 0xEB, 0x61, 0xA5, 0x08, 0x2A, 0x36, 0x56, 0xAB, 0x20, 0x71,
    0x20, 0xAB, 0x56, 0x36, 0x2A, 0x08, 0xA5, 0x61, 0xEB, 0x0D, 0x1E, 0x10, 0x56, 0x7F, 0x5B, 0x01,
];

// Each lane from the one above, and a 0 into the last.
const UP: [usize; 32] = [
    1, 2, 3, 4, 5, 6, 7, 8, 9, 10, 11, 12, 13, 14, 15, 16, 17, 18, 19, 20, 21, 22, 23, 24, 25, 26,
    27, 28, 29, 30, 31, 32,
];

// The multiple of the generator polynomial by an element.
fn row_of(factor: u8) -> Simd<u8, 32>
    ensures { result ≡ multiple factor GENERATOR }
{
    Simd::from_array(ROWS[usize::from(factor)])
}

// Takes one symbol into the register.
fn shift_in(register: Simd<u8, 32>, symbol: u8) -> Simd<u8, 32>
    requires { length register ≡ most_checks }
    ensures { result ≡ shift GENERATOR symbol register }
{
    let factor = symbol ^ register.to_array()[0];
    register.shuffle(Simd::splat(0), UP) ^ row_of(factor)
}

// The check symbols of information symbols.
pub fn remainder(info: &[Gf]) -> Simd<u8, 32>
    ensures size { length result ≡ most_checks }
    ensures systematic { IsSystematic most_correctable (numbers info.now) (numbers info.now ++ result) }
{
    let mut register = Simd::splat(0);
    for symbol in info {
        register = shift_in(register, symbol.number());
    }
    register
}
