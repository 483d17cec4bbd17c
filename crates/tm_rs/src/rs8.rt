// The register of the (255,239) code.
ghost use Rattle.std.specs.Prelude.{◌≡◌, ◌++◌, length};
ghost use Rattle.tm_gf256.specs.Poly.{numbers};
ghost use Rattle.tm_rs_code.specs.Code.{IsSystematic, least_checks, least_correctable};
ghost use Rattle.tm_rs_code.specs.Register.{multiple, shift};

mod rows;

use rows::ROWS;
use std::simd::prelude::*;
use tm_gf256::Gf;

// The generator polynomial, the highest power first, without its first coefficient, which is 1.
pub const GENERATOR: [u8; 16] = [
    0xA5, 0x69, 0x1B, 0x9F, 0x68, 0x98, 0x65, 0x4A, 0x65, 0x98, 0x68, 0x9F, 0x1B, 0x69, 0xA5, 0x01,
];

// Each lane from the one above, and a 0 into the last.
const UP: [usize; 16] = [1, 2, 3, 4, 5, 6, 7, 8, 9, 10, 11, 12, 13, 14, 15, 16];

// The multiple of the generator polynomial by an element.
fn row_of(factor: u8) -> Simd<u8, 16>
    ensures { result ≡ multiple factor GENERATOR }
{
    Simd::from_array(ROWS[usize::from(factor)])
}

// Takes one symbol into the register.
fn shift_in(register: Simd<u8, 16>, symbol: u8) -> Simd<u8, 16>
    requires { length register ≡ least_checks }
    ensures { result ≡ shift GENERATOR symbol register }
{
    let factor = symbol ^ register.to_array()[0];
    register.shuffle(Simd::splat(0), UP) ^ row_of(factor)
}

// The check symbols of information symbols.
pub fn remainder(info: &[Gf]) -> Simd<u8, 16>
    ensures size { length result ≡ least_checks }
    ensures systematic { IsSystematic least_correctable (numbers info.now) (numbers info.now ++ result) }
{
    let mut register = Simd::splat(0);
    for symbol in info {
        register = shift_in(register, symbol.number());
    }
    register
}
