// The check symbols by products, one for each coefficient of the generator polynomial: slower than by
// rows, and easier to read.
ghost use Rattle.std.specs.Prelude.{◌≡◌, ◌<◌, ◌+◌, ◌*◌, ◌++◌, ℕ, length};
ghost use Rattle.tm_gf256.specs.Poly.{numbers};
ghost use Rattle.tm_rs_code.specs.Code.{IsSystematic, encode_word};
ghost use Rattle.tm_rs_code.specs.Register.{shift};
ghost use Rattle.tm_rs.specs.Generator.{IsGenerator};

use crate::{rs8, rs16};
use tm_gf256::Gf;
use tm_rs_code::Params;

/// What `checks` does, by a shift register that multiplies each coefficient of the generator polynomial
/// by the symbol fed back.
pub fn plain_checks(params: &Params, info: &[Gf], out: &mut [Gf])
    requires information { length info.now + 2 * params.now.e ≡ params.now.n }
    requires room { length out.old ≡ 2 * params.now.e }
    ensures codeword { numbers info.now ++ numbers out.new
        ≡ encode_word params.now.e (numbers info.now) }
    ensures systematic { IsSystematic params.now.e (numbers info.now)
        (numbers info.now ++ numbers out.new) }
{
    if params.e() == 16 {
        divide(&rs16::GENERATOR, info, out);
    } else {
        divide(&rs8::GENERATOR, info, out);
    }
}

// Divides by the generator polynomial: `register` is left with the check symbols.
fn divide(generator: &[u8], info: &[Gf], register: &mut [Gf])
    requires some { 0 < length generator.now }
    requires room { length register.old ≡ length generator.now }
    ensures { (e : ℕ) → IsGenerator e generator.now
        → IsSystematic e (numbers info.now) (numbers info.now ++ numbers register.new) }
{
    register.fill(Gf(0));
    for symbol in info {
        // So that the proof has the range of the symbol.
        let _range = symbol.number();
        shift_in(generator, *symbol, register);
    }
}

// Takes one symbol into the register.
fn shift_in(generator: &[u8], symbol: Gf, register: &mut [Gf])
    requires some { 0 < length generator.now }
    requires room { length register.old ≡ length generator.now }
    ensures { numbers register.new ≡ shift generator.now symbol.0 (numbers register.old) }
{
    let factor = symbol.add(register[0]);
    let last = register.len() - 1;
    for i in 0..last {
        register[i] = register[i + 1].add(factor.mul(Gf(generator[i])));
    }
    register[last] = factor.mul(Gf(generator[last]));
}
