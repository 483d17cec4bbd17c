// Words of the Reed-Solomon codes.
ghost use Rattle.std.specs.Prelude.{◌≡◌, ◌≢◌, ◌+◌, ◌*◌, ◌≤◌, ◌++◌, None, Some, length, pos};
ghost use Rattle.tm_codeblock.specs.Cadu.{coded_octets};
ghost use Rattle.tm_gf256.specs.Octet.{basis_of};
ghost use Rattle.tm_rs_code.specs.Code.{IsLength, IsStrength};
ghost use Rattle.tmchan_c.specs.Refusal.{Refuses, answered, decode_refusal, encode_refusal, erased_refusal};
ghost use Rattle.tmchan_c.specs.Repaired.{IsRepaired, IsRepairedErased, erased_by};

use crate::refusal::{Refusal, unequal, word_refusal};
use tm_gf256::{Basis, Gf};
use tm_rs::{Answer, ErasedAnswer, checks, decode_erased_uncounted, decode_uncounted};
use tm_rs_code::Params;

// The most symbols of a word.
const MOST: usize = 255;

// The most check symbols of a word.
const MOST_CHECKS: usize = 32;

/// Writes the octets of the 2E check symbols after those of the information symbols into `checks`, for the code that
/// corrects E = `code` symbols, in the basis of this number. Returns 0, or the reason of the refusal.
#[unsafe(no_mangle)]
pub extern "C" fn tmchan_rs_encode(code: u32, basis: u32, info: &[u8], checks: &mut [u8]) -> i32
    ensures answer { result ≡ answered (encode_refusal code basis (length info.now) (length checks.old)) }
    ensures codeword { result ≡ pos 0 → info.now ++ checks.new ≡ coded_octets (basis_of basis) code info.now }
    ensures unchanged { result ≢ pos 0 → checks.new ≡ checks.old }
{
    let count = 2 * u64::from(code);
    let after = unequal(checks.len() as u64, count, Refusal::Room);
    match word_refusal(code, info.len() as u64 + count, basis, 0, after) {
        Some(refusal) => refusal.answer(),
        None => {
            let params = params_of(code, info.len() + checks.len());
            write_checks(&params, Basis::numbered(u64::from(basis)), info, checks);
            0
        }
    }
}

/// Makes a word the nearest codeword, where one differs from it in at most `repair` symbols. Returns the number of
/// those symbols, or -1 where there is none, and the word is as it was; or the reason of the refusal.
#[unsafe(no_mangle)]
pub extern "C" fn tmchan_rs_decode(code: u32, basis: u32, repair: u32, word: &mut [u8]) -> i32
    ensures refused { Refuses (decode_refusal code basis repair (length word.old)) result (word.new ≡ word.old) }
    ensures repaired { decode_refusal code basis repair (length word.old) ≡ None
        → IsRepaired code (basis_of basis) repair word.old result word.new }
{
    match word_refusal(code, word.len() as u64, basis, repair, None) {
        Some(refusal) => refusal.answer(),
        None => repair_word(code, Basis::numbered(u64::from(basis)), repair as u8, word),
    }
}

/// Makes a word with erased symbols, those whose flag in `erased` is not 0, the nearest codeword, where one differs
/// from it in at most `repair` symbols that are not erased, and twice their number and that of the erased symbols are
/// at most 2 * `code` together. Returns the number of symbols that were wrong, erased or not; all else is as for
/// `tmchan_rs_decode`.
#[unsafe(no_mangle)]
pub extern "C" fn tmchan_rs_decode_erased(
    code: u32,
    basis: u32,
    repair: u32,
    word: &mut [u8],
    erased: &[u8],
) -> i32
    ensures refused { Refuses (erased_refusal code basis repair (length word.old) (length erased.now)) result
        (word.new ≡ word.old) }
    ensures repaired { erased_refusal code basis repair (length word.old) (length erased.now) ≡ None
        → IsRepairedErased code (basis_of basis) repair erased.now word.old result word.new }
{
    let n = word.len() as u64;
    let after = unequal(erased.len() as u64, n, Refusal::Flags);
    match word_refusal(code, n, basis, repair, after) {
        Some(refusal) => refusal.answer(),
        None => repair_erased(
            code,
            Basis::numbered(u64::from(basis)),
            repair as u8,
            word,
            erased,
        ),
    }
}

// The code that corrects `code` symbols in a word of n.
fn params_of(code: u32, n: usize) -> Params
    requires { IsStrength code × IsLength code n }
    ensures e { result.e ≡ code }
    ensures n { result.n ≡ n }
{
    Params::new(u64::from(code), n as u64).unwrap()
}

// Writes the octets of the check symbols after those of information symbols.
fn write_checks(params: &Params, basis: Basis, info: &[u8], octets: &mut [u8])
    requires info { length info.now + 2 * params.now.e ≡ params.now.n }
    requires room { length octets.old ≡ 2 * params.now.e }
    ensures { info.now ++ octets.new ≡ coded_octets basis params.now.e info.now }
{
    let count = 2 * params.e() as usize;
    let mut elements = [Gf(0); MOST];
    let elements = &mut elements[..info.len()];
    basis.octets_to_elements(info, elements);
    let mut symbols = [Gf(0); MOST_CHECKS];
    let symbols = &mut symbols[..count];
    checks(params, elements, symbols);
    basis.elements_to_octets(symbols, octets);
}

// Makes a word of octets the nearest codeword.
fn repair_word(code: u32, basis: Basis, repair: u8, word: &mut [u8]) -> i32
    requires code { IsStrength code × IsLength code (length word.old) }
    requires bound { repair ≤ code }
    ensures { IsRepaired code basis repair word.old result word.new }
{
    let params = params_of(code, word.len());
    let mut room = [Gf(0); MOST];
    let elements = &mut room[..word.len()];
    basis.octets_to_elements(word, elements);
    match decode_uncounted(&params, repair, elements) {
        Answer::Fixed(count) => {
            basis.elements_to_octets(elements, word);
            i32::from(count)
        }
        Answer::Beyond => -1,
    }
}

// Makes a word of octets with flags of erased symbols the nearest codeword.
fn repair_erased(code: u32, basis: Basis, repair: u8, word: &mut [u8], flags: &[u8]) -> i32
    requires code { IsStrength code × IsLength code (length word.old) }
    requires bound { repair ≤ code }
    requires flags { length flags.now ≡ length word.old }
    ensures { IsRepairedErased code basis repair flags.now word.old result word.new }
{
    let params = params_of(code, word.len());
    let mut room = [Gf(0); MOST];
    let elements = &mut room[..word.len()];
    basis.octets_to_elements(word, elements);
    let mut flags_room = [false; MOST];
    let erased = &mut flags_room[..word.len()];
    read_flags(flags, erased);
    match decode_erased_uncounted(&params, repair, erased, elements) {
        ErasedAnswer::Fixed(others, inside) => {
            basis.elements_to_octets(elements, word);
            i32::from(others) + i32::from(inside)
        }
        ErasedAnswer::Beyond => -1,
    }
}

// Reads which symbols are erased.
fn read_flags(flags: &[u8], erased: &mut [bool])
    requires { length erased.old ≡ length flags.now }
    ensures { erased.new ≡ erased_by flags.now }
{
    for i in 0..erased.len() {
        erased[i] = flags[i] != 0;
    }
}
