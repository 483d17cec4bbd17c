// Channel access data units.
ghost use Rattle.std.specs.Prelude.{◌≡◌, ◌≢◌, Some, length, pos};
ghost use Rattle.tm_codeblock.specs.Cadu.{cadu as cadu_of, unit_size};
ghost use Rattle.tm_config.specs.Configuration.{configuration_of};
ghost use Rattle.tmchan_c.specs.Refusal.{answered, number_answer, values_refusal};
ghost use Rattle.tmchan_c.specs.Unit.{unit_raw, unit_refusal};

use crate::config::checked;
use crate::refusal::Refusal;
use tm_channel::cadu;
use tm_codeblock::codeblock_size;
use tm_config::Raw;

/// Returns how many octets the unit of a frame of `frame_length` octets has, of its marker and its codeblock; or the
/// reason of the refusal.
#[unsafe(no_mangle)]
pub extern "C" fn tmchan_cadu_length(code: u32, depth: u32, frame_length: usize) -> i32
    ensures { result ≡ number_answer (values_refusal (unit_raw code depth 0 0 frame_length))
        (Some (unit_size (configuration_of (unit_raw code depth 0 0 frame_length)))) }
{
    match checked(&raw(code, depth, 0, 0, frame_length)) {
        Err(refusal) => refusal.answer(),
        Ok(config) => (codeblock_size(&config) + 4) as i32,
    }
}

/// Writes the channel access data unit of a frame. Returns 0, or the reason of the refusal.
#[unsafe(no_mangle)]
pub extern "C" fn tmchan_cadu(
    code: u32,
    depth: u32,
    basis: u32,
    randomize: u32,
    frame: &[u8],
    unit: &mut [u8],
) -> i32
    ensures answer { result ≡ answered (unit_refusal (unit_raw code depth basis randomize (length frame.now))
        (length unit.old)) }
    ensures unit { result ≡ pos 0 → unit.new ≡ cadu_of
        (configuration_of (unit_raw code depth basis randomize (length frame.now))) frame.now }
    ensures unchanged { result ≢ pos 0 → unit.new ≡ unit.old }
{
    match checked(&raw(code, depth, basis, randomize, frame.len())) {
        Err(refusal) => refusal.answer(),
        Ok(config) => {
            if unit.len() != codeblock_size(&config) + 4 {
                return Refusal::Room.answer();
            }
            cadu(&config, frame, unit);
            0
        }
    }
}

// The values of the options: those that are given, and else the defaults.
fn raw(code: u32, depth: u32, basis: u32, randomize: u32, frame_length: usize) -> Raw
    ensures { result ≡ unit_raw code depth basis randomize frame_length }
{
    Raw {
        code: u64::from(code),
        depth: u64::from(depth),
        length: Some(frame_length as u64),
        randomize: u64::from(randomize),
        basis: u64::from(basis),
        ..Raw::default()
    }
}
