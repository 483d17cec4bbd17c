// The sender's last stage.
ghost use Rattle.std.specs.Prelude.{◌≡◌, ◌≢◌, ◌↔◌, ◌*◌, ◌≤◌, ℕ, List, ◌++◌, [], length, take, false, true, IsTrue, OnOk, IsErrOf};
ghost use Rattle.tm_base.specs.Bits.{AreOctets};
ghost use Rattle.tm_base.specs.Outside.{Rose};
ghost use Rattle.tm_base.specs.Pieces.{further};
ghost use Rattle.tm_inner.specs.Symbols.{symbols_of_octets};
ghost use Rattle.tm_inner.specs.Sending.{IsEncoderOf, KeepsFor, InnerSenderStandsFor, InnerSends, InnerSendsPrefix, InnerMakes, is_plain, most_symbols};

use crate::code::{encoder_of, is_packed, low_level};
use crate::spreading::spread;
use std::marker::Model;
use thiserror::Error;
use tm_base::{Failed, Sink, put_all};
use tm_config::Config;
use tm_conv::Encoder;

// The octets whose symbols are written at a time, and the most that these fill.
const PIECE: usize = 256;

const ROOM: usize = 16 * PIECE;

/// Why a push was refused.
#[derive(Clone, Copy, Debug, PartialEq, Eq, Error)]
pub enum SendError {
    /// The sink failed, or took nothing of what was left.
    #[error("sink")]
    Sink,
    /// An earlier push returned `Sink`.
    #[error("stopped")]
    Stopped,
}

/// Makes the symbols that are sent of octets, piece by piece, and writes them.
#[derive(Drop)]
pub struct InnerSender {
    config: Config,
    // None where there is no inner code.
    encoder: Option<Encoder>,
    has_failed: bool,
}

impl Model for InnerSender {
    ghost use Rattle.tm_inner.specs.Sending.{InnerSending, IsEncoderOf};

    ghost Value = { InnerSending };

    ghost view = { λ s. record { config = s.config; encoder = s.encoder; has_failed = s.has_failed } };

    ghost invariant = { λ s. IsEncoderOf s.config s.encoder };
}

impl InnerSender {
    /// A new inner sender of a configuration.
    pub fn new(config: &Config) -> InnerSender
        ensures config { result.config ≡ config.now }
        ensures fresh { result.has_failed ≡ false }
        ensures stands { InnerSenderStandsFor result [] }
    {
        InnerSender {
            config: *config,
            encoder: encoder_of(config),
            has_failed: false,
        }
    }

    /// Whether a push has returned `Sink`, so that each further one returns `Stopped`.
    pub fn has_failed(&self) -> bool
        ensures { result ≡ self.now.has_failed }
    {
        self.has_failed
    }

    /// Has each further push return `Stopped`, as after a fault of a sink.
    pub fn stop(&mut self)
        ensures { self.new ≡ record self.old { has_failed = true } }
    {
        self.has_failed = true;
    }

    /// Whether the symbols of octets are these octets: with no inner code, where bits are packed.
    pub fn is_plain(&self) -> bool
        ensures value { result ≡ is_plain self.now.config }
        ensures one { IsTrue result → most_symbols self.now.config ≡ 1 }
        ensures same { IsTrue result → (octets : List ℕ) → AreOctets octets
            → InnerMakes self.now self.now octets octets }
    {
        self.encoder.is_none() && is_packed(&self.config)
    }

    /// Puts the symbols of the next octets at the start of `room`, most significant bit first: with an inner code an
    /// octet for each symbol, 00 and FF, or 80 and 7F (hex) in the signed form (CCSDS 131.0-B, Convolutional Coding);
    /// with none the octets, or where bits are not to be packed such an octet for each bit. Returns how many octets
    /// were put there. The code's register and puncture pattern run on from call to call.
    pub fn symbols(&mut self, octets: &[u8], room: &mut [u8]) -> usize
        requires { most_symbols self.old.config * length octets.now ≤ length room.old }
        ensures fits { result ≤ length room.old }
        ensures most { result ≤ most_symbols self.old.config * length octets.now }
        ensures failed { self.new.has_failed ≡ self.old.has_failed }
        ensures made { InnerMakes self.old self.new octets.now (take result room.new) }
    {
        symbols_of(&self.config, &mut self.encoder, octets, room)
    }

    /// Writes the symbols of the next octets.
    ///
    /// `Sink` comes where `out` fails, or takes nothing of what is left; a prefix of what is due was then written.
    /// `Stopped` comes where an earlier push returned `Sink`; nothing is written then.
    pub fn push<O: Sink>(&mut self, octets: &[u8], out: &mut O) -> Result<(), SendError>
        ensures stopped { IsErrOf result SendError.Stopped ↔ IsTrue self.old.has_failed }
        ensures unchanged { IsErrOf result SendError.Stopped → (self.new ≡ self.old) × (out.new ≡ out.old) }
        ensures failed { IsTrue self.new.has_failed ↔ OnOk result ⊥ }
        ensures config { self.new.config ≡ self.old.config }
        ensures sent { OnOk result (InnerSends self.old self.new (O.taken out.old) (O.taken out.new) octets.now) }
        ensures prefix { IsErrOf result SendError.Sink
            → InnerSendsPrefix self.old (O.taken out.old) (O.taken out.new) octets.now }
        ensures later { O.faults out.old ≤ O.faults out.new }
        ensures rose { IsErrOf result SendError.Sink → Rose (O.faults out.old) (O.faults out.new) (O.is_last out.new) }
        ensures same { result ≢ Err SendError.Sink → O.faults out.new ≡ O.faults out.old }
    {
        if self.has_failed {
            return Err(SendError::Stopped);
        }
        let mut done = 0;
        while done < octets.len() {
            let mut room = [0; ROOM];
            let end = done + PIECE.min(octets.len() - done);
            let count = self.symbols(&octets[done..end], &mut room);
            match put_all(out, &room[..count]) {
                Ok(()) => {}
                Err(Failed) => {
                    self.stop();
                    return Err(SendError::Sink);
                }
            }
            done = end;
        }
        Ok(())
    }
}

// Puts the symbols of the octets at the start of the room where there is an encoder, and else the octets, or where they
// are not to be packed an octet for each of their bits.
fn symbols_of(
    config: &Config,
    encoder: &mut Option<Encoder>,
    octets: &[u8],
    room: &mut [u8],
) -> usize
    requires encoder { IsEncoderOf config.now encoder.old }
    requires room { most_symbols config.now * length octets.now ≤ length room.old }
    ensures fits { result ≤ length room.old }
    ensures most { result ≤ most_symbols config.now * length octets.now }
    ensures encoder { IsEncoderOf config.now encoder.new }
    ensures stands { (given : List ℕ) → KeepsFor encoder.old given → KeepsFor encoder.new (given ++ octets.now) }
    ensures due { (given : List ℕ) → KeepsFor encoder.old given
        → further (symbols_of_octets config.now) given octets.now ≡ take result room.new }
{
    match encoder {
        Some(encoder) => encoder.encode(octets, low_level(config), room),
        None => {
            if is_packed(config) {
                room[..octets.len()].copy_from_slice(octets);
                octets.len()
            } else {
                spread(low_level(config), octets, room);
                8 * octets.len()
            }
        }
    }
}
