// The sender: whole frames to symbols, from octets that are given in pieces.
ghost use Rattle.std.specs.Prelude.{◌≡◌, ◌≢◌, ◌↔◌, ℕ, ◌+◌, ◌-◌, ◌*◌, ◌<◌, ◌≤◌, List, [], length, take, IsTrue, OnOk, IsErrOf, false};
ghost use Rattle.tm_base.specs.Outside.{Rose};
ghost use Rattle.tm_codeblock.specs.Cadu.{unit_size};
ghost use Rattle.tm_codeblock.specs.Frames.{after_frames};
ghost use Rattle.tm_inner.specs.Sending.{most_symbols};
ghost use Rattle.tm_channel.specs.Sending.{Framed, Makes, SenderStandsFor, Sends, SendsPrefix, most_made};

use std::marker::Model;
use tm_base::Sink;
use tm_codeblock::{LONGEST_CADU, cadu, codeblock_size};
use tm_config::{Config, LONGEST_CODEBLOCK};
use tm_inner::{InnerSender, SendError};

/// Room for the symbols of a unit, at most 16 for each of its octets.
pub const ROOM: usize = 16 * LONGEST_CADU;

/// Takes the octets of transfer frames in pieces, and writes the symbols of the unit of each frame once the frame is
/// whole. It keeps a prefix of one frame, and no history.
#[derive(Drop)]
pub struct Sender {
    config: Config,
    frame: PartialFrame,
    // Room for the unit of a frame.
    unit: [u8; LONGEST_CADU],
    inner: InnerSender,
}

impl Model for Sender {
    ghost use Rattle.std.specs.Prelude.{◌≡◌, ◌<◌, ◌≤◌, take};
    ghost use Rattle.tm_config.specs.Configuration.{longest_codeblock};
    ghost use Rattle.tm_codeblock.specs.Cadu.{longest_cadu, unit_size};
    ghost use Rattle.tm_channel.specs.Sending.{Sending};

    ghost Value = { Sending };

    ghost view = { λ s. record {
      config = s.config;
      held = take s.frame.count s.frame.octets;
      inner = s.inner;
    } };

    ghost invariant = { λ s. (s.frame.count < s.config.frame_length) × (s.config.frame_length ≤ longest_codeblock)
        × (s.inner.config ≡ s.config) × (unit_size s.config ≤ longest_cadu) };
}

impl Sender {
    /// A new sender of a configuration.
    pub fn new(config: Config) -> Sender
        ensures config { result.config ≡ config }
        ensures fresh { result.inner.has_failed ≡ false }
        ensures stands { SenderStandsFor result [] }
    {
        Sender {
            config,
            frame: PartialFrame {
                octets: [0; LONGEST_CODEBLOCK],
                count: 0,
            },
            unit: [0; LONGEST_CADU],
            inner: InnerSender::new(&config),
        }
    }

    /// The configuration.
    pub fn config(&self) -> &Config
        ensures value { result.now ≡ self.now.config }
        ensures partial { length self.now.held < self.now.config.frame_length }
    {
        &self.config
    }

    /// Takes octets from the start of `octets`, up to the end of the frame. Where the frame is whole then, puts the
    /// symbols of its unit at the start of `room`, which is to have place for them: `ROOM` octets do for any
    /// configuration. Returns how many octets were taken, and how many were put there.
    pub fn symbols(&mut self, octets: &[u8], room: &mut [u8]) -> (usize, usize)
        requires room { self.old.config.frame_length ≤ length self.old.held + length octets.now
            → most_symbols self.old.config * unit_size self.old.config ≤ length room.old }
        ensures some { 0 < length octets.now → 0 < result.0 }
        ensures most { result.0 ≤ length octets.now }
        ensures fits { result.1 ≤ length room.old }
        ensures failed { self.new.inner.has_failed ≡ self.old.inner.has_failed }
        ensures made { Makes self.old self.new (take result.0 octets.now) (take result.1 room.new) }
        ensures few { result.1 + most_made self.new (length octets.now - result.0)
            ≤ most_made self.old (length octets.now) }
    {
        if self.inner.is_plain() {
            return self.frame.take(&self.config, octets, room);
        }
        let (taken, size) = self.frame.take(&self.config, octets, &mut self.unit);
        let count = self.inner.symbols(&self.unit[..size], room);
        (taken, count)
    }

    /// Takes the next octets of the frames, and writes the symbols of each frame that is whole now.
    ///
    /// `Sink` comes where `out` fails, or takes nothing of what is left; a prefix of what is due was then written.
    /// `Stopped` comes where an earlier push returned `Sink`; nothing is written then.
    pub fn push<O: Sink>(&mut self, octets: &[u8], out: &mut O) -> Result<(), SendError>
        ensures stopped { IsErrOf result SendError.Stopped ↔ IsTrue self.old.inner.has_failed }
        ensures unchanged { IsErrOf result SendError.Stopped → (self.new ≡ self.old) × (out.new ≡ out.old) }
        ensures failed { IsTrue self.new.inner.has_failed ↔ OnOk result ⊥ }
        ensures config { self.new.config ≡ self.old.config }
        ensures sent { OnOk result (Sends self.old self.new (O.taken out.old) (O.taken out.new) octets.now) }
        ensures prefix { IsErrOf result SendError.Sink
            → SendsPrefix self.old (O.taken out.old) (O.taken out.new) octets.now }
        ensures later { O.faults out.old ≤ O.faults out.new }
        ensures rose { IsErrOf result SendError.Sink → Rose (O.faults out.old) (O.faults out.new) (O.is_last out.new) }
        ensures same { result ≢ Err SendError.Sink → O.faults out.new ≡ O.faults out.old }
    {
        if self.inner.has_failed() {
            return Err(SendError::Stopped);
        }
        let mut done = 0;
        while done < octets.len() {
            let (taken, size) = self
                .frame
                .take(&self.config, &octets[done..], &mut self.unit);
            self.inner.push(&self.unit[..size], out)?;
            done += taken;
        }
        Ok(())
    }

    /// How many octets follow the last whole frame of those given so far, where no push returned `Sink`.
    pub fn left_over(&self) -> u32
        ensures { (given : List ℕ) → SenderStandsFor self.now given
            → result ≡ length (after_frames self.now.config.frame_length given) }
    {
        let held = &self.frame.octets[..self.frame.count];
        held.len() as u32
    }

    /// How many octets follow the last whole frame of those given, where no push returned `Sink`.
    pub fn finish(self) -> u32
        ensures { (given : List ℕ) → SenderStandsFor self given
            → result ≡ length (after_frames self.config.frame_length given) }
    {
        self.left_over()
    }
}

// The octets of a frame that is not whole yet.
#[derive(Drop)]
struct PartialFrame {
    octets: [u8; LONGEST_CODEBLOCK],
    // How many octets of the frame there are.
    count: usize,
}

impl PartialFrame {
    // Takes octets from the start of `octets`, up to the end of the frame. Where the frame is whole then, puts its unit
    // at the start of `room`. Returns how many octets were taken, and the length of the unit, or 0 where there is none.
    fn take(&mut self, config: &Config, octets: &[u8], room: &mut [u8]) -> (usize, usize)
        requires partial { self.old.count < config.now.frame_length }
        requires room { config.now.frame_length ≤ self.old.count + length octets.now
            → unit_size config.now ≤ length room.old }
        ensures some { 0 < length octets.now → 0 < result.0 }
        ensures most { result.0 ≤ length octets.now }
        ensures fits { result.1 ≤ length room.old }
        ensures partial { self.new.count < config.now.frame_length }
        ensures framed { Framed config.now (take self.old.count self.old.octets) (take result.0 octets.now)
            (take self.new.count self.new.octets) (take result.1 room.new) }
    {
        let length = config.length() as usize;
        let size = codeblock_size(config) + 4;
        if self.count == 0 && octets.len() >= length {
            cadu(config, &octets[..length], &mut room[..size]);
            return (length, size);
        }
        let taken = octets.len().min(length - self.count);
        let end = self.count + taken;
        self.octets[self.count..end].copy_from_slice(&octets[..taken]);
        if end < length {
            self.count = end;
            return (taken, 0);
        }
        self.count = 0;
        cadu(config, &self.octets[..end], &mut room[..size]);
        (taken, size)
    }
}
