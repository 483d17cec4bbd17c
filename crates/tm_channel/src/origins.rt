// How many of the octets that were given are of no step, up to each received bit: those skipped, of the phase, and
// dropped.
ghost use Rattle.std.specs.Prelude.{◌≡◌, ◌<◌, ◌≤◌, ◌+◌, ◌^◌, true, [], ◌∷◌, length, take, IfOk};
ghost use Rattle.std.specs.Option.{is_some};
ghost use Rattle.tm_conv.specs.Path.{farthest_step};
ghost use Rattle.tm_channel.specs.Origins.{ReachesBack, is_newest, noted, origin_at, symbol_by};

use std::alloc::{AllocError, Global};
use std::marker::Model;
use tm_codeblock::codeblock_size;
use tm_config::Config;
use tm_conv::symbols_of;
use tm_inner::rate_of;

/// From received bit `first` on, `octets` of the octets that were given before are of no step.
#[derive(Clone, Copy)]
pub struct Origin {
    pub first: u64,
    pub octets: u64,
}

/// The origins of the last bits, the newest first. It takes all its memory at `open`.
#[derive(Drop)]
pub struct Origins {
    room: Vec<Origin>,
    count: usize,
}

impl Model for Origins {
    ghost use Rattle.std.specs.Prelude.{◌<◌, ◌≤◌, length, take};
    ghost use Rattle.tm_channel.specs.Origins.{Noted};

    ghost Value = { Noted };

    ghost view = { λ o. record { origins = take o.count o.room.items; size = length o.room.items } };

    ghost invariant = { λ o. (o.count ≤ length o.room.items) × (0 < length o.room.items) };
}

impl Origins {
    /// Room for the origins of windows that keep all bits that the search may have to keep, with none in it.
    pub fn open(alloc: Global, config: &Config) -> Result<Origins, AllocError>
        ensures none { IfOk result (λ o. o.origins ≡ []) }
        ensures reaches { IfOk result (λ o. ReachesBack config.now o.size) }
    {
        let none = Origin {
            first: 0,
            octets: 0,
        };
        let octets = (1 + config.verify() as usize) * (4 + codeblock_size(config));
        let size = 8 * octets / config.keep() as usize + 2;
        Ok(Origins {
            room: vec![in alloc; none; size]?,
            count: 0,
        })
    }

    /// Notes that before the step of bit `first` `octets` octets are of no step. Where the room is full the oldest
    /// origin goes.
    pub fn note(&mut self, first: u64, octets: u64)
        ensures { self.new ≡ noted first octets self.old }
    {
        if is_newest(&self.room[..self.count], octets) {
            return;
        }
        let count = self.count.min(self.room.len() - 1);
        put_first(self.room.as_mut_slice(), count, Origin { first, octets });
        self.count = count + 1;
    }

    /// How many octets are of no step before that of a bit.
    pub fn at(&self, bit: u64) -> u64
        ensures { result ≡ origin_at self.now.origins bit }
    {
        octets_at(&self.room[..self.count], bit)
    }
}

// Whether the newest origin has these octets.
fn is_newest(origins: &[Origin], octets: u64) -> bool
    ensures { result ≡ is_newest octets origins.now }
{
    if origins.is_empty() {
        return false;
    }
    origins[0].octets == octets
}

// How many octets are of no step before that of a bit.
fn octets_at(origins: &[Origin], bit: u64) -> u64
    ensures { result ≡ origin_at origins.now bit }
{
    for origin in origins {
        if origin.first <= bit {
            return origin.octets;
        }
    }
    0
}

// Moves the first `count` origins up by one, and puts this one before them.
fn put_first(room: &mut [Origin], count: usize, origin: Origin)
    requires { count < length room.old }
    ensures length { length room.new ≡ length room.old }
    ensures first { take (count + 1) room.new ≡ origin ∷ take count room.old }
{
    room.copy_within(0..count, 1);
    room[0] = origin;
}

/// The first symbol of the step of a bit, before which `octets` octets are of no step; with no inner code its own.
pub fn symbol_of(config: &Config, octets: u64, bit: u64) -> u64
    ensures { (is_some config.now.inner ≡ true → bit ≤ farthest_step)
        → symbol_by config.now.inner config.now octets bit < 2 ^ 64
        → result ≡ symbol_by config.now.inner config.now octets bit }
{
    match rate_of(config) {
        Some(rate) => octets.saturating_add(symbols_of(rate, bit.min(FARTHEST_STEP))),
        None => config.skip().saturating_add(bit),
    }
}

// The farthest step of which the number of symbols is told.
const FARTHEST_STEP: u64 = 1 << 62;
