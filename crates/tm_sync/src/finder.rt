// The search that looks inside codeblocks too.
ghost use Rattle.std.specs.Prelude.{◌≡◌, ◌<◌, ◌≤◌, ◌+◌, ◌*◌, ◌^◌, ℕ, Bool, true, false, List, ◌∷◌, ◌++◌, drop, length, IfSome, IfNone, IsTrue, Some, None, is_none};
ghost use Rattle.std.specs.List.{list_all, range_with_len};
ghost use Rattle.tm_base.specs.Marker.{most_tolerance, marker_size};
ghost use Rattle.tm_sync.specs.Bits.{bits_bound};
ghost use Rattle.tm_sync.specs.Places.{match_of, settled_by, found_at, are_verified, before_next};
ghost use Rattle.tm_sync.specs.Rescan.{Fits, Soundness, ends_at, is_inside, may_bridge, reach};
ghost use Rattle.tm_sync.specs.Finding.{Ends, Finds, IsWhole, IsOpen, NoneIn, Passes, Stands, Tells, kept_at, last_of, places_left};

use crate::found::{Before, Columns, Found};
use crate::recent_bits::RecentBits;
use crate::search::{distance_of, polarity_of, wrong_count};
use std::marker::Model;

// The most bits of a marker that may be wrong.
const MOST_TOLERANCE: u8 = 8;

// The place before the next bit, where that is part of its codeblock or right behind it.
#[derive(Clone, Copy)]
pub struct Previous {
    // How many bits of its codeblock are left.
    pub left: usize,
    pub before: Before,
    pub sound: bool,
}

// What stands at the next bits.
pub enum Ahead {
    // The number of bits, from the first on, at which no place stands.
    Nothing(usize),
    // They are too few to tell.
    TooFew,
    // A place at the first one.
    Place(Found),
}

/// Finds places in bits, one after the other. With columns it looks inside codeblocks too: there what it finds is a
/// place only where its codeblock is sound.
#[derive(Drop)]
pub struct Finder {
    tolerance: u8,
    fly: u8,
    either: bool,
    block_bits: u32,
    verify: u8,
    columns: Option<Columns>,
    // How many bits are passed.
    passed: u64,
    last: Option<Previous>,
}

impl Model for Finder {
    ghost use Rattle.std.specs.Prelude.{◌≡◌, ◌<◌, ◌≤◌, ◌+◌, ◌*◌, ◌^◌, IfSome};
    ghost use Rattle.std.specs.Option.{option_map};
    ghost use Rattle.tm_base.specs.Marker.{most_tolerance, marker_size};
    ghost use Rattle.tm_sync.specs.Finding.{Finding, last_of};
    ghost use Rattle.tm_sync.specs.Rescan.{reach};

    ghost Value = { Finding };

    ghost view = { λ f. record {
      rules = record {
        tolerance = f.tolerance;
        fly = f.fly;
        either = f.either;
        block_bits = f.block_bits;
        verify = f.verify;
      };
      columns = f.columns;
      passed = f.passed;
      last = option_map (last_of f.passed) f.last;
    } };

    ghost invariant = { λ f. (f.tolerance ≤ most_tolerance) × (f.fly < 2 ^ 8) × (f.block_bits < 2 ^ 32)
        × IfSome f.columns (λ c. reach c ≤ f.block_bits) × IfSome f.last (λ l. l.left ≤ marker_size + f.block_bits) };
}

impl Finder {
    /// A search that has passed no bits.
    ///
    /// `tolerance` is the most wrong bits, at most 8, with which a marker still matches; `fly` the most places in a row
    /// that are taken though no marker matches there; `either` says whether inverted markers match too; `block_bits` is
    /// the size of a codeblock in bits; `verify` is how many further markers, each right after the codeblock of the
    /// one before, must match in the same polarity before a place that is searched for is taken. With `columns` markers
    /// are looked for inside codeblocks too: their last symbols, as many of each column as the code corrects, are part
    /// of the codeblock.
    pub fn new(
        tolerance: u8,
        fly: u8,
        either: bool,
        block_bits: u32,
        verify: u8,
        columns: Option<Columns>,
    ) -> Finder
        requires tolerance { tolerance ≤ most_tolerance }
        requires columns { IfSome columns (λ c. reach c ≤ block_bits) }
        ensures { result ≡ record {
          rules = record {
            tolerance = tolerance;
            fly = fly;
            either = either;
            block_bits = block_bits;
            verify = verify;
          };
          columns = columns;
          passed = 0;
          last = None;
        } }
    {
        Finder {
            tolerance,
            fly,
            either,
            block_bits,
            verify,
            columns,
            passed: 0,
            last: None,
        }
    }

    /// How many bits are passed.
    pub fn passed(&self) -> u64
        ensures { result ≡ self.now.passed }
    {
        self.passed
    }

    /// Passes bits up to the next place whose codeblock is whole, and returns it: it is to be taken then. None where
    /// these bits have no more; then they are fewer than settle a place that is searched for.
    ///
    /// The bits in all are to be below 2^63.
    pub fn next(&mut self, recent: &mut RecentBits) -> Option<Found>
        requires whole { IsWhole self.old recent.old.bits }
        ensures size { recent.new.size ≡ recent.old.size }
        ensures passes { Passes self.old self.new recent.old.bits recent.new.bits }
        ensures whole { IsWhole self.new recent.new.bits }
        ensures none { IfNone result (Ends self.new recent.new.bits) }
        ensures some { IfSome result (Finds self.new recent.new.bits) }
    {
        while recent.count() >= 32 {
            match self.ahead(recent) {
                Ahead::Nothing(count) => self.pass(recent, count),
                Ahead::TooFew => return None,
                Ahead::Place(found) => return Some(found),
            }
        }
        None
    }

    /// Takes the place that was found, whose codeblock is sound or not. Returns whether it is a place: always but for
    /// one inside of a codeblock, which is one where its own is sound. Without columns there is none inside, and it
    /// does not matter which are sound.
    pub fn take(&mut self, recent: &mut RecentBits, found: Found, sound: bool) -> bool
        requires whole { IsWhole self.old recent.old.bits }
        requires found { Finds self.old recent.old.bits found }
        ensures size { recent.new.size ≡ recent.old.size }
        ensures bits { recent.new.bits ≡ drop 1 recent.old.bits }
        ensures whole { IsWhole self.new recent.new.bits }
        ensures rules { self.new.rules ≡ self.old.rules }
        ensures columns { self.new.columns ≡ self.old.columns }
        ensures passed { self.old.passed + length recent.old.bits < bits_bound
            → self.new.passed ≡ self.old.passed + 1 }
        ensures outside { is_inside self.old.passed self.old.last ≡ false → result ≡ true }
        ensures inside { is_inside self.old.passed self.old.last ≡ true → result ≡ sound }
        ensures taken { IsTrue result → (says : Soundness) (more : List Bool)
            → self.old.passed + length recent.old.bits < bits_bound → Tells self.old says found sound
            → places_left self.old says (recent.old.bits ++ more)
            ≡ found ∷ places_left self.new says (recent.new.bits ++ more) }
        ensures left { result ≡ false → (says : Soundness) (more : List Bool)
            → self.old.passed + length recent.old.bits < bits_bound → Tells self.old says found sound
            → places_left self.old says (recent.old.bits ++ more)
            ≡ places_left self.new says (recent.new.bits ++ more) }
    {
        if self.is_inside() && !sound {
            self.pass(recent, 1);
            return false;
        }
        self.last = Some(Previous {
            left: self.unit(),
            before: self.before_next(found),
            sound,
        });
        self.pass(recent, 1);
        true
    }

    // What will stand right behind the codeblock of a place at the next bit.
    fn before_next(&self, found: Found) -> Before
        requires { found.bridged ≡ true
            → IfSome (ends_at self.now.passed self.now.last) (λ b. b.bridged < self.now.rules.fly) }
        ensures { result ≡ before_next (ends_at self.now.passed self.now.last) found }
    {
        let bridged = match self.last {
            Some(last) if last.left == 0 => last.before.bridged,
            _ => 0,
        };
        Before {
            inverted: found.inverted,
            bridged: if found.bridged { bridged + 1 } else { 0 },
        }
    }

    // The bits of a marker and a codeblock.
    fn unit(&self) -> usize
        ensures value { result ≡ marker_size + self.now.rules.block_bits }
        ensures few { result < 2 ^ 33 }
    {
        32 + self.block_bits as usize
    }

    // The bits that settle a place that is searched for.
    fn settling(&self) -> usize
        ensures { result ≡ settled_by self.now.rules.verify self.now.rules.block_bits }
    {
        if self.verify == 0 {
            self.unit()
        } else {
            self.verify as usize * self.unit() + 32
        }
    }

    /// Whether the next bit is part of the codeblock of the place before it, or of its marker.
    pub fn is_inside(&self) -> bool
        ensures { result ≡ is_inside self.now.passed self.now.last }
    {
        match self.last {
            Some(last) => last.left > 0,
            None => false,
        }
    }

    // Passes bits.
    fn pass(&mut self, recent: &mut RecentBits, count: usize)
        requires { count ≤ length recent.old.bits }
        ensures bits { recent.new ≡ record recent.old { bits = drop count recent.old.bits } }
        ensures rules { self.new.rules ≡ self.old.rules }
        ensures columns { self.new.columns ≡ self.old.columns }
        ensures passed { self.old.passed + length recent.old.bits < bits_bound
            → (self.new.passed ≡ self.old.passed + count) × (self.new.last ≡ kept_at self.new.passed self.old.last) }
        ensures whole { IsWhole self.old recent.old.bits → IsWhole self.new recent.new.bits }
    {
        recent.pass(count);
        self.passed = self.passed.wrapping_add(count as u64);
        self.last = match self.last {
            Some(last) if count <= last.left => Some(Previous {
                left: last.left - count,
                ..last
            }),
            _ => None,
        };
    }

    // What stands at the next bits.
    fn ahead(&self, recent: &RecentBits) -> Ahead
        requires whole { IsWhole self.now recent.now.bits }
        requires some { marker_size ≤ length recent.now.bits }
        ensures { Stands self.now recent.now.bits result }
    {
        match self.last {
            Some(last) if last.left > 0 => self.ahead_inside(recent, last),
            Some(last) => self.ahead_behind(recent, last),
            None => self.ahead_outside(recent),
        }
    }

    // Inside the codeblock of the place before.
    fn ahead_inside(&self, recent: &RecentBits, last: Previous) -> Ahead
        requires fits { Fits self.now.rules self.now.columns }
        requires last { self.now.last ≡ Some (last_of self.now.passed last) }
        requires inside { 0 < last.left }
        requires whole { last.left ≤ length recent.now.bits }
        requires some { marker_size ≤ length recent.now.bits }
        ensures { Stands self.now recent.now.bits result }
    {
        let shut = self.shut(recent, last);
        if shut > 0 {
            return Ahead::Nothing(shut);
        }
        let far = self.first_near(recent, last.left.min(recent.count() - 31));
        if far > 0 {
            return Ahead::Nothing(far);
        }
        if recent.count() < self.unit() {
            return Ahead::TooFew;
        }
        match self.polarity(recent, 0) {
            Some(inverted) => Ahead::Place(self.matched(recent, inverted)),
            None => Ahead::Nothing(1),
        }
    }

    // How many of the next bits inside a codeblock are no place, whatever stands there: all of one in which nothing is
    // looked for, all but the last symbols of a sound one, and these too where a marker stands behind them.
    fn shut(&self, recent: &RecentBits, last: Previous) -> usize
        requires last { self.now.last ≡ Some (last_of self.now.passed last) }
        requires inside { 0 < last.left }
        requires whole { last.left ≤ length recent.now.bits }
        ensures few { result ≤ last.left }
        ensures none { NoneIn self.now result recent.now.bits }
        ensures open { result ≡ 0 → marker_size + self.now.rules.block_bits ≤ length recent.now.bits
            → IsOpen self.now recent.now.bits }
    {
        match self.columns {
            None => last.left,
            Some(columns) => {
                let reach = (columns.stride * columns.strength) as usize;
                if !last.sound {
                    return 0;
                }
                if last.left > reach {
                    return last.left - reach;
                }
                if recent.count() < last.left + 32 {
                    return 0;
                }
                match self.polarity(recent, last.left) {
                    Some(_) => last.left,
                    None => 0,
                }
            }
        }
    }

    // Right behind the codeblock of the place before.
    fn ahead_behind(&self, recent: &RecentBits, last: Previous) -> Ahead
        requires last { self.now.last ≡ Some (last_of self.now.passed last) }
        requires behind { last.left ≡ 0 }
        requires some { marker_size ≤ length recent.now.bits }
        ensures { Stands self.now recent.now.bits result }
    {
        if recent.count() < self.unit() {
            return Ahead::TooFew;
        }
        match self.polarity(recent, 0) {
            Some(inverted) => Ahead::Place(self.matched(recent, inverted)),
            None
                if last.before.bridged < self.fly
                    && self.may_bridge(recent, last.before.inverted) => {
                Ahead::Place(Found {
                    bridged: true,
                    ..self.matched(recent, last.before.inverted)
                })
            }
            None => Ahead::Nothing(1),
        }
    }

    // Where no codeblock ends right before the next bit.
    fn ahead_outside(&self, recent: &RecentBits) -> Ahead
        requires fits { Fits self.now.rules self.now.columns }
        requires last { self.now.last ≡ None }
        requires some { marker_size ≤ length recent.now.bits }
        ensures { Stands self.now recent.now.bits result }
    {
        let far = self.first_near(recent, recent.count() - 31);
        if far > 0 {
            return Ahead::Nothing(far);
        }
        if recent.count() < self.settling() {
            return Ahead::TooFew;
        }
        match self.polarity(recent, 0) {
            Some(inverted) if self.is_verified(recent, inverted) => {
                Ahead::Place(self.matched(recent, inverted))
            }
            _ => Ahead::Nothing(1),
        }
    }

    // How many of the next bits begin no marker, of `most` ones.
    fn first_near(&self, recent: &RecentBits, most: usize) -> usize
        requires { most + marker_size ≤ length recent.now.bits + 1 }
        ensures most { result ≤ most }
        ensures far { (q : ℕ) → q < result → match_of self.now.rules (drop q recent.now.bits) ≡ None }
    {
        recent.first_near(most, self.tolerance, self.either)
    }

    // The polarity in which the 32 bits match after the first `at` ones.
    fn polarity(&self, recent: &RecentBits, at: usize) -> Option<bool>
        requires { at + marker_size ≤ length recent.now.bits }
        ensures { result ≡ match_of self.now.rules (drop at recent.now.bits) }
    {
        polarity_of(wrong_count(recent.word(at)), self.tolerance, self.either)
    }

    // The place at the first bit in this polarity.
    fn matched(&self, recent: &RecentBits, inverted: bool) -> Found
        requires { marker_size ≤ length recent.now.bits }
        ensures { result ≡ found_at self.now.passed false inverted recent.now.bits }
    {
        Found {
            place: self.passed,
            distance: distance_of(wrong_count(recent.word(0)), inverted),
            bridged: false,
            inverted,
        }
    }

    // Whether the markers match that verify the place at the first bit.
    fn is_verified(&self, recent: &RecentBits, inverted: bool) -> bool
        requires { settled_by self.now.rules.verify self.now.rules.block_bits ≤ length recent.now.bits }
        ensures { result ≡ are_verified self.now.rules inverted self.now.rules.verify recent.now.bits }
    {
        let verify = self.verify;
        let mut seen: u8 = 0;
        while seen < verify {
            seen += 1;
            match self.polarity(recent, usize::from(seen) * self.unit()) {
                Some(polarity) if polarity == inverted => {}
                _ => return false,
            }
        }
        true
    }

    // Whether the place at the first bit may be bridged in this polarity.
    fn may_bridge(&self, recent: &RecentBits, inverted: bool) -> bool
        requires { marker_size + self.now.rules.block_bits ≤ length recent.now.bits }
        ensures off { IfNone self.now.columns (result ≡ true) }
        ensures on { IfSome self.now.columns (λ c. result ≡ may_bridge self.now.rules c inverted recent.now.bits) }
    {
        match self.columns {
            None => true,
            Some(columns) => {
                distance_of(wrong_count(recent.word(0)), !inverted) > MOST_TOLERANCE
                    && self.has_no_marker(recent, columns)
            }
        }
    }

    // Whether no marker stands some symbols of each column after the first bit.
    fn has_no_marker(&self, recent: &RecentBits, columns: Columns) -> bool
        requires few { reach columns < 2 ^ 32 }
        requires room { reach columns + marker_size ≤ length recent.now.bits }
        ensures { result ≡ list_all (λ k. is_none (match_of self.now.rules (drop (columns.stride * k) recent.now.bits)))
            (range_with_len 1 columns.strength) }
    {
        let mut seen: u32 = 0;
        while seen < columns.strength {
            seen += 1;
            match self.polarity(recent, (columns.stride * seen) as usize) {
                Some(_) => return false,
                None => {}
            }
        }
        true
    }
}
