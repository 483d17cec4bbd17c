// The results of words, each in a slot of its own.
ghost use Rattle.std.specs.Prelude.{[], ◌∷◌, IfOk};
ghost use Rattle.boxcar.specs.Table.{Tagged};
ghost use Rattle.tm_workers.specs.Working.{Keeps, Leaves};

use crate::split::decode_one;
use boxcar::slot::{OnceSlot, SlotRule};
use boxcar::tag::{Names, Tag};
use std::alloc::{AllocError, Global};
use std::marker::Brand;
use tm_base::Gate;

/// What a word became.
#[derive(Drop)]
pub struct Decoded<W> {
    word: W,
}

// What may stand in the slot of each number is known only at run time, so a call picks it.
impl<W> SlotRule<Decoded<W>> for Brand {
    ghost holds = { λ tag result. Unit {0} };
}

struct Numbered;

impl Names<usize> for Numbered {
    ghost numbers = { λ number. number ∷ [] };
}

// Empty slots for n results.
pub fn make_slots<W: Copy, K: SlotRule<Decoded<W>>>(
    alloc: Global,
    n: usize,
) -> Result<Vec<OnceSlot<Decoded<W>, K>>, AllocError>
    ensures { IfOk result (λ slots. Tagged [] 0 n slots.items) }
{
    let mut slots = Vec::with_capacity(alloc, n)?;
    let mut number = 0;
    while number < n {
        slots.push_reserved(OnceSlot::new(&Tag::of::<usize, Numbered>(&number)));
        number += 1;
    }
    Ok(slots)
}

// A word's result, which stands in its slot once the word is decoded: whoever asks first decodes it.
pub fn result_of<G: Gate, W: Copy, F: Fn(&mut W), K: SlotRule<Decoded<W>>>(
    gate: &G,
    decode: &F,
    number: u32,
    word: &W,
    slot: &OnceSlot<Decoded<W>, K>,
) -> W
    requires calls { F.IsAlwaysCallable decode.now }
    requires slot { Keeps (Leaves F.Fn decode.now word.now) (K.holds slot.now.tag) }
    ensures { Leaves F.Fn decode.now word.now result }
{
    if let Some(decoded) = slot.get() {
        return decoded.word;
    }
    let mut word = *word;
    decode_one(gate, decode, number, &mut word);
    let _ = slot.set(Decoded { word });
    word
}
