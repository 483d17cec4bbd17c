// Octets in room that was taken before.
ghost use Rattle.std.specs.Prelude.{◌≡◌, ◌↔◌, ◌++◌, ◌+◌, ◌-◌, ◌<◌, ◌≤◌, [], ◌∷◌, true, IfOk, IsTrue, drop, length, min, take, vec_len};
ghost use Rattle.tm_base.specs.SoftForm.{from_form};

use crate::soft_form::to_unsigned;
use std::alloc::{AllocError, Global};
use std::marker::Model;

/// `count` octets. It fails only where there isn't enough memory.
pub fn zeros(alloc: Global, count: usize) -> Result<Vec<u8>, AllocError>
    ensures { IfOk result (λ v. vec_len v ≡ count) }
{
    vec![in alloc; 0u8; count]
}

/// Octets in a buffer of fixed size. It takes all its memory at `open`.
#[derive(Drop)]
pub struct Held {
    octets: Vec<u8>,
    len: usize,
}

impl Model for Held {
    ghost use Rattle.std.specs.Prelude.{◌≤◌, take, vec_len};
    ghost use Rattle.tm_base.specs.HeldOctets.{HeldOctets};

    ghost Value = { HeldOctets };

    ghost view = { λ h. record { octets = take h.len h.octets.items; room = vec_len h.octets } };

    ghost invariant = { λ h. h.len ≤ vec_len h.octets };
}

impl Held {
    /// Room for `room` octets, with none in it. It fails only where there isn't enough memory.
    pub fn open(alloc: Global, room: usize) -> Result<Held, AllocError>
        ensures { IfOk result (λ held. (held.octets ≡ []) × (held.room ≡ room)) }
    {
        let octets = vec![in alloc; 0u8; room]?;
        Ok(Held { octets, len: 0 })
    }

    /// Takes an octet, for which there is to be room.
    pub fn push(&mut self, octet: u8)
        requires { length self.old.octets < self.old.room }
        ensures octets { self.new.octets ≡ self.old.octets ++ octet ∷ [] }
        ensures room { self.new.room ≡ self.old.room }
    {
        self.octets[self.len] = octet;
        self.len += 1;
    }

    /// Takes octets, for which there is to be room.
    pub fn append(&mut self, octets: &[u8])
        requires { length self.old.octets + length octets.now ≤ self.old.room }
        ensures octets { self.new.octets ≡ self.old.octets ++ octets.now }
        ensures room { self.new.room ≡ self.old.room }
    {
        let end = self.len + octets.len();
        self.octets[self.len..end].copy_from_slice(octets);
        self.len = end;
    }

    /// Takes as many of the next octets as there is room for, at most `limit`, and answers how many.
    pub fn fill(&mut self, octets: &[u8], limit: usize) -> usize
        ensures count { result ≡ min (min (length octets.now) limit) (self.old.room - length self.old.octets) }
        ensures octets { self.new.octets ≡ self.old.octets ++ take result octets.now }
        ensures room { self.new.room ≡ self.old.room }
    {
        let first = self.len;
        let count = octets.len().min(limit).min(self.octets.len() - first);
        self.octets[first..first + count].copy_from_slice(&octets[..count]);
        self.len += count;
        count
    }

    /// Converts the octets from number `first` on, which are signed, to unsigned ones.
    pub fn to_unsigned(&mut self, first: usize)
        requires { first ≤ length self.old.octets }
        ensures octets { self.new.octets ≡ take first self.old.octets ++ from_form true (drop first self.old.octets) }
        ensures room { self.new.room ≡ self.old.room }
    {
        to_unsigned(&mut self.octets[first..self.len]);
    }

    /// Drops the first octets, as many as there are.
    pub fn drop_first(&mut self, count: usize)
        ensures octets { self.new.octets ≡ drop count self.old.octets }
        ensures room { self.new.room ≡ self.old.room }
    {
        let count = count.min(self.len);
        if count == 0 {
            return;
        }
        self.octets.as_mut_slice().copy_within(count..self.len, 0);
        self.len -= count;
    }

    /// Drops all octets.
    pub fn clear(&mut self)
        ensures octets { self.new.octets ≡ [] }
        ensures room { self.new.room ≡ self.old.room }
    {
        self.len = 0;
    }

    /// For how many more octets there is room.
    pub fn room_left(&self) -> usize
        ensures { result ≡ self.now.room - length self.now.octets }
    {
        self.octets.len() - self.len
    }

    /// Whether there is no more room.
    pub fn is_full(&self) -> bool
        ensures { IsTrue result ↔ self.now.room ≤ length self.now.octets }
    {
        self.len == self.octets.len()
    }

    /// The octets.
    pub fn as_slice(&self) -> &[u8]
        ensures octets { result.now ≡ self.now.octets }
        ensures room { length result.now ≤ self.now.room }
    {
        &self.octets[..self.len]
    }
}
