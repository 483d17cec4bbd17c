// What the words ask for.
ghost use Rattle.std.specs.Prelude.{◌≡◌, [], IfOk};

use crate::commands::JobKind;
use std::alloc::{AllocError, Global};
use std::marker::Model;
use tm_config::Raw;

/// The bytes of a word that is to be hexadecimal. They are not tested yet.
#[derive(Debug, Drop)]
pub struct HexText {
    bytes: Vec<u8>,
}

impl Model for HexText {
    ghost use Rattle.std.specs.Prelude.{List, ℕ};

    ghost Value = { List ℕ };

    ghost view = { λ text. text.bytes.items };
}

impl HexText {
    /// No bytes. It takes no memory.
    pub fn empty(alloc: Global) -> HexText
        ensures { result ≡ [] }
    {
        HexText {
            bytes: Vec::new(alloc),
        }
    }

    /// The bytes of a text. It fails only when out of memory.
    pub fn new(alloc: Global, text: &str) -> Result<HexText, AllocError>
        ensures { IfOk result (λ hex. hex ≡ text.now) }
    {
        Ok(HexText {
            bytes: Vec::from_slice(alloc, text.as_bytes())?,
        })
    }

    /// The bytes.
    pub fn as_bytes(&self) -> &[u8]
        ensures { result.now ≡ self.now }
    {
        &self.bytes
    }
}

/// A command with the values of its options.
#[derive(Debug, Drop)]
pub struct Job {
    pub kind: JobKind,
    /// The values of the options that each command has.
    pub raw: Raw,
    /// The word of a command that has one, and else empty.
    pub hex: HexText,
    /// The seed of generated frames, 1 where the command generates none.
    pub seed: u64,
    /// How many frames are generated, 100 where the command generates none.
    pub frames: u64,
    /// How many symbols of each codeword are changed, 0 where the command changes none.
    pub hits: u64,
}
