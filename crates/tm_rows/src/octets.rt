// Octets as they are written in a row.
use anyhow::{Context, Result, bail};
use std::alloc::Global;
use std::collections::BTreeMap;

/// Octets that have a name.
#[derive(Drop)]
pub struct Values {
    named: BTreeMap<String, Vec<u8>>,
}

impl Values {
    pub fn new(alloc: Global) -> Values {
        Values {
            named: BTreeMap::new(alloc),
        }
    }

    /// Appends what a text stands for to the value of this name, which is empty at first.
    pub fn define(&mut self, alloc: Global, name: &str, text: &str) -> Result<()> {
        let mut octets = match self.named.get(name) {
            Some(octets) => octets.clone()?,
            None => Vec::new(alloc),
        };
        self.append(alloc, text, &mut octets)?;
        self.named.insert(name.to_string(alloc)?, octets)?;
        Ok(())
    }

    /// Appends what a text stands for: a line in `".."`, a part of one in `'..'`, or else words for octets.
    pub fn append(&self, alloc: Global, text: &str, octets: &mut Vec<u8>) -> Result<()> {
        if let Some(rest) = text.strip_prefix('"') {
            let line = rest.strip_suffix('"').context("the line has no end")?;
            octets.extend_from_slice(line.as_bytes())?;
            octets.push(b'\n')?;
        } else if let Some(rest) = text.strip_prefix('\'') {
            let part = rest.strip_suffix('\'').context("the part has no end")?;
            octets.extend_from_slice(part.as_bytes())?;
        } else {
            for word in text.split_whitespace() {
                self.append_word(alloc, word, octets)?;
            }
        }
        Ok(())
    }

    // A word is what comes before a `*`, so often as the number after it says.
    fn append_word(&self, alloc: Global, word: &str, octets: &mut Vec<u8>) -> Result<()> {
        let (word, count) = match word.split_once('*') {
            Some((word, count)) => (word, count.parse::<u32>()?),
            None => (word, 1),
        };
        let piece = self.piece(alloc, word)?;
        for _ in 0..count {
            octets.extend_from_slice(piece.as_slice())?;
        }
        Ok(())
    }

    // A value by its name, the symbols of bits in either soft form, or octets.
    fn piece(&self, alloc: Global, word: &str) -> Result<Vec<u8>> {
        if let Some(name) = word.strip_prefix('$') {
            match self.named.get(name) {
                Some(octets) => Ok(octets.clone()?),
                None => bail!("no value has this name"),
            }
        } else if let Some(digits) = word.strip_prefix("u8:") {
            symbols(alloc, digits, 0x00)
        } else if let Some(digits) = word.strip_prefix("i8:") {
            symbols(alloc, digits, 0x80)
        } else {
            Ok(hex::decode(alloc, word)?)
        }
    }
}

// The symbols of bits, eight an octet: `low` for a 0, and its complement for a 1.
fn symbols(alloc: Global, digits: &str, low: u8) -> Result<Vec<u8>> {
    let packed = hex::decode(alloc, digits)?;
    let mut symbols = Vec::new(alloc);
    for octet in packed.as_slice() {
        for mask in [0x80, 0x40, 0x20, 0x10, 8, 4, 2, 1] {
            symbols.push(if *octet & mask == 0 { low } else { !low })?;
        }
    }
    Ok(symbols)
}
