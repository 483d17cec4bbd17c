//! Records of received words with erased places: octets that are taken in pieces, gathered into batches, and decoded a
//! batch at a time by several workers (CCSDS 131.0-B, Reed-Solomon Coding). A record has an octet for each symbol of a
//! word, and after them an octet for each symbol that says whether it is erased.
//!
//! Over these stand the two commands of the outer code: `erased`, which writes a line for each record of a source, and
//! `word`, which writes the line of one word. What each writes is its meaning, `erased_meaning` of specs/Erased and
//! `word_meaning` of specs/Word.
#![tactic(auto)]

mod coding;
mod erased_command;
mod hexadecimal;
mod laws;
mod record_decoding;
mod records;
mod word_command;

pub use coding::Coding;
pub use erased_command::erased;
pub use laws::nearest_records_law;
pub use records::{BATCH, Records};
pub use tm_rs::ErasedAnswer;
pub use tm_workers::{Gate, OpenGate};
pub use word_command::{WordRefusal, test_word, word};
