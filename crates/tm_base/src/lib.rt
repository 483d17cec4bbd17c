//! What stands outside the codec, and what every layer above shares: sources and sinks of octets, which count their
//! faults, with fakes in memory and adapters to std; the bits of octets; the attached sync marker; the gate that
//! workers pass. It stands on nothing. The words for what was written, given and handed over are in specs/.
#![tactic(auto)]

mod attached;
mod bits;
mod gate;
mod held;
mod memory;
mod outside;
mod soft_form;
mod standard;
mod sure;

pub use attached::{MARKER, marker};
pub use bits::BitReader;
pub use gate::{Gate, OpenGate};
pub use held::{Held, zeros};
pub use memory::{MemSink, MemSource};
pub use outside::{Failed, NoMemory, Sink, Source, put_all};
pub use soft_form::{to_unsigned, unsigned};
pub use standard::{StdSink, StdSource};
pub use sure::{SureSink, SureSource};
