//! The streams of the codec over buffers: what comes of octets that are given in pieces is written to the start of a
//! buffer that the caller lends, and how large that has to be is said before. No call here fails but for lack of room;
//! what takes memory is opened.
#![tactic(auto)]

mod bits;
mod buffer_decoder;
mod buffer_receiver;
mod buffer_sender;
mod items;
mod room;
mod searching;
mod windows;

pub use buffer_decoder::{BufferDecoder, bits_room};
pub use buffer_receiver::{BufferReceiver, items_room};
pub use buffer_sender::{push_symbols, symbols_room};
pub use items::{Report, Written};
pub use room::windows_room;
pub use searching::{find_in_bits, find_in_octets};
pub use tm_inner::Window;
