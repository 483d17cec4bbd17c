//! The inner stages: from the octets of marked codeblocks to the symbols that are sent, by the inner code of a
//! configuration (CCSDS 131.0-B, Convolutional Coding), and from soft symbols that are received to blocks of bits,
//! after their phase where it is to be found.
#![tactic(auto)]

mod code;
mod counting;
mod decoder;
mod inner_receiver;
mod inner_sender;
mod laws;
mod nearest;
mod spreading;
mod until_fault;
mod watch;
mod window;

pub use code::{held_bits, is_inverted, rate_of, shape_of};
pub use decoder::{InnerDecoder, InnerEnd};
pub use inner_receiver::{InnerReceiver, inner_all};
pub use inner_sender::{InnerSender, SendError};
pub use laws::{
    clean_inner_law, due_bits_law, handed_law, inner_law, metric_law, symbols_law, windows_law,
};
pub use watch::{NoWatch, WindowWatch, watch_due, watch_last, watch_ready};
pub use window::Window;
