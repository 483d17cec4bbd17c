//! The channel: from transfer frames to the symbols of their channel access data units (CADUs), and from received
//! symbols or bits to what is said of each codeblock that is found in them (CCSDS 131.0-B, Reed-Solomon Coding,
//! Pseudo-Randomizer, Frame Synchronization and Convolutional Coding).
#![tactic(auto)]

mod bit_receiver;
mod column_words;
mod expected;
mod item;
mod laws;
mod origins;
mod packed;
mod pipeline;
mod receiver;
mod repair;
mod sender;
mod slot;
mod store;
mod totals;
mod until_fault;

pub use column_words::{decode_columns, decode_columns_alone};
pub use item::{Item, ItemTaker, ItemWatch, are_fixed};
pub use laws::{
    clean_law, disturbed_law, disturbed_octets_law, due_items_law, first_items_law, found_law,
    items_law, polarity_law, received_law,
};
pub use receiver::{Receiver, RecvError, receive_all};
pub use sender::{ROOM, Sender};
pub use store::waiting_bits;
pub use tm_codeblock::{basis_of, cadu};
pub use tm_config::{Config, ConfigError, Raw};
pub use tm_inner::{
    InnerEnd, InnerReceiver, InnerSender, NoWatch, SendError, Window, WindowWatch, inner_all,
};
pub use tm_rs::Answer;
pub use tm_viterbi::{Block, BlockTaker};
pub use tm_windows::{AllError, Alone, Chosen, Crew, FeedError, Threaded};
pub use tm_workers::{Gate, OpenGate};
pub use totals::Totals;
