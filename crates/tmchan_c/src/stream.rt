// What stands behind a handle.
use tm_buffers::{BufferDecoder, BufferReceiver};
use tm_channel::Sender;

/// A stream of one of the kinds that the library has.
#[derive(Drop)]
pub enum Stream {
    Sender(Sender),
    Decoder(BufferDecoder),
    Receiver(BufferReceiver),
}
