// Writes texts to two sinks.

use crate::text_taker::TextTaker;
use tm_base::{Failed, Sink, put_all};

/// Writes texts to two sinks, until one of them fails. Then it writes nothing more.
pub struct Writer<'a, 'b, O, N> {
    pub out: &'a mut O,
    pub notes: &'b mut N,
    /// A sink failed.
    pub has_failed: bool,
}

impl<'a, 'b, O: Sink, N: Sink> TextTaker for Writer<'a, 'b, O, N> {
    ghost use Rattle.tm_driver.specs.Writing.{Writes};

    ghost took = { Writes O.Sink N.Sink };

    fn out(&mut self, text: &[u8]) {
        if self.has_failed || text.is_empty() {
            return;
        }
        match put_all(self.out, text) {
            Ok(()) => {}
            Err(Failed) => self.has_failed = true,
        }
    }

    fn note(&mut self, text: &[u8]) {
        if self.has_failed || text.is_empty() {
            return;
        }
        match put_all(self.notes, text) {
            Ok(()) => {}
            Err(Failed) => self.has_failed = true,
        }
    }
}
