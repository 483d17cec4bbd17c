// A line of text, made without memory and written at once.
ghost use Rattle.std.specs.Prelude.{◌≡◌, ◌+◌, ◌≤◌, ◌++◌, [], length, decimal, OnOk, OnErr};
ghost use Rattle.tm_driver.specs.Lines.{line_room, most_digits};
ghost use Rattle.tm_base.specs.Outside.{HasCause};
ghost use Rattle.tm_base.specs.Written.{Wrote, WrotePrefix};

use itoa::Buffer;
use std::marker::Model;
use tm_base::{Failed, Sink, put_all};

/// A line of at most 560 octets.
#[derive(Drop)]
pub struct Line {
    room: [u8; 560],
    count: usize,
}

impl Model for Line {
    ghost use Rattle.std.specs.Prelude.{ℕ, ◌≤◌, List, take};
    ghost use Rattle.tm_driver.specs.Lines.{line_room};

    ghost Value = { List ℕ };

    ghost view = { λ l. take l.count l.room };

    ghost invariant = { λ l. l.count ≤ line_room };
}

impl Line {
    /// An empty line.
    pub fn new() -> Line
        ensures { result ≡ [] }
    {
        Line {
            room: [0; 560],
            count: 0,
        }
    }

    /// Adds a text.
    pub fn text(&mut self, text: &[u8])
        requires { length self.old + length text.now ≤ line_room }
        ensures { self.new ≡ self.old ++ text.now }
    {
        let end = self.count + text.len();
        self.room[self.count..end].copy_from_slice(text);
        self.count = end;
    }

    /// Adds a number in decimal, without leading zeros.
    pub fn number(&mut self, number: u64)
        requires { length self.old + most_digits ≤ line_room }
        ensures text { self.new ≡ self.old ++ decimal number }
        ensures length { length self.new ≤ length self.old + most_digits }
    {
        // Most numbers of a report are digits.
        if number < 10 {
            self.text(&[b'0' + number as u8]);
            return;
        }
        let mut buffer = Buffer::new();
        self.text(buffer.format(number).as_bytes());
    }

    /// Its octets.
    pub fn octets(&self) -> &[u8]
        ensures { result.now ≡ self.now }
    {
        &self.room[..self.count]
    }

    /// Writes the line.
    pub fn put<O: Sink>(&self, out: &mut O) -> Result<(), Failed>
        ensures ok { OnOk result (Wrote (O.taken out.old) (O.taken out.new) self.now) }
        ensures err { OnErr result (WrotePrefix (O.taken out.old) (O.taken out.new) self.now) }
        ensures cause { HasCause (O.faults out.old) (O.faults out.new) (O.is_last out.new) result }
    {
        put_all(out, self.octets())
    }
}
