// The steps of a solution, each a multiplication of the field.
ghost use Rattle.std.specs.Prelude.{◌≡◌, ◌<◌, ◌+◌, ℕ};
ghost use Rattle.tm_gf256.specs.Field.{times};

use std::marker::Model;
use std::sync::ledger::{Blank, Book, Ledger, Share};
use tm_gf256::Gf;

/// How many steps were taken: each is a multiplication of the field. It takes no bytes and costs no
/// time.
#[derive(Drop)]
pub struct Steps<L: Ledger> {
    book: Book<L>,
    share: Share<L>,
}

impl<L: Ledger> Model for Steps<L> {
    ghost Value = { ℕ };

    ghost view = { λ s. s.book.total };

    ghost invariant = { λ s. 0 < s.share.parts };
}

impl<L: Ledger> Steps<L> {
    /// A counter at 0, of the ledger that the blank becomes.
    pub fn open(blank: Blank) -> Steps<L>
        requires name { blank.name ≡ L.name }
        requires parts { blank.parts ≡ L.parts }
        requires share { 0 < blank.parts }
        ensures { result ≡ 0 }
    {
        let (book, share) = blank.open::<L>();
        Steps { book, share }
    }

    /// The product of two elements, which is one step.
    pub fn product(&mut self, a: Gf, b: Gf) -> Gf
        ensures value { result.0 ≡ times a.0 b.0 }
        ensures counted { self.new ≡ self.old + 1 }
    {
        self.book.add(&mut self.share, 1);
        a.mul(b)
    }
}
