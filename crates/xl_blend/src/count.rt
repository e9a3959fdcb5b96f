//! Counting the pixels that are laid over others.
ghost use Rattle.std.specs.Prelude.{◌≡◌, ◌+◌, ◌<◌};

use std::marker::Model;
use std::sync::ledger::{Blank, Book, Ledger, Share};

/// How many pixels were laid over others. It takes no bytes, and counting has no code. Only `over` and `over_row` add
/// to it: one step is one pixel laid over another.
///
/// A caller that counts nothing passes a `Blank::new(1)` to a function that is generic in `L`,
/// called with `Brand` for `L`, and makes the counter there by `new`.
#[derive(Drop)]
pub struct Steps<L: Ledger> {
    book: Book<L>,
    share: Share<L>,
}

impl<L: Ledger> Model for Steps<L> {
    ghost use Rattle.std.specs.Prelude.{ℕ, ◌<◌};

    ghost Value = { ℕ };

    ghost view = { λ s. s.book.total };

    ghost invariant = { λ s. 0 < s.share.parts };
}

impl<L: Ledger> Steps<L> {
    /// A counter of its own ledger, at 0.
    pub fn new(blank: Blank) -> Steps<L>
        requires name { blank.name ≡ L.name }
        requires parts { blank.parts ≡ L.parts }
        requires some { 0 < blank.parts }
        ensures { result ≡ 0 }
    {
        let (book, share) = blank.open::<L>();
        Steps { book, share }
    }

    /// That many pixels more.
    #[inline]
    pub(crate) fn add(&mut self, pixels: u64)
        ensures { self.new ≡ self.old + pixels }
    {
        self.book.add(&mut self.share, pixels);
    }
}
