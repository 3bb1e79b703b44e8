//! A counter of steps that costs nothing.

ghost use Rattle.std.specs.Prelude.{◌≡◌, ℕ, ◌+◌, ◌<◌};

use std::marker::Model;
use std::sync::ledger::{Blank, Book, Ledger, Share};

/// How many steps were taken. It takes no bytes, and only `tick` changes it.
#[derive(Drop)]
pub struct Steps<L: Ledger> {
    book: Book<L>,
    share: Share<L>,
}

impl<L: Ledger> Model for Steps<L> {
    ghost use Rattle.std.specs.Prelude.{ℕ, ◌<◌};

    ghost Value = { ℕ };

    ghost view = { λ s. s.book.total };

    ghost invariant = { λ s. 0 < s.share.parts };
}

impl<L: Ledger> Steps<L> {
    /// No step yet. The counter has a ledger of its own, as `Blank::new(1)`.
    pub fn new(blank: Blank) -> Steps<L>
        requires name { blank.name ≡ L.name }
        requires parts { blank.parts ≡ L.parts }
        requires some { 0 < blank.parts }
        ensures { result ≡ 0 }
    {
        let (book, share) = blank.open::<L>();
        Steps { book, share }
    }

    /// One step.
    pub fn tick(&mut self)
        ensures { self.new ≡ self.old + 1 }
    {
        self.book.add(&mut self.share, 1);
    }
}

#[cfg(test)]
mod tests {
    use super::*;
    use std::marker::Brand;

    fn tick_twice<L: Ledger>(steps: &mut Steps<L>)
        ensures { steps.new ≡ steps.old + 2 }
    {
        steps.tick();
        steps.tick();
    }

    fn count_two<L: Ledger>(blank: Blank)
        requires name { blank.name ≡ L.name }
        requires parts { blank.parts ≡ L.parts }
        requires some { 0 < blank.parts }
    {
        let mut steps: Steps<L> = Steps::new(blank);
        tick_twice(&mut steps);
    }

    #[test]
    fn takes_no_bytes(rt: HostRuntime) {
        count_two::<Brand>(Blank::new(1));
        assert_eq!(rt; size_of::<Steps<Brand>>(), 0);
    }
}
