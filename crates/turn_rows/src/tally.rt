//! Who took a turn, in order.
ghost use Rattle.std.specs.Prelude.{◌≡◌, [], ◌∷◌, ◌++◌, MatchBool};

use std::alloc::Global;
use xl_turn::Chronicle;

#[derive(Drop)]
pub struct Tally {
    turns: Vec<u64>,
}

impl Chronicle for Tally {
    ghost use Rattle.std.specs.Prelude.{None};

    type Entry = u64;

    ghost entries = { λ t. t.turns.items };

    ghost closes = { λ _. None };

    fn len(&self) -> u64 {
        self.turns.len() as u64
    }
}

impl Tally {
    /// Notes a turn; false where memory runs out, and nothing is noted then.
    pub fn add(&mut self, who: u64) -> bool
        ensures { MatchBool result (self.new.turns.items ≡ self.old.turns.items
            ++ who ∷ []) (self.new.turns.items ≡ self.old.turns.items) }
    {
        self.turns.push(who).is_ok()
    }

    pub fn new(alloc: Global) -> Tally {
        Tally {
            turns: Vec::new(alloc),
        }
    }

    pub fn turns(&self) -> &[u64] {
        self.turns.as_slice()
    }

    /// How many turns were of this one.
    pub fn turns_of(&self, who: u64) -> usize {
        self.turns().iter().filter(|x| **x == who).count()
    }
}
