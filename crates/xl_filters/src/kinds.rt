ghost use Rattle.std.specs.Prelude.{◌≡◌};
ghost use Rattle.spec_filters.specs.Filters.{table_of, after_use};
ghost use Rattle.spec_filters.specs.declared.FilterKind.TheVariants as kinds;

use crate::filter::PointFilter;
use crate::table::Table;
use spec_filters::{FilterKind, FilterState};
use std::marker::Model;

// The state of a filter that was never used.
fn unused_state(kind: FilterKind, amount: u8) -> FilterState
    ensures { result ≡ record { kind = kind; amount = amount; uses = 0 } }
{
    FilterState {
        kind,
        amount,
        uses: 0,
    }
}

// The table of the state as it was, which is then one use more.
fn next_table(state: &mut FilterState) -> Table
    ensures table { result ≡ table_of state.old }
    ensures after { state.new ≡ after_use state.old }
{
    let table = Table::of(*state);
    state.uses = state.uses.saturating_add(1);
    table
}

/// Makes of each byte 255 less the byte.
#[derive(Drop)]
pub struct Invert {
    state: FilterState,
}

impl Model for Invert {
    ghost use Rattle.spec_filters.specs.declared.FilterState.{FilterState};

    ghost Value = { FilterState };

    ghost view = { λ it. it.state };
}

impl Invert {
    /// The filter, never used. The amount has no effect.
    pub fn new(amount: u8) -> Self
        ensures { result ≡ record { kind = kinds.Invert; amount = amount; uses = 0 } }
    {
        Invert {
            state: unused_state(FilterKind::Invert, amount),
        }
    }
}

impl PointFilter for Invert {
    ghost state = { λ it. it };

    fn table(&mut self) -> Table {
        next_table(&mut self.state)
    }
}

/// Makes a byte 255 where it is at least the amount, and 0 where it is less.
#[derive(Drop)]
pub struct Threshold {
    state: FilterState,
}

impl Model for Threshold {
    ghost use Rattle.spec_filters.specs.declared.FilterState.{FilterState};

    ghost Value = { FilterState };

    ghost view = { λ it. it.state };
}

impl Threshold {
    /// The filter, never used. Bytes from the amount on become 255.
    pub fn new(amount: u8) -> Self
        ensures { result ≡ record { kind = kinds.Threshold; amount = amount; uses = 0 } }
    {
        Threshold {
            state: unused_state(FilterKind::Threshold, amount),
        }
    }
}

impl PointFilter for Threshold {
    ghost state = { λ it. it };

    fn table(&mut self) -> Table {
        next_table(&mut self.state)
    }
}

/// Makes of each byte the nearest of evenly spaced levels from 0 to 255, as many as the amount says, two at least.
#[derive(Drop)]
pub struct Posterize {
    state: FilterState,
}

impl Model for Posterize {
    ghost use Rattle.spec_filters.specs.declared.FilterState.{FilterState};

    ghost Value = { FilterState };

    ghost view = { λ it. it.state };
}

impl Posterize {
    /// The filter, never used. The amount is how many levels there are.
    pub fn new(amount: u8) -> Self
        ensures { result ≡ record { kind = kinds.Posterize; amount = amount; uses = 0 } }
    {
        Posterize {
            state: unused_state(FilterKind::Posterize, amount),
        }
    }
}

impl PointFilter for Posterize {
    ghost state = { λ it. it };

    fn table(&mut self) -> Table {
        next_table(&mut self.state)
    }
}

/// Leaves of each byte so many parts of 255: 255 less the amount for each earlier use, and none once that is used up.
#[derive(Drop)]
pub struct Fade {
    state: FilterState,
}

impl Model for Fade {
    ghost use Rattle.spec_filters.specs.declared.FilterState.{FilterState};

    ghost Value = { FilterState };

    ghost view = { λ it. it.state };
}

impl Fade {
    /// The filter, never used. The amount is what a byte loses for each use, in parts of 255.
    pub fn new(amount: u8) -> Self
        ensures { result ≡ record { kind = kinds.Fade; amount = amount; uses = 0 } }
    {
        Fade {
            state: unused_state(FilterKind::Fade, amount),
        }
    }
}

impl PointFilter for Fade {
    ghost state = { λ it. it };

    fn table(&mut self) -> Table {
        next_table(&mut self.state)
    }
}
