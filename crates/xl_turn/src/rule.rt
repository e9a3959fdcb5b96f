// The rule that the lock keeps between any two steps, and what each step tells.
use crate::view::{Chronicle, View};
use atomic_table::{Join, Play, Split, TableRule};
use std::marker::PhantomData;
use std::snapshot::Snapshot;

/// The words are how many tickets were drawn, which ticket has the turn, and how many entries were made. The one slot
/// has the value.
pub struct Turn<T> {
    of: PhantomData<T>,
}

impl<T: Chronicle> TableRule<Option<T>, View<T::Entry>, Snapshot<T>> for Turn<T> {
    ghost use Rattle.xl_turn.specs.Turns.{opening_view, Kept};

    ghost holds = { λ key. Kept T.entries T.closes (T.entries key.value) };

    ghost first = { λ key. opening_view (T.entries key.value) };
}

/// A seat draws a ticket.
pub struct Draw;

impl<T: Chronicle> Play<Option<T>, View<T::Entry>> for Draw {
    ghost use Rattle.xl_turn.specs.Steps.{Draws};

    ghost then = { Draws };
}

/// A seat looks which ticket has the turn, and takes the slot where it is its own.
pub struct Inspect;

impl<T: Chronicle> Play<Option<T>, View<T::Entry>> for Inspect {
    ghost use Rattle.xl_turn.specs.Steps.{Looks};

    ghost then = { Looks T.entries T.closes };
}

/// A seat counts the entry that it made.
pub struct Count;

impl<T: Chronicle> Play<Option<T>, View<T::Entry>> for Count {
    ghost use Rattle.xl_turn.specs.Steps.{Counts};

    ghost then = { Counts T.entries };
}

/// A seat passes the turn on, and gives the slot back.
pub struct Pass;

impl<T: Chronicle> Play<Option<T>, View<T::Entry>> for Pass {
    ghost use Rattle.xl_turn.specs.Steps.{Passes};

    ghost then = { Passes };
}

/// A seat compares the front of a seat that it took in with its own.
pub struct Compare;

impl<T: Chronicle> Play<Option<T>, View<T::Entry>> for Compare {
    ghost use Rattle.xl_turn.specs.Steps.{Compares};

    ghost then = { Compares };
}

/// How a seat is split in two, and how two seats are joined.
pub struct Halves;

impl<E> Split<View<E>> for Halves {
    ghost use Rattle.xl_turn.specs.Turns.{lighter, newcomer};

    ghost left = { lighter };

    ghost right = { λ v. newcomer 1 v.start v.front };
}

impl<E> Join<View<E>> for Halves {
    ghost use Rattle.std.specs.Prelude.{[]};
    ghost use Rattle.xl_turn.specs.Turns.{both, newcomer};

    ghost both = { both };

    ghost spent = { newcomer 0 0 [] };
}
