//! When a session makes its calls that has more of them at hand.
use crate::seat::Studio;
use std::sync::Wait;
use xl_calls::Call;
use xl_ports::Shelf;
use xl_shifts::Shift;

impl<D: Shelf> Studio<D> {
    /// Waits for the shift of a session that is about to make a call, and has more of them at hand. Before a call that
    /// asks for a tile it ends the shift, since the tile may have to be composed, and its digest made.
    pub fn come<W: Wait>(&self, rt: &W, call: &Call, shift: &mut Shift) {
        match call {
            Call::Tile(_, _) | Call::Peek(_, _) => self.shifts.go(shift),
            Call::Edit(_) | Call::Undo(_) | Call::Redo | Call::Top => self.shifts.come(rt, shift),
        }
    }

    /// Ends the shift of a session, if it has one: before a save, and when it has no more calls at hand.
    pub fn go(&self, shift: &mut Shift) {
        self.shifts.go(shift);
    }
}
