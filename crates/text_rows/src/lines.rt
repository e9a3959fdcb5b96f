//! What the lines of a script ask.
use xl_script::{Call, Line};

/// The keyword of a line, and the first number that it gives, if it gives one. An edit and a group have the same
/// keyword.
pub fn keyword_and_number(line: &Line) -> (&'static str, Option<u32>) {
    match line {
        Line::Call(Call::Edit(_)) => ("edit", None),
        Line::Call(Call::Undo(group)) => ("undo", *group),
        Line::Call(Call::Redo) => ("redo", None),
        Line::Call(Call::Tile(stack, _)) => ("tile", Some(stack.0)),
        Line::Call(Call::Peek(stack, _)) => ("peek", Some(stack.0)),
        Line::Call(Call::Top) => ("top", None),
        Line::Save => ("save", None),
        Line::Forget(slot) => ("forget", Some(*slot)),
    }
}
