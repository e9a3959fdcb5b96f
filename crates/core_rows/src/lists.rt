//! Lists of stacks and rectangles of theirs.

use xl_trial::{NodeId, Rect};

pub fn entry(stack: u32, x: i32, y: i32, w: u32, h: u32) -> (NodeId, Rect) {
    (NodeId(stack), Rect { x, y, w, h })
}

fn is_entry(entry: &(NodeId, Rect), other: &(NodeId, Rect)) -> bool {
    let (stack, rect) = entry;
    let (other_stack, other_rect) = other;
    stack.0 == other_stack.0
        && (rect.x == other_rect.x && rect.y == other_rect.y)
        && (rect.w == other_rect.w && rect.h == other_rect.h)
}

/// Whether a list has just these entries.
pub fn is_list(list: &[(NodeId, Rect)], entries: &[(NodeId, Rect)]) -> bool {
    for (at, one) in list.iter().enumerate() {
        match entries.get(at) {
            None => return false,
            Some(other) => {
                if !is_entry(one, other) {
                    return false;
                }
            }
        }
    }
    list.len() == entries.len()
}
