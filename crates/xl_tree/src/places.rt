ghost use Rattle.std.specs.Prelude.{◌≡◌, ◌≤◌};
ghost use Rattle.spec_document.specs.Forest.{size};
ghost use Rattle.spec_document.specs.Holes.{from_place};
ghost use Rattle.xl_tree.specs.Places.{end_at};
ghost use Rattle.spec_document.specs.declared.TheConstants.{MAX_NODES};

use crate::stacks::{Split, Stack};

/// The siblings from a place on, counted from the topmost.
pub fn from_place<N: Drop>(stack: Stack<'_, N>, place: u32) -> Stack<'_, N>
    ensures { result ≡ from_place place stack.entry }
{
    let mut rest = stack;
    for _passed in 0..place {
        rest = match rest.split() {
            Split::Empty => return Stack::empty(),
            Split::Leaf { under, .. } => under,
            Split::Group { under, .. } => under,
        };
    }
    rest
}

/// How many nodes come before what is put last in the group that a path names.
pub fn end_at<N: Drop>(stack: Stack<'_, N>, path: &[u32]) -> Option<u32>
    requires { size stack ≤ MAX_NODES }
    ensures { result ≡ end_at path.now stack.entry }
{
    let mut before = 0;
    let mut rest = stack;
    for place in path {
        let all = rest.len();
        let at = from_place(rest, *place);
        let left = at.len();
        rest = match at.split() {
            Split::Empty => return None,
            Split::Leaf { .. } => return None,
            Split::Group { children, .. } => children,
        };
        before += all - left + 1;
    }
    Some(before + rest.len())
}
