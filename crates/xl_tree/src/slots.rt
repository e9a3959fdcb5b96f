ghost use Rattle.std.specs.Prelude.{◌≡◌, ◌-◌, ◌≤◌, nat_eq, IfOk};
ghost use Rattle.std.specs.List.{IsDistinct};
ghost use Rattle.spec_document.specs.Forest.{count, ids, size};
ghost use Rattle.spec_document.specs.Holes.{from_place};
ghost use Rattle.xl_tree.specs.Flat.{forest_of};
ghost use Rattle.xl_tree.specs.Kept.{AreSiblings};
ghost use Rattle.xl_tree.specs.Refusals.{no_stack, past, put_refusal, refusal_of};
ghost use Rattle.xl_tree.specs.Slots.{IsSlot, IsStackAt};
ghost use Rattle.spec_document.specs.declared.TheConstants.{MAX_NODES};

use crate::entries::{NodeEntry, deeper, from_id};
use crate::naming::NodeId;
use crate::refused::TreeRefused;
use crate::stacks::{Split, Stack};

/// Where something may be put among the entries of a forest: before the entry at `at`, at this level.
#[derive(Clone, Copy)]
pub struct EntrySlot {
    pub at: usize,
    pub level: u32,
}

/// The slot at a place of a stack. Errors: `NoNode`, `NotGroup`, `BadPlace`.
pub fn slot_in<N: Drop>(
    entries: &[NodeEntry<N>],
    stack: NodeId,
    place: u32,
) -> Result<EntrySlot, TreeRefused>
    requires siblings { AreSiblings 0 entries.now }
    requires distinct { IsDistinct nat_eq (ids (forest_of entries.now)) }
    ensures refused { refusal_of result ≡ put_refusal stack.0 place (forest_of entries.now) }
    ensures slot { IfOk result (λ s. IsSlot stack.0 place (forest_of entries.now) s.at s.level) }
{
    let (first, nodes) = stack_in(entries, stack)?;
    let before = nodes_before(nodes, place)?;
    Ok(EntrySlot {
        at: first.at + before as usize,
        level: first.level,
    })
}

/// The nodes of a stack, and the slot before the first of them. Errors: `NoNode`, `NotGroup`.
fn stack_in<N: Drop>(
    entries: &[NodeEntry<N>],
    stack: NodeId,
) -> Result<(EntrySlot, Stack<'_, N>), TreeRefused>
    requires siblings { AreSiblings 0 entries.now }
    requires distinct { IsDistinct nat_eq (ids (forest_of entries.now)) }
    ensures refused { refusal_of result ≡ no_stack stack.0 (forest_of entries.now) }
    ensures stack { IfOk result (λ p.
        IsStackAt stack.0 (forest_of entries.now) p.1 p.0.at p.0.level) }
{
    if stack.0 == 0 {
        let first = EntrySlot { at: 0, level: 0 };
        return Ok((first, Stack::of(entries, 0)));
    }
    match from_id(entries, stack.0).split_first() {
        None => Err(TreeRefused::NoNode(stack.0)),
        Some((entry, rest)) => {
            if !entry.group {
                return Err(TreeRefused::NotGroup(stack.0));
            }
            let level = entry.level + 1;
            let inside = deeper(rest, entry.level);
            let at = entries.len() - rest.len();
            Ok((EntrySlot { at, level }, Stack::of(&rest[..inside], level)))
        }
    }
}

/// How many nodes of a stack, at any depth, come before a place. Errors: `BadPlace`.
fn nodes_before<N: Drop>(stack: Stack<'_, N>, place: u32) -> Result<u32, TreeRefused>
    ensures refused { refusal_of result ≡ past place (count stack.entry) }
    ensures before { IfOk result (λ n. n ≡ size stack.entry - size (from_place place stack.entry)) }
    ensures few { IfOk result (λ n. n ≤ MAX_NODES) }
{
    let all = stack.len();
    let mut rest = stack;
    for passed in 0..place {
        rest = match rest.split() {
            Split::Empty => return Err(TreeRefused::BadPlace(passed)),
            Split::Leaf { under, .. } => under,
            Split::Group { under, .. } => under,
        };
    }
    Ok(all - rest.len())
}
