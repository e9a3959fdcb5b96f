ghost use Rattle.std.specs.Prelude.{◌≡◌, ◌+◌, ◌-◌, ◌<◌, ◌≤◌, ◌++◌, [], drop, length, map, take, vec_len};
ghost use Rattle.std.specs.Vec.{vec_capacity};
ghost use Rattle.spec_document.specs.declared.TheConstants.{MAX_DEPTH};
ghost use Rattle.xl_tree.specs.Moves.{AreShallow, shifted};

use crate::entries::NodeEntry;

/// Moves the first entries from one level to another.
fn shift_front<N>(run: &mut [NodeEntry<N>], count: usize, from: u32, to: u32)
    requires within { count ≤ length run.old }
    requires shallow { AreShallow (take count run.old) }
    requires low { to ≤ MAX_DEPTH }
    ensures { run.new ≡ map (shifted from to) (take count run.old) ++ drop count run.old }
{
    for at in 0..count {
        let entry = &mut run[at];
        entry.level = entry.level.saturating_sub(from) + to;
    }
}

/// Moves so many entries from a place on to the end, from their level to the top's.
pub fn take_out<N>(entries: &mut Vec<NodeEntry<N>>, at: usize, count: usize, level: u32)
    requires within { at + count ≤ vec_len entries.old }
    requires shallow { AreShallow (take count (drop at entries.old.items)) }
    ensures items { entries.new.items ≡ take at entries.old.items
        ++ (drop count (drop at entries.old.items)
        ++ map (shifted level 0) (take count (drop at entries.old.items))) }
    ensures room { vec_capacity entries.new ≡ vec_capacity entries.old }
{
    let run = &mut entries[at..];
    shift_front(run, count, level, 0);
    run.rotate_left(count);
}

/// Moves so many entries from the end to a place, from the top's level to another.
pub fn put_back<N>(entries: &mut Vec<NodeEntry<N>>, at: usize, count: usize, level: u32)
    requires within { at + count ≤ vec_len entries.old }
    requires shallow { AreShallow (drop (vec_len entries.old - count) entries.old.items) }
    requires low { level ≤ MAX_DEPTH }
    ensures items { entries.new.items ≡ take at entries.old.items
        ++ (map (shifted 0 level) (drop (vec_len entries.old - count) entries.old.items)
        ++ take (vec_len entries.old - count - at) (drop at entries.old.items)) }
    ensures room { vec_capacity entries.new ≡ vec_capacity entries.old }
{
    let run = &mut entries[at..];
    run.rotate_right(count);
    shift_front(run, count, 0, level);
}

/// Moves so many entries from the end of one list into another, which is empty.
pub fn move_tail<N: Drop>(from: &mut Vec<NodeEntry<N>>, to: &mut Vec<NodeEntry<N>>, count: usize)
    requires within { count ≤ vec_len from.old }
    requires empty { to.old.items ≡ [] }
    requires room { count ≤ vec_capacity to.old }
    ensures from { from.new.items ≡ take (vec_len from.old - count) from.old.items }
    ensures to { to.new.items ≡ drop (vec_len from.old - count) from.old.items }
    ensures from_room { vec_capacity from.new ≡ vec_capacity from.old }
    ensures to_room { vec_capacity to.old ≤ vec_capacity to.new }
{
    for _moved in 0..count {
        if let Some(entry) = from.pop() {
            to.push(entry).unwrap();
        }
    }
    to.reverse();
}
