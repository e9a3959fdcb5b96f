//! The shelf of a core, which is in or out.
ghost use Rattle.std.specs.Prelude.{◌≡◌, ◌<◌, [], ◌∷◌, ◌++◌, IsSome, vec_len, vec_capacity};
ghost use Rattle.xl_history.specs.Holding.{all_seen, shelf_in};
ghost use Rattle.xl_history.specs.declared.saving.ShelfPlace.TheVariants.{In, Out};

use std::mem;
use std::snapshot::Snapshot;
use xl_history::ShelfPlace;

/// The shelf, which is in.
pub(crate) fn shelf_of<D: Drop>(place: ShelfPlace<D>) -> D
    requires { IsSome (shelf_in place) }
    ensures { place ≡ In result }
{
    match place {
        ShelfPlace::In(shelf) => shelf,
        ShelfPlace::Out { .. } => unreachable!(),
    }
}

/// Hands the shelf out, which is in, for the save with this index that names this version. There is room to note it.
pub(crate) fn hand_out<D: Drop>(
    place: &mut ShelfPlace<D>,
    handed: &mut Vec<Snapshot<D>>,
    index: u32,
    version: u32,
) -> D
    requires within { IsSome (shelf_in place.old) }
    requires room { vec_len handed.old < vec_capacity handed.old }
    ensures shelf { place.old ≡ In result }
    ensures place { place.new ≡ Out index version }
    ensures handed { all_seen handed.new.items ≡ all_seen handed.old.items ++ result ∷ [] }
{
    let shelf = shelf_of(mem::replace(place, ShelfPlace::Out { index, version }));
    handed.push_reserved(Snapshot::of(&shelf));
    shelf
}
