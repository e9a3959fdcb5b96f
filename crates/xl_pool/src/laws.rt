//! What a change comes to.
ghost use Rattle.std.specs.Prelude.{ℕ, List};
ghost use Rattle.spec_document.specs.Document.{Document};
ghost use Rattle.spec_edit.specs.Apply.{At};
ghost use Rattle.spec_edit.specs.Edit.{Edit};
ghost use Rattle.spec_standing.specs.Change.{BeginsWithItsCache, LeadsBack, LeavesCacheBetween};
ghost use Rattle.spec_standing.specs.Group.{HasGroupDamage};

/// To go along a change leaves just the slots that a version between its documents leaves, where the damage is that
/// of the version's cause.
pub fn gone_along_is_between()
    ensures { (base old new : Document) → LeavesCacheBetween base old new }
{}

/// The damage of each edit behind that of those before it has the rectangles of the group, for each stack.
pub fn damage_of_a_group()
    ensures { (old : At) (edits : List Edit) (tables : List (List ℕ))
        → HasGroupDamage old edits tables }
{}

/// From where a change leads to, it leads back.
pub fn change_leads_back()
    ensures { (old new : Document) → LeadsBack old new }
{}

/// The first cache of a document has slots for just its stacks.
pub fn first_cache_is_its_own()
    ensures { (d : Document) → BeginsWithItsCache d }
{}
