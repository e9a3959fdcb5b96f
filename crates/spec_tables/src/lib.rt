//! The tables of the filters of a session, and that no table decides which edits are accepted.
#![tactic(auto)]

ghost use Rattle.std.specs.Prelude.{◌≡◌, ℕ, List, [], Option};
ghost use Rattle.spec_edit.specs.Edit.{Edit};
ghost use Rattle.spec_edit.specs.Apply.{At, apply_group};
ghost use Rattle.spec_filters.specs.declared.FilterState.{FilterState};
ghost use Rattle.spec_tables.specs.Acceptance.{refused_in};
ghost use Rattle.spec_tables.specs.Agrees.{Agrees, IsUsed};

/// Which edit of a group is refused, and why, is the same with any tables.
pub fn acceptance_looks_at_no_table()
    ensures { (old : At) (edits : List Edit) (tables others : List (List ℕ))
        → refused_in (apply_group old edits tables) ≡ refused_in (apply_group old edits others) }
{}

/// Each chest agrees with some list of filters.
pub fn chest_agrees_with_a_list()
    ensures { (chest : List (Option FilterState)) → (filters : List FilterState)
        × Agrees chest filters }
{}

/// A chest of which no edit asked a filter is as before.
pub fn unused_chest_is_as_before()
    ensures { (old new : List (Option FilterState)) → IsUsed old new [] → new ≡ old }
{}
