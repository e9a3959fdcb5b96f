//! Which entries of a history a session has made, and that the histories of eight sessions beside each other have a
//! text.
#![tactic(auto)]

ghost use Rattle.std.specs.Prelude.{◌≡◌, ℕ, ◌<◌, List, [], length, slice_get, slice_index_or, unwrap_or, None};
ghost use Rattle.spec_document.specs.Document.{Document};
ghost use Rattle.spec_history.specs.History.{Entry, replay, mine};
ghost use Rattle.spec_history.specs.Kept.{IsLegal};
ghost use Rattle.spec_filters.specs.declared.FilterState.{FilterState};
ghost use Rattle.spec_script.specs.Script.{Line};
ghost use Rattle.spec_text.specs.Text.{IsTextOf, printed};
ghost use Rattle.xl_turn.specs.Sums.{total, times, below};
ghost use Rattle.spec_seats.specs.Picked.{picked};
ghost use Rattle.spec_seats.specs.Made.{IsOf, HasMade};

/// Where each place of a history is that of one session, what is picked for a session is all that it made.
pub fn picked_are_mine()
    ensures { (es : List Entry) (places : List (List ℕ)) → length places ≡ 8
        → ((x : ℕ) → total (λ (ps : List ℕ). times x ps) places ≡ below (length es) x)
        → ((session : ℕ) → session < 8 → IsOf session (slice_index_or places session []) es)
        → (session : ℕ) → mine es session ≡ picked (slice_index_or places session []) es }
{}

/// Then no save is out at the end.
pub fn no_save_is_out()
    ensures { (base : Document) (es : List Entry) (places : List (List ℕ)) → length places ≡ 8
        → ((x : ℕ) → total (λ (ps : List ℕ). times x ps) places ≡ below (length es) x)
        → ((session : ℕ) → session < 8 → IsOf session (slice_index_or places session []) es)
        → (replay base es).out ≡ None }
{}

/// Where each session has made the calls of its lines, the printed lines are a text of the script.
pub fn seats_make_a_text()
    ensures { (base : Document) (scripts : List (List Line)) (chests : List (List FilterState))
        (es : List Entry) (places : List (List ℕ)) → length places ≡ 8
        → ((x : ℕ) → total (λ (ps : List ℕ). times x ps) places ≡ below (length es) x)
        → IsLegal base es
        → ((session : ℕ) → session < 8 → HasMade session (unwrap_or (slice_get chests session) [])
        (unwrap_or (slice_get scripts session) []) (slice_index_or places session []) es)
        → IsTextOf (printed base es) base scripts chests es }
{}
