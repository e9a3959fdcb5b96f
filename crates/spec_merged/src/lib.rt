//! Sessions that fill layers of their own make one document, in whatever order their calls come.
#![tactic(auto)]

ghost use Rattle.std.specs.Prelude.{◌≡◌, ◌≢◌, ℕ, ◌<◌, ◌≤◌, List, [], length, filter_map, slice_get, unwrap_or};
ghost use Rattle.spec_document.specs.declared.Rect.{Rect};
ghost use Rattle.spec_document.specs.Document.{Document};
ghost use Rattle.spec_edit.specs.Edit.{fill};
ghost use Rattle.spec_edit.specs.Refusal.{refusal};
ghost use Rattle.spec_edit.specs.Effect.{effect};
ghost use Rattle.spec_filters.specs.declared.FilterState.{FilterState};
ghost use Rattle.spec_generated.specs.Generated.{document, script};
ghost use Rattle.spec_generated.specs.Summary.{outcome};
ghost use Rattle.spec_history.specs.History.{Entry, document_of, latest_of};
ghost use Rattle.spec_merged.specs.Fills.{AreOwn, EndsWithSave};
ghost use Rattle.spec_script.specs.Script.{Line};
ghost use Rattle.spec_text.specs.Text.{IsTextOf, made_by};

/// Fills of two layers make one document in either order.
pub fn fills_of_two_layers_commute()
    ensures { (d : Document) (next other_next : ℕ) (table other_table : List ℕ) (a b : ℕ)
        (at other : Rect) (pixel colour : List ℕ) → let one : Document
        → Document = λ e. effect e next table (fill a at pixel) in let two : Document
        → Document = λ e. effect e other_next other_table (fill b other colour) in a ≢ b
        → two (one d) ≡ one (two d) }
{}

/// A fill of any layer leaves each fill accepted, or refused for the same reason.
pub fn fill_changes_no_refusal()
    ensures { (d : Document) (next : ℕ) (table : List ℕ) (a b : ℕ) (at other : Rect)
        (pixel colour : List ℕ) → refusal (effect d next table (fill a at pixel))
        (fill b other colour) ≡ refusal d (fill b other colour) }
{}

/// Where each session fills only layers of its own, the last document of a history of their calls is that after the
/// calls of one session after another.
pub fn order_of_sessions_makes_no_document()
    ensures { (owner : ℕ → ℕ) (out : List ℕ) (base : Document) (lists : List (List Line))
        (chests : List (List FilterState)) (es : List Entry) → IsTextOf out base lists chests es
        → length lists ≤ 8 → AreOwn owner 0 lists → document_of base es (latest_of es)
        ≡ outcome base lists }
{}

/// So it is for the document and the script that are made from a seed.
pub fn order_of_generated_sessions_makes_no_document()
    ensures { (seed : ℕ) (out : List ℕ) (chests : List (List FilterState)) (es : List Entry)
        → IsTextOf out (document seed) (script seed) chests es
        → document_of (document seed) es (latest_of es) ≡ outcome (document seed) (script seed) }
{}

/// Where the lines of each session end with a save, so do the calls of all sessions in the order of their history. So
/// no call comes behind the start of the save that starts last.
pub fn last_call_is_a_save()
    ensures { (out : List ℕ) (base : Document) (lists : List (List Line))
        (chests : List (List FilterState)) (es : List Entry) → IsTextOf out base lists chests es
        → ((session : ℕ) → session < 8 → EndsWithSave (unwrap_or (slice_get lists session) []))
        → EndsWithSave (filter_map (λ e. made_by e.kind) es) }
{}

/// So it is for the script of a seed.
pub fn last_call_of_generated_sessions_is_a_save()
    ensures { (seed : ℕ) (out : List ℕ) (chests : List (List FilterState)) (es : List Entry)
        → IsTextOf out (document seed) (script seed) chests es
        → EndsWithSave (filter_map (λ e. made_by e.kind) es) }
{}
