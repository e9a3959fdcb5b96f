//! What the file may hold after a history of a document with saves, and what a shelf has to keep that is handed out to
//! a save.
#![tactic(auto)]

ghost use Rattle.std.specs.Prelude.{◌≡◌, ℕ, false, List, [], ◌∷◌, ◌++◌, None, IsSome};
ghost use Rattle.std.specs.List.Sorted.{IsNonDecreasing};
ghost use Rattle.spec_document.specs.Document.{Document};
ghost use Rattle.spec_history.specs.History.{Entry, is_end_kind, replay, Run};
ghost use Rattle.spec_history.specs.Kept.{IsLegal};
ghost use Rattle.spec_world.specs.declared.SaveEnd.{SaveEnd};
ghost use Rattle.spec_saves.specs.Names.{names, files};
ghost use Rattle.spec_saves.specs.Shelf.{ShelfIsRight};
ghost use Rattle.spec_saves.specs.Returns.{Returns, end_entry};
ghost use Rattle.spec_saves.specs.Acknowledged.{acknowledged_versions};
ghost use Rattle.xl_ports.specs.State.{ShelfState};

/// While no save is out, the file has just the names that the ended saves have left.
pub fn file_is_named_by_ended_saves()
    ensures { (base : Document) (es : List Entry) → (replay base es).out ≡ None
        → files base es ≡ names es }
{}

/// At the opening a shelf is right.
pub fn opened_shelf_is_right()
    ensures { (opening : ShelfState) (base : Document) → ShelfIsRight opening base [] opening }
{}

/// A shelf that is right stays so while entries come that end no save.
pub fn shelf_stays_right()
    ensures { (opening now : ShelfState) (base : Document) (es : List Entry) (e : Entry)
        → Run base es → is_end_kind e.kind ≡ false → ShelfIsRight opening base es now
        → ShelfIsRight opening base (es ++ e ∷ []) now }
{}

/// A shelf that was right as it was handed out is right again as it comes back from the save, which ends so.
pub fn shelf_comes_back_right()
    ensures { (opening handed now : ShelfState) (base : Document) (es : List Entry)
        (session index : ℕ) (how : SaveEnd) → Run base es → IsSome (replay base es).out
        → ShelfIsRight opening base es handed → Returns opening handed base es how now
        → ShelfIsRight opening base (es ++ end_entry base es session index how ∷ []) now }
{}

/// The versions of the saves that a legal history acknowledges never fall: the later of two saves is of no earlier
/// version.
pub fn acknowledged_versions_never_fall()
    ensures { (base : Document) (es : List Entry) → IsLegal base es
        → IsNonDecreasing (acknowledged_versions es) }
{}
