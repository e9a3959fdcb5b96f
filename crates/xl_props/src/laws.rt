ghost use Rattle.std.specs.Prelude.{ℕ, List};
ghost use Rattle.spec_document.specs.declared.Owner.{Owner};
ghost use Rattle.spec_document.specs.Document.{Kept};
ghost use Rattle.spec_document.specs.Limits.{AreKept};
ghost use Rattle.spec_fields.specs.Field.{HasBytes};
ghost use Rattle.xl_props.specs.declared.answer.Known.{Known};
ghost use Rattle.xl_props.specs.Known.{IsKnown};
ghost use Rattle.xl_props.specs.Written.{written, ReadsBack};

/// A list of properties that was written is read back where it stands in a file, whatever is before it and behind it.
pub fn written_props_are_read()
    ensures { (file : List ℕ) (owner : Owner) (at : ℕ) (known : Known) (kept : List Kept)
        → IsKnown owner known → AreKept owner kept → HasBytes file at (written known kept)
        → ReadsBack file owner at known kept }
{}
