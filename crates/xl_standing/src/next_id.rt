//! The ids of new nodes.
ghost use Rattle.std.specs.Prelude.{◌≡◌, ◌<◌, ◌-◌, ◌^◌};
ghost use Rattle.spec_document.specs.Ids.{next_id};
ghost use Rattle.spec_edit.specs.Limited.{IsAt};
ghost use Rattle.xl_doc.specs.Numbered.{AreNumbered};
ghost use Rattle.xl_edit.specs.Applied.{at};

use xl_doc::Document;

/// The id that the next new node of a document without a history gets.
pub fn next_id_of(document: &Document) -> u32
    requires { AreNumbered document.now.nodes }
    ensures next { result ≡ next_id document.now }
    ensures another { result < 2 ^ 32 - 1 }
    ensures at { IsAt (at document.now result) }
{
    document.tree.greatest_id() + 1
}
