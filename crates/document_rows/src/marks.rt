//! Each call that takes memory once.
ghost use Rattle.std.specs.Prelude.{◌≡◌, IfOk};
ghost use Rattle.spec_document.specs.Forest.{none};
ghost use Rattle.xl_doc.specs.Sound.{IsSound};
ghost use Rattle.xl_marks.specs.Sample.{canvas_of};

use std::alloc::{AllocError, Global};
use std::test::Fail;
use xl_doc::{Base, Channels, ColourMap, Node, PropList, Tree};
use xl_marks::{Change, Damage, Document, Edit, first_cache};

/// A canvas of two tiles with these nodes.
fn canvas(alloc: Global, tree: Tree<Node>) -> Result<Document, AllocError>
    requires { IsSound tree (canvas_of tree) }
    ensures { IfOk result (λ d. d ≡ canvas_of tree) }
{
    let channels = Channels::new(alloc)?;
    Ok(Document {
        width: 70,
        height: 10,
        base: Base::Rgb,
        compression: 1,
        colours: ColourMap::new(alloc),
        kept: PropList::new(alloc),
        tree,
        channels,
        selection: None,
    })
}

fn empty_canvas(alloc: Global) -> Result<Document, AllocError>
    ensures { IfOk result (λ d. d ≡ canvas_of none) }
{
    canvas(alloc, Tree::new(alloc)?)
}

/// The damage of an edit that leaves the document as it is.
fn no_damage(alloc: Global, doc: &Document) -> Result<Damage, AllocError>
    requires { doc.now ≡ canvas_of none }
{
    let mut damage = Damage::new(alloc);
    damage.add(alloc, doc, doc, 1, &Edit::SelectNone)?;
    Ok(damage)
}

/// Whether a document begins with marked slots.
fn begins_marked(alloc: Global, doc: &Document) -> Result<bool, AllocError> {
    let mut cache = first_cache(alloc, doc)?;
    Ok(cache.take().is_some())
}

fn change_to_itself(alloc: Global, doc: &Document) -> Result<Change, AllocError>
    requires { doc.now ≡ canvas_of none }
{
    let damage = no_damage(alloc, doc)?;
    Change::new(alloc, doc, doc, damage)
}

// Whether a document with a change to itself begins with marked slots.
fn changes(alloc: Global) -> Result<bool, AllocError> {
    let doc = empty_canvas(alloc)?;
    changes_to_itself(alloc, &doc)
}

fn changes_to_itself(alloc: Global, doc: &Document) -> Result<bool, AllocError>
    requires { doc.now ≡ canvas_of none }
{
    let _change = change_to_itself(alloc, doc)?;
    begins_marked(alloc, doc)
}

#[test]
fn there_is_memory(rt: HostRuntime) -> Result<(), Fail> {
    assert!(rt; changes(rt.alloc())?);
    Ok(())
}
