//! The same window of the document of a seed, twice.
ghost use Rattle.std.specs.Prelude.{◌≡◌, ◌<◌, IfOk};
ghost use Rattle.spec_window.specs.Viewed.{AreKept};
ghost use Rattle.spec_window.specs.Window.{window, window_tiles};
ghost use Rattle.xl_core.specs.History.{document, version};
ghost use Rattle.xl_window.specs.Viewing.{GoesOn};

use crate::opened::core_over;
use spec_window::window_is_kept;
use std::alloc::{AllocError, Global};
use std::marker::Brand;
use std::sync::ledger::{Blank, Ledger};
use std::test::Fail;
use xl_blend::Steps;
use xl_core::Core;
use xl_doc::{NodeId, TileAt};
use xl_fakes::MemoryShelf;
use xl_ports::Shelf;
use xl_window::{Viewer, WindowRefusedOrMemory};

/// The bytes that were shown at first and once more.
#[derive(Drop)]
struct Twice {
    first: Vec<u8>,
    again: Vec<u8>,
}

// A window of two columns and two rows once more, of which all tiles are kept.
fn look_again<L: Ledger, D: Shelf>(
    alloc: Global,
    viewer: &mut Viewer,
    core: &Core<D>,
    node: NodeId,
    at: TileAt,
    steps: &mut Steps<L>,
) -> Result<Vec<u8>, WindowRefusedOrMemory>
    requires history { GoesOn viewer.old.seen core.now.history }
    requires kept { AreKept viewer.old.kept node.0 (version core.now.history)
        (window_tiles (document core.now.history).width (document core.now.history).height at 2 2) }
    ensures bytes { IfOk result (λ out. out.items ≡ window (document core.now.history) node.0 at 2
        2) }
    ensures no_step { steps.new ≡ steps.old }
{
    let mut out = Vec::new(alloc);
    viewer.window(alloc, core, node, at, 2, 2, &mut out, steps)?;
    Ok(out)
}

// Such a window, which a new viewer shows twice. The second time it takes no step.
fn look_twice<L: Ledger, M: Ledger, D: Shelf>(
    alloc: Global,
    core: &Core<D>,
    node: NodeId,
    at: TileAt,
    first_steps: &mut Steps<L>,
    again_steps: &mut Steps<M>,
) -> Result<Twice, WindowRefusedOrMemory>
    ensures same { IfOk result (λ twice. twice.again.items ≡ twice.first.items) }
    ensures no_step { again_steps.new ≡ again_steps.old }
{
    let mut viewer = Viewer::new(alloc)?;
    let mut first = Vec::new(alloc);
    viewer.window(alloc, core, node, at, 2, 2, &mut first, first_steps)?;
    window_is_kept();
    let again = look_again(alloc, &mut viewer, core, node, at, again_steps)?;
    Ok(Twice { first, again })
}

// The same, with steps that are counted for each look by itself.
fn look_counted<L: Ledger, M: Ledger, D: Shelf>(
    alloc: Global,
    core: &Core<D>,
    at: TileAt,
    blank: Blank,
    other: Blank,
) -> Result<Twice, AllocError>
    requires name { blank.name ≡ L.name }
    requires parts { blank.parts ≡ L.parts }
    requires some { 0 < blank.parts }
    requires other_name { other.name ≡ M.name }
    requires other_parts { other.parts ≡ M.parts }
    requires other_some { 0 < other.parts }
{
    let mut first = Steps::<L>::new(blank);
    let mut again = Steps::<M>::new(other);
    match look_twice(alloc, core, NodeId(0), at, &mut first, &mut again) {
        Ok(twice) => Ok(twice),
        Err(_) => Err(AllocError),
    }
}

// A window of the image that is made from a seed, as a new viewer shows it twice.
fn made_twice(alloc: Global, seed: u32, at: TileAt) -> Result<Twice, AllocError> {
    let shelf = MemoryShelf::new(alloc, Vec::new(alloc), Vec::new(alloc), None)?;
    let made = xl_report::make(alloc, seed)?;
    let core = core_over(alloc, made.document, shelf)?;
    let twice = look_counted::<Brand, Brand, MemoryShelf>(
        alloc,
        &core,
        at,
        Blank::new(1),
        Blank::new(1),
    );
    drop(core);
    twice
}

// The bytes of its first pixel and its last one are those of the reference reader.
fn is_seven_twice(twice: &Twice) -> bool {
    twice.first.len() == 4 * 4 * 64 * 64
        && twice.first.as_slice().starts_with(&[54, 57, 144, 139])
        && twice.first.as_slice().ends_with(&[161, 20, 105, 123])
        && twice.again.as_slice() == twice.first.as_slice()
}

#[test]
fn a_window_that_is_shown_twice_is_the_same(rt: HostRuntime) -> Result<(), Fail> {
    let twice = made_twice(rt.alloc(), 7, TileAt { col: 7, row: 5 })?;
    assert!(rt; is_seven_twice(&twice));
    Ok(())
}
