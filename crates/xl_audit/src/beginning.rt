//! The beginning of a walk.
ghost use Rattle.std.specs.Prelude.{◌≡◌, [], IfOk};
ghost use Rattle.xl_audit.specs.Walking.{HasCome};
ghost use Rattle.xl_doc.specs.Numbered.{AreNumbered};

use crate::walk::Walk;
use std::alloc::{AllocError, Global};
use xl_doc::Document;
use xl_judging::Versions;
use xl_standing::{Standing, Trail, first_cache};

/// A walk that has not begun, from the document of the run and the versions that it will be asked for.
pub(crate) fn first_walk(
    alloc: Global,
    base: Document,
    wanted: Vec<bool>,
) -> Result<Walk, AllocError>
    requires { AreNumbered base.nodes }
    ensures come { IfOk result (HasCome base []) }
    ensures wanted { IfOk result (λ walk. walk.versions.wanted.items ≡ wanted.items) }
{
    let cache = first_cache(alloc, &base)?;
    let undo = Trail::new(alloc)?;
    let redo = Trail::new(alloc)?;
    let mut versions = Versions::new(alloc, wanted);
    versions.add(alloc, &base)?;
    Ok(Walk {
        standing: Standing::new(base, cache, undo, redo),
        versions,
        made: [0; 8],
        seen: [0; 8],
        out: 0,
    })
}
