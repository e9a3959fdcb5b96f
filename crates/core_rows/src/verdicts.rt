//! Verdicts on outputs of runs by filters over a document of one pixel.
ghost use Rattle.std.specs.Prelude.{◌≡◌, ◌<◌, ◌≤◌, [], ◌∷◌, length, map, IfOk};
ghost use Rattle.std.specs.List.{AllByRecursion};
ghost use Rattle.spec_audit.specs.Limited.{AreNumbers};
ghost use Rattle.spec_script.specs.Fits.{FitsFilters};
ghost use Rattle.xl_audit.specs.Auditing.{IsFull};
ghost use Rattle.xl_filters.specs.Chests.{states_in};
ghost use Rattle.xl_script.specs.Lines.{lists_of};

use sample_bytes::ONE;
use sample_documents::document;
use std::alloc::{AllocError, Global};
use std::marker::Brand;
use std::sync::ledger::{Blank, Ledger};
use std::test::Fail;
use xl_audit::{Verdict, audit};
use xl_blend::Steps;
use xl_filters::{Chest, Fade, Invert, PointFilter, Posterize, Threshold};
use xl_script::{BadLineOrMemory, Script, parse};

/// A script, an output, and the verdict on it. The sessions have the filters of the program, each its own.
const WITH_FILTERS: [(&'static [u8], &'static [u8], Verdict); 5] = [
    (
        b"0 filter 1 0 0 1 1 3\n0 filter 1 0 0 1 1 3\n0 forget 3\n0 tile 0 0 0\n1 filter 1 0 0 1 1 3\n1 tile 0 0 0\n",
        b"0.0 changed 1 1 2\n0.1 changed 2 2 2\n0.2 tile 2 ba2757b419c5c0a47f67c4af0ab5f8ba9f40edf10f497f7cd32b4347957e6b6b\n1.0 changed 3 3 2\n1.1 tile 3 ba2757b419c5c0a47f67c4af0ab5f8ba9f40edf10f497f7cd32b4347957e6b6b\norder 0.0 0.1 0.2 1.0 1.1\n",
        Verdict::Accepted,
    ),
    (
        b"0 filter 1 0 0 1 1 3\n0 filter 1 0 0 1 1 3\n0 forget 3\n0 tile 0 0 0\n1 filter 1 0 0 1 1 3\n1 tile 0 0 0\n",
        b"0.0 changed 1 1 2\n0.1 changed 2 2 2\n0.2 tile 2 0a28758309bf7e82d2258afa38b0251d27ca7a7c168bbdf5912cbdf1975d2c8c\n1.0 changed 3 3 2\n1.1 tile 3 ba2757b419c5c0a47f67c4af0ab5f8ba9f40edf10f497f7cd32b4347957e6b6b\norder 0.0 0.1 0.2 1.0 1.1\n",
        Verdict::Reply {
            session: 0,
            index: 2,
        },
    ),
    (
        b"0 filter 1 0 0 1 1 3\n0 filter 1 0 0 1 1 3\n0 forget 3\n0 tile 0 0 0\n1 filter 1 0 0 1 1 3\n1 tile 0 0 0\n",
        b"0.0 changed 1 1 2\n0.1 changed 2 2 2\n0.2 tile 2 ba2757b419c5c0a47f67c4af0ab5f8ba9f40edf10f497f7cd32b4347957e6b6b\n1.0 changed 3 3 2\n1.1 tile 3 b9a18be00011da690a708456292fa6b7113a2df811605543448d82d1e07b2f7b\norder 0.0 0.1 0.2 1.0 1.1\n",
        Verdict::Reply {
            session: 1,
            index: 1,
        },
    ),
    (
        b"0 begin\n0 filter 1 0 0 1 1 3\n0 opacity 9 0\n0 end\n0 filter 1 0 0 1 1 3\n0 tile 0 0 0\n",
        b"0.0 refused 1 1 9\n0.1 changed 1 1 2\n0.2 tile 1 0a28758309bf7e82d2258afa38b0251d27ca7a7c168bbdf5912cbdf1975d2c8c\norder 0.0 0.1 0.2\n",
        Verdict::Accepted,
    ),
    (
        b"0 begin\n0 filter 1 0 0 1 1 3\n0 opacity 9 0\n0 end\n0 filter 1 0 0 1 1 3\n0 tile 0 0 0\n",
        b"0.0 refused 1 1 9\n0.1 changed 1 1 2\n0.2 tile 1 ba2757b419c5c0a47f67c4af0ab5f8ba9f40edf10f497f7cd32b4347957e6b6b\norder 0.0 0.1 0.2\n",
        Verdict::Reply {
            session: 0,
            index: 2,
        },
    ),
];

// The chest of a session: the filters of the program.
fn first_chest(alloc: Global) -> Result<Chest, AllocError>
    ensures full { IfOk result (λ chest. IsFull (states_in state chest)) }
    ensures count { IfOk result (λ chest. length (states_in state chest) ≡ 4) }
{
    let mut boxes: Vec<Box<dyn PointFilter + Send>> = Vec::new(alloc);
    boxes.push(Box::new(alloc, Invert::new(0))?)?;
    boxes.push(Box::new(alloc, Threshold::new(128))?)?;
    boxes.push(Box::new(alloc, Posterize::new(4))?)?;
    boxes.push(Box::new(alloc, Fade::new(100))?)?;
    Ok(Chest::new(alloc, boxes)?)
}

fn chests_of_two(alloc: Global) -> Result<Vec<Chest>, AllocError>
    ensures two { IfOk result (λ chests. length chests.items ≡ 2) }
    ensures full { IfOk result (λ chests.
        AllByRecursion IsFull (map (λ c. states_in state c) chests.items)) }
    ensures counts { IfOk result (λ chests.
        map length (map (λ c. states_in state c) chests.items) ≡ 4 ∷ 4 ∷ []) }
{
    let mut chests = Vec::new(alloc);
    chests.push(first_chest(alloc)?)?;
    chests.push(first_chest(alloc)?)?;
    Ok(chests)
}

// The verdict on an output of a run of sessions with these filters.
fn audited<L: Ledger>(
    alloc: Global,
    script: &Script,
    output: &[u8],
    chests: Vec<Chest>,
    blank: Blank,
) -> Result<Verdict, AllocError>
    requires name { blank.name ≡ L.name }
    requires parts { blank.parts ≡ L.parts }
    requires some { 0 < blank.parts }
    requires few { length chests.items ≤ 8 }
    requires full { AllByRecursion IsFull (map (λ c. states_in state c) chests.items) }
    requires fits { FitsFilters (map length (map (λ c. states_in state c) chests.items))
        (lists_of script.now) }
    requires numbers { AreNumbers (lists_of script.now) }
{
    let base = document(alloc, &ONE)?;
    let mut steps = Steps::<L>::new(blank);
    audit(alloc, base, script, output, chests, &mut steps)
}

fn verdict_on(alloc: Global, script: &[u8], output: &[u8]) -> Result<Verdict, BadLineOrMemory> {
    let script = parse(alloc, script, &[4, 4])?;
    let chests = chests_of_two(alloc)?;
    let verdict = audited::<Brand>(alloc, &script, output, chests, Blank::new(1));
    drop(script);
    Ok(verdict?)
}

// The first of the runs, counted from 0, on which there is another verdict.
fn found_otherwise(alloc: Global) -> Result<Option<usize>, BadLineOrMemory> {
    for (i, run) in WITH_FILTERS.iter().enumerate() {
        if verdict_on(alloc, run.0, run.1)? != run.2 {
            return Ok(Some(i));
        }
    }
    Ok(None)
}

#[test]
fn outputs_with_filters_have_their_verdicts(rt: HostRuntime) -> Result<(), Fail> {
    assert_eq!(rt; found_otherwise(rt.alloc())?, None);
    Ok(())
}
