//! A world: the machine with its history, the pictures that it keeps, and the jobs that are out.
#![tactic(auto)]

ghost use Rattle.spec_document.specs.Document.{Document};
ghost use Rattle.spec_document.specs.Limits.{IsDocument};
ghost use Rattle.spec_world.specs.Right.{WorldsAreRight, CallsLeaveJobs, CallsMarkExactly};
ghost use Rattle.spec_world.specs.Exact.{StartsExact, StaysExact, AnswersExactly};

/// How a save ended.
#[derive(Clone, Copy, Debug, PartialEq, Eq)]
pub enum SaveEnd {
    Done,
    Fault,
    Memory,
}

/// Whatever calls, jobs and saves interleave, each world that comes of a document within its limits is right: its
/// history is legal; just the stacks of the latest version have slots; each slot has its last mark, the picture of
/// the latest version where it is clean and that of an earlier one, if any, where it is marked, and no older one than
/// has to be kept; and the result of a job is installed only where the tile shows the same still.
pub fn worlds_are_right()
    ensures { (base : Document) → IsDocument base → WorldsAreRight base }
{}

/// A call leaves the jobs that are out, and is answered whatever they are.
pub fn calls_leave_jobs()
    ensures { (base : Document) → CallsLeaveJobs base }
{}

/// A call that makes a version marks the slots of tiles that its damage meets, gives blank slots to each stack that has
/// come, and leaves all other slots as they were.
pub fn calls_mark_exactly()
    ensures { (base : Document) → CallsMarkExactly base }
{}

// ---- worlds to which no job brings a result

/// As a document is opened, no slot keeps anything, and nothing has to be kept.
pub fn first_slots_are_exact()
    ensures { (base : Document) → StartsExact base }
{}

/// Where no result of a job is handed in, each slot of a right world keeps just what has to be kept: the picture of
/// the last tile call of its tile, up to the version before the one that damages it next.
pub fn slots_stay_exact()
    ensures { (base : Document) → IsDocument base → StaysExact base }
{}

/// So a peek by a caller that has seen the latest version has one answer, by the history alone.
pub fn exact_slots_answer_peeks()
    ensures { (base : Document) → AnswersExactly base }
{}
