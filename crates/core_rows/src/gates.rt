//! Gates that hold two actors.
use std::alloc::{AllocError, Global};
use xl_fakes::{Hold, HoldGate};
use xl_ports::{Actor, Place};

/// How often a hold looks at most.
const MOST_LOOKS: u32 = 100_000_000;

/// The session that makes calls beside a worker.
const SESSION: Actor = Actor::Session(0);

/// The worker.
pub(crate) const WORKER: Actor = Actor::Worker(0);

/// The session that edits beside a save.
const EDITOR: Actor = Actor::Session(1);

/// The session's second call waits until the worker has its first job.
pub(crate) const CALL_AFTER_JOB: Hold = Hold {
    actor: SESSION,
    place: Place::BeforeCall,
    nth: 1,
    until_actor: WORKER,
    until_place: Place::JobTaken,
    until_nth: 0,
};

/// The worker, which has its first job, waits until the session's second call is about to be made.
pub(crate) const JOB_BEFORE_CALL: Hold = Hold {
    actor: WORKER,
    place: Place::JobTaken,
    nth: 0,
    until_actor: SESSION,
    until_place: Place::BeforeCall,
    until_nth: 1,
};

/// The worker hands its first picture in when the session's second call was answered.
pub(crate) const PICTURE_AFTER_CALL: Hold = Hold {
    actor: WORKER,
    place: Place::BeforeFinish,
    nth: 0,
    until_actor: SESSION,
    until_place: Place::AfterCall,
    until_nth: 1,
};

/// The editor begins once the coder is in its first plane, which it passes as a worker does that has taken a job.
pub(crate) const EDIT_IN_SAVE: Hold = Hold {
    actor: EDITOR,
    place: Place::BeforeCall,
    nth: 0,
    until_actor: WORKER,
    until_place: Place::JobTaken,
    until_nth: 0,
};

/// The coder waits in its first plane until the edit was answered.
pub(crate) const PLANE_AFTER_EDIT: Hold = Hold {
    actor: WORKER,
    place: Place::JobTaken,
    nth: 0,
    until_actor: EDITOR,
    until_place: Place::AfterCall,
    until_nth: 0,
};

/// A gate with these holds.
pub(crate) fn gate_with(alloc: Global, holds: &[Hold]) -> Result<HoldGate, AllocError> {
    let holds = holds.to_vec(alloc)?;
    HoldGate::new(alloc, holds, MOST_LOOKS)
}
