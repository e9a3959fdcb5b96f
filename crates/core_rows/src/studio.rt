use crate::again::edit_again;
use crate::beside::{Done, Part, Task};
use crate::calls::Ask;
use crate::edits::Change;
use crate::gates::{
    CALL_AFTER_JOB, EDIT_IN_SAVE, JOB_BEFORE_CALL, PICTURE_AFTER_CALL, PLANE_AFTER_EDIT,
};
use crate::late::{delete_and_undo, edit_while_out};
use crate::played::play;
use crate::refreshed::refresh_after_edit;
use std::test::Fail;
use xl_calls::Reply;
use xl_core::Finished;
use xl_refresh::{WorkEnd, Worked};

// How many pictures of a worker came too late, and why it stopped.
fn late_and_end(done: Done) -> Option<(u32, WorkEnd)> {
    match done.worked {
        Some(worked) => Some((worked.late, worked.end)),
        None => None,
    }
}

// The worker is done where the session made a call while its first job was out.
#[test]
fn a_call_while_a_job_is_out(rt: HostRuntime) -> Result<(), Fail> {
    let holds = [CALL_AFTER_JOB, JOB_BEFORE_CALL];
    let calls = Part::Calls(Ask::Top);
    let outcome = play(&rt, rt.alloc(), &holds, calls, Task::Refresh)?;
    assert_eq!(rt;
        (outcome.missed, outcome.heard, outcome.done.worked),
        (
            false,
            Reply::Top {
                group: None,
                version: 0
            },
            Some(Worked {
                installed: 1,
                late: 0,
                end: WorkEnd::Closed
            })
        )
    );
    Ok(())
}

// An edit that was answered while the job was out has marked its tile.
#[test]
fn an_edit_before_a_picture_comes(rt: HostRuntime) -> Result<(), Fail> {
    let holds = [CALL_AFTER_JOB, PICTURE_AFTER_CALL];
    let calls = Part::Calls(Ask::Edit(Change::Fade(9)));
    let outcome = play(&rt, rt.alloc(), &holds, calls, Task::Refresh)?;
    assert_eq!(rt;
        (outcome.missed, outcome.heard, late_and_end(outcome.done)),
        (
            false,
            Reply::Changed {
                version: 1,
                group: 1,
                next: 2
            },
            Some((1, WorkEnd::Closed))
        )
    );
    Ok(())
}

// The save names the version that it began with, and that one is in the file.
#[test]
fn an_edit_while_a_save_is_out(rt: HostRuntime) -> Result<(), Fail> {
    let holds = [EDIT_IN_SAVE, PLANE_AFTER_EDIT];
    let outcome = play(&rt, rt.alloc(), &holds, Part::Save, Task::Edit)?;
    assert_eq!(rt;
        (
            outcome.missed,
            outcome.heard,
            outcome.done.edited,
            outcome.as_opened
        ),
        (
            false,
            Reply::Saved { version: 0 },
            Some(Reply::Changed {
                version: 1,
                group: 1,
                next: 2
            }),
            true
        )
    );
    Ok(())
}

// The tile was kept at version 3, and the job is of version 4.
#[test]
fn an_edit_while_a_job_is_out(rt: HostRuntime) -> Result<(), Fail> {
    assert_eq!(rt;
        edit_while_out(&rt, rt.alloc())?,
        (None, Finished::Late { marked_at: 5 }, None)
    );
    Ok(())
}

// A group that goes while its jobs are out, and comes back.
#[test]
fn a_delete_while_jobs_are_out(rt: HostRuntime) -> Result<(), Fail> {
    assert_eq!(rt;
        delete_and_undo(&rt, rt.alloc())?,
        (
            None,
            Finished::Gone,
            Reply::Changed {
                version: 3,
                group: 2,
                next: 3
            },
            Finished::Late { marked_at: 3 }
        )
    );
    Ok(())
}

// The picture is kept without a call that asks for it, so that a peek shows it. After that there is nothing to compose.
#[test]
fn a_tile_is_refreshed(rt: HostRuntime) -> Result<(), Fail> {
    assert_eq!(rt;
        refresh_after_edit(&rt, rt.alloc())?,
        (
            (Some(Finished::Installed), Reply::Tile { version: 1 }),
            true
        )
    );
    Ok(())
}

// The group that was undone is made again, once.
#[test]
fn an_edit_is_made_again(rt: HostRuntime) -> Result<(), Fail> {
    assert_eq!(rt; edit_again(&rt, rt.alloc())?, None);
    Ok(())
}
