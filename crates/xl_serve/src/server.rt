//! A document that is edited line by line.
ghost use Rattle.std.specs.Prelude.{◌≡◌, ◌+◌, ◌<◌, map, length, None, IfOk, IsSome, OnErr, OnOk, slice_index, slice_index_or, []};
ghost use Rattle.spec_script.specs.Words.{words_of};
ghost use Rattle.spec_serve.specs.Seen.{seen_by};
ghost use Rattle.xl_filters.specs.Chests.{states_in};
ghost use Rattle.xl_script.specs.Lines.{line_of};
ghost use Rattle.xl_run.specs.Filters.{FitsChest};
ghost use Rattle.xl_serve.specs.Played.{GoesOn, IsCut, IsReady};
ghost use Rattle.xl_serve.specs.Serving.{now_of, Answers, IsCutAt, IsPlayedOn, StandsSomehow};
ghost use Rattle.spec_serve.specs.Windows.{request_of};

use crate::lines::play_line;
use crate::windows::show;
use std::alloc::{AllocError, Global};
use std::sync::ledger::Ledger;
use xl_blend::Steps;
use xl_core::{Core, Desk};
use xl_filters::PointFilter;
use xl_ports::Shelf;
use xl_script::{Heard, Hearing, Line};
use xl_told::{Request, bad_line, idle_line, request_of};
use xl_window::Viewer;

/// A document that is edited line by line: its core, what was heard so far, of each session its desk and the version
/// that it has seen, and the pictures that were shown last.
#[derive(Drop)]
pub struct Server<D: Shelf> {
    pub core: Core<D>,
    pub hearing: Hearing,
    pub desks: Vec<Desk>,
    pub seen: [u32; 8],
    pub viewer: Viewer,
}

impl<D: Shelf> Server<D> {
    // Plays a line of a session that is whole.
    fn play<L: Ledger>(
        &mut self,
        alloc: Global,
        session: u8,
        line: Line,
        steps: &mut Steps<L>,
    ) -> Result<Vec<u8>, AllocError>
        requires session { session < 8 }
        requires ready { IsReady self.old.core }
        requires selected { IsSome (D.shelf_state self.old.core.opening).selected }
        requires desks { length self.old.desks.items ≡ 8 }
        requires seen { slice_index self.old.seen session ≡ seen_by self.old.core.history.entries
            session }
        requires fit { FitsChest (slice_index_or (map (λ d. states_in state d.chest)
            self.old.desks.items) session []) (line_of line) }
        ensures goes_on { GoesOn self.old.core self.new.core }
        ensures hearing { self.new.hearing ≡ self.old.hearing }
        ensures viewer { self.new.viewer ≡ self.old.viewer }
        ensures played { IfOk result (λ text. IsPlayedOn session (line_of line)
            (now_of self.old.core.history self.old.hearing self.old.seen
            (map (λ d. states_in state d.chest) self.old.desks.items) self.old.viewer.seen)
            (now_of self.new.core.history self.new.hearing self.new.seen
            (map (λ d. states_in state d.chest) self.new.desks.items) self.new.viewer.seen)
            text.items) }
        ensures cut { OnErr result (IsCut session (line_of line) self.old.core.history
            self.new.core.history) }
    {
        let mut seen = self.seen[session as usize];
        let desk = &mut self.desks[session as usize];
        let text = play_line(alloc, &mut self.core, session, line, &mut seen, desk, steps)?;
        self.seen[session as usize] = seen;
        Ok(text)
    }

    // Answers a line that is no request.
    fn answer_script<L: Ledger>(
        &mut self,
        alloc: Global,
        number: u32,
        line: &[u8],
        steps: &mut Steps<L>,
    ) -> Result<Vec<u8>, AllocError>
        requires ready { IsReady self.old.core }
        requires selected { IsSome (D.shelf_state self.old.core.opening).selected }
        requires stands { StandsSomehow (now_of self.old.core.history self.old.hearing self.old.seen
            (map (λ d. states_in state d.chest) self.old.desks.items) self.old.viewer.seen) }
        requires no_request { request_of (words_of line.now) ≡ None }
        ensures goes_on { GoesOn self.old.core self.new.core }
        ensures answers { IfOk result (λ text. Answers number line.now
            (now_of self.old.core.history self.old.hearing self.old.seen
            (map (λ d. states_in state d.chest) self.old.desks.items) self.old.viewer.seen)
            (now_of self.new.core.history self.new.hearing self.new.seen
            (map (λ d. states_in state d.chest) self.new.desks.items) self.new.viewer.seen)
            text.items) }
        ensures cut { OnErr result (IsCutAt number line.now
            (now_of self.old.core.history self.old.hearing self.old.seen
            (map (λ d. states_in state d.chest) self.old.desks.items) self.old.viewer.seen)
            (now_of self.new.core.history self.new.hearing self.new.seen
            (map (λ d. states_in state d.chest) self.new.desks.items) self.new.viewer.seen)) }
        ensures made { OnOk result (IsCutAt number line.now
            (now_of self.old.core.history self.old.hearing self.old.seen
            (map (λ d. states_in state d.chest) self.old.desks.items) self.old.viewer.seen)
            (now_of self.new.core.history self.new.hearing self.new.seen
            (map (λ d. states_in state d.chest) self.new.desks.items) self.new.viewer.seen)) }
    {
        match self.hearing.hear(alloc, number, line)? {
            Heard::Plays(session, line) => self.play(alloc, session, line, steps),
            Heard::Nothing => Ok(Vec::new(alloc)),
            Heard::Bad(_) => Ok(bad_line(alloc, number)?.into_bytes()),
        }
    }

    /// Answers a line: what is said to it. Where memory runs out, nothing was entered for it, or just what answers it.
    pub fn answer<L: Ledger>(
        &mut self,
        alloc: Global,
        number: u32,
        line: &[u8],
        steps: &mut Steps<L>,
    ) -> Result<Vec<u8>, AllocError>
        requires ready { IsReady self.old.core }
        requires selected { IsSome (D.shelf_state self.old.core.opening).selected }
        requires stands { StandsSomehow (now_of self.old.core.history self.old.hearing self.old.seen
            (map (λ d. states_in state d.chest) self.old.desks.items) self.old.viewer.seen) }
        ensures goes_on { GoesOn self.old.core self.new.core }
        ensures answers { IfOk result (λ text. Answers number line.now
            (now_of self.old.core.history self.old.hearing self.old.seen
            (map (λ d. states_in state d.chest) self.old.desks.items) self.old.viewer.seen)
            (now_of self.new.core.history self.new.hearing self.new.seen
            (map (λ d. states_in state d.chest) self.new.desks.items) self.new.viewer.seen)
            text.items) }
        ensures cut { OnErr result (IsCutAt number line.now
            (now_of self.old.core.history self.old.hearing self.old.seen
            (map (λ d. states_in state d.chest) self.old.desks.items) self.old.viewer.seen)
            (now_of self.new.core.history self.new.hearing self.new.seen
            (map (λ d. states_in state d.chest) self.new.desks.items) self.new.viewer.seen)) }
        ensures made { OnOk result (IsCutAt number line.now
            (now_of self.old.core.history self.old.hearing self.old.seen
            (map (λ d. states_in state d.chest) self.old.desks.items) self.old.viewer.seen)
            (now_of self.new.core.history self.new.hearing self.new.seen
            (map (λ d. states_in state d.chest) self.new.desks.items) self.new.viewer.seen)) }
    {
        match request_of(line) {
            Some(Request::Look(session, window)) => show(
                alloc,
                &self.core,
                &mut self.viewer,
                session,
                window,
                steps,
            ),
            Some(Request::Wait(session)) => Ok(idle_line(alloc, session)?.into_bytes()),
            None => self.answer_script(alloc, number, line, steps),
        }
    }

    /// The core, when the talk has ended.
    pub fn into_core(self) -> Core<D>
        ensures { result ≡ self.core }
    {
        let Server { core, .. } = self;
        core
    }
}
