//! One line of a session: a call, a save, or a filter that it drops.
ghost use Rattle.std.specs.Prelude.{◌≡◌, ℕ, true, ◌++◌, map, IfErr, OnOk, List, Option, string_bytes};
ghost use Rattle.spec_filters.specs.declared.FilterState.{FilterState};
ghost use Rattle.spec_history.specs.Calls.{IsCall};
ghost use Rattle.spec_history.specs.Limited.{edits_of};
ghost use Rattle.spec_history.specs.Machine.{history_full};
ghost use Rattle.spec_script.specs.Script as script;
ghost use Rattle.spec_tables.specs.Agrees.{AreThere};
ghost use Rattle.spec_text.specs.Text.{is_save_memory};
ghost use Rattle.xl_calls.specs.Calls.{call_of};
ghost use Rattle.xl_calls.specs.Replies.{reply_of};
ghost use Rattle.xl_filters.specs.Chests.{states_in};
ghost use Rattle.xl_script.specs.Lines.{line_of};
ghost use Rattle.xl_studio.specs.Answered.{SeatGoesOn};
ghost use Rattle.xl_studio.specs.Calling.{HasHeard, IsNoTile};
ghost use Rattle.xl_studio.specs.Seats.{known_by, IsSeatOf};
ghost use Rattle.xl_sessions.specs.Keeping.{CanGoOn};
ghost use Rattle.xl_sessions.specs.Lines.{IsCallAnswered, IsLinePlayed, IsSaveAnswered};
ghost use Rattle.xl_sessions.specs.Playing.{said};
ghost use Rattle.xl_run.specs.Filters.{FitsChest};
ghost use Rattle.xl_run.specs.Printing.{IsPrinted};
ghost use Rattle.xl_run.specs.declared.unplayed.Unplayed.TheVariants.{HistoryFull, Memory};

use crate::setting::Setting;
use std::alloc::{AllocError, Global};
use std::sync::Wait;
use std::sync::ledger::Ledger;
use xl_blend::Steps;
use xl_calls::{Call, Reply};
use xl_filters::PointFilter;
use xl_ports::{Actor, Gate, Place, Shelf};
use xl_report::digest;
use xl_rle::Keeping;
use xl_run::{Unplayed, asks_tile};
use xl_script::Line;
use xl_studio::{Desk, Seat, Shift};

// Why a run with this reply prints nothing, where it prints nothing.
fn check_printed(reply: &Reply) -> Result<(), Unplayed>
    ensures printed { OnOk result (IsPrinted (reply_of reply.now)) }
    ensures full { IfErr result (λ why. why ≡ HistoryFull → reply_of reply.now ≡ history_full) }
    ensures memory { IfErr result (λ why. why ≡ Memory → is_save_memory (reply_of reply.now)
        ≡ true) }
{
    match reply {
        Reply::SaveMemory { .. } => Err(Unplayed::Memory),
        Reply::HistoryFull => Err(Unplayed::HistoryFull),
        _ => Ok(()),
    }
}

// Appends the digest of the tile in the desk, where a tile was asked for and is the reply.
fn say(
    alloc: Global,
    asks: bool,
    reply: &Reply,
    desk: &Desk,
    digests: &mut Vec<String>,
) -> Result<(), AllocError>
    ensures { OnOk result (map string_bytes digests.new.items
        ≡ map string_bytes digests.old.items ++ said asks (reply_of reply.now) desk.now.out) }
{
    if let Reply::Tile { .. } = reply {
        if asks {
            let text = digest(alloc, desk.out.bytes())?;
            digests.push(text)?;
        }
    }
    Ok(())
}

impl<'a, W: Wait, D: Shelf, G: Gate> Setting<'a, W, D, G> {
    // Composes a marked tile outside the turn, before the call that asks for it. It does nothing before any other call.
    fn refresh_asked<L: Ledger>(&self, call: &Call, seat: &mut Seat<D>, steps: &mut Steps<L>)
        requires seat { IsSeatOf self.now.studio.now seat.old }

        ensures goes_on { SeatGoesOn self.now.studio.now seat.old seat.new }
        ensures heard { HasHeard (known_by seat.old) (known_by seat.new) }
        ensures no_tile { IsNoTile (call_of call.now) → known_by seat.new ≡ known_by seat.old }
    {
        if let Call::Tile(node, at) = call {
            let _finished = self
                .studio
                .refresh(self.rt, self.alloc, seat, *node, *at, steps);
        }
    }

    // Makes a call of a session, in its shift, and passes the gate before it and after it. A marked tile that it asks for
    // is composed first.
    fn make_call<L: Ledger>(
        &self,
        call: Call,
        desk: &mut Desk,
        seat: &mut Seat<D>,
        steps: &mut Steps<L>,
        shift: &mut Shift,
    ) -> Result<Reply, AllocError>
        requires seat { CanGoOn self.now.studio.now self.now.session seat.old }
        requires call { IsCall (call_of call) }
        requires there { AreThere (states_in state desk.old.chest) (edits_of (call_of call)) }

        ensures { IsCallAnswered self.now.studio.now self.now.session (call_of call) result
            seat.old seat.new (states_in state desk.old.chest) (states_in state desk.new.chest)
            desk.new.out }
    {
        self.gate
            .pass(Actor::Session(self.session), Place::BeforeCall);
        self.studio.come(self.rt, &call, shift);
        self.refresh_asked(&call, seat, steps);
        let reply = self
            .studio
            .call(self.rt, self.alloc, seat, self.session, call, desk, steps);
        self.gate
            .pass(Actor::Session(self.session), Place::AfterCall);
        reply
    }

    // Makes a call of a session, and appends the digest of the tile that it is shown.
    fn play_call<L: Ledger>(
        &self,
        call: Call,
        desk: &mut Desk,
        seat: &mut Seat<D>,
        steps: &mut Steps<L>,
        digests: &mut Vec<String>,
        shift: &mut Shift,
    ) -> Result<(), Unplayed>
        requires seat { CanGoOn self.now.studio.now self.now.session seat.old }
        requires call { IsCall (call_of call) }
        requires there { AreThere (states_in state desk.old.chest) (edits_of (call_of call)) }

        ensures { IsLinePlayed D.shelf_state self.now.studio.now self.now.session
            (script.call (call_of call)) result seat.old seat.new (states_in state desk.old.chest)
            (states_in state desk.new.chest) (map string_bytes digests.old.items)
            (map string_bytes digests.new.items) }
    {
        let asks = asks_tile(&call);
        let reply = self.make_call(call, desk, seat, steps, shift)?;
        check_printed(&reply)?;
        say(self.alloc, asks, &reply, desk, digests)?;
        Ok(())
    }

    // Makes a save of a session, and passes the gate before it and after it.
    fn make_save(&self, seat: &mut Seat<D>) -> Result<Reply, AllocError>
        requires { CanGoOn self.now.studio.now self.now.session seat.old }

        ensures { IsSaveAnswered D.shelf_state self.now.studio.now self.now.session result seat.old
            seat.new }
    {
        self.gate
            .pass(Actor::Session(self.session), Place::BeforeCall);
        let mut coder = Keeping;
        let reply = self
            .studio
            .save(self.rt, self.alloc, seat, self.session, &mut coder);
        self.gate
            .pass(Actor::Session(self.session), Place::AfterCall);
        reply
    }

    // Makes a save of a session, which ends the session where its reply has no text.
    fn play_save(&self, seat: &mut Seat<D>) -> Result<(), Unplayed>
        requires { CanGoOn self.now.studio.now self.now.session seat.old }

        ensures { (chest : List (Option FilterState)) (digests : List (List ℕ))
            → IsLinePlayed D.shelf_state self.now.studio.now self.now.session script.save result
            seat.old seat.new chest chest digests digests }
    {
        let reply = self.make_save(seat)?;
        check_printed(&reply)
    }

    // Makes what a line of a session says.
    pub(crate) fn play_line<L: Ledger>(
        &self,
        line: Line,
        desk: &mut Desk,
        seat: &mut Seat<D>,
        steps: &mut Steps<L>,
        digests: &mut Vec<String>,
        shift: &mut Shift,
    ) -> Result<(), Unplayed>
        requires seat { CanGoOn self.now.studio.now self.now.session seat.old }
        requires fit { FitsChest (states_in state desk.old.chest) (line_of line) }

        ensures { IsLinePlayed D.shelf_state self.now.studio.now self.now.session (line_of line)
            result seat.old seat.new (states_in state desk.old.chest)
            (states_in state desk.new.chest) (map string_bytes digests.old.items)
            (map string_bytes digests.new.items) }
    {
        match line {
            Line::Call(call) => self.play_call(call, desk, seat, steps, digests, shift),
            Line::Save => {
                self.studio.go(shift);
                self.play_save(seat)
            }
            Line::Forget(slot) => {
                desk.chest.forget(slot);
                Ok(())
            }
        }
    }
}
