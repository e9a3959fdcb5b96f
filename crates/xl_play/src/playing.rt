//! The run of a script of session 0 alone, without threads.
ghost use Rattle.spec_filters.specs.declared.FilterState.{FilterState};
ghost use Rattle.spec_history.specs.Calls.{IsCall};
ghost use Rattle.spec_history.specs.History.{next_index};
ghost use Rattle.spec_history.specs.Limited.{edits_of};
ghost use Rattle.spec_run.specs.Failed.{WhetherFailed};
ghost use Rattle.spec_saves.specs.Names.{ends_by_fault, save_faults};
ghost use Rattle.spec_script.specs.Script as script;
ghost use Rattle.spec_script.specs.Script.{list_at};
ghost use Rattle.spec_tables.specs.Agrees.{AreThere};
ghost use Rattle.spec_text.specs.Text.{calls_of};
ghost use Rattle.std.specs.Prelude.{◌≡◌, ◌*◌, ◌<◌, List, [], ◌∷◌, length, map, IfOk, OnOk, Option, string_bytes};
ghost use Rattle.xl_calls.specs.Calls.{call_of};
ghost use Rattle.xl_calls.specs.Replies.{reply_of};
ghost use Rattle.xl_filters.specs.Chests.{states_in, states_of};
ghost use Rattle.xl_play.specs.Playing.{AreForSession, AreLinesPlayed, CanPlay, IsLinePlayed, IsOpened, shown_of};
ghost use Rattle.xl_play.specs.Told.{IsScriptOfFirst, IsScriptPlayed};
ghost use Rattle.xl_run.specs.Filters.{FitsChest};
ghost use Rattle.xl_script.specs.Lines.{line_of, lines_of, lists_of};

use crate::saving::save_latest;
use crate::transcript::Transcript;
use std::alloc::{AllocError, Global};
use std::marker::Brand;
use std::sync::ledger::{Blank, Ledger};
use xl_blend::Steps;
use xl_calls::{Call, Reply};
use xl_filters::PointFilter;
use xl_ports::{Actor, Gate, Place, Shelf};
use xl_report::digest;
use xl_run::{Core, Desk, Entry, EntryKind, desk_of, first_boxes, order_words};
use xl_script::{Line, Script, print_order, print_reply};

/// The session that is alone.
pub(crate) const ALONE: u8 = 0;

/// The text of a run, and whether one of its saves failed.
#[derive(Drop)]
pub struct Replies {
    pub text: String,
    pub save_failed: bool,
}

// The digest that the line of a reply has: that of the tile in the desk, where the reply is one.
fn shown_digest(alloc: Global, reply: &Reply, desk: &Desk) -> Result<String, AllocError>
    ensures { IfOk result (λ text. string_bytes text ≡ shown_of (reply_of reply.now) desk.now.out) }
{
    match reply {
        Reply::Tile { .. } => digest(alloc, desk.out.bytes()),
        _ => Ok(String::new(alloc)),
    }
}

// Makes a call of session 0, passes the gate before it and after it, and prints its line.
fn play_call<L: Ledger, D: Shelf, G: Gate>(
    alloc: Global,
    core: &mut Core<D>,
    gate: &G,
    call: Call,
    desk: &mut Desk,
    steps: &mut Steps<L>,
    transcript: &mut Transcript,
) -> Result<(), AllocError>
    requires can { CanPlay D.shelf_state 2 core.old transcript.old.index
        (string_bytes transcript.old.text) }
    requires call { IsCall (call_of call) }
    requires there { AreThere (states_in state desk.old.chest) (edits_of (call_of call)) }
    ensures { IsLinePlayed result core.old core.new (script.call (call_of call))
        (states_in state desk.old.chest) (states_in state desk.new.chest)
        (string_bytes transcript.new.text) }
{
    let seen = core.version();
    gate.pass(Actor::Session(ALONE), Place::BeforeCall);
    let reply = core.submit(alloc, ALONE, call, seen, desk, steps)?;
    gate.pass(Actor::Session(ALONE), Place::AfterCall);
    let digest = shown_digest(alloc, &reply, desk)?;
    print_reply(
        alloc,
        &mut transcript.text,
        ALONE,
        transcript.index,
        &reply,
        digest.as_str(),
    )
}

// Makes a save of session 0, passes the gate before it and after it, and prints its line.
fn play_save<D: Shelf, G: Gate>(
    alloc: Global,
    core: &mut Core<D>,
    gate: &G,
    transcript: &mut Transcript,
) -> Result<(), AllocError>
    requires { CanPlay D.shelf_state 2 core.old transcript.old.index
        (string_bytes transcript.old.text) }
    ensures { (chest : List (Option FilterState)) → IsLinePlayed result core.old core.new
        script.save chest chest (string_bytes transcript.new.text) }
{
    gate.pass(Actor::Session(ALONE), Place::BeforeCall);
    let reply = save_latest(alloc, core, ALONE)?;
    gate.pass(Actor::Session(ALONE), Place::AfterCall);
    print_reply(
        alloc,
        &mut transcript.text,
        ALONE,
        transcript.index,
        &reply,
        "",
    )
}

// Makes what a line says, and prints its line.
fn play_line<L: Ledger, D: Shelf, G: Gate>(
    alloc: Global,
    core: &mut Core<D>,
    gate: &G,
    line: Line,
    desk: &mut Desk,
    steps: &mut Steps<L>,
    transcript: &mut Transcript,
) -> Result<(), AllocError>
    requires can { CanPlay D.shelf_state (2 * length (calls_of (line_of line ∷ []))) core.old
        transcript.old.index (string_bytes transcript.old.text) }
    requires fit { FitsChest (states_in state desk.old.chest) (line_of line) }
    ensures comes { IsLinePlayed result core.old core.new (line_of line)
        (states_in state desk.old.chest) (states_in state desk.new.chest)
        (string_bytes transcript.new.text) }
    ensures next { OnOk result (transcript.new.index ≡ next_index core.new.history.entries 0) }
{
    match line {
        Line::Call(call) => {
            let index = transcript.index;
            play_call(alloc, core, gate, call, desk, steps, transcript)?;
            transcript.index = index + 1;
            Ok(())
        }
        Line::Save => {
            let index = transcript.index;
            play_save(alloc, core, gate, transcript)?;
            transcript.index = index + 1;
            Ok(())
        }
        Line::Forget(slot) => {
            desk.chest.forget(slot);
            Ok(())
        }
    }
}

// Makes the calls and saves of session 0 one after another, and answers their lines. The boxes are dropped in the end.
fn play_lines<L: Ledger, D: Shelf, G: Gate>(
    alloc: Global,
    core: &mut Core<D>,
    gate: &G,
    lines: Vec<Line>,
    boxes: Vec<Box<dyn PointFilter + Send>>,
    blank: Blank,
) -> Result<String, AllocError>
    requires name { blank.name ≡ L.name }
    requires parts { blank.parts ≡ L.parts }
    requires some { 0 < blank.parts }
    requires opened { IsOpened D.shelf_state core.old }
    requires lines { AreForSession (length boxes.items) (lines_of lines.items) }
    ensures { AreLinesPlayed result core.old core.new (map (λ b. state b) boxes.items)
        (lines_of lines.items) }
{
    let mut desk = desk_of(alloc, boxes)?;
    let mut steps = Steps::<L>::new(blank);
    let text = String::new(alloc);
    let mut transcript = Transcript { index: 0, text };
    for line in lines {
        play_line(
            alloc,
            core,
            gate,
            line,
            &mut desk,
            &mut steps,
            &mut transcript,
        )?;
    }
    Ok(transcript.text)
}

/// The lines of session 0.
pub(crate) fn first_lines(script: Script) -> Vec<Line>
    ensures { lines_of result.items ≡ list_at (lists_of script) 0 }
{
    let mut lists = script.into_lists();
    lists.remove(0).into_items()
}

// Whether an entry is the end of a save that failed.
fn ends_by_fault(entry: &Entry) -> bool
    ensures { result ≡ ends_by_fault entry.now.kind entry.now.reply }
{
    match entry.kind {
        EntryKind::End => matches!(entry.reply, Reply::SaveFault { .. }),
        EntryKind::Asked { .. } | EntryKind::Start => false,
    }
}

/// Whether a save failed.
pub fn has_save_fault(entries: &[Entry]) -> bool
    ensures { WhetherFailed result (save_faults entries.now) }
{
    for entry in entries {
        if ends_by_fault(entry) {
            return true;
        }
    }
    false
}

/// Makes the calls and saves of session 0, which is alone, without threads or workers. Answers the text of the run,
/// which has a line for each call and save and the order line, and whether a save failed.
pub fn play<D: Shelf, G: Gate>(
    alloc: Global,
    core: &mut Core<D>,
    gate: &G,
    script: Script,
    mut chest: Vec<Vec<Box<dyn PointFilter + Send>>>,
) -> Result<Replies, AllocError>
    requires opened { IsOpened D.shelf_state core.old }
    requires script { IsScriptOfFirst (λ b. state b) (lists_of script) chest.items }
    ensures { IsScriptPlayed result core.old core.new (lists_of script)
        (states_of (λ b. state b) chest.items) }
{
    let lines = first_lines(script);
    let boxes = first_boxes(alloc, &mut chest);
    let mut text = play_lines::<Brand, D, G>(alloc, core, gate, lines, boxes, Blank::new(1))?;
    let words = order_words(alloc, core.entries())?;
    print_order(alloc, &mut text, words.as_slice())?;
    let save_failed = has_save_fault(core.entries());
    Ok(Replies { text, save_failed })
}
