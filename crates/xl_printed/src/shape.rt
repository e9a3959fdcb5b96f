ghost use Rattle.std.specs.Prelude.{◌≡◌, ◌<◌, ◌≤◌, ◌^◌, ◌∷◌, [], ◌++◌, length, map, IfOk, MatchOption};
ghost use Rattle.std.specs.List.{AllByRecursion};
ghost use Rattle.spec_document.specs.Rect.{count_from};
ghost use Rattle.spec_text.specs.Text.{calls_of};
ghost use Rattle.spec_audit.specs.Output as output;
ghost use Rattle.spec_audit.specs.Output.{IsShaped, HasFewCalls};
ghost use Rattle.xl_script.specs.Lines.{lines_of, lists_of};
ghost use Rattle.xl_printed.specs.Merging.{saves_along, saves_of};

use crate::merging::{Saves, is_merge};
use crate::output::{Output, read_output};
use std::alloc::{AllocError, Global};
use xl_script::{Line, SESSIONS, Script};

// Which calls of a session are saves.
fn session_saves(alloc: Global, lines: &[Line]) -> Result<Saves, AllocError>
    ensures { IfOk result (λ saves. saves ≡ saves_along (calls_of (lines_of lines.now))) }
{
    let mut saves = Saves::new(alloc);
    for line in lines {
        match line {
            Line::Call(_) => saves.push(false)?,
            Line::Save => saves.push(true)?,
            Line::Forget(_) => {}
        }
    }
    Ok(saves)
}

// Which calls of each session are saves.
fn script_saves(alloc: Global, script: &Script) -> Result<Vec<Saves>, AllocError>
    ensures { IfOk result (λ saves. saves.items ≡ saves_of (lists_of script.now)) }
{
    let mut saves = Vec::new(alloc);
    for session in 0..SESSIONS {
        saves.push(session_saves(alloc, script.lines(session))?)?;
    }
    Ok(saves)
}

// How many calls each session has.
fn counts(alloc: Global, saves: &[Saves]) -> Result<Vec<u32>, AllocError>
    requires { AllByRecursion (λ s. length s < 2 ^ 32) saves.now }
    ensures { IfOk result (λ counts. counts.items ≡ map length saves.now) }
{
    let mut counts = Vec::new(alloc);
    for session in saves {
        counts.push(session.len() as u32)?;
    }
    Ok(counts)
}

/// What an output says, where it has the shape of a run of the script. None where it has not.
pub fn read_shaped<'a>(
    alloc: Global,
    script: &Script,
    text: &'a [u8],
) -> Result<Option<Output<'a>>, AllocError>
    requires { HasFewCalls (lists_of script.now) }
    ensures { IfOk result (λ o. MatchOption o
        ((p : output.Output) → IsShaped (lists_of script.now) text.now p → ⊥)
        (λ p. IsShaped (lists_of script.now) text.now p)) }
{
    let saves = script_saves(alloc, script)?;
    let counts = counts(alloc, saves.as_slice())?;
    let Some(output) = read_output(alloc, counts.as_slice(), text)? else {
        return Ok(None);
    };
    if is_merge(saves.as_slice(), output.order.as_slice()) {
        Ok(Some(output))
    } else {
        Ok(None)
    }
}
