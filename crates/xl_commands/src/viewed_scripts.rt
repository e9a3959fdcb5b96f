ghost use Rattle.std.specs.Prelude.{◌≡◌, ◌<◌, ◌^◌, [], ◌∷◌, length, IfOk, OnOk};
ghost use Rattle.std.specs.List.{AllByRecursion};
ghost use Rattle.spec_script.specs.Fits.{FitsFilters};
ghost use Rattle.spec_script.specs.Script.{list_at};
ghost use Rattle.spec_view.specs.Script.{IsViewedLine};
ghost use Rattle.xl_filters.specs.Chests.{states_of};
ghost use Rattle.xl_outcome.specs.Outcome.{given_of, SourceCause, TakesFront};
ghost use Rattle.xl_outcome.specs.Parts.{ReadsViewed};
ghost use Rattle.xl_ports.specs.Source.{IsEnded};
ghost use Rattle.xl_script.specs.Lines.{lists_of};

use crate::scripts::MOST_BYTES;
use std::alloc::Global;
use xl_filters::PointFilter;
use xl_outcome::Stopped;
use xl_ports::{FailedOrMemory, Source, read_all};
use xl_script::{BadLineOrMemory, Script, parse_viewed};

// How many filters session 0 has.
fn first_count(chest: &[Vec<Box<dyn PointFilter + Send>>]) -> u32
    requires { AllByRecursion (λ boxes. length boxes.items < 2 ^ 32) chest.now }
    ensures { result ≡ length (list_at (states_of (λ b. state b) chest.now) 0) }
{
    match chest.first() {
        Some(boxes) => boxes.len() as u32,
        None => 0,
    }
}

// The lines of session 0 of a script that may be viewed.
pub(crate) fn read_viewed<S: Source>(
    alloc: Global,
    source: &mut S,
    chest: &Vec<Vec<Box<dyn PointFilter + Send>>>,
) -> Result<Script, Stopped>
    requires { AllByRecursion (λ boxes. length boxes.items < 2 ^ 32) chest.now.items }
    ensures reads { ReadsViewed (given_of (S.left source.old) (λ b. state b) chest.now.items)
        result }
    ensures fits { IfOk result
        (λ script. FitsFilters (length (list_at (states_of (λ b. state b) chest.now.items) 0) ∷ [])
        (lists_of script)) }
    ensures viewed { IfOk result (λ script. AllByRecursion IsViewedLine
        (list_at (lists_of script) 0)) }
    ensures takes { TakesFront S.left S.faults S.reads source.old source.new }
    ensures ended { OnOk result (IsEnded (S.left source.new)) }
    ensures cause { SourceCause (S.faults source.old) (S.faults source.new) result }
{
    let text = match read_all(alloc, source, MOST_BYTES) {
        Ok(text) => text,
        Err(FailedOrMemory::Failed) => return Err(Stopped::SourceFault),
        Err(FailedOrMemory::Memory) => return Err(Stopped::Memory),
    };
    match parse_viewed(alloc, &text, first_count(chest)) {
        Ok(script) => Ok(script),
        Err(BadLineOrMemory::Refused(bad)) => Err(Stopped::BadLine(bad)),
        Err(BadLineOrMemory::Memory) => Err(Stopped::Memory),
    }
}
