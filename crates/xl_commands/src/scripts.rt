ghost use Rattle.std.specs.Prelude.{◌≡◌, ◌<◌, ◌^◌, length, map, IfOk, OnOk};
ghost use Rattle.std.specs.List.{AllByRecursion};
ghost use Rattle.spec_script.specs.Fits.{FitsFilters};
ghost use Rattle.xl_filters.specs.Chests.{states_of};
ghost use Rattle.xl_outcome.specs.Outcome.{given_of, SourceCause, TakesFront};
ghost use Rattle.xl_outcome.specs.Parts.{ReadsScript};
ghost use Rattle.xl_ports.specs.Source.{IsEnded};
ghost use Rattle.xl_script.specs.Lines.{lists_of};

use std::alloc::{AllocError, Global};
use xl_filters::PointFilter;
use xl_outcome::Stopped;
use xl_play::filter_counts;
use xl_ports::{FailedOrMemory, Source, read_all};
use xl_script::{BadLineOrMemory, MAX_SCRIPT_BYTES, Script, parse};

/// How much of a script is read: one byte more than it may have.
pub(crate) const MOST_BYTES: usize = MAX_SCRIPT_BYTES + 1;

/// The lines of the sessions of a script.
pub fn read_script<S: Source>(
    alloc: Global,
    source: &mut S,
    chest: &Vec<Vec<Box<dyn PointFilter + Send>>>,
) -> Result<Script, Stopped>
    requires { AllByRecursion (λ boxes. length boxes.items < 2 ^ 32) chest.now.items }
    ensures reads { ReadsScript (given_of (S.left source.old) (λ b. state b) chest.now.items)
        result }
    ensures fits { IfOk result
        (λ script. FitsFilters (map length (states_of (λ b. state b) chest.now.items))
        (lists_of script)) }
    ensures takes { TakesFront S.left S.faults S.reads source.old source.new }
    ensures ended { OnOk result (IsEnded (S.left source.new)) }
    ensures cause { SourceCause (S.faults source.old) (S.faults source.new) result }
{
    let text = match read_all(alloc, source, MOST_BYTES) {
        Ok(text) => text,
        Err(FailedOrMemory::Failed) => return Err(Stopped::SourceFault),
        Err(FailedOrMemory::Memory) => return Err(Stopped::Memory),
    };
    let Ok(counts) = filter_counts(alloc, chest) else {
        return Err(Stopped::Memory);
    };
    match parse(alloc, &text, &counts) {
        Ok(script) => Ok(script),
        Err(BadLineOrMemory::Refused(bad)) => Err(Stopped::BadLine(bad)),
        Err(BadLineOrMemory::Memory) => Err(Stopped::Memory),
    }
}
