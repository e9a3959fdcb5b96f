ghost use Rattle.std.specs.Prelude.{◌≡◌, ◌≤◌, ◌+◌, ℕ, List, length, IfOk, OnOk, Some};
ghost use Rattle.spec_audit.specs.Limited.{AreNumbers};
ghost use Rattle.spec_script.specs.Fits.{FitsFilters};
ghost use Rattle.xl_ports.specs.Source.{led_by, IsEnded};
ghost use Rattle.xl_script.specs.Lines.{lists_of};
ghost use Rattle.xl_printed.specs.Reading.{HasCause, ReadsAudit};

use crate::source::split_source;
use spec_audit::MAX_SOURCE_BYTES;
use std::alloc::Global;
use xl_ports::{FailedOrMemory, Source, read_all};
use xl_script::{BadLine, BadLineOrMemory, Script, parse};

/// How much of a source is read: one byte more than it may have.
const MOST_BYTES: usize = MAX_SOURCE_BYTES + 1;

/// A script, and the output that is judged by it.
#[derive(Drop)]
pub struct Audit {
    pub script: Script,
    pub output: Vec<u8>,
}

/// Why a source is no audit.
#[derive(Clone, Copy)]
pub enum Unread {
    /// The source failed.
    SourceFault,
    /// The first line does not say how long the script is, or there are too few bytes behind it, or too many.
    BadHead,
    /// The script is refused at a line.
    BadLine(BadLine),
    /// Memory ran out.
    Memory,
}

// The script and a copy of the output of a whole source. `counts` are the numbers of the sessions' filters.
fn parse_audit(alloc: Global, bytes: &[u8], counts: &[u32]) -> Result<Audit, Unread>
    ensures reads { ReadsAudit (Some bytes.now) counts.now result }
    ensures fits { IfOk result (λ audit. FitsFilters counts.now (lists_of audit.script)) }
    ensures cause { (faults : ℕ) → HasCause faults faults result }
{
    let Some((script, output)) = split_source(bytes) else {
        return Err(Unread::BadHead);
    };
    let script = match parse(alloc, script, counts) {
        Ok(script) => script,
        Err(BadLineOrMemory::Refused(bad)) => return Err(Unread::BadLine(bad)),
        Err(BadLineOrMemory::Memory) => return Err(Unread::Memory),
    };
    match output.to_vec(alloc) {
        Ok(output) => Ok(Audit { script, output }),
        Err(_) => Err(Unread::Memory),
    }
}

/// The script and the output that a source has left. `counts` are the numbers of the sessions' filters.
///
/// A source is read to its end, unless it has more than `MAX_SOURCE_BYTES`. The head is looked at before the script.
pub fn read_audit<S: Source>(alloc: Global, source: &mut S, counts: &[u32]) -> Result<Audit, Unread>
    ensures reads { ReadsAudit (S.left source.old) counts.now result }
    ensures fits { IfOk result (λ audit. FitsFilters counts.now (lists_of audit.script)) }
    ensures numbers { IfOk result (λ audit. AreNumbers (lists_of audit.script)) }
    ensures takes { (bytes : List ℕ) × (S.left source.old ≡ led_by bytes (S.left source.new))
        × (length bytes ≤ MAX_SOURCE_BYTES + 1) }
    ensures few_reads { S.reads source.new ≤ S.reads source.old + (MAX_SOURCE_BYTES + 1) }
    ensures ended { OnOk result (IsEnded (S.left source.new)) }
    ensures cause { HasCause (S.faults source.old) (S.faults source.new) result }
{
    let bytes = match read_all(alloc, source, MOST_BYTES) {
        Ok(bytes) => bytes,
        Err(FailedOrMemory::Failed) => return Err(Unread::SourceFault),
        Err(FailedOrMemory::Memory) => return Err(Unread::Memory),
    };
    parse_audit(alloc, bytes.as_slice(), counts)
}
