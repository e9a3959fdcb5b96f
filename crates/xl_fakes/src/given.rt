// What a shelf in memory gives of the bytes of its selected name.
ghost use Rattle.std.specs.Prelude.{◌≡◌, ◌⊎◌, ◌≤◌, ◌++◌, ◌∷◌, [], Some, Ok, List, length, take, true, false, option_map};
ghost use Rattle.std.specs.Prelude.{IfOk, OnOk, OnErr, IsErr, IfSome, IsSome, is_err};
ghost use Rattle.xl_ports.specs.Faults.{HasCause, Rose};
ghost use Rattle.xl_ports.specs.Shelf.{absent, file, GivesPart};
ghost use Rattle.xl_fakes.specs.Fakes.{CountsStarved};
ghost use Rattle.xl_fakes.specs.Calls.{NextCallFails, with_reading};
ghost use Rattle.xl_fakes.specs.Given.{IsRefused};
ghost use Rattle.xl_fakes.specs.Kept.{Notes, NotesOrNot};

use crate::named_file::NamedFile;
use crate::settled::Settled;
use crate::shelf_calls::ShelfCalls;
use crate::steps::note;
use std::alloc::AllocError;
use xl_ports::Failed;

/// Records a call that reads the selected name, and gives the bytes from an offset on, unless the call is to fail.
pub fn give_noted(
    here: &Option<NamedFile>,
    log: &mut Vec<Option<Settled>>,
    calls: &ShelfCalls,
    at: u64,
    buf: &mut [u8],
) -> Result<Result<usize, Failed>, AllocError>
    requires { IsSome here.now }
    ensures within { IfOk result (λ given. IfOk given (λ k. k ≤ length buf.old)) }
    ensures given { IfOk result (λ given. IfOk given (λ k. IfSome (option_map (λ h. h.read) here.now)
        (λ c. GivesPart c at (length buf.old) (take k buf.new)))) }
    ensures fails { NextCallFails calls.now → IfOk result (λ given. IsErr given) }
    ensures absent { IsRefused result → NextCallFails calls.now
        ⊎ (option_map (λ h. h.read) here.now ≡ Some absent) }
    ensures noted { OnOk result (Notes log.old.items log.new.items) }
    ensures log { NotesOrNot log.old.items log.new.items }
{
    note(log)?;
    if calls.next_fails() {
        return Ok(Err(Failed));
    }
    Ok(give(here.as_ref().unwrap(), at, buf))
}

/// Counts a call that reads and came to this, and answers it.
pub fn end_giving(
    calls: &mut ShelfCalls,
    starved: &mut u64,
    given: Result<Result<usize, Failed>, AllocError>,
) -> Result<usize, Failed>
    requires { NextCallFails calls.old → IfOk given (λ answer. IsErr answer) }
    ensures given { IfOk result (λ k. given ≡ Ok (Ok k)) }
    ensures fails { NextCallFails calls.old → IsErr result }
    ensures starved { OnErr result (IsRefused given ⊎ NextCallFails calls.old ⊎ Rose starved.old starved.new) }
    ensures not_starved { OnOk result (starved.new ≡ starved.old) }
    ensures spared { NextCallFails calls.old → starved.new ≡ starved.old }
    ensures counted { CountsStarved starved.old starved.new }
    ensures calls { calls.new ≡ with_reading (is_err result) calls.old }
    ensures cause { HasCause calls.old.reading calls.new.reading result }
{
    if let Ok(answer) = given {
        calls.count_reading(answer.is_err());
        return answer;
    }
    if !calls.next_fails() {
        *starved = starved.saturating_add(1);
    }
    calls.count_reading(true);
    Err(Failed)
}

// The bytes that a read gives from an offset on, as many as there is room for.
fn give(kept: &NamedFile, at: u64, buf: &mut [u8]) -> Result<usize, Failed>
    ensures within { IfOk result (λ k. k ≤ length buf.old) }
    ensures given { IfOk result (λ k. GivesPart kept.now.read at (length buf.old)
        (take k buf.new)) }
    ensures absent { OnErr result (kept.now.read ≡ absent) }
{
    let Some(bytes) = kept.read() else {
        return Err(Failed);
    };
    Ok(give_rest(bytes, at, buf))
}

// The bytes from an offset on, as many as there is room for.
fn give_rest(bytes: &[u8], at: u64, buf: &mut [u8]) -> usize
    ensures within { result ≤ length buf.old }
    ensures given { GivesPart (file bytes.now) at (length buf.old) (take result buf.new) }
{
    if at >= bytes.len() as u64 {
        return 0;
    }
    let rest = &bytes[at as usize..];
    let taken = rest.len().min(buf.len());
    buf[..taken].copy_from_slice(&rest[..taken]);
    taken
}
