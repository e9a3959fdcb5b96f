ghost use Rattle.std.specs.Prelude.{◌≡◌, string_bytes, IfOk, MatchOption};
ghost use Rattle.spec_audit.specs.declared.Verdict.TheVariants.{Accepted};
ghost use Rattle.xl_printed.specs.Answers.{rejection_of, verdict_line};

use spec_audit::Verdict;
use std::alloc::{AllocError, Global};

/// Why an output is not accepted.
#[derive(Clone, Copy, Debug, PartialEq, Eq)]
pub enum Rejection {
    /// It has not the shape of an output of the script.
    Shape,
    /// The first reply that may not stand there is that of this call.
    Reply { session: u8, index: u32 },
}

/// The line that tells of a verdict.
pub fn verdict_line(alloc: Global, verdict: Verdict) -> Result<String, AllocError>
    ensures { IfOk result (λ text. string_bytes text ≡ verdict_line verdict) }
{
    match verdict {
        Verdict::Accepted => String::from_str(alloc, "accepted\n"),
        Verdict::Shape => String::from_str(alloc, "rejected 1\n"),
        Verdict::Reply { session, index } => { format!(in alloc; "rejected 2 {session}.{index}\n") }
    }
}

/// Why an output is not accepted, where it is not.
pub fn rejection_of(verdict: Verdict) -> Option<Rejection>
    ensures rejection { result ≡ rejection_of verdict }
    ensures accepted { MatchOption result (verdict ≡ Accepted) (λ _. verdict ≡ Accepted → ⊥) }
{
    match verdict {
        Verdict::Accepted => None,
        Verdict::Shape => Some(Rejection::Shape),
        Verdict::Reply { session, index } => Some(Rejection::Reply { session, index }),
    }
}
