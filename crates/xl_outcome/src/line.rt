ghost use Rattle.std.specs.Prelude.{◌≡◌, string_bytes, IfOk};
ghost use Rattle.spec_command.specs.Ends.{stop_line, bad_line, flat_refused, refused};
ghost use Rattle.xl_outcome.specs.Lines.{WritesLine};

use spec_fields::ReadRefused;
use spec_flat::FlatRefused;
use std::alloc::{AllocError, Global};
use xl_fields::number_of;
use xl_flat::number_of as flat_number;
use xl_ports::{Sink, write_all};

/// Writes a line. Where the sink fails nothing else is written.
pub fn write_line<K: Sink>(sink: &mut K, text: &[u8])
    ensures { WritesLine K.held K.faults sink.old sink.new text.now }
{
    let _ = write_all(sink, text);
}

/// The line of a refused script.
pub fn bad_line_text(alloc: Global, number: u32) -> Result<String, AllocError>
    ensures { IfOk result (λ text. string_bytes text ≡ stop_line (bad_line number)) }
{
    format!(in alloc; "bad line {number}\n")
}

/// The line of a refused file.
pub fn refusal_text(alloc: Global, why: ReadRefused) -> Result<String, AllocError>
    ensures { IfOk result (λ text. string_bytes text ≡ stop_line (refused why)) }
{
    let kind = number_of(why.kind);
    let at = why.at;
    format!(in alloc; "file refused {kind} at {at}\n")
}

/// The line of an image that cannot be made flat.
pub fn flat_refusal_text(alloc: Global, why: FlatRefused) -> Result<String, AllocError>
    ensures { IfOk result (λ text. string_bytes text ≡ stop_line (flat_refused why)) }
{
    let number = flat_number(why);
    format!(in alloc; "flatten refused {number}\n")
}
