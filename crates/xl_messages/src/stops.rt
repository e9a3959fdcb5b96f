use crate::asked::{Asked, asked_of, file_of};
use crate::faults::fault_text;
use crate::lines::cause_text;
use crate::names::shown;
use crate::packed::packed_name;
use crate::words::words_fault;
use spec_audit::MAX_SOURCE_BYTES;
use spec_fields::{Kind, ReadRefused};
use spec_script::MAX_SCRIPT_BYTES;
use std::alloc::{AllocError, Global};
use std::slice::EscapeAscii;
use xl_command::Command;
use xl_outcome::{MEMORY, Rejection, Stopped};
use xl_script::BadLine;

const USAGE: &str =
    "the commands are\n  xcfedit render FILE              writes the picture of FILE as a PAM\n  xcfedit info FILE [--all]        writes the layers of FILE as a line of JSON, with --all also its locks, colours and texts\n  xcfedit edit FILE [--workers N]  runs a script from standard input on FILE, N from 0 to 8\n  xcfedit serve FILE               answers the lines of a script on FILE from standard input, each as it comes, also with pixels\n  xcfedit make FILE --seed N       saves the document of the seed N, runs the seed's script on FILE and sums the run up in a line\n  xcfedit pack FILE [--plan]       saves FILE as small as it can be with run-length coded tiles\n  xcfedit flatten FILE             puts one layer in the place of all nodes of FILE\n  xcfedit view FILE --cols W --rows H  runs a script of session 0 on FILE, a tile with its neighbours, W and H from 1 to 16\n  xcfedit audit FILE               judges a script and what an edit of FILE by it is said to have printed, from standard input";

/// The version of the program, which stands in the manual page and in the changelog too.
pub const VERSION: &str = "0.1.0";

/// A sentence on how the words came to this status, other than 0: which file, what is wrong and where. `cause` is that
/// of `Ended` of `xl_program`, and `found` what `load_found` read of the file. It has no newline at its end.
pub fn message<'a>(
    alloc: Global,
    words: &'a [&'a str],
    status: u8,
    cause: Option<Stopped>,
    found: &[u8],
) -> Result<String, AllocError> {
    let asked = asked_of(alloc, words)?;
    if status == MEMORY {
        return memory_text(alloc, asked);
    }
    let (Some(asked), Some(stopped)) = (asked, cause) else {
        return usage_text(alloc, words);
    };
    stop_text(alloc, asked, stopped, found)
}

// That memory ran out, and with which file.
fn memory_text(alloc: Global, asked: Option<Asked<'_>>) -> Result<String, AllocError> {
    match asked {
        Some(asked) => {
            let name = shown(file_of(asked));
            format!(in alloc; "{name}: out of memory")
        }
        None => String::from_str(alloc, "out of memory"),
    }
}

// What is wrong with words that are no command, and the commands.
fn usage_text(alloc: Global, words: &[&str]) -> Result<String, AllocError> {
    let fault = words_fault(alloc, words)?;
    format!(in alloc; "xcfedit {VERSION}: {fault}; {USAGE}")
}

fn stop_text(
    alloc: Global,
    asked: Asked<'_>,
    stopped: Stopped,
    found: &[u8],
) -> Result<String, AllocError> {
    let name = shown(file_of(asked));
    match stopped {
        Stopped::SourceFault => String::from_str(alloc, "the script cannot be read"),
        Stopped::BadHead => head_text(alloc),
        Stopped::BadLine(bad) => bad_line_text(alloc, asked, bad),
        Stopped::ShelfFault => shelf_text(alloc, asked),
        Stopped::Refused(refused) => refusal_text(alloc, name, refused, found),
        Stopped::NotFlattened(why) => format!(in alloc;
            "{name}: the image cannot be made flat: {why}"
        ),
        Stopped::SaveFault => format!(in alloc; "{name}: a save failed"),
        Stopped::Rejected(why) => rejection_text(alloc, name, why),
        Stopped::SinkFault => format!(in alloc; "{name}: the output cannot be written"),
        Stopped::Memory => memory_text(alloc, Some(asked)),
    }
}

// What is wrong with the input of an audit.
fn head_text(alloc: Global) -> Result<String, AllocError> {
    format!(in alloc;
        "the input is no line \"script N\" with N bytes of a script behind it, N from 0 to {MAX_SCRIPT_BYTES}, and the output; it has {MAX_SOURCE_BYTES} bytes at most"
    )
}

// The line at which a talk or a script is refused.
fn bad_line_text(alloc: Global, asked: Asked<'_>, bad: BadLine) -> Result<String, AllocError> {
    match asked {
        Asked::Command(_) => line_text(alloc, bad),
        Asked::Serve(_) => talk_text(alloc, bad.line),
    }
}

// The line that ends a talk. Any other bad one is answered, and the talk goes on.
fn talk_text(alloc: Global, line: u32) -> Result<String, AllocError> {
    match line {
        u32::MAX => format!(in alloc; "line {line}: a talk has fewer lines"),
        _ => format!(in alloc; "line {line}: it has more than {MAX_SCRIPT_BYTES} bytes"),
    }
}

// The bad line of a script.
fn line_text(alloc: Global, bad: BadLine) -> Result<String, AllocError> {
    let line = bad.line;
    let fault = cause_text(alloc, bad.cause)?;
    format!(in alloc; "script line {line}: {fault}")
}

// A fault of the shelf before the output: what is made is not read, but saved, and two commands may have failed at
// either.
fn shelf_text(alloc: Global, asked: Asked<'_>) -> Result<String, AllocError> {
    let name = shown(file_of(asked));
    let done = match asked {
        Asked::Serve(_) => "read",
        Asked::Command(command) => use_of(command),
    };
    format!(in alloc; "{name}: the file cannot be {done}")
}

// What a command does with its file before it writes anything.
fn use_of(command: Command<'_>) -> &'static str {
    match command {
        Command::Make(_, _) => "saved",
        Command::Edit(_, _)
        | Command::Render(_)
        | Command::Info(_, _)
        | Command::View(_, _, _)
        | Command::Audit(_) => "read",
        Command::Pack(_, _) | Command::Flatten(_) => "read or saved",
    }
}

// Why what was printed is none of the script's runs.
fn rejection_text(
    alloc: Global,
    name: EscapeAscii<'_>,
    why: Rejection,
) -> Result<String, AllocError> {
    match why {
        Rejection::Shape => format!(in alloc;
            "{name}: the output is not one line for each call of the script and the line of their order"
        ),
        Rejection::Reply { session, index } => format!(in alloc;
            "{name}: the reply of call {index} of session {session}, both counted from 0, is none that may stand there"
        ),
    }
}

// A packed file is told as such. Else it is told what is wrong with the file, and where.
fn refusal_text(
    alloc: Global,
    name: EscapeAscii<'_>,
    refused: ReadRefused,
    found: &[u8],
) -> Result<String, AllocError> {
    if refused.kind == Kind::NotXcf
        && let Some(packed) = packed_name(found)
    {
        return format!(in alloc; "{name}: this is {packed}; unpack it first");
    }
    let fault = fault_text(alloc, refused, found)?;
    let at = refused.at;
    format!(in alloc; "{name}: {fault}, at byte {at}")
}
