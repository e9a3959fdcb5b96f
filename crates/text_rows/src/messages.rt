//! Sentences on why a command stopped.
use spec_fields::{Kind, ReadRefused};
use std::alloc::{AllocError, Global};
use std::test::Fail;
use xl_messages::{VERSION, message};
use xl_outcome::{Rejection, Stopped};
use xl_script::{BadLine, BadLineOrMemory, Cause, Script, parse, parse_viewed};

const EDIT: [&'static str; 2] = ["edit", "photo.xcf"];

const MAKE: [&'static str; 4] = ["make", "photo.xcf", "--seed", "7"];

const AUDIT: [&'static str; 2] = ["audit", "photo.xcf"];

const SERVE: [&'static str; 2] = ["serve", "photo.xcf"];

/// Scripts of sessions with four filters, and what is said of each.
const BAD_SCRIPTS: [(&'static [u8], &'static str); 24] = [
    (b"0 top\n0 blur 1\n", "script line 2: unknown word \"blur\""),
    (b"8 top", "script line 1: \"8\" is no session from 0 to 7"),
    (b"7\n", "script line 1: a session that asks for nothing"),
    (b"0  top", "script line 1: two blanks, or one at an end"),
    (b"0 top ", "script line 1: two blanks, or one at an end"),
    (
        b"0\ttop",
        "script line 1: a tab, where words stand one blank apart",
    ),
    (
        b"# a comment\r\n0 top\r\n",
        "script line 2: a carriage return, where a line ends in a newline alone",
    ),
    (
        b"0 opacity 1 2 3",
        "script line 1: \"opacity\" takes 2 words, not 3",
    ),
    (b"0 delete", "script line 1: \"delete\" takes 1 word, not 0"),
    (
        b"0 undo 1 2",
        "script line 1: \"undo\" takes at most 1 word, not 2",
    ),
    (b"0 redo 1", "script line 1: \"redo\" takes no words, not 1"),
    (
        b"0 opacity 1 256",
        "script line 1: word 4, \"256\", is not a number from 0 to 255",
    ),
    (
        b"0 offset 1 -0 0",
        "script line 1: word 4, \"-0\", is not a number from -2147483648 to 2147483647",
    ),
    (
        b"0 opacity 01 255",
        "script line 1: word 3, \"01\", has a leading zero",
    ),
    (
        b"0 visible 1 yes",
        "script line 1: word 4, \"yes\", is not 0 or 1",
    ),
    (
        b"0 rename 1 M\xfcller",
        "script line 1: word 4, \"M\\xfcller\", is not bytes of two hexadecimal digits each, or - for none",
    ),
    (
        b"0 colours ffff",
        "script line 1: word 3, \"ffff\", is not 1 to 256 colours of six hexadecimal digits each",
    ),
    (
        b"0 0123456789012345678901234567890123456789012",
        "script line 1: unknown word \"0123456789012345678901234567890123456789..\"",
    ),
    (b"0 end", "script line 1: \"end\" without \"begin\""),
    (
        b"0 begin\n1 top\n0 begin\n",
        "script line 3: \"begin\" inside a group, where edits alone may stand",
    ),
    (
        b"3 begin 4\n3 end\n",
        "script line 2: a group without edits",
    ),
    (
        b"0 begin\n0 delete 1\n1 begin\n",
        "script line 1: a group that is not ended",
    ),
    (
        b"0 filter 1 0 0 8 8 4\n",
        "script line 1: the session has no filter \"4\"",
    ),
    (
        b"0 forget 1\n1 forget 1\n0 forget 1\n",
        "script line 3: the session dropped filter \"1\" before",
    ),
];

/// The same of scripts that are viewed.
const BAD_VIEWED: [(&'static [u8], &'static str); 2] = [
    (
        b"0 top\n1 top\n",
        "script line 2: a session other than 0, in a script that is viewed",
    ),
    (
        b"0 save\n",
        "script line 1: \"save\" in a script that is viewed",
    ),
];

/// Arguments, a status and its cause, and what is said.
const STOPS: [(&'static [&'static str], u8, Stopped, &'static str); 20] = [
    // the limits that a script breaks only where it is long
    (
        &EDIT,
        3,
        Stopped::BadLine(BadLine {
            line: 7,
            cause: Cause::TooLong,
        }),
        "script line 7: the script has more than 16777216 bytes",
    ),
    (
        &EDIT,
        3,
        Stopped::BadLine(BadLine {
            line: 7,
            cause: Cause::FullGroup,
        }),
        "script line 7: a group of more than 1024 edits",
    ),
    (
        &EDIT,
        3,
        Stopped::BadLine(BadLine {
            line: 7,
            cause: Cause::TooManyCalls,
        }),
        "script line 7: more than 524288 calls",
    ),
    (&EDIT, 5, Stopped::SourceFault, "the script cannot be read"),
    (
        &EDIT,
        4,
        Stopped::Refused(ReadRefused {
            kind: Kind::ModeRefused,
            at: 93,
            value: 5,
        }),
        "photo.xcf: layer mode 5 is not supported, at byte 93",
    ),
    (
        &EDIT,
        6,
        Stopped::ShelfFault,
        "photo.xcf: the file cannot be read",
    ),
    (&EDIT, 6, Stopped::SaveFault, "photo.xcf: a save failed"),
    // a name brings no codes for a terminal and no newline
    (
        &["edit", "a\x1b[2J\nb.xcf"],
        6,
        Stopped::ShelfFault,
        "a\\x1b[2J\\nb.xcf: the file cannot be read",
    ),
    // what is made is saved
    (
        &MAKE,
        6,
        Stopped::ShelfFault,
        "photo.xcf: the file cannot be saved",
    ),
    (
        &EDIT,
        7,
        Stopped::SinkFault,
        "photo.xcf: the output cannot be written",
    ),
    (&EDIT, 8, Stopped::Memory, "photo.xcf: out of memory"),
    // Memory ran out for the line of a refused script.
    (
        &EDIT,
        8,
        Stopped::BadLine(BadLine {
            line: 1,
            cause: Cause::TooLong,
        }),
        "photo.xcf: out of memory",
    ),
    (
        &AUDIT,
        3,
        Stopped::BadLine(BadLine {
            line: 2,
            cause: Cause::Tab,
        }),
        "script line 2: a tab, where words stand one blank apart",
    ),
    (
        &AUDIT,
        10,
        Stopped::Rejected(Rejection::Shape),
        "photo.xcf: the output is not one line for each call of the script and the line of their order",
    ),
    (
        &AUDIT,
        10,
        Stopped::Rejected(Rejection::Reply {
            session: 2,
            index: 5,
        }),
        "photo.xcf: the reply of call 5 of session 2, both counted from 0, is none that may stand there",
    ),
    (
        &AUDIT,
        6,
        Stopped::ShelfFault,
        "photo.xcf: the file cannot be read",
    ),
    // a talk ends at a line that is too long, and at one too many
    (
        &SERVE,
        3,
        Stopped::BadLine(BadLine {
            line: 7,
            cause: Cause::TooLong,
        }),
        "line 7: it has more than 16777216 bytes",
    ),
    (
        &SERVE,
        3,
        Stopped::BadLine(BadLine {
            line: 4294967295,
            cause: Cause::TooLong,
        }),
        "line 4294967295: a talk has fewer lines",
    ),
    (
        &SERVE,
        6,
        Stopped::ShelfFault,
        "photo.xcf: the file cannot be read",
    ),
    (&SERVE, 8, Stopped::Memory, "photo.xcf: out of memory"),
];

/// Arguments that are no command, and what is said of the first that is wrong, or of what is lacking.
const NO_COMMANDS: [(&'static [&'static str], &'static str); 22] = [
    (&[], "there is no command"),
    (&["blur", "photo.xcf"], "\"blur\" is no command"),
    (&["edit"], "edit takes a FILE"),
    (&["edit", "--workers"], "--workers has no number behind it"),
    (
        &["edit", "photo.xcf", "--workers", "9"],
        "--workers takes a number from 0 to 8, not \"9\"",
    ),
    (
        &["edit", "photo.xcf", "--workers=two"],
        "--workers takes a number from 0 to 8, not \"two\"",
    ),
    (
        &["edit", "photo.xcf", "--lanes", "2"],
        "\"--lanes\" is no option of edit",
    ),
    (
        &["render", "photo.xcf", "other.xcf"],
        "\"other.xcf\" is one word too many",
    ),
    (&["render", "-o"], "\"-o\" begins with a minus"),
    (&["make", "photo.xcf"], "make takes --seed N"),
    (
        &["make", "photo.xcf", "--seed", "-1"],
        "--seed takes a number from 0 to 4294967295, not \"-1\"",
    ),
    (&["view", "photo.xcf", "--cols", "3"], "view takes --rows N"),
    (
        &["view", "photo.xcf", "--rows", "17", "--cols", "3"],
        "--rows takes a number from 1 to 16, not \"17\"",
    ),
    (
        &["pack", "photo.xcf", "--plan=all"],
        "--plan takes no number",
    ),
    (
        &["info", "photo.xcf", "--all", "--all"],
        "--all is given twice",
    ),
    (
        &["edit", "photo.xcf", "--workers", "1", "--workers=2"],
        "--workers is given twice",
    ),
    (&["render", "--"], "render takes a FILE"),
    (
        &["render", "--", "-photo.xcf"],
        "\"-photo.xcf\" begins with a minus",
    ),
    (
        &["info", "--", "photo.xcf", "--all"],
        "\"--all\" is one word too many",
    ),
    (
        &["info", "--all", "--", "photo.xcf", "--"],
        "\"--\" is one word too many",
    ),
    (&["serve"], "serve takes a FILE"),
    (
        &["serve", "photo.xcf", "--workers", "2"],
        "\"--workers\" is no option of serve",
    ),
];

/// Why a file is refused, where, the bytes that stand there, and what is said.
const FOUND: [(Kind, u64, &'static [u8], &'static str); 15] = [
    (
        Kind::NotXcf,
        0,
        b"\x1f\x8b\x08\0\0\0\0\0",
        "photo.xcf: this is a gzip-packed file; unpack it first",
    ),
    (
        Kind::NotXcf,
        0,
        b"BZh91AY&",
        "photo.xcf: this is a bzip2-packed file; unpack it first",
    ),
    (
        Kind::NotXcf,
        0,
        b"\xfd7zXZ\0\0\x04",
        "photo.xcf: this is an xz-packed file; unpack it first",
    ),
    (
        Kind::NotXcf,
        0,
        b"\x89PNG\r\n\x1a\n",
        "photo.xcf: this is no XCF file, at byte 0",
    ),
    (
        Kind::Version,
        9,
        b"v011\0\0\0\x04",
        "photo.xcf: version 11 of the format is not supported, only 0 to 3, which GIMP writes for 8 bits a channel and legacy layer modes, at byte 9",
    ),
    (
        Kind::Version,
        9,
        b"v1.1\0\0\0\x04",
        "photo.xcf: this version of the format is not supported, only 0 to 3, which GIMP writes for 8 bits a channel and legacy layer modes, at byte 9",
    ),
    (
        Kind::BadSize,
        14,
        b"\0\0\0\0\0\0\0\x01",
        "photo.xcf: a side is 0, at byte 14",
    ),
    (
        Kind::BadSize,
        18,
        b"\0\0\x40\x01\0\0\0\0",
        "photo.xcf: a side is more than 16384 pixels, at byte 18",
    ),
    (
        Kind::BadString,
        93,
        b"\0\0\x10\x02abcd",
        "photo.xcf: a string is too long, at byte 93",
    ),
    (
        Kind::BadString,
        93,
        b"\0\0\0\x04abcd",
        "photo.xcf: a string has no zero at its end, at byte 93",
    ),
    (
        Kind::LayerType,
        89,
        b"\0\0\0\x06\0\0\0\0",
        "photo.xcf: the type of a layer is unknown, at byte 89",
    ),
    (
        Kind::LayerType,
        89,
        b"\0\0\0\x05\0\0\0\0",
        "photo.xcf: the type of a layer is of another base than the image, at byte 89",
    ),
    // a path of nine words, and one of eight
    (
        Kind::BadPath,
        304,
        b"\0\0\0\x1e\0\0\0\x24",
        "photo.xcf: an item path is too long, at byte 304",
    ),
    (
        Kind::BadPath,
        304,
        b"\0\0\0\x1e\0\0\0\x20",
        "photo.xcf: an item path leads to no group, at byte 304",
    ),
    // the file could not be read once more
    (
        Kind::BadPath,
        304,
        b"",
        "photo.xcf: an item path leads to no group or is too long, at byte 304",
    ),
];

/// Each kind of refusal of a file.
const KINDS: [Kind; 24] = [
    Kind::NotXcf,
    Kind::Version,
    Kind::Truncated,
    Kind::BadSize,
    Kind::BaseType,
    Kind::OldColourMap,
    Kind::NoColourMap,
    Kind::BadProperty,
    Kind::BadString,
    Kind::ModeRefused,
    Kind::Compression,
    Kind::FloatingSelection,
    Kind::LayerType,
    Kind::MaskSize,
    Kind::GroupMask,
    Kind::GroupInIndexed,
    Kind::BadPath,
    Kind::BadHierarchy,
    Kind::BadRun,
    Kind::TwoSelections,
    Kind::ChannelSize,
    Kind::TooMany,
    Kind::TooLarge,
    Kind::OffsetRange,
];

fn says_of_file<'a>(
    alloc: Global,
    words: &'a [&'a str],
    status: u8,
    cause: Stopped,
    found: &[u8],
    sentence: &str,
) -> Result<bool, AllocError> {
    let said = message(alloc, words, status, Some(cause), found)?;
    Ok(said.as_str() == sentence)
}

fn says<'a>(
    alloc: Global,
    words: &'a [&'a str],
    status: u8,
    cause: Stopped,
    sentence: &str,
) -> Result<bool, AllocError> {
    says_of_file(alloc, words, status, cause, &[], sentence)
}

// Why a script is refused that was read.
fn fault_of(read: Result<Script, BadLineOrMemory>) -> Option<BadLine> {
    match read {
        Ok(_) | Err(BadLineOrMemory::Memory) => None,
        Err(BadLineOrMemory::Refused(bad)) => Some(bad),
    }
}

// Whether this is said of a script that was read.
fn is_said(alloc: Global, fault: Option<BadLine>, sentence: &str) -> Result<bool, AllocError> {
    match fault {
        Some(bad) => says(alloc, &EDIT, 3, Stopped::BadLine(bad), sentence),
        None => Ok(false),
    }
}

// The first of the scripts, counted from 0, of which something else is said.
fn first_bad_script(alloc: Global) -> Result<Option<usize>, AllocError> {
    for (i, row) in BAD_SCRIPTS.iter().enumerate() {
        let fault = fault_of(parse(alloc, row.0, &[4; 8]));
        if !is_said(alloc, fault, row.1)? {
            return Ok(Some(i));
        }
    }
    Ok(None)
}

fn first_bad_viewed(alloc: Global) -> Result<Option<usize>, AllocError> {
    for (i, row) in BAD_VIEWED.iter().enumerate() {
        let fault = fault_of(parse_viewed(alloc, row.0, 4));
        if !is_said(alloc, fault, row.1)? {
            return Ok(Some(i));
        }
    }
    Ok(None)
}

#[test]
fn the_line_of_a_script_is_named(rt: HostRuntime) -> Result<(), Fail> {
    assert_eq!(rt; first_bad_script(rt.alloc())?, None);
    assert_eq!(rt; first_bad_viewed(rt.alloc())?, None);
    Ok(())
}

fn first_bad_stop(alloc: Global) -> Result<Option<usize>, AllocError> {
    for (i, row) in STOPS.iter().enumerate() {
        if !says(alloc, row.0, row.1, row.2, row.3)? {
            return Ok(Some(i));
        }
    }
    Ok(None)
}

// Whether what is said begins so, and how many lines it has.
fn begins<'a>(
    alloc: Global,
    words: &'a [&'a str],
    status: u8,
    cause: Option<Stopped>,
    front: &str,
) -> Result<(bool, usize), AllocError> {
    let said = message(alloc, words, status, cause, &[])?;
    Ok((
        said.as_str().starts_with(front),
        said.as_str().lines().count(),
    ))
}

// Whether the list of commands has this in front, behind the version.
fn is_listed(alloc: Global, words: &[&str], fault: &str) -> Result<bool, AllocError> {
    let front = format!(in alloc; "xcfedit {VERSION}: {fault}; the commands are\n")?;
    let said = begins(alloc, words, 2, None, front.as_str())?;
    Ok(said.0 && said.1 == 10)
}

// The first arguments that are no command, counted from 0, of which something else is said.
fn first_bad_list(alloc: Global) -> Result<Option<usize>, AllocError> {
    for (i, row) in NO_COMMANDS.iter().enumerate() {
        if !is_listed(alloc, row.0, row.1)? {
            return Ok(Some(i));
        }
    }
    Ok(None)
}

// Whether what is no source of an audit is told, in one line.
fn tells_of_head(alloc: Global) -> Result<bool, AllocError> {
    let front = "the input is no line \"script N\"";
    let said = begins(alloc, &AUDIT, 3, Some(Stopped::BadHead), front)?;
    Ok(said.0 && said.1 == 1)
}

#[test]
fn each_stop_has_its_sentence(rt: HostRuntime) -> Result<(), Fail> {
    assert_eq!(rt; first_bad_stop(rt.alloc())?, None);
    assert!(rt; tells_of_head(rt.alloc())?);
    Ok(())
}

// Whether this is said of a file that is refused over these bytes.
fn is_told(
    alloc: Global,
    row: (Kind, u64, &'static [u8], &'static str),
) -> Result<bool, AllocError> {
    let refused = ReadRefused {
        kind: row.0,
        at: row.1,
        value: 0,
    };
    says_of_file(alloc, &EDIT, 4, Stopped::Refused(refused), row.2, row.3)
}

fn first_bad_found(alloc: Global) -> Result<Option<usize>, AllocError> {
    for (i, row) in FOUND.iter().enumerate() {
        if !is_told(alloc, *row)? {
            return Ok(Some(i));
        }
    }
    Ok(None)
}

#[test]
fn what_a_file_holds_is_told(rt: HostRuntime) -> Result<(), Fail> {
    assert_eq!(rt; first_bad_found(rt.alloc())?, None);
    Ok(())
}

#[test]
fn the_first_wrong_word_is_named(rt: HostRuntime) -> Result<(), Fail> {
    assert_eq!(rt; first_bad_list(rt.alloc())?, None);
    Ok(())
}

// Whether nothing stands between the name of a file and where it is refused.
fn lacks_words(alloc: Global, kind: Kind) -> Result<bool, AllocError> {
    let refused = ReadRefused {
        kind,
        at: 0,
        value: 3,
    };
    says(
        alloc,
        &EDIT,
        4,
        Stopped::Refused(refused),
        "photo.xcf: , at byte 0",
    )
}

fn first_without_words(alloc: Global) -> Result<Option<usize>, AllocError> {
    for (i, kind) in KINDS.iter().enumerate() {
        if lacks_words(alloc, *kind)? {
            return Ok(Some(i));
        }
    }
    Ok(None)
}

#[test]
fn each_fault_of_a_file_has_words(rt: HostRuntime) -> Result<(), Fail> {
    assert_eq!(rt; first_without_words(rt.alloc())?, None);
    Ok(())
}
