//! Files read and written again, at the compression that they have and at the other one, and with the codes that they
//! have.
//!
//! For each file its name, and for each of the three copies its length and its SHA-256. A copy is shown only where it
//! is read back with the same picture, and where a copy of it has the same digest. `data/` has the files, and `stdout`
//! what each must give: the lengths and digests are those of `bench/xcf_written.py`, which knows nothing of the engine.
#![tactic(auto)]

use sha2::{Digest, Sha256};
use std::alloc::{AllocError, Global};
use std::process::ExitCode;
use std::{fs, io};
use xcf::{Document, open, picture};
use xl_compose::Recompose;
use xl_write::{Greedy, Keeping, PlaneCoder, encode};

const NAMES: [&str; 31] = [
    "one.xcf",
    "forms.xcf",
    "wide.xcf",
    "tall.xcf",
    "nodes.xcf",
    "all-hidden.xcf",
    "bottom-multiply.xcf",
    "channels.xcf",
    "grey-64x64.xcf",
    "greya-63x65.xcf",
    "groups-3.xcf",
    "groups-empty.xcf",
    "groups-grey.xcf",
    "indexed-200x200.xcf",
    "indexed-layers.xcf",
    "indexeda-200x200.xcf",
    "mask-applied.xcf",
    "mask-grey.xcf",
    "mask-not-applied.xcf",
    "mode-00-alpha.xcf",
    "mode-03-alpha.xcf",
    "names.xcf",
    "no-layers.xcf",
    "parasites-200.xcf",
    "props-image.xcf",
    "props-layer.xcf",
    "props-userunit.xcf",
    "rgb-1x1.xcf",
    "rgb-63x65.xcf",
    "rgba-65x1.xcf",
    "selection-soft.xcf",
];

fn file_of<C: PlaneCoder + Copy>(alloc: Global, document: &Document, coder: C) -> Option<Vec<u8>> {
    let mut coder = coder;
    encode(alloc, document, &mut coder, &mut Recompose::new()).ok()
}

fn same_picture(alloc: Global, document: &Document, other: &Document) -> bool {
    match (picture(alloc, document), picture(alloc, other)) {
        (Ok(bytes), Ok(others)) => bytes == others,
        _ => false,
    }
}

// The digest of the file of a document, or none where there is none.
fn digest_of<C: PlaneCoder + Copy>(alloc: Global, document: &Document, coder: C) -> Option<String> {
    match file_of(alloc, document, coder) {
        Some(file) => hex::encode(alloc, &Sha256::digest(&file)).ok(),
        None => None,
    }
}

// Whether a file of a document is read back: with the same picture, and so that it is written with the same digest.
fn is_read_back<C: PlaneCoder + Copy>(
    alloc: Global,
    file: Vec<u8>,
    document: &Document,
    coder: C,
    digest: &str,
) -> bool {
    let Ok(other) = open(alloc, file) else {
        return false;
    };
    match digest_of(alloc, &other, coder) {
        Some(again) => again.as_str() == digest && same_picture(alloc, document, &other),
        None => false,
    }
}

// The length and the digest of the file of a document.
fn copy_text<C: PlaneCoder + Copy>(
    alloc: Global,
    document: &Document,
    coder: C,
) -> Result<String, AllocError> {
    let Some(file) = file_of(alloc, document, coder) else {
        return Err(AllocError);
    };
    let digest = hex::encode(alloc, &Sha256::digest(&file))?;
    let length = file.len();
    if is_read_back(alloc, file, document, coder, digest.as_str()) {
        format!(in alloc; "{length} {digest}")
    } else {
        format!(in alloc; "{length} differs")
    }
}

fn at_other_compression(document: Document) -> Document {
    let mut document = document;
    document.compression = 1 - document.compression;
    document
}

// The line of a file.
fn line_of(alloc: Global, name: &str, bytes: Vec<u8>) -> Result<String, AllocError> {
    let Ok(document) = open(alloc, bytes) else {
        return format!(in alloc; "{name} is refused");
    };
    let own = copy_text(alloc, &document, Greedy)?;
    let kept = copy_text(alloc, &document, Keeping)?;
    let other = copy_text(alloc, &at_other_compression(document), Greedy)?;
    format!(in alloc; "{name} {own} {other} {kept}")
}

fn show_all(rt: &HostRuntime) -> io::Result<()> {
    for name in NAMES {
        let bytes = fs::read(rt, name)?;
        let line = line_of(rt.alloc(), name, bytes)?;
        rt.println(line.as_str())?;
    }
    Ok(())
}

fn main(rt: HostRuntime) -> ExitCode {
    match show_all(&rt) {
        Ok(()) => ExitCode::SUCCESS,
        Err(_) => ExitCode::FAILURE,
    }
}
