//! Saves files of the system and writes what came of each: through symbolic links, over an older draft, with the
//! permission bits of the old file, where there was no file, and where a save cannot be; what becomes of a draft when
//! another name is selected; and of a save where another program has changed the file, or another shelf saves it.
#![tactic(auto)]

mod others;

use others::{
    change_before_draft, change_behind_draft, change_between, come_between, save_beside, show_end,
};
use std::alloc::Global;
use std::fs::Permissions;
use std::os::unix::fs::{PermissionsExt, symlink};
use std::process::ExitCode;
use std::{fs, io};
use xl_ports::{Failed, Shelf};
use xl_real::FileShelf;
use xl_save::save;

/// More bytes than are added to a draft at a time.
const LENGTH: usize = 150_000;

/// As many bytes as the name of a file may have on Linux.
const NAME_LENGTH: usize = 255;

fn many_bytes(alloc: Global) -> io::Result<Vec<u8>> {
    let mut bytes = Vec::new(alloc);
    bytes.resize(LENGTH, 7)?;
    Ok(bytes)
}

// Saves bytes under a name, and says how that ended.
fn try_save(rt: &HostRuntime, name: &str, bytes: &[u8]) -> io::Result<()> {
    let mut shelf = FileShelf::new(rt);
    let end = match shelf.select(name) {
        Ok(()) => match save(bytes, &mut shelf) {
            Ok(()) => "saved",
            Err(_) => "not saved",
        },
        Err(_) => "not selected",
    };
    println!(rt; "{name} {end}")?;
    match shelf.error() {
        Some(error) => println!(rt; "  {error}"),
        None => Ok(()),
    }
}

// What stands under a name, and how long it is read.
fn show_file(rt: &HostRuntime, name: &str) -> io::Result<()> {
    let is_link = fs::symlink_metadata(rt, name)?.is_symlink();
    let bytes = fs::read(rt, name)?;
    let line = format!(in rt.alloc(); "  {name} link {is_link} length {}", bytes.len())?;
    rt.println(line.as_str())
}

fn show_mode(rt: &HostRuntime, name: &str) -> io::Result<()> {
    let mode = fs::metadata(rt, name)?.permissions().mode() & 0o7777;
    let line = format!(in rt.alloc(); "  {name} mode {mode:o}")?;
    rt.println(line.as_str())
}

fn show_whether_there(rt: &HostRuntime, name: &str) -> io::Result<()> {
    let is_there = fs::exists(rt, name)?;
    let line = format!(in rt.alloc(); "  {name} there {is_there}")?;
    rt.println(line.as_str())
}

// A link to a link to a file, which has a second name and an older draft.
fn make_linked_file(rt: &HostRuntime) -> io::Result<()> {
    fs::create_dir(rt, "folder")?;
    fs::write(rt, "folder/old", "old")?;
    fs::set_permissions(rt, "folder/old", Permissions::from_mode(0o640))?;
    fs::hard_link(rt, "folder/old", "folder/second_name")?;
    fs::write(rt, "folder/old.draft", "an older draft")?;
    symlink(rt, "old", "folder/inner_link")?;
    symlink(rt, "folder/inner_link", "link")
}

fn save_through_links(rt: &HostRuntime) -> io::Result<()> {
    make_linked_file(rt)?;
    try_save(rt, "link", &many_bytes(rt.alloc())?)?;
    show_file(rt, "link")?;
    show_file(rt, "folder/inner_link")?;
    show_file(rt, "folder/old")?;
    show_mode(rt, "folder/old")?;
    show_file(rt, "folder/second_name")?;
    show_whether_there(rt, "folder/old.draft")
}

fn save_new_files(rt: &HostRuntime) -> io::Result<()> {
    symlink(rt, "folder/absent", "hanging")?;
    try_save(rt, "hanging", b"new")?;
    show_file(rt, "hanging")?;
    try_save(rt, "folder/new", b"")?;
    show_file(rt, "folder/new")
}

// Names under which nothing can be saved.
fn save_in_vain(rt: &HostRuntime) -> io::Result<()> {
    try_save(rt, "no_folder/file", b"new")?;
    symlink(rt, "loop_end", "loop")?;
    symlink(rt, "loop", "loop_end")?;
    try_save(rt, "loop", b"new")?;
    try_save(rt, "folder/new/below", b"new")?;
    fs::create_dir(rt, "folder/inner")?;
    try_save(rt, "folder/inner", b"new")?;
    show_whether_there(rt, "folder/inner.draft")?;
    fs::write(rt, "folder/whole", "old")?;
    fs::create_dir(rt, "folder/whole.draft")?;
    try_save(rt, "folder/whole", b"longer")?;
    show_file(rt, "folder/whole")
}

// What is selected and is no regular file, or has too long a name.
fn select_in_vain(rt: &HostRuntime) -> io::Result<()> {
    for name in ["folder/inner", "/dev/zero"] {
        let mut shelf = FileShelf::new(rt);
        let end = shelf.select(name);
        rt.println(name)?;
        show_end(rt, &shelf, end)?;
    }
    for length in [NAME_LENGTH - 6, NAME_LENGTH - 5] {
        let mut name = String::from_str(rt.alloc(), "folder/")?;
        for _ in 0..length {
            name.push('x')?;
        }
        let mut shelf = FileShelf::new(rt);
        let end = shelf.select(&name);
        println!(rt; "a name of {length} bytes")?;
        show_end(rt, &shelf, end)?;
    }
    Ok(())
}

// A file that runs with the rights of its owner and its group.
fn save_with_rights(rt: &HostRuntime) -> io::Result<()> {
    fs::write(rt, "folder/rights", "old")?;
    fs::set_permissions(rt, "folder/rights", Permissions::from_mode(0o6750))?;
    show_mode(rt, "folder/rights")?;
    try_save(rt, "folder/rights", b"new")?;
    show_mode(rt, "folder/rights")
}

// A draft that is open when another name is selected.
fn select_another(rt: &HostRuntime) -> io::Result<()> {
    let mut shelf = FileShelf::new(rt);
    let end = match begin_draft(&mut shelf, "folder/whole_too") {
        Ok(()) => "begun",
        Err(_) => "not begun",
    };
    let line = format!(in rt.alloc(); "folder/whole_too draft {end}")?;
    rt.println(line.as_str())?;
    show_whether_there(rt, "folder/whole_too.draft")?;
    if shelf.select("folder/new").is_err() {
        rt.println("not selected")?;
    }
    show_whether_there(rt, "folder/whole_too.draft")
}

fn begin_draft(shelf: &mut FileShelf, name: &str) -> Result<(), Failed> {
    shelf.select(name)?;
    shelf.draft_new()
}

fn remove_all(rt: &HostRuntime) -> io::Result<()> {
    fs::remove_dir_all(rt, "folder")?;
    for name in ["link", "hanging", "loop", "loop_end"] {
        fs::remove_file(rt, name)?;
    }
    Ok(())
}

fn try_all(rt: &HostRuntime) -> io::Result<()> {
    save_through_links(rt)?;
    save_new_files(rt)?;
    save_in_vain(rt)?;
    select_another(rt)?;
    select_in_vain(rt)?;
    save_with_rights(rt)?;
    change_before_draft(rt)?;
    change_behind_draft(rt)?;
    change_between(rt)?;
    come_between(rt)?;
    save_beside(rt)?;
    remove_all(rt)
}

fn main(rt: HostRuntime) -> ExitCode {
    match try_all(&rt) {
        Ok(()) => ExitCode::SUCCESS,
        Err(_) => ExitCode::FAILURE,
    }
}
