ghost use Rattle.std.specs.Prelude.{◌≡◌, ◌⊎◌, ◌<◌, ℕ, List, [], length, Some, None, IfOk, IfSome, OnOk, OnErr, is_none};
ghost use Rattle.std.specs.Prelude.{is_some, true, vec_len, vec_capacity, option_map, option_copied, slice_index_or};
ghost use Rattle.std.specs.Prelude.{drop, remove, ◌∷◌};
ghost use Rattle.xl_ports.specs.Shelf.{absent};
ghost use Rattle.xl_fakes.specs.Kept.{KnowsToo, is_known, Standing, found, standing, content_of, contents};

use crate::named_file::NamedFile;
use std::alloc::{AllocError, AllocFailed, Global};

/// The place of what is kept under a name, if anything is.
pub fn place_of(files: &[NamedFile], name: &str) -> Option<usize>
    ensures within { IfSome result (λ i. i < length files.now) }
    ensures named { IfSome result (λ i. (d : Standing) → (slice_index_or files.now i d).name
        ≡ name.now) }
    ensures found { IfSome result (λ i. (d : Standing) → found files.now name.now
        ≡ slice_index_or files.now i d) }
    ensures known { is_some result ≡ is_known files.now name.now }
    ensures none { is_none result ≡ true → found files.now name.now
        ≡ record { name = name.now; read = absent; others = [] } }
{
    for (i, file) in files.iter().enumerate() {
        if file.is_named(name) {
            return Some(i);
        }
    }
    None
}

/// Takes out what is kept under a name, or makes it anew where nothing is. There is room for it to come back.
pub fn take_out(
    alloc: Global,
    files: &mut Vec<NamedFile>,
    name: &str,
) -> Result<NamedFile, AllocError>
    ensures named { IfOk result (λ k. k.name ≡ name.now) }
    ensures found { IfOk result (λ k. k ≡ found files.old.items name.now) }
    ensures others { OnOk result ((other : List ℕ) → (other ≡ name.now → ⊥)
        → found files.new.items other ≡ found files.old.items other) }
    ensures known { OnOk result ((other : List ℕ) → (other ≡ name.now → ⊥)
        → is_known files.new.items other ≡ is_known files.old.items other) }
    ensures room { OnOk result (vec_len files.new < vec_capacity files.new) }
    ensures as_before { OnErr result (files.new.items ≡ files.old.items) }
{
    files.reserve(1)?;
    match place_of(files, name) {
        Some(i) => Ok(files.remove(i)),
        None => NamedFile::new(alloc, String::from_str(alloc, name)?, None),
    }
}

/// Brings what is kept under a name to the front, in the place of what was there, which goes back.
pub fn bring(
    alloc: Global,
    here: &mut Option<NamedFile>,
    files: &mut Vec<NamedFile>,
    name: &str,
) -> Result<(), AllocError>
    ensures selected { OnOk result (option_map (λ k. k.name) here.new ≡ Some name.now) }
    ensures same { (other : List ℕ) → standing here.new files.new.items other ≡ standing here.old
        files.old.items other }
    ensures known { KnowsToo result name.now here.old files.old.items here.new files.new.items }
    ensures as_before { OnErr result (here.new ≡ here.old) }
{
    if let Some(kept) = here
        && kept.is_named(name)
    {
        return Ok(());
    }
    let next = take_out(alloc, files, name)?;
    if let Some(last) = here.replace(next) {
        let placed: Result<(), AllocFailed<NamedFile>> = files.insert(0, last);
        placed.unwrap();
    }
    Ok(())
}
