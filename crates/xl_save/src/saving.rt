ghost use Rattle.std.specs.Prelude.{◌≡◌, ◌++◌, false, OnOk, IfSome, IsSome};
ghost use Rattle.std.specs.List.{concat};
ghost use Rattle.xl_ports.specs.Faults.{HasCause};
ghost use Rattle.xl_ports.specs.Disk.{Between};
ghost use Rattle.xl_save.specs.Save.{SavesOnly, HasSaved};

use crate::pieces::add_bytes;
use xl_bytes::{FileBytes, Part};
use xl_ports::{Failed, Shelf};

// The five calls of a save: of these parts, and the bytes behind the last of them.
fn replace<D: Shelf>(parts: &[Part], own: &[u8], shelf: &mut D) -> Result<(), Failed>
    requires { IsSome (D.shelf_state shelf.old).selected }
    ensures moments { IfSome (D.shelf_state shelf.old).selected
        (λ name. Between (D.shelf_state shelf.old).disk (D.shelf_state shelf.new).disk
        (SavesOnly name (concat parts.now ++ own.now))) }
    ensures saved { OnOk result (IfSome (D.shelf_state shelf.old).selected
        (λ name. IfSome (D.shelf_state shelf.new).disk
        (HasSaved name (concat parts.now ++ own.now)))) }
    ensures closed { OnOk result ((D.shelf_state shelf.new).is_open ≡ false) }
    ensures selected { (D.shelf_state shelf.new).selected ≡ (D.shelf_state shelf.old).selected }
    ensures loads { (D.shelf_state shelf.new).loads ≡ (D.shelf_state shelf.old).loads }
    ensures reading { (D.shelf_state shelf.new).reading ≡ (D.shelf_state shelf.old).reading }
    ensures cause { HasCause (D.shelf_state shelf.old).saving (D.shelf_state shelf.new).saving
        result }
{
    shelf.draft_new()?;
    add_bytes(parts, own, shelf)?;
    shelf.draft_sync()?;
    shelf.swap_in()?;
    shelf.settle()
}

/// Puts a file of these bytes in the place of the selected one, at every moment whole.
///
/// It opens a new draft, adds the bytes in pieces, syncs it, swaps it in and settles the name, and takes no memory. At
/// each moment a crash leaves what it might have left before the save, or these bytes; after Ok these bytes alone.
///
/// `Failed` where one of the calls failed, at which it stops. Then a read gives the old file or the new one, and a
/// draft may be open. A later save opens a draft of its own.
pub fn save<D: Shelf>(bytes: &[u8], shelf: &mut D) -> Result<(), Failed>
    requires { IsSome (D.shelf_state shelf.old).selected }
    ensures moments { IfSome (D.shelf_state shelf.old).selected
        (λ name. Between (D.shelf_state shelf.old).disk (D.shelf_state shelf.new).disk
        (SavesOnly name bytes.now)) }
    ensures saved { OnOk result (IfSome (D.shelf_state shelf.old).selected
        (λ name. IfSome (D.shelf_state shelf.new).disk (HasSaved name bytes.now))) }
    ensures closed { OnOk result ((D.shelf_state shelf.new).is_open ≡ false) }
    ensures selected { (D.shelf_state shelf.new).selected ≡ (D.shelf_state shelf.old).selected }
    ensures loads { (D.shelf_state shelf.new).loads ≡ (D.shelf_state shelf.old).loads }
    ensures reading { (D.shelf_state shelf.new).reading ≡ (D.shelf_state shelf.old).reading }
    ensures cause { HasCause (D.shelf_state shelf.old).saving (D.shelf_state shelf.new).saving
        result }
{
    replace(&[], bytes, shelf)
}

/// Puts a file in the place of the selected one, at every moment whole.
///
/// It opens a new draft, adds the bytes piece by piece, as they stand, syncs it, swaps it in and settles the name, and
/// takes no memory. At each moment a crash leaves what it might have left before the save, or these bytes; after Ok
/// these bytes alone.
///
/// `Failed` where one of the calls failed, at which it stops. Then a read gives the old file or the new one, and a
/// draft may be open. A later save opens a draft of its own.
pub fn save_parts<D: Shelf>(file: &FileBytes, shelf: &mut D) -> Result<(), Failed>
    requires { IsSome (D.shelf_state shelf.old).selected }
    ensures moments { IfSome (D.shelf_state shelf.old).selected
        (λ name. Between (D.shelf_state shelf.old).disk (D.shelf_state shelf.new).disk
        (SavesOnly name file.now)) }
    ensures saved { OnOk result (IfSome (D.shelf_state shelf.old).selected
        (λ name. IfSome (D.shelf_state shelf.new).disk (HasSaved name file.now))) }
    ensures closed { OnOk result ((D.shelf_state shelf.new).is_open ≡ false) }
    ensures selected { (D.shelf_state shelf.new).selected ≡ (D.shelf_state shelf.old).selected }
    ensures loads { (D.shelf_state shelf.new).loads ≡ (D.shelf_state shelf.old).loads }
    ensures reading { (D.shelf_state shelf.new).reading ≡ (D.shelf_state shelf.old).reading }
    ensures cause { HasCause (D.shelf_state shelf.old).saving (D.shelf_state shelf.new).saving
        result }
{
    let (parts, own) = file.parts();
    replace(parts, own, shelf)
}
