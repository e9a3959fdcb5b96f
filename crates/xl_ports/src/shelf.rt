ghost use Rattle.std.specs.Prelude.{◌≡◌, ◌<◌, ◌≤◌, ◌++◌, true, false, length, take, IfOk};
ghost use Rattle.std.specs.Prelude.{IfSome, OnOk, OnErr, IsSome, Some};
ghost use Rattle.xl_ports.specs.Faults.{Counted, HasCause};
ghost use Rattle.xl_ports.specs.Shelf.{selected_content, GivesPart};
ghost use Rattle.xl_ports.specs.Disk.{Between, IsQuiet, SwapsIn, SettlesAt, empty_draft, read_at};
ghost use Rattle.xl_ports.specs.State.{ShelfState};

use crate::failed::Failed;

/// Files by their names, one of which is selected, and one draft beside it.
///
/// A save is a new draft, its bytes, a sync, and then the draft takes the file's name, which is settled. A crash leaves
/// the old file up to `swap_in`, the old or the new one from then on, and the new one alone once `settle` is done.
///
/// A call that fails has raised its own count: `select` and `load` the reading faults, all others the saving faults.
/// Both counts are as before otherwise. Each call of `load` is counted too. Only `select` changes the selection. The
/// contents of the files, what a crash leaves of them and the draft's bytes are known of shelves in memory, and clauses
/// on them hold where they are known.
pub trait Shelf: Send + Drop {
    /// What is known of it. Its counts never fall.
    ghost shelf_state: { Self → ShelfState };

    /// Selects a name, and no draft is open then. There need be no file of that name.
    ///
    /// Nothing that is kept under any name changes. After `Failed` the selection and the draft are as before too.
    fn select(&mut self, name: &str) -> Result<(), Failed>
        ensures selected { OnOk result ((shelf_state self.new).selected ≡ Some name.now) }
        ensures closed { OnOk result ((shelf_state self.new).is_open ≡ false) }
        ensures as_before { OnErr result ((shelf_state self.new).selected
            ≡ (shelf_state self.old).selected) }
        ensures open_as_before { OnErr result ((shelf_state self.new).is_open
            ≡ (shelf_state self.old).is_open) }
        ensures draft_as_before { OnErr result (Between (shelf_state self.old).disk
            (shelf_state self.new).disk (λ before after. after.draft ≡ before.draft)) }
        ensures contents { read_at (shelf_state self.new).disk ≡ read_at
            (shelf_state self.old).disk }
        ensures quiet { Between (shelf_state self.old).disk (shelf_state self.new).disk IsQuiet }
        ensures advances { OnOk result (Between (shelf_state self.old).disk
            (shelf_state self.new).disk (λ before after. before.moment < after.moment)) }
        ensures saving { (shelf_state self.new).saving ≡ (shelf_state self.old).saving }
        ensures loads { (shelf_state self.new).loads ≡ (shelf_state self.old).loads }
        ensures cause { HasCause (shelf_state self.old).reading (shelf_state self.new).reading
            result };

    /// Gives bytes of the selected file from byte `at` on, in the first places of the buffer, and answers how many.
    ///
    /// 0, where some were asked for, means that `at` is at or past the end. An absent file is a fault. Behind the bytes
    /// that were given, and after `Failed` in all its places, the buffer holds anything. Nothing else changes.
    fn load(&mut self, at: u64, buf: &mut [u8]) -> Result<usize, Failed>
        requires { IsSome (shelf_state self.old).selected }
        ensures within { IfOk result (λ k. k ≤ length buf.old) }
        ensures given { IfOk result (λ k. IfSome (selected_content (shelf_state self.old).selected
            (read_at (shelf_state self.old).disk)) (λ c. GivesPart c at (length buf.old)
            (take k buf.new))) }
        ensures selected { (shelf_state self.new).selected ≡ (shelf_state self.old).selected }
        ensures opened { (shelf_state self.new).is_open ≡ (shelf_state self.old).is_open }
        ensures draft { Between (shelf_state self.old).disk (shelf_state self.new).disk
            (λ before after. after.draft ≡ before.draft) }
        ensures contents { read_at (shelf_state self.new).disk ≡ read_at
            (shelf_state self.old).disk }
        ensures quiet { Between (shelf_state self.old).disk (shelf_state self.new).disk IsQuiet }
        ensures advances { OnOk result (Between (shelf_state self.old).disk
            (shelf_state self.new).disk (λ before after. before.moment < after.moment)) }
        ensures saving { (shelf_state self.new).saving ≡ (shelf_state self.old).saving }
        ensures counted { Counted (shelf_state self.old).loads (shelf_state self.new).loads }
        ensures cause { HasCause (shelf_state self.old).reading (shelf_state self.new).reading
            result };

    /// Opens a draft beside the file: empty, and not synced. An older one is removed, and never cut.
    ///
    /// Nothing that is kept under any name changes. After `Failed` no draft is open.
    fn draft_new(&mut self) -> Result<(), Failed>
        requires { IsSome (shelf_state self.old).selected }
        ensures opened { OnOk result ((shelf_state self.new).is_open ≡ true) }
        ensures empty { OnOk result (IfSome (shelf_state self.new).disk (λ after. after.draft
            ≡ empty_draft)) }
        ensures closed { OnErr result ((shelf_state self.new).is_open ≡ false) }
        ensures selected { (shelf_state self.new).selected ≡ (shelf_state self.old).selected }
        ensures quiet { Between (shelf_state self.old).disk (shelf_state self.new).disk IsQuiet }
        ensures advances { OnOk result (Between (shelf_state self.old).disk
            (shelf_state self.new).disk (λ before after. before.moment < after.moment)) }
        ensures reading { (shelf_state self.new).reading ≡ (shelf_state self.old).reading }
        ensures loads { (shelf_state self.new).loads ≡ (shelf_state self.old).loads }
        ensures cause { HasCause (shelf_state self.old).saving (shelf_state self.new).saving result };

    /// Adds bytes at the end of the open draft, which is not synced then.
    ///
    /// Nothing that is kept under any name changes. After `Failed` the draft is open still and holds any bytes.
    fn draft_add(&mut self, bytes: &[u8]) -> Result<(), Failed>
        requires selected { IsSome (shelf_state self.old).selected }
        requires opened { (shelf_state self.old).is_open ≡ true }
        ensures opened { (shelf_state self.new).is_open ≡ true }
        ensures added { OnOk result (Between (shelf_state self.old).disk (shelf_state self.new).disk
            (λ before after. after.draft.bytes ≡ before.draft.bytes ++ bytes.now)) }
        ensures not_synced { IfSome (shelf_state self.new).disk (λ after. after.draft.is_synced
            ≡ false) }
        ensures selected { (shelf_state self.new).selected ≡ (shelf_state self.old).selected }
        ensures quiet { Between (shelf_state self.old).disk (shelf_state self.new).disk IsQuiet }
        ensures advances { OnOk result (Between (shelf_state self.old).disk
            (shelf_state self.new).disk (λ before after. before.moment < after.moment)) }
        ensures reading { (shelf_state self.new).reading ≡ (shelf_state self.old).reading }
        ensures loads { (shelf_state self.new).loads ≡ (shelf_state self.old).loads }
        ensures cause { HasCause (shelf_state self.old).saving (shelf_state self.new).saving result };

    /// Brings the bytes of the open draft to the disk: it is synced then.
    ///
    /// Nothing that is kept under any name changes. After `Failed` the draft is open still, not synced, and holds any
    /// bytes.
    fn draft_sync(&mut self) -> Result<(), Failed>
        requires selected { IsSome (shelf_state self.old).selected }
        requires opened { (shelf_state self.old).is_open ≡ true }
        ensures opened { (shelf_state self.new).is_open ≡ true }
        ensures bytes { OnOk result (Between (shelf_state self.old).disk (shelf_state self.new).disk
            (λ before after. after.draft.bytes ≡ before.draft.bytes)) }
        ensures synced { OnOk result (IfSome (shelf_state self.new).disk
            (λ after. after.draft.is_synced ≡ true)) }
        ensures not_synced { OnErr result (IfSome (shelf_state self.new).disk
            (λ after. after.draft.is_synced ≡ false)) }
        ensures selected { (shelf_state self.new).selected ≡ (shelf_state self.old).selected }
        ensures quiet { Between (shelf_state self.old).disk (shelf_state self.new).disk IsQuiet }
        ensures advances { OnOk result (Between (shelf_state self.old).disk
            (shelf_state self.new).disk (λ before after. before.moment < after.moment)) }
        ensures reading { (shelf_state self.new).reading ≡ (shelf_state self.old).reading }
        ensures loads { (shelf_state self.new).loads ≡ (shelf_state self.old).loads }
        ensures cause { HasCause (shelf_state self.old).saving (shelf_state self.new).saving result };

    /// The open draft takes the selected name, and a read gives its bytes. No draft is open then, after `Failed`
    /// neither.
    ///
    /// A crash leaves what it might have left before, or the draft's bytes; of a draft that was not synced, any bytes.
    /// After `Failed` the same holds, and a read gives what it gave or the draft's bytes. Other names stay as they are.
    fn swap_in(&mut self) -> Result<(), Failed>
        requires selected { IsSome (shelf_state self.old).selected }
        requires opened { (shelf_state self.old).is_open ≡ true }
        ensures closed { (shelf_state self.new).is_open ≡ false }
        ensures swaps { IfSome (shelf_state self.old).selected
            (λ name. Between (shelf_state self.old).disk (shelf_state self.new).disk
            (SwapsIn result name)) }
        ensures selected { (shelf_state self.new).selected ≡ (shelf_state self.old).selected }
        ensures advances { OnOk result (Between (shelf_state self.old).disk
            (shelf_state self.new).disk (λ before after. before.moment < after.moment)) }
        ensures reading { (shelf_state self.new).reading ≡ (shelf_state self.old).reading }
        ensures loads { (shelf_state self.new).loads ≡ (shelf_state self.old).loads }
        ensures cause { HasCause (shelf_state self.old).saving (shelf_state self.new).saving result };

    /// Settles the selected name: from then on a crash leaves what a read gives, and nothing else.
    ///
    /// A read gives what it gave. After `Failed` a crash leaves what it might have left before. The draft and other
    /// names stay as they are.
    fn settle(&mut self) -> Result<(), Failed>
        requires { IsSome (shelf_state self.old).selected }
        ensures opened { (shelf_state self.new).is_open ≡ (shelf_state self.old).is_open }
        ensures draft { Between (shelf_state self.old).disk (shelf_state self.new).disk
            (λ before after. after.draft ≡ before.draft) }
        ensures settles { IfSome (shelf_state self.old).selected
            (λ name. Between (shelf_state self.old).disk (shelf_state self.new).disk
            (SettlesAt result name)) }
        ensures selected { (shelf_state self.new).selected ≡ (shelf_state self.old).selected }
        ensures advances { OnOk result (Between (shelf_state self.old).disk
            (shelf_state self.new).disk (λ before after. before.moment < after.moment)) }
        ensures reading { (shelf_state self.new).reading ≡ (shelf_state self.old).reading }
        ensures loads { (shelf_state self.new).loads ≡ (shelf_state self.old).loads }
        ensures cause { HasCause (shelf_state self.old).saving (shelf_state self.new).saving result };
}
