ghost use Rattle.std.specs.Prelude.{◌≡◌, ◌⊎◌, ◌<◌, ◌≤◌, ◌++◌, ◌∷◌, [], Some, None, List, ℕ, true, false, length};
ghost use Rattle.std.specs.Prelude.{take, min, ◌^◌, ◌-◌, map, IfOk, OnOk, OnErr, IsErr, is_err, is_ok, is_some, IsSome};
ghost use Rattle.std.specs.Prelude.{option_copied, option_map, string_bytes, IfSome, if◌then◌else◌};
ghost use Rattle.std.specs.Str.{bytes_eq};
ghost use Rattle.xl_ports.specs.Faults.{Counted, HasCause, Rose};
ghost use Rattle.xl_ports.specs.Shelf.{absent, file, GivesPart};
ghost use Rattle.xl_ports.specs.Disk.{IsQuiet, SwapsIn, SettlesAt, empty_draft};
ghost use Rattle.xl_fakes.specs.Fakes.{next_count};
ghost use Rattle.xl_fakes.specs.Calls.{NextCallFails, IsStopped, IsListed, with_reading, with_saving, no_shelf_calls};
ghost use Rattle.xl_fakes.specs.Kept.{KnowsSame};
ghost use Rattle.xl_fakes.specs.Kept.{is_known_at, standing, found, disk_of, contents, content_of, kept_content};
ghost use Rattle.xl_fakes.specs.Kept.{handed_in, Notes, NotesOrNot, KeepsFiles, EndsReading, EndsSaving, IsSwapped};
ghost use Rattle.xl_fakes.specs.Kept.{IsSettled, KnowsToo, LeavesBoth, draft_in, shown, known_content};

use crate::draft::{Draft, close_if, open_if, set_synced};
use crate::files::place_of;
use crate::given::{end_giving, give_noted};
use crate::named_file::NamedFile;
use crate::settled::Settled;
use crate::shelf_calls::ShelfCalls;
use crate::steps::{
    add_noted, bring_noted, conclude_saving, end_reading, end_saving, note, settle_kept,
};
use crate::swapped::{end_swapping, swap_noted};
use std::alloc::{AllocError, Global};
use std::marker::Model;
use xl_ports::{Failed, Shelf};

/// A shelf that holds its files in vectors, and tells what a crash at each moment leaves.
#[derive(Drop)]
pub struct MemoryShelf {
    alloc: Global,
    // What is kept under the selected name, and under the others.
    here: Option<NamedFile>,
    files: Vec<NamedFile>,
    draft: Option<Draft>,
    // An entry for each call that found memory for one.
    log: Vec<Option<Settled>>,
    starved: u64,
    loads: u64,
    calls: ShelfCalls,
}

impl Model for MemoryShelf {
    ghost use Rattle.xl_fakes.specs.Kept.{MemoryState};

    ghost Value = { MemoryState };

    ghost view = { λ s. record {
      here = s.here;
      files = s.files.items;
      draft = s.draft;
      log = s.log.items;
      starved = s.starved;
      loads = s.loads;
      calls = s.calls;
    } };
}

impl MemoryShelf {
    /// A shelf of these files, with none selected. Calls whose numbers from 0 are in `fails` fail, and from call number
    /// `stop` on every call fails and changes nothing.
    ///
    /// Of two files of one name only the first counts.
    pub fn new(
        alloc: Global,
        files: Vec<(String, Vec<u8>)>,
        fails: Vec<u32>,
        stop: Option<u32>,
    ) -> Result<Self, AllocError>
        ensures { IfOk result (λ s. s ≡ record {
          here = None;
          files = map handed_in files.items;
          draft = None;
          log = [];
          starved = 0;
          loads = 0;
          calls = no_shelf_calls fails.items stop;
        }) }
    {
        Ok(MemoryShelf {
            alloc,
            here: None,
            files: keep_all(alloc, files)?,
            draft: None,
            log: Vec::new(alloc),
            starved: 0,
            loads: 0,
            calls: ShelfCalls::new(fails, stop),
        })
    }

    /// The bytes that a read of a name gives, if there is a file.
    pub fn file(&self, name: &str) -> Option<&[u8]>
        ensures { content_of (option_copied result)
            ≡ (standing self.now.here self.now.files name.now).read }
    {
        match kept_of(&self.here, &self.files, name) {
            Some(kept) => kept.read(),
            None => None,
        }
    }

    /// What a crash now may leave under a name, `None` being no file: first what a read gives, then what else.
    ///
    /// Nothing, where the name was neither handed in nor selected.
    pub fn leaves(&self, name: &str) -> &[Option<Vec<u8>>]
        ensures { contents result.now ≡ (if is_known_at self.now.here self.now.files name.now
            then (standing self.now.here self.now.files name.now).read
            ∷ (standing self.now.here self.now.files name.now).others else []) }
    {
        match kept_of(&self.here, &self.files, name) {
            Some(kept) => kept.leaves(),
            None => &[],
        }
    }

    /// Whether a draft is open.
    pub fn has_draft(&self) -> bool
        ensures { result ≡ is_some self.now.draft }
    {
        self.draft.is_some()
    }

    /// How many calls were made, up to the greatest number of the type.
    pub fn calls(&self) -> u32
        ensures { result ≡ min self.now.calls.made (2 ^ 32 - 1) }
    {
        self.calls.count().min(u64::from(u32::MAX)) as u32
    }

    /// How many calls found no memory inside.
    pub fn starved(&self) -> u64
        ensures { result ≡ self.now.starved }
    {
        self.starved
    }
}

// What is kept under a name, if anything is.
fn kept_of<'a>(
    here: &'a Option<NamedFile>,
    files: &'a [NamedFile],
    name: &str,
) -> Option<&'a NamedFile>
    ensures some { IfSome (option_copied result) (λ k. k ≡ standing here.now files.now name.now) }
    ensures known { is_some (option_copied result) ≡ is_known_at here.now files.now name.now }
    ensures none { option_copied result ≡ None → standing here.now files.now name.now
        ≡ record { name = name.now; read = absent; others = [] } }
{
    if let Some(kept) = here
        && kept.is_named(name)
    {
        return Some(kept);
    }
    match place_of(files, name) {
        Some(i) => Some(&files[i]),
        None => None,
    }
}

// What is kept of files that are handed in.
fn keep_all(alloc: Global, files: Vec<(String, Vec<u8>)>) -> Result<Vec<NamedFile>, AllocError>
    ensures { IfOk result (λ kept. kept.items ≡ map handed_in files.items) }
{
    let mut kept = Vec::new(alloc);
    for (name, bytes) in files {
        kept.push(NamedFile::new(alloc, name, Some(bytes))?)?;
    }
    Ok(kept)
}

// The calls, by what they do to what is kept.
impl MemoryShelf {
    fn select_name(&mut self, name: &str) -> Result<(), Failed>
        ensures selected { OnOk result (option_map (λ h. h.name) self.new.here ≡ Some name.now) }
        ensures closed { OnOk result (self.new.draft ≡ None) }
        ensures here { OnErr result (self.new.here ≡ self.old.here) }
        ensures draft { OnErr result (self.new.draft ≡ self.old.draft) }
        ensures same { (other : List ℕ) → standing self.new.here self.new.files other
            ≡ standing self.old.here self.old.files other }
        ensures known { KnowsToo result name.now self.old.here self.old.files self.new.here
            self.new.files }
        ensures log { NotesOrNot self.old.log self.new.log }
        ensures noted { OnOk result (Notes self.old.log self.new.log) }
        ensures loads { self.new.loads ≡ self.old.loads }
        ensures ends { EndsReading ⊥ result self.old self.new }
    {
        let brought = bring_noted(
            self.alloc,
            &mut self.here,
            &mut self.files,
            &mut self.log,
            &self.calls,
            name,
        );
        let ended = end_reading(&mut self.calls, &mut self.starved, brought);
        close_if(&mut self.draft, ended.is_ok());
        ended
    }

    fn open_draft(&mut self) -> Result<(), Failed>
        ensures opened { OnOk result (self.new.draft ≡ Some empty_draft) }
        ensures closed { OnErr result (self.new.draft ≡ None) }
        ensures keeps { KeepsFiles self.old self.new }
        ensures noted { OnOk result (Notes self.old.log self.new.log) }
        ensures loads { self.new.loads ≡ self.old.loads }
        ensures ends { EndsSaving NextCallFails result self.old self.new }
    {
        let noted = note(&mut self.log);
        let ended = end_saving(&mut self.calls, &mut self.starved, noted);
        self.draft = open_if(self.alloc, ended.is_ok());
        ended
    }

    fn add_to_draft(&mut self, bytes: &[u8]) -> Result<(), Failed>
        requires { is_some self.old.draft ≡ true }
        ensures opened { is_some self.new.draft ≡ true }
        ensures added { OnOk result ((draft_in self.new.draft).bytes
            ≡ (draft_in self.old.draft).bytes ++ bytes.now) }
        ensures not_synced { (draft_in self.new.draft).is_synced ≡ false }
        ensures keeps { KeepsFiles self.old self.new }
        ensures noted { OnOk result (Notes self.old.log self.new.log) }
        ensures loads { self.new.loads ≡ self.old.loads }
        ensures ends { EndsSaving NextCallFails result self.old self.new }
    {
        let added = add_noted(&mut self.draft, &mut self.log, &self.calls, bytes);
        end_saving(&mut self.calls, &mut self.starved, added)
    }

    fn sync_draft(&mut self) -> Result<(), Failed>
        requires { is_some self.old.draft ≡ true }
        ensures opened { is_some self.new.draft ≡ true }
        ensures bytes { (draft_in self.new.draft).bytes ≡ (draft_in self.old.draft).bytes }
        ensures synced { (draft_in self.new.draft).is_synced ≡ is_ok result }
        ensures keeps { KeepsFiles self.old self.new }
        ensures noted { OnOk result (Notes self.old.log self.new.log) }
        ensures loads { self.new.loads ≡ self.old.loads }
        ensures ends { EndsSaving NextCallFails result self.old self.new }
    {
        let noted = note(&mut self.log);
        let ended = end_saving(&mut self.calls, &mut self.starved, noted);
        set_synced(&mut self.draft, ended.is_ok());
        ended
    }

    fn swap_draft(&mut self) -> Result<(), Failed>
        requires selected { IsSome self.old.here }
        requires opened { is_some self.old.draft ≡ true }
        ensures closed { self.new.draft ≡ None }
        ensures files { self.new.files ≡ self.old.files }
        ensures here { IfSome self.old.here (λ h. IsSwapped result h (draft_in self.old.draft)
            self.new.here) }
        ensures stopped { IsStopped self.old.calls → self.new.here ≡ self.old.here }
        ensures listed { IsListed self.old.calls → (IsStopped self.old.calls → ⊥)
            → LeavesBoth self.old self.new }
        ensures starved { OnErr result (NextCallFails self.old.calls ⊎
            (self.new.here ≡ self.old.here)) }
        ensures log { NotesOrNot self.old.log self.new.log }
        ensures noted { OnOk result (Notes self.old.log self.new.log) }
        ensures loads { self.new.loads ≡ self.old.loads }
        ensures ends { EndsSaving IsStopped result self.old self.new }
    {
        let bytes = self.draft.take().unwrap().into_bytes();
        let swapped = swap_noted(&mut self.here, &mut self.log, &self.calls, bytes);
        end_swapping(&mut self.calls, &mut self.starved, swapped)
    }

    fn settle_name(&mut self) -> Result<(), Failed>
        requires { IsSome self.old.here }
        ensures draft { self.new.draft ≡ self.old.draft }
        ensures files { self.new.files ≡ self.old.files }
        ensures here { IfSome self.old.here (λ h. IsSettled result h self.old.log self.new.here
            self.new.log) }
        ensures loads { self.new.loads ≡ self.old.loads }
        ensures ends { EndsSaving NextCallFails result self.old self.new }
    {
        let failed = self.calls.next_fails();
        if failed {
            let noted = note(&mut self.log);
            return conclude_saving(&mut self.calls, &mut self.starved, true, noted);
        }
        let mut here = self.here.take().unwrap();
        let settled = settle_kept(self.alloc, &mut here, &mut self.log);
        self.here = Some(here);
        conclude_saving(&mut self.calls, &mut self.starved, false, settled)
    }

    fn load_part(&mut self, at: u64, buf: &mut [u8]) -> Result<usize, Failed>
        requires { IsSome self.old.here }
        ensures within { IfOk result (λ k. k ≤ length buf.old) }
        ensures given { IfOk result
            (λ k. IfSome (shown self.old) (λ c. GivesPart c at (length buf.old) (take k buf.new))) }
        ensures draft { self.new.draft ≡ self.old.draft }
        ensures keeps { KeepsFiles self.old self.new }
        ensures noted { OnOk result (Notes self.old.log self.new.log) }
        ensures counted { Counted self.old.loads self.new.loads }
        ensures ends { EndsReading (shown self.old ≡ Some absent) result self.old self.new }
    {
        self.loads = self.loads.saturating_add(1);
        let given = give_noted(&self.here, &mut self.log, &self.calls, at, buf);
        end_giving(&mut self.calls, &mut self.starved, given)
    }
}

impl Shelf for MemoryShelf {
    ghost shelf_state = { λ s. record {
      selected = option_map (λ h. h.name) s.here;
      is_open = is_some s.draft;
      disk = Some (disk_of s);
      loads = s.loads;
      reading = s.calls.reading;
      saving = s.calls.saving;
    } };

    fn select(&mut self, name: &str) -> Result<(), Failed>
        ensures selected { OnOk result (option_map (λ h. h.name) self.new.here ≡ Some name.now) }
        ensures closed { OnOk result (is_some self.new.draft ≡ false) }
        ensures as_before { OnErr result (option_map (λ h. h.name) self.new.here
            ≡ option_map (λ h. h.name) self.old.here) }
        ensures open_as_before { OnErr result (is_some self.new.draft ≡ is_some self.old.draft) }
        ensures draft_as_before { OnErr result (draft_in self.new.draft ≡ draft_in self.old.draft) }
        ensures contents { known_content self.new ≡ known_content self.old }
        ensures quiet { IsQuiet (disk_of self.old) (disk_of self.new) }
        ensures advances { OnOk result (length self.old.log < length self.new.log) }
        ensures saving { self.new.calls.saving ≡ self.old.calls.saving }
        ensures loads { self.new.loads ≡ self.old.loads }
        ensures cause { HasCause self.old.calls.reading self.new.calls.reading result }
        ensures ends { EndsReading ⊥ result self.old self.new }
        ensures known { KnowsToo result name.now self.old.here self.old.files self.new.here
            self.new.files }
    {
        self.select_name(name)
    }

    fn load(&mut self, at: u64, buf: &mut [u8]) -> Result<usize, Failed>
        requires { IsSome self.old.here }
        ensures within { IfOk result (λ k. k ≤ length buf.old) }
        ensures given { IfOk result
            (λ k. IfSome (shown self.old) (λ c. GivesPart c at (length buf.old) (take k buf.new))) }
        ensures selected { option_map (λ h. h.name) self.new.here ≡ option_map (λ h. h.name)
            self.old.here }
        ensures opened { is_some self.new.draft ≡ is_some self.old.draft }
        ensures draft { draft_in self.new.draft ≡ draft_in self.old.draft }
        ensures contents { known_content self.new ≡ known_content self.old }
        ensures quiet { IsQuiet (disk_of self.old) (disk_of self.new) }
        ensures advances { OnOk result (length self.old.log < length self.new.log) }
        ensures saving { self.new.calls.saving ≡ self.old.calls.saving }
        ensures counted { Counted self.old.loads self.new.loads }
        ensures cause { HasCause self.old.calls.reading self.new.calls.reading result }
        ensures ends { EndsReading (shown self.old ≡ Some absent) result self.old self.new }
        ensures known { KnowsSame self.old self.new }
    {
        self.load_part(at, buf)
    }

    fn draft_new(&mut self) -> Result<(), Failed>
        requires { IsSome self.old.here }
        ensures opened { OnOk result (is_some self.new.draft ≡ true) }
        ensures empty { OnOk result (draft_in self.new.draft ≡ empty_draft) }
        ensures closed { OnErr result (is_some self.new.draft ≡ false) }
        ensures selected { option_map (λ h. h.name) self.new.here ≡ option_map (λ h. h.name)
            self.old.here }
        ensures quiet { IsQuiet (disk_of self.old) (disk_of self.new) }
        ensures advances { OnOk result (length self.old.log < length self.new.log) }
        ensures reading { self.new.calls.reading ≡ self.old.calls.reading }
        ensures loads { self.new.loads ≡ self.old.loads }
        ensures cause { HasCause self.old.calls.saving self.new.calls.saving result }
        ensures ends { EndsSaving NextCallFails result self.old self.new }
        ensures known { KnowsSame self.old self.new }
    {
        self.open_draft()
    }

    fn draft_add(&mut self, bytes: &[u8]) -> Result<(), Failed>
        requires selected { IsSome self.old.here }
        requires opened { is_some self.old.draft ≡ true }
        ensures opened { is_some self.new.draft ≡ true }
        ensures added { OnOk result ((draft_in self.new.draft).bytes
            ≡ (draft_in self.old.draft).bytes ++ bytes.now) }
        ensures not_synced { (draft_in self.new.draft).is_synced ≡ false }
        ensures selected { option_map (λ h. h.name) self.new.here ≡ option_map (λ h. h.name)
            self.old.here }
        ensures quiet { IsQuiet (disk_of self.old) (disk_of self.new) }
        ensures advances { OnOk result (length self.old.log < length self.new.log) }
        ensures reading { self.new.calls.reading ≡ self.old.calls.reading }
        ensures loads { self.new.loads ≡ self.old.loads }
        ensures cause { HasCause self.old.calls.saving self.new.calls.saving result }
        ensures ends { EndsSaving NextCallFails result self.old self.new }
        ensures known { KnowsSame self.old self.new }
    {
        self.add_to_draft(bytes)
    }

    fn draft_sync(&mut self) -> Result<(), Failed>
        requires selected { IsSome self.old.here }
        requires opened { is_some self.old.draft ≡ true }
        ensures opened { is_some self.new.draft ≡ true }
        ensures bytes { OnOk result ((draft_in self.new.draft).bytes
            ≡ (draft_in self.old.draft).bytes) }
        ensures synced { OnOk result ((draft_in self.new.draft).is_synced ≡ true) }
        ensures not_synced { OnErr result ((draft_in self.new.draft).is_synced ≡ false) }
        ensures selected { option_map (λ h. h.name) self.new.here ≡ option_map (λ h. h.name)
            self.old.here }
        ensures quiet { IsQuiet (disk_of self.old) (disk_of self.new) }
        ensures advances { OnOk result (length self.old.log < length self.new.log) }
        ensures reading { self.new.calls.reading ≡ self.old.calls.reading }
        ensures loads { self.new.loads ≡ self.old.loads }
        ensures cause { HasCause self.old.calls.saving self.new.calls.saving result }
        ensures ends { EndsSaving NextCallFails result self.old self.new }
        ensures known { KnowsSame self.old self.new }
    {
        self.sync_draft()
    }

    fn swap_in(&mut self) -> Result<(), Failed>
        requires selected { IsSome self.old.here }
        requires opened { is_some self.old.draft ≡ true }
        ensures closed { is_some self.new.draft ≡ false }
        ensures swaps { IfSome (option_map (λ h. h.name) self.old.here)
            (λ name. SwapsIn result name (disk_of self.old) (disk_of self.new)) }
        ensures selected { option_map (λ h. h.name) self.new.here ≡ option_map (λ h. h.name)
            self.old.here }
        ensures advances { OnOk result (length self.old.log < length self.new.log) }
        ensures reading { self.new.calls.reading ≡ self.old.calls.reading }
        ensures loads { self.new.loads ≡ self.old.loads }
        ensures cause { HasCause self.old.calls.saving self.new.calls.saving result }
        ensures ends { EndsSaving IsStopped result self.old self.new }
        ensures stopped { IsStopped self.old.calls → self.new.here ≡ self.old.here }
        ensures listed { IsListed self.old.calls → (IsStopped self.old.calls → ⊥)
            → LeavesBoth self.old self.new }
        ensures starved { OnErr result (NextCallFails self.old.calls ⊎
            (self.new.here ≡ self.old.here)) }
        ensures known { KnowsSame self.old self.new }
    {
        self.swap_draft()
    }

    fn settle(&mut self) -> Result<(), Failed>
        requires { IsSome self.old.here }
        ensures opened { is_some self.new.draft ≡ is_some self.old.draft }
        ensures draft { draft_in self.new.draft ≡ draft_in self.old.draft }
        ensures settles { IfSome (option_map (λ h. h.name) self.old.here)
            (λ name. SettlesAt result name (disk_of self.old) (disk_of self.new)) }
        ensures selected { option_map (λ h. h.name) self.new.here ≡ option_map (λ h. h.name)
            self.old.here }
        ensures advances { OnOk result (length self.old.log < length self.new.log) }
        ensures reading { self.new.calls.reading ≡ self.old.calls.reading }
        ensures loads { self.new.loads ≡ self.old.loads }
        ensures cause { HasCause self.old.calls.saving self.new.calls.saving result }
        ensures ends { EndsSaving NextCallFails result self.old self.new }
        ensures known { KnowsSame self.old self.new }
    {
        self.settle_name()
    }
}
