//! A plane of bytes spelled by run-length codes.
#![tactic(auto)]

ghost use Rattle.std.specs.Prelude.{◌≡◌, ◌↔◌, ℕ, ◌<◌, List, Ok};
ghost use Rattle.std.specs.List.{AllByRecursion};
ghost use Rattle.spec_rle.specs.Codes.{Spells};
ghost use Rattle.spec_rle.specs.Reading.{Part, plane_at};
ghost use Rattle.spec_rle.specs.Standing.{IsSpelledAt};

/// How many codes a plane has at most.
pub const MAX_CODES: u32 = 8192;

/// The first byte of a run in the long form.
pub const LONG_RUN: u8 = 127;

/// The first byte of literal bytes in the long form.
pub const LONG_LITERAL: u8 = 128;

/// The most bytes of a plane that a code in the short form gives.
pub const MAX_SHORT: u32 = 127;

/// The most bytes of a plane that a code in the long form gives.
pub const MAX_LONG: u32 = 65535;

/// How many bytes more than the plane a spelling has at most that is written.
pub const MAX_EXCESS: usize = 64;

/// A spelling spells one plane of a length.
pub fn spells_one_plane()
    ensures { (bytes a b : List ℕ) → Spells bytes a → Spells bytes b → a ≡ b }
{}

/// A plane is read from an offset of a file exactly where the bytes from there to the next offset are a spelling of it.
pub fn planes_are_read_where_they_are_spelled()
    ensures { (file : List ℕ) (at n : ℕ) (part : Part) → AllByRecursion (λ b. b < 256) file → 0 < n
        → (plane_at file at n ≡ Ok part) ↔ IsSpelledAt file at n part }
{}
