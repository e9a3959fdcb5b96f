ghost use Rattle.std.specs.Prelude.{◌≡◌, ◌≤◌, ◌+◌, List, ℕ, Bool, true, false, length, refl, OnOk, OnErr};
ghost use Rattle.std.specs.Bool.{OnTrue};
ghost use Rattle.spec_rle.specs.declared.TheConstants.{MAX_EXCESS};
ghost use Rattle.spec_rle.specs.Codes.{Spells};
ghost use Rattle.spec_rle.specs.Greedy as spelling;
ghost use Rattle.xl_rle.specs.Appends.{Appends};

use crate::greedy::encode_greedy;
use std::alloc::{AllocError, Global};

/// A coder of planes: it picks one of the spellings of a plane.
pub trait PlaneCoder {
    ghost fits: { List ℕ → List ℕ → Type 0 };

    /// What becomes of a coder, as it was and as it is, by a plane that it codes.
    ghost follows: { Self → List ℕ → Self → Type 0 };

    /// Whether a spelling that stands in a file is kept as it is.
    ghost keeping: { Bool };

    /// Where it is kept, each spelling fits that has at most `MAX_EXCESS` bytes more than the plane.
    ghost any_fits: { OnTrue keeping ((plane spelled : List ℕ) → Spells spelled plane
        → length spelled ≤ length plane + MAX_EXCESS → fits plane spelled) };

    /// Where it is kept, a coder may stay as it is by the plane.
    ghost stays: { OnTrue keeping ((coder : Self) (plane : List ℕ) → follows coder plane coder) };

    /// Whether the coder keeps a spelling that stands in a file as it is.
    fn keeps(&self) -> bool
        ensures { result ≡ keeping };

    /// Appends a spelling of the plane that fits it, and follows the plane. Out of memory, `out` is as before.
    fn encode_plane(
        &mut self,
        alloc: Global,
        plane: &[u8],
        out: &mut Vec<u8>,
    ) -> Result<(), AllocError>
        requires some { 1 ≤ length plane.now }
        requires few { length plane.now ≤ 4096 }
        ensures ok { OnOk result (Appends fits plane.now out.old.items out.new.items) }
        ensures followed { OnOk result (follows self.old plane.now self.new) }
        ensures err { OnErr result (out.new.items ≡ out.old.items) };
}

/// The coder that takes each run of three or more equal bytes whole, and what lies between as it is.
#[derive(Clone, Copy, Debug)]
pub struct Greedy;

impl PlaneCoder for Greedy {
    ghost fits = { λ plane bytes. bytes ≡ spelling.greedy plane };

    ghost follows = { λ before plane after. after ≡ before };

    ghost keeping = { false };

    ghost any_fits = { tt };

    ghost stays = { tt };

    fn keeps(&self) -> bool {
        false
    }

    fn encode_plane(
        &mut self,
        _alloc: Global,
        plane: &[u8],
        out: &mut Vec<u8>,
    ) -> Result<(), AllocError> {
        encode_greedy(plane, out)
    }
}

/// The coder that keeps what stands in a file, and codes all other planes as `Greedy` does.
#[derive(Clone, Copy, Debug)]
pub struct Keeping;

impl PlaneCoder for Keeping {
    ghost fits = { λ plane bytes. length bytes ≤ length plane + MAX_EXCESS };

    ghost follows = { λ before plane after. after ≡ before };

    ghost keeping = { true };

    ghost any_fits = { λ plane spelled spells short. short };

    ghost stays = { λ coder plane. refl };

    fn keeps(&self) -> bool {
        true
    }

    fn encode_plane(
        &mut self,
        _alloc: Global,
        plane: &[u8],
        out: &mut Vec<u8>,
    ) -> Result<(), AllocError> {
        encode_greedy(plane, out)
    }
}
