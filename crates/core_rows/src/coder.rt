//! A coder that passes a gate in each plane.
ghost use Rattle.std.specs.Prelude.{◌≡◌, false};
ghost use Rattle.spec_rle.specs.Greedy as spelling;

use crate::gates::WORKER;
use std::alloc::{AllocError, Global};
use xl_ports::{Gate, Place};
use xl_rle::{Greedy, PlaneCoder};

/// Codes as `Greedy` does.
#[derive(Drop)]
pub(crate) struct GatedCoder<'a, G: Gate> {
    pub(crate) gate: &'a G,
}

impl<'a, G: Gate> PlaneCoder for GatedCoder<'a, G> {
    ghost fits = { λ plane bytes. bytes ≡ spelling.greedy plane };

    ghost follows = { λ before plane after. Unit {0} };

    ghost keeping = { false };

    ghost any_fits = { tt };

    ghost stays = { tt };

    fn keeps(&self) -> bool {
        false
    }

    fn encode_plane(
        &mut self,
        alloc: Global,
        plane: &[u8],
        out: &mut Vec<u8>,
    ) -> Result<(), AllocError> {
        self.gate.pass(WORKER, Place::JobTaken);
        Greedy.encode_plane(alloc, plane, out)
    }
}
