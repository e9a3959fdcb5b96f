ghost use Rattle.std.specs.Prelude.{◌≡◌, ◌≤◌, ◌^◌, length, OnOk, IfOk};
ghost use Rattle.spec_document.specs.Forest.{size};
ghost use Rattle.spec_file.specs.declared.TheConstants.{FILE_LIMIT};
ghost use Rattle.spec_file.specs.Layers.{nodes_at};
ghost use Rattle.spec_file.specs.Channels.{channels_at};
ghost use Rattle.xl_read.specs.Yields.{Yields};

use crate::channel::channel_at;
use crate::draft::DocumentDraft;
use crate::layer::node_at;
use spec_file::CHANNEL_POINTERS;
use std::alloc::Global;
use xl_doc::MAX_NODES;
use xl_fields::{Kind, ReadRefusedOrMemory, refuse, u32_at};
use xl_hier::TileFile;

/// Puts in the layers whose pointers stand from an offset on. Answers the offset behind the zero that ends them.
#[tactic(auto, using(crate::proofs::Pointers::nodes_next, crate::proofs::Pointers::nodes_fault, crate::proofs::Pointers::nodes_end, crate::proofs::Pointers::nodes_cut, crate::proofs::Pointers::nodes_many))]
pub fn nodes_at<F: TileFile>(
    alloc: Global,
    file: &[u8],
    shared: &F,
    at: usize,
    draft: &mut DocumentDraft,
) -> Result<usize, ReadRefusedOrMemory>
    requires file { length file.now ≤ FILE_LIMIT }
    requires shared { file.now ≡ F.bytes shared.now }
    requires can { F.can_read shared.now }
    requires place { at ≤ 2 ^ 33 }
    requires empty { size draft.old.nodes ≡ 0 }
    ensures read { Yields result (λ next. record { document = draft.new; next = next })
        (nodes_at MAX_NODES file.now at draft.old) }
    ensures within { IfOk result (λ next. next ≤ length file.now) }
{
    for i in 0..MAX_NODES as usize {
        let place = at + 4 * i;
        let pointer = u32_at(file, place)?;
        if pointer == 0 {
            return Ok(place + 4);
        }
        node_at(alloc, file, shared, pointer as usize, draft)?;
    }
    let place = at + 4 * MAX_NODES as usize;
    if u32_at(file, place)? != 0 {
        return Err(refuse(Kind::TooMany, place).into());
    }
    Ok(place + 4)
}

/// Puts in the channels whose pointers stand from an offset on.
#[tactic(auto, using(crate::proofs::Pointers::channels_next, crate::proofs::Pointers::channels_fault, crate::proofs::Pointers::channels_end, crate::proofs::Pointers::channels_cut, crate::proofs::Pointers::channels_many))]
pub fn channels_at<F: TileFile>(
    alloc: Global,
    file: &[u8],
    shared: &F,
    at: usize,
    draft: &mut DocumentDraft,
) -> Result<(), ReadRefusedOrMemory>
    requires file { length file.now ≤ FILE_LIMIT }
    requires shared { file.now ≡ F.bytes shared.now }
    requires can { F.can_read shared.now }
    requires place { at ≤ 2 ^ 33 }
    ensures { Yields result (λ _. draft.new) (channels_at CHANNEL_POINTERS file.now at draft.old) }
{
    for i in 0..CHANNEL_POINTERS {
        let place = at + 4 * i;
        let pointer = u32_at(file, place)?;
        if pointer == 0 {
            return Ok(());
        }
        channel_at(alloc, file, shared, pointer as usize, place, draft)?;
    }
    Err(refuse(Kind::TooMany, at + 4 * CHANNEL_POINTERS).into())
}
