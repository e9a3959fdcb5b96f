ghost use Rattle.std.specs.Prelude.{◌≡◌, ◌+◌, ◌*◌, ◌≤◌, ◌<◌, ◌^◌, ◌||◌, not, is_none, nat_lt, length, IsTrue, IfOk};
ghost use Rattle.spec_document.specs.Document.{area, all_kept, kept_bytes};
ghost use Rattle.spec_file.specs.declared.TheConstants.{FILE_LIMIT};
ghost use Rattle.spec_file.specs.Channels.{with_channel, channel_rule, channel_at};
ghost use Rattle.spec_props.specs.Meaning.{is_selection};
ghost use Rattle.xl_read.specs.Yields.{Yields};
ghost use Rattle.spec_document.specs.declared.TheConstants.{MAX_KEPT_BYTES};

use crate::channel_head::ChannelHead;
use crate::draft::DocumentDraft;
use crate::listing::Listing;
use crate::owners::OfChannel;
use crate::words::Shape;
use spec_document::MAX_AREA;
use std::alloc::Global;
use xl_doc::{Channel, MAX_CHANNELS};
use xl_fields::{Kind, ReadRefused, ReadRefusedOrMemory, refuse};
use xl_hier::TileFile;

/// Whether it is no second selection.
fn is_first(draft: &DocumentDraft, selection: bool) -> bool
    ensures { result ≡ (not selection || is_none draft.now.selection) }
{
    !selection || !draft.has_selection()
}

/// Whether it is the selection, or there is room for one channel more.
fn has_place(draft: &DocumentDraft, selection: bool) -> bool
    ensures { result ≡ (selection || nat_lt (length draft.now.channels) MAX_CHANNELS) }
{
    selection || draft.channel_count() < MAX_CHANNELS as usize
}

/// Makes a channel the selection, or puts it last.
fn put(draft: &mut DocumentDraft, selection: bool, channel: Channel)
    requires first { IsTrue (not selection || is_none draft.old.selection) }
    requires few { IsTrue (selection || nat_lt (length draft.old.channels) MAX_CHANNELS) }
    requires area { area draft.old + draft.old.width * draft.old.height ≤ MAX_AREA }
    requires kept { all_kept draft.old + kept_bytes channel.kept ≤ MAX_KEPT_BYTES }
    ensures { draft.new ≡ with_channel draft.old selection channel }
{
    if selection {
        draft.set_selection(channel);
    } else {
        draft.push_channel(channel);
    }
}

/// Refuses a second selection, a channel too many, and a channel for whose pixels there is no room. It stands at `at`,
/// and the pointer to it at `place`.
#[tactic(auto, unfolding(spec_file::specs::Channels::channel_rule))]
fn check_channel(
    draft: &DocumentDraft,
    props: &Listing<OfChannel>,
    at: usize,
    place: usize,
) -> Result<(), ReadRefused>
    ensures rule { result ≡ channel_rule draft.now props.now at place }
    ensures first { IfOk result (λ _. IsTrue (not (is_selection props.now.list)
        || is_none draft.now.selection)) }
    ensures few { IfOk result (λ _. IsTrue (is_selection props.now.list
        || nat_lt (length draft.now.channels) MAX_CHANNELS)) }
    ensures area { IfOk result (λ _. area draft.now + draft.now.width * draft.now.height
        ≤ MAX_AREA) }
{
    let selection = props.is_selection();
    if !is_first(draft, selection) {
        return Err(refuse(Kind::TwoSelections, props.selection_place()));
    }
    if !has_place(draft, selection) {
        return Err(refuse(Kind::TooMany, place));
    }
    if draft.area() + draft.canvas() > MAX_AREA {
        return Err(refuse(Kind::TooLarge, at));
    }
    Ok(())
}

/// Reads the channel at the offset `at`, and makes it the selection or puts it last; or its first fault. At `place`
/// stands the pointer to it.
#[tactic(auto, unfolding(spec_file::specs::Channels::channel_at))]
pub fn channel_at<F: TileFile>(
    alloc: Global,
    file: &[u8],
    shared: &F,
    at: usize,
    place: usize,
    draft: &mut DocumentDraft,
) -> Result<(), ReadRefusedOrMemory>
    requires file { length file.now ≤ FILE_LIMIT }
    requires shared { file.now ≡ F.bytes shared.now }
    requires can { F.can_read shared.now }
    requires at { at < 2 ^ 32 }
    ensures { Yields result (λ _. draft.new) (channel_at file.now at place draft.old) }
{
    let shape = Shape::of_canvas(draft);
    let before = draft.kept_bytes();
    let head: ChannelHead<OfChannel> = ChannelHead::read(
        alloc,
        file,
        at,
        shape,
        Kind::ChannelSize,
        before,
    )?;
    check_channel(draft, &head.props, at, place)?;
    let selection = head.props.is_selection();
    let channel = head.into_channel(alloc, file, shared, shape)?;
    put(draft, selection, channel);
    Ok(())
}
