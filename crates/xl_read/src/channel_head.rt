ghost use Rattle.std.specs.Prelude.{◌≡◌, ◌+◌, ◌≤◌, ◌<◌, ◌^◌, length, IfOk};
ghost use Rattle.spec_document.specs.Document.{kept_bytes};
ghost use Rattle.spec_document.specs.Limits.{IsSide};
ghost use Rattle.spec_file.specs.declared.TheConstants.{FILE_LIMIT};
ghost use Rattle.spec_props.specs.Meaning.{kept_of};
ghost use Rattle.xl_fields.specs.Gives.{Gives, SpanOf};
ghost use Rattle.spec_file.specs.ChannelHead.{named_at, pixels_at, channel_head_at, channel_of};
ghost use Rattle.spec_document.specs.declared.TheConstants.{MAX_KEPT_BYTES};

use crate::listing::{Listing, Owned};
use crate::words::{Shape, plane_at, pointer_at, same_word_at};
use std::alloc::Global;
use std::marker::Model;
use xl_doc::{Bytes, Channel};
use xl_fields::{Kind, ReadRefused, ReadRefusedOrMemory, Span, string_at};
use xl_hier::TileFile;

/// What a file has of a channel or a mask before its pixels.
#[derive(Drop)]
pub struct ChannelHead<'a, O: Owned> {
    name: Bytes,
    pub props: Listing<'a, O>,
    hierarchy: u32,
}

impl<'a, O: Owned> Model for ChannelHead<'a, O> {
    ghost use Rattle.spec_file.specs.ChannelHead as head;

    ghost Value = { head.ChannelHead };

    ghost view = { λ h. record { name = h.name; props = h.props; hierarchy = h.hierarchy } };
}

/// The name behind the sides, which are refused, as this kind, where they are not those of this shape.
#[tactic(auto, unfolding(spec_file::specs::ChannelHead::named_at))]
fn named_at(file: &[u8], at: usize, shape: Shape, kind: Kind) -> Result<Span, ReadRefused>
    requires file { length file.now ≤ FILE_LIMIT }
    requires at { at < 2 ^ 32 }
    ensures read { SpanOf file.now result (named_at file.now kind at shape.width shape.height) }
    ensures within { IfOk result (λ s. s.start + s.len ≤ length file.now) }
    ensures next { IfOk result (λ s. s.next ≤ 2 ^ 33) }
{
    same_word_at(file, at, shape.width, kind)?;
    same_word_at(file, at + 4, shape.height, kind)?;
    string_at(file, at + 8)
}

/// The pointer to the pixels. Refuses before it what the properties keep, where so many bytes are kept before them.
#[tactic(auto, unfolding(spec_file::specs::ChannelHead::pixels_at))]
fn pixels_at<O: Owned>(file: &[u8], props: &Listing<O>, before: u64) -> Result<u32, ReadRefused>
    requires before { before ≤ MAX_KEPT_BYTES }
    ensures read { result ≡ pixels_at file.now O.owner props.now before }
    ensures room { IfOk result (λ _. before + kept_bytes (kept_of O.owner props.now.list)
        ≤ MAX_KEPT_BYTES) }
{
    props.check_kept(before)?;
    pointer_at(file, props.end() + 8, Kind::BadHierarchy)
}

impl<'a, O: Owned> ChannelHead<'a, O> {
    /// The head at an offset, or its first fault: `kind` where its sides are not those of this shape. So many bytes of
    /// payload are kept before.
    #[tactic(auto, unfolding(spec_file::specs::ChannelHead::channel_head_at))]
    pub fn read(
        alloc: Global,
        file: &'a [u8],
        at: usize,
        shape: Shape,
        kind: Kind,
        before: u64,
    ) -> Result<ChannelHead<'a, O>, ReadRefusedOrMemory>
        requires file { length file.now ≤ FILE_LIMIT }
        requires at { at < 2 ^ 32 }
        requires before { before ≤ MAX_KEPT_BYTES }
        ensures read { Gives result (channel_head_at file.now O.owner kind at shape.width
            shape.height before) }
        ensures room { IfOk result (λ head. before + kept_bytes (kept_of O.owner head.props.list)
            ≤ MAX_KEPT_BYTES) }
    {
        let name = named_at(file, at, shape, kind)?;
        let props: Listing<O> = Listing::read(alloc, file, name.next)?;
        let hierarchy = pixels_at(file, &props, before)?;
        let name = Bytes::from_slice(alloc, &file[name.start..name.start + name.len])?;
        Ok(ChannelHead {
            name,
            props,
            hierarchy,
        })
    }

    /// The channel or the mask, with its pixels, or their first fault.
    #[tactic(auto, unfolding(spec_file::specs::ChannelHead::channel_of))]
    pub fn into_channel<F: TileFile>(
        self,
        alloc: Global,
        file: &[u8],
        shared: &F,
        shape: Shape,
    ) -> Result<Channel, ReadRefusedOrMemory>
        requires shared { file.now ≡ F.bytes shared.now }
        requires can { F.can_read shared.now }
        requires width { IsSide shape.width }
        requires height { IsSide shape.height }
        requires bpp { shape.bpp ≡ 1 }
        requires compression { shape.compression ≤ 1 }
        ensures read { Gives result (channel_of file.now O.owner self.entry shape.width shape.height
            shape.compression) }
        ensures width { IfOk result (λ channel. channel.plane.width ≡ shape.width) }
        ensures height { IfOk result (λ channel. channel.plane.height ≡ shape.height) }
        ensures kept { IfOk result (λ channel. channel.kept
            ≡ kept_of O.owner self.entry.props.list) }
    {
        let ChannelHead {
            name,
            props,
            hierarchy,
        } = self;
        let plane = plane_at(alloc, file, shared, hierarchy, shape)?;
        let kept = props.into_kept();
        Ok(Channel { name, kept, plane })
    }
}
