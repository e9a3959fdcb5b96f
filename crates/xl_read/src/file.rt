ghost use Rattle.std.specs.Prelude.{◌≡◌, ◌≤◌, ◌^◌, length, IfOk};
ghost use Rattle.std.specs.Arc.{arc_value};
ghost use Rattle.spec_document.specs.Document.{Document as Plain};
ghost use Rattle.spec_document.specs.declared.Owner.TheVariants as owners;
ghost use Rattle.spec_document.specs.Forest.{size};
ghost use Rattle.spec_document.specs.Document.{kept_bytes};
ghost use Rattle.spec_document.specs.Limits.{IsSide, IsDocument};
ghost use Rattle.spec_file.specs.declared.TheConstants.{FILE_LIMIT};
ghost use Rattle.spec_file.specs.Holds.{Holds};
ghost use Rattle.spec_file.specs.Reading.{blank, image_rule, beginning, reading};
ghost use Rattle.spec_props.specs.Meaning.{kept_of};
ghost use Rattle.xl_doc.specs.Numbered.{AreNumbered};
ghost use Rattle.xl_fields.specs.Gives.{Gives};
ghost use Rattle.xl_read.specs.Decoded.{IsDecoded};
ghost use Rattle.xl_read.specs.Yields.{Yields, OnRefused};
ghost use Rattle.spec_document.specs.declared.TheConstants.{MAX_KEPT_BYTES};

use crate::draft::DocumentDraft;
use crate::header::{Header, header_at, is_indexed};
use crate::listing::Listing;
use crate::lists::{channels_at, nodes_at};
use crate::owners::OfImage;
use std::alloc::{AllocError, Global};
use std::sync::Arc;
use std::thread::Threads;
use xl_doc::{ColourMap, Document, know_bytes};
use xl_fields::{Kind, ReadRefused, ReadRefusedOrMemory, refuse};
use xl_hier::{FileBeside, TileFile};

/// The offset of the properties of the image.
const PROPERTIES: usize = 26;

/// The document before any layer or channel.
fn blank(
    alloc: Global,
    header: Header,
    props: Listing<OfImage>,
) -> Result<DocumentDraft, AllocError>
    requires width { IsSide header.width }
    requires height { IsSide header.height }
    requires kept { kept_bytes (kept_of owners.Image props.list) ≤ MAX_KEPT_BYTES }
    ensures { IfOk result (λ draft. draft ≡ blank header props.entry) }
{
    let compression = props.compression();
    let (colours, kept) = props.into_parts(alloc);
    let colours = if is_indexed(header.base) {
        colours
    } else {
        ColourMap::new(alloc)
    };
    DocumentDraft::new(alloc, header, compression, colours, kept)
}

/// Refuses what the list of the image keeps, where there is no room for it, and an indexed image without colours.
#[tactic(auto, unfolding(spec_file::specs::Reading::image_rule))]
fn check_image(header: &Header, props: &Listing<OfImage>) -> Result<(), ReadRefused>
    ensures rule { result ≡ image_rule header.now props.now }
    ensures kept { IfOk result (λ _. kept_bytes (kept_of owners.Image props.now.list) ≤ MAX_KEPT_BYTES) }
{
    props.check_kept(0)?;
    if is_indexed(header.base) && !props.has_colours() {
        return Err(refuse(Kind::NoColourMap, props.end()));
    }
    Ok(())
}

/// A document before any layer or channel, and the offset of the layer pointers.
#[derive(Drop)]
struct Beginning {
    draft: DocumentDraft,
    layers: usize,
}

/// What stands before the layer pointers, or its first fault.
#[tactic(auto, unfolding(spec_file::specs::Reading::beginning))]
fn begin(alloc: Global, bytes: &[u8]) -> Result<Beginning, ReadRefusedOrMemory>
    requires length { length bytes.now ≤ FILE_LIMIT }
    ensures read { Yields result (λ first. record { document = first.draft; next = first.layers })
        (beginning bytes.now) }
    ensures empty { IfOk result (λ first. size first.draft.nodes ≡ 0) }
    ensures place { IfOk result (λ first. first.layers ≤ 2 ^ 33) }
{
    let header = header_at(bytes)?;
    let props: Listing<OfImage> = Listing::read(alloc, bytes, PROPERTIES)?;
    check_image(&header, &props)?;
    let layers = props.end() + 8;
    let draft = blank(alloc, header, props)?;
    Ok(Beginning { draft, layers })
}

/// What reading a file in order gives, or its first fault.
#[tactic(auto, unfolding(spec_file::specs::Reading::reading))]
fn read<F: TileFile>(
    alloc: Global,
    bytes: &[u8],
    shared: &F,
) -> Result<DocumentDraft, ReadRefusedOrMemory>
    requires length { length bytes.now ≤ FILE_LIMIT }
    requires shared { bytes.now ≡ F.bytes shared.now }
    requires can { F.can_read shared.now }
    ensures { Gives result (reading bytes.now) }
{
    let Beginning { mut draft, layers } = begin(alloc, bytes)?;
    let channels = nodes_at(alloc, bytes, shared, layers, &mut draft)?;
    channels_at(alloc, bytes, shared, channels, &mut draft)?;
    Ok(draft)
}

/// The document that reading a file in order gives, or its first fault.
fn whole<F: TileFile>(
    alloc: Global,
    bytes: &[u8],
    shared: &F,
) -> Result<Document, ReadRefusedOrMemory>
    requires length { length bytes.now ≤ FILE_LIMIT }
    requires shared { bytes.now ≡ F.bytes shared.now }
    requires can { F.can_read shared.now }
    ensures { Gives result (reading bytes.now) }
{
    let draft = read(alloc, bytes, shared)?;
    Ok(draft.finish())
}

// The document that a file holds, or its first fault in the order of reading.
fn decode_file<F: TileFile>(alloc: Global, file: &F) -> Result<Document, ReadRefusedOrMemory>
    requires length { length (F.bytes file.now) ≤ FILE_LIMIT }
    requires can { F.can_read file.now }
    ensures { IsDecoded (F.bytes file.now) result }
{
    let bytes = file.shared().as_slice();
    know_bytes(bytes);
    whole(alloc, bytes, file)
}

/// The document that a file holds, or its first fault in the order of reading. Its tiles share the file's bytes.
pub fn decode(alloc: Global, file: &Arc<Vec<u8>>) -> Result<Document, ReadRefusedOrMemory>
    requires { length (arc_value file.now).items ≤ FILE_LIMIT }
    ensures exact { Gives result (reading (arc_value file.now).items) }
    ensures held { IfOk result (λ document. Holds (arc_value file.now).items document) }
    ensures only { IfOk result (λ document. (other : Plain) → Holds (arc_value file.now).items other
        → other ≡ document) }
    ensures refused { OnRefused result ((document : Plain)
        → ¬ (Holds (arc_value file.now).items document)) }
    ensures limits { IfOk result (λ document. IsDocument document) }
    ensures numbered { IfOk result (λ document. AreNumbered document.nodes) }
{
    decode_file(alloc, file)
}

/// The document that a file holds, or its first fault in the order of reading, as `decode` answers it. The tiles of
/// large planes in runs are read beside one another, each row of them in a thread where one can be made.
pub fn decode_beside<R: Threads + Sync>(
    rt: &R,
    alloc: Global,
    file: &Arc<Vec<u8>>,
) -> Result<Document, ReadRefusedOrMemory>
    requires { length (arc_value file.now).items ≤ FILE_LIMIT }
    ensures exact { Gives result (reading (arc_value file.now).items) }
    ensures held { IfOk result (λ document. Holds (arc_value file.now).items document) }
    ensures only { IfOk result (λ document. (other : Plain) → Holds (arc_value file.now).items other
        → other ≡ document) }
    ensures refused { OnRefused result ((document : Plain)
        → ¬ (Holds (arc_value file.now).items document)) }
    ensures limits { IfOk result (λ document. IsDocument document) }
    ensures numbered { IfOk result (λ document. AreNumbered document.nodes) }
{
    decode_file(alloc, &FileBeside { rt, file })
}
