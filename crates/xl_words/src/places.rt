//! Words that are read together.
ghost use Rattle.spec_script.specs.Words as grammar;
ghost use Rattle.xl_words.specs.Reads.{Reads};

use crate::cause::Cause;
use crate::operand::Operand;
use spec_document::Rect;

/// A rectangle: its top left corner and its sides, in pixels.
pub fn rect(x: Operand<'_>, y: Operand<'_>, w: Operand<'_>, h: Operand<'_>) -> Result<Rect, Cause>
    ensures { Reads result (grammar.rect x.entry.text.now y.entry.text.now w.entry.text.now
        h.entry.text.now) }
{
    let x = x.coordinate()? as i32;
    let y = y.coordinate()? as i32;
    Ok(Rect {
        x,
        y,
        w: w.coordinate()?,
        h: h.coordinate()?,
    })
}

/// A layer's or a channel's number, and a rectangle in it.
pub fn spot(
    n: Operand<'_>,
    x: Operand<'_>,
    y: Operand<'_>,
    w: Operand<'_>,
    h: Operand<'_>,
) -> Result<(u32, Rect), Cause>
    ensures { Reads result (grammar.spot n.entry.text.now x.entry.text.now y.entry.text.now
        w.entry.text.now h.entry.text.now) }
{
    let id = n.number()?;
    Ok((id, rect(x, y, w, h)?))
}

/// The place of a layer on the canvas, in pixels, which may be left of it or above it.
pub fn offset(x: Operand<'_>, y: Operand<'_>) -> Result<(i32, i32), Cause>
    ensures { Reads result (grammar.offset x.entry.text.now y.entry.text.now) }
{
    Ok((x.signed_number()?, y.signed_number()?))
}

/// The sides of a new layer, in pixels.
pub fn size(w: Operand<'_>, h: Operand<'_>) -> Result<(u32, u32), Cause>
    ensures { Reads result (grammar.size w.entry.text.now h.entry.text.now) }
{
    Ok((w.side()?, h.side()?))
}
