//! What contracts are told of bytes.
ghost use Rattle.spec_document.specs.Limits.{AreBytes};

use xl_doc::know_bytes;
use xl_filters::Table;

/// Tells contracts that the bytes of a table are numbers below 256.
pub fn know_table(table: &Table)
    ensures { AreBytes table.now }
{
    know_bytes(table.as_slice());
}
