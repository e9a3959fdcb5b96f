//! Bytes that stand in shared ones.
ghost use Rattle.std.specs.Prelude.{◌≡◌, ◌-◌, ◌≤◌, ◌++◌, true, false, length, take, drop, IfOk};
ghost use Rattle.std.specs.Arc.{arc_value};

use std::alloc::AllocError;
use std::marker::Model;
use std::sync::Arc;

/// Bytes that stand one behind another in bytes which several hold: one count, and no copy.
#[derive(Drop)]
pub struct Part {
    bytes: Arc<Vec<u8>>,
    from: usize,
    len: usize,
}

impl Model for Part {
    ghost use Rattle.std.specs.Prelude.{List, ℕ, ◌+◌, ◌≤◌, length, take, drop};
    ghost use Rattle.std.specs.Arc.{arc_value};

    ghost Value = { List ℕ };

    ghost view = { λ p. take p.len (drop p.from (arc_value p.bytes).items) };

    ghost invariant = { λ p. p.from + p.len ≤ length (arc_value p.bytes).items };
}

// The bytes from a place to an end.
fn between(bytes: &[u8], from: usize, end: usize) -> &[u8]
    requires begin { from ≤ end }
    requires inside { end ≤ length bytes.now }
    ensures { result.now ≡ take (end - from) (drop from bytes.now) }
{
    &bytes[from..end]
}

// Whether two lists of bytes are one.
fn are_equal(one: &[u8], other: &[u8]) -> bool
    ensures { result ≡ true → one.now ≡ other.now }
{
    one == other
}

impl Part {
    /// The bytes from a place to an end. It fails where no more handles can be counted.
    pub fn of(bytes: &Arc<Vec<u8>>, from: usize, end: usize) -> Result<Part, AllocError>
        requires begin { from ≤ end }
        requires inside { end ≤ length (arc_value bytes.now).items }
        ensures { IfOk result (λ part. part
            ≡ take (end - from) (drop from (arc_value bytes.now).items)) }
    {
        Ok(Part {
            bytes: Arc::try_clone(bytes)?,
            from,
            len: end - from,
        })
    }

    /// All of these bytes.
    pub(crate) fn whole(bytes: Arc<Vec<u8>>) -> Part
        ensures { result ≡ (arc_value bytes).items }
    {
        let len = bytes.as_slice().len();
        Part {
            bytes,
            from: 0,
            len,
        }
    }

    /// How many bytes it has.
    pub fn len(&self) -> usize
        ensures { result ≡ length self.now }
    {
        self.len
    }

    /// Its bytes, as they stand.
    pub fn as_slice(&self) -> &[u8]
        ensures { result.now ≡ self.now }
    {
        between(self.bytes.as_slice(), self.from, self.from + self.len)
    }

    /// Leaves out the first bytes.
    pub(crate) fn skip(&mut self, n: usize)
        requires { n ≤ length self.old }
        ensures { self.new ≡ drop n self.old }
    {
        self.from += n;
        self.len -= n;
    }

    /// Whether these bytes stand behind its own in the bytes that it is a part of. Then it has them too.
    pub(crate) fn take_next(&mut self, next: &[u8]) -> bool
        ensures joined { result ≡ true → self.new ≡ self.old ++ next.now }
        ensures apart { result ≡ false → self.new ≡ self.old }
    {
        let end = self.from + self.len;
        let all = self.bytes.as_slice();
        if all.len() - end < next.len() || !are_equal(between(all, end, end + next.len()), next) {
            return false;
        }
        self.len += next.len();
        true
    }
}
