//! The bytes of a file.
ghost use Rattle.std.specs.Prelude.{◌≡◌, ◌++◌, [], length, drop, IfOk, OnOk, OnErr};
ghost use Rattle.std.specs.List.{concat};

use crate::part::Part;
use crate::storing::{append_bytes, close, longer, put_part, skip_own, skip_parts};
use std::alloc::{AllocError, Global};
use std::marker::Model;

// Bytes of its own are made a part before an append would make them more, so that no long run of them is moved while it
// grows.
const MOST_OWN_BYTES: usize = 1 << 18;

// A part with fewer bytes is copied.
const LEAST_SHARED_BYTES: usize = 512;

/// The bytes of a file, one behind another: parts of bytes that others may hold too, and bytes of its own behind the
/// last of them.
///
/// A part that is appended where it goes on with the last one, in the same bytes, makes that longer; the first part of
/// another file stays by itself. Without memory for a call nothing changes.
#[derive(Drop)]
pub struct FileBytes {
    parts: Vec<Part>,
    own: Vec<u8>,
    len: usize,
}

impl Model for FileBytes {
    ghost use Rattle.std.specs.Prelude.{◌≡◌, List, ℕ, ◌++◌, length};
    ghost use Rattle.std.specs.List.{concat};

    ghost Value = { List ℕ };

    ghost view = { λ f. concat f.parts.items ++ f.own.items };

    ghost invariant = { λ f. f.len ≡ length (concat f.parts.items ++ f.own.items) };
}

impl FileBytes {
    /// No bytes.
    pub fn new(alloc: Global) -> FileBytes
        ensures { result ≡ [] }
    {
        FileBytes {
            parts: Vec::new(alloc),
            own: Vec::new(alloc),
            len: 0,
        }
    }

    /// How many bytes it has.
    pub fn len(&self) -> usize
        ensures { result ≡ length self.now }
    {
        self.len
    }

    /// Appends a copy of these bytes.
    pub fn append(&mut self, alloc: Global, bytes: &[u8]) -> Result<(), AllocError>
        ensures ok { OnOk result (self.new ≡ self.old ++ bytes.now) }
        ensures err { OnErr result (self.new ≡ self.old) }
    {
        let len = longer(self.len, bytes.len())?;
        if MOST_OWN_BYTES.saturating_sub(bytes.len()) < self.own.len() {
            close(alloc, &mut self.parts, &mut self.own)?;
        }
        self.own.extend_from_slice(bytes)?;
        self.len = len;
        Ok(())
    }

    // Appends a part as it is.
    fn share_part(&mut self, alloc: Global, part: Part) -> Result<(), AllocError>
        ensures ok { OnOk result (self.new ≡ self.old ++ part) }
        ensures err { OnErr result (self.new ≡ self.old) }
    {
        let len = longer(self.len, part.len())?;
        close(alloc, &mut self.parts, &mut self.own)?;
        put_part(&mut self.parts, part)?;
        self.len = len;
        Ok(())
    }

    /// Appends a part. It is shared, or copied where it is short.
    pub fn append_part(&mut self, alloc: Global, part: Part) -> Result<(), AllocError>
        ensures ok { OnOk result (self.new ≡ self.old ++ part) }
        ensures err { OnErr result (self.new ≡ self.old) }
    {
        if part.len() < LEAST_SHARED_BYTES {
            self.append(alloc, part.as_slice())
        } else {
            self.share_part(alloc, part)
        }
    }

    // Appends the parts of another as they are, and takes over the bytes behind them.
    fn share_all(&mut self, alloc: Global, other: FileBytes) -> Result<(), AllocError>
        ensures ok { OnOk result (self.new ≡ self.old ++ other) }
        ensures err { OnErr result (self.new ≡ self.old) }
    {
        let FileBytes {
            mut parts,
            own,
            len,
        } = other;
        let len = longer(self.len, len)?;
        close(alloc, &mut self.parts, &mut self.own)?;
        self.parts.append(&mut parts)?;
        self.own = own;
        self.len = len;
        Ok(())
    }

    /// Appends the bytes of another. Its parts stay shared.
    pub fn append_all(&mut self, alloc: Global, other: FileBytes) -> Result<(), AllocError>
        ensures ok { OnOk result (self.new ≡ self.old ++ other) }
        ensures err { OnErr result (self.new ≡ self.old) }
    {
        if other.parts.is_empty() {
            self.append(alloc, &other.own)
        } else {
            self.share_all(alloc, other)
        }
    }

    /// Leaves out the first bytes, or all where it has fewer.
    pub fn skip(&mut self, n: usize)
        ensures { self.new ≡ drop n self.old }
    {
        let rest = skip_parts(self.parts.as_mut_slice(), n);
        skip_own(&mut self.own, rest);
        self.len = self.len.saturating_sub(n);
    }

    /// What they stand in: its parts, and its own bytes behind the last of them.
    pub fn parts(&self) -> (&[Part], &[u8])
        ensures { concat result.0.now ++ result.1.now ≡ self.now }
    {
        (self.parts.as_slice(), self.own.as_slice())
    }

    /// Appends a copy of all bytes to others.
    pub fn append_to(&self, out: &mut Vec<u8>) -> Result<(), AllocError>
        ensures ok { OnOk result (out.new.items ≡ out.old.items ++ self.now) }
        ensures err { OnErr result (out.new.items ≡ out.old.items) }
    {
        let before = out.len();
        out.reserve_exact(self.len)?;
        let put = append_bytes(self.parts.as_slice(), self.own.as_slice(), out);
        if put.is_err() {
            out.truncate(before);
        }
        put
    }

    /// A copy of all bytes in one run of memory.
    pub fn join(&self, alloc: Global) -> Result<Vec<u8>, AllocError>
        ensures { IfOk result (λ bytes. bytes.items ≡ self.now) }
    {
        let mut bytes = Vec::new(alloc);
        self.append_to(&mut bytes)?;
        Ok(bytes)
    }
}
