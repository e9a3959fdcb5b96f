// Files that another program packed.

// What the files of a packing begin with, and what they are called.
const PACKINGS: [(&'static [u8], &'static str); 3] = [
    (b"\x1f\x8b", "a gzip-packed file"),
    (b"BZh", "a bzip2-packed file"),
    (b"\xfd7zXZ\0", "an xz-packed file"),
];

/// What a file of these first bytes is called, if it is a packed one.
pub fn packed_name(front: &[u8]) -> Option<&'static str> {
    for (magic, name) in &PACKINGS {
        if front.starts_with(magic) {
            return Some(*name);
        }
    }
    None
}
