//! The bytes of one page, as an event owns them. A contract sees them as a list.

ghost use Rattle.std.specs.Prelude.{◌≡◌};

use std::fmt;
use std::marker::Model;

/// Bytes of a page (kernel: `PAGE_SIZE`).
pub const PAGE_BYTES: usize = 4096;

/// The bytes that a page had when it was read in.
#[derive(Drop)]
pub struct PageBytes {
    bytes: Box<[u8; PAGE_BYTES]>,
}

impl Model for PageBytes {
    ghost use Rattle.std.specs.Prelude.{ℕ, List};

    ghost Value = { List ℕ };

    ghost view = { λ p. p.bytes.value };
}

impl PageBytes {
    /// Takes these bytes.
    pub fn new(bytes: Box<[u8; PAGE_BYTES]>) -> Self
        ensures { result ≡ bytes.value }
    {
        PageBytes { bytes }
    }

    /// The same bytes, lent for reading.
    pub fn bytes(&self) -> &[u8; PAGE_BYTES]
        ensures { result.now ≡ self.now }
    {
        &self.bytes
    }
}

impl fmt::Debug for PageBytes {
    fn fmt<W: fmt::Write>(&self, f: &mut fmt::Formatter<W>) -> fmt::Result {
        f.write_str("PageBytes")
    }
}
