//! How many bytes a page stands for.

ghost use Rattle.std.specs.Prelude.{◌<◌, ◌≤◌, ◌^◌};

/// The bytes that a page stands for in amounts and texts: 4K, 8K, 16K .. or 64M. The content of a page has
/// [`PAGE_BYTES`](crate::bytes::PAGE_BYTES) bytes all the same, as a sample.
#[derive(Clone, Copy)]
pub struct PageSize {
    pub bytes: u64,
    pub ghost some: { 1 < bytes },
    pub ghost most: { bytes ≤ 2 ^ 26 },
}

impl PageSize {
    ghost use Rattle.std.specs.Prelude.{◌≡◌, ◌/◌, ◌*◌, Some, None, IfSome, if◌then◌else◌};
    ghost use Rattle.std.specs.Option.{option_map};
    ghost use Rattle.machine.specs.Amounts.{is_page_size};
    ghost use Rattle.machine.specs.PageSizes.{page_of, of_4k};

    /// The page of 4,096 bytes, which a script has that says nothing.
    pub fn of_4k() -> PageSize
        ensures size { result.bytes ≡ 4096 }
        ensures page { result ≡ of_4k }
    {
        PageSize { bytes: 4096 }
    }

    /// The page of so many bytes, if one can have them.
    pub fn new(bytes: u64) -> Option<PageSize>
        ensures size { option_map (λ page. page.bytes) result ≡ (if is_page_size bytes then Some bytes else None) }
        ensures page { IfSome result (λ page. page ≡ page_of bytes) }
    {
        if 4096 <= bytes && bytes <= 67_108_864 && bytes.is_power_of_two() {
            Some(PageSize { bytes })
        } else {
            None
        }
    }

    /// So many bytes in whole pages, rounded down.
    pub fn pages_in(self, bytes: u64) -> u64
        ensures { result ≡ bytes / self.bytes }
    {
        bytes / self.bytes
    }

    /// The bytes of so many pages.
    pub fn bytes_of(self, pages: u64) -> u128
        ensures { result ≡ pages * self.bytes }
    {
        u128::from(pages) * u128::from(self.bytes)
    }
}
