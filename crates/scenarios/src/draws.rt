//! Numbers that are drawn.

ghost use Rattle.std.specs.Prelude.{◌≡◌, ◌<◌, ◌≤◌};
ghost use Rattle.scenarios.specs.Draws.{number_at, drawn_page};

/// The number of this index that splitmix64 gives from this seed. It needs none of those before it.
fn number_at(seed: u32, index: u32) -> u64
    ensures { result ≡ number_at seed index }
{
    let step = u64::from(index).wrapping_mul(0x9E37_79B9_7F4A_7C15);
    let z = u64::from(seed).wrapping_add(step);
    let z = (z ^ (z >> 30)).wrapping_mul(0xBF58_476D_1CE4_E5B9);
    let z = (z ^ (z >> 27)).wrapping_mul(0x94D0_49BB_1331_11EB);
    z ^ (z >> 31)
}

/// The page of a part, from its first page to before its end, that a draw gives: the one of this index, from 1, of this
/// seed. The same page may come twice.
pub fn draw(seed: u32, index: u32, from: u32, to: u32) -> u32
    requires { from < to }
    ensures page { result ≡ drawn_page seed index from to }
    ensures begins { from ≤ result }
    ensures ends { result < to }
{
    let upper = number_at(seed, index) >> 32;
    let pages = u64::from(to - from);
    from + ((upper * pages) >> 32) as u32
}
