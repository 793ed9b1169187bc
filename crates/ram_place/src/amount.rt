//! Numbers of bytes and words, which add up to the greatest number there is, and no further.

ghost use Rattle.std.specs.Prelude.{◌≡◌, ◌+◌, ◌*◌, max};
ghost use Rattle.c_typed.specs.Nodes.{capped};

/// The sum.
pub fn plus(a: u64, b: u64) -> u64
    ensures { result ≡ capped (a + b) }
{
    if a <= u64::MAX - b { a + b } else { u64::MAX }
}

/// The greater one.
pub fn most(a: u64, b: u64) -> u64
    ensures { result ≡ max a b }
{
    if a < b { b } else { a }
}

/// So many times as much.
pub fn times(count: u64, a: u64) -> u64
    ensures { result ≡ capped (count * a) }
{
    a.saturating_mul(count)
}
