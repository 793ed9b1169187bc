//! Static objects that are left out.

ghost use Rattle.std.specs.Prelude.{◌≡◌};
ghost use Rattle.ram_place.specs.Placement as stated;

/// Whether the static object of this number is among those that are left out.
pub fn is_left_out(without: &[u32], number: usize) -> bool
    ensures { result ≡ stated.is_left_out without.now number }
{
    without.iter().any(|left| *left as usize == number)
}
