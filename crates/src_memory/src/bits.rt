//! Single bits of a byte.
ghost use Rattle.std.specs.Prelude.{◌≡◌, ◌<◌, ℕ};
ghost use Rattle.pic_world.specs.Bits.{bit as bit_at, set_bit as with_bit, clear_bit as without_bit, truth};

/// The bit of this place, 0 or 1.
pub fn bit(place: u8, byte: u8) -> u8
    requires { place < 8 }
    ensures value { result ≡ bit_at byte place }
    ensures small { result < 2 }
{
    byte >> place & 1
}

/// The byte with that bit 1.
pub fn set_bit(place: u8, byte: u8) -> u8
    requires { place < 8 }
    ensures { result ≡ with_bit place byte }
{
    byte | 1 << place
}

/// The byte with that bit 0.
pub fn clear_bit(place: u8, byte: u8) -> u8
    requires { place < 8 }
    ensures { result ≡ without_bit place byte }
{
    byte & !(1 << place)
}
