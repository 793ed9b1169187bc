//! A part of an object (ISO/IEC 9899:1990, 6.5.7).

ghost use Rattle.std.specs.Prelude.{◌<◌, ◌^◌};

use c_typed::Qualified;

/// A part of an object: its type, and how many bytes of the object stand before it. Beyond them there is a number for
/// each byte of what is in memory.
#[derive(Clone, Copy)]
pub struct Slot {
    pub ty: Qualified,
    pub offset: u64,
    pub ghost near: { offset < 2 ^ 63 },
}
