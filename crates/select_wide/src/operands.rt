//! What a binary operator is about.

ghost use Rattle.std.specs.Prelude.{◌≡◌};

use core_code::Byte;

/// Where the value of a binary operator goes, where its operands stand, and how many bytes each of them has. The value
/// and an operand stand at one place or apart.
#[derive(Clone, Copy, PartialEq, Eq)]
pub struct Operands {
    pub to: Byte,
    pub left: Byte,
    pub right: Byte,
    pub width: u8,
}

/// Sums and differences, which carry from byte to byte.
#[derive(Clone, Copy, PartialEq, Eq)]
pub enum Chain {
    Sum,
    Difference,
}

/// Which way a shift's bits go, and what comes in at the other end: zeros, or copies of the sign.
#[derive(Clone, Copy, PartialEq, Eq)]
pub enum Way {
    Left,
    Right,
    SignedRight,
}

impl Operands {
    /// The same with the operands in each other's place.
    pub fn turned(self) -> Operands
        ensures to { result.to ≡ self.to }
        ensures left { result.left ≡ self.right }
        ensures right { result.right ≡ self.left }
        ensures width { result.width ≡ self.width }
    {
        Operands {
            to: self.to,
            left: self.right,
            right: self.left,
            width: self.width,
        }
    }
}
