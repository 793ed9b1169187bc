//! Where a routine keeps its values.

ghost use Rattle.std.specs.Prelude.{◌≡◌};
ghost use Rattle.math_helpers.specs.Layouts.{bytes_of, bits_of, operand_at};

use core_code::Byte;
use pic_world::Root;
use sym_code::Operand;

/// How many bytes an operand has.
#[derive(Clone, Copy, PartialEq, Eq)]
pub enum Width {
    Two,
    Four,
}

impl Width {
    /// The number of bytes.
    pub fn bytes(self) -> u8
        ensures { result ≡ bytes_of self }
    {
        match self {
            Width::Two => 2,
            Width::Four => 4,
        }
    }

    /// The number of bits.
    pub fn bits(self) -> u8
        ensures { result ≡ bits_of self }
    {
        match self {
            Width::Two => 16,
            Width::Four => 32,
        }
    }
}

/// A value that a routine works on, of as many bytes as an operand has. The first four stand in the routine's frame, one
/// after the other.
#[derive(Clone, Copy, PartialEq, Eq)]
pub enum Value {
    /// The left operand. A dividend becomes the quotient bit by bit.
    Left,
    /// The right operand.
    Right,
    /// What is left of the part of the dividend that was divided so far.
    Remainder,
    /// No number, but single bytes: the first counts the rounds that are left, the second has the sign of the answer.
    Spare,
    /// The result that the caller finds.
    Answer,
}

/// Whose routine it is: the root that it runs under, the number of its copy, and the width of its operands.
#[derive(Clone, Copy, PartialEq, Eq)]
pub struct RoutineLayout {
    pub root: Root,
    pub copy: u16,
    pub width: Width,
}

impl RoutineLayout {
    /// Byte `k` of a value, counted from the lowest one.
    pub fn byte(self, value: Value, k: u8) -> Operand
        ensures { result ≡ operand_at self value k }
    {
        let copy = self.copy;
        let width = u16::from(self.width.bytes());
        let k_wide = u16::from(k);
        match value {
            Value::Left => Operand::Byte(Byte::Frame {
                copy,
                offset: k_wide,
            }),
            Value::Right => Operand::Byte(Byte::Frame {
                copy,
                offset: width + k_wide,
            }),
            Value::Remainder => Operand::Byte(Byte::Frame {
                copy,
                offset: 2 * width + k_wide,
            }),
            Value::Spare => Operand::Byte(Byte::Frame {
                copy,
                offset: 3 * width + k_wide,
            }),
            Value::Answer => Operand::Byte(Byte::Result { root: self.root, k }),
        }
    }
}
