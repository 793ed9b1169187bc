//! Bytes by name, operations on them, and the code of a program.

use c_ints::{BinOp, IntTy, UnOp};
use pic_world::Root;

/// A byte of data memory by name. Objects and frames have no addresses yet.
#[derive(Clone, Copy, PartialEq, Eq)]
pub enum Byte {
    /// The byte of this offset of a static object, by its number in order of declaration.
    Static { object: u16, offset: u16 },
    /// The byte of this offset of the frame of a function copy.
    Frame { copy: u16, offset: u16 },
    /// Byte `k`, 0 to 3, of the result that a call under this root gives. No access of it is an event.
    Result { root: Root, k: u8 },
    /// The device register with this lowest address.
    Device { address: u8 },
}

/// An operation. A value of several bytes begins at the byte that is named and goes on at the offsets after it,
/// lowest byte first.
#[derive(Drop)]
pub enum Core {
    /// The byte becomes a number.
    Set {
        to: Byte,
        value: u8,
    },
    /// Two bytes become the address of an object's byte.
    Address {
        to: Byte,
        place: Byte,
    },
    /// The byte becomes another one.
    Copy {
        to: Byte,
        from: Byte,
    },
    /// So many bytes become those that the pointer of two bytes points to, read lowest first.
    Load {
        to: Byte,
        pointer: Byte,
        count: u16,
    },
    /// What the pointer of two bytes points to becomes these bytes, written lowest first.
    Store {
        pointer: Byte,
        from: Byte,
        count: u16,
    },
    /// A value of this type becomes what the operator gives (ISO/IEC 9899:1990, 6.3.3.3).
    Unary {
        op: UnOp,
        ty: IntTy,
        at: Byte,
    },
    /// The bytes at `to` become what the operator gives of two values of this type (ISO/IEC 9899:1990, 6.3.5 to 6.3.12).
    /// The right operand of a shift is one of its own type of two bytes or more, of which the lowest byte counts; a
    /// comparison gives two bytes.
    Binary {
        op: BinOp,
        ty: IntTy,
        to: Byte,
        left: Byte,
        right: Byte,
    },
    /// A value of one type becomes the same value in another (ISO/IEC 9899:1990, 6.2.1.2).
    Convert {
        from: IntTy,
        to: IntTy,
        at: Byte,
    },
    /// The byte becomes 0 or 1, as the bit of a device register is. The register is read once.
    BitRead {
        to: Byte,
        register: u8,
        bit: u8,
    },
    /// The bit of a device register becomes the lowest bit of the byte. The register is read once and then written once.
    BitWrite {
        register: u8,
        bit: u8,
        from: Byte,
    },
    /// The body of this copy runs, and then what follows.
    Call {
        copy: u16,
    },
    /// The body ends.
    Leave,
    /// These operations one after the other.
    Many(Vec<Core>),
    /// One of two operations: `yes` where one of so many bytes isn't 0.
    If {
        test: Byte,
        size: u8,
        yes: Box<Core>,
        no: Box<Core>,
    },
    /// The operation again and again.
    Loop(Box<Core>),
    /// Leaves the loop that is so many loops out, 0 for the innermost.
    Exit(usize),
    /// Begins the loop that is so many loops out again.
    Again(usize),
}

/// The code of a function copy, by the copy's number.
#[derive(Drop)]
pub struct Body {
    pub copy: u16,
    pub root: Root,
    pub code: Vec<Core>,
}

/// What a byte of a static object begins as: a number, or the low or high byte of the address of the static object of
/// this number.
#[derive(Clone, Copy, PartialEq, Eq)]
pub enum FirstByte {
    Number(u8),
    Low { object: u16 },
    High { object: u16 },
}

/// The code of a program: the bodies of all copies that are no helpers, in the order of the copies; and of each static
/// object its first bytes, as many as it has.
#[derive(Drop)]
pub struct CoreProgram {
    pub bodies: Vec<Body>,
    pub statics: Vec<Vec<FirstByte>>,
}
