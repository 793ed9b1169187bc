//! What a run of the source is about: objects, pointers to them, bytes and values.

ghost use Rattle.std.specs.Prelude.{◌≡◌, ◌++◌, ◌∷◌, [], ◌<◌, length};
ghost use Rattle.c_ints.specs.Quantity.{Quantity};
ghost use Rattle.pic_world.specs.Roots as roots;
ghost use Rattle.src_values.specs.Objects as stated;
ghost use Rattle.src_values.specs.Seen.{quantity_of, datum_of, read_of, is_missing};

use c_ints::{IntTy, Value};
use pic_world::Root;

/// A copy of a function: the one that belongs to a root, of the function of this number in
/// `Typed::functions`.
#[derive(Clone, Copy, PartialEq, Eq)]
pub struct CopyOf {
    pub root: Root,
    pub function: usize,
}

/// An object (ISO/IEC 9899:1990, 3.14): the static object of a number in `Typed::statics`, or a variable
/// of a function copy: its parameters are counted first, then its locals.
#[derive(Clone, Copy, PartialEq, Eq)]
pub enum Object {
    Fixed(usize),
    Variable { copy: CopyOf, number: u128 },
}

fn same_root(a: Root, b: Root) -> bool
    ensures { result ≡ roots.same_root a b }
{
    match a {
        Root::Main => match b {
            Root::Main => true,
            Root::Isr => false,
        },
        Root::Isr => match b {
            Root::Main => false,
            Root::Isr => true,
        },
    }
}

/// Whether two copies are one.
pub fn same_copy(a: CopyOf, b: CopyOf) -> bool
    ensures { result ≡ stated.same_copy a b }
{
    same_root(a.root, b.root) && a.function == b.function
}

/// Whether two objects are one.
pub fn same_object(a: Object, b: Object) -> bool
    ensures { result ≡ stated.same_object a b }
{
    match a {
        Object::Fixed(n) => match b {
            Object::Fixed(m) => n == m,
            Object::Variable { .. } => false,
        },
        Object::Variable { copy: c, number: n } => match b {
            Object::Fixed(_) => false,
            Object::Variable { copy: d, number: m } => same_copy(c, d) && n == m,
        },
    }
}

/// A pointer: null, or so many bytes behind the start of an object, up to the byte just past its end.
#[derive(Clone, Copy)]
pub enum Pointer {
    Null,
    Into { object: Object, offset: u64 },
}

/// What a byte of an object holds: nothing yet, a number, or the low (0) or high (1) byte of a pointer.
#[derive(Clone, Copy, PartialEq, Eq)]
pub enum Byte {
    Unset,
    Number(u8),
    Part {
        object: Object,
        offset: u64,
        high: bool,
    },
}

/// A number of an integer type, by its bits.
#[derive(Clone, Copy)]
pub struct Number {
    pub ty: IntTy,
    pub bits: u32,
}

impl Number {
    /// The number as an integer value.
    pub fn value(self) -> Value
        ensures { result ≡ quantity_of self }
    {
        Value::new(self.ty, self.bits)
    }
}

/// An integer value as a number.
pub fn as_number(value: Value) -> Number
    ensures { quantity_of result ≡ value }
{
    Number {
        ty: value.ty(),
        bits: value.bits(),
    }
}

/// The value of an expression. `Missing` is that of an expression of type void, of a structure, and of a
/// call that ended without a value.
#[derive(Clone, Copy)]
pub enum Datum {
    Number(Number),
    Pointer(Pointer),
    Missing,
}

impl Datum {
    /// Whether there is no value.
    pub fn is_missing(self) -> bool
        ensures { result ≡ is_missing (datum_of self) }
    {
        match self {
            Datum::Missing => true,
            Datum::Number(_) | Datum::Pointer(_) => false,
        }
    }
}

/// Where a place is: a device register, by its lowest address; a bit of one; or in memory.
#[derive(Clone, Copy)]
pub enum Spot {
    Device(u8),
    Bit { register: u8, bit: u8 },
    Memory(Pointer),
}

/// Why a step is undefined.
#[derive(Clone, Copy, PartialEq, Eq)]
pub enum Undef {
    /// The divisor is 0.
    Division,
    /// The most negative number is divided by -1.
    Overflow,
    /// The count of a shift is below 0, or not below the width of the left operand.
    Shift,
    /// An unset byte is read, or the missing result of a call is used.
    Unset,
    /// An access through null or outside the object, or a pointer that is moved out of its object.
    Outside,
    /// An access to a variable of a function copy that isn't active, or `==` or `!=` on pointers to two
    /// objects one of which is such a variable.
    Inactive,
    /// `<`, `>`, `<=`, `>=` or `-` on pointers that aren't into one object.
    Order,
    /// `==` or `!=` on a pointer just past an object and one into another object.
    Past,
    /// A byte of a pointer is read as one of a number, or bytes that make no pointer as one.
    Bytes,
    /// The handler reaches a variable of main's root.
    Isolation,
    /// The handler writes INTCON with GIE set.
    Gie,
    /// An enabled interrupt, and no handler.
    Handler,
}

/// The first bytes of a value, the lowest first: those that were read so far.
#[derive(Clone, Copy)]
pub enum ReadBytes {
    Nothing,
    One(Byte),
    Two(Byte, Byte),
    Three(Byte, Byte, Byte),
    Four(Byte, Byte, Byte, Byte),
}

impl ReadBytes {
    /// No byte yet.
    pub fn new() -> ReadBytes
        ensures { read_of result ≡ [] }
    {
        ReadBytes::Nothing
    }

    /// How many there are.
    pub fn count(self) -> u8
        ensures { result ≡ length (read_of self) }
    {
        match self {
            ReadBytes::Nothing => 0,
            ReadBytes::One(_) => 1,
            ReadBytes::Two(_, _) => 2,
            ReadBytes::Three(_, _, _) => 3,
            ReadBytes::Four(_, _, _, _) => 4,
        }
    }

    /// One byte more. No value has more than four.
    pub fn and(self, byte: Byte) -> ReadBytes
        ensures { length (read_of self) < 4 → read_of result ≡ read_of self ++ byte ∷ [] }
    {
        match self {
            ReadBytes::Nothing => ReadBytes::One(byte),
            ReadBytes::One(a) => ReadBytes::Two(a, byte),
            ReadBytes::Two(a, b) => ReadBytes::Three(a, b, byte),
            ReadBytes::Three(a, b, c) => ReadBytes::Four(a, b, c, byte),
            ReadBytes::Four(_, _, _, _) => self,
        }
    }
}
