//! A typed program.

ghost use Rattle.std.specs.Prelude.{◌≡◌, ◌≤◌, ◌^◌, true, map};
ghost use Rattle.c_typed.specs.Nodes.{program_size};
ghost use Rattle.c_typed.specs.Shown.{program_from, size_of};
ghost use Rattle.c_typed.specs.Sound.{is_sound};
ghost use Rattle.c_typed.specs.Types.{type_bytes};

use crate::statement::TStmt;
use crate::types::{Qualified, Structure, Ty, bytes_of};

/// What a byte of a static object begins as.
#[derive(Clone, Copy, PartialEq, Eq)]
pub enum InitialByte {
    Number(u8),
    /// Byte 0 or 1 of the address of the static object of this number.
    Address { object: usize, byte: u8 },
}

/// A byte of a static object that is given a value, and its place in the object.
#[derive(Clone, Copy, PartialEq, Eq)]
pub struct Initial {
    pub offset: u64,
    pub byte: InitialByte,
}

/// An object that exists all the time (ISO/IEC 9899:1990, 6.1.2.4): its name in the map, its type, and
/// the bytes that are given a value, in rising order. All other bytes begin as 0.
#[derive(Drop)]
pub struct Static {
    pub name: Vec<u8>,
    pub ty: Qualified,
    pub initial: Vec<Initial>,
    pub line: u32,
}

/// A parameter, or a local that is not static. A parameter may have an empty name.
#[derive(Drop)]
pub struct Variable {
    pub name: Vec<u8>,
    pub ty: Qualified,
    pub line: u32,
}

/// A function that is defined: the type of its result, its parameters, its locals, and the statements
/// of its body. `interrupt` tells the interrupt handler. The line is that of its first token.
#[derive(Drop)]
pub struct Function {
    pub name: Vec<u8>,
    pub result: Ty,
    pub params: Vec<Variable>,
    pub locals: Vec<Variable>,
    pub body: Vec<TStmt>,
    pub interrupt: bool,
    pub line: u32,
}

/// A typed program: the types that are pointed to and that arrays have elements of, the structures, the
/// static objects in order of declaration, and the functions in order of definition.
///
/// What each node names is there with its declared type, and at each node the typing rules hold (ISO/IEC
/// 9899:1990, 6.3 and 6.6). Nodes, static objects, parameters and locals are together at most 2 to the 28.
#[derive(Drop)]
pub struct Typed {
    pub targets: Vec<Qualified>,
    pub structures: Vec<Structure>,
    pub statics: Vec<Static>,
    pub functions: Vec<Function>,
    pub ghost sound: { is_sound (program_from targets.items structures.items statics.items functions.items) ≡ true },
    pub ghost small: { program_size statics.items functions.items ≤ 2 ^ 28 },
}

/// What breaks the rules on main and on the interrupt handler: no function main; a main that isn't void
/// without parameters, or is marked `interrupt`; a handler that isn't void without parameters; a second
/// handler; a call of main or of the handler.
#[derive(Clone, Copy, PartialEq, Eq)]
pub enum RootKind {
    None,
    Main,
    Shape,
    Second,
    Called,
}

impl Typed {
    /// How many bytes a value or an object of the type has.
    pub fn bytes_of(&self, ty: Ty) -> u64
        ensures { result ≡ type_bytes (map size_of self.now.structures.items) ty }
    {
        bytes_of(&self.structures, ty)
    }
}
