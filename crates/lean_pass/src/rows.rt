//! A certificate: of each instruction what becomes of it, and what is said before it.

use sym_code::{BlockName, LiteralOperation, Sym};

/// General bytes by their numbers: of each number whether it is among them. Numbers beyond the list aren't.
#[derive(Drop)]
pub struct ByteSet {
    pub has: Vec<bool>,
}

/// What becomes of an instruction.
#[derive(Clone, Copy, PartialEq, Eq)]
pub enum Act {
    Keeps,
    Drops,
    /// An operation on W and a number stands in its place.
    Puts { op: LiteralOperation, value: u8 },
    /// Its result goes to W.
    Narrows,
    /// The byte is cleared in which it stores W.
    Clears,
    /// Another byte of its frame is read, so many bytes before its own, and the result goes to W.
    Reads { before: u16 },
    /// A flag is tested in the place of Z, or its opposite.
    Tests { flag: FlagName, turned: bool },
}

/// A flag that a comparison leaves.
#[derive(Clone, Copy, PartialEq, Eq)]
pub enum FlagName {
    Carry,
    Zero,
}

/// What a flag of the machine that runs the code that is made tells.
#[derive(Clone, Copy, PartialEq, Eq)]
pub enum Shown {
    Unshown,
    /// Whether it is set.
    Sees { flag: FlagName, set: bool },
    /// Z says whether W of the same machine is 0.
    Reports,
    /// W of the other machine is the first number where it is set, and else the second one.
    Chooses { flag: FlagName, set: u8, clear: u8 },
}

/// What is tied to the machine that runs the code that is made.
#[derive(Clone, Copy, PartialEq, Eq)]
pub struct Ties {
    pub carry: Option<usize>,
    pub shown: Shown,
}

/// What is true of the machine that runs the given code.
#[derive(Drop)]
pub struct Facts {
    /// W is this number.
    pub number: Option<u8>,
    /// W is what each of these bytes holds.
    pub held: ByteSet,
    /// Z says whether W is 0.
    pub zero: bool,
    /// The bytes that hold numbers, by their own numbers.
    pub known: Vec<Option<u8>>,
    /// Of the bytes that are copies, by their numbers, the byte of which each is one.
    pub twins: Vec<Option<u16>>,
    /// C is 0 or 1.
    pub carry_bit: bool,
    /// So is Z.
    pub zero_bit: bool,
}

/// What may differ between the machine that runs the given code and the one that runs the code that is made.
#[derive(Drop)]
pub struct Apart {
    pub w: bool,
    pub z: bool,
    pub dc: bool,
    pub c: bool,
    pub bytes: ByteSet,
}

/// What is said before an instruction.
#[derive(Drop)]
pub struct Note {
    pub facts: Facts,
    pub apart: Apart,
    /// W of the machine that runs the code that is made is what this byte holds for the other one.
    pub carry: Option<usize>,
    pub shown: Shown,
}

/// An instruction of the given code. There is no note where nothing comes.
#[derive(Drop)]
pub struct Row {
    pub sym: Sym,
    pub act: Act,
    pub note: Option<Note>,
}

/// A block of the given code.
#[derive(Drop)]
pub struct LeanBlock {
    pub name: BlockName,
    pub rows: Vec<Row>,
    /// It runs inside the handler.
    pub inside: bool,
    /// What is known where it returns.
    pub ends: Note,
    /// Bytes that may differ in functions that wait for it.
    pub outer: ByteSet,
}

/// A certificate for all blocks of a program.
#[derive(Drop)]
pub struct Sketch {
    pub blocks: Vec<LeanBlock>,
    pub handler: Option<u16>,
    /// Bytes of the handler's that may differ while it doesn't run.
    pub rest: ByteSet,
    /// Bytes that are never reached through FSR.
    pub hidden: ByteSet,
}
