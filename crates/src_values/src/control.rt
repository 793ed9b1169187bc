//! What a step is about (the focus), and what waits for it. A frame that waits holds its node of the tree and what is
//! done of the node's parts: types, lines and constants are read off the node.

ghost use Rattle.std.specs.Prelude.{◌≡◌, List, option_copied};
ghost use Rattle.c_typed.specs.Views.{expression_of, place_of, statement_of};
ghost use Rattle.src_values.specs.Control as stated;
ghost use Rattle.src_values.specs.Seen.{found_at, statement_in, focus_in, frames_in, with_top, is_loop, is_switch, is_over, list_seen, list_in, list_on};

use crate::objects::{Byte, CopyOf, Datum, ReadBytes, Spot};
use c_typed::{TArm, TCase, TExpr, TItem, TPlace, TStmt, Ty};

/// Where a statement stands: in a list, by its number; behind an `else` or in a loop; or in an arm of an `if`,
/// by the arm's number.
#[derive(Clone, Copy)]
pub enum Code<'a> {
    Listed(&'a Vec<TStmt>, usize),
    Boxed(&'a Box<TStmt>),
    InArm(&'a Vec<TArm>, usize),
}

impl<'a> Code<'a> {
    /// The statement.
    pub fn statement(self) -> Option<&'a TStmt>
        ensures { option_copied result ≡ found_at self.entry }
    {
        match self {
            Code::Listed(statements, at) => statements.get(at),
            Code::Boxed(statement) => Some(statement),
            Code::InArm(arms, at) => {
                let arm = arms.get(at)?;
                Some(&arm.then)
            }
        }
    }

    /// Whether it is a loop.
    pub fn is_loop(self) -> bool
        ensures { result ≡ is_loop (statement_in self.entry) }
    {
        match self.statement() {
            Some(statement) => is_loop(statement),
            None => false,
        }
    }

    /// Whether it is a switch.
    pub fn is_switch(self) -> bool
        ensures { result ≡ is_switch (statement_in self.entry) }
    {
        match self.statement() {
            Some(statement) => is_switch(statement),
            None => false,
        }
    }
}

#[tactic(auto, using(crate::proofs::Sights::loops))]
fn is_loop(statement: &TStmt) -> bool
    ensures { result ≡ is_loop (statement_of statement.now) }
{
    match statement {
        TStmt::Loop { .. } => true,
        _ => false,
    }
}

#[tactic(auto, using(crate::proofs::Sights::switches))]
fn is_switch(statement: &TStmt) -> bool
    ensures { result ≡ is_switch (statement_of statement.now) }
{
    match statement {
        TStmt::Switch { .. } => true,
        _ => false,
    }
}

/// What a step is about.
#[derive(Clone, Copy)]
pub enum Focus<'a> {
    /// An expression is evaluated, and a place is found.
    Eval(&'a TExpr),
    Find(&'a TPlace),
    /// A value, and a place that was found.
    Holds(Datum),
    Found(Spot),
    /// A statement begins, and one is done.
    Run(Code<'a>),
    Past,
    /// A number or a pointer is read: the byte that comes next, and those that were read.
    Fetch {
        spot: Spot,
        read: ReadBytes,
    },
    /// A structure is read whose value is dropped: so many bytes are left, and this one was the last.
    Skim {
        spot: Spot,
        left: u64,
        last: Option<Byte>,
    },
    /// A value is written: the place of its byte of this number, which comes next.
    Write {
        spot: Spot,
        value: Datum,
        at: u8,
    },
    /// A bit of a register gets a value; the register was read, and is written next.
    PutBit {
        register: u8,
        bit: u8,
        value: Datum,
        old: u8,
    },
    /// So many bytes are copied: one is read, or the one that was read is written.
    CopyRead {
        to: Spot,
        from: Spot,
        left: u64,
    },
    CopyWrite {
        to: Spot,
        from: Spot,
        byte: Byte,
        left: u64,
    },
    /// Characters of a string, and then zeros, up to so many bytes.
    Spell {
        spot: Spot,
        text: &'a [u8],
        left: u64,
    },
    /// The bytes without an item, from this one on and before that one.
    Blank {
        at: u64,
        end: u64,
    },
    /// A function is called.
    Calls,
    /// A function has ended with this value.
    Leaves(Datum),
    /// Labels are compared with the value of a switch, from the one of this number on.
    Compares {
        value: Datum,
        cases: &'a Vec<TCase>,
        next: usize,
    },
    /// Main has ended.
    Over,
}

impl<'a> Focus<'a> {
    /// Whether main has ended.
    pub fn is_over(&self) -> bool
        ensures { result ≡ is_over (focus_in self.now) }
    {
        match self {
            Focus::Over => true,
            Focus::Eval(_)
            | Focus::Find(_)
            | Focus::Holds(_)
            | Focus::Found(_)
            | Focus::Run(_)
            | Focus::Past
            | Focus::Fetch { .. }
            | Focus::Skim { .. }
            | Focus::Write { .. }
            | Focus::PutBit { .. }
            | Focus::CopyRead { .. }
            | Focus::CopyWrite { .. }
            | Focus::Spell { .. }
            | Focus::Blank { .. }
            | Focus::Calls
            | Focus::Leaves(_)
            | Focus::Compares { .. } => false,
        }
    }
}

/// What is done of an expression's parts.
#[derive(Clone, Copy)]
pub enum Got {
    /// Its first part is under way.
    Nothing,
    /// Its condition has decided, and the operand that it chose is under way.
    Chosen,
    /// Its left operand has this value, and the right one is under way.
    One(Datum),
    /// Its place was found; what follows it is under way.
    At(Spot),
    /// Its place was found, its right operand has this value, and the place is read.
    AtWith(Spot, Datum),
    /// Its place is written; the expression's value comes from this one.
    Stores(Spot, Datum),
    /// Its structure is copied.
    Copies,
    /// The arguments before the one of this number have their values, which stand below, and it is under way.
    Args(usize),
    /// All arguments have their values, which stand below.
    Passed,
    /// The function that is called is under way.
    Called,
}

/// What is under way of a statement.
#[derive(Clone, Copy, PartialEq, Eq)]
pub enum Stage {
    /// The value that it begins with, or a loop's condition.
    Tests,
    /// What a loop begins with, and what it does after a turn.
    Begins,
    Steps,
    /// The body of a loop or of a switch.
    Turns,
    /// The condition of the arm of this number.
    Picks(usize),
    /// The statement of the arm before the one of this number, or the one behind the last `else`.
    InArm(usize),
    /// The comparison with labels.
    Chooses,
    /// The write of the value that a local begins with.
    Fills,
    /// The value or the place of the item of this number.
    AtItem(usize),
    /// The bytes of the item of this number.
    Items(usize),
    /// The bytes without an item.
    Blanks,
}

/// What waits for the focus.
#[derive(Clone, Copy)]
pub enum Pending<'a> {
    /// An expression that waits for a part.
    In(&'a TExpr, Got),
    /// A value of an argument, which waits for a call.
    Value(Datum),
    /// A member that waits for its structure, or what a pointer points to for the pointer.
    To(&'a TPlace),
    /// A statement that waits for a part.
    Doing(Code<'a>, Stage),
    /// The statements from the one of this number on.
    Before(&'a Vec<TStmt>, usize),
    /// The end of a body that isn't there.
    Ended,
    /// The caller.
    Returns(CopyOf),
    /// What the handler interrupted: `Machine` has its focus.
    Resumes(CopyOf),
}

/// The line of a statement's first token.
#[tactic(auto, using(crate::proofs::Sights::statement_lines))]
pub fn statement_line(statement: &TStmt) -> u32
    ensures { result ≡ stated.statement_line (statement_of statement.now) }
{
    match statement {
        TStmt::Block { line, .. }
        | TStmt::Empty { line }
        | TStmt::Expr { line, .. }
        | TStmt::Declare { line, .. }
        | TStmt::InitScalar { line, .. }
        | TStmt::InitList { line, .. }
        | TStmt::If { line, .. }
        | TStmt::Loop { line, .. }
        | TStmt::Switch { line, .. }
        | TStmt::Break { line }
        | TStmt::Continue { line }
        | TStmt::Return { line, .. } => *line,
    }
}

/// The line of an expression's first token.
#[tactic(auto, using(crate::proofs::Sights::expression_lines))]
pub fn expression_line(expr: &TExpr) -> u32
    ensures { result ≡ stated.expression_line (expression_of expr.now) }
{
    match expr {
        TExpr::Constant { line, .. }
        | TExpr::Read { line, .. }
        | TExpr::Address { line, .. }
        | TExpr::Convert { line, .. }
        | TExpr::Cast { line, .. }
        | TExpr::Unary { line, .. }
        | TExpr::Binary { line, .. }
        | TExpr::Offset { line, .. }
        | TExpr::Difference { line, .. }
        | TExpr::Logical { line, .. }
        | TExpr::Conditional { line, .. }
        | TExpr::Comma { line, .. }
        | TExpr::Assign { line, .. }
        | TExpr::StructAssign { line, .. }
        | TExpr::Update { line, .. }
        | TExpr::Step { line, .. }
        | TExpr::Call { line, .. } => *line,
    }
}

/// The line of a place's first token.
#[tactic(auto, using(crate::proofs::Sights::place_lines))]
pub fn place_line(place: &TPlace) -> u32
    ensures { result ≡ stated.place_line (place_of place.now) }
{
    match place {
        TPlace::Name { line, .. }
        | TPlace::Bit { line, .. }
        | TPlace::Member { line, .. }
        | TPlace::Deref { line, .. } => *line,
    }
}

// The line of a statement, 0 where there is none.
fn line_in(code: Code) -> u32
    ensures { result ≡ stated.statement_line (statement_in code.entry) }
{
    match code.statement() {
        Some(statement) => statement_line(statement),
        None => 0,
    }
}

/// The line of the node that waits.
pub fn line_at(top: Option<&Pending>) -> u32
    ensures { (x : stated.Focus) (k : List Pending) → result ≡ stated.line_at (frames_in x (with_top top.entry k)) }
{
    match top {
        None => 0,
        Some(top) => match top {
            Pending::In(expr, _) => expression_line(expr),
            Pending::To(place) => place_line(place),
            Pending::Doing(code, _) => line_in(*code),
            _ => 0,
        },
    }
}

/// The type that the node which waits reads its place as.
pub fn read_type(top: Option<&Pending>) -> Ty
    ensures { (x : stated.Focus) (k : List Pending) → result ≡ stated.read_type (frames_in x (with_top top.entry k)) }
{
    match top {
        None => Ty::Void,
        Some(top) => match top {
            Pending::In(expr, _) => expr.ty(),
            _ => Ty::Void,
        },
    }
}

#[tactic(auto, using(crate::proofs::Sights::lists))]
fn list_in(statement: &TStmt) -> Option<(usize, &Vec<TItem>)>
    ensures { list_seen result ≡ list_in (statement_of statement.now) }
{
    match statement {
        TStmt::InitList { local, items, .. } => Some((*local, items)),
        _ => None,
    }
}

/// The list that waits, and the number of its local.
pub fn list_at<'a>(top: Option<&Pending<'a>>) -> Option<(usize, &'a Vec<TItem>)>
    ensures { (x : stated.Focus) (k : List Pending) → list_seen result ≡ list_on (frames_in x (with_top top.entry k)) }
{
    match top {
        None => None,
        Some(top) => match top {
            Pending::Doing(code, _) => match code.statement() {
                Some(statement) => list_in(statement),
                None => None,
            },
            _ => None,
        },
    }
}
