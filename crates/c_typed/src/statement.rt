//! Typed statements: each node has the line of its first token, counted from 1.

use crate::expression::{TExpr, TPlace};
use c_ints::Value;

/// `while`, `do` and `for` (ISO/IEC 9899:1990, 6.6.5).
#[derive(Clone, Copy, PartialEq, Eq)]
pub enum LoopForm {
    While,
    Do,
    For,
}

/// A statement (ISO/IEC 9899:1990, 6.6), or a declarator of a local.
#[cycle(statement)]
pub enum TStmt {
    Block {
        statements: Vec<TStmt>,
        line: u32,
    },
    /// `;`
    Empty {
        line: u32,
    },
    /// An expression whose value is dropped.
    Expr {
        value: TExpr,
        line: u32,
    },
    /// The declarator of a local that is given no value: its bytes become unset. It is no node.
    Declare {
        local: usize,
        line: u32,
    },
    /// The declarator of a local that is an integer or a pointer, and its value.
    InitScalar {
        local: usize,
        value: TExpr,
        line: u32,
    },
    /// The declarator of a local with a list or a string: its items in order. Bytes without an item
    /// become 0 after them.
    InitList {
        local: usize,
        items: Vec<TItem>,
        line: u32,
    },
    /// `if`, any number of `else if`, and at most one `else`. At least one arm, and each is a node.
    If {
        arms: Vec<TArm>,
        otherwise: Option<Box<TStmt>>,
        line: u32,
    },
    /// A loop. `begin` and `step` stand only in a `for`, and only there the condition may be left out.
    Loop {
        form: LoopForm,
        begin: Option<TExpr>,
        condition: Option<TExpr>,
        step: Option<TExpr>,
        body: Box<TStmt>,
        line: u32,
    },
    /// A `switch`: its promoted value, its case labels in order, where `default` leads, and the
    /// statements of its body.
    Switch {
        value: TExpr,
        cases: Vec<TCase>,
        default: Option<usize>,
        statements: Vec<TStmt>,
        line: u32,
    },
    Break {
        line: u32,
    },
    Continue {
        line: u32,
    },
    Return {
        value: Option<TExpr>,
        line: u32,
    },
}

impl Drop for TStmt {
    #[cycle(statement)]
    fn drop(self) {
        match self {
            TStmt::Block {
                statements: _,
                line: _,
            }
            | TStmt::Empty { line: _ }
            | TStmt::Expr { value: _, line: _ }
            | TStmt::Declare { local: _, line: _ }
            | TStmt::InitScalar {
                local: _,
                value: _,
                line: _,
            }
            | TStmt::InitList {
                local: _,
                items: _,
                line: _,
            }
            | TStmt::If {
                arms: _,
                otherwise: _,
                line: _,
            }
            | TStmt::Loop {
                form: _,
                begin: _,
                condition: _,
                step: _,
                body: _,
                line: _,
            }
            | TStmt::Switch {
                value: _,
                cases: _,
                default: _,
                statements: _,
                line: _,
            }
            | TStmt::Break { line: _ }
            | TStmt::Continue { line: _ }
            | TStmt::Return { value: _, line: _ } => {}
        }
    }
}

/// `if (CONDITION) THEN`, with the line of its `if`.
#[cycle(statement)]
pub struct TArm {
    pub condition: TExpr,
    pub then: TStmt,
    pub line: u32,
}

impl Drop for TArm {
    #[cycle(statement)]
    fn drop(self) {
        let TArm {
            condition: _,
            then: _,
            line: _,
        } = self;
    }
}

/// A case label: its value in the type of the switch, and how many statements of the body stand
/// before it.
#[derive(Clone, Copy, PartialEq, Eq)]
pub struct TCase {
    pub value: Value,
    pub target: usize,
    pub line: u32,
}

/// An item of a local's list, `offset` bytes after the local's start.
#[derive(Drop)]
pub enum TItem {
    /// An integer or a pointer.
    Scalar {
        offset: u64,
        value: TExpr,
    },
    /// A structure of `size` bytes.
    Struct {
        offset: u64,
        from: TPlace,
        size: u64,
    },
    /// A string for a char array of `size` bytes: its characters, which may be fewer than these. The
    /// others become 0.
    Text {
        offset: u64,
        bytes: Vec<u8>,
        size: u64,
    },
}
