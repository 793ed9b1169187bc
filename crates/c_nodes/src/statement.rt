//! Statements, declarations, functions, and the whole unit.
//!
//! A field of type `u32` that is named after a token is the line of that token.
//!
//! Types that reach one another say themselves how they are let go, as those of expressions do.

use crate::expression::{Assign, Cond, Declarator, Expr, Specs};
use crate::word::Text;

/// A translation unit (ISO/IEC 9899:1990, 6.7).
#[derive(Drop)]
pub struct Unit {
    pub items: Vec<Item>,
}

/// A function, or a declaration outside functions.
#[derive(Drop)]
pub enum Item {
    Function(Function),
    Declaration(Declaration),
}

/// The definition of a function (ISO/IEC 9899:1990, 6.7.1).
#[derive(Drop)]
pub struct Function {
    pub specs: Specs,
    pub declarator: Declarator,
    pub body: Block,
}

/// A declaration (ISO/IEC 9899:1990, 6.5).
#[derive(Drop)]
pub struct Declaration {
    pub specs: Specs,
    pub declared: Option<Declared>,
    pub semicolon: u32,
}

/// The declarators of a declaration, at least one.
#[derive(Drop)]
pub struct Declared {
    pub first: InitDeclarator,
    pub others: Vec<NextInitDeclarator>,
}

/// A comma, and a declarator with what it begins as.
#[derive(Drop)]
pub struct NextInitDeclarator {
    pub comma: u32,
    pub declarator: InitDeclarator,
}

/// A declarator, and the value that it begins with, if one is given.
#[derive(Drop)]
pub struct InitDeclarator {
    pub declarator: Declarator,
    pub init: Option<EqualsInit>,
}

/// `= INIT`
#[derive(Drop)]
pub struct EqualsInit {
    pub equals: u32,
    pub init: Init,
}

/// An initializer (ISO/IEC 9899:1990, 6.5.7).
#[cycle(init)]
pub enum Init {
    Assign(Assign),
    Text(Text),
    /// `{ ITEMS }`, with a comma after the last item or without one
    List {
        opening: u32,
        first: Box<Init>,
        others: Vec<NextInit>,
        last_comma: Option<u32>,
        closing: u32,
    },
}

impl Drop for Init {
    #[cycle(init)]
    fn drop(self) {
        match self {
            Init::Assign(_)
            | Init::Text(_)
            | Init::List {
                opening: _,
                first: _,
                others: _,
                last_comma: _,
                closing: _,
            } => {}
        }
    }
}

/// A comma and an initializer.
#[cycle(init)]
pub struct NextInit {
    pub comma: u32,
    pub init: Init,
}

impl Drop for NextInit {
    #[cycle(init)]
    fn drop(self) {
        let NextInit { comma: _, init: _ } = self;
    }
}

/// A block (ISO/IEC 9899:1990, 6.6.2).
#[cycle(statement)]
pub struct Block {
    pub opening: u32,
    pub declarations: Vec<Declaration>,
    pub statements: Vec<Statement>,
    pub closing: u32,
}

impl Drop for Block {
    #[cycle(statement)]
    fn drop(self) {
        let Block {
            opening: _,
            declarations: _,
            statements: _,
            closing: _,
        } = self;
    }
}

/// A statement (ISO/IEC 9899:1990, 6.6).
#[cycle(statement)]
pub enum Statement {
    Block(Block),
    /// `EXPR;` or `;`
    Expr {
        expr: Option<Expr>,
        semicolon: u32,
    },
    If(IfChain),
    /// `while (CONDITION) BODY`
    While {
        keyword: u32,
        condition: Condition,
        body: Box<Statement>,
    },
    /// `do BODY while (CONDITION);`
    Do {
        keyword: u32,
        body: Box<Statement>,
        while_keyword: u32,
        condition: Condition,
        semicolon: u32,
    },
    /// `for (BEGIN; CONDITION; STEP) BODY`
    For {
        keyword: u32,
        head: Box<ForHead>,
        body: Box<Statement>,
    },
    /// `switch (VALUE) { ITEMS }`
    Switch {
        keyword: u32,
        value: Condition,
        opening: u32,
        items: Vec<SwitchItem>,
        closing: u32,
    },
    /// `break;` or `continue;`
    Break {
        keyword: u32,
        semicolon: u32,
    },
    Continue {
        keyword: u32,
        semicolon: u32,
    },
    /// `return VALUE;`
    Return {
        keyword: u32,
        value: Option<Expr>,
        semicolon: u32,
    },
}

impl Drop for Statement {
    #[cycle(statement)]
    fn drop(self) {
        match self {
            Statement::Block(_)
            | Statement::Expr {
                expr: _,
                semicolon: _,
            }
            | Statement::If(_)
            | Statement::While {
                keyword: _,
                condition: _,
                body: _,
            }
            | Statement::Do {
                keyword: _,
                body: _,
                while_keyword: _,
                condition: _,
                semicolon: _,
            }
            | Statement::For {
                keyword: _,
                head: _,
                body: _,
            }
            | Statement::Switch {
                keyword: _,
                value: _,
                opening: _,
                items: _,
                closing: _,
            }
            | Statement::Break {
                keyword: _,
                semicolon: _,
            }
            | Statement::Continue {
                keyword: _,
                semicolon: _,
            }
            | Statement::Return {
                keyword: _,
                value: _,
                semicolon: _,
            } => {}
        }
    }
}

/// `(EXPR)`, the condition of a statement or what a `switch` looks at.
#[derive(Drop)]
pub struct Condition {
    pub opening: u32,
    pub expr: Expr,
    pub closing: u32,
}

/// `(BEGIN; CONDITION; STEP)`
#[derive(Drop)]
pub struct ForHead {
    pub opening: u32,
    pub begin: Option<Expr>,
    pub first_semicolon: u32,
    pub condition: Option<Expr>,
    pub second_semicolon: u32,
    pub step: Option<Expr>,
    pub closing: u32,
}

/// `if`, any number of `else if`, and at most one `else`.
#[cycle(statement)]
pub struct IfChain {
    pub first: Box<Arm>,
    pub others: Vec<ElseArm>,
    pub last: Option<Box<Otherwise>>,
}

impl Drop for IfChain {
    #[cycle(statement)]
    fn drop(self) {
        let IfChain {
            first: _,
            others: _,
            last: _,
        } = self;
    }
}

/// `if (CONDITION) THEN`
#[cycle(statement)]
pub struct Arm {
    pub keyword: u32,
    pub condition: Condition,
    pub then: Statement,
}

impl Drop for Arm {
    #[cycle(statement)]
    fn drop(self) {
        let Arm {
            keyword: _,
            condition: _,
            then: _,
        } = self;
    }
}

/// `else if (CONDITION) THEN`
#[cycle(statement)]
pub struct ElseArm {
    pub else_keyword: u32,
    pub arm: Arm,
}

impl Drop for ElseArm {
    #[cycle(statement)]
    fn drop(self) {
        let ElseArm {
            else_keyword: _,
            arm: _,
        } = self;
    }
}

/// `else STATEMENT`
#[cycle(statement)]
pub struct Otherwise {
    pub keyword: u32,
    pub statement: Statement,
}

impl Drop for Otherwise {
    #[cycle(statement)]
    fn drop(self) {
        let Otherwise {
            keyword: _,
            statement: _,
        } = self;
    }
}

/// What stands in the body of a `switch`.
#[cycle(statement)]
pub enum SwitchItem {
    Label(Label),
    Statement(Statement),
}

impl Drop for SwitchItem {
    #[cycle(statement)]
    fn drop(self) {
        match self {
            SwitchItem::Label(_) | SwitchItem::Statement(_) => {}
        }
    }
}

/// A label of a `switch` (ISO/IEC 9899:1990, 6.6.1).
#[derive(Drop)]
pub enum Label {
    /// `case VALUE:`
    Case {
        keyword: u32,
        value: Cond,
        colon: u32,
    },
    /// `default:`
    Default {
        keyword: u32,
        colon: u32,
    },
}
