//! Expressions, and the declarators and type names that stand in them and hold them.
//!
//! A field of type `u32` that is named after a token is the line of that token. What stands in a list behind a token or
//! before one is a pair: types that reach one another are dear to prove by their number, and a pair adds none to them.
//!
//! Types that reach one another say themselves how they are let go, by a pattern that names their parts: a crate above calls
//! that, where what is derived would be proved again in each crate that lets one of them go. `Expr`, `Assign`, `Cond` and
//! `Binary` derive it, since only what derives it can be taken apart elsewhere, as a choice does that is let go.

ghost use Rattle.std.specs.Prelude.{◌≡◌, ◌++◌, [], if◌then◌else◌};

use crate::word::{Constant, Infix, Name, Pointer, Sign, Word};
use std::mem::swap;

/// The specifiers of a declaration (ISO/IEC 9899:1990, 6.5), at least one.
#[cycle(expression)]
pub struct Specs {
    pub first: Spec,
    pub others: Vec<Spec>,
}

impl Drop for Specs {
    #[cycle(expression)]
    fn drop(self) {
        let Specs {
            first: _,
            others: _,
        } = self;
    }
}

/// A specifier: a word, the name of a type, a structure, or an enumeration.
#[cycle(expression)]
pub enum Spec {
    Word(Word),
    /// A name that a `typedef` declared (ISO/IEC 9899:1990, 6.5.6)
    TypeName(Name),
    /// `struct NAME`
    Reference { keyword: u32, tag: Name },
    /// `struct NAME { MEMBERS }`, where the name may be left out
    Body(Box<StructBody>),
    /// `enum NAME`
    EnumReference { keyword: u32, tag: Name },
    /// `enum NAME { ENUMERATORS }`, where the name may be left out
    EnumBody(Box<EnumBody>),
}

impl Drop for Spec {
    #[cycle(expression)]
    fn drop(self) {
        match self {
            Spec::Word(_)
            | Spec::TypeName(_)
            | Spec::Reference { keyword: _, tag: _ }
            | Spec::Body(_)
            | Spec::EnumReference { keyword: _, tag: _ }
            | Spec::EnumBody(_) => {}
        }
    }
}

/// A structure with its members, at least one (ISO/IEC 9899:1990, 6.5.2.1).
#[cycle(expression)]
pub struct StructBody {
    pub keyword: u32,
    pub tag: Option<Name>,
    pub opening: u32,
    pub first: Member,
    pub others: Vec<Member>,
    pub closing: u32,
}

impl Drop for StructBody {
    #[cycle(expression)]
    fn drop(self) {
        let StructBody {
            keyword: _,
            tag: _,
            opening: _,
            first: _,
            others: _,
            closing: _,
        } = self;
    }
}

/// An enumeration with its enumerators, at least one, with a comma after the last or without one
/// (ISO/IEC 9899:1990, 6.5.2.2).
#[cycle(expression)]
pub struct EnumBody {
    pub keyword: u32,
    pub tag: Option<Name>,
    pub opening: u32,
    pub first: Enumerator,
    pub others: Vec<NextEnumerator>,
    pub last_comma: Option<u32>,
    pub closing: u32,
}

impl Drop for EnumBody {
    #[cycle(expression)]
    fn drop(self) {
        let EnumBody {
            keyword: _,
            tag: _,
            opening: _,
            first: _,
            others: _,
            last_comma: _,
            closing: _,
        } = self;
    }
}

/// The line of a comma, and an enumerator.
pub type NextEnumerator = (u32, Enumerator);

/// The name of a number, with its value or without one.
#[cycle(expression)]
pub enum Enumerator {
    /// `NAME`
    Bare(Name),
    /// `NAME = VALUE`
    Valued {
        name: Name,
        equals: u32,
        value: Box<Cond>,
    },
}

impl Drop for Enumerator {
    #[cycle(expression)]
    fn drop(self) {
        match self {
            Enumerator::Bare(_)
            | Enumerator::Valued {
                name: _,
                equals: _,
                value: _,
            } => {}
        }
    }
}

/// Members of one type.
#[cycle(expression)]
pub struct Member {
    pub specs: Specs,
    pub first: Declarator,
    pub others: Vec<NextDeclarator>,
    pub semicolon: u32,
}

impl Drop for Member {
    #[cycle(expression)]
    fn drop(self) {
        let Member {
            specs: _,
            first: _,
            others: _,
            semicolon: _,
        } = self;
    }
}

/// The line of a comma, and a declarator.
pub type NextDeclarator = (u32, Declarator);

/// A declarator: pointers, the name that it declares, and suffixes (ISO/IEC 9899:1990, 6.5.4).
#[cycle(expression)]
pub struct Declarator {
    pub pointers: Vec<Pointer>,
    pub name: Name,
    pub suffixes: Vec<Suffix>,
}

impl Drop for Declarator {
    #[cycle(expression)]
    fn drop(self) {
        let Declarator {
            pointers: _,
            name: _,
            suffixes: _,
        } = self;
    }
}

/// What makes an array or a function of what is declared.
#[cycle(expression)]
pub enum Suffix {
    /// `[LENGTH]`, where the length may be left out
    Array {
        opening: u32,
        length: Option<Box<Cond>>,
        closing: u32,
    },
    /// `()`
    Empty {
        opening: u32,
        closing: u32,
    },
    /// `(void)`
    Void {
        opening: u32,
        void: u32,
        closing: u32,
    },
    /// A list of parameters.
    Params {
        opening: u32,
        first: Box<Param>,
        others: Vec<NextParam>,
        closing: u32,
    },
}

impl Drop for Suffix {
    #[cycle(expression)]
    fn drop(self) {
        match self {
            Suffix::Array {
                opening: _,
                length: _,
                closing: _,
            }
            | Suffix::Empty {
                opening: _,
                closing: _,
            }
            | Suffix::Void {
                opening: _,
                void: _,
                closing: _,
            }
            | Suffix::Params {
                opening: _,
                first: _,
                others: _,
                closing: _,
            } => {}
        }
    }
}

/// The line of a comma, and a parameter.
pub type NextParam = (u32, Param);

/// A parameter, with a name or without one.
#[cycle(expression)]
pub enum Param {
    Named {
        specs: Specs,
        declarator: Declarator,
    },
    Unnamed {
        specs: Specs,
        pointers: Vec<Pointer>,
        suffixes: Vec<Suffix>,
    },
}

impl Drop for Param {
    #[cycle(expression)]
    fn drop(self) {
        match self {
            Param::Named {
                specs: _,
                declarator: _,
            }
            | Param::Unnamed {
                specs: _,
                pointers: _,
                suffixes: _,
            } => {}
        }
    }
}

/// The name of a type in a cast or in `sizeof` (ISO/IEC 9899:1990, 6.5.5): specifiers and pointers.
pub type TypeName = (Specs, Vec<Pointer>);

/// An expression: assignments between commas (ISO/IEC 9899:1990, 6.3.17). The arguments of a call
/// have the same form.
#[cycle(expression)]
#[derive(Drop)]
pub struct Expr {
    pub first: Assign,
    pub others: Vec<NextAssign>,
}

/// The line of a comma, and an assignment.
pub type NextAssign = (u32, Assign);

/// A value, and what it is assigned to, the outermost first (ISO/IEC 9899:1990, 6.3.16).
#[cycle(expression)]
#[derive(Drop)]
pub struct Assign {
    pub targets: Vec<Target>,
    pub value: Cond,
}

/// The left side of an assignment, and its operator.
pub type Target = (Cast, Sign);

/// Choices by `?` and `:`, the outermost first, and what is left where no condition holds
/// (ISO/IEC 9899:1990, 6.3.15).
#[cycle(expression)]
#[derive(Drop)]
pub struct Cond {
    pub choices: Vec<Choice>,
    pub last: Binary,
}

/// `CONDITION ? THEN :`
#[cycle(expression)]
pub struct Choice {
    pub condition: Binary,
    pub question: u32,
    pub then: Box<Expr>,
    pub colon: u32,
}

// By a list in memory: choices stand in one another as deep as a text is long, and the call stack has an end. What finds
// no room there is let go by calls. Of choices that hold one choice each the list is the one that they lie in.
impl Drop for Choice {
    #[cycle(expression)]
    #[tactic(auto, using(crate::proofs::LettingGo::joined, crate::proofs::LettingGo::left, crate::proofs::LettingGo::kept, crate::proofs::LettingGo::last))]
    fn drop(mut self) {
        let mut waiting = Vec::new(*Box::allocator(&self.then));
        for _ in 0..u64::MAX {
            let Choice {
                condition: _,
                question: _,
                then,
                colon: _,
            } = self;
            let Expr { first, mut others } = Box::into_inner(then);
            let Assign { targets: _, value } = first;
            let Cond {
                mut choices,
                last: _,
            } = value;
            let _ = put_off(&mut waiting, &mut choices);
            while let Some((_, next)) = others.pop() {
                let Assign { targets: _, value } = next;
                let Cond {
                    mut choices,
                    last: _,
                } = value;
                let _ = put_off(&mut waiting, &mut choices);
            }
            match waiting.pop() {
                Some(choice) => self = choice,
                None => return,
            }
        }
        let Choice {
            condition: _,
            question: _,
            then: _,
            colon: _,
        } = self;
    }
}

/// Puts these choices behind those that wait, and answers whether there was room. Where none wait that takes no memory.
fn put_off(waiting: &mut Vec<Choice>, choices: &mut Vec<Choice>) -> bool
    ensures waiting { waiting.new.items ≡ (if result then waiting.old.items ++ choices.old.items else waiting.old.items) }
    ensures choices { choices.new.items ≡ (if result then [] else choices.old.items) }
{
    if waiting.is_empty() {
        swap(waiting, choices);
        return true;
    }
    waiting.append(choices).is_ok()
}

/// Operands between binary operators of one level, which group to the left, or one operand alone
/// (ISO/IEC 9899:1990, 6.3.5 to 6.3.14).
#[cycle(expression)]
#[derive(Drop)]
pub enum Binary {
    Operand(Cast),
    Chain {
        first: Box<Binary>,
        others: Vec<NextOperand>,
    },
}

/// A binary operator, and its right operand.
pub type NextOperand = (Infix, Binary);

/// An operand with its prefixes, the outermost first (ISO/IEC 9899:1990, 6.3.3 and 6.3.4).
#[cycle(expression)]
pub struct Cast {
    pub prefixes: Vec<Prefix>,
    pub operand: Operand,
}

impl Drop for Cast {
    #[cycle(expression)]
    fn drop(self) {
        let Cast {
            prefixes: _,
            operand: _,
        } = self;
    }
}

/// A prefix of an operand.
#[cycle(expression)]
pub enum Prefix {
    /// One of `++ -- & * + - ~ !`
    Operator(Sign),
    /// `sizeof` of an expression
    Sizeof {
        keyword: u32,
    },
    /// `(TYPE)`
    Cast {
        opening: u32,
        type_name: Box<TypeName>,
        closing: u32,
    },
}

impl Drop for Prefix {
    #[cycle(expression)]
    fn drop(self) {
        match self {
            Prefix::Operator(_)
            | Prefix::Sizeof { keyword: _ }
            | Prefix::Cast {
                opening: _,
                type_name: _,
                closing: _,
            } => {}
        }
    }
}

/// What prefixes stand before.
#[cycle(expression)]
pub enum Operand {
    Postfix(Postfix),
    /// `sizeof(TYPE)`
    SizeofType {
        keyword: u32,
        opening: u32,
        type_name: Box<TypeName>,
        closing: u32,
    },
}

impl Drop for Operand {
    #[cycle(expression)]
    fn drop(self) {
        match self {
            Operand::Postfix(_)
            | Operand::SizeofType {
                keyword: _,
                opening: _,
                type_name: _,
                closing: _,
            } => {}
        }
    }
}

/// A primary expression with its postfixes (ISO/IEC 9899:1990, 6.3.2).
#[cycle(expression)]
pub struct Postfix {
    pub primary: Primary,
    pub suffixes: Vec<PostfixSuffix>,
}

impl Drop for Postfix {
    #[cycle(expression)]
    fn drop(self) {
        let Postfix {
            primary: _,
            suffixes: _,
        } = self;
    }
}

/// A postfix of an expression.
#[cycle(expression)]
pub enum PostfixSuffix {
    /// `[INDEX]`
    Index {
        opening: u32,
        index: Box<Expr>,
        closing: u32,
    },
    /// `(ARGUMENTS)`
    Call {
        opening: u32,
        arguments: Option<Box<Expr>>,
        closing: u32,
    },
    /// `.NAME` or `->NAME`
    Member {
        operator: Sign,
        name: Name,
    },
    /// `++` or `--`
    Step(Sign),
}

impl Drop for PostfixSuffix {
    #[cycle(expression)]
    fn drop(self) {
        match self {
            PostfixSuffix::Index {
                opening: _,
                index: _,
                closing: _,
            }
            | PostfixSuffix::Call {
                opening: _,
                arguments: _,
                closing: _,
            }
            | PostfixSuffix::Member {
                operator: _,
                name: _,
            }
            | PostfixSuffix::Step(_) => {}
        }
    }
}

/// A primary expression (ISO/IEC 9899:1990, 6.3.1).
#[cycle(expression)]
pub enum Primary {
    Name(Name),
    Constant(Constant),
    /// `(EXPR)`
    Group {
        opening: u32,
        inner: Box<Expr>,
        closing: u32,
    },
}

impl Drop for Primary {
    #[cycle(expression)]
    fn drop(self) {
        match self {
            Primary::Name(_)
            | Primary::Constant(_)
            | Primary::Group {
                opening: _,
                inner: _,
                closing: _,
            } => {}
        }
    }
}
