//! Typed expressions: each node has its type and the line of its first token, counted from 1.

ghost use Rattle.std.specs.Prelude.{◌≡◌};
ghost use Rattle.std.specs.Option.{option_map};
ghost use Rattle.c_typed.specs.Types.{type_of, place_read, place_type, form_of, is_constant};
ghost use Rattle.c_typed.specs.Views.{expression_of, place_of};
ghost use Rattle.c_typed.specs.Words.{step_operator};

use crate::types::{Qualified, Ty};
use c_ints::{BinOp, IntTy, UnOp, Value};
use std::mem;

/// What a name that is a place stands for.
#[derive(Clone, Copy, PartialEq, Eq)]
pub enum Object {
    /// The object of this number in `Typed::statics`.
    Static(usize),
    /// The parameter of this number of the function that the node stands in.
    Param(usize),
    /// The local of this number of the function that the node stands in.
    Local(usize),
    /// The device register with this lowest address.
    Register(u8),
}

/// `&&` and `||` (ISO/IEC 9899:1990, 6.3.13 and 6.3.14).
#[derive(Clone, Copy, PartialEq, Eq)]
pub enum LogicalOp {
    And,
    Or,
}

/// `++` and `--`, before their operand or after it (ISO/IEC 9899:1990, 6.3.2.4 and 6.3.3.1).
#[derive(Clone, Copy, PartialEq, Eq)]
pub enum StepOp {
    PreIncrement,
    PreDecrement,
    PostIncrement,
    PostDecrement,
}

impl StepOp {
    /// The operator of the update that a step is.
    pub fn operator(self) -> BinOp
        ensures { result ≡ step_operator self }
    {
        match self {
            StepOp::PreIncrement | StepOp::PostIncrement => BinOp::Add,
            StepOp::PreDecrement | StepOp::PostDecrement => BinOp::Sub,
        }
    }
}

/// An expression that has a value (ISO/IEC 9899:1990, 6.3).
#[cycle(expression)]
pub enum TExpr {
    /// A constant, or what `sizeof` gives.
    Constant {
        value: Value,
        line: u32,
    },
    /// The value that a place has.
    Read {
        place: Box<TPlace>,
        ty: Ty,
        line: u32,
    },
    /// Where a place is: `&`, or an array that becomes a pointer to its first element.
    Address {
        place: Box<TPlace>,
        ty: Ty,
        line: u32,
    },
    /// A conversion that no cast asks for.
    Convert {
        operand: Box<TExpr>,
        ty: Ty,
        line: u32,
    },
    /// A conversion that a cast asks for.
    Cast {
        operand: Box<TExpr>,
        ty: Ty,
        line: u32,
    },
    /// `+ - ~` of a promoted operand, and `!` of any integer or pointer.
    Unary {
        op: UnOp,
        operand: Box<TExpr>,
        ty: Ty,
        line: u32,
    },
    /// A binary operator on integers, or a comparison of pointers. The type of the operation is that
    /// of the left operand, which the right one has too, except of a shift.
    Binary {
        op: BinOp,
        left: Box<TExpr>,
        right: Box<TExpr>,
        ty: Ty,
        line: u32,
    },
    /// A pointer plus an integer, an integer plus a pointer, or a pointer less an integer (`Add` and
    /// `Sub`). An element has `size` bytes.
    Offset {
        op: BinOp,
        left: Box<TExpr>,
        right: Box<TExpr>,
        size: u64,
        ty: Ty,
        line: u32,
    },
    /// How many elements of `size` bytes lie between two pointers. Its type is int.
    Difference {
        left: Box<TExpr>,
        right: Box<TExpr>,
        size: u64,
        line: u32,
    },
    /// `&&` or `||`. Its type is int.
    Logical {
        op: LogicalOp,
        left: Box<TExpr>,
        right: Box<TExpr>,
        line: u32,
    },
    /// `CONDITION ? THEN : OTHERWISE`
    Conditional {
        condition: Box<TExpr>,
        then: Box<TExpr>,
        otherwise: Box<TExpr>,
        ty: Ty,
        line: u32,
    },
    /// `LEFT, RIGHT`
    Comma {
        left: Box<TExpr>,
        right: Box<TExpr>,
        ty: Ty,
        line: u32,
    },
    /// `PLACE = VALUE` of an integer or a pointer.
    Assign {
        place: Box<TPlace>,
        value: Box<TExpr>,
        ty: Ty,
        line: u32,
    },
    /// `PLACE = FROM` of structures of `size` bytes. It has no value.
    StructAssign {
        place: Box<TPlace>,
        from: Box<TPlace>,
        size: u64,
        line: u32,
    },
    /// `PLACE op= VALUE`. `operation` is the type that the place's value is converted to before the
    /// operator, and `size` is that of an element where it is a pointer, otherwise 0.
    Update {
        op: BinOp,
        place: Box<TPlace>,
        value: Box<TExpr>,
        operation: Ty,
        size: u64,
        ty: Ty,
        line: u32,
    },
    /// `++` or `--`, as an update by the int 1.
    Step {
        op: StepOp,
        place: Box<TPlace>,
        operation: Ty,
        size: u64,
        ty: Ty,
        line: u32,
    },
    /// A call of the function of this number in `Typed::functions`.
    Call {
        function: u32,
        arguments: Vec<TExpr>,
        ty: Ty,
        line: u32,
    },
}

impl Drop for TExpr {
    #[cycle(expression)]
    fn drop(self) {
        match self {
            TExpr::Constant { value: _, line: _ }
            | TExpr::Read {
                place: _,
                ty: _,
                line: _,
            }
            | TExpr::Address {
                place: _,
                ty: _,
                line: _,
            }
            | TExpr::Convert {
                operand: _,
                ty: _,
                line: _,
            }
            | TExpr::Cast {
                operand: _,
                ty: _,
                line: _,
            }
            | TExpr::Unary {
                op: _,
                operand: _,
                ty: _,
                line: _,
            }
            | TExpr::Binary {
                op: _,
                left: _,
                right: _,
                ty: _,
                line: _,
            }
            | TExpr::Offset {
                op: _,
                left: _,
                right: _,
                size: _,
                ty: _,
                line: _,
            }
            | TExpr::Difference {
                left: _,
                right: _,
                size: _,
                line: _,
            }
            | TExpr::Logical {
                op: _,
                left: _,
                right: _,
                line: _,
            }
            | TExpr::Conditional {
                condition: _,
                then: _,
                otherwise: _,
                ty: _,
                line: _,
            }
            | TExpr::Comma {
                left: _,
                right: _,
                ty: _,
                line: _,
            }
            | TExpr::Assign {
                place: _,
                value: _,
                ty: _,
                line: _,
            }
            | TExpr::StructAssign {
                place: _,
                from: _,
                size: _,
                line: _,
            }
            | TExpr::Update {
                op: _,
                place: _,
                value: _,
                operation: _,
                size: _,
                ty: _,
                line: _,
            }
            | TExpr::Step {
                op: _,
                place: _,
                operation: _,
                size: _,
                ty: _,
                line: _,
            }
            | TExpr::Call {
                function: _,
                arguments: _,
                ty: _,
                line: _,
            } => {}
        }
    }
}

/// How a place is found: by its name alone (a name, or a member of such a place), as a bit of a register,
/// or by an address that is computed.
#[derive(Clone, Copy, PartialEq, Eq)]
pub enum PlaceForm {
    Fixed,
    Bit,
    Computed,
}

/// An expression that is a place (ISO/IEC 9899:1990, 6.2.2.1: an lvalue).
#[cycle(expression)]
pub enum TPlace {
    /// The name of an object or of a device register.
    Name {
        object: Object,
        ty: Qualified,
        line: u32,
    },
    /// The name of a bit, 0 to 7, of the device register with this lowest address.
    Bit {
        register: u8,
        bit: u8,
        line: u32,
    },
    /// The member of this number of a structure, `offset` bytes after the structure's start.
    Member {
        whole: Box<TPlace>,
        member: usize,
        offset: u64,
        ty: Qualified,
        line: u32,
    },
    /// What a pointer points to.
    Deref {
        pointer: Box<TExpr>,
        ty: Qualified,
        line: u32,
    },
}

impl Drop for TPlace {
    #[cycle(expression)]
    fn drop(self) {
        match self {
            TPlace::Name {
                object: _,
                ty: _,
                line: _,
            }
            | TPlace::Bit {
                register: _,
                bit: _,
                line: _,
            }
            | TPlace::Member {
                whole: _,
                member: _,
                offset: _,
                ty: _,
                line: _,
            }
            | TPlace::Deref {
                pointer: _,
                ty: _,
                line: _,
            } => {}
        }
    }
}

impl TExpr {
    /// The type of the value.
    #[tactic(auto, using(crate::proofs::Shapes::expression_shapes))]
    pub fn ty(&self) -> Ty
        ensures { result ≡ type_of (expression_of self.now) }
    {
        match self {
            TExpr::Constant { value, .. } => Ty::Int(value.ty()),
            TExpr::Read { ty, .. }
            | TExpr::Address { ty, .. }
            | TExpr::Convert { ty, .. }
            | TExpr::Cast { ty, .. }
            | TExpr::Unary { ty, .. }
            | TExpr::Binary { ty, .. }
            | TExpr::Offset { ty, .. }
            | TExpr::Conditional { ty, .. }
            | TExpr::Comma { ty, .. }
            | TExpr::Assign { ty, .. }
            | TExpr::Update { ty, .. }
            | TExpr::Step { ty, .. }
            | TExpr::Call { ty, .. } => *ty,
            TExpr::Difference { .. } | TExpr::Logical { .. } => Ty::Int(IntTy::Int),
            TExpr::StructAssign { .. } => Ty::Void,
        }
    }

    /// Whether this is an integer constant expression (ISO/IEC 9899:1990, 6.4): it has only constants,
    /// `sizeof`, casts to integer types, and operators other than assignments and the comma.
    #[tactic(auto, using(crate::proofs::Shapes::expression_shapes), unfolding(crate::specs::Types::is_constant))]
    pub fn is_constant(&self) -> bool
        ensures { result ≡ is_constant (expression_of self.now) }
    {
        match self {
            TExpr::Constant { .. } => true,
            TExpr::Convert { operand, ty, .. } | TExpr::Cast { operand, ty, .. } => {
                ty.int().is_some() && operand.is_constant()
            }
            TExpr::Unary { operand, .. } => operand.is_constant(),
            TExpr::Binary { left, right, .. } | TExpr::Logical { left, right, .. } => {
                left.is_constant() && right.is_constant()
            }
            TExpr::Conditional {
                condition,
                then,
                otherwise,
                ..
            } => condition.is_constant() && (then.is_constant() && otherwise.is_constant()),
            TExpr::Read { .. }
            | TExpr::Address { .. }
            | TExpr::Offset { .. }
            | TExpr::Difference { .. }
            | TExpr::Comma { .. }
            | TExpr::Assign { .. }
            | TExpr::StructAssign { .. }
            | TExpr::Update { .. }
            | TExpr::Step { .. }
            | TExpr::Call { .. } => false,
        }
    }

    /// Takes out the place that the value is read from, if it is read from one, and leaves one that says nothing in
    /// its stead: a value whose type says itself how it is let go can't be taken apart.
    #[tactic(auto, using(crate::proofs::Shapes::expression_shapes))]
    pub fn take_read(&mut self) -> Option<TPlace>
        ensures { option_map place_of result ≡ place_read (expression_of self.old) }
    {
        match self {
            TExpr::Read { place, .. } => {
                let nothing = TPlace::Bit {
                    register: 0,
                    bit: 0,
                    line: 0,
                };
                Some(mem::replace(&mut **place, nothing))
            }
            TExpr::Constant { .. }
            | TExpr::Address { .. }
            | TExpr::Convert { .. }
            | TExpr::Cast { .. }
            | TExpr::Unary { .. }
            | TExpr::Binary { .. }
            | TExpr::Offset { .. }
            | TExpr::Difference { .. }
            | TExpr::Logical { .. }
            | TExpr::Conditional { .. }
            | TExpr::Comma { .. }
            | TExpr::Assign { .. }
            | TExpr::StructAssign { .. }
            | TExpr::Update { .. }
            | TExpr::Step { .. }
            | TExpr::Call { .. } => None,
        }
    }

    /// The line of the node's first token.
    pub fn line(&self) -> u32 {
        match self {
            TExpr::Constant { line, .. }
            | TExpr::Read { line, .. }
            | TExpr::Address { line, .. }
            | TExpr::Convert { line, .. }
            | TExpr::Cast { line, .. }
            | TExpr::Unary { line, .. }
            | TExpr::Binary { line, .. }
            | TExpr::Offset { line, .. }
            | TExpr::Difference { line, .. }
            | TExpr::Logical { line, .. }
            | TExpr::Conditional { line, .. }
            | TExpr::Comma { line, .. }
            | TExpr::Assign { line, .. }
            | TExpr::StructAssign { line, .. }
            | TExpr::Update { line, .. }
            | TExpr::Step { line, .. }
            | TExpr::Call { line, .. } => *line,
        }
    }
}

impl TPlace {
    /// The type of the place. A bit is an unsigned char that is volatile, as its register is.
    #[tactic(auto, using(crate::proofs::Shapes::place_shapes))]
    pub fn ty(&self) -> Qualified
        ensures { result ≡ place_type (place_of self.now) }
    {
        match self {
            TPlace::Name { ty, .. } | TPlace::Member { ty, .. } | TPlace::Deref { ty, .. } => *ty,
            TPlace::Bit { .. } => Qualified {
                ty: Ty::Int(IntTy::UChar),
                constant: false,
                volatile: true,
            },
        }
    }

    /// How the place is found.
    #[tactic(auto, using(crate::proofs::Shapes::place_shapes))]
    pub fn form(&self) -> PlaceForm
        ensures { result ≡ form_of (place_of self.now) }
    {
        match self {
            TPlace::Name { .. } => PlaceForm::Fixed,
            TPlace::Bit { .. } => PlaceForm::Bit,
            TPlace::Deref { .. } => PlaceForm::Computed,
            TPlace::Member { whole, .. } => match whole.form() {
                PlaceForm::Fixed => PlaceForm::Fixed,
                PlaceForm::Bit | PlaceForm::Computed => PlaceForm::Computed,
            },
        }
    }

    /// The line of the node's first token.
    pub fn line(&self) -> u32 {
        match self {
            TPlace::Name { line, .. }
            | TPlace::Bit { line, .. }
            | TPlace::Member { line, .. }
            | TPlace::Deref { line, .. } => *line,
        }
    }
}
