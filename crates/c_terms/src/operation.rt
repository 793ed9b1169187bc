//! The types of binary operators (ISO/IEC 9899:1990, 6.3.5 to 6.3.12).

ghost use Rattle.std.specs.Prelude.{◌≡◌, ◌&&◌, ◌||◌, not, if◌then◌else◌, Some, None};
ghost use Rattle.std.specs.Option.{option_map};
ghost use Rattle.c_typed.specs.declared.types.Ty.TheVariants.{Int, Pointer};
ghost use Rattle.type_rules.specs.Known.{Known};
ghost use Rattle.type_rules.specs.Operations as rule;
ghost use Rattle.c_tables.specs.Tables.{types_in};
ghost use Rattle.c_terms.specs.Terms.{operation_of, side_of};

use crate::term::Side;
use c_ints::{BinOp, IntTy, promote, usual};
use c_tables::types::Types;
use c_token::Punct;
use c_typed::{Ty, is_void, same_type};

/// Which kind of node an operator becomes.
#[derive(Clone, Copy)]
pub enum Node {
    /// On integers, or a comparison.
    Binary,
    /// A pointer and an integer.
    Offset,
    /// Two pointers.
    Difference,
}

/// What an operator does with operands of some types: the types that they are converted to, that of
/// the result, and the bytes of an element where pointers are moved, otherwise 0.
#[derive(Clone, Copy)]
pub struct Operation {
    pub node: Node,
    pub left: Ty,
    pub right: Ty,
    pub ty: Ty,
    pub size: u64,
}

const INT: Ty = Ty::Int(IntTy::Int);

fn plain(left: Ty, right: Ty, ty: Ty) -> Operation
    ensures { operation_of result ≡ rule.on_one left right ty }
{
    Operation {
        node: Node::Binary,
        left,
        right,
        ty,
        size: 0,
    }
}

fn on_integers(op: BinOp, a: IntTy, b: IntTy) -> Operation
    ensures { operation_of result ≡ rule.on_integers op a b }
{
    match op {
        BinOp::Shl | BinOp::Shr => {
            let left = Ty::Int(promote(a));
            plain(left, Ty::Int(promote(b)), left)
        }
        BinOp::Lt | BinOp::Gt | BinOp::Le | BinOp::Ge | BinOp::Eq | BinOp::Ne => {
            let both = Ty::Int(usual(a, b));
            plain(both, both, INT)
        }
        BinOp::Mul
        | BinOp::Div
        | BinOp::Rem
        | BinOp::Add
        | BinOp::Sub
        | BinOp::And
        | BinOp::Xor
        | BinOp::Or => {
            let both = Ty::Int(usual(a, b));
            plain(both, both, both)
        }
    }
}

// A long index becomes an int, an unsigned long one an unsigned int.
fn shortened(ty: IntTy) -> IntTy
    ensures { result ≡ rule.shortened ty }
{
    match ty {
        IntTy::Long => IntTy::Int,
        IntTy::ULong => IntTy::UInt,
        IntTy::Char
        | IntTy::SChar
        | IntTy::UChar
        | IntTy::Short
        | IntTy::UShort
        | IntTy::Int
        | IntTy::UInt => ty,
    }
}

// The type that an index has.
fn index_type(ty: IntTy) -> Ty
    ensures { result ≡ rule.index_type ty }
{
    Ty::Int(shortened(promote(ty)))
}

/// Whether a pointer may be moved: what it points to is no void and no structure without a body.
pub fn counts_in(types: &Types, target: usize) -> bool
    ensures { (known : Known) → result ≡ rule.counts_in (types_in types.now known) target }
{
    types.is_complete(types.target(target).ty)
}

/// How many bytes what a pointer points to has.
pub fn element_bytes(types: &Types, target: usize) -> u64
    ensures { (known : Known) → result ≡ rule.element_bytes (types_in types.now known) target }
{
    types.bytes_of(types.target(target).ty)
}

// The operation that moves a pointer to this by one of the two sides.
fn moved(types: &Types, target: usize, left: Ty, right: Ty) -> Option<Operation>
    ensures { (known : Known) → option_map operation_of result ≡ rule.moved (types_in types.now known) target left right }
{
    if counts_in(types, target) {
        Some(Operation {
            node: Node::Offset,
            left,
            right,
            ty: Ty::Pointer(target),
            size: element_bytes(types, target),
        })
    } else {
        None
    }
}

fn pointer_and_integer(types: &Types, op: BinOp, target: usize, b: IntTy) -> Option<Operation>
    ensures { (known : Known) → option_map operation_of result ≡ rule.pointer_and_integer (types_in types.now known) op target b }
{
    match op {
        BinOp::Add | BinOp::Sub => moved(types, target, Ty::Pointer(target), index_type(b)),
        BinOp::Mul
        | BinOp::Div
        | BinOp::Rem
        | BinOp::Shl
        | BinOp::Shr
        | BinOp::Lt
        | BinOp::Gt
        | BinOp::Le
        | BinOp::Ge
        | BinOp::Eq
        | BinOp::Ne
        | BinOp::And
        | BinOp::Xor
        | BinOp::Or => None,
    }
}

fn integer_and_pointer(types: &Types, op: BinOp, a: IntTy, target: usize) -> Option<Operation>
    ensures { (known : Known) → option_map operation_of result ≡ rule.integer_and_pointer (types_in types.now known) op a target }
{
    match op {
        BinOp::Add => moved(types, target, index_type(a), Ty::Pointer(target)),
        BinOp::Mul
        | BinOp::Div
        | BinOp::Rem
        | BinOp::Sub
        | BinOp::Shl
        | BinOp::Shr
        | BinOp::Lt
        | BinOp::Gt
        | BinOp::Le
        | BinOp::Ge
        | BinOp::Eq
        | BinOp::Ne
        | BinOp::And
        | BinOp::Xor
        | BinOp::Or => None,
    }
}

// Whether two pointers point to one type, qualifiers aside.
fn point_alike(types: &Types, a: usize, b: usize) -> bool
    ensures { (known : Known) → result ≡ rule.point_alike (types_in types.now known) a b }
{
    same_type(types.target(a).ty, types.target(b).ty)
}

fn difference(types: &Types, a: usize, b: usize) -> Option<Operation>
    ensures { (known : Known) → option_map operation_of result ≡ rule.difference (types_in types.now known) a b }
{
    if !point_alike(types, a, b) {
        return None;
    }
    if !counts_in(types, a) {
        return None;
    }
    Some(Operation {
        node: Node::Difference,
        left: Ty::Pointer(a),
        right: Ty::Pointer(b),
        ty: INT,
        size: element_bytes(types, a),
    })
}

fn points_to_void(types: &Types, target: usize) -> bool
    ensures { (known : Known) → result ≡ rule.points_to_void (types_in types.now known) target }
{
    is_void(types.target(target).ty)
}

// Two pointers that are compared, by whether they point to one type and which of them points to void. A side that isn't
// void, or a null constant, takes the other's type.
fn equality_by(alike: bool, a: (usize, bool, bool), b: (usize, bool, bool)) -> Option<Operation>
    ensures { option_map operation_of result ≡ (if alike then Some (rule.on_one (Pointer a.0) (Pointer b.0) rule.plain_int) else if a.2 || (b.1 && not b.2) then Some (rule.on_one (Pointer a.0) (Pointer a.0) rule.plain_int) else if b.2 || a.1 then Some (rule.on_one (Pointer b.0) (Pointer b.0) rule.plain_int) else None) }
{
    if alike {
        Some(plain(Ty::Pointer(a.0), Ty::Pointer(b.0), INT))
    } else if a.2 || (b.1 && !b.2) {
        Some(plain(Ty::Pointer(a.0), Ty::Pointer(a.0), INT))
    } else if b.2 || a.1 {
        Some(plain(Ty::Pointer(b.0), Ty::Pointer(b.0), INT))
    } else {
        None
    }
}

// Two pointers that are compared: their rows, and whether they are null constants.
fn equality(types: &Types, a: usize, a_null: bool, b: usize, b_null: bool) -> Option<Operation>
    ensures { (known : Known) → option_map operation_of result ≡ rule.equality (types_in types.now known) a a_null b b_null }
{
    let alike = point_alike(types, a, b);
    let left_void = points_to_void(types, a);
    let right_void = points_to_void(types, b);
    equality_by(alike, (a, a_null, left_void), (b, b_null, right_void))
}

fn is_equality(op: BinOp) -> bool
    ensures { result ≡ rule.equates op }
{
    match op {
        BinOp::Eq | BinOp::Ne => true,
        BinOp::Mul
        | BinOp::Div
        | BinOp::Rem
        | BinOp::Add
        | BinOp::Sub
        | BinOp::Shl
        | BinOp::Shr
        | BinOp::Lt
        | BinOp::Gt
        | BinOp::Le
        | BinOp::Ge
        | BinOp::And
        | BinOp::Xor
        | BinOp::Or => false,
    }
}

// Two pointers that are compared, and that have to point to one type.
fn ordered(types: &Types, a: usize, b: usize) -> Option<Operation>
    ensures { (known : Known) → option_map operation_of result ≡ (if rule.point_alike (types_in types.now known) a b then Some (rule.on_one (Pointer a) (Pointer b) rule.plain_int) else None) }
{
    if point_alike(types, a, b) {
        Some(plain(Ty::Pointer(a), Ty::Pointer(b), INT))
    } else {
        None
    }
}

fn on_pointers(types: &Types, op: BinOp, a: usize, b: usize) -> Option<Operation>
    ensures { (known : Known) → option_map operation_of result ≡ rule.on_pointers (types_in types.now known) op a b }
{
    match op {
        BinOp::Sub => difference(types, a, b),
        BinOp::Lt | BinOp::Gt | BinOp::Le | BinOp::Ge | BinOp::Eq | BinOp::Ne => {
            ordered(types, a, b)
        }
        BinOp::Mul
        | BinOp::Div
        | BinOp::Rem
        | BinOp::Add
        | BinOp::Shl
        | BinOp::Shr
        | BinOp::And
        | BinOp::Xor
        | BinOp::Or => None,
    }
}

// An operator whose left operand is an integer.
fn beside_integer(
    types: &Types,
    op: BinOp,
    a: IntTy,
    a_null: bool,
    right: Side,
) -> Option<Operation>
    ensures { (known : Known) → option_map operation_of result ≡ rule.operation_on (types_in types.now known) op a_null right.null (Int a) right.ty }
{
    match right.ty {
        Ty::Int(b) => Some(on_integers(op, a, b)),
        Ty::Pointer(b) => {
            if is_equality(op) && a_null {
                Some(plain(Ty::Pointer(b), Ty::Pointer(b), INT))
            } else {
                integer_and_pointer(types, op, a, b)
            }
        }
        Ty::Void | Ty::Array { .. } | Ty::Struct(_) => None,
    }
}

// An operator whose left operand is a pointer.
fn beside_pointer(
    types: &Types,
    op: BinOp,
    a: usize,
    a_null: bool,
    right: Side,
) -> Option<Operation>
    ensures { (known : Known) → option_map operation_of result ≡ rule.operation_on (types_in types.now known) op a_null right.null (Pointer a) right.ty }
{
    match right.ty {
        Ty::Int(b) => {
            if is_equality(op) && right.null {
                Some(plain(Ty::Pointer(a), Ty::Pointer(a), INT))
            } else {
                pointer_and_integer(types, op, a, b)
            }
        }
        Ty::Pointer(b) => {
            if is_equality(op) {
                equality(types, a, a_null, b, right.null)
            } else {
                on_pointers(types, op, a, b)
            }
        }
        Ty::Void | Ty::Array { .. } | Ty::Struct(_) => None,
    }
}

/// What a binary operator does with operands of these types, or `None` where they don't fit it.
pub fn operation_of(types: &Types, op: BinOp, left: Side, right: Side) -> Option<Operation>
    ensures { (known : Known) → option_map operation_of result ≡ rule.operation_of (types_in types.now known) op (side_of left) (side_of right) }
{
    match left.ty {
        Ty::Int(a) => beside_integer(types, op, a, left.null, right),
        Ty::Pointer(a) => beside_pointer(types, op, a, left.null, right),
        Ty::Void | Ty::Array { .. } | Ty::Struct(_) => None,
    }
}

/// The binary operator that a sign is, if it is one whose operands are both evaluated.
pub fn binary_operator(punct: Punct) -> Option<BinOp>
    ensures { result ≡ rule.binary_of punct }
{
    match punct {
        Punct::Star => Some(BinOp::Mul),
        Punct::Slash => Some(BinOp::Div),
        Punct::Percent => Some(BinOp::Rem),
        Punct::Plus => Some(BinOp::Add),
        Punct::Minus => Some(BinOp::Sub),
        Punct::ShiftLeft => Some(BinOp::Shl),
        Punct::ShiftRight => Some(BinOp::Shr),
        Punct::Less => Some(BinOp::Lt),
        Punct::Greater => Some(BinOp::Gt),
        Punct::LessEqual => Some(BinOp::Le),
        Punct::GreaterEqual => Some(BinOp::Ge),
        Punct::Equal => Some(BinOp::Eq),
        Punct::NotEqual => Some(BinOp::Ne),
        Punct::Ampersand => Some(BinOp::And),
        Punct::Caret => Some(BinOp::Xor),
        Punct::Bar => Some(BinOp::Or),
        Punct::LeftBracket
        | Punct::RightBracket
        | Punct::LeftParenthesis
        | Punct::RightParenthesis
        | Punct::LeftBrace
        | Punct::RightBrace
        | Punct::Dot
        | Punct::Arrow
        | Punct::Increment
        | Punct::Decrement
        | Punct::Tilde
        | Punct::Not
        | Punct::And
        | Punct::Or
        | Punct::Question
        | Punct::Colon
        | Punct::Semicolon
        | Punct::Assign
        | Punct::StarAssign
        | Punct::SlashAssign
        | Punct::PercentAssign
        | Punct::PlusAssign
        | Punct::MinusAssign
        | Punct::ShiftLeftAssign
        | Punct::ShiftRightAssign
        | Punct::AmpersandAssign
        | Punct::CaretAssign
        | Punct::BarAssign
        | Punct::Comma
        | Punct::Hash => None,
    }
}

/// The operator of a compound assignment, if the sign is that of one.
pub fn compound_operator(punct: Punct) -> Option<BinOp>
    ensures { result ≡ rule.compound_of punct }
{
    match punct {
        Punct::StarAssign => Some(BinOp::Mul),
        Punct::SlashAssign => Some(BinOp::Div),
        Punct::PercentAssign => Some(BinOp::Rem),
        Punct::PlusAssign => Some(BinOp::Add),
        Punct::MinusAssign => Some(BinOp::Sub),
        Punct::ShiftLeftAssign => Some(BinOp::Shl),
        Punct::ShiftRightAssign => Some(BinOp::Shr),
        Punct::AmpersandAssign => Some(BinOp::And),
        Punct::CaretAssign => Some(BinOp::Xor),
        Punct::BarAssign => Some(BinOp::Or),
        Punct::LeftBracket
        | Punct::RightBracket
        | Punct::LeftParenthesis
        | Punct::RightParenthesis
        | Punct::LeftBrace
        | Punct::RightBrace
        | Punct::Dot
        | Punct::Arrow
        | Punct::Increment
        | Punct::Decrement
        | Punct::Ampersand
        | Punct::Star
        | Punct::Plus
        | Punct::Minus
        | Punct::Tilde
        | Punct::Not
        | Punct::Slash
        | Punct::Percent
        | Punct::ShiftLeft
        | Punct::ShiftRight
        | Punct::Less
        | Punct::Greater
        | Punct::LessEqual
        | Punct::GreaterEqual
        | Punct::Equal
        | Punct::NotEqual
        | Punct::Caret
        | Punct::Bar
        | Punct::And
        | Punct::Or
        | Punct::Question
        | Punct::Colon
        | Punct::Semicolon
        | Punct::Assign
        | Punct::Comma
        | Punct::Hash => None,
    }
}
