//! The names of variants.

use c_ints::{BinOp, IntTy, UnOp};
use c_typed::{Helper, LogicalOp, LoopForm, StepOp};
use pic_world::Root;
use picc_core::Kind;

/// The name of a root: `Main` or `Isr`.
pub fn of_root(root: Root) -> &'static str {
    match root {
        Root::Main => "Main",
        Root::Isr => "Isr",
    }
}

/// The name of an integer type, such as `UChar`.
pub fn of_int(ty: IntTy) -> &'static str {
    match ty {
        IntTy::Char => "Char",
        IntTy::SChar => "SChar",
        IntTy::UChar => "UChar",
        IntTy::Short => "Short",
        IntTy::UShort => "UShort",
        IntTy::Int => "Int",
        IntTy::UInt => "UInt",
        IntTy::Long => "Long",
        IntTy::ULong => "ULong",
    }
}

/// The name of a unary operator, such as `Minus`.
pub fn of_unary(op: UnOp) -> &'static str {
    match op {
        UnOp::Plus => "Plus",
        UnOp::Minus => "Minus",
        UnOp::Not => "Not",
        UnOp::Bang => "Bang",
    }
}

/// The name of a binary operator, such as `Add`.
pub fn of_binary(op: BinOp) -> &'static str {
    match op {
        BinOp::Mul => "Mul",
        BinOp::Div => "Div",
        BinOp::Rem => "Rem",
        BinOp::Add => "Add",
        BinOp::Sub => "Sub",
        BinOp::Shl => "Shl",
        BinOp::Shr => "Shr",
        BinOp::Lt => "Lt",
        BinOp::Gt => "Gt",
        BinOp::Le => "Le",
        BinOp::Ge => "Ge",
        BinOp::Eq => "Eq",
        BinOp::Ne => "Ne",
        BinOp::And => "And",
        BinOp::Xor => "Xor",
        BinOp::Or => "Or",
    }
}

/// The name of `&&` or `||`: `And` or `Or`.
pub fn of_logical(op: LogicalOp) -> &'static str {
    match op {
        LogicalOp::And => "And",
        LogicalOp::Or => "Or",
    }
}

/// The name of `++` or `--`, before its operand or after it, such as `PreIncrement`.
pub fn of_step(op: StepOp) -> &'static str {
    match op {
        StepOp::PreIncrement => "PreIncrement",
        StepOp::PreDecrement => "PreDecrement",
        StepOp::PostIncrement => "PostIncrement",
        StepOp::PostDecrement => "PostDecrement",
    }
}

/// The name of a loop: `While`, `Do` or `For`.
pub fn of_loop(form: LoopForm) -> &'static str {
    match form {
        LoopForm::While => "While",
        LoopForm::Do => "Do",
        LoopForm::For => "For",
    }
}

/// The name of a helper, such as `Mul2`.
pub fn of_helper(helper: Helper) -> &'static str {
    match helper {
        Helper::Mul2 => "Mul2",
        Helper::Mul4 => "Mul4",
        Helper::Divu2 => "Divu2",
        Helper::Divs2 => "Divs2",
        Helper::Remu2 => "Remu2",
        Helper::Rems2 => "Rems2",
        Helper::Divu4 => "Divu4",
        Helper::Divs4 => "Divs4",
        Helper::Remu4 => "Remu4",
        Helper::Rems4 => "Rems4",
        Helper::Shl2 => "Shl2",
        Helper::Shru2 => "Shru2",
        Helper::Shrs2 => "Shrs2",
        Helper::Shl4 => "Shl4",
        Helper::Shru4 => "Shru4",
        Helper::Shrs4 => "Shrs4",
    }
}

/// The name of a kind, such as `Again`.
pub fn of_kind(kind: Kind) -> &'static str {
    match kind {
        Kind::Name => "Name",
        Kind::Again => "Again",
        Kind::Declare => "Declare",
        Kind::Size => "Size",
        Kind::Incomplete => "Incomplete",
        Kind::Constant => "Constant",
        Kind::Initializer => "Initializer",
        Kind::Member => "Member",
        Kind::Call => "Call",
        Kind::Address => "Address",
        Kind::Assign => "Assign",
        Kind::Operand => "Operand",
        Kind::Convert => "Convert",
        Kind::Return => "Return",
        Kind::Jump => "Jump",
    }
}
