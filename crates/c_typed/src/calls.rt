//! What a call calls.

ghost use Rattle.std.specs.Prelude.{◌≡◌};
ghost use Rattle.c_typed.specs.Calls as stated;

use c_ints::{BinOp, IntTy};

/// A routine for an operator that the chip has no instructions for: products, quotients, remainders and
/// shifts, signed (`s`) or unsigned (`u`) where that matters, of 2 or 4 bytes.
#[derive(Clone, Copy, PartialEq, Eq)]
pub enum Helper {
    Mul2,
    Mul4,
    Divu2,
    Divs2,
    Remu2,
    Rems2,
    Divu4,
    Divs4,
    Remu4,
    Rems4,
    Shl2,
    Shru2,
    Shrs2,
    Shl4,
    Shru4,
    Shrs4,
}

/// What is called: the function of this number in `Typed::functions`, or a helper.
#[derive(Clone, Copy, PartialEq, Eq)]
pub enum FnId {
    User(u32),
    Helper(Helper),
}

// The helper for a type: signed and unsigned of 2 bytes, signed and unsigned of 4 bytes.
fn by_type(s2: Helper, u2: Helper, s4: Helper, u4: Helper, ty: IntTy) -> Option<Helper>
    ensures { result ≡ stated.by_type s2 u2 s4 u4 ty }
{
    match ty {
        IntTy::Char | IntTy::SChar | IntTy::UChar => None,
        IntTy::Short | IntTy::Int => Some(s2),
        IntTy::UShort | IntTy::UInt => Some(u2),
        IntTy::Long => Some(s4),
        IntTy::ULong => Some(u4),
    }
}

/// The helper of an operator on values of a type; a shift has none where its count is an integer constant expression.
/// Types of one byte have none, since operands are promoted. `None` also for the operators that the chip has
/// instructions for.
pub fn int_helper(op: BinOp, constant: bool, ty: IntTy) -> Option<Helper>
    ensures { result ≡ stated.int_helper op constant ty }
{
    match op {
        BinOp::Mul => by_type(Helper::Mul2, Helper::Mul2, Helper::Mul4, Helper::Mul4, ty),
        BinOp::Div => by_type(
            Helper::Divs2,
            Helper::Divu2,
            Helper::Divs4,
            Helper::Divu4,
            ty,
        ),
        BinOp::Rem => by_type(
            Helper::Rems2,
            Helper::Remu2,
            Helper::Rems4,
            Helper::Remu4,
            ty,
        ),
        BinOp::Shl => {
            if constant {
                None
            } else {
                by_type(Helper::Shl2, Helper::Shl2, Helper::Shl4, Helper::Shl4, ty)
            }
        }
        BinOp::Shr => {
            if constant {
                None
            } else {
                by_type(
                    Helper::Shrs2,
                    Helper::Shru2,
                    Helper::Shrs4,
                    Helper::Shru4,
                    ty,
                )
            }
        }
        BinOp::Add
        | BinOp::Sub
        | BinOp::Lt
        | BinOp::Gt
        | BinOp::Le
        | BinOp::Ge
        | BinOp::Eq
        | BinOp::Ne
        | BinOp::And
        | BinOp::Xor
        | BinOp::Or => None,
    }
}
