//! What operations read, what they may skip, and which operation on a number does the same.

ghost use Rattle.std.specs.Prelude.{◌≡◌};
ghost use Rattle.lean_code.specs.Changes as changes;

use sym_code::{FileOperation, LiteralOperation};

pub fn uses_w(op: FileOperation) -> bool
    ensures { result ≡ changes.uses_w op }
{
    match op {
        FileOperation::Addwf => true,
        FileOperation::Andwf => true,
        FileOperation::Iorwf => true,
        FileOperation::Subwf => true,
        FileOperation::Xorwf => true,
        _ => false,
    }
}

pub fn uses_c(op: FileOperation) -> bool
    ensures { result ≡ changes.uses_c op }
{
    match op {
        FileOperation::Rlf => true,
        FileOperation::Rrf => true,
        _ => false,
    }
}

pub fn may_skip(op: FileOperation) -> bool
    ensures { result ≡ changes.may_skip op }
{
    match op {
        FileOperation::Decfsz => true,
        FileOperation::Incfsz => true,
        _ => false,
    }
}

pub fn literal_uses(op: LiteralOperation) -> bool
    ensures { result ≡ changes.literal_uses op }
{
    match op {
        LiteralOperation::Movlw => false,
        LiteralOperation::Retlw => false,
        _ => true,
    }
}

pub fn is_retlw(op: LiteralOperation) -> bool
    ensures { result ≡ changes.is_retlw op }
{
    match op {
        LiteralOperation::Retlw => true,
        _ => false,
    }
}

/// The operation on W and a number that does the same as one on W and a byte that holds it.
pub fn literal_for(op: FileOperation) -> Option<LiteralOperation>
    ensures { result ≡ changes.literal_for op }
{
    match op {
        FileOperation::Addwf => Some(LiteralOperation::Addlw),
        FileOperation::Andwf => Some(LiteralOperation::Andlw),
        FileOperation::Iorwf => Some(LiteralOperation::Iorlw),
        FileOperation::Movf => Some(LiteralOperation::Movlw),
        FileOperation::Subwf => Some(LiteralOperation::Sublw),
        FileOperation::Xorwf => Some(LiteralOperation::Xorlw),
        _ => None,
    }
}
