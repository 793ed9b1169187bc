//! Why a program has no typed tree.

ghost use Rattle.std.specs.Prelude.{◌≡◌, Err, IfErr, IfOk};
ghost use Rattle.c_tables.specs.declared.error.CheckError.TheVariants.{NoMemory};
ghost use Rattle.c_tables.specs.declared.error.CheckError.TheVariants as errors;

use std::alloc::{AllocError, AllocFailed, Global};

/// The kinds of rules on types, in the order in which they are tried at one node (ISO/IEC 9899:1990,
/// 6.3 to 6.7, in the subset).
#[derive(Clone, Copy, PartialEq, Eq, Debug)]
pub enum Kind {
    /// A name, tag or function isn't declared before its use, or a function that is called is nowhere
    /// defined.
    Name,
    /// A name is declared twice in one scope, a tag gets two bodies, a structure has two members of
    /// one name, or a function has two types or two bodies.
    Again,
    /// Specifiers or a declarator that no declaration of the place can have.
    Declare,
    /// An array length isn't 1 to 65,535, or an object is over 65,535 bytes.
    Size,
    /// An object, member, parameter or operand of `sizeof` is void, a structure without a body so
    /// far, or an array without a length.
    Incomplete,
    /// An array length, a case label or the initial value of a static integer isn't an integer constant
    /// expression, or has no value.
    Constant,
    /// An initializer has the wrong form for what it initializes.
    Initializer,
    /// `.` or `->` on something without that member.
    Member,
    /// What is called isn't a function's name, or the number of arguments differs.
    Call,
    /// `&` of something that isn't an addressable place, or a const array that isn't indexed.
    Address,
    /// The left side of an assignment, `++` or `--` isn't a place, is const or is an array.
    Assign,
    /// The types of operands don't fit their operator.
    Operand,
    /// A value can't be converted to the type that it is assigned, passed or returned as.
    Convert,
    /// A value in a void function's `return`, or none in another's.
    Return,
    /// `break` or `continue` outside, a second `default`, or two equal labels.
    Jump,
}

/// Why a unit has no typed tree.
#[derive(Clone, Copy, PartialEq, Eq, Debug)]
pub enum CheckError {
    /// Memory ran out.
    NoMemory,
    /// The rule of this kind is broken at a node whose first token stands on this line.
    Kind { kind: Kind, line: u32 },
}

impl From<AllocError> for CheckError {
    ghost from_gives = { λ _ e. e ≡ NoMemory };

    fn from(_e: AllocError) -> CheckError {
        CheckError::NoMemory
    }
}

impl<T: Drop> From<AllocFailed<T>> for CheckError {
    ghost from_gives = { λ _ e. e ≡ NoMemory };

    fn from(_e: AllocFailed<T>) -> CheckError {
        CheckError::NoMemory
    }
}

/// The refusal of a kind on a line.
pub fn refused<T>(kind: Kind, line: u32) -> Result<T, CheckError>
    ensures { result ≡ Err (errors.Kind kind line) }
{
    Err(CheckError::Kind { kind, line })
}

/// A text of its own.
pub fn copied(alloc: Global, text: &[u8]) -> Result<Vec<u8>, CheckError>
    ensures ok { IfOk result (λ copy. copy.items ≡ text.now) }
    ensures err { IfErr result (λ e. e ≡ NoMemory) }
{
    Ok(text.to_vec(alloc)?)
}
