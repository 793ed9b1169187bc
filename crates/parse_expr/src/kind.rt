//! Tests on the kind of a token.

ghost use Rattle.std.specs.Prelude.{◌≡◌, Bool};
ghost use Rattle.c_nodes.specs.Kinds.{number_of, number_of_word, is_punct, is_key, is_name, is_type_name, is_assign_mark, is_prefix_mark, is_step_mark, is_field_mark, tier_of, is_qualifying, is_specifying, begins_spec, is_spec};

use c_token::{Keyword, Punct, TokKind};

fn number(punct: Punct) -> u8
    ensures { result ≡ number_of punct }
{
    punct as u8
}

fn word_number(keyword: Keyword) -> u8
    ensures { result ≡ number_of_word keyword }
{
    keyword as u8
}

/// Whether it is this punctuator.
pub fn is_punct(wanted: Punct, kind: TokKind) -> bool
    ensures { result ≡ is_punct wanted kind }
{
    match kind {
        TokKind::Punct(found) => number(found) == number(wanted),
        _ => false,
    }
}

/// Whether it is this keyword.
pub fn is_keyword(wanted: Keyword, kind: TokKind) -> bool
    ensures { result ≡ is_key wanted kind }
{
    match kind {
        TokKind::Keyword(found) => word_number(found) == word_number(wanted),
        _ => false,
    }
}

/// Whether it is an identifier.
pub fn is_name(kind: TokKind) -> bool
    ensures { result ≡ is_name kind }
{
    matches!(kind, TokKind::Name)
}

/// Whether it is an identifier that is marked as the name of a type.
pub fn is_type_name(kind: TokKind) -> bool
    ensures { result ≡ is_type_name kind }
{
    matches!(kind, TokKind::TypeName)
}

/// Whether it is an assignment operator (ISO/IEC 9899:1990, 6.3.16).
pub fn is_assign_mark(punct: Punct) -> bool
    ensures { result ≡ is_assign_mark punct }
{
    match punct {
        Punct::Assign
        | Punct::StarAssign
        | Punct::SlashAssign
        | Punct::PercentAssign
        | Punct::PlusAssign
        | Punct::MinusAssign
        | Punct::ShiftLeftAssign
        | Punct::ShiftRightAssign
        | Punct::AmpersandAssign
        | Punct::CaretAssign
        | Punct::BarAssign => true,
        _ => false,
    }
}

/// Whether it is an operator that stands before its operand (ISO/IEC 9899:1990, 6.3.3).
pub fn is_prefix_mark(punct: Punct) -> bool
    ensures { result ≡ is_prefix_mark punct }
{
    match punct {
        Punct::Increment
        | Punct::Decrement
        | Punct::Ampersand
        | Punct::Star
        | Punct::Plus
        | Punct::Minus
        | Punct::Tilde
        | Punct::Not => true,
        _ => false,
    }
}

/// Whether it is `++` or `--`.
pub fn is_step_mark(punct: Punct) -> bool
    ensures { result ≡ is_step_mark punct }
{
    matches!(punct, Punct::Increment | Punct::Decrement)
}

/// Whether it is `.` or `->`.
pub fn is_field_mark(punct: Punct) -> bool
    ensures { result ≡ is_field_mark punct }
{
    matches!(punct, Punct::Dot | Punct::Arrow)
}

/// The tier of a binary operator: 1 for `*` to 10 for `||`, 13 for the comma, and 0 for what is
/// none (ISO/IEC 9899:1990, 6.3.5 to 6.3.14 and 6.3.17).
pub fn tier_of(punct: Punct) -> usize
    ensures { result ≡ tier_of punct }
{
    match punct {
        Punct::Star | Punct::Slash | Punct::Percent => 1,
        Punct::Plus | Punct::Minus => 2,
        Punct::ShiftLeft | Punct::ShiftRight => 3,
        Punct::Less | Punct::Greater | Punct::LessEqual | Punct::GreaterEqual => 4,
        Punct::Equal | Punct::NotEqual => 5,
        Punct::Ampersand => 6,
        Punct::Caret => 7,
        Punct::Bar => 8,
        Punct::And => 9,
        Punct::Or => 10,
        Punct::Comma => 13,
        _ => 0,
    }
}

/// Whether it is `const` or `volatile`.
pub fn is_qualifying(keyword: Keyword) -> bool
    ensures { result ≡ is_qualifying keyword }
{
    matches!(keyword, Keyword::Const | Keyword::Volatile)
}

/// Whether it is a specifier alone (ISO/IEC 9899:1990, 6.5).
pub fn is_specifying(keyword: Keyword) -> bool
    ensures { result ≡ is_specifying keyword }
{
    match keyword {
        Keyword::Typedef
        | Keyword::Static
        | Keyword::Auto
        | Keyword::Register
        | Keyword::Const
        | Keyword::Volatile
        | Keyword::Interrupt
        | Keyword::Void
        | Keyword::Char
        | Keyword::Short
        | Keyword::Int
        | Keyword::Long
        | Keyword::Signed
        | Keyword::Unsigned => true,
        _ => false,
    }
}

/// Whether a specifier begins with it.
pub fn is_spec(kind: TokKind) -> bool
    ensures { result ≡ is_spec kind }
{
    match kind {
        TokKind::Keyword(Keyword::Struct | Keyword::Enum) => true,
        TokKind::TypeName => true,
        TokKind::Keyword(keyword) => is_specifying(keyword),
        _ => false,
    }
}
