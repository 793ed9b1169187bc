//! The line that reports why a text is refused.

ghost use Rattle.std.specs.Prelude.{◌≡◌, ◌++◌, codes, decimal, IfOk, OnOk};
ghost use Rattle.picc_cli.specs.Refusals as stated;

use itoa::Buffer;
use picc_core::{Kind, LimitKind, Refusal, RootKind};
use std::alloc::{AllocError, Global};

/// The line for a refusal of the text of a file: the name and, where the refusal has one, the line; its number, and
/// its text.
pub fn refusal_line(alloc: Global, name: &str, refusal: &Refusal) -> Result<Vec<u8>, AllocError>
    ensures { IfOk result (λ line. line.items ≡ stated.refusal_line name.now refusal.now) }
{
    let mut line = Vec::from_slice(alloc, name.as_bytes())?;
    push_place(&mut line, refusal)?;
    line.extend_from_slice(b": error ")?;
    push_number(&mut line, number_of(refusal))?;
    line.extend_from_slice(b": ")?;
    push_text(&mut line, refusal)?;
    line.push(b'\n')?;
    Ok(line)
}

/// The line of the text at which the refusal holds, if it has one.
fn line_of(refusal: &Refusal) -> Option<u32>
    ensures { result ≡ stated.line_of refusal.now }
{
    match refusal {
        Refusal::Lex { line } => Some(*line),
        Refusal::Word { line } => Some(*line),
        Refusal::Directive { line } => Some(*line),
        Refusal::Syntax { line } => Some(*line),
        Refusal::Typing { line, .. } => Some(*line),
        Refusal::Limit { line, .. } => Some(*line),
        _ => None,
    }
}

fn push_place(text: &mut Vec<u8>, refusal: &Refusal) -> Result<(), AllocError>
    ensures { OnOk result (text.new.items ≡ text.old.items ++ stated.place_text (stated.line_of refusal.now)) }
{
    match line_of(refusal) {
        Some(line) => push_counted(text, b":", line as u64),
        None => Ok(()),
    }
}

fn number_of(refusal: &Refusal) -> u64
    ensures { result ≡ stated.number_of refusal.now }
{
    match refusal {
        Refusal::Lex { .. } => 1,
        Refusal::Word { .. } => 2,
        Refusal::Directive { .. } => 3,
        Refusal::Syntax { .. } => 4,
        Refusal::Typing { .. } => 5,
        Refusal::Recursion { .. } => 6,
        Refusal::Roots { .. } => 7,
        Refusal::Depth { .. } => 8,
        Refusal::Ram { .. } => 9,
        Refusal::Code { .. } => 10,
        Refusal::Page { .. } => 11,
        Refusal::Limit { .. } => 12,
    }
}

fn push_text(text: &mut Vec<u8>, refusal: &Refusal) -> Result<(), AllocError>
    ensures { OnOk result (text.new.items ≡ text.old.items ++ stated.text_of refusal.now) }
{
    match refusal {
        Refusal::Lex { .. } => text.extend_from_slice(b"bad token"),
        Refusal::Word { .. } => text.extend_from_slice(b"excluded word"),
        Refusal::Directive { .. } => text.extend_from_slice(b"bad directive"),
        Refusal::Syntax { .. } => text.extend_from_slice(b"syntax"),
        Refusal::Typing { kind, .. } => text.extend_from_slice(kind_text(*kind)),
        Refusal::Recursion { function } => push_named(text, b"recursion ", function),
        Refusal::Roots { kind } => push_named(text, b"roots ", root_text(*kind)),
        Refusal::Depth { depth } => push_counted(text, b"depth ", *depth as u64),
        Refusal::Ram { object } => push_named(text, b"ram ", object),
        Refusal::Code { words } => push_counted(text, b"code ", *words),
        Refusal::Page { function, words } => push_page(text, function, *words),
        Refusal::Limit { kind, .. } => push_named(text, b"limit ", limit_text(*kind)),
    }
}

fn push_page(text: &mut Vec<u8>, function: &[u8], words: u64) -> Result<(), AllocError>
    ensures { OnOk result (text.new.items ≡ text.old.items ++ (codes "page " ++ function.now ++ codes " " ++ decimal words)) }
{
    push_named(text, b"page ", function)?;
    push_counted(text, b" ", words)
}

fn push_named(text: &mut Vec<u8>, before: &[u8], name: &[u8]) -> Result<(), AllocError>
    ensures { OnOk result (text.new.items ≡ text.old.items ++ (before.now ++ name.now)) }
{
    text.extend_from_slice(before)?;
    text.extend_from_slice(name)
}

/// Adds some bytes and then a number in decimal to a text.
pub fn push_counted(text: &mut Vec<u8>, before: &[u8], number: u64) -> Result<(), AllocError>
    ensures { OnOk result (text.new.items ≡ text.old.items ++ (before.now ++ decimal number)) }
{
    text.extend_from_slice(before)?;
    push_number(text, number)
}

fn push_number(text: &mut Vec<u8>, number: u64) -> Result<(), AllocError>
    ensures { OnOk result (text.new.items ≡ text.old.items ++ decimal number) }
{
    let mut buffer = Buffer::new();
    text.extend_from_slice(buffer.format(number).as_bytes())
}

fn kind_text(kind: Kind) -> &'static [u8]
    ensures { result.now ≡ stated.kind_text kind }
{
    match kind {
        Kind::Name => b"name",
        Kind::Again => b"again",
        Kind::Declare => b"declare",
        Kind::Size => b"size",
        Kind::Incomplete => b"incomplete",
        Kind::Constant => b"constant",
        Kind::Initializer => b"initializer",
        Kind::Member => b"member",
        Kind::Call => b"call",
        Kind::Address => b"address",
        Kind::Assign => b"assign",
        Kind::Operand => b"operand",
        Kind::Convert => b"convert",
        Kind::Return => b"return",
        Kind::Jump => b"jump",
    }
}

fn root_text(kind: RootKind) -> &'static [u8]
    ensures { result.now ≡ stated.root_text kind }
{
    match kind {
        RootKind::None => b"none",
        RootKind::Main => b"main",
        RootKind::Shape => b"shape",
        RootKind::Second => b"second",
        RootKind::Called => b"called",
    }
}

fn limit_text(kind: LimitKind) -> &'static [u8]
    ensures { result.now ≡ stated.limit_text kind }
{
    match kind {
        LimitKind::Text => b"text",
        LimitKind::Identifier => b"identifier",
        LimitKind::Tokens => b"tokens",
        LimitKind::Nesting => b"nesting",
        LimitKind::Run => b"run",
    }
}
