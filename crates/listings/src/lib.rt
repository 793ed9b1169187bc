//! The languages of the compiler as text.
//!
//! In: a typed program, or what is known of a C text and what it is compiled to, or a rule on names and types that is broken. Out: the typed
//! tree, the byte code, the symbolic code and the words, a node or an instruction a line, in a notation that a person reads and a script
//! parses:
//!
//!     text    = { line }
//!     line    = { "  " } head [ " " part { ", " part } ] LF
//!     part    = number | name | head "(" part { ", " part } ")"
//!
//! A head is the name of a variant of the types in c_typed, core_code and sym_code, or of a table. What belongs to a line
//! stands below it, two blanks further to the right, in the order of the type's fields. A name of the program may be empty.
//!
//!     Program   Target [const] [volatile] type               a row of the types that are pointed to
//!               Structure size; its Member name, offset, [const] [volatile] type
//!               Static name, [const] [volatile] type, line; its Initial offset, Number(n) | Address(object, byte)
//!               Function name, [interrupt] type, line; its Param and Local name, [const] [volatile] type, line; its Body
//!     type      Void | an integer type | Pointer(target) | Array(element, length, size) | Struct(number)
//!     a node    fields, type, line of its first token; a statement has no type, and a missing expression is None
//!     Switch    its value, its Case value, type, target, line and Default target, and its statements
//!     Broken    kind, line: of the first rule on names and types that is broken
//!     Objects   Object name, at(address), bytes(size) [, const]
//!     Copies    Copy root, User(function) | Helper(name), name, at(address), bytes(size), parameters(bytes), variables(bytes), by number
//!     Core      First byte ..., a line for each static object: a number, Low(object) or High(object)
//!               Body copy, root; its operations
//!     a byte    F(offset) of the own frame | Frame(copy, offset) | Static(object, offset) | Result(root, k) | Device(address)
//!     Plain     Block Start | Copy(number), at(address); its instructions, without selects, in the order of code
//!     Selected  the leaner code with its selects
//!     Image     main(address), halt(address); a Word address, word for each word that isn't erased
//!
//! No clause says what the text is; nothing stands on it but checks and readers. A listing remembers that memory ran out, and gives no text then.
#![tactic(auto)]

mod expressions;
mod instructions;
mod listing;
mod names;
mod operations;
mod placing;
mod statements;
mod types;
mod words;

ghost use Rattle.picc_core.specs.Founded.{IsFounded};

use crate::instructions::put_symbolic;
use crate::listing::Listing;
use crate::names::of_kind;
use crate::operations::put_core;
use crate::placing::put_placing;
use crate::types::put_program;
use crate::words::put_image;
use c_typed::Typed;
use picc_core::{Built, Front, Kind, codes_of};
use std::alloc::{AllocError, Global};

/// The text of a typed tree.
pub fn typed_text(alloc: Global, typed: &Typed) -> Result<Vec<u8>, AllocError> {
    let mut out = Listing::new(alloc);
    put_program(&mut out, typed);
    out.text()
}

/// The text of a rule on names and types that is broken, and its line.
pub fn broken_text(alloc: Global, kind: Kind, line: u32) -> Result<Vec<u8>, AllocError> {
    let mut out = Listing::new(alloc);
    out.begin(0, "Broken");
    out.word(of_kind(kind));
    out.number(line as u64);
    out.end();
    out.text()
}

/// The text of all languages of a program.
pub fn code_text(alloc: Global, front: &Front, built: &Built) -> Result<Vec<u8>, AllocError>
    // What the passes ask for is known, as of a program that `front` answers.
    requires { IsFounded front.now.typed front.now.copies.list.items front.now.placed front.now.at.items }
{
    let codes = codes_of(alloc, front)?;
    let mut out = Listing::new(alloc);
    put_program(&mut out, &front.typed);
    put_placing(&mut out, front);
    put_core(&mut out, &codes.core);
    put_symbolic(&mut out, "Plain", &codes.plain, &front.at);
    put_symbolic(&mut out, "Selected", &codes.selected, &front.at);
    put_image(&mut out, built);
    out.text()
}
