//! What an initializer gives to a part of an object (ISO/IEC 9899:1990, 6.5.7).

ghost use Rattle.std.specs.Prelude.{◌≡◌, ℕ, ◌+◌, ◌<◌, ◌^◌, ◌++◌, pos, IfErr, OnOk};
ghost use Rattle.std.specs.Prelude as list;
ghost use Rattle.c_ints.specs.Range as range;
ghost use Rattle.c_nodes.specs.Words.{quoted};
ghost use Rattle.c_typed.specs.Views.{expression_of, item_of, place_of};
ghost use Rattle.type_rules.specs.Initializers as lists;
ghost use Rattle.type_rules.specs.Known.{Known};
ghost use Rattle.type_rules.specs.Slots as rule;
ghost use Rattle.c_tables.specs.Answers.{Answers};
ghost use Rattle.c_tables.specs.Tables.{known_of, types_in};
ghost use Rattle.c_terms.specs.Terms.{operand_of};
ghost use Rattle.c_tables.specs.declared.error.CheckError.TheVariants.{NoMemory};
ghost use Rattle.c_check.specs.Views.{begin_scalar};
ghost use Rattle.c_outline.specs.Slots.{any_slot, begun_of, slot_of};

use crate::text::characters;
use crate::types::is_char;
use c_ints::{IntTy, Value};
use c_nodes::word::Text;
use c_outline::slot::Slot;
use c_outline::slots::Sink;
use c_tables::checker::Checker;
use c_tables::error::{CheckError, Kind, refused};
use c_tables::types::Types;
use c_terms::conversion::{assigned, is_assignable};
use c_terms::term::{Operand, read_from};
use c_typed::{Initial, InitialByte, Object, TExpr, TItem, TPlace, Ty, is_scalar, same_type};
use check_expr::constants::folded;
use std::alloc::Global;

fn static_number(object: Object) -> Option<usize>
    ensures { result ≡ rule.static_number object }
{
    match object {
        Object::Static(number) => Some(number),
        _ => None,
    }
}

#[tactic(auto, using(crate::proofs::Addresses::names))]
fn static_name(place: &TPlace) -> Option<usize>
    ensures { result ≡ rule.static_name (place_of place.now) }
{
    match place {
        TPlace::Name { object, .. } => static_number(*object),
        TPlace::Bit { .. } | TPlace::Member { .. } | TPlace::Deref { .. } => None,
    }
}

// The static object whose address a value is: its name with `&`, or the name of an array.
#[tactic(auto, using(crate::proofs::Addresses::addresses))]
fn static_address(value: &TExpr) -> Option<usize>
    ensures { result ≡ rule.static_address (expression_of value.now) }
{
    match value {
        TExpr::Address { place, .. } => static_name(place),
        TExpr::Constant { .. }
        | TExpr::Read { .. }
        | TExpr::Convert { .. }
        | TExpr::Cast { .. }
        | TExpr::Unary { .. }
        | TExpr::Binary { .. }
        | TExpr::Offset { .. }
        | TExpr::Difference { .. }
        | TExpr::Logical { .. }
        | TExpr::Conditional { .. }
        | TExpr::Comma { .. }
        | TExpr::Assign { .. }
        | TExpr::StructAssign { .. }
        | TExpr::Update { .. }
        | TExpr::Step { .. }
        | TExpr::Call { .. } => None,
    }
}

// The length of a char array, 0 where it isn't known.
fn char_array(types: &Types, ty: Ty) -> Option<u32>
    ensures { (known : Known) → result ≡ rule.char_array (types_in types.now known) ty }
{
    match ty {
        Ty::Array {
            element,
            length,
            ..
        } => {
            if is_char(types.target(element).ty) {
                Some(length)
            } else {
                None
            }
        }
        Ty::Void | Ty::Int(_) | Ty::Pointer(_) | Ty::Struct(_) => None,
    }
}

#[tactic(auto, using(crate::proofs::Puts::one_more, crate::proofs::Puts::all_put))]
fn push_bytes(begun: &mut Vec<Initial>, offset: u64, bytes: &[u8]) -> Result<(), CheckError>
    requires { offset < 2 ^ 63 }
    ensures ok { OnOk result (begun.new.items ≡ begun.old.items ++ rule.bytes_at offset bytes.now) }
    ensures err { IfErr result (λ e. e ≡ NoMemory) }
{
    let mut at = offset;
    for byte in bytes {
        begun.push(Initial {
            offset: at,
            byte: InitialByte::Number(*byte),
        })?;
        at += 1;
    }
    Ok(())
}

// Gives a static object these first bytes.
fn put_bytes(sink: &mut Sink, offset: u64, bytes: &[u8]) -> Result<(), CheckError>
    requires { offset < 2 ^ 63 }
    ensures ok { OnOk result (begun_of sink.new ≡ rule.with_initial (rule.bytes_at offset bytes.now) (begun_of sink.old)) }
    ensures err { IfErr result (λ e. e ≡ NoMemory) }
{
    push_bytes(&mut sink.initial, offset, bytes)
}

fn span_of(ty: IntTy) -> i64
    ensures { result ≡ pos (range.span ty) }
{
    match ty {
        IntTy::Char | IntTy::SChar | IntTy::UChar => 0x100,
        IntTy::Short | IntTy::UShort | IntTy::Int | IntTy::UInt => 0x1_0000,
        IntTy::Long | IntTy::ULong => 0x1_0000_0000,
    }
}

// The bits of a number in a type.
fn pattern(ty: IntTy, value: Value) -> u32
    ensures { result ≡ range.pattern ty value.number }
{
    value.number().rem_euclid(span_of(ty)) as u32
}

// The bytes of a number, the lowest first.
fn put_number(sink: &mut Sink, offset: u64, ty: IntTy, value: Value) -> Result<(), CheckError>
    requires { offset < 2 ^ 63 }
    ensures ok { OnOk result (begun_of sink.new ≡ rule.with_initial (rule.bytes_at offset (rule.number_bytes ty value)) (begun_of sink.old)) }
    ensures err { IfErr result (λ e. e ≡ NoMemory) }
{
    let bits = pattern(ty, value);
    let first = (bits % 256) as u8;
    let second = (bits / 256 % 256) as u8;
    match ty {
        IntTy::Char | IntTy::SChar | IntTy::UChar => put_bytes(sink, offset, &[first]),
        IntTy::Short | IntTy::UShort | IntTy::Int | IntTy::UInt => {
            put_bytes(sink, offset, &[first, second])
        }
        IntTy::Long | IntTy::ULong => {
            let third = (bits / 256 / 256 % 256) as u8;
            let fourth = (bits / 256 / 256 / 256 % 256) as u8;
            put_bytes(sink, offset, &[first, second, third, fourth])
        }
    }
}

#[tactic(auto, using(crate::proofs::Puts::address_put))]
fn push_address(begun: &mut Vec<Initial>, offset: u64, object: usize) -> Result<(), CheckError>
    requires { offset < 2 ^ 63 }
    ensures ok { OnOk result (begun.new.items ≡ begun.old.items ++ rule.address_bytes offset object) }
    ensures err { IfErr result (λ e. e ≡ NoMemory) }
{
    begun.push(Initial {
        offset,
        byte: InitialByte::Address { object, byte: 0 },
    })?;
    begun.push(Initial {
        offset: offset + 1,
        byte: InitialByte::Address { object, byte: 1 },
    })?;
    Ok(())
}

fn put_address(sink: &mut Sink, offset: u64, object: usize) -> Result<(), CheckError>
    requires { offset < 2 ^ 63 }
    ensures ok { OnOk result (begun_of sink.new ≡ rule.with_initial (rule.address_bytes offset object) (begun_of sink.old)) }
    ensures err { IfErr result (λ e. e ≡ NoMemory) }
{
    push_address(&mut sink.initial, offset, object)
}

fn put_pointer(
    types: &Types,
    slot: Slot,
    operand: &Operand,
    sink: &mut Sink,
    line: u32,
) -> Result<(), CheckError>
    ensures { (known : Known) → Answers (λ _. begun_of sink.new) result (types_in types.now known) (rule.begin_pointer (slot_of slot) (operand_of operand.now) line (begun_of sink.old) (types_in types.now known)) }
{
    if operand.null {
        return Ok(());
    }
    let Some(object) = static_address(&operand.value) else {
        return refused(Kind::Initializer, operand.line);
    };
    if !is_assignable(types, operand.side(), slot.ty.ty) {
        return refused(Kind::Convert, line);
    }
    put_address(sink, slot.offset, object)
}

fn put_static(
    types: &Types,
    slot: Slot,
    operand: &Operand,
    sink: &mut Sink,
    line: u32,
) -> Result<(), CheckError>
    ensures { (known : Known) → Answers (λ _. begun_of sink.new) result (types_in types.now known) (rule.begin_static slot.ty.ty (slot_of slot) (operand_of operand.now) line (begun_of sink.old) (types_in types.now known)) }
{
    match slot.ty.ty {
        Ty::Int(ty) => {
            let value = folded(operand)?;
            put_number(sink, slot.offset, ty, value)
        }
        Ty::Pointer(_) => put_pointer(types, slot, operand, sink, line),
        Ty::Void | Ty::Array { .. } | Ty::Struct(_) => refused(Kind::Initializer, operand.line),
    }
}

fn put_item(sink: &mut Sink, item: TItem) -> Result<(), CheckError>
    ensures ok { OnOk result (begun_of sink.new ≡ rule.with_item (item_of item) (begun_of sink.old)) }
    ensures err { IfErr result (λ e. e ≡ NoMemory) }
{
    sink.items.push(item)?;
    Ok(())
}

fn put_structure(
    types: &Types,
    slot: Slot,
    operand: Operand,
    sink: &mut Sink,
) -> Result<(), CheckError>
    ensures { (known : Known) → Answers (λ _. begun_of sink.new) result (types_in types.now known) (rule.begin_structure (slot_of slot) (operand_of operand) (begun_of sink.old) (types_in types.now known)) }
{
    let line = operand.line;
    if !same_type(operand.value.ty(), slot.ty.ty) {
        return refused(Kind::Initializer, line);
    }
    let Some(from) = read_from(operand.value) else {
        return refused(Kind::Initializer, line);
    };
    let size = types.bytes_of(slot.ty.ty);
    put_item(
        sink,
        TItem::Struct {
            offset: slot.offset,
            from,
            size,
        },
    )
}

fn put_scalar(
    checker: &Checker,
    slot: Slot,
    operand: Operand,
    sink: &mut Sink,
    line: u32,
) -> Result<(), CheckError>
    ensures { Answers (λ _. begun_of sink.new) result (known_of checker.now) (begin_scalar slot.ty.ty (slot_of slot) (operand_of operand) line (begun_of sink.old) (known_of checker.now)) }
{
    let value = assigned(checker.alloc, &checker.types, operand, slot.ty.ty, line)?;
    put_item(
        sink,
        TItem::Scalar {
            offset: slot.offset,
            value,
        },
    )
}

fn put_local(
    checker: &Checker,
    slot: Slot,
    operand: Operand,
    sink: &mut Sink,
    line: u32,
) -> Result<(), CheckError>
    ensures { Answers (λ _. begun_of sink.new) result (known_of checker.now) (rule.begin_local slot.ty.ty (slot_of slot) (operand_of operand) line (begun_of sink.old) (known_of checker.now)) }
{
    match slot.ty.ty {
        Ty::Struct(_) => put_structure(&checker.types, slot, operand, sink),
        Ty::Array { .. } => refused(Kind::Initializer, operand.line),
        Ty::Void | Ty::Int(_) | Ty::Pointer(_) => put_scalar(checker, slot, operand, sink, line),
    }
}

// The line at which the conversion of a value is told.
fn value_line(inside: bool, line: u32, sink: &Sink) -> u32
    ensures { result ≡ rule.value_line inside line (begun_of sink.now) }
{
    if inside { line } else { sink.line }
}

fn put_in(
    checker: &Checker,
    slot: Slot,
    operand: Operand,
    inside: bool,
    sink: &mut Sink,
) -> Result<(), CheckError>
    ensures { Answers (λ _. begun_of sink.new) result (known_of checker.now) (rule.begin_value (slot_of slot) inside (operand_of operand) (begun_of sink.old) (known_of checker.now)) }
{
    let line = value_line(inside, operand.line, sink);
    if sink.fixed {
        put_static(&checker.types, slot, &operand, sink, line)
    } else {
        put_local(checker, slot, operand, sink, line)
    }
}

/// Gives a part the value of an expression. `inside` says that it stands in a list.
pub(crate) fn put_value(
    checker: &Checker,
    slot: Option<Slot>,
    operand: Operand,
    inside: bool,
    sink: &mut Sink,
) -> Result<(), CheckError>
    ensures { Answers (λ _. begun_of sink.new) result (known_of checker.now) (lists.value_rule (any_slot slot) inside (operand_of operand) (begun_of sink.old) (known_of checker.now)) }
{
    match slot {
        Some(slot) => put_in(checker, slot, operand, inside, sink),
        None => Ok(()),
    }
}

fn refused_static(ty: Ty, line: u32) -> Result<(), CheckError>
    ensures { (known : Known) (b : rule.Begun) → Answers (λ _. b) result known (rule.static_text ty line known) }
{
    match ty {
        Ty::Int(_) => refused(Kind::Constant, line),
        Ty::Void | Ty::Pointer(_) | Ty::Array { .. } | Ty::Struct(_) => {
            refused(Kind::Initializer, line)
        }
    }
}

// Why a string can't initialize a part that is no array of chars.
fn refused_text(slot: Slot, inside: bool, sink: &Sink, line: u32) -> Result<(), CheckError>
    ensures { (known : Known) (b : rule.Begun) → Answers (λ _. b) result known (rule.refused_text (slot_of slot) inside line (begun_of sink.now) known) }
{
    if !is_scalar(slot.ty.ty) {
        refused(Kind::Initializer, line)
    } else if sink.fixed {
        refused_static(slot.ty.ty, line)
    } else {
        refused(Kind::Convert, value_line(inside, line, sink))
    }
}

// How many bytes of an array a string of these characters gives. It may leave out its end 0; an array without a length
// has it.
fn text_size(length: u32, text: &[u8]) -> usize
    ensures { result ≡ rule.text_size length (list.length text.now) }
{
    if length == 0 {
        text.len() + 1
    } else {
        length as usize
    }
}

fn count_characters(length: u32, size: usize, sink: &mut Sink)
    ensures { (characters : ℕ) → size ≡ rule.text_size length characters → begun_of sink.new ≡ rule.with_count length characters (begun_of sink.old) }
{
    if length == 0 {
        sink.length = Some(size);
    }
}

fn put_characters(
    slot: Slot,
    length: u32,
    bytes: Vec<u8>,
    sink: &mut Sink,
    line: u32,
) -> Result<(), CheckError>
    ensures { (known : Known) → Answers (λ _. begun_of sink.new) result known (rule.begin_characters (slot_of slot) length bytes.items line (begun_of sink.old) known) }
{
    if length != 0 && (length as usize) < bytes.len() {
        return refused(Kind::Initializer, line);
    }
    let size = text_size(length, &bytes);
    count_characters(length, size, sink);
    if sink.fixed {
        put_bytes(sink, slot.offset, &bytes)
    } else {
        put_item(
            sink,
            TItem::Text {
                offset: slot.offset,
                bytes,
                size: size as u64,
            },
        )
    }
}

fn put_text_in(
    checker: &Checker,
    slot: Slot,
    text: &Text,
    inside: bool,
    sink: &mut Sink,
) -> Result<(), CheckError>
    ensures { Answers (λ _. begun_of sink.new) result (known_of checker.now) (rule.begin_text (slot_of slot) inside (quoted text.now) (begun_of sink.old) (known_of checker.now)) }
{
    match char_array(&checker.types, slot.ty.ty) {
        Some(length) => {
            let bytes = characters(checker.alloc, &text.bytes)?;
            put_characters(slot, length, bytes, sink, text.line)
        }
        None => refused_text(slot, inside, sink, text.line),
    }
}

/// Gives a part the characters of a string.
pub(crate) fn put_text(
    checker: &Checker,
    slot: Option<Slot>,
    text: &Text,
    inside: bool,
    sink: &mut Sink,
) -> Result<(), CheckError>
    ensures { Answers (λ _. begun_of sink.new) result (known_of checker.now) (lists.text_rule (any_slot slot) inside (quoted text.now) (begun_of sink.old) (known_of checker.now)) }
{
    match slot {
        Some(slot) => put_text_in(checker, slot, text, inside, sink),
        None => Ok(()),
    }
}
