//! What instructions need to be selected.

ghost use Rattle.std.specs.Prelude.{◌≡◌, IsTrue};
ghost use Rattle.bank_page.specs.Kinds as kinds;
ghost use Rattle.bank_page.specs.Needs as stated;
ghost use Rattle.sym_code.specs.Words.{is_common};

use crate::kinds::{is_label, is_select, is_skip};
use crate::known::{writes_pclath, writes_status};
use code_place::address_of;
use core_code::Byte;
use pic_map::Placed;
use sym_code::{Label, Operand, Sym, Target, touches};

/// What must be selected before an instruction: a bank, and the page of a target.
#[derive(Clone, Copy, PartialEq, Eq)]
pub struct Needs {
    pub bank: Option<u16>,
    pub page: Option<Target>,
}

// Whether the byte is in every bank (Microchip data sheet DS39582, register file map): the results, INTCON, and the registers
// of the core.
fn is_common(byte: Byte) -> bool
    ensures { result ≡ is_common byte }
{
    match byte {
        Byte::Static { .. } => false,
        Byte::Frame { .. } => false,
        Byte::Result { .. } => true,
        Byte::Device { address } => {
            address == 0x02
                || address == 0x03
                || address == 0x04
                || address == 0x0a
                || address == 0x0b
        }
    }
}

// The byte whose bank a file operand needs. The registers of the core and the saved cells are in every bank.
fn byte_named(file: Operand) -> Option<Byte>
    ensures { result ≡ kinds.byte_named file }
{
    match file {
        Operand::Byte(byte) => if is_common(byte) { None } else { Some(byte) },
        Operand::Register(_) => None,
        Operand::Saved(_) => None,
    }
}

// The byte whose bank an instruction needs.
fn byte_of(sym: Sym) -> Option<Byte>
    ensures { result ≡ kinds.byte_of sym }
{
    match touches(sym) {
        None => None,
        Some((file, _)) => byte_named(file),
    }
}

// The target whose page an instruction needs: of a read of a table one in its own block, as each inner label is.
fn target_of(sym: Sym) -> Option<Target>
    ensures { result ≡ kinds.target_of sym }
{
    match sym {
        Sym::Call(target) => Some(target),
        Sym::Goto(target) => Some(target),
        Sym::Table { .. } => Some(Target::Label(Label::Inner(0))),
        _ => None,
    }
}

// Both needs as one, where no two banks are among them.
fn both_banks(first: Option<u16>, second: Option<u16>) -> Option<Option<u16>>
    ensures { result ≡ stated.both_banks first second }
{
    match first {
        None => Some(second),
        Some(one) => match second {
            None => Some(first),
            Some(other) => if one == other { Some(first) } else { None },
        },
    }
}

// The bank that a byte needs. There is no answer where it has no address.
fn find_bank(placed: &Placed, byte: Option<Byte>) -> Option<Option<u16>>
    ensures { result ≡ stated.banked placed.now byte }
{
    match byte {
        None => Some(None),
        Some(byte) => match address_of(placed, byte) {
            None => None,
            Some(at) => Some(Some(at / 128)),
        },
    }
}

fn needs_one(sym: Sym, bank: Option<Option<u16>>) -> Option<Needs>
    ensures { result ≡ stated.needs_one sym bank }
{
    match bank {
        None => None,
        Some(bank) => Some(Needs {
            bank,
            page: target_of(sym),
        }),
    }
}

fn with_bank(bank: Option<Option<u16>>, rest: Needs) -> Option<Needs>
    ensures { result ≡ stated.with_bank bank rest }
{
    match bank {
        None => None,
        Some(bank) => Some(Needs {
            bank,
            page: rest.page,
        }),
    }
}

fn both(bank: Option<Option<u16>>, rest: Option<Needs>) -> Option<Needs>
    ensures { result ≡ stated.both bank rest }
{
    match bank {
        None => None,
        Some(bank) => match rest {
            None => None,
            Some(rest) => with_bank(both_banks(bank, rest.bank), rest),
        },
    }
}

/// What must be selected before a list's first instruction so that it and, where it is a skip, those after it up to the first
/// that is none can run with no select between them. There is no answer where they need two banks, where a byte has no
/// address, where a skip itself changes what is selected, and where a label or nothing stands after a skip.
pub fn needs_in(placed: &Placed, list: &[Sym]) -> Option<Needs>
    ensures { result ≡ stated.needs_in placed.now list.now }
{
    match list {
        [] => None,
        [first, rest @ ..] => {
            if is_select(*first) {
                needs_in(placed, rest)
            } else if is_label(*first) {
                None
            } else if is_skip(*first) {
                if writes_status(*first) || writes_pclath(*first) {
                    None
                } else {
                    both(find_bank(placed, byte_of(*first)), needs_in(placed, rest))
                }
            } else {
                needs_one(*first, find_bank(placed, byte_of(*first)))
            }
        }
    }
}
