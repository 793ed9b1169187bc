//! What an instruction makes of what is known.

ghost use Rattle.std.specs.Prelude.{◌≡◌, ◌<◌, ◌≤◌, ◌+◌, ◌%◌, Option, Some, None};
ghost use Rattle.pic_isa.specs.Table.{IsWellFormed};
ghost use Rattle.depth_check.specs.Facts.{written as written_of, writes as writes_of, writes_w as writes_w_of, may_skip as may_skip_of, is_movwf as is_movwf_of, bit_written as bit_written_of, loads as loads_of, after as after_of, known_in as known_in_of, fits as fits_of, target as target_of};

use crate::Facts;
use pic_isa::Ins;

pub const INDF: u8 = 0;

pub const PCL: u8 = 2;

const PCLATH: u8 = 10;

pub const INTCON: u8 = 11;

// The file register that an instruction writes, by its operand.
fn written(i: Ins) -> Option<u8>
    ensures { result ≡ written_of i }
{
    match i {
        Ins::Clrf { f } | Ins::Movwf { f } | Ins::Bcf { f, b: _ } | Ins::Bsf { f, b: _ } => Some(f),
        Ins::Addwf { f, d }
        | Ins::Andwf { f, d }
        | Ins::Comf { f, d }
        | Ins::Decf { f, d }
        | Ins::Decfsz { f, d }
        | Ins::Incf { f, d }
        | Ins::Incfsz { f, d }
        | Ins::Iorwf { f, d }
        | Ins::Movf { f, d }
        | Ins::Rlf { f, d }
        | Ins::Rrf { f, d }
        | Ins::Subwf { f, d }
        | Ins::Swapf { f, d }
        | Ins::Xorwf { f, d } => if d { Some(f) } else { None },
        Ins::Clrw
        | Ins::Nop
        | Ins::Btfsc { f: _, b: _ }
        | Ins::Btfss { f: _, b: _ }
        | Ins::Addlw { k: _ }
        | Ins::Andlw { k: _ }
        | Ins::Call { k: _ }
        | Ins::Clrwdt
        | Ins::Goto { k: _ }
        | Ins::Iorlw { k: _ }
        | Ins::Movlw { k: _ }
        | Ins::Retfie
        | Ins::Retlw { k: _ }
        | Ins::Return
        | Ins::Sleep
        | Ins::Sublw { k: _ }
        | Ins::Xorlw { k: _ } => None,
    }
}

/// Whether an instruction's operand is this register, and it writes it.
pub fn writes(low: u8, i: Ins) -> bool
    ensures { result ≡ writes_of low i }
{
    match written(i) {
        Some(f) => f == low,
        None => false,
    }
}

fn writes_w(i: Ins) -> bool
    ensures { result ≡ writes_w_of i }
{
    match i {
        Ins::Clrw
        | Ins::Addlw { k: _ }
        | Ins::Andlw { k: _ }
        | Ins::Iorlw { k: _ }
        | Ins::Movlw { k: _ }
        | Ins::Retlw { k: _ }
        | Ins::Sublw { k: _ }
        | Ins::Xorlw { k: _ } => true,
        Ins::Addwf { f: _, d }
        | Ins::Andwf { f: _, d }
        | Ins::Comf { f: _, d }
        | Ins::Decf { f: _, d }
        | Ins::Decfsz { f: _, d }
        | Ins::Incf { f: _, d }
        | Ins::Incfsz { f: _, d }
        | Ins::Iorwf { f: _, d }
        | Ins::Movf { f: _, d }
        | Ins::Rlf { f: _, d }
        | Ins::Rrf { f: _, d }
        | Ins::Subwf { f: _, d }
        | Ins::Swapf { f: _, d }
        | Ins::Xorwf { f: _, d } => !d,
        Ins::Clrf { f: _ }
        | Ins::Movwf { f: _ }
        | Ins::Bcf { f: _, b: _ }
        | Ins::Bsf { f: _, b: _ }
        | Ins::Nop
        | Ins::Btfsc { f: _, b: _ }
        | Ins::Btfss { f: _, b: _ }
        | Ins::Call { k: _ }
        | Ins::Clrwdt
        | Ins::Goto { k: _ }
        | Ins::Retfie
        | Ins::Return
        | Ins::Sleep => false,
    }
}

/// Whether an instruction may skip the next one.
pub fn may_skip(i: Ins) -> bool
    ensures { result ≡ may_skip_of i }
{
    matches!(
        i,
        Ins::Decfsz { f: _, d: _ }
            | Ins::Incfsz { f: _, d: _ }
            | Ins::Btfsc { f: _, b: _ }
            | Ins::Btfss { f: _, b: _ }
    )
}

fn is_movwf(i: Ins) -> bool
    ensures { result ≡ is_movwf_of i }
{
    matches!(i, Ins::Movwf { f: _ })
}

// What is known of a bit of PCLATH behind a write to PCLATH.
fn bit_written(n: u8, i: Ins, known: Option<bool>) -> Option<bool>
    ensures { result ≡ bit_written_of n i known }
{
    match i {
        Ins::Bcf { f: _, b } => if b == n { Some(false) } else { known },
        Ins::Bsf { f: _, b } => if b == n { Some(true) } else { known },
        Ins::Clrf { f: _ } => Some(false),
        _ => None,
    }
}

// Whether W comes to hold the PCLATH of what was interrupted.
fn loads(cell: u8, i: Ins, x: Facts) -> bool
    ensures { result ≡ loads_of cell i x }
{
    match i {
        Ins::Movf { f, d: _ } => f == PCLATH && x.orig || f == cell && x.saved,
        _ => false,
    }
}

/// What is known behind an instruction.
pub fn after(cell: u8, i: Ins, x: Facts) -> Facts
    ensures { result ≡ after_of cell i x }
{
    let pclath = writes(PCLATH, i);
    let held = is_movwf(i) && x.w_orig;
    Facts {
        p3: if pclath {
            bit_written(3, i, x.p3)
        } else {
            x.p3
        },
        p4: if pclath {
            bit_written(4, i, x.p4)
        } else {
            x.p4
        },
        orig: if pclath { held } else { x.orig },
        w_orig: if writes_w(i) {
            loads(cell, i, x)
        } else {
            x.w_orig
        },
        saved: if writes(cell, i) { held } else { x.saved },
    }
}

/// Whether what is known here is known there, with the same value.
pub fn known_in(here: Option<bool>, there: Option<bool>) -> bool
    ensures { result ≡ known_in_of here there }
{
    match here {
        None => true,
        Some(b) => match there {
            None => false,
            Some(c) => b == c,
        },
    }
}

/// Whether a row's facts are among these.
pub fn fits(x: Facts, row: Facts) -> bool
    ensures { result ≡ fits_of x row }
{
    known_in(row.p3, x.p3)
        && known_in(row.p4, x.p4)
        && (!row.orig || x.orig)
        && (!row.w_orig || x.w_orig)
        && (!row.saved || x.saved)
}

/// Where GOTO and CALL lead, if both bits are known.
pub fn target(p3: Option<bool>, p4: Option<bool>, k: u16) -> Option<u16>
    requires { k < 2048 }
    ensures { result ≡ target_of p3 p4 k }
{
    match p3 {
        None => None,
        Some(low) => match p4 {
            None => None,
            Some(high) => Some((2 * number(high) + number(low)) * 2048 + k),
        },
    }
}

ghost use Rattle.pic_world.specs.Bits.{truth};

fn number(b: bool) -> u16
    ensures value { result ≡ truth b }
    ensures small { result ≤ 1 }
{
    if b { 1 } else { 0 }
}
