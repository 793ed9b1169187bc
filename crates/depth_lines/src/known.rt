//! What is known where an instruction is to run, and what it makes of that.

ghost use Rattle.std.specs.Prelude.{◌≤◌};

use crate::words::{PCLATH, bit, is_bcf, is_bsf, is_clrf, is_movwf, loads, writes, writes_w};
use depth_check::Facts;

/// What is known of bits 3 and 4 of PCLATH.
#[derive(Clone, Copy)]
pub struct Pages {
    pub p3: Option<bool>,
    pub p4: Option<bool>,
}

/// The bits of these facts.
pub fn pages_of(x: Facts) -> Pages {
    Pages { p3: x.p3, p4: x.p4 }
}

/// Facts that tell of the two bits, and of what the handler keeps.
pub fn two_bits(pages: Pages, saved: bool) -> Facts {
    Facts {
        p3: pages.p3,
        p4: pages.p4,
        orig: false,
        w_orig: false,
        saved,
    }
}

fn bit_behind(n: u16, word: u16, known: Option<bool>) -> Option<bool> {
    if is_clrf(word) {
        return Some(false);
    }
    if !is_bcf(word) && !is_bsf(word) {
        return None;
    }
    if bit(word) == n {
        Some(is_bsf(word))
    } else {
        known
    }
}

// Whether W becomes the PCLATH of what was interrupted.
fn takes_orig(cell: u8, word: u16, x: Facts) -> bool {
    loads(PCLATH, word) && x.orig || loads(cell as u16, word) && x.saved
}

// What is known behind a write to PCLATH.
fn behind_pclath(word: u16, x: Facts) -> Facts {
    Facts {
        p3: bit_behind(3, word, x.p3),
        p4: bit_behind(4, word, x.p4),
        orig: is_movwf(word) && x.w_orig,
        w_orig: x.w_orig,
        saved: x.saved,
    }
}

fn with_w(x: Facts, w_orig: bool) -> Facts {
    Facts {
        p3: x.p3,
        p4: x.p4,
        orig: x.orig,
        w_orig,
        saved: x.saved,
    }
}

fn with_saved(x: Facts, saved: bool) -> Facts {
    Facts {
        p3: x.p3,
        p4: x.p4,
        orig: x.orig,
        w_orig: x.w_orig,
        saved,
    }
}

/// What is known behind an instruction that is no jump, no call and no return. It writes one place.
pub fn after(cell: u8, word: u16, x: Facts) -> Facts {
    if writes(PCLATH, word) {
        return behind_pclath(word, x);
    }
    if writes(cell as u16, word) {
        return with_saved(x, is_movwf(word) && x.w_orig);
    }
    if writes_w(word) {
        return with_w(x, takes_orig(cell, word, x));
    }
    x
}

fn is_known_in(here: Option<bool>, there: Option<bool>) -> bool {
    here.is_none() || here == there
}

/// Whether what is known here of the two bits is known there.
pub fn are_known_in(here: Pages, there: Pages) -> bool {
    is_known_in(here.p3, there.p3) && is_known_in(here.p4, there.p4)
}

/// Whether all that is known here is known there.
pub fn is_within(here: Facts, there: Facts) -> bool {
    are_known_in(pages_of(here), pages_of(there))
        && (!here.orig || there.orig)
        && (!here.w_orig || there.w_orig)
        && (!here.saved || there.saved)
}

fn common(a: Option<bool>, b: Option<bool>) -> Option<bool> {
    if a == b { a } else { None }
}

/// What is known of the two bits both here and there.
pub fn common_pages(a: Pages, b: Pages) -> Pages {
    Pages {
        p3: common(a.p3, b.p3),
        p4: common(a.p4, b.p4),
    }
}

/// What is known both here and there.
pub fn common_facts(a: Facts, b: Facts) -> Facts {
    let both = common_pages(pages_of(a), pages_of(b));
    Facts {
        p3: both.p3,
        p4: both.p4,
        orig: a.orig && b.orig,
        w_orig: a.w_orig && b.w_orig,
        saved: a.saved && b.saved,
    }
}

fn number(b: bool) -> u16
    ensures { result ≤ 1 }
{
    if b { 1 } else { 0 }
}

/// Where GOTO and CALL lead, if both bits are known.
pub fn target(x: Facts, word: u16) -> Option<u16> {
    let Some(low) = x.p3 else {
        return None;
    };
    let Some(high) = x.p4 else {
        return None;
    };
    Some((2 * number(high) + number(low)) * 2048 + word % 2048)
}
