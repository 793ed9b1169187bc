//! When what is known at one place is enough for another, and what is known where two ways meet.

ghost use Rattle.std.specs.Prelude.{◌≡◌};
ghost use Rattle.flow_facts.specs.Facts as stated;

use bank_page::known::{Known, is_bit, is_page};
use sym_code::BlockName;

fn gives_bit(known: Option<bool>, wanted: Option<bool>) -> bool
    ensures { result ≡ stated.gives_bit known wanted }
{
    match wanted {
        None => true,
        Some(on) => is_bit(known, on),
    }
}

fn gives_page(known: Option<BlockName>, wanted: Option<BlockName>) -> bool
    ensures { result ≡ stated.gives_page known wanted }
{
    match wanted {
        None => true,
        Some(block) => is_page(known, block),
    }
}

// Whether no less is known than wanted.
fn gives_known(known: Known, wanted: Known) -> bool
    ensures { result ≡ stated.gives_known known wanted }
{
    gives_bit(known.rp0, wanted.rp0)
        && (gives_bit(known.rp1, wanted.rp1)
            && (gives_page(known.low, wanted.low) && gives_page(known.high, wanted.high)))
}

/// Whether what is known at one place is enough for another. Nothing is asked of a place to which nothing comes.
pub fn gives(fact: Option<Known>, wanted: Option<Known>) -> bool
    ensures { result ≡ stated.gives fact wanted }
{
    match fact {
        None => true,
        Some(known) => match wanted {
            None => false,
            Some(wanted) => gives_known(known, wanted),
        },
    }
}

fn shared_bit(a: Option<bool>, b: Option<bool>) -> Option<bool>
    ensures { result ≡ stated.shared_bit a b }
{
    match b {
        None => None,
        Some(on) => if is_bit(a, on) { Some(on) } else { None },
    }
}

fn shared_page(a: Option<BlockName>, b: Option<BlockName>) -> Option<BlockName>
    ensures { result ≡ stated.shared_page a b }
{
    match b {
        None => None,
        Some(block) => if is_page(a, block) { Some(block) } else { None },
    }
}

// What both know.
fn shared_known(a: Known, b: Known) -> Known
    ensures { result ≡ stated.shared_known a b }
{
    Known {
        rp0: shared_bit(a.rp0, b.rp0),
        rp1: shared_bit(a.rp1, b.rp1),
        low: shared_page(a.low, b.low),
        high: shared_page(a.high, b.high),
    }
}

/// What is known at a place that is come to in two ways.
pub fn shared(a: Option<Known>, b: Option<Known>) -> Option<Known>
    ensures { result ≡ stated.shared a b }
{
    match a {
        None => b,
        Some(known) => match b {
            None => a,
            Some(other) => Some(shared_known(known, other)),
        },
    }
}
