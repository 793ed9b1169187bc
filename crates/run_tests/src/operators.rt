//! Each operator at each type, on values at the edges of the type.
//!
//! In a text of types, pairs or values a bar stands between two of them, and in one of operators a blank.

use crate::comparing::check_text;
use std::alloc::Global;
use std::process::Abort;
use std::test::Fail;

const TYPES: &str =
    "unsigned char|signed char|int|unsigned int|short|long|unsigned long|unsigned short";

// Operators that every pair of values takes.
const OPERATORS: &str = "+ - * & | ^ < > <= >= == != ,";

// Values that each type holds, and others that are cut to it.
const PAIRS: &str = "5 3|127 1|200 100|0 255|-7 2|-1 -128|40000 513|-70000 65537";

const DIVIDED: &str =
    "7 2|-7 2|7 -2|-7 -2|200 7|-128 3|32767 -1|-32767 255|65535 256|-70001 1000|0 9|100000 70000";

const SHIFTED: &str = "1 0|1 7|-1 1|-128 3|200 8|-30000 15|40000 9|-70001 4";

/// Runs an operator at a type on pairs of values. The answer is how many there are.
fn check_pairs(
    rt: &impl Abort,
    alloc: Global,
    ty: &str,
    operator: &str,
    pairs: &str,
) -> Result<u32, Fail> {
    let mut count: u32 = 0;
    for pair in pairs.split('|') {
        let (a, b) = pair.split_once(' ').unwrap_or((pair, ""));
        let text = format!(in alloc;
            "{ty} a={a},b={b};long r;{ty} s;void main(void){{r=a{operator}b;s=a{operator}b;a{operator}b;}}"
        )?;
        check_text(rt, alloc, &text)?;
        count = count.saturating_add(1);
    }
    Ok(count)
}

/// Runs operators at each type on pairs of values. The answer is how many runs there are.
fn check_operators(
    rt: &impl Abort,
    alloc: Global,
    operators: &str,
    pairs: &str,
) -> Result<u32, Fail> {
    let mut count: u32 = 0;
    for ty in TYPES.split('|') {
        for operator in operators.split(' ') {
            count = count.saturating_add(check_pairs(rt, alloc, ty, operator, pairs)?);
        }
    }
    Ok(count)
}

#[test]
fn operators_of_two_operands_run_as_their_source(rt: HostRuntime) -> Result<(), Fail> {
    // eight types, and thirteen operators on eight pairs
    assert!(rt; check_operators(&rt, rt.alloc(), OPERATORS, PAIRS)? == 832);
    Ok(())
}

#[test]
fn quotients_run_as_their_source(rt: HostRuntime) -> Result<(), Fail> {
    // two operators on twelve pairs
    assert!(rt; check_operators(&rt, rt.alloc(), "/ %", DIVIDED)? == 192);
    Ok(())
}

#[test]
fn shifts_by_a_variable_run_as_their_source(rt: HostRuntime) -> Result<(), Fail> {
    // two operators on eight pairs
    assert!(rt; check_operators(&rt, rt.alloc(), "<< >>", SHIFTED)? == 128);
    Ok(())
}

// Shifts at a type to both sides by a constant count.
fn check_shift(rt: &impl Abort, alloc: Global, ty: &str, count: u32) -> Result<(), Fail> {
    for side in ["<<", ">>"] {
        let text = format!(in alloc;
            "{ty} a=-23456,r;void main(void){{r=a{side}{count};a{side}={count};}}"
        )?;
        check_text(rt, alloc, &text)?;
    }
    Ok(())
}

/// Shifts at types by each constant count up to so many. The answer is how many runs there are.
fn check_shifts(rt: &impl Abort, alloc: Global, types: &str, counts: u32) -> Result<u32, Fail> {
    let mut runs: u32 = 0;
    for ty in types.split('|') {
        for count in 0..counts {
            check_shift(rt, alloc, ty, count)?;
            runs = runs.saturating_add(2);
        }
    }
    Ok(runs)
}

#[test]
fn shifts_by_a_constant_run_as_their_source(rt: HostRuntime) -> Result<(), Fail> {
    let alloc = rt.alloc();
    let narrow = "int|unsigned int|unsigned char|signed char";
    assert!(rt; check_shifts(&rt, alloc, narrow, 16)? == 128);
    assert!(rt; check_shifts(&rt, alloc, "long|unsigned long", 32)? == 128);
    Ok(())
}

const VALUES: &str = "0|1|255|-1|127|-128|32767|65535|-70000";

// What is done with one operand `a`.
const SINGLE: &str =
    "r=-a|r=~a|r=+a|r=!a|r=a++|r=a--|r=++a|r=--a|r=(char)a|r=(signed char)a|r=(unsigned int)a|r=(long)a|r=a?3:70000|r=sizeof a";

/// Does each of these with each of the values at a type. The answer is how many runs there are.
fn check_singles(rt: &impl Abort, alloc: Global, ty: &str) -> Result<u32, Fail> {
    let mut count: u32 = 0;
    for value in VALUES.split('|') {
        for single in SINGLE.split('|') {
            let text = format!(in alloc; "{ty} a={value};long r;void main(void){{{single};}}")?;
            check_text(rt, alloc, &text)?;
            count = count.saturating_add(1);
        }
    }
    Ok(count)
}

#[test]
fn operators_of_one_operand_run_as_their_source(rt: HostRuntime) -> Result<(), Fail> {
    let mut count: u32 = 0;
    for ty in TYPES.split('|') {
        count = count.saturating_add(check_singles(&rt, rt.alloc(), ty)?);
    }
    // eight types, nine values, and fourteen things that are done with them
    assert!(rt; count == 1_008);
    Ok(())
}

const UPDATES: &str = "a+=b a-=b a*=b a/=b a%=b a&=b a|=b a^=b a<<=(b&7) a>>=(b&7) a=b a+=a++";

/// Each update of a type by another one. The answer is how many runs there are.
fn check_updates(rt: &impl Abort, alloc: Global, left: &str, right: &str) -> Result<u32, Fail> {
    let mut count: u32 = 0;
    for update in UPDATES.split(' ') {
        let text = format!(in alloc;
            "{left} a=-100;{right} b=77;long r;void main(void){{r={update};r=a&&b;r=a||b;}}"
        )?;
        check_text(rt, alloc, &text)?;
        count = count.saturating_add(1);
    }
    Ok(count)
}

// Each compound assignment, of each type to each other.
#[test]
fn compound_assignments_run_as_their_source(rt: HostRuntime) -> Result<(), Fail> {
    let mut count: u32 = 0;
    for left in TYPES.split('|') {
        for right in TYPES.split('|') {
            count = count.saturating_add(check_updates(&rt, rt.alloc(), left, right)?);
        }
    }
    // eight types and eight types, and twelve updates
    assert!(rt; count == 768);
    Ok(())
}
