//! How far chip and source agree, under a flag before any instruction and after any number of instructions. All that is wanted was
//! worked out by hand.

use crate::cut_tests::KEY;
use command_cases::{BUILD, holds_on, host_behind, line_ends};
use std::alloc::{AllocError, Global};
use std::test::Fail as Failure;

// A function that main and the handler call.
const TWO_COPIES: &str =
    "unsigned char add(unsigned char a){unsigned char b;b=a;return b+1;}void interrupt h(void){PORTC=add(9);INTF=0;}void main(void){INTCON=0x90;PORTB=add(1);}";

const SUM: &str = "void main(void){unsigned char a=200;unsigned char b=100;PORTB=(a+b)>>1;}";

// How many events agree under a flag before the instruction of this number, if they are three or six.
fn events_under(alloc: Global, t: u32) -> Result<u32, AllocError> {
    let script = format!(in alloc; "at {t} INTF")?;
    if holds_on(alloc, "agree a.c a.s 2000@0@agree 6$", TWO_COPIES, &script)? {
        Ok(6)
    } else if holds_on(alloc, "agree a.c a.s 2000@0@agree 3$", TWO_COPIES, &script)? {
        Ok(3)
    } else {
        Ok(0)
    }
}

// A flag before each of a thousand instructions: as long as INTCON isn't written it is lost, and from then on the handler runs
// once.
#[test]
fn a_flag_anywhere_calls_the_handler_once_or_is_lost(rt: HostRuntime) -> Result<(), Failure> {
    let mut taken = false;
    for t in 0..=1000u32 {
        let events = events_under(rt.alloc(), t)?;
        assert!(rt; events == 6 || (events == 3 && !taken), "a flag at {t}");
        taken = events == 6;
    }
    assert!(rt; taken);
    Ok(())
}

// Forty flags of a timer, one before each five hundredth instruction.
fn ticks(alloc: Global) -> Result<String, AllocError> {
    let mut script = String::new(alloc);
    for tick in 1..=40u32 {
        script.push_str(&format!(in alloc; "at {} TMR0IF\n", tick.saturating_mul(500))?)?;
    }
    Ok(script)
}

#[test]
fn a_key_agrees_under_forty_ticks(rt: HostRuntime) -> Result<(), Failure> {
    let script = ticks(rt.alloc())?;
    let (host, status) = host_behind(rt.alloc(), "agree a.c a.s 20000", KEY, &script)?;
    let printed = host.printed.as_slice();
    let is_told = printed.starts_with(b"agree ".as_slice()) && line_ends(printed) == 1;
    assert!(rt; status == 0 && is_told);
    Ok(())
}

// Whether `sim` prints this after so many instructions, and `agree` that.
fn is_whole(
    alloc: Global,
    instructions: u32,
    printed: &str,
    agreed: &str,
) -> Result<bool, AllocError> {
    let run = format!(in alloc; "{BUILD};sim a.hex a.map a.s {instructions}@0@{printed}")?;
    let compared = format!(in alloc; "agree a.c a.s {instructions}@0@{agreed}")?;
    Ok(holds_on(alloc, &run, SUM, "")? && holds_on(alloc, &compared, SUM, "")?)
}

// How many events the chip makes in so many instructions, where `agree` tells as many: none, the write, or the end behind it.
fn events_within(alloc: Global, instructions: u32) -> Result<Option<u32>, AllocError> {
    if is_whole(alloc, instructions, "", "agree 0$")? {
        Ok(Some(0))
    } else if is_whole(alloc, instructions, "W PORTB 96$", "agree 1$")? {
        Ok(Some(1))
    } else if is_whole(alloc, instructions, "W PORTB 96$End$", "agree 2$")? {
        Ok(Some(2))
    } else {
        Ok(None)
    }
}

// `agree` tells as many events as `sim` prints, however far the chip runs.
#[test]
fn as_many_events_as_the_chip_makes(rt: HostRuntime) -> Result<(), Failure> {
    let mut longest = None;
    for instructions in 0..=300u32 {
        longest = events_within(rt.alloc(), instructions)?;
        assert!(rt; longest.is_some(), "{instructions} instructions");
    }
    assert!(rt; longest == Some(2));
    Ok(())
}
