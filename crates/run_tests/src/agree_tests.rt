//! What `agree` answers of programs whose runs are known.

ghost use Rattle.run_tests.specs.Compiled.{IsCompiled};

use crate::chip_run::chip_run;
use crate::comparing::built;
use crate::interrupts::{IDLE, KEY, TWO_COPIES};
use pic_world::{Arrival, Flag, Script};
use picc_core::{Agreed, Built, Undef, agree};
use std::alloc::{AllocError, Global};
use std::process::Abort;
use std::test::Fail;

/// The most instructions of a test.
const MOST: u32 = 100_000;

// A sum that has no room in a char.
const WIDE: &str = "void main(void){unsigned char a=200;unsigned char b=100;PORTB=(a+b)>>1;}";

// The handler makes main's divisor 0.
const DIVIDES: &str = "unsigned char x=2;
void interrupt h(void){x=0;INTF=0;}
void main(void){INTCON=0x90;for(;;)
PORTB=10/x;}";

// Main's own division by 0 stands far behind the event at which the handler is called.
const DIVIDES_LATER: &str = "void interrupt h(void){PORTC=1;INTF=0;}
void main(void){unsigned char i;unsigned char z=0;INTCON=0x90;for(i=0;i<100;i++);
PORTB=1/z;}";

// Main's division by 0 stands behind its event that follows the loop in which the handler is called.
const DIVIDES_BEHIND: &str = "void interrupt h(void){INTF=0;}
void main(void){unsigned int i;unsigned char z=0;INTCON=0x90;for(i=0;i<600;i++);PORTB=1;
PORTC=1/z;}";

// The handler's first run puts a pointer where a number was, and its second one a number again. Main reads a byte of it as a number
// behind a loop.
const REPAIRS: &str = "unsigned char a,n;unsigned char*q;
void interrupt h(void){INTF=0;if(n)q=0;else{n=1;q=&a;}}
void main(void){unsigned char i;INTCON=0x90;for(i=0;i<200;i++);
PORTB=*(unsigned char*)&q;for(;;);}";

// Handlers that never give control back, or only for no time.
const NEVER_ENDS: &str = "void interrupt h(void){for(;;);}void main(void){INTCON=0x90;for(;;);}";

const NEVER_CLEARS: &str = "void interrupt h(void){PORTB=1;}void main(void){INTCON=0x90;for(;;);}";

const DOES_NOTHING: &str = "void interrupt h(void){}void main(void){INTCON=0x90;for(;;);}";

// A timer's flag in PIR1, with its enable bit in PIE1.
const PERIPHERAL: &str =
    "void interrupt h(void){TMR1IF=0;PORTB=1;}void main(void){TMR1IE=1;PEIE=1;GIE=1;PORTA=2;}";

// An interrupt is enabled while its flag is set, and there is no handler.
const NO_HANDLER: &str = "void main(void){INTE=1;
GIE=1;
PORTA=2;}";

fn script_of(alloc: Global, arrivals: &[Arrival]) -> Result<Script, AllocError> {
    Ok(Script::new(
        Vec::from_slice(alloc, &[1, 0, 0, 0, 0, 1, 1, 1])?,
        Vec::from_slice(alloc, arrivals)?,
    ))
}

fn answer(alloc: Global, program: &Built, script: &Script, n: u32) -> Result<Agreed, Fail>
    requires compiled { IsCompiled program.now }
{
    if n > MOST {
        return Err(Fail::new("too many instructions"));
    }
    Ok(agree(alloc, program, script, n)?)
}

/// An answer, as words.
fn shown(alloc: Global, answer: Agreed) -> Result<String, AllocError> {
    match answer {
        Agreed::Same { events } => format!(in alloc; "same {events}"),
        Agreed::Undefined { kind, line } => format!(in alloc; "{} {line}", kind_name(kind)),
    }
}

fn kind_name(kind: Undef) -> &'static str {
    match kind {
        Undef::Division => "division",
        Undef::Bytes => "bytes",
        Undef::Handler => "handler",
        _ => "another kind",
    }
}

// What is answered for a program under arrivals, as words.
fn answered(alloc: Global, program: &Built, arrivals: &[Arrival], n: u32) -> Result<String, Fail>
    requires compiled { IsCompiled program.now }
{
    let script = script_of(alloc, arrivals)?;
    Ok(shown(alloc, answer(alloc, program, &script, n)?)?)
}

/// Asks for the answer for a text under arrivals.
fn check_answer(
    rt: &impl Abort,
    alloc: Global,
    text: &str,
    arrivals: &[Arrival],
    n: u32,
    wanted: &str,
) -> Result<(), Fail> {
    let program = built(alloc, text)?;
    let answer = answered(alloc, &program, arrivals, n)?;
    assert!(rt; answer.as_str() == wanted, "{answer} for {text}");
    Ok(())
}

// The same under one arrival of INTF.
fn check_at(
    rt: &impl Abort,
    alloc: Global,
    text: &str,
    t: u32,
    n: u32,
    wanted: &str,
) -> Result<(), Fail> {
    let flag = Flag::Intf;
    check_answer(rt, alloc, text, &[Arrival { t, flag }], n, wanted)
}

// Whether the events of the chip are those that are answered, without arrivals.
fn all_count(alloc: Global, program: &Built, n: u32) -> Result<bool, Fail>
    requires compiled { IsCompiled program.now }
{
    let script = script_of(alloc, &[])?;
    let run = chip_run(alloc, &program.image, &program.map, &script, n, 0)?;
    let wanted = format!(in alloc; "same {}", run.events.len())?;
    let answer = answered(alloc, program, &[], n)?;
    Ok(answer.as_str() == wanted.as_str())
}

#[test]
fn without_arrivals_all_events_count(rt: HostRuntime) -> Result<(), Fail> {
    let alloc = rt.alloc();
    let program = built(alloc, WIDE)?;
    for n in 0..=300u32 {
        assert!(rt; all_count(alloc, &program, n)?, "{n} instructions");
    }
    // the write to PORTB, and the end of main
    check_answer(&rt, alloc, WIDE, &[], 3_000, "same 2")
}

// Under one arrival before each of the instructions from the first to the last.
fn check_moments(
    rt: &impl Abort,
    alloc: Global,
    text: &str,
    flag: Flag,
    first: u32,
    last: u32,
    wanted: &str,
) -> Result<(), Fail> {
    let program = built(alloc, text)?;
    for t in first..=last {
        let answer = answered(alloc, &program, &[Arrival { t, flag }], 2_000)?;
        assert!(rt; answer.as_str() == wanted, "{answer} at {t} for {text}");
    }
    Ok(())
}

#[test]
fn an_arrival_before_any_instruction_calls_the_handler_once(rt: HostRuntime) -> Result<(), Fail> {
    let alloc = rt.alloc();
    // main's two writes and its end, and the handler's three accesses
    check_moments(&rt, alloc, TWO_COPIES, Flag::Intf, 100, 1_000, "same 6")?;
    // a flag that is set before INTCON is written is lost
    check_at(&rt, alloc, TWO_COPIES, 0, 2_000, "same 3")?;
    // main's seven accesses and its end, and the handler's three: PIR1 keeps the flag until it is enabled
    check_moments(&rt, alloc, PERIPHERAL, Flag::Tmr1if, 0, 500, "same 11")
}

// Six flags of a timer, one before each five hundredth instruction.
fn ticks(alloc: Global) -> Result<Vec<Arrival>, AllocError> {
    let mut arrivals = Vec::new(alloc);
    for number in 1..=6u32 {
        arrivals.push(Arrival {
            t: number.saturating_mul(500),
            flag: Flag::Tmr0if,
        })?;
    }
    Ok(arrivals)
}

// How many events the chip makes of a text under arrivals.
fn events_of(alloc: Global, text: &str, arrivals: &[Arrival], n: u32) -> Result<usize, Fail> {
    let program = built(alloc, text)?;
    let script = script_of(alloc, arrivals)?;
    let run = chip_run(alloc, &program.image, &program.map, &script, n, 0)?;
    Ok(run.events.len())
}

#[test]
fn under_a_timer_all_events_agree(rt: HostRuntime) -> Result<(), Fail> {
    let alloc = rt.alloc();
    let arrivals = ticks(alloc)?;
    // the last arrival calls the handler at 3,000, so the moment before it counts
    let events = events_of(alloc, KEY, &arrivals, 2_999)?;
    assert!(rt; events >= 30);
    let wanted = format!(in alloc; "same {events}")?;
    check_answer(&rt, alloc, KEY, &arrivals, 3_000, &wanted)
}

// Two flags that aren't enabled come before an instruction, and a third one every 200 of them.
fn put_flags(arrivals: &mut Vec<Arrival>, t: u32) -> Result<(), AllocError> {
    let always = [Flag::Rbif, Flag::Tmr0if].as_slice();
    let at_times = [Flag::Rbif, Flag::Tmr0if, Flag::Intf].as_slice();
    for flag in if t % 200 == 0 { at_times } else { always } {
        arrivals.push(Arrival { t, flag: *flag })?;
    }
    Ok(())
}

// The arrivals before each of three thousand instructions.
fn crowd(alloc: Global) -> Result<Vec<Arrival>, AllocError> {
    let mut arrivals = Vec::new(alloc);
    for t in 1_000..4_000u32 {
        put_flags(&mut arrivals, t)?;
    }
    Ok(arrivals)
}

// Two flags that aren't enabled come before each instruction, and a third one calls the handler every 200 of them.
#[test]
fn flags_without_their_enable_bits_change_nothing(rt: HostRuntime) -> Result<(), Fail> {
    let alloc = rt.alloc();
    let arrivals = crowd(alloc)?;
    // two at each instruction, and fifteen that call the handler
    assert!(rt; arrivals.len() == 2 * 3_000 + 15);
    // the write to INTCON, and the handler's three accesses at each call
    check_answer(&rt, alloc, IDLE, &arrivals, 5_000, "same 46")
}

// Texts, the moment of the arrival, how many instructions are run, and what is answered.
const UNDER_ONE: [(&str, u32, u32, &str); 10] = [
    // the write to INTCON, and the handler's three accesses
    (IDLE, 5_000, 10_000, "same 4"),
    (IDLE, 10_001, 10_000, "same 1"),
    (DIVIDES, 2_000, 4_000, "division 4"),
    (DIVIDES_LATER, 200, 400, "division 3"),
    (NO_HANDLER, 0, 2_000, "handler 3"),
    // the arrival falls into the loop, and the chip is in the loop at the end or far behind it
    (DIVIDES_BEHIND, 100, 5_000, "division 3"),
    (DIVIDES_BEHIND, 100, 60_000, "division 3"),
    // the write to INTCON alone comes before a handler that keeps control
    (NEVER_ENDS, 1_000, 4_000, "same 1"),
    (NEVER_CLEARS, 1_000, 4_000, "same 1"),
    (DOES_NOTHING, 1_000, 4_000, "same 1"),
];

#[test]
fn answers_under_one_arrival_are_those_of_the_runs(rt: HostRuntime) -> Result<(), Fail> {
    for (text, t, n, wanted) in UNDER_ONE {
        check_at(&rt, rt.alloc(), text, t, n, wanted)?;
    }
    Ok(())
}

#[test]
fn answers_under_two_arrivals_are_those_of_the_runs(rt: HostRuntime) -> Result<(), Fail> {
    let alloc = rt.alloc();
    let at = |t| Arrival {
        t,
        flag: Flag::Intf,
    };
    // the second arrival falls behind the loop
    let behind = [at(100), at(50_000)];
    check_answer(&rt, alloc, DIVIDES_BEHIND, &behind, 60_000, "division 3")?;
    // the source run under the first arrival alone reads a pointer's byte as a number; those without arrivals and under both don't
    check_answer(&rt, alloc, REPAIRS, &[at(600), at(1_200)], 1_500, "bytes 4")
}
