//! Arrivals between any two instructions.

use crate::comparing::{agrees, built, goes_as};
use pic_world::{Arrival, Flag, Script};
use picc_core::Built;
use std::alloc::{AllocError, Global};
use std::process::Abort;
use std::test::Fail;

/// A function that both roots call.
pub const TWO_COPIES: &str =
    "unsigned char add(unsigned char a){unsigned char b;b=a;return b+1;}void interrupt h(void){PORTC=add(9);INTF=0;}void main(void){INTCON=0x90;PORTB=add(1);}";

// A value of two bytes that the handler changes while main reads it.
const TORN: &str =
    "unsigned int t=0x00FF;void interrupt h(void){t++;INTF=0;}void main(void){unsigned int v;INTCON=0x90;v=t;PORTB=v>>8;PORTC=v;}";

// Both roots divide, go through pointers, and change what the other reads.
const BUSY: &str =
    "unsigned int ticks;unsigned char a[4]={1,2,3,4},k;int d=1000;int over(int x,int y){return x/y;}unsigned char*at(unsigned char i){return&a[i&3];}void interrupt h(void){ticks++;*at(ticks)+=3;d=over(d,7)+ticks*3;INTF=0;TMR0IF=0;}void main(void){INTCON=0xB0;for(k=0;k<6;k++){*at(k)=over(d,3);d+=a[(k+1)&3]<<(k&3);PORTB=d>>k;}INTCON=0;}";

// An interrupt is enabled while its flag is set, and the handler is entered directly after that write.
const AT_ONCE: &str =
    "void interrupt h(void){PORTB=1;INTF=0;}void main(void){INTCON=0x92;PORTA=2;}";

// A flag is set before the interrupt is enabled.
const PENDING: &str =
    "void interrupt h(void){PORTB=1;INTF=0;}void main(void){INTE=1;GIE=1;PORTA=2;}";

// A flag that comes between the read and the write of INTCON is lost.
const LOST: &str = "void main(void){INTCON=0x10;INTCON&=0xFD;PORTB=INTCON;}";

/// Main does nothing but wait.
pub const IDLE: &str =
    "void interrupt h(void){PORTB=1;INTF=0;}void main(void){INTCON=0x90;for(;;);}";

/// A key with a lamp, and a timer's ticks in a structure.
pub const KEY: &str = "#include <htc.h>
#define LED RB1
#define KEY RB0
struct counts { unsigned int ticks; unsigned char presses; };
struct counts n;
unsigned char stable;
void interrupt tick(void)
{
    if (TMR0IF) { TMR0IF = 0; n.ticks++; }
}
void pause(unsigned char k)
{
    volatile unsigned char i;
    for (i = 0; i < k; i++)
        ;
}
void main(void)
{
    unsigned char last = 1;
    TRISB = 0x01;
    OPTION_REG = 0x07;
    TMR0IE = 1;
    GIE = 1;
    for (;;) {
        unsigned char now = KEY;
        pause(20);
        if (now == KEY && now != last) {
            last = now;
            if (!now) { n.presses++; LED = !LED; }
        }
        stable = last;
    }
}
";

// Whether a program agrees with its source under an arrival of INTF before this instruction.
fn agrees_under(alloc: Global, program: &Built, t: u32, instructions: u32) -> Result<bool, Fail> {
    let arrival = Arrival {
        t,
        flag: Flag::Intf,
    };
    let script = Script::new(Vec::new(alloc), Vec::from_slice(alloc, &[arrival])?);
    agrees(alloc, program, &script, instructions, 0x3C)
}

/// Tries a text under one arrival of INTF before each `stride`th instruction, so many of them.
fn check_moments(
    rt: &impl Abort,
    alloc: Global,
    text: &str,
    tried: u32,
    stride: u32,
    instructions: u32,
) -> Result<(), Fail> {
    let program = built(alloc, text)?;
    for number in 0..tried {
        let t = number.saturating_mul(stride);
        assert!(rt;
            agrees_under(alloc, &program, t, instructions)?,
            "a flag at {t}: {text}"
        );
    }
    Ok(())
}

// Texts, before how many instructions an arrival is tried, and how many are run.
const MOMENTS: [(&str, u32, u32); 5] = [
    (TWO_COPIES, 1_001, 2_000),
    (TORN, 200, 2_000),
    (AT_ONCE, 60, 300),
    (PENDING, 80, 400),
    (LOST, 60, 300),
];

#[test]
fn an_arrival_before_each_instruction_runs_as_the_source(rt: HostRuntime) -> Result<(), Fail> {
    for (text, tried, instructions) in MOMENTS {
        check_moments(&rt, rt.alloc(), text, tried, 1, instructions)?;
    }
    Ok(())
}

#[test]
fn arrivals_while_both_roots_work_run_as_the_source(rt: HostRuntime) -> Result<(), Fail> {
    check_moments(&rt, rt.alloc(), BUSY, 220, 7, 8_000)
}

// A flag at each multiple of a number of instructions, forty times.
fn ticks(alloc: Global, flag: Flag, period: u32) -> Result<Vec<Arrival>, AllocError> {
    let mut arrivals = Vec::new(alloc);
    for number in 1..=40u32 {
        let t = period.saturating_mul(number);
        arrivals.push(Arrival { t, flag })?;
    }
    Ok(arrivals)
}

// Whether a program under such a flag goes as its source.
fn under_ticks(
    alloc: Global,
    text: &str,
    flag: Flag,
    period: u32,
    least: usize,
) -> Result<bool, Fail> {
    let program = built(alloc, text)?;
    let input = Vec::from_slice(alloc, &[1, 0, 0, 0, 0, 1, 1, 1])?;
    let script = Script::new(input, ticks(alloc, flag, period)?);
    goes_as(alloc, &program, &script, 20_000, least)
}

#[test]
fn flags_from_time_to_time_call_the_handler_each_time(rt: HostRuntime) -> Result<(), Fail> {
    let alloc = rt.alloc();
    // the write that enables the interrupt, and forty runs of the handler with three accesses each
    assert!(rt; under_ticks(alloc, IDLE, Flag::Intf, 450, 121)?);
    assert!(rt; under_ticks(alloc, KEY, Flag::Tmr0if, 500, 200)?);
    Ok(())
}
