//! The firmware of examples/ on the chip, beside its source. `checks/examples.sh` shows that the texts are those files.

use crate::comparing::{built, goes_as};
use pic_world::{Arrival, Flag, Script};
use std::alloc::{AllocError, Global};
use std::test::Fail;

pub const PUMP: &str = "/*
 * Pump control for a drainage sump.
 *
 * Two floats hang in the sump: FULL closes when the water is high, WET as long as the pump's inlet is
 * under water. The pump starts at FULL and stops when WET opens. A run that lasts too long means a
 * blocked outlet: then the pump stops, and the alarm stays on until someone presses RESET.
 *
 * Timer 0 counts the 50 Hz of the mains at its pin RA4, divided by 16, so it overflows every 82 s. The
 * handler only counts the overflows; main does the rest.
 */
#include <xc.h>

#define WET      0x01           /* inputs at port B, each 1 when closed */
#define FULL     0x02
#define RESET    0x04

#define PUMP     0x01           /* outputs at port C */
#define ALARM    0x02

enum { IDLE, PUMPING, BLOCKED };        /* states */

#define LONGEST  3              /* ticks that a run may last */

static const unsigned char outputs[3] = { 0, PUMP, ALARM };

static volatile unsigned char ticks;

void interrupt tick(void)
{
    if (TMR0IF) {
        TMR0IF = 0;
        ticks++;
    }
}

/* The state that follows, where the pump has been running for so many ticks. */
static unsigned char following(unsigned char state, unsigned char inputs, unsigned char running)
{
    switch (state) {
    case IDLE:
        return inputs & FULL ? PUMPING : IDLE;
    case PUMPING:
        if (!(inputs & WET))
            return IDLE;
        return running < LONGEST ? PUMPING : BLOCKED;
    default:
        return inputs & RESET ? IDLE : BLOCKED;
    }
}

void main(void)
{
    unsigned char state = IDLE;
    unsigned char began = 0;    /* the ticks at the last moment without a run */

    PORTC = outputs[IDLE];
    TRISC = 0xFC;
    OPTION_REG = 0xA3;          /* no pull-ups; timer 0 from RA4, 1 to 16 */
    TMR0IE = 1;
    GIE = 1;
    for (;;) {
        unsigned char now = ticks;

        if (state != PUMPING)
            began = now;
        state = following(state, PORTB, now - began);
        PORTC = outputs[state];
    }
}
";

pub const METER: &str = "/*
 * Pulse counter of a water meter.
 *
 * The meter's reed contact pulls RB0/INT low once for each litre. The handler counts the pulses in an
 * unsigned long, whose four bytes aren't read at once: a pulse may come between two of them. So main
 * takes copies until two in a row agree, and never has to shut the interrupt off.
 *
 * Port D shows the last two digits of the litres, port C the hundreds, eight bits of them.
 */
#include <xc.h>

#define INSTALLED  65534UL      /* litres on the dial when the counter was put in */

static volatile unsigned long litres = INSTALLED;

void interrupt pulse(void)
{
    if (INTF) {
        INTF = 0;
        litres++;
    }
}

/* A copy whose bytes belong together. */
static unsigned long reading(void)
{
    unsigned long copy;

    do {
        copy = litres;
    } while (copy != litres);
    return copy;
}

/* Two decimal digits, tens above units. */
static unsigned char packed(unsigned char number)
{
    return number / 10 << 4 | number % 10;
}

void main(void)
{
    unsigned long shown = 0;

    TRISC = 0;
    TRISD = 0;
    OPTION_REG = 0x00;          /* pull-ups on, falling edge of RB0 */
    INTE = 1;
    GIE = 1;
    for (;;) {
        unsigned long now = reading();

        if (now != shown) {
            shown = now;
            PORTC = now / 100;
            PORTD = packed(now % 100);
        }
    }
}
";

pub const LOCK: &str = "/*
 * Door lock with a code.
 *
 * A keypad encoder (MM74C922) puts the number of the pressed key on RD0 to RD3 and raises RD4 as long
 * as it is held. RC0 drives the solenoid of the bolt, RC1 a buzzer.
 *
 * Keys are collected until there are as many as the code has. The right ones draw the bolt back for a while, wrong
 * ones sound the buzzer, and after the third time in a row the lock takes no key until the next power-up.
 */
#include <xc.h>

#define KEY       0x0F          /* port D */
#define PRESSED   0x10

#define CLOSED    0x00          /* port C */
#define BOLT      0x01
#define BUZZER    0x02

#define LENGTH    4
#define TRIES     3

static const unsigned char code[LENGTH] = { 2, 7, 1, 8 };

static unsigned char failed;    /* wrong codes in a row */

/* Waits until the last key is released and the next one is pressed, and answers it. */
static unsigned char key(void)
{
    unsigned char port;

    while (PORTD & PRESSED)
        ;
    do {
        port = PORTD;
    } while (!(port & PRESSED));
    return port & KEY;
}

/* Whether the next keys are the code. All of them are taken, so that the wrong place isn't told. */
static unsigned char is_code(void)
{
    unsigned char i;
    unsigned char wrong = 0;

    for (i = 0; i < LENGTH; i++)
        wrong |= key() ^ code[i];
    return wrong == 0;
}

/* Switches an output on for a while. */
static void drive(unsigned char output, unsigned int times)
{
    volatile unsigned int left;

    PORTC = output;
    for (left = times; left != 0; left--)
        ;
    PORTC = CLOSED;
}

void main(void)
{
    PORTC = CLOSED;
    TRISC = 0xFC;
    while (failed < TRIES) {
        if (is_code()) {
            failed = 0;
            drive(BOLT, 5000);
        } else {
            failed++;
            drive(BUZZER, 1000);
        }
    }
    PORTC = BUZZER;
}
";

/// So many bytes, each from the one before it.
fn input_of(alloc: Global, count: u32) -> Result<Vec<u8>, AllocError> {
    let mut input = Vec::new(alloc);
    let mut byte: u8 = 7;
    for _ in 0..count {
        byte = byte.wrapping_mul(77).wrapping_add(53);
        input.push(byte ^ (byte >> 4))?;
    }
    Ok(input)
}

/// So many arrivals of a flag, at distances that share no factor with a loop of the firmware.
fn arrivals_of(alloc: Global, flag: Flag, count: u32) -> Result<Vec<Arrival>, AllocError> {
    let mut arrivals = Vec::new(alloc);
    let mut t: u32 = 149;
    for _ in 0..count {
        arrivals.push(Arrival { t, flag })?;
        t = t.saturating_add(1_973);
    }
    Ok(arrivals)
}

// Whether the chip's events, at least so many, are the first of the source.
fn runs_as_its_source(alloc: Global, text: &str, flag: Flag, least: usize) -> Result<bool, Fail> {
    let program = built(alloc, text)?;
    let script = Script::new(input_of(alloc, 4_000)?, arrivals_of(alloc, flag, 50)?);
    goes_as(alloc, &program, &script, 100_000, least)
}

#[test]
fn firmware_runs_as_its_source_for_a_hundred_thousand_instructions(
    rt: HostRuntime,
) -> Result<(), Fail> {
    let alloc = rt.alloc();
    assert!(rt;
        runs_as_its_source(alloc, PUMP, Flag::Tmr0if, 1_000)?,
        "the pump"
    );
    assert!(rt;
        runs_as_its_source(alloc, METER, Flag::Intf, 500)?,
        "the meter"
    );
    assert!(rt;
        runs_as_its_source(alloc, LOCK, Flag::Tmr0if, 20)?,
        "the lock"
    );
    Ok(())
}
