//! A text that was cut off after each of its bytes: what is reported of it follows from the line in which the cut lies.

use command_cases::{BUILD, holds_on, line_ends};
use std::alloc::{AllocError, Global};
use std::test::Fail as Failure;

/// A key with a pause against its bouncing, and a timer.
pub const KEY: &str = "#include <htc.h>
#define LED RB1
#define KEY RB0
struct counts { unsigned int ticks; unsigned char presses; };
struct counts n;
unsigned char stable;
void interrupt tick(void)
{
    if (TMR0IF) { TMR0IF = 0; n.ticks++; }
}
void pause(unsigned char k)
{
    volatile unsigned char i;
    for (i = 0; i < k; i++)
        ;
}
void main(void)
{
    unsigned char last = 1;
    TRISB = 0x01;
    OPTION_REG = 0x07;
    TMR0IE = 1;
    GIE = 1;
    for (;;) {
        unsigned char now = KEY;
        pause(20);
        if (now == KEY && now != last) {
            last = now;
            if (!now) { n.presses++; LED = !LED; }
        }
        stable = last;
    }
}
";

/// The lines with whose end a declaration, a function or a directive ends, up to main.
const WHOLE: [usize; 8] = [1, 2, 3, 4, 5, 6, 10, 16];

/// The lines of directives. After them no line is one.
const DIRECTIVES: usize = 3;

/// What is wrong with a text that ends before main does.
const NO_MAIN: &str = "error 7: roots none";

fn line_of(text: &[u8], number: usize) -> &[u8] {
    text.split(|c| *c == b'\n')
        .nth(number.saturating_sub(1))
        .unwrap_or(b"".as_slice())
}

// What is wrong with the front of a text whose last token stands on a line of this number; nothing where the front is the whole.
// Of a directive `#` alone may be left, which is one, and a name may be defined as nothing.
fn fault_of(text: &[u8], front: &[u8], number: usize) -> &'static str {
    let (whole, part) = (line_of(text, number), line_of(front, number));
    if front.len() == text.trim_ascii_end().len() {
        ""
    } else if number <= DIRECTIVES {
        if part == whole || part.len() <= 1 || part.starts_with(b"#define ".as_slice()) {
            NO_MAIN
        } else {
            "error 3: bad directive"
        }
    } else if part == whole && WHOLE.contains(&number) {
        NO_MAIN
    } else if part.ends_with(b"0x".as_slice()) {
        "error 1: bad token"
    } else {
        "error 4: syntax"
    }
}

// The line that reports the fault.
fn reported(alloc: Global, fault: &str, number: usize) -> Result<String, AllocError> {
    if fault.is_empty() {
        Ok(String::new(alloc))
    } else if fault == NO_MAIN {
        format!(in alloc; "a.c: {fault}\n")
    } else {
        format!(in alloc; "a.c:{number}: {fault}\n")
    }
}

// Whether a build of the front of a text ends as it must.
fn is_told(alloc: Global, front: &str) -> Result<bool, AllocError> {
    let read = front.as_bytes().trim_ascii_end();
    let number = line_ends(read).saturating_add(1);
    let fault = fault_of(KEY.as_bytes(), read, number);
    let status: u8 = if fault.is_empty() { 0 } else { 1 };
    let printed = reported(alloc, fault, number)?;
    let asked = format!(in alloc; "{BUILD}@{status}@{printed}")?;
    holds_on(alloc, &asked, front, "")
}

fn is_told_behind(alloc: Global, length: usize) -> Result<bool, AllocError> {
    match KEY.get(..length) {
        Some(front) => is_told(alloc, front),
        None => Ok(false),
    }
}

#[test]
fn a_text_cut_anywhere_is_told_at_its_line(rt: HostRuntime) -> Result<(), Failure> {
    for length in 0..=KEY.len() {
        assert!(rt; is_told_behind(rt.alloc(), length)?, "{length} bytes");
    }
    Ok(())
}
