//! The script of a text.

ghost use Rattle.std.specs.Prelude.{◌≡◌, ◌<◌, ◌≤◌, ◌^◌, ℕ, length, Some, None, Ok, IfOk, IfSome, IfNone};
ghost use Rattle.schedule.specs.Answers.{GivesScript, TellsBadLine, Goes, Puts, reading_of};
ghost use Rattle.schedule.specs.ScriptFile.{ScriptContent, IsScriptFile, content_of, byte_value, number_onto};
ghost use Rattle.schedule.specs.Reading as reading;

use pic_world::{Arrival, Flag, Script};
use std::alloc::{AllocError, Global};
use text_lines::{digit_value, next_line};
use thiserror::Error;

/// Why a text gives no script.
#[derive(Debug, Drop, Error)]
pub enum ScriptError {
    /// Out of memory.
    #[error("no memory")]
    NoMemory,
    /// The first line that no script file has there, counted from 1.
    #[error("line {line}: bad line")]
    BadLine { line: u32 },
}

/// The script of a script file (the format is the project's own). Each line is empty; or `input` and any
/// number of bytes, each a space and two hexadecimal digits of either case; or `at T FLAG`, where T is one
/// to ten decimal digits, at most 4,294,967,295 and not below the T before it, and FLAG is RBIF, INTF,
/// TMR0IF, TMR1IF, TMR2IF, CCP1IF, SSPIF, TXIF, RCIF, ADIF or PSPIF. The bytes of several lines are joined.
#[tactic(auto, using(crate::proofs::Given::found, crate::proofs::Given::only, crate::proofs::BadLine::bad_line))]
pub fn read_script(alloc: Global, bytes: &[u8]) -> Result<Script, ScriptError>
    requires { length bytes.now < 2 ^ 32 }
    // What is read is a script file of what is told.
    ensures found { IfOk result (λ script. IsScriptFile bytes.now (content_of script)) }
    // What is a script file is read, unless memory runs out.
    ensures only { (content : ScriptContent) → IsScriptFile bytes.now content → GivesScript result (Ok content) }
    // A line that is told is the first that is wrong.
    ensures bad_line { TellsBadLine result bytes.now }
{
    read_lines(alloc, bytes)
}

#[tactic(auto, using(crate::proofs::Going::step_good, crate::proofs::Going::step_bad))]
fn read_lines(alloc: Global, bytes: &[u8]) -> Result<Script, ScriptError>
    requires { length bytes.now < 2 ^ 32 }
    ensures exact { GivesScript result (reading_of bytes.now) }
{
    let mut script = Script {
        input: Vec::new(alloc),
        arrivals: Vec::new(alloc),
    };
    let mut before = 0u32;
    let mut rest = bytes;
    while let Some((line, behind)) = next_line(rest) {
        match take_line(&mut script, line) {
            Ok(true) => {}
            Ok(false) => return Err(ScriptError::BadLine { line: before + 1 }),
            Err(_) => return Err(ScriptError::NoMemory),
        }
        before += 1;
        rest = behind;
    }
    Ok(script)
}

/// Reads a line into the script, and answers whether a script may have it there.
#[tactic(auto, unfolding(crate::specs::Reading::after_line, text_lines::specs::Front::after))]
fn take_line(script: &mut Script, line: &[u8]) -> Result<bool, AllocError>
    ensures { IfOk result (λ good. Goes good (reading.after_line (content_of script.old) line.now) (content_of script.new)) }
{
    if line.is_empty() {
        return Ok(true);
    }
    if let Some(digits) = line.strip_prefix(b"input") {
        return take_input(script, digits);
    }
    match line.strip_prefix(b"at ") {
        Some(text) => take_arrival(script, text),
        None => Ok(false),
    }
}

fn take_input(script: &mut Script, digits: &[u8]) -> Result<bool, AllocError>
    ensures { IfOk result (λ good. Goes good (reading.with_input (content_of script.old) (reading.bytes_in digits.now)) (content_of script.new)) }
{
    put_bytes(&mut script.input, digits)
}

/// Appends bytes, each of which stands as a space and two digits, and answers whether nothing else stands
/// there.
#[tactic(auto, using(crate::proofs::Bytes::goes_on, crate::proofs::Bytes::ends, crate::proofs::Bytes::breaks))]
fn put_bytes(input: &mut Vec<u8>, digits: &[u8]) -> Result<bool, AllocError>
    ensures { IfOk result (λ good. Puts good input.old.items (reading.bytes_in digits.now) input.new.items) }
{
    let mut left = digits;
    while let Some((byte, rest)) = byte_at_front(left) {
        input.push(byte)?;
        left = rest;
    }
    match left {
        [] => Ok(true),
        _ => Ok(false),
    }
}

/// The byte whose space and two digits stand at the front, and what stands after them.
#[tactic(auto, unfolding(crate::specs::Reading::byte_at_front))]
fn byte_at_front(text: &[u8]) -> Option<(u8, &[u8])>
    ensures none { IfNone result (reading.byte_at_front text.now ≡ None) }
    ensures some { IfSome result (λ x. reading.byte_at_front text.now ≡ Some (x.0, x.1.now)) }
    ensures shorter { IfSome result (λ x. length x.1.now < length text.now) }
{
    let [space, high, low, rest @ ..] = text else {
        return None;
    };
    if *space != b' ' {
        return None;
    }
    Some((byte_value(*high, *low)?, rest))
}

/// The byte that two hexadecimal digits spell.
fn byte_value(high: u8, low: u8) -> Option<u8>
    ensures { result ≡ byte_value high low }
{
    let high = digit_value(high)?;
    let low = digit_value(low)?;
    Some((16 * high + low) as u8)
}

#[tactic(auto, using(crate::proofs::FileLaws::rising_behind_last))]
fn take_arrival(script: &mut Script, text: &[u8]) -> Result<bool, AllocError>
    ensures { IfOk result (λ good. Goes good (reading.with_arrival (content_of script.old) (reading.arrival_in text.now)) (content_of script.new)) }
{
    let Some(arrival) = arrival(text) else {
        return Ok(false);
    };
    if arrival.t < last_time(&script.arrivals) {
        return Ok(false);
    }
    script.arrivals.push(arrival)?;
    Ok(true)
}

/// The time of the last arrival, or 0.
fn last_time(arrivals: &[Arrival]) -> u32
    ensures { result ≡ reading.last_time arrivals.now }
{
    match arrivals.last() {
        Some(arrival) => arrival.t,
        None => 0,
    }
}

/// A time, a space and a flag.
#[tactic(auto, unfolding(crate::specs::Reading::arrival_in))]
fn arrival(text: &[u8]) -> Option<Arrival>
    ensures { result ≡ reading.arrival_in text.now }
{
    let (digits, tail) = text.split_at(digits_length(text));
    if digits.is_empty() || digits.len() > 10 {
        return None;
    }
    let t = time(digits)?;
    let flag = flag(tail)?;
    Some(Arrival { t, flag })
}

/// How many decimal digits stand at the front.
#[tactic(auto, unfolding(crate::specs::Reading::digits_length))]
fn digits_length(text: &[u8]) -> usize
    ensures value { result ≡ reading.digits_length text.now }
    ensures within { result ≤ length text.now }
{
    let mut count = 0;
    let mut left = text;
    while let [first, rest @ ..] = left {
        if !first.is_ascii_digit() {
            return count;
        }
        count += 1;
        left = rest;
    }
    count
}

/// The number that decimal digits spell, where it is below 2^32.
#[tactic(auto, unfolding(crate::specs::Reading::time_onto))]
fn time(digits: &[u8]) -> Option<u32>
    ensures { result ≡ reading.time_onto 0 digits.now }
{
    let mut number = 0u32;
    let mut left = digits;
    while let [first, rest @ ..] = left {
        let longer = 10 * number as u64 + first.saturating_sub(b'0') as u64;
        if longer > u32::MAX as u64 {
            return None;
        }
        number = longer as u32;
        left = rest;
    }
    Some(number)
}

/// The flag whose name stands after a space.
fn flag(tail: &[u8]) -> Option<Flag>
    ensures { result ≡ reading.flag_in tail.now }
{
    if tail == b" RBIF".as_slice() {
        return Some(Flag::Rbif);
    }
    if tail == b" INTF".as_slice() {
        return Some(Flag::Intf);
    }
    if tail == b" TMR0IF".as_slice() {
        return Some(Flag::Tmr0if);
    }
    if tail == b" TMR1IF".as_slice() {
        return Some(Flag::Tmr1if);
    }
    if tail == b" TMR2IF".as_slice() {
        return Some(Flag::Tmr2if);
    }
    if tail == b" CCP1IF".as_slice() {
        return Some(Flag::Ccp1if);
    }
    if tail == b" SSPIF".as_slice() {
        return Some(Flag::Sspif);
    }
    if tail == b" TXIF".as_slice() {
        return Some(Flag::Txif);
    }
    if tail == b" RCIF".as_slice() {
        return Some(Flag::Rcif);
    }
    if tail == b" ADIF".as_slice() {
        return Some(Flag::Adif);
    }
    if tail == b" PSPIF".as_slice() {
        return Some(Flag::Pspif);
    }
    None
}
