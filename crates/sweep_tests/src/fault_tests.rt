//! A host of which each call fails in turn, under each command.
//!
//! A case has one field more than others, behind what is printed: how many calls are made on each file, in their order, with `*` and the line
//! that reports a failure of one of them, and `|` between two files. A file that is read is opened, read, found to be at its end and closed,
//! and an empty one is at its end at once; one that is written is created, written and closed. What is printed comes behind these calls.

use command_cases::{
    BUILD, Case, LED, case_of, cut, has_files, host_behind, host_of, is_printed, is_same_file,
    run_all,
};
use host_io::{Fail, MemoryHost};
use std::alloc::{AllocError, Global};
use std::test::Fail as Failure;

const BUILDING: &str = "\
build a.c a.hex a.map@0@@4*cannot read a.c|3*cannot write a.hex|3*cannot write a.map@a.c=void main(void){PORTB=5;}@a.s=";

const DIVIDING: &str = "\
trace a.c a.s 1000@4@R x.0 00$a.c:3: undefined: division$@4*cannot read a.c|4*cannot read a.s@\
a.c=unsigned char x;$void main(void){$PORTB=1/x;}@a.s=input 01";

const OTHERS: &str = "\
trace a.c a.s 1000@0@W PORTB 05$End$@4*cannot read a.c|3*cannot read a.s@a.c=void main(void){PORTB=5;}@a.s=
build a.c a.hex a.map;sim a.hex a.map a.s 1000@0@W PORTB 05$End$@4*cannot read a.c|3*cannot write a.hex|3*cannot write a.map|4*cannot read a.hex|4*cannot read a.map|3*cannot read a.s@a.c=void main(void){PORTB=5;}@a.s=
build84 a.c a.hex a.map;sim84 a.hex a.map a.s 1000@0@W PORTB 05$End$@4*cannot read a.c|3*cannot write a.hex|3*cannot write a.map|4*cannot read a.hex|4*cannot read a.map|3*cannot read a.s@a.c=void main(void){PORTB=5;}@a.s=
agree a.c a.s 1000@0@agree 2$@4*cannot read a.c|3*cannot read a.s@a.c=void main(void){PORTB=5;}@a.s=
gen 1@0@unsigned char s;$unsigned char f0(unsigned char x){return x+0;}$void main(void){unsigned char x;$x=PORTB;$x=f0(x);$PORTC=x;$}$/* gen 1: words 224 ram 14 depth 1 */$@
gen 2@0@unsigned char s;$unsigned char f0(unsigned char x){return x+0;}$unsigned char f1(unsigned char x){return x+1;}$void main(void){unsigned char x;$x=PORTB;$x=f0(x);$x=f1(x);$PORTC=x;$}$/* gen 2: words 316 ram 14 depth 1 */$@
check a.hex@0@depth 1$@4*cannot read a.hex@a.hex=:06000000022001280800A7$:00000001FF$
check a.hex@7@no certificate$@4*cannot read a.hex@a.hex=:020000000020DE$:00000001FF$
check a.hex@5@a.hex:1: bad record$@4*cannot read a.hex@a.hex=:
";

/// What a run shows of which one call was to fail.
#[derive(Clone, Copy)]
enum Outcome {
    /// It is as if nothing failed: there is no call of that number.
    Whole,
    /// The line that reports the file of the call is printed, and nothing else.
    Reported,
    /// The call is none on a file, and a front of what is wanted is printed.
    Front,
    Wrong,
}

/// How many calls a case makes, and how many of them, where they fail, leave a front of what is wanted. Where something is wrong,
/// `calls` is the number of the call.
#[derive(Clone, Copy)]
struct Faults {
    is_right: bool,
    calls: u64,
    fronts: u32,
}

// Whether this is a line of this text alone.
fn is_line(printed: &[u8], text: &str) -> bool {
    match printed.split_last() {
        Some((end, line)) => *end == b'\n' && line == text.as_bytes(),
        None => false,
    }
}

// The line that reports the file of the call of this number, and nothing where that is no call on a file.
fn report_of(reports: &str, call: u64) -> &str {
    let mut calls: u64 = 0;
    for report in reports.split('|') {
        if let Some((count, text)) = report.split_once('*') {
            calls = calls.saturating_add(count.parse::<u64>().unwrap_or(0));
            if call < calls {
                return text;
            }
        }
    }
    ""
}

// Whether the host has no file of this name, or the front of the other's.
fn is_front(host: &MemoryHost, whole: &MemoryHost, name: &str) -> bool {
    match (host.files.get(name), whole.files.get(name)) {
        (Some(front), Some(content)) => content.starts_with(front.as_slice()),
        (None, _) => true,
        _ => false,
    }
}

// The host behind commands of which one call fails, and the status.
fn host_at(
    alloc: Global,
    commands: &str,
    files: &str,
    fail: Fail,
) -> Result<(MemoryHost, u8), AllocError> {
    let mut host = host_of(alloc, files, vec![in alloc; fail]?)?;
    let status = run_all(alloc, commands, &mut host)?;
    Ok((host, status))
}

// What is shown by a status and what was printed, where the call that fails is to be reported so.
fn shown(printed: &[u8], status: u8, case: Case<'_>, whole: &[u8], report: &str) -> Outcome {
    if status == case.status && report.is_empty() && printed == whole {
        Outcome::Whole
    } else if status == 3 && report.is_empty() && whole.starts_with(printed) {
        Outcome::Front
    } else if status == 3 && !report.is_empty() && is_line(printed, report) {
        Outcome::Reported
    } else {
        Outcome::Wrong
    }
}

// What is shown where the files that are there stay, and others are fronts.
fn shown_by(
    alloc: Global,
    host: &MemoryHost,
    status: u8,
    case: Case<'_>,
    whole: &MemoryHost,
    report: &str,
) -> Result<Outcome, AllocError> {
    let are_fronts = is_front(host, whole, "a.hex") && is_front(host, whole, "a.map");
    if are_fronts && has_files(alloc, host, case.files)? {
        let printed = host.printed.as_slice();
        Ok(shown(printed, status, case, &whole.printed, report))
    } else {
        Ok(Outcome::Wrong)
    }
}

// The same of a run of which this call fails.
fn shown_at(
    alloc: Global,
    case: Case<'_>,
    call: u64,
    whole: &MemoryHost,
    reports: &str,
) -> Result<Outcome, AllocError> {
    let (host, status) = host_at(alloc, case.commands, case.files, Fail::Call(call))?;
    shown_by(alloc, &host, status, case, whole, report_of(reports, call))
}

// Each call fails in turn, up to a run in which none does. The files that are there stay, others are fronts, and the report of the file
// is printed, or, behind all calls on files, a front of what is wanted.
fn faults_within(
    alloc: Global,
    case: Case<'_>,
    whole: &MemoryHost,
    reports: &str,
) -> Result<Faults, AllocError> {
    let mut faults = Faults {
        is_right: false,
        calls: 0,
        fronts: 0,
    };
    for calls in 0..200u64 {
        faults.calls = calls;
        match shown_at(alloc, case, calls, whole, reports)? {
            Outcome::Reported => {}
            Outcome::Front => faults.fronts = faults.fronts.saturating_add(1),
            Outcome::Whole => {
                faults.is_right = true;
                return Ok(faults);
            }
            Outcome::Wrong => return Ok(faults),
        }
    }
    // some call is the last
    Ok(faults)
}

// The faults of a line's case. Where nothing fails, it has its status, and prints what it says.
fn faults_of(alloc: Global, line: &str) -> Result<Faults, AllocError> {
    let case = case_of(line);
    let (reports, files) = cut(case.files);
    let case = Case { files, ..case };
    let mut whole = host_of(alloc, files, Vec::new(alloc))?;
    let status = run_all(alloc, case.commands, &mut whole)?;
    if status == case.status && is_printed(alloc, &whole, case.printed)? {
        faults_within(alloc, case, &whole, reports)
    } else {
        Ok(Faults {
            is_right: false,
            calls: 0,
            fronts: 0,
        })
    }
}

#[test]
fn each_fault_is_told_by_the_line_of_its_file(rt: HostRuntime) -> Result<(), Failure> {
    let alloc = rt.alloc();
    let building = faults_of(alloc, BUILDING)?;
    // the printing of both lines fails, one by one
    let dividing = faults_of(alloc, DIVIDING)?;
    let are_two = dividing.is_right && dividing.calls == 10 && dividing.fronts == 2;
    assert!(rt; building.is_right && building.calls == 10 && are_two);
    let mut count: u32 = 0;
    for line in OTHERS.lines() {
        let faults = faults_of(alloc, line)?;
        assert!(rt; faults.is_right, "call {} of {line}", faults.calls);
        count = count.saturating_add(1);
    }
    assert!(rt; count == 9);
    Ok(())
}

// Whether a build that can't create the map ends with the report, beside the HEX of the whole build.
fn is_hex_alone(alloc: Global, file: Fail) -> Result<bool, AllocError> {
    let (host, status) = host_at(alloc, BUILD, "a.c=void main(void){PORTB=5;}", file)?;
    let (whole, end) = host_behind(alloc, BUILD, LED, "")?;
    let is_told = status == 3 && is_line(&host.printed, "cannot write a.map");
    Ok(is_told && end == 0 && is_same_file(&host, &whole, "a.hex"))
}

#[test]
fn a_map_that_cannot_be_created_leaves_the_hex(rt: HostRuntime) -> Result<(), Failure> {
    let name = String::from_str(rt.alloc(), "a.map")?;
    assert!(rt; is_hex_alone(rt.alloc(), Fail::Create(name))?);
    Ok(())
}
