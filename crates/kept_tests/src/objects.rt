//! Which static objects of a text are kept.

use c_check::{Typed, check};
use c_parse::{let_go, mark, parse};
use c_pre::tokens;
use c_token::raw;
use std::alloc::Global;
use std::process::Abort;
use std::test::Fail;
use vol_opt::kept;

/// The longest text of the cases, in bytes.
const LONGEST: usize = 4096;

/// The typed tree of a text.
fn typed(alloc: Global, text: &[u8]) -> Result<Typed, Fail> {
    if text.len() > LONGEST {
        return Err(Fail::new("a text that is too long"));
    }
    let raw = raw(alloc, text)?;
    let toks = tokens(alloc, text, &raw)?;
    let toks = mark(alloc, text, &toks)?;
    let unit = parse(alloc, text, &toks)?;
    let typed = check(alloc, &unit);
    let_go(unit);
    Ok(typed?)
}

/// A digit for each static object of a text, in order of declaration: 1 where it is kept.
fn answer(alloc: Global, text: &[u8]) -> Result<String, Fail> {
    let tree = typed(alloc, text)?;
    let found = kept(alloc, &tree)?;
    let mut out = String::new(alloc);
    for is_kept in &found.objects {
        out.push(if *is_kept { '1' } else { '0' })?;
    }
    Ok(out)
}

/// Asserts that this is kept of a text.
fn says(rt: &impl Abort, alloc: Global, wanted: &str, text: &[u8]) -> Result<(), Fail> {
    let said = answer(alloc, text)?;
    assert!(rt; said.as_str() == wanted, "{wanted}: {said}");
    Ok(())
}

fn row(rt: &impl Abort, alloc: Global, line: &str) -> Result<(), Fail> {
    let Some((wanted, text)) = line.split_once(" => ") else {
        return Err(Fail::new("a line without an answer"));
    };
    says(rt, alloc, wanted, text.as_bytes())
}

/// Asserts that each line of a table says what is kept of the text behind it, and counts the lines.
fn checked(rt: &impl Abort, alloc: Global, table: &str) -> Result<usize, Fail> {
    let mut count: usize = 0;
    for line in table.lines() {
        row(rt, alloc, line)?;
        count = count.wrapping_add(1);
    }
    Ok(count)
}

// Volatile objects, members and elements; a pointer to one; names in the handler and below it; addresses, those of a member and of an
// array that is indexed, in a function that nothing calls and in a first value; what only `sizeof` names; objects that main alone names.
const CASES: &str = r#"0 => unsigned char x;void main(void){x=1;x=2;PORTB=x;}
1 => volatile unsigned char v;void main(void){v=1;v=2;}
1 => void main(void){static volatile unsigned char s;s=1;}
0 => volatile unsigned char *p;void main(void){p=0;}
1 => unsigned char *volatile p;void main(void){p=0;}
1 => struct s{unsigned char a;volatile unsigned char b;}x;void main(void){x.a=1;}
10 => struct s{volatile unsigned char b;};struct t{unsigned char a;struct s m[2];};struct t x[2];struct u{unsigned char a;}y;void main(void){y.a=1;}
0 => struct s{volatile unsigned char *b;}x;void main(void){x.b=0;}
1101 => unsigned char a,b,c,d;void f(void){b=1;}void interrupt h(void){a=d;f();}void main(void){c=1;}
00 => unsigned char b,c;void f(void){b=1;}void main(void){c=1;f();}
01 => unsigned char *p,x;void main(void){p=&x;*p=1;}
10 => unsigned char a[4],x;void main(void){x=a[2];}
100 => struct s{unsigned char m;}x,y,z;void main(void){unsigned char *p;p=&x.m;y.m=1;z=y;}
1 => unsigned char x;void f(void){&x;}void main(void){}
10 => unsigned char x;unsigned char *p=&x;void main(void){}
00 => unsigned char x,a[4];void main(void){PORTB=sizeof x;PORTB=sizeof a;}"#;

#[test]
fn what_is_kept_was_worked_out_by_hand(rt: HostRuntime) -> Result<(), Fail> {
    assert_eq!(rt; checked(&rt, rt.alloc(), CASES)?, 16);
    Ok(())
}
