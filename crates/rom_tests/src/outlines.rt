//! What the pass makes of short texts.

use c_check::{Typed, check};
use c_parse::{let_go, mark, parse};
use c_pre::tokens;
use c_token::{LexError, raw};
use rom_tables::{Outlined, outline};
use std::alloc::Global;
use std::test::Fail;

const LONGEST: usize = 262_144;

// The outlined program of a text; a longer one than any case is taken for one without memory.
fn outlined(alloc: Global, text: &[u8]) -> Result<Outlined, Fail> {
    if text.len() > LONGEST {
        return Err(Fail::from(LexError::NoMemory));
    }
    let raw = raw(alloc, text)?;
    let toks = tokens(alloc, text, &raw)?;
    let toks = mark(alloc, text, &toks)?;
    let unit = parse(alloc, text, &toks)?;
    let typed = check(alloc, &unit);
    let_go(unit);
    let typed: Typed = typed?;
    Ok(outline(alloc, &typed)?)
}

// How many nodes it has, the number of each table and its reader, and the names of the functions.
fn shown(alloc: Global, text: &[u8]) -> Result<String, Fail> {
    let made = outlined(alloc, text)?;
    let nodes = made.typed.nodes();
    let mut line = format!(in alloc; "{nodes}")?;
    for (table, reader) in made.tables.iter().zip(&made.readers) {
        line.push_str(&format!(in alloc; " {table}:{reader}")?)?;
    }
    for function in &made.typed.functions {
        line.push_str(" ")?;
        match std::str::from_utf8(&function.name) {
            Ok(name) => line.push_str(name)?,
            Err(_) => line.push_str("?")?,
        }
    }
    Ok(line)
}

// Of a read of a table by a constant five nodes go, and a call and a conversion come; a reader has nine.
const OUTLINES: &str = r#"1 main => void main(void){}
16 0:1 main $rom.t => const unsigned char t[2]={7,9};void main(void){PORTB=t[1];}
10 0:1 main $rom.t => const char t[2]={7,9};void main(void){}
10 main => unsigned char t[2]={7,9};void main(void){PORTB=t[1];}
1 main => const unsigned char t[2][1]={{7},{9}};void main(void){}
28 0:1 2:2 main $rom.t $rom.u => const unsigned char t[2]={7,9},s=3,u[2]={1,0};void main(void){PORTB=t[u[s]];}"#;

#[test]
fn reads_become_calls(rt: HostRuntime) -> Result<(), Fail> {
    let mut count: u32 = 0;
    for line in OUTLINES.lines() {
        let Some((wanted, text)) = line.split_once(" => ") else {
            return Err(Fail::new("no arrow"));
        };
        let found = shown(rt.alloc(), text.as_bytes())?;
        assert!(rt; found.as_str() == wanted, "{text}: {found}");
        count = count.saturating_add(1);
    }
    assert!(rt; count == 6);
    Ok(())
}
