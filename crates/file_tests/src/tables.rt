//! Words and names of the data sheet DS39582, scripts in any order, and a trace.

use crate::texts::number;
use pic_isa::{Ins, decode, encode};
use pic_world::{Arrival, Cell, Event, Flag, Script, Trace, bit, register, register_name};
use std::alloc::{AllocError, Global};
use std::test::Fail;

/// Words, and what they are.
const WORDS: &str = "\
0000 Some(Nop)
0060 Some(Nop)
0008 Some(Return)
0063 Some(Sleep)
00A0 Some(Movwf { f: 32 })
017F Some(Clrw)
0183 Some(Clrf { f: 3 })
07F1 Some(Addwf { f: 113, d: true })
0820 Some(Movf { f: 32, d: false })
1683 Some(Bsf { f: 3, b: 5 })
1F0B Some(Btfss { f: 11, b: 6 })
2123 Some(Call { k: 291 })
2805 Some(Goto { k: 5 })
30FF Some(Movlw { k: 255 })
33FF Some(Movlw { k: 255 })
3A0F Some(Xorlw { k: 15 })
3DFF Some(Sublw { k: 255 })
0001 None
000A None
0062 None
0065 None
3B00 None
3BFF None
";

// Whether the word of a line is what the line says.
fn is_decoded(alloc: Global, line: &str) -> Result<bool, AllocError> {
    let (word, wanted) = line.split_once(' ').unwrap_or((line, ""));
    let shown = format!(in alloc; "{:?}", decode(number(word) & 0x3fff))?;
    Ok(shown.as_str() == wanted)
}

#[test]
fn words_of_the_data_sheet(rt: HostRuntime) -> Result<(), Fail> {
    let mut count: u32 = 0;
    for line in WORDS.lines() {
        assert!(rt; is_decoded(rt.alloc(), line)?, "{line}");
        count = count.saturating_add(1);
    }
    let words = [
        encode(Ins::Addwf { f: 0x71, d: true }),
        encode(Ins::Bsf { f: 3, b: 5 }),
        encode(Ins::Goto { k: 5 }),
        encode(Ins::Movlw { k: 0xff }),
    ];
    assert!(rt; count == 23 && words == [0x07f1, 0x1683, 0x2805, 0x30ff]);
    Ok(())
}

/// Registers by name, bits by name, and names by address.
const NAMES: &str = "\
register PORTB Some(6)
register TMR0 Some(1)
register OPTION_REG Some(129)
register INTCON Some(11)
register ADCON1 Some(159)
register PCLATH None
register porta None
register  None
bit RE2 Some((9, 2))
bit RE3 None
bit TRISA5 Some((133, 5))
bit GIE Some((11, 7))
bit T0IE Some((11, 5))
bit TMR0IF Some((11, 2))
bit PSPIE Some((140, 7))
bit TMR2ON Some((18, 2))
name 6 Some(\"PORTB\")
name 159 Some(\"ADCON1\")
name 3 None
name 139 None
";

// What is at a name, or which name is at an address.
fn shown(alloc: Global, kind: &str, name: &str) -> Result<String, AllocError> {
    match kind {
        "register" => format!(in alloc; "{:?}", register(name.as_bytes())),
        "bit" => format!(in alloc; "{:?}", bit(name.as_bytes())),
        _ => match name.parse() {
            Ok(address) => format!(in alloc; "{:?}", register_name(address)),
            Err(_) => String::from_str(alloc, "no address"),
        },
    }
}

fn is_named(alloc: Global, line: &str) -> Result<bool, AllocError> {
    let (kind, rest) = line.split_once(' ').unwrap_or((line, ""));
    let (name, wanted) = rest.split_once(' ').unwrap_or((rest, ""));
    Ok(shown(alloc, kind, name)?.as_str() == wanted)
}

#[test]
fn registers_and_bits_by_name(rt: HostRuntime) -> Result<(), Fail> {
    let mut count: u32 = 0;
    for line in NAMES.lines() {
        assert!(rt; is_named(rt.alloc(), line)?, "{line}");
        count = count.saturating_add(1);
    }
    assert!(rt; count == 20);
    Ok(())
}

/// Arrivals that are in no order.
const ARRIVALS: [Arrival; 4] = [
    Arrival {
        t: 7,
        flag: Flag::Pspif,
    },
    Arrival {
        t: 2,
        flag: Flag::Rbif,
    },
    Arrival {
        t: 7,
        flag: Flag::Tmr0if,
    },
    Arrival {
        t: 0,
        flag: Flag::Adif,
    },
];

#[test]
fn arrivals_are_put_in_order(rt: HostRuntime) -> Result<(), Fail> {
    let arrivals = Vec::from_slice(rt.alloc(), &ARRIVALS)?;
    let script = Script::new(Vec::new(rt.alloc()), arrivals);
    let begins = match script.arrivals.first() {
        Some(first) => first.t == 0,
        None => false,
    };
    let masks = [
        script.mask_at(0),
        script.mask_at(1),
        script.mask_at(2),
        script.mask_at(7),
        script.mask_at(8),
    ];
    assert!(rt; begins && masks == [0x200, 0, 1, 0x404, 0]);
    Ok(())
}

#[test]
fn a_trace_keeps_its_events(rt: HostRuntime) -> Result<(), Fail> {
    let write = Event::Write {
        cell: Cell::Device { address: 0x06 },
        value: 0x05,
    };
    let mut trace = Trace::new(rt.alloc());
    let before = trace.len();
    trace.reserve(2)?;
    trace.push(write);
    trace.push(Event::End);
    let events = [trace.get(0), trace.get(1)];
    assert!(rt; before == 0 && trace.len() == 2 && events == [write, Event::End]);
    Ok(())
}
