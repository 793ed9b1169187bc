//! Runs of small images over boards on the second chip, assembled by hand. What is wanted was worked out by hand from the data sheet
//! of the PIC16F84A (Microchip DS35007), and from the choices that the documents of this project name.

use crate::boards::{Manner, Stubborn};
use crate::texts::image_of;
use chip_84a::{Chip84, Start84, simulate84};
use pic_map::{Map, ObjLine, Tracer};
use pic_sim::{Board, SimEnd};
use pic_world::{Cell, Event, Trace};
use std::alloc::{AllocError, Global};
use std::test::Fail;

/// How a run over a board ended, the chip after it, and its events.
#[derive(Drop)]
struct Ran {
    end: SimEnd,
    chip: Chip84,
    trace: Trace,
}

/// After power-on all that is unknown is 0 here.
const START: Start84 = Start84 {
    w: 0,
    fsr: 0,
    flags: 0,
    ram: [0; 68],
};

/// A map by which main begins at 0000h and has ended at an address, and of one object, which covers 0Ch to 3Bh.
fn map_of(alloc: Global, halt: u16) -> Result<Map, AllocError> {
    let mut objects = Vec::new(alloc);
    objects.push(ObjLine {
        fixed: false,
        name: Vec::from_slice(alloc, b"a")?,
        address: 0x0c,
        size: 0x30,
    })?;
    Ok(Map {
        main: 0,
        halt,
        objects,
        frames: Vec::new(alloc),
    })
}

/// Runs so many instructions of these words from reset. Main has ended at an address. The board refuses the call of one number.
fn run(
    alloc: Global,
    words: &str,
    halt: u16,
    manner: Manner,
    refused: u64,
    n: u16,
) -> Result<Ran, AllocError> {
    let image = image_of(alloc, words)?;
    let map = map_of(alloc, halt)?;
    if map.objects.len() > 65_536 {
        return Err(AllocError);
    }
    let mut tracer = Tracer::new(&map);
    let mut chip = Chip84::reset(&START);
    let mut trace = Trace::new(alloc);
    trace.reserve(2 * n as usize + 1)?;
    let _ = tracer.at(0);
    let mut board: Box<dyn Board> = Box::new(alloc, Stubborn::new(alloc, manner, refused))?;
    let end = simulate84(
        &mut chip,
        &image,
        &mut tracer,
        &mut board,
        n as u64,
        &mut trace,
    );
    Ok(Ran { end, chip, trace })
}

/// How a run ended, after how many instructions, the program counter, the depth of the return stack, and the bytes at 0Ch and 20h.
fn shown(alloc: Global, ran: &Ran) -> Result<String, AllocError> {
    let chip = &ran.chip;
    format!(in alloc;
        "{:?} {} {} {} {} {}",
        ran.end,
        chip.index(),
        chip.pc(),
        chip.depth(),
        chip.general(0x0c),
        chip.general(0x20)
    )
}

fn is_traced(trace: &Trace, wanted: &[Event]) -> bool {
    if trace.len() != wanted.len() {
        return false;
    }
    for i in 0..wanted.len() {
        if trace.get(i) != wanted[i] {
            return false;
        }
    }
    true
}

fn written(cell: Cell, value: u8) -> Event {
    Event::Write { cell, value }
}

fn byte_of_object(offset: u16) -> Cell {
    Cell::Static { object: 0, offset }
}

/// No flags, and the same byte at each read.
const STEADY: Manner = Manner::Same {
    flags: 0,
    byte: 0x3c,
};

/// PORTB=5, and the byte once more at 0Ch: MOVLW 5; BSF STATUS,5; CLRF TRISB; BCF STATUS,5; MOVWF PORTB; MOVWF 0Ch; GOTO 0006h.
const PORTB_5: &str = "0=3005 1=1683 2=0186 3=1283 4=0086 5=008C 6=2806";

// The board is asked once for each of the six instructions, and told of TRISB and of PORTB: eight calls, the ninth would be refused.
// The byte at 0Ch is no event, although the object covers it, and no device register, as PIR1 is on the first chip.
#[test]
fn a_port_is_written(rt: HostRuntime) -> Result<(), Fail> {
    let alloc = rt.alloc();
    let ran = run(alloc, PORTB_5, 6, STEADY, 8, 6)?;
    let end = shown(alloc, &ran)?;
    assert!(rt; end.as_str() == "Done 6 6 0 5 0", "{end}");
    let trisb = written(Cell::Device { address: 0x86 }, 0);
    let portb = written(Cell::Device { address: 0x06 }, 5);
    assert!(rt; is_traced(&ran.trace, &[trisb, portb, Event::End]));
    Ok(())
}

/// MOVF PORTA,W; MOVWF 19h; MOVWF 20h; BSF STATUS,5; MOVWF 21h, which is A1h there; MOVF 19h,W; GOTO 0006h. 19h is TXREG and 99h is
/// SPBRG on the first chip.
const BYTES: &str = "0=0805 1=0099 2=00A0 3=1683 4=00A1 5=0819 6=2806";

// Six instructions and one read: seven calls. 20h and A1h are the bytes 20 and 21 of the object, and A1h is told as 21h.
#[test]
fn bytes_are_told_from_20h_on(rt: HostRuntime) -> Result<(), Fail> {
    let alloc = rt.alloc();
    let ran = run(alloc, BYTES, 6, STEADY, 7, 6)?;
    let end = shown(alloc, &ran)?;
    assert!(rt;
        end.as_str() == "Done 6 6 0 0 60" && ran.chip.general(0x19) == 0x3c,
        "{end}"
    );
    let porta = Event::Read {
        cell: Cell::Device { address: 0x05 },
        value: 0x3c,
    };
    let two = [
        written(byte_of_object(20), 0x3c),
        written(byte_of_object(21), 0x3c),
    ];
    assert!(rt; is_traced(&ran.trace, &[porta, two[0], two[1], Event::End]));
    Ok(())
}

// The seventh call, counted from 0 as the sixth, is for the flags of the last instruction.
#[test]
fn a_refusal_leaves_the_last_whole_instruction_of_the_second_chip(
    rt: HostRuntime,
) -> Result<(), Fail> {
    let alloc = rt.alloc();
    let ran = run(alloc, BYTES, 6, STEADY, 6, 6)?;
    let end = shown(alloc, &ran)?;
    assert!(rt;
        end.as_str() == "NoMemory 5 5 0 0 60" && ran.trace.len() == 3,
        "{end}"
    );
    Ok(())
}

/// BSF STATUS,5; MOVLW FFh; MOVWF 8Ch, PIE1 on the first chip and the byte 0Ch here; MOVLW D0h, GIE, PEIE and INTE; MOVWF INTCON;
/// MOVLW 1; SLEEP.
const ENABLED: &str = "0=1683 1=30FF 2=008C 3=30D0 4=008B 5=3001 6=0063";

// Of a mask bits 0 to 2 count: a flag of PIR1 lets nothing in. INTF does behind the write of INTCON, which goes to MOVWF INTCON, at
// 0004h, again, with GIE, INTE and no flag; so it is taken before each further instruction.
#[test]
fn flags_of_pir1_count_for_nothing(rt: HostRuntime) -> Result<(), Fail> {
    let alloc = rt.alloc();
    let flags_of_pir1 = Manner::Same {
        flags: 0x07f8,
        byte: 0,
    };
    let quiet = run(alloc, ENABLED, 0x1fff, flags_of_pir1, u64::MAX, 9)?;
    let end = shown(alloc, &quiet)?;
    assert!(rt; end.as_str() == "Unmodelled(6) 6 6 0 255 0", "{end}");
    let intf = Manner::Same {
        flags: 0x0002,
        byte: 0,
    };
    let taken = run(alloc, ENABLED, 0x1fff, intf, u64::MAX, 9)?;
    let end = shown(alloc, &taken)?;
    assert!(rt; end.as_str() == "Done 9 5 4 255 0", "{end}");
    Ok(())
}
