//! Runs of small images, assembled by hand, over boards, and of a compiled program whose handler clears a flag. What is wanted was
//! worked out by hand from the data sheet of the PIC16F877A (Microchip DS39582), or is what a second board of the same kind leads
//! to, which is asked beside the chip's own steps.

use crate::boards::{Manner, START, Stubborn, run_beside};
use crate::texts::image_of;
use hex_image::read_hex;
use pic_chip::{Chip, Image};
use pic_map::{Map, Tracer, read_map};
use pic_sim::{Board, ScriptBoard, SimEnd, simulate};
use pic_world::{Arrival, Cell, Event, Flag, Script, Trace};
use std::alloc::{AllocError, Global};
use std::test::Fail;

/// How a run over a board ended, the chip after it, and its events.
#[derive(Drop)]
struct Ran {
    end: SimEnd,
    chip: Chip,
    trace: Trace,
}

/// A map without objects and frames, by which main begins at 0000h and has ended at an address.
fn map_of(alloc: Global, halt: u16) -> Map {
    Map {
        main: 0,
        halt,
        objects: Vec::new(alloc),
        frames: Vec::new(alloc),
    }
}

/// Runs so many instructions from reset.
fn run(
    alloc: Global,
    image: &Image,
    map: &Map,
    board: &mut Box<dyn Board>,
    n: u16,
) -> Result<Ran, AllocError> {
    if map.objects.len() > 65_536 {
        return Err(AllocError);
    }
    let mut tracer = Tracer::new(map);
    let mut chip = Chip::reset(&START);
    let mut trace = Trace::new(alloc);
    trace.reserve(2 * n as usize + 1)?;
    let _ = tracer.at(0);
    let end = simulate(&mut chip, image, &mut tracer, board, n as u64, &mut trace);
    Ok(Ran { end, chip, trace })
}

/// How a run ended, after how many instructions, the program counter, the depth of the return stack, the byte at 20h, and how many
/// events there were.
fn shown(alloc: Global, ran: &Ran) -> Result<String, AllocError> {
    let chip = &ran.chip;
    format!(in alloc;
        "{:?} {} {} {} {} {}",
        ran.end,
        chip.index(),
        chip.pc(),
        chip.depth(),
        chip.general(0x20),
        ran.trace.len()
    )
}

/// A script board with room, which follows this input and these arrivals.
fn fed(
    alloc: Global,
    input: &[u8],
    arrivals: &[Arrival],
    room: usize,
) -> Result<ScriptBoard, AllocError> {
    let mut board = ScriptBoard::new(alloc);
    board.reserve(room)?;
    board.feed(&Script::new(
        Vec::from_slice(alloc, input)?,
        Vec::from_slice(alloc, arrivals)?,
    ))?;
    Ok(board)
}

const ARRIVALS: [Arrival; 4] = [
    Arrival {
        t: 7,
        flag: Flag::Tmr0if,
    },
    Arrival {
        t: 2,
        flag: Flag::Rbif,
    },
    Arrival {
        t: 7,
        flag: Flag::Intf,
    },
    Arrival {
        t: 7,
        flag: Flag::Adif,
    },
];

#[test]
fn a_script_board_answers_as_its_script(rt: HostRuntime) -> Result<(), Fail> {
    let mut board = fed(rt.alloc(), &[0x01, 0x02], &ARRIVALS, 3)?;
    let bytes = [board.read(5)?, board.read(5)?, board.read(5)?];
    let masks = [board.tick(6)?, board.tick(7)?, board.tick(2)?];
    assert!(rt; bytes == [0x01, 0x02, 0x00] && masks == [0, 0x206, 1]);
    board.write(6, 0xff)?;
    Ok(())
}

/// PORTA to PORTB, twice: MOVF PORTA,W; MOVWF PORTB; MOVF PORTA,W; MOVWF PORTB; GOTO 0004h.
const COPY: &str = "0=0805 1=0086 2=0805 3=0086 4=2804";

/// PORTA to PORTB, again and again: MOVF PORTA,W; MOVWF PORTB; GOTO 0000h.
const LOOP: &str = "0=0805 1=0086 2=2800";

/// It lets INTF in: MOVLW 90h, GIE and INTE; MOVWF INTCON; SLEEP. The handler reads PORTA, and then both sleep: MOVF PORTA,W;
/// MOVWF 20h; SLEEP.
const HANDLED: &str = "0=3090 1=008B 2=0063 4=0805 5=00A0 6=0063";

const PORTA: Cell = Cell::Device { address: 0x05 };

const PORTB: Cell = Cell::Device { address: 0x06 };

const COPIED: [Event; 5] = [
    Event::Read {
        cell: PORTA,
        value: 0x5a,
    },
    Event::Write {
        cell: PORTB,
        value: 0x5a,
    },
    Event::Read {
        cell: PORTA,
        value: 0x00,
    },
    Event::Write {
        cell: PORTB,
        value: 0x00,
    },
    Event::End,
];

fn is_copied(ran: &Ran) -> bool {
    if ran.end != SimEnd::Done || ran.trace.len() != 5 {
        return false;
    }
    let events = [
        ran.trace.get(0),
        ran.trace.get(1),
        ran.trace.get(2),
        ran.trace.get(3),
        ran.trace.get(4),
    ];
    events == COPIED
}

#[test]
fn a_script_board_gives_bytes_and_flags(rt: HostRuntime) -> Result<(), Fail> {
    let alloc = rt.alloc();
    let image = image_of(alloc, COPY)?;
    let map = map_of(alloc, 4);
    let mut board: Box<dyn Board> = Box::new(alloc, fed(alloc, &[0x5a], &[], 6)?)?;
    let ran = run(alloc, &image, &map, &mut board, 6)?;
    let none = run(alloc, &image, &map, &mut board, 0)?;
    let end = shown(alloc, &none)?;
    assert!(rt; is_copied(&ran) && end.as_str() == "Done 0 0 0 0 0");
    Ok(())
}

/// A run of at most nine instructions of the image that lets INTF in, which has ended at no address.
fn handled(alloc: Global, mut board: Box<dyn Board>) -> Result<String, AllocError> {
    let image = image_of(alloc, HANDLED)?;
    let ran = run(alloc, &image, &map_of(alloc, 0x1fff), &mut board, 9)?;
    shown(alloc, &ran)
}

// The same over a script board with room.
fn handled_by_script(
    alloc: Global,
    input: &[u8],
    arrivals: &[Arrival],
) -> Result<String, AllocError> {
    let board = fed(alloc, input, arrivals, 9)?;
    handled(alloc, Box::new(alloc, board)?)
}

#[test]
fn a_due_interrupt_is_taken_before_a_stop(rt: HostRuntime) -> Result<(), Fail> {
    let quiet = handled_by_script(rt.alloc(), &[], &[])?;
    assert!(rt; quiet.as_str() == "Unmodelled(2) 2 2 0 0 1", "{quiet}");
    let arrival = Arrival {
        t: 2,
        flag: Flag::Intf,
    };
    let due = handled_by_script(rt.alloc(), &[0x77], &[arrival])?;
    assert!(rt; due.as_str() == "Unmodelled(6) 4 6 1 119 2", "{due}");
    Ok(())
}

// All bits of a mask are set at each instruction. The interrupt comes before the third one, whose read is call 3.
#[test]
fn runs_go_on_by_whatever_a_board_answers(rt: HostRuntime) -> Result<(), Fail> {
    let alloc = rt.alloc();
    let refused = handled(alloc, stubborn(alloc, LOUD, 3)?)?;
    assert!(rt; refused.as_str() == "NoMemory 2 2 0 0 1", "{refused}");
    let taken = handled(alloc, stubborn(alloc, LOUD, 99)?)?;
    assert!(rt; taken.as_str() == "Unmodelled(6) 4 6 1 255 2", "{taken}");
    Ok(())
}

fn stubborn(alloc: Global, manner: Manner, refused: u64) -> Result<Box<dyn Board>, AllocError> {
    let board: Box<dyn Board> = Box::new(alloc, Stubborn::new(alloc, manner, refused))?;
    Ok(board)
}

/// All flags at each instruction, and all bits at each read.
const LOUD: Manner = Manner::Same {
    flags: 0xffff,
    byte: 0xff,
};

/// No flags, and the same byte at each read.
const STEADY: Manner = Manner::Same {
    flags: 0,
    byte: 0x3c,
};

// Whether the loop was left where this call was refused: three of its instructions make five calls, and two events.
fn leaves_whole(alloc: Global, image: &Image, map: &Map, refused: u8) -> Result<bool, AllocError> {
    let mut board = stubborn(alloc, STEADY, refused as u64)?;
    let ran = run(alloc, image, map, &mut board, 40)?;
    let part = [0u8, 0, 1, 1, 2][(refused % 5) as usize] as u16;
    let rounds = (refused / 5) as u16;
    let (index, events) = (3 * rounds + part, 2 * rounds + part);
    let wanted = format!(in alloc; "NoMemory {index} {part} 0 0 {events}")?;
    Ok(shown(alloc, &ran)?.as_str() == wanted.as_str())
}

#[test]
fn a_refusal_leaves_the_last_whole_instruction(rt: HostRuntime) -> Result<(), Fail> {
    let alloc = rt.alloc();
    let image = image_of(alloc, LOOP)?;
    let map = map_of(alloc, 0x1fff);
    for refused in 0..40u8 {
        assert!(rt; leaves_whole(alloc, &image, &map, refused)?, "{refused}");
    }
    Ok(())
}

fn is_same_chip(a: &Chip, b: &Chip) -> bool {
    for address in 0..512u16 {
        if a.general(address) != b.general(address) {
            return false;
        }
    }
    a.index() == b.index() && a.pc() == b.pc() && a.depth() == b.depth()
}

/// How a run over a board ended, and after how many instructions, where it is the one beside a second board of the same kind.
fn ended(
    alloc: Global,
    image: &Image,
    map: &Map,
    manner: Manner,
    refused: u64,
) -> Result<Option<(SimEnd, u64)>, AllocError> {
    let mut board = stubborn(alloc, manner, refused)?;
    let ran = run(alloc, image, map, &mut board, 3000)?;
    let mut wanted = Chip::reset(&START);
    let mut beside = Stubborn::new(alloc, manner, refused);
    let end = run_beside(&mut wanted, image, &mut beside, 3000);
    if ran.end == end && is_same_chip(&ran.chip, &wanted) {
        Ok(Some((end, wanted.index())))
    } else {
        Ok(None)
    }
}

/// The image and the map that were made of a text whose handler writes PORTB and clears its flag, while main waits:
/// `void interrupt h(void){PORTB=1;INTF=0;}void main(void){INTCON=0x90;for(;;);}`
const WAITS_HEX: &str = "\
:020000040000FA
:100000000A128A1117280000F800030EF9000408EC
:10001000FA000A08FB000A128A118A287B088A0063
:100020007A088400790E8300F80E780E09000A120F
:100030008A1164280A128A111A28FF3FFF3FFF3FE6
:1000C000FF3FFF3FFF3FFF3F90308B000A128A1136
:1000D00066281A28FF3FFF3FFF3FFF3FFF3FFF3FDC
:10011000FF3FFF3F01300313831286008B100A124A
:100120008A110E28FF3FFF3FFF3FFF3FFF3FFF3F8A
:00000001FF
";

const WAITS_MAP: &str = "\
picc map 1
main 0064
halt 001A
frame main main 0020 3
frame isr h 0023 3
end
";

#[test]
fn any_board_leads_where_its_answers_lead(rt: HostRuntime) -> Result<(), Fail> {
    let alloc = rt.alloc();
    let image = read_hex(alloc, WAITS_HEX.as_bytes())?;
    let map = read_map(alloc, WAITS_MAP.as_bytes())?;
    let loud = ended(alloc, &image, &map, LOUD, u64::MAX)?;
    let counting = ended(alloc, &image, &map, Manner::Counting, u64::MAX)?;
    let whole = Some((SimEnd::Done, 3000));
    assert!(rt; loud == whole && counting == whole);
    let mut before = 0;
    for refused in 0..=200u8 {
        match ended(alloc, &image, &map, LOUD, refused as u64)? {
            // Each call is one of at most three of an instruction.
            Some((SimEnd::NoMemory, index)) => {
                assert!(rt; index >= before && index <= refused as u64);
                before = index;
            }
            _ => assert!(rt; false, "{refused}"),
        }
    }
    Ok(())
}
