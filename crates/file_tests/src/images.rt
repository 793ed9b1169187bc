//! Small images, assembled by hand, run by the chip's steps. What is wanted was worked out by hand from the data sheet of
//! the PIC16F877A (Microchip DS39582).

use crate::texts::number;
use pic_chip::{Access, Accesses, Chip, Image, Start, StepEnd};
use pic_world::Script;
use schedule::read_script;
use std::alloc::Global;
use std::test::Fail;

/// What is done, and what is there then, line by line, in hexadecimal numbers. `image` is an erased one, `script` an empty script,
/// to which `input` and `at` add lines of a script file. `start` is power-on with these bytes in W and FSR and all that is unknown
/// 0; `run` does so many instructions, `step` one with this read and this write, `stops` none, at a word that is not modelled;
/// `begin` brings flags from outside the script. `is` is the program counter and the depth of the return stack, `index` how many
/// instructions were done, `byte` a general byte, and `wants` the register of which the next instruction takes an input byte.
/// Any other line is a word at its address.
const LINES: &str = "\
image 12F0h + 0123h in two bytes.
0000 30F0 MOVLW F0h
0001 00A0 MOVWF 20h
0002 3012 MOVLW 12h
0003 00A1 MOVWF 21h
0004 3023 MOVLW 23h
0005 07A0 ADDWF 20h,F: 113h, a carry
0006 3001 MOVLW 01h
0007 1803 BTFSC STATUS,0: the carry is set, no skip
0008 3E01 ADDLW 1
0009 07A1 ADDWF 21h,F: 14h, no carry of either kind
000A 0803 MOVF STATUS,W
000B 00A2 MOVWF 22h
script a sum
start 00 00
run C
is 000C 0
byte 020 13
byte 021 14
byte 022 18
image STATUS after sums and differences.
0000 3028 MOVLW 28h
0001 3E19 ADDLW 19h: 41h, the digit carry
0002 0803 MOVF STATUS,W
0003 00A0 MOVWF 20h
0004 3071 MOVLW 71h
0005 3E8F ADDLW 8Fh: 100h, both carries and zero
0006 0803 MOVF STATUS,W
0007 00A1 MOVWF 21h
0008 3020 MOVLW 20h
0009 3C10 SUBLW 10h: 10h - 20h, a borrow, and none of the low digit
000A 00A3 MOVWF 23h
000B 0803 MOVF STATUS,W
000C 00A2 MOVWF 22h
000D 3005 MOVLW 05h
000E 3C05 SUBLW 05h: zero, no borrow of either kind
000F 0803 MOVF STATUS,W
0010 00A4 MOVWF 24h
script flags
start 00 00
run 11
is 0011 0
byte 020 1A
byte 021 1F
byte 022 1A
byte 023 F0
byte 024 1F
image Skips that are taken and others; 21h counts what wasn't skipped.
0000 3002 MOVLW 02h
0001 00A0 MOVWF 20h
0002 0BA0 DECFSZ 20h,F: 1, no skip
0003 0AA1 INCF 21h,F
0004 0BA0 DECFSZ 20h,F: 0, a skip
0005 0AA1 INCF 21h,F
0006 30FF MOVLW FFh
0007 00A2 MOVWF 22h
0008 0FA2 INCFSZ 22h,F: 0, a skip
0009 0AA1 INCF 21h,F
000A 17A3 BSF 23h,7
000B 1FA3 BTFSS 23h,7: a skip
000C 0AA1 INCF 21h,F
000D 1BA3 BTFSC 23h,7: no skip
000E 0AA1 INCF 21h,F
000F 1823 BTFSC 23h,0: a skip
0010 0AA1 INCF 21h,F
script skips
start 00 00
run D
is 0011 0
byte 020 00
byte 021 02
byte 022 00
byte 023 80
image Bytes that FSR and IRP name.
0000 3010 MOVLW 10h
0001 0084 MOVWF FSR
0002 1783 BSF STATUS,7: IRP, so INDF is 110h
0003 305A MOVLW 5Ah
0004 0080 MOVWF INDF
0005 0A84 INCF FSR,F
0006 0080 MOVWF INDF: 111h
0007 0A80 INCF INDF,F
0008 1383 BCF STATUS,7
0009 3020 MOVLW 20h
000A 0084 MOVWF FSR
000B 0080 MOVWF INDF: 20h
000C 30F0 MOVLW F0h
000D 0084 MOVWF FSR
000E 0080 MOVWF INDF: F0h, which is 70h in each bank
script indirect accesses
start 00 00
run F
is 000F 0
byte 110 5A
byte 111 5B
byte 020 20
byte 070 F0
byte 0F0 F0
byte 1F0 F0
image Jumps by a write of PCL and by GOTO, with the upper bits from PCLATH.
0000 3003 MOVLW 03h
0001 008A MOVWF PCLATH
0002 3040 MOVLW 40h
0003 0082 MOVWF PCL: to 340h
0340 3077 MOVLW 77h
0341 00A0 MOVWF 20h
0342 018A CLRF PCLATH
0343 280A GOTO 00Ah
000A 0802 MOVF PCL,W: the low byte of 00Bh
000B 00A1 MOVWF 21h
000C 3008 MOVLW 08h
000D 008A MOVWF PCLATH
000E 2805 GOTO 005h of page 1
0805 3033 MOVLW 33h
0806 00A2 MOVWF 22h
script jumps
start 00 00
run F
is 0807 0
byte 020 77
byte 021 0B
byte 022 33
image Nine calls in one another, and returns after each of them.
0000 2010 CALL 10h
0010 2020 CALL 20h
0011 0008 RETURN
0020 2030 CALL 30h
0021 0008 RETURN
0030 2040 CALL 40h
0031 0008 RETURN
0040 2050 CALL 50h
0041 0008 RETURN
0050 2060 CALL 60h
0051 0008 RETURN
0060 2070 CALL 70h
0061 0008 RETURN
0070 2080 CALL 80h
0071 0008 RETURN
0080 2090 CALL 90h: its push overwrites the first
0081 0008 RETURN
0090 0008 RETURN
script nine calls
start 00 00
run 9
is 0090 9
script eight returns
start 00 00
run 11
is 0011 1
script a ninth return
start 00 00
run 12
is 0081 0
image A handler that counts in 20h, and a main that enables it.
0000 2810 GOTO 10h
0004 0AA0 INCF 20h,F
0005 108B BCF INTCON,1: INTF
0006 0009 RETFIE
0010 3090 MOVLW 90h: GIE and INTE
0011 008B MOVWF INTCON
0012 0000 NOP
0013 0AA1 INCF 21h,F
0014 2814 GOTO 14h
script an interrupt
at 3 INTF
start 00 00
run 4
is 0005 1
byte 020 01
byte 021 00
script a return from it
at 3 INTF
start 00 00
run 8
is 0014 0
byte 020 01
byte 021 01
script a flag alone
at 3 RBIF
start 00 00
run 5
is 0014 0
byte 020 00
byte 021 01
image A handler that counts in 70h, and a main that enables timer 1.
0000 2810 GOTO 10h
0004 0AF0 INCF 70h,F
0005 100C BCF PIR1,0: TMR1IF
0006 0009 RETFIE
0010 1683 BSF STATUS,5
0011 140C BSF PIE1,0: TMR1IE
0012 1283 BCF STATUS,5
0013 30C0 MOVLW C0h: GIE and PEIE
0014 008B MOVWF INTCON
0015 080C MOVF PIR1,W
0016 00F1 MOVWF 71h
0017 2817 GOTO 17h
script a timer
at 6 TMR1IF
start 00 00
run 7
is 0005 1
byte 070 01
script a return from the timer
at 6 TMR1IF
start 00 00
run B
is 0017 0
byte 070 01
byte 071 00
script the other timer
at 6 TMR2IF
start 00 00
run 8
is 0017 0
byte 070 00
byte 071 02
image Each kind of access.
0000 0080 MOVWF INDF: A0h, the byte that FSR names
0001 3E98 ADDLW 98h: 90h + 98h = 128h
0002 00A0 MOVWF 20h
0003 0806 MOVF PORTB,W
0004 1683 BSF STATUS,5
0005 0086 MOVWF TRISB
0006 2009 CALL 9
0007 0063 SLEEP
0009 0008 RETURN
script one input byte
input 5A
start 90 A0
wants none
step none A0=90
byte 0A0 90
step none none
step none 20=28
wants 06
step 06=5A none
step 03=19 03=39
step none 86=5A
step none none
is 0009 1
step none none
is 0007 0
stops 0007
is 0007 0
index 8
image An interrupt is taken between two instructions.
0000 008B MOVWF INTCON: 90h, GIE and INTE
0001 0000 NOP
0002 0001 no instruction
0004 0009 RETFIE
script a flag that is not enabled, and one that is
at 1 RBIF
at 2 INTF
start 90 A0
step none 0B=90
step none none
is 0002 0
begin 0002
is 0004 1
index 2
start 90 A0
step none 0B=90
step none none
step none none
is 0002 0
index 3
image A peripheral comes through its enable bits.
0000 1683 BSF STATUS,5
0001 140C BSF PIE1,0
0002 1283 BCF STATUS,5
0003 30C0 MOVLW C0h: GIE and PEIE
0004 008B MOVWF INTCON
0005 080C MOVF PIR1,W
script enabled
start 90 A0
run 5
begin 0010
is 0005 0
begin 0008
is 0004 1
0003 3080 MOVLW 80h: GIE alone
start 90 A0
run 5
begin 0008
is 0005 0
wants none
step 0C=01 none
0003 3040 MOVLW 40h: PEIE alone
start 90 A0
run 5
begin 0008
is 0005 0
";

/// A chip with what it runs, and the lines of its script.
#[derive(Drop)]
struct Bench {
    image: Image,
    lines: String,
    script: Script,
    chip: Chip,
}

fn powered(w: u8, fsr: u8) -> Chip {
    Chip::reset(&Start {
        w,
        fsr,
        flags: 0,
        ram: [0; 368],
    })
}

fn byte_of(text: &str) -> u8 {
    u8::from_str_radix(text, 16).unwrap_or(u8::MAX)
}

// An access as its address and its value, as `A0=90`.
fn access(text: &str) -> Option<Access> {
    let (address, value) = text.split_once('=')?;
    Some(Access {
        address: number(address),
        value: byte_of(value),
    })
}

impl Bench {
    fn new(alloc: Global) -> Result<Bench, Fail> {
        Ok(Bench {
            image: Image::blank(alloc)?,
            lines: String::new(alloc),
            script: Script::new(Vec::new(alloc), Vec::new(alloc)),
            chip: powered(0, 0),
        })
    }

    fn put_word(&mut self, at: u16, word: u16) {
        if at < 0x2000 && word < 0x4000 {
            self.image.set(at, word);
        }
    }

    fn add_to_script(&mut self, alloc: Global, line: &str) -> Result<(), Fail> {
        if self.lines.len() < 1000 && line.len() < 1000 {
            self.lines.push_str(line)?;
            self.lines.push_str("\n")?;
            self.script = read_script(alloc, self.lines.as_bytes())?;
        }
        Ok(())
    }

    fn step(&mut self) -> StepEnd {
        if self.chip.index() < 1000 {
            self.chip.step(&self.image, &self.script)
        } else {
            StepEnd::Unmodelled(0)
        }
    }

    /// Whether so many instructions were done.
    fn run(&mut self, count: u16) -> bool {
        for _ in 0..count {
            if let StepEnd::Unmodelled(_) = self.step() {
                return false;
            }
        }
        true
    }

    fn byte(&self, address: u16) -> u8 {
        if address < 0x200 {
            self.chip.general(address)
        } else {
            0
        }
    }

    /// What a line does to the bench.
    fn act(
        &mut self,
        alloc: Global,
        line: &str,
        key: &str,
        first: &str,
        second: &str,
    ) -> Result<(), Fail> {
        match key {
            "image" => self.image = Image::blank(alloc)?,
            "script" => {
                self.lines = String::new(alloc);
                self.script = Script::new(Vec::new(alloc), Vec::new(alloc));
            }
            "input" | "at" => self.add_to_script(alloc, line)?,
            "start" => self.chip = powered(byte_of(first), byte_of(second)),
            "begin" => self.chip.begin(number(first)),
            _ => self.put_word(number(key), number(first)),
        }
        Ok(())
    }

    /// Whether it is so what a line says, if it says anything.
    fn holds(&mut self, key: &str, first: &str, second: &str) -> Option<bool> {
        Some(match key {
            "run" => self.run(number(first)),
            "step" => self.step()
                == StepEnd::Done(Accesses {
                    read: access(first),
                    write: access(second),
                }),
            "stops" => self.step() == StepEnd::Unmodelled(number(first)),
            "is" => self.chip.pc() == number(first) && self.chip.depth() == number(second) as i64,
            "index" => self.chip.index() == number(first) as u64,
            "byte" => self.byte(number(first)) == byte_of(second),
            "wants" => self.chip.wants(&self.image) == u8::from_str_radix(first, 16).ok(),
            _ => return None,
        })
    }
}

#[test]
fn small_images_run_as_the_data_sheet_says(rt: HostRuntime) -> Result<(), Fail> {
    let mut bench = Bench::new(rt.alloc())?;
    let mut checks: u32 = 0;
    for (number, line) in LINES.lines().enumerate() {
        let (key, rest) = line.split_once(' ').unwrap_or((line, ""));
        let (first, rest) = rest.split_once(' ').unwrap_or((rest, ""));
        match bench.holds(key, first, rest) {
            Some(holds) => {
                assert!(rt; holds, "line {number}: {line}");
                checks = checks.saturating_add(1);
            }
            None => bench.act(rt.alloc(), line, key, first, rest)?,
        }
    }
    assert!(rt; checks == 95);
    Ok(())
}
