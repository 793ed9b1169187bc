//! The routines on a small machine, and the words that they take.

use crate::reading::{cut, find};
use c_ints::{BinOp, IntTy};
use c_typed::{Helper, int_helper};
use core_code::Byte;
use math_helpers::helper;
use pic_world::Root;
use std::test::Fail;
use sym_code::{
    BitOperation, BlockName, FileOperation, Into, Literal, Operand, PlainOperation, Register, Sym,
    Target,
};

/// W, the flags, a frame of 16 bytes and the result bytes. A byte that isn't one of these reads 0.
#[derive(Clone, Copy, Drop)]
struct Machine {
    w: u8,
    carry: bool,
    zero: bool,
    frame: [u8; 16],
    answer: [u8; 4],
}

impl Machine {
    fn read(&self, operand: Operand) -> u8 {
        match operand {
            Operand::Byte(Byte::Frame { offset, .. }) if offset < 16 => self.frame[usize::from(
                offset,
            )],
            Operand::Byte(Byte::Result { k, .. }) if k < 4 => self.answer[usize::from(k)],
            Operand::Register(Register::Status) => u8::from(self.carry) + 4 * u8::from(self.zero),
            _ => 0,
        }
    }

    fn write(&mut self, operand: Operand, value: u8) {
        match operand {
            Operand::Byte(Byte::Frame { offset, .. }) if offset < 16 => self.frame[usize::from(
                offset,
            )] = value,
            Operand::Byte(Byte::Result { k, .. }) if k < 4 => self.answer[usize::from(k)] = value,
            _ => {}
        }
    }

    // What a row gives of the byte that it reads, with the flags that it sets.
    fn row(&mut self, op: FileOperation, byte: u8) -> u8 {
        let old_carry = u8::from(self.carry);
        let value = match op {
            FileOperation::Addwf => {
                self.carry = u16::from(byte) + u16::from(self.w) > 255;
                byte.wrapping_add(self.w)
            }
            FileOperation::Subwf => {
                self.carry = byte >= self.w;
                byte.wrapping_sub(self.w)
            }
            FileOperation::Rlf => {
                self.carry = byte >= 128;
                byte.wrapping_mul(2) | old_carry
            }
            FileOperation::Rrf => {
                self.carry = byte % 2 == 1;
                byte / 2 | old_carry << 7
            }
            FileOperation::Comf => 255 - byte,
            FileOperation::Decf | FileOperation::Decfsz => byte.wrapping_sub(1),
            FileOperation::Incf | FileOperation::Incfsz => byte.wrapping_add(1),
            FileOperation::Andwf => byte & self.w,
            FileOperation::Iorwf => byte | self.w,
            FileOperation::Xorwf => byte ^ self.w,
            FileOperation::Movf => byte,
            FileOperation::Swapf => byte / 16 + byte % 16 * 16,
        };
        if !is_silent(op) {
            self.zero = value == 0;
        }
        value
    }

    // One instruction; whether the next one is skipped.
    fn act(&mut self, sym: Sym) -> bool {
        match sym {
            Sym::File { op, file, into } => {
                let byte = self.read(file);
                let value = self.row(op, byte);
                match into {
                    Into::W => self.w = value,
                    Into::File => self.write(file, value),
                }
                value == 0 && (op == FileOperation::Decfsz || op == FileOperation::Incfsz)
            }
            Sym::Bit { op, file, bit } => self.act_on_bit(op, file, bit),
            Sym::Movwf(file) => {
                let w = self.w;
                self.write(file, w);
                false
            }
            Sym::Clrf(file) => {
                self.write(file, 0);
                self.zero = true;
                false
            }
            Sym::Literal {
                value: Literal::Number(n),
                ..
            } => {
                self.w = n;
                false
            }
            _ => false,
        }
    }

    // The same for one on a bit. Of bits that are written there is only C.
    fn act_on_bit(&mut self, op: BitOperation, file: Operand, bit: u8) -> bool {
        let is_set = bit < 8 && self.read(file) >> bit % 8 & 1 == 1;
        match op {
            BitOperation::Bcf => {
                self.carry = false;
                false
            }
            BitOperation::Bsf => {
                self.carry = true;
                false
            }
            BitOperation::Btfsc => !is_set,
            BitOperation::Btfss => is_set,
        }
    }
}

// The rows that leave Z as it is.
fn is_silent(op: FileOperation) -> bool {
    match op {
        FileOperation::Rlf
        | FileOperation::Rrf
        | FileOperation::Decfsz
        | FileOperation::Incfsz
        | FileOperation::Swapf => true,
        _ => false,
    }
}

// Where a label stands, or behind the end.
fn place_of(list: &[Sym], target: Target) -> usize {
    for i in 0..list.len() {
        if let (Sym::Label(here), Target::Label(label)) = (list[i], target) {
            if here == label {
                return i;
            }
        }
    }
    list.len()
}

// The routine's answer for these operands within so many instructions, labels counted, or none.
fn run(list: &[Sym], width: usize, left: u32, right: u32) -> Option<u32> {
    let mut machine = Machine {
        w: 90,
        carry: true,
        zero: false,
        frame: [85; 16],
        answer: [170; 4],
    };
    for k in 0..4 {
        let left_byte = (left >> 8 * k as u32 & 255) as u8;
        let right_byte = (right >> 8 * k as u32 & 255) as u8;
        if k < width && width <= 4 {
            machine.frame[k] = left_byte;
            machine.frame[width + k] = right_byte;
        }
    }
    let mut at = 0;
    for _ in 0..4096 {
        if at >= list.len() {
            return None;
        }
        let sym = list[at];
        at = match sym {
            Sym::Plain(PlainOperation::Return) => return Some(answer_of(machine.answer, width)),
            Sym::Goto(target) => place_of(list, target),
            _ => at + 1 + usize::from(machine.act(sym)),
        };
    }
    None
}

// The number in the result bytes.
fn answer_of(answer: [u8; 4], width: usize) -> u32 {
    let low = u32::from(answer[0]) + 256 * u32::from(answer[1]);
    let high = u32::from(answer[2]) + 256 * u32::from(answer[3]);
    if width == 2 { low } else { low + 65_536 * high }
}

// Whether an instruction accesses a byte of the frame.
fn is_in_frame(sym: Sym) -> bool {
    let operand = match sym {
        Sym::File { file, .. } => file,
        Sym::Bit { file, .. } => file,
        Sym::Movwf(file) => file,
        Sym::Clrf(file) => file,
        _ => return false,
    };
    match operand {
        Operand::Byte(Byte::Frame { .. }) => true,
        _ => false,
    }
}

// The words of a block: a word for each instruction, and two each for the first select of a bank and of a page at the
// front and behind each label.
fn words(list: &[Sym]) -> u32 {
    let mut total: u32 = 0;
    let mut has_bank = false;
    let mut has_page = false;
    for sym in list {
        if let Sym::Label(_) = *sym {
            has_bank = false;
            has_page = false;
            continue;
        }
        total = total.saturating_add(1);
        if is_in_frame(*sym) && !has_bank {
            total = total.saturating_add(2);
            has_bank = true;
        }
        if let Sym::Goto(_) = *sym {
            if !has_page {
                total = total.saturating_add(2);
                has_page = true;
            }
        }
    }
    total
}

const HELPERS: [(&str, Helper); 16] = [
    ("mul2", Helper::Mul2),
    ("mul4", Helper::Mul4),
    ("divu2", Helper::Divu2),
    ("divs2", Helper::Divs2),
    ("remu2", Helper::Remu2),
    ("rems2", Helper::Rems2),
    ("divu4", Helper::Divu4),
    ("divs4", Helper::Divs4),
    ("remu4", Helper::Remu4),
    ("rems4", Helper::Rems4),
    ("shl2", Helper::Shl2),
    ("shru2", Helper::Shru2),
    ("shrs2", Helper::Shrs2),
    ("shl4", Helper::Shl4),
    ("shru4", Helper::Shru4),
    ("shrs4", Helper::Shrs4),
];

/// How many words each takes at most.
const STATED: &str = "\
mul2 90
mul4 160
divu2 180
divs2 180
remu2 180
rems2 180
divu4 320
divs4 320
remu4 320
rems4 320
shl2 50
shru2 50
shrs2 50
shl4 70
shru4 70
shrs4 70
";

#[test]
fn blocks_keep_to_the_stated_words(rt: HostRuntime) -> Result<(), Fail> {
    let mut count: u32 = 0;
    for line in STATED.lines() {
        let (name, most) = cut(line);
        let Some(h) = find(&HELPERS, name) else {
            return Err(Fail::new("no helper"));
        };
        let block = helper(rt.alloc(), h, Root::Isr, 3)?;
        assert!(rt; block.name == BlockName::Copy(3), "{line}");
        assert!(rt; words(block.list.as_slice()) <= value(most), "{line}");
        count = count.saturating_add(1);
    }
    assert_eq!(rt; count, 16);
    Ok(())
}

/// Helpers with the widths of their operands, two operands, and the answers of C. Where C leaves it undefined, `any`: it ends too.
const ANSWERS: &str = "\
mul2 2 FFF9h 6 FFD6h
mul2 2 300 300 24464
mul4 4 100000 30000 3000000000
divu2 2 50000 7 7142
divu2 2 65535 40000 1
remu2 2 65535 40000 25535
divs2 2 FFF9h 2 FFFDh
divs2 2 7 FFFEh FFFDh
divs2 2 8000h 1 8000h
rems2 2 FFF9h 2 FFFFh
rems2 2 7 FFFEh 1
divu4 4 4294967295 10 429496729
remu4 4 4000000000 3000000000 1000000000
divs4 4 100000 FFFFFED4h FFFFFEB3h
rems4 4 80000000h 10 FFFFFFF8h
shl2 2 1234h 4 2340h
shl2 2 1234h 0 1234h
shru2 2 8000h 15 1
shrs2 2 FFFBh 1 FFFDh
shl4 4 3 30 C0000000h
shru4 4 FFFFFFFFh 4 0FFFFFFFh
shrs4 4 80000000h 4 F8000000h
divu4 4 5 0 any
rems4 4 80000000h FFFFFFFFh any
divs2 2 8000h FFFFh any
rems2 2 8000h 0 any
shl2 2 1 255 any
";

// A decimal number, or with an `h` behind it a hexadecimal one.
fn value(text: &str) -> u32 {
    match text.split_once('h') {
        Some((digits, _)) => u32::from_str_radix(digits, 16).unwrap_or(0),
        None => u32::from_str_radix(text, 10).unwrap_or(0),
    }
}

#[test]
fn answers_are_those_of_c(rt: HostRuntime) -> Result<(), Fail> {
    let mut count: u32 = 0;
    for line in ANSWERS.lines() {
        let (name, rest) = cut(line);
        let (width, rest) = cut(rest);
        let (left, rest) = cut(rest);
        let (right, answer) = cut(rest);
        let Some(h) = find(&HELPERS, name) else {
            return Err(Fail::new("no helper"));
        };
        let block = helper(rt.alloc(), h, Root::Main, 7)?;
        match run(
            &block.list,
            value(width) as usize,
            value(left),
            value(right),
        ) {
            Some(found) => assert!(rt;
                answer == "any" || found == value(answer),
                "{line}: {found}"
            ),
            None => return Err(Fail::new("no end")),
        }
        count = count.saturating_add(1);
    }
    assert_eq!(rt; count, 27);
    Ok(())
}

/// Operators with their types, and the helpers that compute them.
const OPERATORS: [(BinOp, IntTy, Option<Helper>); 4] = [
    (BinOp::Mul, IntTy::UInt, Some(Helper::Mul2)),
    (BinOp::Rem, IntTy::Long, Some(Helper::Rems4)),
    (BinOp::Shr, IntTy::ULong, Some(Helper::Shru4)),
    (BinOp::Add, IntTy::Long, None),
];

#[test]
fn helpers_go_by_width_and_sign(rt: HostRuntime) {
    for (op, ty, wanted) in OPERATORS {
        assert!(rt; int_helper(op, false, ty) == wanted, "{ty:?}");
    }
}
