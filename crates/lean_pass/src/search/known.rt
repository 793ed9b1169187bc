//! What is known of the machine that runs the given code.

use crate::behind::{Flags, flags_in, is_number};
use crate::computing::{computed, file_for, leaves_w, same_known, way_of, way_of_bit};
use crate::keeping::is_status;
use crate::owners::Aim;
use crate::search::bits::Bits;
use crate::search::bodies::{Place, Span};
use crate::search::reach::Reach;
use sym_code::{
    FileOperation, Into, Literal, LiteralOperation, PlainOperation, Sym, is_bit_write, is_file,
};

/// How many general bytes the chip has.
pub const BYTES: usize = 368;

/// What is known before an instruction. Nothing comes where it isn't reached.
#[derive(Clone, Copy)]
pub struct Knowledge {
    pub reached: bool,
    pub number: Option<u8>,
    pub held: Bits,
    pub zero: bool,
    pub known: Bits,
    pub values: [u8; 368],
    /// The bytes that are copies of variables, and of which.
    pub copies: Bits,
    pub origins: [u16; 368],
    /// C and Z are 0 or 1.
    pub carry_bit: bool,
    pub zero_bit: bool,
}

fn same_number(one: Option<u8>, other: Option<u8>) -> bool {
    match one {
        None => other.is_none(),
        Some(number) => is_number(other, number),
    }
}

impl Knowledge {
    pub fn unreached() -> Knowledge {
        Knowledge {
            reached: false,
            number: None,
            held: Bits::none(),
            zero: false,
            known: Bits::none(),
            values: [0; 368],
            copies: Bits::none(),
            origins: [0; 368],
            carry_bit: false,
            zero_bit: false,
        }
    }

    pub fn nothing() -> Knowledge {
        Knowledge {
            reached: true,
            ..Knowledge::unreached()
        }
    }

    /// The number that a byte holds.
    pub fn value(&self, byte: usize) -> Option<u8> {
        if byte < BYTES && self.known.has(byte) {
            Some(self.values[byte])
        } else {
            None
        }
    }

    fn learn(&mut self, byte: usize, number: Option<u8>) {
        match number {
            Some(number) => {
                if byte < BYTES {
                    self.known.put(byte);
                    self.values[byte] = number;
                }
            }
            None => self.known.take(byte),
        }
    }

    /// One more way comes here. Answers whether less is known than before.
    pub fn come(&mut self, other: &Knowledge) -> bool {
        if !self.reached {
            *self = *other;
            return other.reached;
        }
        let before = (self.number.is_some(), self.held, self.zero, self.known);
        let copies = self.copies;
        let bits = (self.carry_bit, self.zero_bit);
        if !same_number(self.number, other.number) {
            self.number = None;
        }
        self.held = self.held.meet(other.held);
        self.zero = self.zero && other.zero;
        self.known = self.known.meet(other.known);
        self.copies = self.copies.meet(other.copies);
        self.forget_others(other);
        self.carry_bit = self.carry_bit && other.carry_bit;
        self.zero_bit = self.zero_bit && other.zero_bit;
        self.copies != copies
            || (self.carry_bit, self.zero_bit) != bits
            || self.number.is_some() != before.0
            || self.held != before.1
            || self.zero != before.2
            || self.known != before.3
    }

    // Forgets what is another number there.
    fn forget_others(&mut self, other: &Knowledge) {
        for byte in 0..BYTES {
            if self.known.has(byte) && self.values[byte] != other.values[byte] {
                self.known.take(byte);
            }
            if self.copies.has(byte) && self.origins[byte] != other.origins[byte] {
                self.copies.take(byte);
            }
        }
    }

    /// The byte of which one is a copy.
    pub fn twin(&self, byte: usize) -> Option<u16> {
        if byte < BYTES && self.copies.has(byte) {
            Some(self.origins[byte])
        } else {
            None
        }
    }

    pub fn origin(&self, byte: usize) -> Option<usize> {
        match self.twin(byte) {
            Some(origin) => Some(origin as usize),
            None => None,
        }
    }

    // A byte becomes another one, so nothing is a copy of it any longer.
    fn forget_copies(&mut self, written: usize) {
        self.copies.take(written);
        for byte in 0..BYTES {
            if self.origins[byte] as usize == written {
                self.copies.take(byte);
            }
        }
    }

    // W is stored in a byte: it may be a copy of a variable from now on.
    fn copy(&mut self, byte: usize, variables: Span) {
        for origin in variables.first..variables.end {
            if origin < BYTES && byte < BYTES && origin != byte && self.held.has(origin) {
                self.copies.put(byte);
                self.origins[byte] = origin as u16;
                return;
            }
        }
    }

    // The bytes that are known to hold a number.
    fn holding(&self, number: u8) -> Bits {
        let mut bytes = Bits::none();
        for byte in 0..BYTES {
            if self.known.has(byte) && self.values[byte] == number {
                bytes.put(byte);
            }
        }
        bytes
    }

    fn without_w(&mut self) {
        self.number = None;
        self.held = Bits::none();
        self.zero = false;
    }

    fn lost(&mut self, reach: &Reach, aim: Aim) {
        match aim {
            Aim::ToByte(byte) => {
                self.held.take(byte);
                self.known.take(byte);
                self.forget_copies(byte);
            }
            Aim::Through => {
                self.held = self.held.meet(reach.hidden);
                self.known = self.known.meet(reach.hidden);
                self.forget_open(reach.hidden);
            }
            _ => {}
        }
    }

    // A byte that isn't hidden becomes another one.
    fn forget_open(&mut self, hidden: Bits) {
        self.copies = self.copies.meet(hidden);
        for byte in 0..BYTES {
            if !hidden.has(self.origins[byte] as usize) {
                self.copies.take(byte);
            }
        }
    }

    fn moved(&mut self, aim: Aim) {
        self.without_w();
        self.zero = true;
        self.zero_bit = true;
        if let Aim::ToByte(byte) = aim {
            self.number = self.value(byte);
            self.held.put(byte);
            if let Some(origin) = self.origin(byte) {
                self.held.put(origin);
            }
        }
    }

    // What is known of the byte that an operand leads to.
    fn number_at(&self, aim: Aim) -> Option<u8> {
        match aim {
            Aim::ToByte(byte) => self.value(byte),
            _ => None,
        }
    }

    /// What an operation on W and a byte of which this is known makes.
    pub fn result(&self, op: FileOperation, byte: Option<u8>) -> Option<u8> {
        computed(op, self.number, byte)
    }

    /// W stays what it is behind such an operation.
    pub fn stays(&self, op: FileOperation, byte: Option<u8>) -> bool {
        leaves_w(op, byte) || same_known(self.result(op, byte), self.number)
    }

    fn with_number(&mut self, number: Option<u8>, zero: bool) {
        self.number = number;
        self.held = match number {
            Some(number) => self.holding(number),
            None => Bits::none(),
        };
        self.zero = zero;
    }

    // The flags are bits that an instruction writes.
    fn with_bits(&mut self, flags: Flags) {
        self.carry_bit = self.carry_bit || flags.c;
        self.zero_bit = self.zero_bit || flags.z;
    }

    fn worked(&mut self, op: FileOperation, byte: Option<u8>) {
        self.with_bits(flags_in(op));
        if leaves_w(op, byte) {
            self.zero = true;
        } else {
            let number = self.result(op, byte);
            self.with_number(number, flags_in(op).z);
        }
    }

    fn to_w(&mut self, op: FileOperation, aim: Aim) {
        match op {
            FileOperation::Movf => self.moved(aim),
            _ => {
                let byte = self.number_at(aim);
                self.worked(op, byte);
            }
        }
    }

    // A number that may be known is written.
    fn written(&mut self, reach: &Reach, aim: Aim, number: Option<u8>) {
        self.zero = false;
        match aim {
            Aim::ToByte(byte) => {
                self.held.take(byte);
                self.forget_copies(byte);
                self.learn(byte, number);
            }
            _ => self.lost(reach, aim),
        }
    }

    fn stored(&mut self, reach: &Reach, aim: Aim, variables: Span) {
        match aim {
            Aim::ToByte(byte) => {
                self.forget_copies(byte);
                self.copy(byte, variables);
                self.held.put(byte);
                let number = self.number;
                self.learn(byte, number);
            }
            _ => self.lost(reach, aim),
        }
    }

    fn literal(&mut self, op: LiteralOperation, value: Literal) {
        let Literal::Number(number) = value else {
            self.without_w();
            return;
        };
        match op {
            LiteralOperation::Movlw => self.with_number(Some(number), false),
            _ => match file_for(op) {
                Some(file) => self.worked(file, Some(number)),
                None => self.without_w(),
            },
        }
    }

    fn file(&mut self, reach: &Reach, op: FileOperation, aim: Aim, into: Into) {
        match into {
            Into::W => self.to_w(op, aim),
            Into::File => {
                let number = self.result(op, self.number_at(aim));
                self.written(reach, aim, number);
                self.with_bits(flags_in(op));
            }
        }
    }

    /// Whether an instruction that may skip does so, as far as that is known. Given is the byte that it reads.
    pub fn way(&self, sym: Sym, reads: Option<usize>) -> Option<bool> {
        let byte = match reads {
            Some(byte) => self.value(byte),
            None => None,
        };
        match sym {
            Sym::File { op, .. } => way_of(op, byte),
            Sym::Bit { op, bit, .. } => way_of_bit(op, byte, bit),
            _ => Some(false),
        }
    }

    /// What is known behind an instruction.
    pub fn pass(&mut self, reach: &Reach, inside: bool, place: &Place) {
        let ground = reach.ground;
        match place.sym {
            Sym::File { op, file, into } => {
                let writes = is_file(into);
                self.file(reach, op, ground.aim(inside, writes, file), into);
            }
            Sym::Movwf(file) => self.stored(reach, ground.aim(inside, true, file), place.variables),
            Sym::Clrf(file) => self.written(reach, ground.aim(inside, true, file), Some(0)),
            Sym::Bit { op, file, .. } => {
                if is_bit_write(op) {
                    if is_status(file) {
                        self.zero = false;
                    } else {
                        self.lost(reach, ground.aim(inside, true, file));
                    }
                }
            }
            Sym::Literal { op, value } => self.literal(op, value),
            Sym::Plain(op) => {
                if let PlainOperation::Clrw = op {
                    self.without_w();
                    self.number = Some(0);
                    self.zero = true;
                }
            }
            Sym::Call(_) => *self = Knowledge::nothing(),
            _ => {}
        }
    }
}
