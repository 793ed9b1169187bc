//! Words of program memory by their bits, as the table of instructions has them (Microchip DS39582).

use pic_chip::Image;
use pic_isa::decode;

/// The low seven bits of the addresses of registers, which are the same in each bank.
pub const INDF: u16 = 0x00;

pub const PCL: u16 = 0x02;

pub const PCLATH: u16 = 0x0a;

pub const INTCON: u16 = 0x0b;

/// The address behind, over the end of program memory to its beginning.
pub fn next(at: u16) -> u16 {
    (at % 8192 + 1) % 8192
}

/// The word at an address, of which 13 bits count.
pub fn word_at(image: &Image, at: u16) -> u16 {
    image.word(at % 8192)
}

fn is_from(low: u16, end: u16, word: u16) -> bool {
    low <= word && word < end
}

/// The bit of an instruction that works on one.
pub fn bit(word: u16) -> u16 {
    word / 128 % 8
}

pub fn is_clrf(word: u16) -> bool {
    is_from(0x0180, 0x0200, word)
}

pub fn is_movwf(word: u16) -> bool {
    is_from(0x0080, 0x0100, word)
}

pub fn is_bcf(word: u16) -> bool {
    is_from(0x1000, 0x1400, word)
}

pub fn is_bsf(word: u16) -> bool {
    is_from(0x1400, 0x1800, word)
}

pub fn is_call(word: u16) -> bool {
    is_from(0x2000, 0x2800, word)
}

pub fn is_goto(word: u16) -> bool {
    is_from(0x2800, 0x3000, word)
}

/// RETURN or RETLW.
pub fn is_return(word: u16) -> bool {
    word == 0x0008 || is_from(0x3400, 0x3800, word)
}

pub fn is_retfie(word: u16) -> bool {
    word == 0x0009
}

pub fn is_sleep(word: u16) -> bool {
    word == 0x0063
}

/// Whether a word is an instruction's.
pub fn is_instruction(word: u16) -> bool {
    word < 0x4000 && decode(word).is_some()
}

/// DECFSZ, INCFSZ, BTFSC or BTFSS.
pub fn may_skip(word: u16) -> bool {
    is_from(0x0b00, 0x0c00, word) || is_from(0x0f00, 0x1000, word) || is_from(0x1800, 0x2000, word)
}

// Bit 7 of an instruction on a whole register says that the result goes there, and not to W.
fn to_register(word: u16) -> bool {
    word / 128 % 2 == 1
}

fn names(register: u16, word: u16) -> bool {
    word % 128 == register
}

/// Whether an instruction writes this register, by its operand.
pub fn writes(register: u16, word: u16) -> bool {
    names(register, word) && (word < 0x1000 && to_register(word) || is_from(0x1000, 0x1800, word))
}

/// Whether an instruction writes W.
pub fn writes_w(word: u16) -> bool {
    is_from(0x0100, 0x1000, word) && !to_register(word) || word >= 0x3000
}

/// Whether W becomes this register's value.
pub fn loads(register: u16, word: u16) -> bool {
    is_from(0x0800, 0x0880, word) && names(register, word)
}
