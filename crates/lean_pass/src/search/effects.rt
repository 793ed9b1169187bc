//! What instructions read and write.

use crate::behind::{Flags, flags_in, literal_flags};
use crate::keeping::is_status;
use crate::operations::{is_retlw, literal_uses, may_skip, uses_c, uses_w};
use crate::owners::Aim;
use crate::search::bits::Bits;
use crate::search::reach::Reach;
use sym_code::{
    BitOperation, FileOperation, Into, LiteralOperation, Operand, PlainOperation, Sym,
    is_bit_write, is_file,
};

/// What an instruction reads and writes. Only what is silent may be left out.
#[derive(Clone, Copy)]
pub struct Effect {
    pub reads: Option<usize>,
    /// The bytes to which FSR and IRP may point, where it reads what they point to.
    pub reaches: Bits,
    pub uses_w: bool,
    pub uses: Flags,
    pub writes: Option<usize>,
    pub to_w: bool,
    pub sets: Flags,
    pub silent: bool,
    pub skips: bool,
}

pub fn no_flags() -> Flags {
    Flags {
        z: false,
        dc: false,
        c: false,
    }
}

pub fn zero_flag() -> Flags {
    Flags {
        z: true,
        dc: false,
        c: false,
    }
}

/// Of an instruction that reads and writes nothing of these.
pub fn no_effect() -> Effect {
    Effect {
        reads: None,
        reaches: Bits::none(),
        uses_w: false,
        uses: no_flags(),
        writes: None,
        to_w: false,
        sets: no_flags(),
        silent: false,
        skips: false,
    }
}

fn byte_of(aim: Aim) -> Option<usize> {
    match aim {
        Aim::ToByte(byte) => Some(byte),
        _ => None,
    }
}

fn reached(reach: &Reach, aim: Aim) -> Bits {
    match aim {
        Aim::Through => reach.open(),
        _ => Bits::none(),
    }
}

/// The flag by the number of its bit.
pub fn flag_of(bit: u8) -> Flags {
    Flags {
        z: bit == 2,
        dc: bit == 1,
        c: bit == 0,
    }
}

fn file_effect(reach: &Reach, op: FileOperation, aim: Aim, into_file: bool) -> Effect {
    let byte = byte_of(aim);
    Effect {
        reads: byte,
        reaches: reached(reach, aim),
        uses_w: uses_w(op),
        uses: Flags {
            z: false,
            dc: false,
            c: uses_c(op),
        },
        writes: if into_file { byte } else { None },
        to_w: !into_file,
        sets: flags_in(op),
        silent: byte.is_some(),
        skips: may_skip(op),
    }
}

fn store_effect(aim: Aim, from_w: bool) -> Effect {
    let byte = byte_of(aim);
    // What FSR points to is the same byte on both machines, so nothing else has to be the same.
    Effect {
        uses_w: from_w,
        writes: byte,
        sets: Flags {
            z: !from_w,
            dc: false,
            c: false,
        },
        silent: byte.is_some(),
        ..no_effect()
    }
}

fn flag_effect(op: BitOperation, bit: u8) -> Effect {
    if is_bit_write(op) {
        Effect {
            sets: flag_of(bit),
            silent: bit < 3,
            ..no_effect()
        }
    } else {
        Effect {
            uses: flag_of(bit),
            silent: true,
            skips: true,
            ..no_effect()
        }
    }
}

fn bit_effect(reach: &Reach, op: BitOperation, aim: Aim) -> Effect {
    let byte = byte_of(aim);
    let writes = is_bit_write(op);
    Effect {
        reads: byte,
        reaches: reached(reach, aim),
        writes: if writes { byte } else { None },
        silent: byte.is_some(),
        skips: !writes,
        ..no_effect()
    }
}

fn literal_effect(op: LiteralOperation) -> Effect {
    Effect {
        uses_w: literal_uses(op),
        to_w: true,
        sets: literal_flags(op),
        silent: !is_retlw(op),
        ..no_effect()
    }
}

fn plain_effect(op: PlainOperation) -> Effect {
    match op {
        PlainOperation::Clrw => Effect {
            to_w: true,
            sets: zero_flag(),
            silent: true,
            ..no_effect()
        },
        PlainOperation::Nop => Effect {
            silent: true,
            ..no_effect()
        },
        PlainOperation::Retfie => no_effect(),
        PlainOperation::Return => no_effect(),
    }
}

/// What an instruction of a block reads and writes.
pub fn effect_of(reach: &Reach, inside: bool, sym: Sym) -> Effect {
    let ground = reach.ground;
    match sym {
        Sym::File { op, file, into } => {
            let to_file = is_file(into);
            file_effect(reach, op, ground.aim(inside, to_file, file), to_file)
        }
        Sym::Movwf(file) => store_effect(ground.aim(inside, true, file), true),
        Sym::Clrf(file) => store_effect(ground.aim(inside, true, file), false),
        Sym::Bit { op, file, bit } => {
            if is_status(file) {
                flag_effect(op, bit)
            } else {
                bit_effect(reach, op, ground.aim(inside, is_bit_write(op), file))
            }
        }
        Sym::Literal { op, .. } => literal_effect(op),
        Sym::Plain(op) => plain_effect(op),
        _ => no_effect(),
    }
}
