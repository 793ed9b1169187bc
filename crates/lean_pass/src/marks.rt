//! Which instructions count as steps of the source. None of them is left out where something comes.

ghost use Rattle.std.specs.Prelude.{ℕ, ◌≡◌, ◌||◌};
ghost use Rattle.core_code.specs.Cost as costs;
ghost use Rattle.sym_code.specs.Marks as stated;
ghost use Rattle.lean_pass.specs.Views.{variables_of};

use core_code::Byte;
use sym_code::{BitOperation, Label, Operand, PlainOperation, Register, Sym, Target};

// How many bytes the variables of a copy have.
fn variable_bytes(variables: &[u64], copy: u16) -> u64
    ensures { result ≡ variables_of variables.now copy }
{
    match variables.get(copy as usize) {
        Some(bytes) => *bytes,
        None => 0,
    }
}

// A byte that the source has, too.
fn is_kept(variables: &[u64], byte: Byte) -> bool
    ensures { result ≡ costs.is_kept (variables_of variables.now) byte }
{
    match byte {
        Byte::Static { .. } => true,
        Byte::Frame { copy, offset } => (offset as u64) < variable_bytes(variables, copy),
        Byte::Result { .. } => false,
        Byte::Device { .. } => true,
    }
}

fn is_marked_operand(variables: &[u64], operand: Operand) -> bool
    ensures { result ≡ stated.is_marked_operand (variables_of variables.now) operand }
{
    match operand {
        Operand::Byte(byte) => is_kept(variables, byte),
        Operand::Register(register) => match register {
            Register::Indf => true,
            Register::Status => false,
            Register::Fsr => false,
            Register::Pclath => false,
        },
        Operand::Saved(_) => false,
    }
}

// Z, bit 2 of STATUS.
fn is_zero_flag(operand: Operand, bit: u8) -> bool
    ensures { result ≡ stated.is_zero_flag operand bit }
{
    match operand {
        Operand::Register(register) => match register {
            Register::Status => bit == 2,
            Register::Indf => false,
            Register::Fsr => false,
            Register::Pclath => false,
        },
        Operand::Byte(_) => false,
        Operand::Saved(_) => false,
    }
}

fn is_marked_bit(variables: &[u64], op: BitOperation, operand: Operand, bit: u8) -> bool
    ensures { result ≡ stated.is_marked_bit (variables_of variables.now) op operand bit }
{
    match op {
        BitOperation::Btfsc => is_zero_flag(operand, bit) || is_marked_operand(variables, operand),
        BitOperation::Btfss => is_zero_flag(operand, bit) || is_marked_operand(variables, operand),
        BitOperation::Bcf => is_marked_operand(variables, operand),
        BitOperation::Bsf => is_marked_operand(variables, operand),
    }
}

fn is_marked_plain(op: PlainOperation) -> bool
    ensures { result ≡ stated.is_marked_plain op }
{
    match op {
        PlainOperation::Return => true,
        PlainOperation::Retfie => true,
        PlainOperation::Clrw => false,
        PlainOperation::Nop => false,
    }
}

// The labels at the ends of loops and choices have odd numbers, and no jump to there is a step by itself.
fn is_marked_target(target: Target) -> bool
    ensures { result ≡ stated.is_marked_target target }
{
    match target {
        Target::Label(label) => match label {
            Label::Inner(number) => number % 2 == 0,
            Label::Halt => true,
            Label::Restore => true,
        },
        Target::Block(_) => true,
    }
}

/// Whether an instruction counts. Given is how many bytes the variables of each copy have.
pub fn is_marked(variables: &[u64], sym: Sym) -> bool
    ensures { result ≡ stated.is_marked (variables_of variables.now) sym }
{
    match sym {
        Sym::File { file, .. } => is_marked_operand(variables, file),
        Sym::Movwf(file) => is_marked_operand(variables, file),
        Sym::Clrf(file) => is_marked_operand(variables, file),
        Sym::Bit { op, file, bit } => is_marked_bit(variables, op, file, bit),
        Sym::Goto(target) => is_marked_target(target),
        Sym::Call(_) => true,
        Sym::Plain(op) => is_marked_plain(op),
        Sym::Literal { .. } => false,
        Sym::Label(_) => false,
        Sym::SelectBank(..) => false,
        Sym::SelectPage(..) => false,
        Sym::Table { .. } => true,
    }
}
