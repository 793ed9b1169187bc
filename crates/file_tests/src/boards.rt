//! A board that follows nothing, and what a chip does over it, as a second board of its kind is asked beside the chip's own steps.

ghost use Rattle.std.specs.Prelude.{◌≡◌, None};

use pic_chip::{Accesses, Chip, Image, Start, StepEnd};
use pic_sim::{Board, Exchange, SimEnd};
use pic_world::{Script, register_name};
use std::alloc::{AllocError, Global};

/// What a board answers.
#[derive(Clone, Copy)]
pub enum Manner {
    /// These flags at each instruction, and this byte at each read.
    Same { flags: u16, byte: u8 },
    /// The number of the call.
    Counting,
}

/// A board that refuses the call of one number, counted from 0.
#[derive(Drop)]
pub struct Stubborn {
    given: Vec<Exchange>,
    taken: Vec<Exchange>,
    raised: Vec<u16>,
    manner: Manner,
    calls: u64,
    refused: u64,
}

impl Stubborn {
    pub fn new(alloc: Global, manner: Manner, refused: u64) -> Stubborn {
        Stubborn {
            given: Vec::new(alloc),
            taken: Vec::new(alloc),
            raised: Vec::new(alloc),
            manner,
            calls: 0,
            refused,
        }
    }

    /// The flags and the byte of a call, where it isn't refused.
    fn answer(&mut self) -> Result<(u16, u8), AllocError>
        ensures given { self.new.given.items ≡ self.old.given.items }
        ensures taken { self.new.taken.items ≡ self.old.taken.items }
        ensures raised { self.new.raised.items ≡ self.old.raised.items }
    {
        let number = self.calls;
        self.calls = number.saturating_add(1);
        if number == self.refused {
            return Err(AllocError);
        }
        Ok(match self.manner {
            Manner::Same { flags, byte } => (flags, byte),
            Manner::Counting => ((number % 0x1_0000) as u16, (number % 0x100) as u8),
        })
    }
}

impl Board for Stubborn {
    ghost lists = { λ board. record { given = board.given.items; taken = board.taken.items; raised = board.raised.items } };

    ghost follows = { λ board. None };

    ghost room = { λ board. 0 };

    fn feed(&mut self, _script: &Script) -> Result<(), AllocError> {
        Ok(())
    }

    fn tick(&mut self, _t: u64) -> Result<u16, AllocError> {
        let (flags, _) = self.answer()?;
        self.raised.push(flags)?;
        Ok(flags)
    }

    fn read(&mut self, register: u8) -> Result<u8, AllocError> {
        let (_, value) = self.answer()?;
        self.given.push(Exchange { register, value })?;
        Ok(value)
    }

    fn write(&mut self, register: u8, value: u8) -> Result<(), AllocError> {
        self.answer()?;
        self.taken.push(Exchange { register, value })?;
        Ok(())
    }
}

/// After power-on all that is unknown is 0 here.
pub const START: Start = Start {
    w: 0,
    fsr: 0,
    flags: 0,
    ram: [0; 368],
};

/// Whether an instruction wrote a device register other than INTCON, PIR1 and PIE1.
fn is_told(accesses: Accesses) -> bool {
    match accesses.write {
        None => false,
        Some(access) => match u8::try_from(access.address) {
            Ok(register) => {
                !matches!(register, 0x0b | 0x0c | 0x8c) && register_name(register).is_some()
            }
            Err(_) => false,
        },
    }
}

/// One instruction, with the answers of a board that is asked beside it. The chip is left where it was if the board refuses.
fn step_beside(
    chip: &mut Chip,
    image: &Image,
    board: &mut Stubborn,
) -> Result<StepEnd, AllocError> {
    let mut next = *chip;
    let (flags, _) = board.answer()?;
    next.begin(flags);
    let input = match next.wants(image) {
        None => 0,
        Some(_) => {
            let (_, byte) = board.answer()?;
            byte
        }
    };
    if next.index() >= 1_000_000 {
        return Err(AllocError);
    }
    let end = next.exec(image, input);
    if let StepEnd::Done(accesses) = end {
        if is_told(accesses) {
            board.answer()?;
        }
    }
    *chip = next;
    Ok(end)
}

/// How so many instructions end beside a board, and the chip then.
pub fn run_beside(chip: &mut Chip, image: &Image, board: &mut Stubborn, n: u16) -> SimEnd {
    for _ in 0..n {
        match step_beside(chip, image, board) {
            Ok(StepEnd::Done(_)) => {}
            Ok(StepEnd::Unmodelled(pc)) => return SimEnd::Unmodelled(pc),
            Err(_) => return SimEnd::NoMemory,
        }
    }
    SimEnd::Done
}
