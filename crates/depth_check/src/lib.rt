//! How deep the return stack of a chip becomes, whatever the image.
//!
//! In: an image of program memory, and a certificate, or none. Out: whether the certificate is valid for the image; a valid certificate,
//! or that there is none; the greatest depth that a certificate allows.
//! The promise: where a certificate is valid, the depth of each run of the image, which is its pushes less its pops with taken interrupts
//! counted, is from 0 to the certificate's total at every moment, and that is at most 8, the words of the chip's stack (data sheet DS39582,
//! "PCL and PCLATH"). A certificate is found exactly where one is valid.
#![tactic(auto)]

ghost use Rattle.std.specs.Prelude.{◌≡◌, ◌≤◌, ◌+◌, ℕ, Bool, true, List};
ghost use Rattle.depth_check.specs.Certificate.{Certificate};
ghost use Rattle.depth_check.specs.Valid.{is_valid, total_of};
ghost use Rattle.depth_check.specs.Depth.{StaysWithin};

mod agenda;
mod check;
mod finish;
mod known;
mod met;
mod search;
mod tables;
mod tally;

pub use check::{AT_INTERRUPT, AT_RESET, total, verify};
pub use search::certify;

/// What is known where an instruction is to run.
#[derive(Clone, Copy)]
pub struct Facts {
    /// Bit 3 of PCLATH, if it is known.
    pub p3: Option<bool>,
    /// Bit 4 of PCLATH, if it is known.
    pub p4: Option<bool>,
    /// PCLATH is as it was when the interrupt was taken.
    pub orig: bool,
    /// W holds that PCLATH.
    pub w_orig: bool,
    /// The certificate's byte `cell` holds it.
    pub saved: bool,
}

/// What is known at an address.
#[derive(Clone, Copy)]
pub struct Row {
    /// The address, below 8,192.
    pub at: u16,
    /// The number of its routine.
    pub routine: u16,
    pub facts: Facts,
}

/// A routine.
#[derive(Clone, Copy)]
pub struct Routine {
    /// The address of its first instruction.
    pub entry: u16,
    /// It is run by the interrupt handler, and by nothing else.
    pub isr: bool,
    /// How deep its calls go.
    pub bound: u8,
    /// Bit 3 of PCLATH wherever it returns, if that is known.
    pub out3: Option<bool>,
    /// Bit 4 of PCLATH wherever it returns, if that is known.
    pub out4: Option<bool>,
}

/// A certificate: what is known at each address that a run may come to. specs/Valid.antt says when it is valid.
#[derive(Drop)]
pub struct Heights {
    /// Interrupts may be taken.
    pub interrupts: bool,
    /// The byte in which the handler keeps the PCLATH of what it interrupts, from 70h to 7Fh.
    pub cell: u8,
    /// In rising order of address.
    pub rows: Vec<Row>,
    /// Main's routine first, and the handler's second where interrupts may be taken.
    pub routines: Vec<Routine>,
}

/// In each run of an image that a certificate is valid for, whatever is unknown after power-on, whatever bytes are read and whatever
/// flags arrive, the depth is from 0 to the certificate's total at every moment.
pub fn depth_stays_within()
    ensures { (image : List ℕ) (c : Certificate) → is_valid image c ≡ true → StaysWithin image (total_of c) }
{}

/// All certificates that are valid for an image have one total, whatever bytes their handlers keep PCLATH in, and it is at most 8.
pub fn depth_is_one()
    ensures one { (image : List ℕ) (c d : Certificate) → is_valid image c ≡ true → is_valid image d ≡ true → total_of c ≡ total_of d }
    ensures most { (image : List ℕ) (c : Certificate) → is_valid image c ≡ true → total_of c ≤ 8 }
{}
