//! What accesses through FSR may reach.

use crate::owners::{Ground, general_at};
use crate::search::bits::Bits;
use pic_map::Placed;

/// Where objects and frames stand, and which bytes no access through FSR reaches.
#[derive(Drop)]
pub struct Reach<'a> {
    pub ground: &'a Ground<'a>,
    pub hidden: Bits,
}

// The bytes of an object or a frame are open.
fn open_range(hidden: &mut Bits, address: u16, size: u16) {
    for offset in 0..size {
        if let Some(byte) = general_at(address as u32 + offset as u32) {
            hidden.take(byte);
        }
    }
}

/// All bytes but those of static objects and of frames of which addresses are taken.
pub fn hidden_in(placed: &Placed, lent: &[bool]) -> Bits {
    let mut hidden = Bits::all();
    for line in &placed.objects {
        open_range(&mut hidden, line.address, line.size);
    }
    for (copy, line) in placed.frames.iter().enumerate() {
        if lent.get(copy) == Some(&true) {
            open_range(&mut hidden, line.address, line.size);
        }
    }
    hidden
}

impl<'a> Reach<'a> {
    /// The bytes that FSR may point to.
    pub fn open(&self) -> Bits {
        Bits::all().without(self.hidden)
    }
}
