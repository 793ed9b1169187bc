//! The bytes that the records of a file give.

ghost use Rattle.std.specs.Prelude.{◌≡◌, ◌<◌, ◌++◌, ◌∷◌, [], nat_lt, false, replicate, IfOk, OnOk};
ghost use Rattle.hex_image.specs.HexFile.{times};

use std::alloc::{AllocError, Global};
use std::marker::Model;

/// Where addresses end that a file may give bytes at: program memory is below 4000h, and the words of
/// identification and configuration stand after it (DS39582).
pub const LIMIT: u16 = 0x4400;

/// Bytes with their addresses, each below 4400h and with one byte at most, in the order in which they
/// were given.
#[derive(Drop)]
pub struct Given {
    bytes: Vec<(u16, u8)>,
    /// For each address, whether a byte was given there.
    marks: Vec<bool>,
}

impl Model for Given {
    ghost use Rattle.std.specs.Prelude.{List, ℕ};
    ghost use Rattle.hex_image.specs.HexFile.{Given as GivenByte};
    ghost use Rattle.hex_image.specs.Marks.{AreMarks};

    ghost Value = { List GivenByte };

    ghost view = { λ g. g.bytes.items };

    ghost invariant = { λ g. AreMarks g.bytes.items g.marks.items };
}

impl Given {
    /// Nothing given.
    pub fn nothing(alloc: Global) -> Result<Given, AllocError>
        ensures { IfOk result (λ given. given ≡ []) }
    {
        let marks = unmarked(alloc, LIMIT as usize)?;
        Ok(Given {
            bytes: Vec::new(alloc),
            marks,
        })
    }

    /// Whether a byte was given at an address below 4400h.
    pub fn holds(&self, address: u16) -> bool
        requires { address < 0x4400 }
        ensures { result ≡ nat_lt 0 (times self.now address) }
    {
        self.marks[address as usize]
    }

    /// Gives one more byte.
    pub fn put(&mut self, address: u16, byte: u8) -> Result<(), AllocError>
        requires { address < 0x4400 }
        ensures { OnOk result (self.new ≡ self.old ++ (address, byte) ∷ []) }
    {
        self.bytes.push((address, byte))?;
        self.marks[address as usize] = true;
        Ok(())
    }

    /// The bytes with their addresses.
    pub fn bytes(&self) -> &[(u16, u8)]
        ensures { result.now ≡ self.now }
    {
        &self.bytes
    }
}

fn unmarked(alloc: Global, count: usize) -> Result<Vec<bool>, AllocError>
    ensures { IfOk result (λ marks. marks.items ≡ replicate count false) }
{
    let marks = vec![in alloc; false; count]?;
    Ok(marks)
}
