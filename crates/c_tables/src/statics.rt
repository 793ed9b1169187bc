//! The objects of a unit that last as long as the program (ISO/IEC 9899:1990, 6.1.2.4).

ghost use Rattle.std.specs.Prelude.{◌≡◌, [], Ok};
ghost use Rattle.type_rules.specs.Known.{Known};
ghost use Rattle.type_rules.specs.Objects as objects;
ghost use Rattle.c_tables.specs.Answers.{Answers};
ghost use Rattle.c_tables.specs.Tables.{statics_in};

use crate::error::CheckError;
use c_typed::{Initial, Qualified, Static};
use std::alloc::Global;

/// The static objects of a unit, in the order of their declarators.
#[derive(Drop)]
pub struct Statics {
    alloc: Global,
    entries: Vec<Static>,
}

impl Statics {
    /// No objects.
    pub fn new(alloc: Global) -> Statics
        ensures { (known : Known) → statics_in result known ≡ record known { statics = [] } }
    {
        Statics {
            alloc,
            entries: Vec::new(alloc),
        }
    }

    /// Puts an object that begins as 0 after the others, and gives its number.
    pub fn add(&mut self, name: Vec<u8>, ty: Qualified, line: u32) -> Result<usize, CheckError>
        ensures { (known : Known) → Answers (λ number. number) result (statics_in self.new known) (objects.add_static name.items ty line (statics_in self.old known)) }
    {
        let object = self.entries.len();
        self.entries.push(Static {
            name,
            ty,
            initial: Vec::new(self.alloc),
            line,
        })?;
        Ok(object)
    }

    /// Gives an object the type that its initializer completed, and the bytes that it begins with.
    pub fn complete(&mut self, object: usize, ty: Qualified, initial: Vec<Initial>)
        ensures { (known : Known) → objects.complete_static object ty initial.items (statics_in self.old known) ≡ Ok (statics_in self.new known, statics_in self.new known) }
    {
        if let Some(entry) = self.entries.get_mut(object) {
            entry.ty = ty;
            entry.initial = initial;
        }
    }

    /// The objects in order.
    pub fn into_entries(self) -> Vec<Static>
        ensures { result ≡ self.entries }
    {
        self.entries
    }
}
