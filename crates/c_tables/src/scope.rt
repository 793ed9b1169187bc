//! Names and what they stand for (ISO/IEC 9899:1990, 6.1.2.1).

ghost use Rattle.std.specs.Prelude.{◌≡◌, ◌-◌, Ok, [], length, map};
ghost use Rattle.std.specs.Option.{option_map};
ghost use Rattle.type_rules.specs.Known as rule_known;
ghost use Rattle.type_rules.specs.Known.{Known};
ghost use Rattle.type_rules.specs.Names as names;
ghost use Rattle.c_tables.specs.Answers.{Learns};
ghost use Rattle.c_tables.specs.Tables.{binding_of, waiting_of, scope_of, scopes_of, scopes_in};

use crate::error::{CheckError, Kind, copied, refused};
use c_ints::IntTy;
use c_typed::{Object, Qualified, Ty};
use indexmap::IndexMap;
use std::alloc::Global;

/// What is still to be made of a type whose element isn't complete so far: nothing, an array of so many of it, an array of arrays,
/// the outer number first, or what can't be made any more.
#[derive(Clone, Copy, PartialEq, Eq)]
pub enum Waiting {
    Whole,
    OneArray(u32),
    TwoArrays(u32, u32),
    Never,
}

/// Whether anything is still to be made.
pub fn is_waiting(waiting: Waiting) -> bool
    ensures { result ≡ rule_known.is_waiting (waiting_of waiting) }
{
    match waiting {
        Waiting::Whole => false,
        Waiting::OneArray(_) | Waiting::TwoArrays(..) | Waiting::Never => true,
    }
}

/// What a name stands for.
#[derive(Clone, Copy, PartialEq, Eq)]
pub enum Binding {
    /// An object or a device register. `fixed` says that its address can't be taken: it is a register of
    /// the device, or declared `register`.
    Object {
        object: Object,
        ty: Qualified,
        fixed: bool,
    },
    /// A bit of a device register.
    Bit {
        register: u8,
        bit: u8,
    },
    /// The function of this number among those that are declared.
    Function(usize),
    /// A type, with what it waits for.
    TypeName {
        ty: Qualified,
        waiting: Waiting,
    },
    /// The number of type int that has these bits, 0 to 65,535.
    Enumerator(u32),
}

/// The names of a scope, which goes on elsewhere.
#[derive(Drop)]
pub struct Names {
    entries: IndexMap<Vec<u8>, Binding>,
}

impl Names {
    /// No names.
    pub fn none(alloc: Global) -> Names
        ensures { scope_of result ≡ [] }
    {
        Names {
            entries: IndexMap::new(alloc),
        }
    }
}

/// The names of the scopes that are open, the innermost last. The first is that of the file. The
/// names of the device's registers and bits stand in a scope round it. `lists` has the places among the open
/// scopes of those of parameters.
#[derive(Drop)]
pub struct Scopes {
    alloc: Global,
    open: Vec<IndexMap<Vec<u8>, Binding>>,
    lists: Vec<usize>,
}

fn builtin(name: &[u8]) -> Option<Binding>
    ensures { option_map binding_of result ≡ names.found_in [] name.now }
{
    if let Some(address) = pic_world::register(name) {
        let ty = Qualified {
            ty: Ty::Int(IntTy::UChar),
            constant: false,
            volatile: true,
        };
        return Some(Binding::Object {
            object: Object::Register(address),
            ty,
            fixed: true,
        });
    }
    let (register, bit) = pic_world::bit(name)?;
    Some(Binding::Bit { register, bit })
}

// The last of these places goes, if there is one.
fn drop_last(places: &mut Vec<usize>)
    ensures { length places.new.items ≡ length places.old.items - 1 }
{
    let _place = places.pop();
}

// What a name stands for in a scope.
fn meaning(scope: &IndexMap<Vec<u8>, Binding>, name: &[u8]) -> Option<Binding>
    ensures { option_map binding_of result ≡ names.entry_of (map (λ e. (e.0.items, binding_of e.1)) scope.now.entries) name.now }
{
    match scope.get(name) {
        Some(binding) => Some(*binding),
        None => None,
    }
}

impl Scopes {
    /// Scopes of which none is open.
    pub fn new(alloc: Global) -> Scopes
        ensures { (known : Known) → scopes_in result known ≡ record known { scopes = []; lists = 0 } }
    {
        Scopes {
            alloc,
            open: Vec::new(alloc),
            lists: Vec::new(alloc),
        }
    }

    /// Opens a scope inside those that are open.
    pub fn enter(&mut self) -> Result<(), CheckError>
        ensures { (known : Known) → Learns result (scopes_in self.new known) (names.enter (scopes_in self.old known)) }
    {
        self.open.push(IndexMap::new(self.alloc))?;
        Ok(())
    }

    /// Closes the innermost scope.
    pub fn leave(&mut self)
        ensures { (known : Known) → names.leave (scopes_in self.old known) ≡ Ok (scopes_in self.new known, scopes_in self.new known) }
    {
        let _scope = self.open.pop();
    }

    /// Opens the scope of a list of parameters.
    pub fn enter_list(&mut self) -> Result<(), CheckError>
        ensures { (known : Known) → Learns result (scopes_in self.new known) (names.enter_list (scopes_in self.old known)) }
    {
        self.lists.push(self.open.len())?;
        self.enter()
    }

    /// Closes the scope of a list of parameters, whose names go on in the body of its function.
    pub fn leave_list(&mut self) -> Names
        ensures { (known : Known) → names.leave_list (scopes_in self.old known) ≡ Ok (scope_of result, scopes_in self.new known) }
    {
        drop_last(&mut self.lists);
        match self.open.pop() {
            Some(entries) => Names { entries },
            None => Names::none(self.alloc),
        }
    }

    /// Opens a scope that has these names already.
    pub fn enter_with(&mut self, opened: Names) -> Result<(), CheckError>
        ensures { (known : Known) → Learns result (scopes_in self.new known) (names.enter_with (scope_of opened) (scopes_in self.old known)) }
    {
        let Names { entries } = opened;
        self.open.push(entries)?;
        Ok(())
    }

    /// Whether no block is open.
    pub fn is_file(&self) -> bool
        ensures { (known : Known) → result ≡ names.in_file (scopes_in self.now known) }
    {
        self.open.len() <= self.lists.len() + 1
    }

    /// What a name stands for.
    pub fn find(&self, name: &[u8]) -> Option<Binding>
        ensures { option_map binding_of result ≡ names.found_in (scopes_of self.now) name.now }
    {
        let mut left = self.open.len();
        while left > 0 {
            left -= 1;
            if let Some(binding) = meaning(&self.open[left], name) {
                return Some(binding);
            }
        }
        builtin(name)
    }

    /// What a name is declared as in the innermost scope.
    pub fn innermost(&self, name: &[u8]) -> Option<Binding>
        ensures { option_map binding_of result ≡ names.innermost_in (scopes_of self.now) name.now }
    {
        match self.open.last() {
            Some(scope) => meaning(scope, name),
            None => None,
        }
    }

    /// Refuses a name that is declared in the innermost scope.
    pub fn refuse_again(&self, name: &[u8], line: u32) -> Result<(), CheckError>
        ensures { (known : Known) → Learns result (scopes_in self.now known) (names.tests_of_new (scopes_in self.now known) name.now line (scopes_in self.now known)) }
    {
        match self.innermost(name) {
            Some(_) => refused(Kind::Again, line),
            None => Ok(()),
        }
    }

    /// Says what a name stands for in the innermost scope.
    pub fn bind(&mut self, name: &[u8], binding: Binding) -> Result<(), CheckError>
        ensures { (known : Known) → Learns result (scopes_in self.new known) (names.bind name.now (binding_of binding) (scopes_in self.old known)) }
    {
        let name = copied(self.alloc, name)?;
        if let Some(scope) = self.open.last_mut() {
            scope.insert(name, binding)?;
        }
        Ok(())
    }
}
