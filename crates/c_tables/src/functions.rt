//! The functions of a unit (ISO/IEC 9899:1990, 6.5.4.3 and 6.7.1).

ghost use Rattle.std.specs.Prelude.{◌≤◌, length};

use crate::error::{CheckError, Kind, refused};
use c_typed::{Qualified, Ty};
use indexmap::IndexSet;
use std::alloc::Global;

/// A function that is declared: the type of its result, those of its parameters, and its number among the
/// functions that the unit defines, if it defines it.
#[derive(Drop)]
pub struct Signature {
    pub result: Qualified,
    pub params: Vec<Ty>,
    pub definition: Option<u32>,
    defined: bool,
}

impl Signature {
    ghost use Rattle.std.specs.Prelude.{◌≡◌, Some};
    ghost use Rattle.c_typed.specs.Sameness.{same_qualified};
    ghost use Rattle.type_rules.specs.Declarations as declarations;
    ghost use Rattle.c_tables.specs.Tables.{signature_of};

    fn same_result(&self, returns: Qualified) -> bool
        ensures { result ≡ same_qualified self.now.result returns }
    {
        self.result == returns
    }

    fn same_params(&self, params: &[Ty]) -> bool
        ensures { result ≡ declarations.same_types self.now.params.items params.now }
    {
        self.params.as_slice() == params
    }

    fn is_same(&self, returns: Qualified, params: &[Ty], defines: bool) -> bool
        ensures { result ≡ declarations.is_same (Some (signature_of self.now)) returns params.now defines }
    {
        self.same_result(returns) && (self.same_params(params) && !(defines && self.defined))
    }
}

/// The functions that are declared, in the order of their first declaration, and the names of those that
/// the unit defines, in the order of their definitions. The latter are so few that a `u32` numbers them.
#[derive(Drop)]
pub struct Functions {
    declared: Vec<Signature>,
    definitions: IndexSet<Vec<u8>>,
    ghost few: { length definitions.keys ≤ 262144 },
}

impl Functions {
    ghost use Rattle.std.specs.Prelude.{◌≡◌, ◌≤◌, true, ◌∷◌, [], not, length, map, slice_get, Ok};
    ghost use Rattle.std.specs.Option.{option_map};
    ghost use Rattle.type_rules.specs.Declarations as declarations;
    ghost use Rattle.type_rules.specs.Faults as kind;
    ghost use Rattle.type_rules.specs.Known.{Known, tried};
    ghost use Rattle.c_tables.specs.Answers.{Answers, Learns};
    ghost use Rattle.c_tables.specs.Tables.{functions_in, signature_of};

    /// No functions so far, of a unit that defines those of these names.
    pub fn new(alloc: Global, definitions: IndexSet<Vec<u8>>) -> Functions
        requires { length definitions.keys ≤ 262144 }
        ensures { (known : Known) → functions_in result known ≡ record known { signatures = []; definitions = map (λ name. name.items) definitions.keys } }
    {
        Functions {
            declared: Vec::new(alloc),
            definitions,
        }
    }

    /// The function of a number among those declared.
    pub fn signature(&self, function: usize) -> Option<&Signature>
        ensures { option_map (λ s. signature_of s.now) result ≡ slice_get (map signature_of self.now.declared.items) function }
    {
        self.declared.get(function)
    }

    fn definition_of(&self, name: &[u8]) -> Option<u32>
        ensures { result ≡ declarations.definition_from (map (λ name. name.items) self.now.definitions.keys) name.now 0 }
    {
        match self.definitions.get_index_of(name) {
            Some(index) => Some(index as u32),
            None => None,
        }
    }

    /// Puts a function after those that are declared, and gives its number among them.
    pub fn add(
        &mut self,
        name: &[u8],
        returns: Qualified,
        params: Vec<Ty>,
    ) -> Result<usize, CheckError>
        ensures { (known : Known) → Answers (λ number. number) result (functions_in self.new known) (declarations.new_function name.now returns params.items (functions_in self.old known)) }
    {
        let function = self.declared.len();
        let definition = self.definition_of(name);
        self.declared.push(Signature {
            result: returns,
            params,
            definition,
            defined: false,
        })?;
        Ok(function)
    }

    fn is_same(&self, function: usize, returns: Qualified, params: &[Ty], defines: bool) -> bool
        ensures { result ≡ declarations.is_same (slice_get (map signature_of self.now.declared.items) function) returns params.now defines }
    {
        match self.signature(function) {
            Some(signature) => signature.is_same(returns, params, defines),
            None => false,
        }
    }

    /// Refuses a further declaration of a function with other types. `defines` says that a body follows,
    /// which may come once.
    pub fn refuse_other(
        &self,
        function: usize,
        returns: Qualified,
        params: &[Ty],
        defines: bool,
        line: u32,
    ) -> Result<(), CheckError>
        ensures { (known : Known) → Learns result known (tried ((not (declarations.is_same (slice_get (map signature_of self.now.declared.items) function) returns params.now defines), kind.Again) ∷ []) line known) }
    {
        if self.is_same(function, returns, params, defines) {
            Ok(())
        } else {
            refused(Kind::Again, line)
        }
    }

    /// Notes that the body of a function comes.
    pub fn set_defined(&mut self, function: usize)
        ensures { (known : Known) → declarations.set_defined true function (functions_in self.old known) ≡ Ok (functions_in self.new known, functions_in self.new known) }
    {
        if let Some(signature) = self.declared.get_mut(function) {
            signature.defined = true;
        }
    }
}
