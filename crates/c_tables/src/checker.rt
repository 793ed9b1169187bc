//! What is known of a unit while it is checked.

ghost use Rattle.std.specs.Prelude.{◌≡◌, ◌≤◌, length, map, IfOk};
ghost use Rattle.type_rules.specs.Known.{known_first};
ghost use Rattle.c_tables.specs.Tables.{known_of};

use crate::body::Body;
use crate::error::CheckError;
use crate::functions::Functions;
use crate::scope::Scopes;
use crate::statics::Statics;
use crate::types::Types;
use indexmap::IndexSet;
use std::alloc::Global;

/// The tables of a unit, and the function whose body is checked.
#[derive(Drop)]
pub struct Checker {
    pub alloc: Global,
    pub types: Types,
    pub scopes: Scopes,
    pub functions: Functions,
    pub statics: Statics,
    pub body: Body,
}

impl Checker {
    /// The tables at the beginning of a unit that defines the functions of these names, in this order.
    pub fn new(alloc: Global, definitions: IndexSet<Vec<u8>>) -> Result<Checker, CheckError>
        requires { length definitions.keys ≤ 262144 }
        ensures { IfOk result (λ c. known_of c ≡ known_first (map (λ name. name.items) definitions.keys)) }
    {
        let mut scopes = Scopes::new(alloc);
        scopes.enter()?;
        Ok(Checker {
            alloc,
            types: Types::new(alloc),
            scopes,
            functions: Functions::new(alloc, definitions),
            statics: Statics::new(alloc),
            body: Body::outside(alloc),
        })
    }
}
