//! The body of a function while it is checked (ISO/IEC 9899:1990, 6.7.1).

ghost use Rattle.std.specs.Prelude.{◌≡◌, [], map, Ok, IfOk};
ghost use Rattle.c_typed.specs.Views.{variable_of};
ghost use Rattle.type_rules.specs.Known.{Known, no_body};
ghost use Rattle.type_rules.specs.Objects as objects;
ghost use Rattle.c_tables.specs.Answers.{Answers};
ghost use Rattle.c_tables.specs.Tables.{body_of, body_in};

use crate::error::CheckError;
use c_typed::{Qualified, Ty, Variable};
use std::alloc::Global;

/// The body of a function: the function's name, the type of its result, its locals so far, and the lines
/// of the declarators of the body that came already.
#[derive(Drop)]
pub struct Body {
    alloc: Global,
    name: Vec<u8>,
    result: Ty,
    locals: Vec<Variable>,
    declarators: Vec<u32>,
}

impl Body {
    /// What stands for a body outside functions.
    pub fn outside(alloc: Global) -> Body
        ensures { body_of result ≡ no_body }
    {
        Body {
            alloc,
            name: Vec::new(alloc),
            result: Ty::Void,
            locals: Vec::new(alloc),
            declarators: Vec::new(alloc),
        }
    }

    /// The body of a function, before its first declaration.
    pub fn begin(alloc: Global, name: &[u8], returns: Ty) -> Result<Body, CheckError>
        ensures { IfOk result (λ b. body_of b ≡ record { name = name.now; result = returns; locals = []; declarators = 0 }) }
    {
        Ok(Body {
            alloc,
            name: name.to_vec(alloc)?,
            result: returns,
            locals: Vec::new(alloc),
            declarators: Vec::new(alloc),
        })
    }

    /// The name of the function.
    pub fn name(&self) -> &[u8]
        ensures { result.now ≡ (body_of self.now).name }
    {
        &self.name
    }

    /// The type of the function's result.
    pub fn result(&self) -> Ty
        ensures { result ≡ (body_of self.now).result }
    {
        self.result
    }

    /// The number of the next declarator among those of the body, from 0; it stands in this line.
    pub fn next_declarator(&mut self, line: u32) -> Result<usize, CheckError>
        ensures { (known : Known) → Answers (λ number. number) result (body_in self.new known) (objects.next_declarator (body_in self.old known)) }
    {
        let declarator = self.declarators.len();
        self.declarators.push(line)?;
        Ok(declarator)
    }

    /// Puts a local after those that the body has, and gives its number.
    pub fn add_local(&mut self, name: &[u8], ty: Qualified, line: u32) -> Result<usize, CheckError>
        ensures { (known : Known) → Answers (λ number. number) result (body_in self.new known) (objects.add_local name.now ty line (body_in self.old known)) }
    {
        let local = self.locals.len();
        self.locals.push(Variable {
            name: name.to_vec(self.alloc)?,
            ty,
            line,
        })?;
        Ok(local)
    }

    /// Gives a local the type that its initializer completed.
    pub fn complete_local(&mut self, local: usize, ty: Qualified)
        ensures { (known : Known) → objects.complete_local local ty (body_in self.old known) ≡ Ok (body_in self.new known, body_in self.new known) }
    {
        if let Some(entry) = self.locals.get_mut(local) {
            entry.ty = ty;
        }
    }

    /// The locals of the body.
    pub fn into_locals(self) -> Vec<Variable>
        ensures { map variable_of result.items ≡ (body_of self).locals }
    {
        self.locals
    }
}
