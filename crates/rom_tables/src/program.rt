//! The other parts of a program once more: structures, static objects, and functions with reads of tables as calls.

ghost use Rattle.std.specs.Prelude.{◌≡◌, map, IfOk};
ghost use Rattle.c_typed.specs.Views.{function_of, member_of, static_of, structure_of, variable_of};
ghost use Rattle.rom_tables.specs.Outlined.{outlined_function};

use crate::statement::statements_in;
use crate::tables::Tables;
use c_typed::{Function, Member, Static, Structure, Variable};
use std::alloc::{AllocError, Global};

// ---- structures

#[tactic(auto, using(crate::proofs::Parts::more_members, crate::proofs::Parts::all_members))]
fn members_in(alloc: Global, members: &[Member]) -> Result<Vec<Member>, AllocError>
    ensures { IfOk result (λ made. map member_of made.items ≡ map member_of members.now) }
{
    let mut made = Vec::new(alloc);
    for k in 0..members.len() {
        let m = &members[k];
        made.push(Member {
            name: m.name.to_vec(alloc)?,
            ty: m.ty,
            offset: m.offset,
        })?;
    }
    Ok(made)
}

/// The same structures.
#[tactic(auto, using(crate::proofs::Parts::more_structures, crate::proofs::Parts::all_structures))]
pub(crate) fn structures_in(
    alloc: Global,
    structures: &[Structure],
) -> Result<Vec<Structure>, AllocError>
    ensures { IfOk result (λ made. map structure_of made.items ≡ map structure_of structures.now) }
{
    let mut made = Vec::new(alloc);
    for k in 0..structures.len() {
        let s = &structures[k];
        made.push(Structure {
            members: members_in(alloc, &s.members)?,
            size: s.size,
        })?;
    }
    Ok(made)
}

// ---- objects

/// The same static objects.
#[tactic(auto, using(crate::proofs::Parts::more_statics, crate::proofs::Parts::all_statics))]
pub(crate) fn statics_in(alloc: Global, statics: &[Static]) -> Result<Vec<Static>, AllocError>
    ensures { IfOk result (λ made. map static_of made.items ≡ map static_of statics.now) }
{
    let mut made = Vec::new(alloc);
    for k in 0..statics.len() {
        let s = &statics[k];
        made.push(Static {
            name: s.name.to_vec(alloc)?,
            ty: s.ty,
            initial: s.initial.to_vec(alloc)?,
            line: s.line,
        })?;
    }
    Ok(made)
}

#[tactic(auto, using(crate::proofs::Parts::more_variables, crate::proofs::Parts::all_variables))]
fn variables_in(alloc: Global, variables: &[Variable]) -> Result<Vec<Variable>, AllocError>
    ensures { IfOk result (λ made. map variable_of made.items ≡ map variable_of variables.now) }
{
    let mut made = Vec::new(alloc);
    for k in 0..variables.len() {
        let v = &variables[k];
        made.push(Variable {
            name: v.name.to_vec(alloc)?,
            ty: v.ty,
            line: v.line,
        })?;
    }
    Ok(made)
}

// ---- functions

fn function_in(alloc: Global, f: &Function, tables: &Tables) -> Result<Function, AllocError>
    ensures { IfOk result (λ made. function_of made ≡ outlined_function tables.now.numbers.items tables.now.first (function_of f.now)) }
{
    let body = statements_in(&f.body, alloc, tables)?;
    let params = variables_in(alloc, &f.params)?;
    let locals = variables_in(alloc, &f.locals)?;
    let name = f.name.to_vec(alloc)?;
    Ok(Function {
        name,
        result: f.result,
        params,
        locals,
        body,
        interrupt: f.interrupt,
        line: f.line,
    })
}

/// The functions, with reads of tables as calls.
#[tactic(auto, using(crate::proofs::Parts::more_functions, crate::proofs::Parts::all_functions))]
pub(crate) fn functions_in(
    alloc: Global,
    functions: &[Function],
    tables: &Tables,
) -> Result<Vec<Function>, AllocError>
    ensures { IfOk result (λ made. map function_of made.items ≡ map (outlined_function tables.now.numbers.items tables.now.first) (map function_of functions.now)) }
{
    let mut made = Vec::new(alloc);
    for k in 0..functions.len() {
        let one = function_in(alloc, &functions[k], tables)?;
        made.push(one)?;
    }
    Ok(made)
}
