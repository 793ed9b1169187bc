//! The tables of a program: const static arrays of one dimension whose elements have a char type.

ghost use Rattle.std.specs.Prelude.{◌≡◌, ◌≤◌, ◌+◌, ◌^◌, length, IfOk, IfSome, map, drop};
ghost use Rattle.c_typed.specs.Views.{expression_of, place_of, program_of, static_of};
ghost use Rattle.rom_tables.specs.Tables.{has_char, is_table, tables_of, object_table, place_in, place_table, start_table};

use c_ints::IntTy;
use c_typed::{Object, Static, TExpr, TPlace, Ty, Typed};
use std::alloc::{AllocError, Global};

/// The numbers of the tables among the static objects, in order, and the number of the first reader.
#[derive(Drop)]
pub(crate) struct Tables {
    pub(crate) numbers: Vec<u32>,
    pub(crate) first: u32,
    pub(crate) ghost room: { first + length numbers.items ≤ 2 ^ 30 },
}

fn has_char(ty: Ty) -> bool
    ensures { result ≡ has_char ty }
{
    match ty {
        Ty::Int(IntTy::Char | IntTy::SChar | IntTy::UChar) => true,
        _ => false,
    }
}

fn is_table(p: &Typed, s: &Static) -> bool
    ensures { result ≡ is_table (program_of p.now) (static_of s.now) }
{
    if !s.ty.constant {
        return false;
    }
    let Ty::Array { element, .. } = s.ty.ty else {
        return false;
    };
    match p.targets.get(element) {
        Some(row) => has_char(row.ty),
        None => false,
    }
}

/// The numbers of a program's tables, in order of declaration.
#[tactic(auto, using(crate::proofs::Finding::is_found, crate::proofs::Finding::is_none, crate::proofs::Finding::all_found))]
pub(crate) fn tables_of(alloc: Global, p: &Typed) -> Result<Vec<u32>, AllocError>
    ensures { IfOk result (λ found. found.items ≡ tables_of (program_of p.now)) }
{
    let mut found = Vec::new(alloc);
    for k in 0..p.statics.len() {
        if is_table(p, &p.statics[k]) {
            found.push(k as u32)?;
        }
    }
    Ok(found)
}

// Where a static object stands among the tables, if it is one.
#[tactic(auto, using(crate::proofs::Finding::is_here, crate::proofs::Finding::not_here))]
fn place_in(numbers: &[u32], wanted: usize) -> Option<u32>
    requires { length numbers.now ≤ 2 ^ 30 }
    ensures { result ≡ place_in wanted 0 numbers.now }
{
    for k in 0..numbers.len() {
        if numbers[k] as usize == wanted {
            return Some(k as u32);
        }
    }
    None
}

fn object_table(tables: &Tables, object: Object) -> Option<u32>
    ensures { result ≡ object_table tables.now.numbers.items object }
{
    match object {
        Object::Static(number) => place_in(&tables.numbers, number),
        _ => None,
    }
}

#[tactic(auto, using(c_typed::proofs::Shapes::place_shapes))]
fn place_table(tables: &Tables, place: &TPlace) -> Option<u32>
    ensures { result ≡ place_table tables.now.numbers.items (place_of place.now) }
{
    match place {
        TPlace::Name { object, .. } => object_table(tables, *object),
        TPlace::Bit { .. } | TPlace::Member { .. } | TPlace::Deref { .. } => None,
    }
}

/// The table, by its place among all, to whose first element an expression leads.
#[tactic(auto, using(crate::proofs::Sights::start_table_address))]
pub(crate) fn start_table(tables: &Tables, e: &TExpr) -> Option<u32>
    ensures { result ≡ start_table tables.now.numbers.items (expression_of e.now) }
{
    match e {
        TExpr::Address { place, .. } => place_table(tables, place),
        _ => None,
    }
}
