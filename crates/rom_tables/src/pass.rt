//! A program whose tables are read by calls.

ghost use Rattle.std.specs.Prelude.{◌≡◌, ◌≤◌, ◌^◌, length, map, IfOk};
ghost use Rattle.c_typed.specs.Nodes.{program_size};
ghost use Rattle.c_typed.specs.Views.{function_of, program_of, static_of, structure_of};
ghost use Rattle.rom_tables.specs.Outlined.{outlined, outlined_functions, with_rows};
ghost use Rattle.rom_tables.specs.Tables.{readers_from, tables_of};

use crate::program::{functions_in, statics_in, structures_in};
use crate::readers::{add_readers, readers_from, with_rows};
use crate::tables::{Tables, tables_of};
use c_typed::{Function, Qualified, Static, Structure, Typed};
use std::alloc::{AllocError, Global};

/// A program whose tables are read by calls: the program, the numbers of its tables among the static objects in order of
/// declaration, and of each table the number of its reader among the functions.
#[derive(Drop)]
pub struct Outlined {
    pub typed: Typed,
    pub tables: Vec<u32>,
    pub readers: Vec<u32>,
}

// The program from its parts. It is sound and small, since the given one is.
fn typed_from(
    p: &Typed,
    targets: Vec<Qualified>,
    structures: Vec<Structure>,
    statics: Vec<Static>,
    functions: Vec<Function>,
) -> Typed
    requires small { program_size p.now.statics.items p.now.functions.items ≤ 2 ^ 24 }
    requires targets { targets.items ≡ with_rows (program_of p.now) (tables_of (program_of p.now)) (program_of p.now).targets }
    requires structures { map structure_of structures.items ≡ (program_of p.now).structures }
    requires statics { map static_of statics.items ≡ (program_of p.now).statics }
    requires functions { map function_of functions.items ≡ outlined_functions (program_of p.now) (tables_of (program_of p.now)) }
    ensures { program_of result ≡ outlined (program_of p.now) }
{
    Typed {
        targets,
        structures,
        statics,
        functions,
    }
}

// The functions with reads as calls, and the readers behind them.
fn functions_with(
    alloc: Global,
    p: &Typed,
    targets: &[Qualified],
    tables: &Tables,
) -> Result<Vec<Function>, AllocError>
    requires tables { tables.now.numbers.items ≡ tables_of (program_of p.now) }
    requires first { tables.now.first ≡ length p.now.functions.items }
    requires targets { targets.now ≡ with_rows (program_of p.now) (tables_of (program_of p.now)) (program_of p.now).targets }
    ensures { IfOk result (λ made. map function_of made.items ≡ outlined_functions (program_of p.now) (tables_of (program_of p.now))) }
{
    let mut functions = functions_in(alloc, &p.functions, tables)?;
    add_readers(alloc, p, targets, &tables.numbers, &mut functions)?;
    Ok(functions)
}

/// Makes each read of a table a call of its reader, and puts the readers behind all other functions.
///
/// A table is a const static array of one dimension whose elements have a char type; its bytes can stand in program
/// memory. Nodes, static objects, parameters and locals are together at most 2 to the 24. The one error is that memory ran
/// out.
pub fn outline(alloc: Global, p: &Typed) -> Result<Outlined, AllocError>
    requires small { program_size p.now.statics.items p.now.functions.items ≤ 2 ^ 24 }
    ensures program { IfOk result (λ o. program_of o.typed ≡ outlined (program_of p.now)) }
    ensures tables { IfOk result (λ o. o.tables.items ≡ tables_of (program_of p.now)) }
    ensures readers { IfOk result (λ o. o.readers.items ≡ readers_from (length p.now.functions.items) (tables_of (program_of p.now))) }
{
    let numbers = tables_of(alloc, p)?;
    let tables = Tables {
        numbers,
        first: p.functions.len() as u32,
    };
    let targets = with_rows(alloc, p, &tables.numbers)?;
    let functions = functions_with(alloc, p, &targets, &tables)?;
    let structures = structures_in(alloc, &p.structures)?;
    let statics = statics_in(alloc, &p.statics)?;
    let readers = readers_from(alloc, tables.first, &tables.numbers)?;
    Ok(Outlined {
        typed: typed_from(p, targets, structures, statics, functions),
        tables: tables.numbers,
        readers,
    })
}
