//! Types, and the objects and functions of a typed program.

use crate::listing::{Listing, inside};
use crate::names::of_int;
use crate::statements::put_statements;
use c_typed::{
    Function, Initial, InitialByte, Member, Qualified, Static, Structure, Ty, Typed, Variable,
};

/// A part of the line: a type.
pub fn put_type(out: &mut Listing, ty: Ty) {
    match ty {
        Ty::Void => out.word("Void"),
        Ty::Int(ty) => out.word(of_int(ty)),
        Ty::Pointer(target) => out.numbered("Pointer", target as u64),
        Ty::Array {
            element,
            length,
            size,
        } => {
            out.open("Array");
            out.number(element as u64);
            out.number(length as u64);
            out.number(size);
            out.close();
        }
        Ty::Struct(number) => out.numbered("Struct", number as u64),
    }
}

/// Parts of the line: `const` and `volatile` where they hold, and the type.
pub fn put_qualified(out: &mut Listing, qualified: Qualified) {
    if qualified.constant {
        out.word("const");
    }
    if qualified.volatile {
        out.word("volatile");
    }
    put_type(out, qualified.ty);
}

fn put_target(out: &mut Listing, target: Qualified) {
    out.begin(1, "Target");
    put_qualified(out, target);
    out.end();
}

fn put_member(out: &mut Listing, member: &Member) {
    out.begin(2, "Member");
    out.name(&member.name);
    out.number(member.offset);
    put_qualified(out, member.ty);
    out.end();
}

fn put_structure(out: &mut Listing, structure: &Structure) {
    out.begin(1, "Structure");
    out.number(structure.size);
    out.end();
    for member in &structure.members {
        put_member(out, member);
    }
}

fn put_initial(out: &mut Listing, initial: Initial) {
    out.begin(2, "Initial");
    out.number(initial.offset);
    match initial.byte {
        InitialByte::Number(number) => out.numbered("Number", number as u64),
        InitialByte::Address { object, byte } => {
            out.paired("Address", object as u64, byte as u64);
        }
    }
    out.end();
}

fn put_static(out: &mut Listing, object: &Static) {
    out.begin(1, "Static");
    out.name(&object.name);
    put_qualified(out, object.ty);
    out.number(object.line as u64);
    out.end();
    for initial in &object.initial {
        put_initial(out, *initial);
    }
}

fn put_variable(out: &mut Listing, head: &str, variable: &Variable) {
    out.begin(2, head);
    out.name(&variable.name);
    put_qualified(out, variable.ty);
    out.number(variable.line as u64);
    out.end();
}

fn put_variables(out: &mut Listing, head: &str, variables: &[Variable]) {
    for variable in variables {
        put_variable(out, head, variable);
    }
}

fn put_function(out: &mut Listing, function: &Function) {
    out.begin(1, "Function");
    out.name(&function.name);
    if function.interrupt {
        out.word("interrupt");
    }
    put_type(out, function.result);
    out.number(function.line as u64);
    out.end();
    put_variables(out, "Param", &function.params);
    put_variables(out, "Local", &function.locals);
    out.begin(2, "Body");
    out.end();
    put_statements(out, &function.body, inside(2));
}

/// A typed program: its tables, its objects and its functions.
pub fn put_program(out: &mut Listing, typed: &Typed) {
    out.begin(0, "Program");
    out.end();
    for target in &typed.targets {
        put_target(out, *target);
    }
    for structure in &typed.structures {
        put_structure(out, structure);
    }
    for object in &typed.statics {
        put_static(out, object);
    }
    for function in &typed.functions {
        put_function(out, function);
    }
}
