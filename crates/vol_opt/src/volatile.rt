//! Which types are volatile, or have a volatile part: by rounds, each of which looks one level deeper.

ghost use Rattle.std.specs.Prelude.{◌≡◌, map, replicate, get_or, false, IfOk};
ghost use Rattle.std.specs.List.{list_any};
ghost use Rattle.c_typed.specs.Views.{member_of, program_of, structure_of};
ghost use Rattle.vol_opt.specs.Kept as stated;
ghost use Rattle.vol_opt.specs.Kept.{has_member, part_count};
ghost use Rattle.vol_opt.specs.Marks.{part_marked, type_marked, targets_within, structures_within};

use c_typed::{Member, Qualified, Structure, Ty, Typed};
use std::alloc::{AllocError, Global};

// Of the types that arrays have elements of, and of the structures, whether they are volatile or have a volatile part.
#[derive(Drop)]
pub struct Marks {
    targets: Vec<bool>,
    structures: Vec<bool>,
}

fn mark_at(marks: &[bool], at: usize) -> bool
    ensures { result ≡ get_or marks.now at false }
{
    match marks.get(at) {
        Some(mark) => *mark,
        None => false,
    }
}

impl Marks {
    fn part(&self, ty: Ty) -> bool
        ensures { result ≡ part_marked self.now.targets.items self.now.structures.items ty }
    {
        match ty {
            Ty::Array { element, .. } => mark_at(&self.targets, element),
            Ty::Struct(number) => mark_at(&self.structures, number),
            Ty::Void | Ty::Int(_) | Ty::Pointer(_) => false,
        }
    }

    fn is_marked(&self, ty: Qualified) -> bool
        ensures { result ≡ type_marked self.now.targets.items self.now.structures.items ty }
    {
        ty.volatile || self.part(ty.ty)
    }

    fn has_marked_member(&self, members: &[Member]) -> bool
        ensures { result ≡ list_any (λ member. type_marked self.now.targets.items self.now.structures.items member.ty) (map member_of members.now) }
    {
        for member in members {
            if self.is_marked(member.ty) {
                return true;
            }
        }
        false
    }

    fn targets_after(&self, alloc: Global, targets: &[Qualified]) -> Result<Vec<bool>, AllocError>
        ensures { IfOk result (λ marks. marks.items ≡ map (type_marked self.now.targets.items self.now.structures.items) targets.now) }
    {
        let mut marks = Vec::new(alloc);
        for target in targets {
            marks.push(self.is_marked(*target))?;
        }
        Ok(marks)
    }

    fn structures_after(
        &self,
        alloc: Global,
        structures: &[Structure],
    ) -> Result<Vec<bool>, AllocError>
        ensures { IfOk result (λ marks. marks.items ≡ map (has_member (type_marked self.now.targets.items self.now.structures.items)) (map structure_of structures.now)) }
    {
        let mut marks = Vec::new(alloc);
        for structure in structures {
            marks.push(self.has_marked_member(&structure.members))?;
        }
        Ok(marks)
    }
}

fn no_marks(alloc: Global, count: usize) -> Result<Vec<bool>, AllocError>
    ensures { IfOk result (λ marks. marks.items ≡ replicate count false) }
{
    let marks = vec![in alloc; false; count]?;
    Ok(marks)
}

// Nothing is marked.
fn first_marks(alloc: Global, p: &Typed) -> Result<Marks, AllocError>
    ensures targets { IfOk result (λ marks. marks.targets.items ≡ targets_within (program_of p.now) 0) }
    ensures structures { IfOk result (λ marks. marks.structures.items ≡ structures_within (program_of p.now) 0) }
{
    let targets = no_marks(alloc, p.targets.len())?;
    let structures = no_marks(alloc, p.structures.len())?;
    Ok(Marks {
        targets,
        structures,
    })
}

// The marks one level deeper.
fn next_marks(alloc: Global, p: &Typed, marks: &Marks) -> Result<Marks, AllocError>
    ensures targets { IfOk result (λ next. next.targets.items ≡ map (type_marked marks.now.targets.items marks.now.structures.items) (program_of p.now).targets) }
    ensures structures { IfOk result (λ next. next.structures.items ≡ map (has_member (type_marked marks.now.targets.items marks.now.structures.items)) (program_of p.now).structures) }
{
    let targets = marks.targets_after(alloc, &p.targets)?;
    let structures = marks.structures_after(alloc, &p.structures)?;
    Ok(Marks {
        targets,
        structures,
    })
}

/// Which types have a volatile part, after as many rounds as there are types that can be parts.
pub fn volatile_marks(alloc: Global, p: &Typed) -> Result<Marks, AllocError>
    ensures targets { IfOk result (λ marks. marks.targets.items ≡ targets_within (program_of p.now) (part_count (program_of p.now))) }
    ensures structures { IfOk result (λ marks. marks.structures.items ≡ structures_within (program_of p.now) (part_count (program_of p.now))) }
{
    let mut marks = first_marks(alloc, p)?;
    for _level in 0..p.targets.len() + p.structures.len() {
        marks = next_marks(alloc, p, &marks)?;
    }
    Ok(marks)
}

/// Of each static object whether it is volatile, or has a volatile member or element at any depth.
pub fn volatile_statics(alloc: Global, p: &Typed) -> Result<Vec<bool>, AllocError>
    ensures { IfOk result (λ marks. marks.items ≡ map (λ object. stated.is_volatile (program_of p.now) object.ty) (program_of p.now).statics) }
{
    let types = volatile_marks(alloc, p)?;
    let mut marks = Vec::new(alloc);
    for object in &p.statics {
        marks.push(types.is_marked(object.ty))?;
    }
    Ok(marks)
}
