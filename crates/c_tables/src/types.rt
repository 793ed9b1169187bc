//! The types that a unit has so far.

ghost use Rattle.std.specs.Prelude.{◌≡◌, Ok, [], map, is_some, if◌then◌else◌, slice_get, IfOk, IfErr, OnOk};
ghost use Rattle.std.specs.Option.{option_map};
ghost use Rattle.c_typed.specs.Types as stated;
ghost use Rattle.c_typed.specs.Views.{structure_of};
ghost use Rattle.type_rules.specs.Faults as kind;
ghost use Rattle.type_rules.specs.Known.{Known};
ghost use Rattle.type_rules.specs.Names.{entry_of};
ghost use Rattle.type_rules.specs.Places.{member_from};
ghost use Rattle.type_rules.specs.Rows as rows;
ghost use Rattle.type_rules.specs.Units.{structure_tree};
ghost use Rattle.c_tables.specs.Answers.{Answers, Learns, kind_of};
ghost use Rattle.c_tables.specs.Tables.{field_of, progress_of, shape_of, tag_of, types_in};
ghost use Rattle.c_tables.specs.declared.error.CheckError.TheVariants.{NoMemory};

use crate::error::{CheckError, Kind, copied};
use c_typed::{Member, Qualified, Structure, Ty};
use indexmap::{IndexMap, IndexSet};
use std::alloc::Global;

/// A member of a structure, and how many bytes stand before it.
#[derive(Clone, Copy)]
pub struct Field {
    pub ty: Qualified,
    pub offset: u64,
}

/// A structure: its members in order, its bytes so far, and how far its body is.
#[derive(Drop)]
struct Shape {
    fields: IndexMap<Vec<u8>, Field>,
    size: u64,
    body: Progress,
}

/// What a tag is that of: the structure of this number, or an enumeration.
#[derive(Clone, Copy, PartialEq, Eq)]
pub enum Tag {
    Structure(usize),
    Enumeration,
}

/// How far the body of a structure is.
#[derive(Clone, Copy, PartialEq, Eq)]
pub enum Progress {
    Absent,
    Open,
    Closed,
}

fn is_closed(body: Progress) -> bool
    ensures { result ≡ rows.is_closed (progress_of body) }
{
    match body {
        Progress::Closed => true,
        Progress::Absent | Progress::Open => false,
    }
}

impl Shape {
    fn add(&mut self, name: Vec<u8>, ty: Qualified, bytes: u64) -> Result<(), CheckError>
        ensures added { OnOk result (shape_of self.new ≡ rows.with_member name.items ty bytes (shape_of self.old)) }
        ensures err { IfErr result (λ e. e ≡ NoMemory) }
    {
        let offset = self.size;
        self.fields.insert(name, Field { ty, offset })?;
        self.size = kept(offset as u128 + bytes as u128);
        Ok(())
    }
}

fn found(fields: &IndexMap<Vec<u8>, Field>, name: &[u8]) -> Option<(usize, Field)>
    ensures { option_map (λ m. (m.0, field_of m.1)) result ≡ member_from (map (λ e. (e.0.items, field_of e.1)) fields.now.entries) name.now 0 }
{
    match fields.get_full(name) {
        Some((index, _, field)) => Some((index, *field)),
        None => None,
    }
}

/// The types of a unit: what pointers point to and arrays are made of, the structures, and the tags of structures
/// and of enumerations.
#[derive(Drop)]
pub struct Types {
    alloc: Global,
    targets: IndexSet<Qualified>,
    shapes: Vec<Shape>,
    tags: IndexMap<Vec<u8>, Tag>,
}

/// The greatest number of bytes that an object has.
pub const MOST_BYTES: u64 = 65_535;

/// A type without qualifiers.
pub fn plain(ty: Ty) -> Qualified
    ensures { result ≡ rows.plain ty }
{
    Qualified {
        ty,
        constant: false,
        volatile: false,
    }
}

/// A type with the qualifiers of another one.
pub fn like(whole: Qualified, ty: Ty) -> Qualified
    ensures { result ≡ rows.like whole ty }
{
    Qualified {
        ty,
        constant: whole.constant,
        volatile: whole.volatile,
    }
}

/// A number of bytes as it is kept: exact below 2 to the 40. Beyond that only its rest modulo 65,536 counts, which is what
/// `sizeof` shows of it.
pub fn kept(size: u128) -> u64
    ensures { result ≡ stated.kept size }
{
    const EXACT: u128 = 0x100_0000_0000;
    if size < EXACT {
        size as u64
    } else {
        (size % 65536 + EXACT) as u64
    }
}

impl Types {
    /// Tables without a type: no row, no structure, no tag.
    pub fn new(alloc: Global) -> Types
        ensures { (known : Known) → types_in result known ≡ record known { targets = []; shapes = []; tags = [] } }
    {
        Types {
            alloc,
            targets: IndexSet::new(alloc),
            shapes: Vec::new(alloc),
            tags: IndexMap::new(alloc),
        }
    }

    /// The row of a type that is pointed to.
    fn row(&mut self, target: Qualified) -> Result<usize, CheckError>
        ensures err { IfErr result (λ e. e ≡ NoMemory) }
        ensures said { (known : Known) → Answers (λ row. row) result (types_in self.new known) (rows.row_of target (types_in self.old known)) }
    {
        let (index, _) = self.targets.insert_full(target)?;
        Ok(index)
    }

    /// The type of a row.
    pub fn target(&self, row: usize) -> Qualified
        ensures { (known : Known) → result ≡ rows.target_of (types_in self.now known) row }
    {
        match self.targets.get_index(row) {
            Some(target) => *target,
            None => plain(Ty::Void),
        }
    }

    /// The pointer to a type.
    pub fn pointer_to(&mut self, target: Qualified) -> Result<Ty, CheckError>
        ensures { (known : Known) → Answers (λ ty. ty) result (types_in self.new known) (rows.pointer_to target (types_in self.old known)) }
    {
        let row = self.row(target)?;
        Ok(Ty::Pointer(row))
    }

    /// The array of this many elements, or of a number not known yet, which is 0.
    pub fn array_of(&mut self, element: Qualified, length: u32) -> Result<Qualified, CheckError>
        ensures { (known : Known) → Answers (λ ty. ty) result (types_in self.new known) (rows.array_of element length (types_in self.old known)) }
    {
        let size = kept(self.bytes_of(element.ty) as u128 * length as u128);
        let row = self.row(plain(element.ty))?;
        Ok(like(
            element,
            Ty::Array {
                element: row,
                length,
                size,
            },
        ))
    }

    /// How many bytes a value or an object of the type has so far.
    pub fn bytes_of(&self, ty: Ty) -> u64
        ensures { (known : Known) → result ≡ rows.bytes_of (types_in self.now known) ty }
    {
        match ty {
            Ty::Struct(number) => match self.shapes.get(number) {
                Some(shape) => shape.size,
                None => 0,
            },
            other => c_typed::bytes_of(&[], other),
        }
    }

    /// Whether an object can have the type: it is no void, no structure without a whole body, and no
    /// array without a length.
    pub fn is_complete(&self, ty: Ty) -> bool
        ensures { (known : Known) → result ≡ rows.is_complete (types_in self.now known) ty }
    {
        match ty {
            Ty::Void => false,
            Ty::Int(_) | Ty::Pointer(_) => true,
            Ty::Array { length, .. } => length != 0,
            Ty::Struct(number) => is_closed(self.progress(number)),
        }
    }

    /// How far the body of a structure is.
    pub fn progress(&self, number: usize) -> Progress
        ensures { (known : Known) → progress_of result ≡ rows.progress_of (types_in self.now known) number }
    {
        match self.shapes.get(number) {
            Some(shape) => shape.body,
            None => Progress::Absent,
        }
    }

    /// Why a body of a structure can't stand where no body may: it is a second one, or one too many.
    pub fn second_body(&self, number: usize) -> Kind
        ensures { (known : Known) → kind_of result ≡ (if rows.is_absent (rows.progress_of (types_in self.now known) number) then kind.Declare else kind.Again) }
    {
        match self.progress(number) {
            Progress::Absent => Kind::Declare,
            Progress::Open => Kind::Again,
            Progress::Closed => Kind::Again,
        }
    }

    /// A structure without a body so far.
    fn add_structure(&mut self) -> Result<usize, CheckError>
        ensures err { IfErr result (λ e. e ≡ NoMemory) }
        ensures said { (known : Known) → Answers (λ number. number) result (types_in self.new known) (rows.new_structure (types_in self.old known)) }
    {
        let index = self.shapes.len();
        let shape = Shape {
            fields: IndexMap::new(self.alloc),
            size: 0,
            body: Progress::Absent,
        };
        self.shapes.push(shape)?;
        Ok(index)
    }

    /// What a tag is that of.
    pub fn tagged(&self, tag: &[u8]) -> Option<Tag>
        ensures { (known : Known) → option_map tag_of result ≡ rows.tagged (types_in self.now known) tag.now }
    {
        match self.tags.get(tag) {
            Some(found) => Some(*found),
            None => None,
        }
    }

    /// The tag of an enumeration, whose body ends here.
    pub fn declare_enumeration(&mut self, tag: &[u8]) -> Result<(), CheckError>
        ensures { (known : Known) → Learns result (types_in self.new known) (rows.new_enum_tag tag.now (types_in self.old known)) }
    {
        let name = copied(self.alloc, tag)?;
        self.tags.insert(name, Tag::Enumeration)?;
        Ok(())
    }

    /// A structure without a tag.
    pub fn untagged(&mut self) -> Result<usize, CheckError>
        ensures { (known : Known) → Answers (λ number. number) result (types_in self.new known) (rows.new_structure (types_in self.old known)) }
    {
        self.add_structure()
    }

    /// The structure of a tag that isn't declared yet.
    pub fn declare_tag(&mut self, tag: &[u8]) -> Result<usize, CheckError>
        ensures { (known : Known) → Answers (λ number. number) result (types_in self.new known) (rows.new_tag tag.now (types_in self.old known)) }
    {
        let structure = self.add_structure()?;
        let name = copied(self.alloc, tag)?;
        self.tags.insert(name, Tag::Structure(structure))?;
        Ok(structure)
    }

    /// Says how far the body of a structure is.
    pub fn set_progress(&mut self, number: usize, body: Progress)
        ensures { (known : Known) → rows.set_progress number (progress_of body) (types_in self.old known) ≡ Ok (types_in self.new known, types_in self.new known) }
    {
        if let Some(shape) = self.shapes.get_mut(number) {
            shape.body = body;
        }
    }

    /// Whether a structure has a member of the name.
    pub fn has_member(&self, number: usize, name: &[u8]) -> bool
        ensures { (known : Known) → result ≡ is_some (entry_of (rows.fields_of (types_in self.now known) number) name.now) }
    {
        match self.shapes.get(number) {
            Some(shape) => shape.fields.contains_key(name),
            None => false,
        }
    }

    /// Puts a member after those that a structure has.
    pub fn add_member(
        &mut self,
        number: usize,
        name: &[u8],
        ty: Qualified,
    ) -> Result<(), CheckError>
        ensures { (known : Known) → Learns result (types_in self.new known) (rows.add_member number name.now ty (types_in self.old known)) }
    {
        let bytes = self.bytes_of(ty.ty);
        let name = copied(self.alloc, name)?;
        if let Some(shape) = self.shapes.get_mut(number) {
            shape.add(name, ty, bytes)?;
        }
        Ok(())
    }

    /// The member of a name, and its number.
    pub fn member(&self, number: usize, name: &[u8]) -> Option<(usize, Field)>
        ensures { (known : Known) → option_map (λ m. (m.0, field_of m.1)) result ≡ member_from (rows.fields_of (types_in self.now known) number) name.now 0 }
    {
        match self.shapes.get(number) {
            Some(shape) => found(&shape.fields, name),
            None => None,
        }
    }

    /// The member of a number.
    pub fn member_at(&self, number: usize, index: usize) -> Option<Field>
        ensures { (known : Known) → option_map field_of result ≡ option_map (λ m. m.1) (slice_get (rows.fields_of (types_in self.now known) number) index) }
    {
        let shape = self.shapes.get(number)?;
        let (_, field) = shape.fields.get_index(index)?;
        Some(*field)
    }
}

fn structure_of(alloc: Global, shape: Shape) -> Result<Structure, CheckError>
    ensures { IfOk result (λ s. structure_of s ≡ structure_tree (shape_of shape)) }
{
    let mut members = Vec::new(alloc);
    for (name, field) in shape.fields {
        members.push(Member {
            name,
            ty: field.ty,
            offset: field.offset,
        })?;
    }
    Ok(Structure {
        members,
        size: shape.size,
    })
}

fn rows_of(alloc: Global, targets: IndexSet<Qualified>) -> Result<Vec<Qualified>, CheckError>
    ensures { IfOk result (λ r. r.items ≡ targets.keys) }
{
    let mut listed = Vec::new(alloc);
    for target in targets {
        listed.push(target)?;
    }
    Ok(listed)
}

fn structures_of(alloc: Global, shapes: Vec<Shape>) -> Result<Vec<Structure>, CheckError>
    ensures { IfOk result (λ r. map structure_of r.items ≡ map structure_tree (map shape_of shapes.items)) }
{
    let mut structures = Vec::new(alloc);
    for shape in shapes {
        structures.push(structure_of(alloc, shape)?)?;
    }
    Ok(structures)
}

impl Types {
    /// The rows of what is pointed to, and the structures.
    pub fn into_tables(self) -> Result<(Vec<Qualified>, Vec<Structure>), CheckError>
        ensures targets { (known : Known) → IfOk result (λ r. r.0.items ≡ (types_in self known).targets) }
        ensures structures { (known : Known) → IfOk result (λ r. map structure_of r.1.items ≡ map structure_tree (types_in self known).shapes) }
    {
        let rows = rows_of(self.alloc, self.targets)?;
        let structures = structures_of(self.alloc, self.shapes)?;
        Ok((rows, structures))
    }
}
