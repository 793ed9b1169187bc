//! Types of C, as the typed tree has them.

ghost use Rattle.std.specs.Prelude.{◌≡◌, map, is_some};
ghost use Rattle.c_typed.specs.Types.{is_integer, type_bytes};
ghost use Rattle.c_typed.specs.Views.{size_of};

use c_ints::IntTy;

/// A type (ISO/IEC 9899:1990, 6.1.2.5). Two types are the same exactly where these values are equal.
#[derive(Clone, Copy, PartialEq, Eq, Hash)]
pub enum Ty {
    Void,
    Int(IntTy),
    /// A pointer to the type of this row of `Typed::targets`.
    Pointer(usize),
    /// An array of elements of the type of a row of `Typed::targets`, which has no qualifiers: those
    /// of the elements stand at the array. `length` is 0 where it isn't known yet; `size` is the number
    /// of bytes.
    Array {
        element: usize,
        length: u32,
        size: u64,
    },
    /// The structure of this number in `Typed::structures`.
    Struct(usize),
}

impl Ty {
    /// The integer type that this type is, if it is one.
    pub fn int(self) -> Option<IntTy>
        ensures { is_some result ≡ is_integer self }
    {
        match self {
            Ty::Int(ty) => Some(ty),
            _ => None,
        }
    }
}

/// A type with its qualifiers (ISO/IEC 9899:1990, 6.5.3). An array has those of its elements.
#[derive(Clone, Copy, PartialEq, Eq, Hash)]
pub struct Qualified {
    pub ty: Ty,
    pub constant: bool,
    pub volatile: bool,
}

/// A member of a structure, and how many bytes of the structure stand before it.
#[derive(Drop)]
pub struct Member {
    pub name: Vec<u8>,
    pub ty: Qualified,
    pub offset: u64,
}

/// A structure (ISO/IEC 9899:1990, 6.5.2.1): its members in order, without padding between them, and
/// how many bytes it has. One that never got a body has no members and no bytes.
#[derive(Drop)]
pub struct Structure {
    pub members: Vec<Member>,
    pub size: u64,
}

/// How many bytes a value or an object of the type has (ISO/IEC 9899:1990, 6.3.3.4): 0 for void, 2
/// for a pointer. A structure has the number that is told of it.
pub fn bytes_of(structures: &[Structure], ty: Ty) -> u64
    ensures { result ≡ type_bytes (map size_of structures.now) ty }
{
    match ty {
        Ty::Void => 0,
        Ty::Int(ty) => c_ints::size(ty) as u64,
        Ty::Pointer(_) => 2,
        Ty::Array { size, .. } => size,
        Ty::Struct(number) => match structures.get(number) {
            Some(structure) => structure.size,
            None => 0,
        },
    }
}
