//! The sizes of functions and helpers.

ghost use Rattle.std.specs.Prelude.{◌≡◌, ◌+◌, map};
ghost use Rattle.c_typed.specs.Nodes.{capped};
ghost use Rattle.c_typed.specs.Room as room;
ghost use Rattle.c_typed.specs.Words as stated;
ghost use Rattle.c_typed.specs.Views.{program_of, static_of, variable_of, size_of};
ghost use Rattle.ram_place.specs.Helpers as helpers;
ghost use Rattle.ram_place.specs.Placement as placement;
ghost use Rattle.ram_place.specs.Sizes as sizes;
ghost use Rattle.ram_place.specs.Start as start;

use crate::amount::{plus, times};
use crate::leaving::is_left_out;
use crate::room::statements_room;
use crate::words::statements_words;
use c_typed::{FnId, Helper, Static, Structure, Typed, Variable, bytes_of};

fn helper_frame(helper: Helper) -> u64
    ensures { result ≡ helpers.frame_bytes helper }
{
    match helper {
        Helper::Mul2 | Helper::Divu2 | Helper::Divs2 | Helper::Remu2 | Helper::Rems2 => 8,
        Helper::Mul4 | Helper::Divu4 | Helper::Divs4 | Helper::Remu4 | Helper::Rems4 => 16,
        Helper::Shl2 | Helper::Shru2 | Helper::Shrs2 => 4,
        Helper::Shl4 | Helper::Shru4 | Helper::Shrs4 => 8,
    }
}

fn helper_words(helper: Helper) -> u64
    ensures { result ≡ helpers.words helper }
{
    match helper {
        Helper::Mul2 => 90,
        Helper::Mul4 => 160,
        Helper::Divu2 | Helper::Divs2 | Helper::Remu2 | Helper::Rems2 => 180,
        Helper::Divu4 | Helper::Divs4 | Helper::Remu4 | Helper::Rems4 => 320,
        Helper::Shl2 | Helper::Shru2 | Helper::Shrs2 => 50,
        Helper::Shl4 | Helper::Shru4 | Helper::Shrs4 => 70,
    }
}

fn variables_bytes(structures: &[Structure], variables: &[Variable]) -> u64
    ensures { result ≡ capped (room.variables_bytes (map size_of structures.now) (map variable_of variables.now)) }
{
    let mut sum = 0;
    for variable in variables {
        sum = plus(sum, bytes_of(structures, variable.ty.ty));
    }
    sum
}

/// How many bytes the frame of a function of the program, or of a helper, has.
pub fn frame_bytes(p: &Typed, function: FnId) -> u64
    ensures { result ≡ capped (sizes.frame_bytes (program_of p.now) function) }
{
    match function {
        FnId::Helper(helper) => helper_frame(helper),
        FnId::User(number) => match p.functions.get(number as usize) {
            Some(function) => plus(
                variables_bytes(&p.structures, &function.params),
                plus(
                    variables_bytes(&p.structures, &function.locals),
                    statements_room(&p.structures, &function.body),
                ),
            ),
            None => 0,
        },
    }
}

/// How many bytes the parameters and the locals of a function of the program have together, which stand at the front of its frame. A
/// helper has none of either.
pub fn variable_bytes(p: &Typed, function: FnId) -> u64
    ensures { result ≡ capped (sizes.variable_bytes (program_of p.now) function) }
{
    match function {
        FnId::Helper(_) => 0,
        FnId::User(number) => match p.functions.get(number as usize) {
            Some(function) => plus(
                variables_bytes(&p.structures, &function.params),
                variables_bytes(&p.structures, &function.locals),
            ),
            None => 0,
        },
    }
}

/// How many words the block of a function of the program, or of a helper, is stated to have.
pub fn block_words(p: &Typed, function: FnId) -> u64
    ensures { result ≡ capped (sizes.block_words (program_of p.now) function) }
{
    match function {
        FnId::Helper(helper) => helper_words(helper),
        FnId::User(number) => match p.functions.get(number as usize) {
            Some(function) => plus(
                4,
                statements_words(&p.structures, &function.locals, &function.body),
            ),
            None => 0,
        },
    }
}

/// How many bytes a static object has, if it isn't left out.
fn bytes_kept(structures: &[Structure], object: &Static, without: &[u32], number: usize) -> u64
    ensures { result ≡ capped (start.bytes_kept (map size_of structures.now) without.now number (static_of object.now)) }
{
    if is_left_out(without, number) {
        return 0;
    }
    bytes_of(structures, object.ty.ty)
}

fn statics_bytes(structures: &[Structure], statics: &[Static], without: &[u32]) -> u64
    ensures { result ≡ capped (stated.statics_bytes (map size_of structures.now) (placement.kept_from 0 without.now (map static_of statics.now))) }
{
    let mut sum = 0;
    for (number, object) in statics.iter().enumerate() {
        sum = plus(sum, bytes_kept(structures, object, without, number));
    }
    sum
}

/// How many words the start block is stated to have, where static objects that are left out by their numbers get no first bytes.
pub fn start_words_but(p: &Typed, without: &[u32]) -> u64
    ensures { result ≡ capped (start.start_size_but (program_of p.now) without.now) }
{
    plus(
        100,
        times(4, statics_bytes(&p.structures, &p.statics, without)),
    )
}

/// How many words the start block is stated to have.
pub fn start_words(p: &Typed) -> u64
    ensures { result ≡ capped (stated.start_size (program_of p.now)) }
{
    start_words_but(p, &[])
}
