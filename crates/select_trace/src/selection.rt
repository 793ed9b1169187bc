//! What selection promises as a whole.

ghost use Rattle.select_wide.specs.Links.{Selects, SelectsOpen};

/// Whatever main may find, and under every schedule: what symbolic code does in the world is what byte code does there, as long as byte
/// code isn't stuck. Between any two moments it takes no more instructions than byte code says, and no fewer of those that no pass leaves
/// out. And where byte code accesses by pointers no object but lent ones, selected code goes through FSR to no byte but those of these
/// objects.
pub fn selection_keeps()
    ensures keeps { Selects }
    ensures opens { SelectsOpen }
{}
