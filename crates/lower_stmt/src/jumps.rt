//! Where `break` and `continue` lead to from a statement.

ghost use Rattle.std.specs.Prelude.{◌≡◌, ◌+◌, ◌<◌, ◌^◌};
ghost use Rattle.lower_stmt.specs.Jumps as jumps;

/// How many loops of the code stand between a statement and the loop that `break` leaves, 0 for the innermost (ISO/IEC
/// 9899:1990, 6.6.6.3), and between it and the loop that `continue` is about (6.6.6.2). `continue` begins that loop
/// again where `again` is set; otherwise it leaves it, since what stands after it comes next.
#[derive(Clone, Copy, PartialEq, Eq)]
pub struct Jumps {
    pub leave: usize,
    pub turn: usize,
    pub again: bool,
}

impl Jumps {
    /// Those of the body of a function, in which neither stands.
    pub fn outside() -> Jumps
        ensures { result ≡ jumps.outside }
    {
        Jumps {
            leave: 0,
            turn: 0,
            again: false,
        }
    }

    /// Those of the body of a `while`, after which the loop begins again.
    pub fn in_while() -> Jumps
        ensures { result ≡ jumps.in_while }
    {
        Jumps {
            leave: 0,
            turn: 0,
            again: true,
        }
    }

    /// Those of the body of a `do` or a `for`, which stands in a loop of its own that runs once.
    pub fn in_body() -> Jumps
        ensures { result ≡ jumps.in_body }
    {
        Jumps {
            leave: 1,
            turn: 0,
            again: false,
        }
    }

    /// Those of a segment of a switch with so many segments after it: each of them is a loop round this one, and so is
    /// the segment itself.
    pub fn in_segment(self, behind: usize) -> Jumps
        requires { self.turn + (behind + 1) < 2 ^ 64 }
        ensures { result ≡ jumps.in_segment self behind }
    {
        Jumps {
            leave: behind,
            turn: self.turn + (behind + 1),
            again: self.again,
        }
    }
}
