//! The loops that an operation stands in.

ghost use Rattle.std.specs.Prelude.{◌≡◌, ◌∷◌, [], true, map, IfOk};
ghost use Rattle.narrow_code.specs.Checked as tested;
ghost use Rattle.narrow_pass.specs.Ways.{marks_of, turn_of, turns_of};

use crate::marks::{Mark, all_below, copied};
use std::alloc::{AllocError, Global};

/// What is known at the front of a loop, and behind it.
#[derive(Drop)]
pub struct Turn {
    pub front: Vec<Mark>,
    pub behind: Vec<Mark>,
}

/// The loops round an operation, innermost last.
#[derive(Drop)]
pub struct Turns {
    pub list: Vec<Turn>,
}

fn same_turn(turn: &Turn) -> Result<Turn, AllocError>
    ensures same { IfOk result (λ made. turn_of made ≡ turn_of turn.now) }
{
    let front = copied(&turn.front)?;
    let behind = copied(&turn.behind)?;
    Ok(Turn { front, behind })
}

#[tactic(auto, using(crate::proofs::Loops::turns_more))]
fn copied_turns(alloc: Global, turns: &[Turn]) -> Result<Vec<Turn>, AllocError>
    ensures same { IfOk result (λ made. map turn_of made.items ≡ map turn_of turns.now) }
{
    let mut made = Vec::new(alloc);
    for turn in turns {
        let one = same_turn(turn)?;
        made.push(one)?;
    }
    Ok(made)
}

impl Turns {
    pub fn new(alloc: Global) -> Turns
        ensures { result.list.items ≡ [] }
    {
        Turns {
            list: Vec::new(alloc),
        }
    }

    /// One more loop inside of these.
    #[tactic(auto, using(crate::proofs::Loops::inside_is))]
    pub fn with(&self, alloc: Global, turn: &Turn) -> Result<Turns, AllocError>
        ensures inside { IfOk result (λ made. turns_of made.list.items ≡ turn_of turn.now ∷ turns_of self.now.list.items) }
    {
        let mut list = copied_turns(alloc, &self.list)?;
        let one = same_turn(turn)?;
        list.push(one)?;
        Ok(Turns { list })
    }

    /// Whether what is known here is no less than is to be known behind the loop that is so many loops out.
    #[tactic(auto, using(crate::proofs::Loops::exit_past, crate::proofs::Loops::exit_at))]
    pub fn may_exit(&self, count: usize, here: &[Mark]) -> bool
        ensures exits { result ≡ true → tested.may_exit (turns_of self.now.list.items) count (marks_of here.now) ≡ true }
    {
        let held = self.list.len();
        if count < held {
            all_below(&self.list[held - 1 - count].behind, here)
        } else {
            true
        }
    }

    /// Whether it is no less than is to be known at that loop's front.
    #[tactic(auto, using(crate::proofs::Loops::repeat_past, crate::proofs::Loops::repeat_at))]
    pub fn may_repeat(&self, count: usize, here: &[Mark]) -> bool
        ensures repeats { result ≡ true → tested.may_repeat (turns_of self.now.list.items) count (marks_of here.now) ≡ true }
    {
        let held = self.list.len();
        if count < held {
            all_below(&self.list[held - 1 - count].front, here)
        } else {
            true
        }
    }
}
