//! A board that follows a script.

ghost use Rattle.std.specs.Prelude.{◌≡◌, ◌≤◌, ◌+◌, ◌++◌, ◌∷◌, [], ℕ, Option, Some, IsTrue, IfOk, OnOk, OnErr, length, slice_index};
ghost use Rattle.std.specs.Vec.{vec_len, vec_capacity};
ghost use Rattle.pic_world.specs.Arrivals.{arriving};
ghost use Rattle.pic_sim.specs.Board.{followed, is_outside};
ghost use Rattle.pic_sim.specs.ScriptBoard.{lists_of, script_of, space};

use crate::board::{Board, Exchange};
use pic_world::Script;
use pic_world::script::input_at;
use std::alloc::{AllocError, Global};

/// A board whose answers are those of a script: the input byte whose number is the count of bytes given so far, and 0
/// past the last one; and the flags that arrive at an index.
#[derive(Drop)]
pub struct ScriptBoard {
    given: Vec<Exchange>,
    taken: Vec<Exchange>,
    raised: Vec<u16>,
    script: Script,
}

impl ScriptBoard {
    /// A board that has answered nothing, has no room, and follows the empty script.
    pub fn new(alloc: Global) -> ScriptBoard
        ensures lists { lists_of result ≡ record { given = []; taken = []; raised = [] } }
        ensures follows { script_of result ≡ record { input = []; arrivals = [] } }
    {
        ScriptBoard {
            given: Vec::new(alloc),
            taken: Vec::new(alloc),
            raised: Vec::new(alloc),
            script: Script {
                input: Vec::new(alloc),
                arrivals: Vec::new(alloc),
            },
        }
    }

    fn alloc(&self) -> Global {
        *self.given.allocator()
    }

    /// Makes room for `n` more calls of each kind. Without memory for it nothing has changed.
    pub fn reserve(&mut self, n: usize) -> Result<(), AllocError>
        ensures room { OnOk result (n ≤ space self.new) }
        ensures lists { lists_of self.new ≡ lists_of self.old }
        ensures follows { script_of self.new ≡ script_of self.old }
        ensures refused { OnErr result (self.new ≡ self.old) }
    {
        let given = roomier(&self.given, n)?;
        let taken = roomier(&self.taken, n)?;
        let raised = roomier(&self.raised, n)?;
        self.given = given;
        self.taken = taken;
        self.raised = raised;
        Ok(())
    }
}

fn copy(alloc: Global, script: &Script) -> Result<Script, AllocError>
    ensures { IfOk result (λ copy. followed copy ≡ followed script.now) }
{
    let input = Vec::from_slice(alloc, &script.input)?;
    let arrivals = Vec::from_slice(alloc, &script.arrivals)?;
    Ok(Script { input, arrivals })
}

// The same list, with room for so many more.
fn roomier<T: Copy>(list: &Vec<T>, n: usize) -> Result<Vec<T>, AllocError>
    ensures items { IfOk result (λ longer. longer.items ≡ list.now.items) }
    ensures room { IfOk result (λ longer. vec_len longer + n ≤ vec_capacity longer) }
{
    let mut longer = Vec::new(*list.allocator());
    longer.extend_from_slice(list)?;
    longer.try_reserve(n)?;
    Ok(longer)
}

impl Board for ScriptBoard {
    ghost lists = { lists_of };

    ghost follows = { λ board. Some (script_of board) };

    ghost room = { space };

    fn feed(&mut self, script: &Script) -> Result<(), AllocError>
        ensures follows { OnOk result (script_of self.new ≡ followed script.now) }
        ensures refused { OnErr result (self.new ≡ self.old) }
        ensures same_lists { lists_of self.new ≡ lists_of self.old }
        ensures same_room { space self.new ≡ space self.old }
    {
        self.script = copy(self.alloc(), script)?;
        Ok(())
    }

    fn tick(&mut self, t: u64) -> Result<u16, AllocError>
        ensures raised { IfOk result (λ mask. lists_of self.new ≡ record (lists_of self.old) { raised = (lists_of self.old).raised ++ mask ∷ [] }) }
        ensures by_script { IfOk result (λ mask. mask ≡ arriving (script_of self.old).arrivals t) }
        ensures refused { OnErr result (lists_of self.new ≡ lists_of self.old) }
        ensures cause { OnErr result (space self.old ≡ 0) }
        ensures same_follows { script_of self.new ≡ script_of self.old }
        ensures room { space self.old ≤ space self.new + 1 }
    {
        let mask = self.script.mask_at(t);
        self.raised.push(mask)?;
        Ok(mask)
    }

    fn read(&mut self, register: u8) -> Result<u8, AllocError>
        requires { IsTrue (is_outside register) }
        ensures given { IfOk result (λ byte. lists_of self.new ≡ record (lists_of self.old) { given = (lists_of self.old).given ++ (record { register = register; value = byte }) ∷ [] }) }
        ensures by_script { IfOk result (λ byte. byte ≡ slice_index (script_of self.old).input (length (lists_of self.old).given)) }
        ensures refused { OnErr result (lists_of self.new ≡ lists_of self.old) }
        ensures cause { OnErr result (space self.old ≡ 0) }
        ensures same_follows { script_of self.new ≡ script_of self.old }
        ensures room { space self.old ≤ space self.new + 1 }
    {
        let number = self.given.len() as u64;
        let script = &self.script;
        let value = input_at(&script.input, number);
        self.given.push(Exchange { register, value })?;
        Ok(value)
    }

    fn write(&mut self, register: u8, value: u8) -> Result<(), AllocError>
        requires { IsTrue (is_outside register) }
        ensures taken { OnOk result (lists_of self.new ≡ record (lists_of self.old) { taken = (lists_of self.old).taken ++ (record { register = register; value = value }) ∷ [] }) }
        ensures refused { OnErr result (lists_of self.new ≡ lists_of self.old) }
        ensures cause { OnErr result (space self.old ≡ 0) }
        ensures same_follows { script_of self.new ≡ script_of self.old }
        ensures room { space self.old ≤ space self.new + 1 }
    {
        self.taken.push(Exchange { register, value })?;
        Ok(())
    }
}
