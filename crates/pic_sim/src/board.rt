//! What stands around the chip.

ghost use Rattle.std.specs.Prelude.{◌≡◌, ◌≤◌, ◌+◌, ◌++◌, ◌∷◌, [], ℕ, Option, Some, IsTrue, IsSome, IfOk, IfSome, OnOk, OnErr, length, slice_index};
ghost use Rattle.pic_world.specs.Arrivals.{arriving};
ghost use Rattle.pic_sim.specs.Board.{Lists, Followed, followed, is_outside};

use pic_world::Script;
use std::alloc::AllocError;

/// A byte that went between the chip and a device register, which is named by its lowest address.
#[derive(Clone, Copy, PartialEq, Eq)]
pub struct Exchange {
    pub register: u8,
    pub value: u8,
}

/// A model of the peripherals around a chip. It keeps what it answered and was told, in three lists: `given`,
/// `taken` and `raised`. Where it follows a script, its answers are that script's.
///
/// A board refuses a call only where it has no room. Each call takes room of one at most.
pub trait Board: Drop {
    /// What it answered and was told.
    ghost lists: { Self → Lists };

    /// The script that it follows, if it follows one.
    ghost follows: { Self → Option Followed };

    /// How many calls it has room for at least.
    ghost room: { Self → ℕ };

    /// Hands over a script. A board that follows one follows this one from now on. It may want memory, and is then
    /// as before.
    fn feed(&mut self, script: &Script) -> Result<(), AllocError>
        ensures follows { OnOk result (IsSome (follows self.old) → follows self.new ≡ Some (followed script.now)) }
        ensures refused { OnErr result (follows self.new ≡ follows self.old) }
        ensures same_lists { lists self.new ≡ lists self.old }
        ensures same_room { room self.new ≡ room self.old };

    /// What arrives before the instruction of index `t`, as a mask: bits 0 to 2 are RBIF, INTF and TMR0IF, and bits 3 to 10
    /// the flags of PIR1 from its bit 0 on. It is asked once for each instruction.
    fn tick(&mut self, t: u64) -> Result<u16, AllocError>
        ensures raised { IfOk result (λ mask. lists self.new ≡ record (lists self.old) { raised = (lists self.old).raised ++ mask ∷ [] }) }
        ensures by_script { IfOk result (λ mask. IfSome (follows self.old) (λ script. mask ≡ arriving script.arrivals t)) }
        ensures refused { OnErr result (lists self.new ≡ lists self.old) }
        ensures cause { OnErr result (room self.old ≡ 0) }
        ensures same_follows { follows self.new ≡ follows self.old }
        ensures room { room self.old ≤ room self.new + 1 };

    /// The byte that an instruction reads of a device register other than INTCON, PIR1 and PIE1.
    fn read(&mut self, register: u8) -> Result<u8, AllocError>
        requires { IsTrue (is_outside register) }
        ensures given { IfOk result (λ byte. lists self.new ≡ record (lists self.old) { given = (lists self.old).given ++ (record { register = register; value = byte }) ∷ [] }) }
        ensures by_script { IfOk result (λ byte. IfSome (follows self.old) (λ script. byte ≡ slice_index script.input (length (lists self.old).given))) }
        ensures refused { OnErr result (lists self.new ≡ lists self.old) }
        ensures cause { OnErr result (room self.old ≡ 0) }
        ensures same_follows { follows self.new ≡ follows self.old }
        ensures room { room self.old ≤ room self.new + 1 };

    /// Tells the byte that an instruction writes to a device register other than INTCON, PIR1 and PIE1.
    fn write(&mut self, register: u8, value: u8) -> Result<(), AllocError>
        requires { IsTrue (is_outside register) }
        ensures taken { OnOk result (lists self.new ≡ record (lists self.old) { taken = (lists self.old).taken ++ (record { register = register; value = value }) ∷ [] }) }
        ensures refused { OnErr result (lists self.new ≡ lists self.old) }
        ensures cause { OnErr result (room self.old ≡ 0) }
        ensures same_follows { follows self.new ≡ follows self.old }
        ensures room { room self.old ≤ room self.new + 1 };
}
