//! Flow facts of the blocks of a program.

ghost use Rattle.std.specs.Prelude.{◌≡◌, None, Some, MatchOption, slice_get};
ghost use Rattle.sym_code.specs.declared.code.BlockName.TheVariants.{Copy};
ghost use Rattle.flow_facts.specs.Facts as stated;
ghost use Rattle.flow_facts.specs.Stored as stored;

use bank_page::known::Known;
use sym_code::{BlockName, Label, PageBit, Target};

/// What is known at the front of a block, where it returns, and at its inner labels, by their numbers. `None` stands where nothing
/// comes.
#[derive(Drop)]
pub struct BlockFacts {
    pub front: Option<Known>,
    pub back: Option<Known>,
    pub labels: Vec<Option<Known>>,
}

/// The facts of the copies' blocks, by the copies' numbers, and the blocks that stand for them, by bit 3 of PCLATH and by bit 4 of it. Of a
/// block that isn't there nothing is known, and it stands for itself.
#[derive(Drop)]
pub struct FlowFacts {
    pub copies: Vec<BlockFacts>,
    pub low: Vec<BlockName>,
    pub high: Vec<BlockName>,
}

fn label_in(facts: &BlockFacts, number: usize) -> Option<Known>
    ensures { result ≡ stored.listed (slice_get facts.now.labels.items number) }
{
    match facts.labels.get(number) {
        Some(fact) => *fact,
        None => Some(Known::nothing()),
    }
}

fn mate_in(mates: &[BlockName], copy: u16) -> BlockName
    ensures { result ≡ stored.mate_or (slice_get mates.now copy) (Copy copy) }
{
    match mates.get(copy as usize) {
        Some(mate) => *mate,
        None => BlockName::Copy(copy),
    }
}

impl FlowFacts {
    /// The block that stands for one.
    pub fn mate(&self, bit: PageBit, name: BlockName) -> BlockName
        ensures { result ≡ stored.mate_of self.now bit name }
    {
        match name {
            BlockName::Start => BlockName::Start,
            BlockName::Copy(copy) => match bit {
                PageBit::Low => mate_in(&self.low, copy),
                PageBit::High => mate_in(&self.high, copy),
            },
        }
    }

    fn of_block(&self, name: BlockName) -> Option<&BlockFacts>
        ensures { MatchOption result (stored.of_block self.now name ≡ None) (λ facts. stored.of_block self.now name ≡ Some facts.now) }
    {
        match name {
            BlockName::Start => None,
            BlockName::Copy(copy) => match self.copies.get(copy as usize) {
                Some(facts) => Some(facts),
                None => None,
            },
        }
    }

    /// What is known at the front of a block.
    pub fn front(&self, name: BlockName) -> Option<Known>
        ensures { result ≡ stored.front_of (stored.of_block self.now name) }
    {
        match self.of_block(name) {
            Some(facts) => facts.front,
            None => Some(Known::nothing()),
        }
    }

    /// What is known where a block returns.
    pub fn back(&self, name: BlockName) -> Option<Known>
        ensures { result ≡ stored.back_of (stored.of_block self.now name) }
    {
        match self.of_block(name) {
            Some(facts) => facts.back,
            None => Some(Known::nothing()),
        }
    }

    fn inner(&self, own: BlockName, number: usize) -> Option<Known>
        ensures { result ≡ stored.label_of (stored.of_block self.now own) number }
    {
        match self.of_block(own) {
            Some(facts) => label_in(facts, number),
            None => Some(Known::nothing()),
        }
    }

    /// What is known at a label that a block names.
    pub fn at_label(&self, own: BlockName, label: Label) -> Option<Known>
        ensures { result ≡ stated.at_label (stored.facts_of self.now) own label }
    {
        match label {
            Label::Inner(number) => self.inner(own, number),
            Label::Halt => Some(Known::nothing()),
            Label::Restore => Some(Known::nothing()),
        }
    }

    /// What is known at a target that a block names.
    pub fn at_target(&self, own: BlockName, target: Target) -> Option<Known>
        ensures { result ≡ stated.at_target (stored.facts_of self.now) own target }
    {
        match target {
            Target::Block(name) => self.front(name),
            Target::Label(label) => self.at_label(own, label),
        }
    }
}
