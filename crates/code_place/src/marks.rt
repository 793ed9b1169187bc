//! Where the labels of a program stand.

ghost use Rattle.std.specs.Prelude.{◌≡◌, ℕ, ◌+◌, ◌≤◌, nat_eq, None, OnOk, IfOk};
ghost use Rattle.std.specs.BTreeMap.{get};
ghost use Rattle.std.specs.Option.{option_or};
ghost use Rattle.std.specs.Ordering.{nat_cmp};
ghost use Rattle.sym_code.specs.Programs.{same_name};
ghost use Rattle.sym_code.specs.declared.code.Label.TheVariants.{Inner, Halt, Restore};
ghost use Rattle.code_place.specs.Marks.{block_in, target_in, AreMarks, AreInner};
ghost use Rattle.code_place.specs.Places as stated;
ghost use Rattle.code_place.specs.Places.{is_label, at_if, label_at};
ghost use Rattle.sym_code.specs.Words.{words_in};
ghost use Rattle.code_place.specs.Sizes.{Fit};

use crate::fitting::words_of_one;
use std::alloc::{AllocError, Global};
use std::collections::BTreeMap;
use sym_code::{BlockName, Label, Sym, SymBlock, SymProgram, Target};

/// Where blocks stand, and the two labels that each block may name.
#[derive(Drop)]
pub struct Marks {
    pub start: Option<u16>,
    pub copies: BTreeMap<usize, u16>,
    pub halt: Option<u16>,
    pub restore: Option<u16>,
}

// Where something stands that has no place yet: of two with one number the first counts.
fn put_first(places: &mut BTreeMap<usize, u16>, number: usize, at: u16) -> Result<(), AllocError>
    ensures { OnOk result ((asked : ℕ) → get nat_cmp places.new asked ≡ option_or (get nat_cmp places.old asked) (at_if (nat_eq number asked) at)) }
{
    match places.get(&number).copied() {
        Some(_) => {}
        None => {
            places.insert(number, at)?;
        }
    }
    Ok(())
}

impl Marks {
    fn none(alloc: Global) -> Marks
        ensures names { (asked : BlockName) → block_in result asked ≡ None }
        ensures halt { result.halt ≡ None }
        ensures restore { result.restore ≡ None }
    {
        Marks {
            start: None,
            copies: BTreeMap::new(alloc),
            halt: None,
            restore: None,
        }
    }

    #[tactic(auto, using(crate::proofs::Maps::or_none))]
    fn put_block(&mut self, name: BlockName, at: u16) -> Result<(), AllocError>
        ensures names { OnOk result ((asked : BlockName) → block_in self.new asked ≡ option_or (block_in self.old asked) (at_if (same_name name asked) at)) }
        ensures halt { OnOk result (self.new.halt ≡ self.old.halt) }
        ensures restore { OnOk result (self.new.restore ≡ self.old.restore) }
    {
        match name {
            BlockName::Start => {
                self.start = self.start.or(Some(at));
                Ok(())
            }
            BlockName::Copy(copy) => put_first(&mut self.copies, copy as usize, at),
        }
    }

    #[tactic(auto, using(crate::proofs::Maps::or_none))]
    fn put_label(&mut self, label: Option<Label>, at: u16)
        ensures names { (asked : BlockName) → block_in self.new asked ≡ block_in self.old asked }
        ensures halt { self.new.halt ≡ option_or self.old.halt (at_if (is_label Halt label) at) }
        ensures restore { self.new.restore ≡ option_or self.old.restore (at_if (is_label Restore label) at) }
    {
        match label {
            Some(Label::Halt) => {
                self.halt = self.halt.or(Some(at));
            }
            Some(Label::Restore) => {
                self.restore = self.restore.or(Some(at));
            }
            Some(Label::Inner(_)) => {}
            None => {}
        }
    }

    // The labels of a block that stands at an address.
    #[tactic(auto, using(crate::proofs::Maps::or_none))]
    fn put_labels(&mut self, block: &SymBlock, at: u16)
        requires { at + words_in block.now.list.items ≤ 8192 }
        ensures names { (asked : BlockName) → block_in self.new asked ≡ block_in self.old asked }
        ensures halt { self.new.halt ≡ option_or self.old.halt (label_at Halt at block.now.list.items) }
        ensures restore { self.new.restore ≡ option_or self.old.restore (label_at Restore at block.now.list.items) }
    {
        let mut pc = at as u64;
        for sym in &block.list {
            self.put_label(label_of(*sym), pc as u16);
            pc += words_of_one(*sym);
        }
    }

    /// Where a block stands.
    pub fn block(&self, name: BlockName) -> Option<u16>
        ensures { result ≡ block_in self.now name }
    {
        match name {
            BlockName::Start => self.start,
            BlockName::Copy(copy) => self.copies.get(&(copy as usize)).copied(),
        }
    }

    /// Where a target stands, from a block with these labels of its own.
    pub fn target(&self, inner: &BTreeMap<usize, u16>, target: Target) -> Option<u16>
        ensures { result ≡ target_in self.now inner.now target }
    {
        match target {
            Target::Block(name) => self.block(name),
            Target::Label(label) => match label {
                Label::Inner(number) => inner.get(&number).copied(),
                Label::Halt => self.halt,
                Label::Restore => self.restore,
            },
        }
    }
}

// The label that an instruction is.
fn label_of(sym: Sym) -> Option<Label>
    ensures { result ≡ stated.label_of sym }
{
    match sym {
        Sym::Label(label) => Some(label),
        _ => None,
    }
}

/// Where the blocks of a program and the labels of its start block stand.
pub fn marks_of(alloc: Global, s: &SymProgram, at: &[u16]) -> Result<Marks, AllocError>
    requires { Fit s.now.blocks.items at.now }
    ensures { IfOk result (AreMarks s.now.blocks.items at.now) }
{
    let mut marks = Marks::none(alloc);
    for (number, block) in s.blocks.iter().enumerate() {
        let Some(start) = at.get(number) else {
            unreachable!()
        };
        marks.put_block(block.name, *start)?;
        marks.put_labels(block, *start);
    }
    Ok(marks)
}

#[tactic(auto, using(crate::proofs::Maps::or_none))]
fn put_inner(
    labels: &mut BTreeMap<usize, u16>,
    label: Option<Label>,
    at: u16,
) -> Result<(), AllocError>
    ensures { OnOk result ((asked : ℕ) → get nat_cmp labels.new asked ≡ option_or (get nat_cmp labels.old asked) (at_if (is_label (Inner asked) label) at)) }
{
    match label {
        Some(Label::Inner(number)) => put_first(labels, number, at),
        Some(Label::Halt) => Ok(()),
        Some(Label::Restore) => Ok(()),
        None => Ok(()),
    }
}

/// Where the inner labels of a block stand that stands at an address.
pub fn inner_labels(
    alloc: Global,
    block: &SymBlock,
    at: u16,
) -> Result<BTreeMap<usize, u16>, AllocError>
    requires { at + words_in block.now.list.items ≤ 8192 }
    ensures { IfOk result (AreInner block.now at) }
{
    let mut labels = BTreeMap::new(alloc);
    let mut pc = at as u64;
    for sym in &block.list {
        put_inner(&mut labels, label_of(*sym), pc as u16)?;
        pc += words_of_one(*sym);
    }
    Ok(labels)
}
