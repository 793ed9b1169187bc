//! What is shown, and questions about it.

use c_typed::{FnId, Typed};
use call_graph::{Copies, FnCopy};
use code_place::real_words;
use pic_chip::Image;
use pic_map::{FrameLine, Placed};
use pic_world::Root;
use ram_place::{block_words, start_words};
use sym_code::{BlockName, SymBlock};

/// A text and what it is compiled to: the name of its file; its typed tree; the copies of its functions; where objects and frames are; the
/// blocks of code in their order, each with its address; and the words of program memory.
#[derive(Drop)]
pub struct Shown<'a> {
    pub name: &'a str,
    pub text: &'a [u8],
    pub typed: &'a Typed,
    pub copies: &'a Copies,
    pub placed: &'a Placed,
    pub blocks: &'a [SymBlock],
    pub at: &'a [u16],
    pub image: &'a Image,
}

/// The class of a root in the page's style, which is its name too.
pub(crate) fn class_of(root: Root) -> &'static str {
    match root {
        Root::Main => "main",
        Root::Isr => "handler",
    }
}

/// Whether two roots are one.
pub(crate) fn same_root(a: Root, b: Root) -> bool {
    matches!((a, b), (Root::Main, Root::Main) | (Root::Isr, Root::Isr))
}

impl<'a> Shown<'a> {
    /// A function copy by its number, and its frame.
    pub(crate) fn copy(&self, number: usize) -> Option<(FnCopy, &'a FrameLine)> {
        let Some(copy) = self.copies.list.get(number) else {
            return None;
        };
        match self.placed.frames.get(number) {
            Some(frame) => Some((*copy, frame)),
            None => None,
        }
    }

    /// The number of the copy whose block has this name, where it is a copy's.
    pub(crate) fn copy_of(&self, name: BlockName) -> Option<usize> {
        match name {
            BlockName::Start => None,
            BlockName::Copy(number) => Some(number as usize),
        }
    }

    /// The class of a block in the page's style: that of its root.
    pub(crate) fn block_class(&self, name: BlockName) -> &'static str {
        match self.copy_of(name) {
            None => "start",
            Some(number) => match self.copies.list.get(number) {
                Some(copy) => class_of(copy.root),
                None => "start",
            },
        }
    }

    /// The name of a block: that of its function or helper.
    pub(crate) fn block_name(&self, name: BlockName) -> &'a [u8] {
        match self.copy_of(name) {
            None => b"start",
            Some(number) => match self.placed.frames.get(number) {
                Some(frame) => &frame.name,
                None => b"",
            },
        }
    }

    /// How many words are stated of the block of this name.
    pub(crate) fn stated(&self, name: BlockName) -> u64 {
        match self.copy_of(name) {
            None => start_words(self.typed),
            Some(number) => match self.copies.list.get(number) {
                Some(copy) => block_words(self.typed, copy.function),
                None => 0,
            },
        }
    }

    /// How many words a copy's block has.
    pub(crate) fn words_of(&self, copy: usize) -> u64 {
        for block in self.blocks {
            if self.copy_of(block.name) == Some(copy) {
                return real_words(block);
            }
        }
        0
    }

    /// How many words all blocks have.
    pub(crate) fn all_words(&self) -> u64 {
        let mut words: u64 = 0;
        for block in self.blocks {
            words = words.saturating_add(real_words(block));
        }
        words
    }

    /// Whether a block is of a copy of the function of this number in the typed tree.
    pub(crate) fn is_of(&self, name: BlockName, function: usize) -> bool {
        let Some(number) = self.copy_of(name) else {
            return false;
        };
        match self.copies.list.get(number) {
            Some(copy) => is_user(copy.function, function),
            None => false,
        }
    }

    /// Whether a block is of no function of the text: the start block, or one of a helper.
    pub(crate) fn is_extra(&self, name: BlockName) -> bool {
        let Some(number) = self.copy_of(name) else {
            return true;
        };
        match self.copies.list.get(number) {
            Some(copy) => matches!(copy.function, FnId::Helper(_)),
            None => true,
        }
    }

    /// The level of the deepest copy of a root, if it has one.
    pub(crate) fn deepest(&self, root: Root) -> Option<u64> {
        let mut most = None;
        for copy in &self.copies.list {
            if same_root(copy.root, root) {
                most = greater(most, copy.level as u64);
            }
        }
        most
    }

    /// How many words of the return stack are taken at most while a copy runs. The handler's copies have those of main, and one of the
    /// interrupt, below their own.
    pub(crate) fn taken(&self, copy: FnCopy) -> u64 {
        let own = copy.level as u64;
        match copy.root {
            Root::Main => own,
            Root::Isr => match self.deepest(Root::Main) {
                Some(below) => own.saturating_add(below).saturating_add(1),
                None => own,
            },
        }
    }
}

fn is_user(id: FnId, function: usize) -> bool {
    match id {
        FnId::User(number) => number as usize == function,
        FnId::Helper(_) => false,
    }
}

fn greater(most: Option<u64>, level: u64) -> Option<u64> {
    match most {
        None => Some(level),
        Some(old) => Some(old.max(level)),
    }
}
