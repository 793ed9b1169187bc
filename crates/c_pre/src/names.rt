//! The definitions of a text, and the names of its tokens looked up among them.

ghost use Rattle.std.specs.Prelude.{◌≡◌, ◌<◌, ◌++◌, ◌∷◌, [], None, length, map, OnOk, OnErr, IfOk, IfErr, IfSome};
ghost use Rattle.c_pre.specs.declared.PreError.TheVariants.{NoMemory};
ghost use Rattle.c_pre.specs.Directive.{position_of, table_of};
ghost use Rattle.c_pre.specs.LookedUp.{IsIndexed, named, lists_of, looked_up};

use crate::PreError;
use crate::directive::Definition;
use crate::words::{is_name, word_of};
use c_token::Tok;
use std::alloc::Global;
use std::collections::BTreeMap;

/// A token, and the place of the definition that its name has among all definitions of the text.
#[derive(Clone, Copy)]
pub struct Named {
    pub token: Tok,
    pub definition: Option<usize>,
}

/// Definitions in order, and the place of each name among them. Finding a name takes as many
/// comparisons as the logarithm of their number, whatever the names are.
#[derive(Drop)]
pub struct Definitions<'a> {
    pub list: Vec<Definition<'a>>,
    pub places: BTreeMap<&'a [u8], usize>,
}

/// No definitions.
pub fn no_definitions<'a>(alloc: Global) -> Definitions<'a>
    ensures empty { result.list.items ≡ [] }
    ensures indexed { IsIndexed result }
{
    Definitions {
        list: Vec::new(alloc),
        places: BTreeMap::new(alloc),
    }
}

impl<'a> Definitions<'a> {
    /// Which definition a name has.
    pub fn place(&self, name: &'a [u8]) -> Option<usize>
        requires { IsIndexed self.now }
        ensures value { result ≡ position_of (table_of self.now.list.items) name.now }
        ensures bound { IfSome result (λ k. k < length self.now.list.items) }
    {
        self.places.get(&name).copied()
    }

    /// Puts a definition of a new name after the others.
    pub fn push(&mut self, definition: Definition<'a>) -> Result<(), PreError>
        requires indexed { IsIndexed self.old }
        requires is_new { position_of (table_of self.old.list.items) definition.name.now ≡ None }
        ensures ok { OnOk result (self.new.list.items ≡ self.old.list.items ++ definition.entry ∷ []) }
        ensures indexed { OnOk result (IsIndexed self.new) }
        ensures err { OnErr result (self.new.list.items ≡ self.old.list.items) }
        ensures no_memory { IfErr result (λ e. e ≡ NoMemory) }
    {
        let place = self.list.len();
        let Ok(_) = self.places.insert(definition.name, place) else {
            return Err(PreError::NoMemory);
        };
        if self.list.push(definition).is_err() {
            return Err(PreError::NoMemory);
        }
        Ok(())
    }

    /// A token with the definition that its name has.
    pub fn look_up(&self, text: &'a [u8], token: Tok) -> Named
        requires { IsIndexed self.now }
        ensures { result ≡ named text.now (table_of self.now.list.items) token }
    {
        let definition = if is_name(token.kind) {
            self.place(word_of(text, token))
        } else {
            None
        };
        Named { token, definition }
    }

    // A list's tokens with their definitions.
    fn look_all_up(
        &self,
        alloc: Global,
        text: &'a [u8],
        tokens: &[Tok],
    ) -> Result<Vec<Named>, PreError>
        requires { IsIndexed self.now }
        ensures ok { IfOk result (λ v. v.items ≡ map (named text.now (table_of self.now.list.items)) tokens.now) }
        ensures err { IfErr result (λ e. e ≡ NoMemory) }
    {
        let mut list = Vec::new(alloc);
        for token in tokens {
            if list.push(self.look_up(text, *token)).is_err() {
                return Err(PreError::NoMemory);
            }
        }
        Ok(list)
    }

    /// Each definition's list, its tokens with their definitions.
    pub fn lists(&self, alloc: Global, text: &'a [u8]) -> Result<Vec<Vec<Named>>, PreError>
        requires { IsIndexed self.now }
        ensures ok { IfOk result (λ v. lists_of v.items
            ≡ looked_up text.now (table_of self.now.list.items) (table_of self.now.list.items)) }
        ensures err { IfErr result (λ e. e ≡ NoMemory) }
    {
        let mut lists = Vec::new(alloc);
        for definition in &self.list {
            let list = self.look_all_up(alloc, text, definition.list)?;
            if lists.push(list).is_err() {
                return Err(PreError::NoMemory);
            }
        }
        Ok(lists)
    }
}
