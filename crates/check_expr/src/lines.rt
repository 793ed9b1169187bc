//! Lines of first tokens.

ghost use Rattle.std.specs.Prelude.{◌≡◌};
ghost use Rattle.c_nodes.specs.Views.{declarator_of, specs_of};
ghost use Rattle.type_rules.specs.Declarators.{line_in};
ghost use Rattle.type_rules.specs.Specifiers as rule;

use c_nodes::expression::{Declarator, Spec, Specs};

/// The line of the first token of specifiers.
pub fn specs_line(specs: &Specs) -> u32
    ensures { result ≡ rule.specs_line (specs_of specs.now) }
{
    match &specs.first {
        Spec::Word(word) => word.line,
        Spec::TypeName(name) => name.line,
        Spec::Reference { keyword, .. } => *keyword,
        Spec::Body(body) => body.keyword,
        Spec::EnumReference { keyword, .. } => *keyword,
        Spec::EnumBody(body) => body.keyword,
    }
}

/// The line of the first token of a declarator.
pub fn declarator_line(declarator: &Declarator) -> u32
    ensures { result ≡ line_in (declarator_of declarator.now) }
{
    match declarator.pointers.first() {
        Some(pointer) => pointer.star,
        None => declarator.name.line,
    }
}
