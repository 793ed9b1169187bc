//! Parsing a whole text.

ghost use Rattle.std.specs.Prelude.{◌≡◌, List, ℕ, length, Some, None, Err, IfOk};
ghost use Rattle.c_nodes.specs.Programs.{ItemTree, IsUnit, spelled_unit};
ghost use Rattle.c_nodes.specs.ProgramViews.{unit_of};
ghost use Rattle.parse_expr.specs.declared.error.ParseError.TheVariants.{Syntax};
ghost use Rattle.parse_expr.specs.Reader.{Gives, symbols_in};
ghost use Rattle.c_parse.specs.Limits.{first_over, IsLimit};
ghost use Rattle.c_parse.specs.Reading.{unit_by};

use crate::limits::over;
use crate::unit::unit;
use c_nodes::statement::Unit;
use c_token::Tok;
use parse_expr::ParseError;
use std::alloc::Global;

/// The line of the last token, or 0.
fn last_line(toks: &[Tok]) -> u32 {
    match toks.last() {
        Some(tok) => tok.line,
        None => 0,
    }
}

/// Reads the tokens from left to right, where none passes a limit.
fn read(alloc: Global, text: &[u8], toks: &[Tok]) -> Result<Unit, ParseError>
    ensures limit { (e : ParseError) → first_over 0 0 toks.now ≡ Some e → result ≡ Err e }
    ensures within { first_over 0 0 toks.now ≡ None → Gives unit_of result (unit_by (symbols_in text.now toks.now)) }
{
    if let Some(error) = over(toks) {
        return Err(error);
    }
    unit(alloc, text, last_line(toks), toks)
}

/// The tree that the tokens of a text spell (ISO/IEC 9899:1990, 6.3 to 6.7, in the subset), or the
/// first token that passes a limit, or the place where no tree goes on.
///
/// `toks` are the tokens that are left of the text after directives and replacement. They are the
/// tokens of the tree, each with its line, and with its bytes where it is a name or a string.
///
/// The call stack has an end, and this answers within it whatever the text: limits bound the brackets and the
/// statements in one another, and `?` wait for their `:` in a list. So it is out of memory only where an
/// allocation is refused, however deep choices stand in one another.
pub fn parse(alloc: Global, text: &[u8], toks: &[Tok]) -> Result<Unit, ParseError>
    // The first token that passes a limit is told, whatever the tokens spell.
    ensures limit { (e : ParseError) → first_over 0 0 toks.now ≡ Some e → result ≡ Err e }
    // A limit is told of no other token.
    ensures limit_only { (e : ParseError) → result ≡ Err e → IsLimit e → first_over 0 0 toks.now ≡ Some e }
    // What is given is a tree of the grammar, and it is spelled by exactly these tokens.
    ensures found { IfOk result (λ u. (symbols_in text.now toks.now ≡ spelled_unit (unit_of u)) × IsUnit (unit_of u)) }
    // So it has as many tokens.
    ensures many { IfOk result (λ u. length (spelled_unit (unit_of u)) ≡ length toks.now) }
    // Each tree that these tokens spell is the one that is given, unless memory runs out: there is one at most.
    ensures only { (u : List ItemTree) → IsUnit u → symbols_in text.now toks.now ≡ spelled_unit u → first_over 0 0 toks.now ≡ None → Gives unit_of result (Some u) }
    // An error of syntax comes only where there is no tree.
    ensures no_tree { (line : ℕ) → result ≡ Err (Syntax line) → (u : List ItemTree) → IsUnit u → symbols_in text.now toks.now ≡ spelled_unit u → ⊥ }
{
    read(alloc, text, toks)
}

/// Lets a tree go. A crate that does so by itself proves once more, for each type of the trees, how that is done.
pub fn let_go(unit: Unit) {
    drop(unit);
}
