//! What is asked of a text, and tables of texts with their answers.

use crate::notation::written;
use crate::printed::{
    beginnings, count_left, functions, nodes, static_sizes, tokens_cut, words_left,
};
use crate::second::second;
use crate::sizes::{depth, depth_of_readers, known, paged, places, row, sizes};
use crate::stages::{broken_rule, tree};
use std::alloc::Global;
use std::process::Abort;
use std::test::Fail;

/// What is asked of a text.
#[derive(Clone, Copy)]
pub enum Question {
    /// The tokens that it is cut into, each with its bytes, its line, and whether it is the first one there.
    Cut,
    /// The line of the last token that directives and replacement leave, and all of these tokens.
    Left,
    /// How many tokens they leave.
    CountLeft,
    /// `tree` if it has a tree that is spelled as its tokens are, or why it has none.
    Tree,
    /// `taken`, or the kind and the line of the rule on names and types that it breaks.
    Rule,
    /// The bytes of its static objects, in order.
    StaticSizes,
    /// How its static objects begin.
    Beginnings,
    /// How many nodes its typed tree has.
    Nodes,
    /// The line of each of its functions, how many parameters, locals and statements it has, and whether it is the handler.
    Functions,
    /// The sum of all stated words, the greatest block, how many addresses are covered, and the depth of calls; or why it has none.
    Sizes,
    /// The depth of its calls, or `over` and the depth.
    Depth,
    /// The same, where each function whose name begins with `r` calls one more leaf.
    DepthOfReaders,
    /// The bytes of the frame and the words of the block of this function, behind the names that all rows share.
    Row,
    /// Where its blocks stand, or why they don't fit.
    Pages,
    /// Its objects and frames: kind, name, address and bytes.
    Places,
    /// Where its blocks stand, the sum of its words, how many addresses are covered, the depth of calls, and how many functions it has.
    Known,
    /// The sum of its stated words, where it is accepted for the second chip, or why it isn't.
    Second,
}

fn answer(alloc: Global, question: Question, text: &[u8]) -> Result<String, Fail> {
    match question {
        Question::Cut => tokens_cut(alloc, text),
        Question::Left => words_left(alloc, text),
        Question::CountLeft => count_left(alloc, text),
        Question::Tree => tree(alloc, text),
        Question::Rule => broken_rule(alloc, text),
        Question::StaticSizes => static_sizes(alloc, text),
        Question::Beginnings => beginnings(alloc, text),
        Question::Nodes => nodes(alloc, text),
        Question::Functions => functions(alloc, text),
        Question::Sizes => sizes(alloc, text),
        Question::Depth => depth(alloc, text),
        Question::DepthOfReaders => depth_of_readers(alloc, text),
        Question::Row => row(alloc, text),
        Question::Pages => paged(alloc, text),
        Question::Places => places(alloc, text),
        Question::Known => known(alloc, text),
        Question::Second => second(alloc, text),
    }
}

/// Asserts that a text has this answer.
pub fn says(
    rt: &impl Abort,
    alloc: Global,
    question: Question,
    wanted: &str,
    text: &[u8],
) -> Result<(), Fail> {
    let said = answer(alloc, question, text)?;
    assert!(rt; said.as_str() == wanted, "{wanted}: {said}");
    Ok(())
}

fn check(rt: &impl Abort, alloc: Global, question: Question, line: &str) -> Result<(), Fail> {
    let Some((wanted, notation)) = line.split_once(" => ") else {
        return Err(Fail::new("a line without an answer"));
    };
    let text = written(alloc, notation)?;
    says(rt, alloc, question, wanted, &text)
}

/// Asserts that each line of a table says what is wanted of the text behind its first ` => `, and counts these lines. One that begins with
/// `//` says what the lines below it are.
pub fn checked(
    rt: &impl Abort,
    alloc: Global,
    question: Question,
    table: &str,
) -> Result<usize, Fail> {
    let mut count: usize = 0;
    for line in table.lines() {
        if !line.starts_with("//") {
            check(rt, alloc, question, line)?;
            count = count.wrapping_add(1);
        }
    }
    Ok(count)
}
