//! Program memory by page and block.

use crate::html::Html;
use crate::shown::Shown;
use code_place::real_words;
use sym_code::SymBlock;

const PAGE_WORDS: u16 = 2048;

fn share_of(words: u64, stated: u64) -> u64 {
    if stated == 0 {
        return 0;
    }
    words.saturating_mul(100) / stated
}

fn put_counts(out: &mut Html, words: u64, stated: u64) {
    out.number(words);
    out.counted(" words used of ", stated);
    out.put(" stated ones");
}

// A block is as wide as its stated words, which nothing else gets; the filled part is what is used.
fn put_block(out: &mut Html, shown: &Shown<'_>, block: &SymBlock, at: u16) {
    let stated = shown.stated(block.name);
    let words = real_words(block);
    out.put("<i class=\"");
    out.put(shown.block_class(block.name));
    out.counted("\" style=\"--at:", (at % PAGE_WORDS) as u64);
    out.counted(";--of:", stated);
    out.counted(";--used:", words);
    out.put("\" title=\"");
    out.name(shown.block_name(block.name));
    out.at(", from ", at);
    out.put(": ");
    put_counts(out, words, stated);
    out.put("\"><u></u>");
    out.name(shown.block_name(block.name));
    out.put("</i>\n");
}

fn used_in(shown: &Shown<'_>, page: u16) -> u64 {
    let mut words: u64 = 0;
    for (block, at) in shown.blocks.iter().zip(shown.at) {
        if *at / PAGE_WORDS == page {
            words = words.saturating_add(real_words(block));
        }
    }
    words
}

fn put_page(out: &mut Html, shown: &Shown<'_>, page: u16) {
    let used = used_in(shown, page);
    out.counted("<h3>Page ", page as u64);
    out.put("</h3><p class=\"quiet\">");
    out.at("", page.saturating_mul(PAGE_WORDS));
    out.at(
        " to ",
        page.saturating_mul(PAGE_WORDS)
            .saturating_add(PAGE_WORDS - 1),
    );
    out.put(": ");
    if used == 0 {
        out.put("empty, 2048 words");
    } else {
        out.number(used);
        out.put(" of 2048 words");
    }
    out.put("</p>\n<div class=\"page\">\n");
    for (block, at) in shown.blocks.iter().zip(shown.at) {
        if *at / PAGE_WORDS == page {
            put_block(out, shown, block, *at);
        }
    }
    out.put("</div>\n");
}

fn put_row(out: &mut Html, shown: &Shown<'_>, block: &SymBlock, at: u16) {
    let stated = shown.stated(block.name);
    let words = real_words(block);
    let class = shown.block_class(block.name);
    out.put("<tr><td><i class=\"mark ");
    out.put(class);
    out.put("\"></i>");
    out.name(shown.block_name(block.name));
    out.put("</td><td>");
    out.put(class);
    out.at("</td><td>", at);
    out.counted("</td><td class=\"number\">", words);
    out.counted("</td><td class=\"number\">", stated);
    out.counted("</td><td class=\"number\">", share_of(words, stated));
    out.put(" %</td></tr>\n");
}

/// The four pages with their blocks, and a table of these.
pub fn put_code(out: &mut Html, shown: &Shown<'_>) {
    out.put(
        "<section><h2>Program memory</h2>\n<p>A block has room for its stated words, by which a text is refused or not; ",
    );
    out.put("the filled part is what the code takes.</p>\n");
    for page in 0..4u16 {
        put_page(out, shown, page);
    }
    out.put(
        "<table><tr><th>Block</th><th>Root</th><th>Address</th><th>Words used</th><th>Stated</th><th>Used</th></tr>\n",
    );
    for (block, at) in shown.blocks.iter().zip(shown.at) {
        put_row(out, shown, block, *at);
    }
    out.put("</table></section>\n");
}
