//! The labels of a switch, each as the number of statements of the body that stand before it.

ghost use Rattle.std.specs.Prelude.{◌≡◌, ◌≤◌, length, IfOk};
ghost use Rattle.lower_stmt.specs.Labels as labels;

use c_typed::TCase;
use std::alloc::{AllocError, Global};

/// Those of the cases in order, and after them that of `default`.
pub fn labels_of(
    alloc: Global,
    cases: &[TCase],
    default: Option<usize>,
) -> Result<Vec<usize>, AllocError>
    ensures { IfOk result (λ found. found.items ≡ labels.labels_of cases.now default) }
{
    let mut found = Vec::new(alloc);
    for case in cases {
        found.push(case.target)?;
    }
    match default {
        Some(target) => {
            found.push(target)?;
            Ok(found)
        }
        None => Ok(found),
    }
}

/// Whether a label stands after so many statements.
pub fn has(found: &[usize], statements: usize) -> bool
    ensures { result ≡ labels.has found.now statements }
{
    for label in found {
        if *label == statements {
            return true;
        }
    }
    false
}

fn counts(found: &[usize], label: usize, statements: usize) -> bool
    ensures { result ≡ labels.counts found.now label statements }
{
    label < statements && !has(found, label)
}

/// How many different labels stand before so many statements.
pub fn segments_before(found: &[usize], statements: usize) -> usize
    ensures value { result ≡ labels.segments_before statements found.now }
    ensures bound { result ≤ length found.now }
{
    let mut count = 0;
    for (i, label) in found.iter().enumerate() {
        if counts(&found[i + 1..], *label, statements) {
            count += 1;
        }
    }
    count
}
