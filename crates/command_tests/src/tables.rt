//! Tables of cases.

use command_cases::holds_with;
use std::alloc::{AllocError, Global};
use std::process::Abort;

/// Runs each case of a table, which has so many, with fields that all of them share behind its own.
pub fn check_all(
    rt: &impl Abort,
    alloc: Global,
    table: &str,
    shared: &str,
    cases: u32,
) -> Result<(), AllocError> {
    let mut count: u32 = 0;
    for line in table.lines() {
        if !line.is_empty() && !line.starts_with('#') {
            assert!(rt; holds_with(alloc, line, shared)?, "{line}");
            count = count.saturating_add(1);
        }
    }
    assert!(rt; count == cases, "{count} cases");
    Ok(())
}
