//! The laws of rows.

ghost use Rattle.value_rows.specs.Laws.{Results, Flags, Skips, Literals, Clears, BitsTested, BitsCleared, BitsSet, TableReads};

/// Rows that read a byte: the result, the flags, and whether the next word is skipped.
#[tactic(auto, using(crate::proofs::RowLaws::results, crate::proofs::RowLaws::flags, crate::proofs::RowLaws::skips))]
pub fn file_rows_have_values()
    ensures results { Results }
    ensures flags { Flags }
    ensures skips { Skips }
{}

/// Rows on W and a literal, and CLRW.
#[tactic(auto, using(crate::proofs::RowLaws::literals, crate::proofs::RowLaws::clears))]
pub fn literal_rows_have_values()
    ensures literals { Literals }
    ensures clears { Clears }
{}

/// One bit of a byte, and rows that clear or set it.
#[tactic(auto, using(crate::proofs::RowLaws::bits_tested, crate::proofs::RowLaws::bits_cleared, crate::proofs::RowLaws::bits_set))]
pub fn bit_rows_have_values()
    ensures tested { BitsTested }
    ensures cleared { BitsCleared }
    ensures set { BitsSet }
{}

/// A read of a table.
#[tactic(auto, using(crate::proofs::RowLaws::table_reads))]
pub fn table_reads_have_values()
    ensures { TableReads }
{}
