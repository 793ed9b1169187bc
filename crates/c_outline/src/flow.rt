//! What `break` and `continue` leave and repeat (ISO/IEC 9899:1990, 6.6.6).

ghost use Rattle.std.specs.Prelude.{◌≡◌};
ghost use Rattle.c_typed.specs.Views.{statement_of};
ghost use Rattle.type_rules.specs.Known.{Known};
ghost use Rattle.type_rules.specs.Statements as rule;
ghost use Rattle.c_tables.specs.Answers.{Answers};
ghost use Rattle.c_outline.specs.Flows.{flow_of, break_rule, continue_rule};

use c_tables::error::{CheckError, Kind, refused};
use c_typed::TStmt;

/// Whether `break` and `continue` have something to leave and to repeat.
#[derive(Clone, Copy)]
pub struct Flow {
    breaks: bool,
    continues: bool,
}

impl Flow {
    /// In no loop and no switch.
    pub fn outside() -> Flow
        ensures { flow_of result ≡ rule.outside }
    {
        Flow {
            breaks: false,
            continues: false,
        }
    }

    /// In the body of a loop.
    pub fn in_loop() -> Flow
        ensures { flow_of result ≡ rule.in_loop }
    {
        Flow {
            breaks: true,
            continues: true,
        }
    }

    /// In the body of a switch that stands here.
    pub fn in_switch(self) -> Flow
        ensures { flow_of result ≡ rule.in_switch (flow_of self) }
    {
        Flow {
            breaks: true,
            continues: self.continues,
        }
    }

    /// A `break` that stands here.
    #[tactic(auto, using(c_typed::proofs::Shapes::show_statement_break))]
    pub fn break_at(self, line: u32) -> Result<TStmt, CheckError>
        ensures { (known : Known) → Answers statement_of result known (break_rule (flow_of self) line known) }
    {
        if self.breaks {
            Ok(TStmt::Break { line })
        } else {
            refused(Kind::Jump, line)
        }
    }

    /// A `continue` that stands here.
    #[tactic(auto, using(c_typed::proofs::Shapes::show_statement_continue))]
    pub fn continue_at(self, line: u32) -> Result<TStmt, CheckError>
        ensures { (known : Known) → Answers statement_of result known (continue_rule (flow_of self) line known) }
    {
        if self.continues {
            Ok(TStmt::Continue { line })
        } else {
            refused(Kind::Jump, line)
        }
    }
}
