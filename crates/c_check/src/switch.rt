//! The body of a `switch`, and its labels (ISO/IEC 9899:1990, 6.6.1 and 6.6.4.2).

ghost use Rattle.std.specs.Prelude.{◌≡◌, [], ◌∷◌, ◌++◌, length, is_some, Some, OnOk, IfErr};
ghost use Rattle.c_ints.specs.Operators.{cut_to};
ghost use Rattle.c_ints.specs.declared.types.IntTy.{IntTy};
ghost use Rattle.c_nodes.specs.ProgramViews.{label_of};
ghost use Rattle.c_nodes.specs.Views.{cond_of};
ghost use Rattle.c_typed.specs.Views.{expression_of, statement_of};
ghost use Rattle.type_rules.specs.Statements as rule;
ghost use Rattle.c_tables.specs.Answers.{Answers, Learns};
ghost use Rattle.c_tables.specs.Tables.{known_of};
ghost use Rattle.c_tables.specs.declared.error.CheckError.TheVariants.{NoMemory};
ghost use Rattle.c_check.specs.StatementViews.{body_of, case_rule, default_rule, switch_of, Labels, Sees};

use c_ints::{IntTy, convert};
use c_nodes::expression::Cond;
use c_nodes::statement::Label;
use c_tables::checker::Checker;
use c_tables::error::{CheckError, Kind, refused};
use c_typed::{TCase, TExpr, TStmt};
use check_expr::constants::constant_value;
use indexmap::IndexSet;
use std::alloc::Global;

/// The body of a switch so far, and the numbers of its labels.
#[derive(Drop)]
pub(crate) struct SwitchBody {
    ty: IntTy,
    cases: Vec<TCase>,
    seen: IndexSet<i64>,
    default: Option<usize>,
    statements: Vec<TStmt>,
}

impl SwitchBody {
    /// The body of a switch on a value of this type, before its first label.
    pub fn new(alloc: Global, ty: IntTy) -> SwitchBody
        ensures body { body_of result ≡ rule.no_items }
        ensures ty { result.ty ≡ ty }
        ensures sees { Sees result }
    {
        SwitchBody {
            ty,
            cases: Vec::new(alloc),
            seen: IndexSet::new(alloc),
            default: None,
            statements: Vec::new(alloc),
        }
    }

    /// Puts a statement after those of the body.
    pub fn add(&mut self, statement: TStmt) -> Result<(), CheckError>
        requires { Sees self.now }
        ensures body { OnOk result (body_of self.new ≡ record (body_of self.old) { statements = (body_of self.old).statements ++ statement_of statement ∷ [] }) }
        ensures ty { OnOk result (self.new.ty ≡ self.old.ty) }
        ensures sees { OnOk result (Sees self.new) }
        ensures err { IfErr result (λ e. e ≡ NoMemory) }
    {
        self.statements.push(statement)?;
        Ok(())
    }

    /// The switch on a value with this body.
    #[tactic(auto, using(c_typed::proofs::Shapes::show_statement_switch, crate::proofs::Statements::as_rules))]
    pub fn finish(self, value: TExpr, line: u32) -> TStmt
        ensures { statement_of result ≡ switch_of (expression_of value) (body_of self) line }
    {
        let SwitchBody {
            cases,
            default,
            statements,
            ..
        } = self;
        TStmt::Switch {
            value,
            cases,
            default,
            statements,
            line,
        }
    }
}

// A `case` before the statement of a number.
fn case(
    value: &Cond,
    checker: &mut Checker,
    body: &mut SwitchBody,
    target: usize,
    line: u32,
) -> Result<(), CheckError>
    requires sees { Sees body.now }
    requires target { target ≡ length body.now.statements.items }
    ensures { Labels result body.new body.old.ty (known_of checker.new) (case_rule (cond_of value.now) line body.old.ty (body_of body.old) (known_of checker.old)) }
{
    let found = constant_value(value, checker)?;
    let value = convert(found, body.ty);
    let (_, is_new) = body.seen.insert_full(value.number())?;
    if !is_new {
        return refused(Kind::Jump, line);
    }
    body.cases.push(TCase {
        value,
        target,
        line,
    })?;
    Ok(())
}

// A `default` before the statement of a number.
fn default(
    checker: &mut Checker,
    body: &mut SwitchBody,
    target: usize,
    line: u32,
) -> Result<(), CheckError>
    requires sees { Sees body.now }
    requires target { target ≡ length body.now.statements.items }
    ensures { Labels result body.new body.old.ty (known_of checker.new) (default_rule line (body_of body.old) (known_of checker.old)) }
{
    if body.default.is_some() {
        return refused(Kind::Jump, line);
    }
    body.default = Some(target);
    Ok(())
}

/// A label, which stands before the next statement of the body.
pub(crate) fn labelled(
    label: &Label,
    checker: &mut Checker,
    body: &mut SwitchBody,
) -> Result<(), CheckError>
    requires sees { Sees body.now }
    ensures { Labels result body.new body.old.ty (known_of checker.new) (rule.label_rule (label_of label.now) body.old.ty (body_of body.old) (known_of checker.old)) }
{
    let target = body.statements.len();
    match label {
        Label::Case { keyword, value, .. } => case(value, checker, body, target, *keyword),
        Label::Default { keyword, .. } => default(checker, body, target, *keyword),
    }
}
