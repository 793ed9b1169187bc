//! What the routines for products, quotients, remainders and shifts do on the symbolic machine, and what the code of operators
//! does that calls none.

ghost use Rattle.select_trace.specs.Promises.{HelpersAnswer};
ghost use Rattle.select_trace.specs.Operators.{BinaryRuns, UnaryRuns, ConvertRuns, CopiesRun, TestRuns, StraightRuns};

/// Each of the sixteen routines, called from main or from the handler, answers: without an event it returns to where the caller
/// goes on, with the answer that C defines for the operands in its frame. That takes 4,096 instructions at most, whatever the
/// operands and whatever selects it needs, and 2,048 where C defines an answer.
pub fn routines_answer()
    ensures called { HelpersAnswer }
{}

/// The code of operators, of any width, on bytes of the thread's own frame and results: operators on two values and on one,
/// conversions, copies, and tests for 0; and any other code that jumps nowhere, as the run over bytes by number says.
pub fn operators_run()
    ensures binary { BinaryRuns }
    ensures unary { UnaryRuns }
    ensures convert { ConvertRuns }
    ensures copies { CopiesRun }
    ensures test { TestRuns }
    ensures straight { StraightRuns }
{}
