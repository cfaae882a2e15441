//! The loops of functions.

ghost use Rattle.std.specs.Prelude.{◌≡◌, ℕ, ◌++◌, IfOk, OnOk};
ghost use Rattle.grammar.specs.Tree.{Done};
ghost use Rattle.cycles.specs.Loops.{all_rows, rows_of};
ghost use Rattle.cycles.specs.Tables.{HasRuns};
ghost use Rattle.cycles.specs.declared.spans.Span as span;
ghost use Rattle.trees.specs.Trees.{body_tree, statement_tree};

use crate::runs::Runs;
use crate::spans::Span;
use std::alloc::{AllocError, Global};
use trees::{Statement, TreeMaker};

/// A loop of a function, and what its turn takes, from the test to where the loop begins again.
#[derive(Clone, Copy, PartialEq, Eq, Drop)]
pub struct Turn {
    /// The function's number.
    pub function: u8,
    /// The turn's cycles; `None` if the loop never begins again.
    pub cycles: Option<Span>,
    /// The turn's questions; `None` if the loop never begins again.
    pub questions: Option<Span>,
}

/// Lists the loops of the maker's functions in the order of the source, by the runs of these by their cycles and by
/// their questions.
///
/// # Errors
///
/// A request of memory that was refused.
pub fn turns(
    alloc: Global,
    maker: &TreeMaker,
    cycles: &Runs,
    questions: &Runs,
) -> Result<Vec<Turn>, AllocError>
    ensures { (c q : ℕ → span.Span) → HasRuns cycles.now c → HasRuns questions.now q
        → IfOk result (λ turns. turns.items ≡ all_rows cycles.now questions.now c q maker.now.functions) }
{
    let mut turns = Vec::new(alloc);
    for function in maker.functions() {
        add_turns(
            &function.body,
            function.number,
            cycles,
            questions,
            &mut turns,
        )?;
    }
    Ok(turns)
}

/// Adds the loops of statements of this function.
#[cycle(turns)]
fn add_turns(
    statements: &[Statement],
    function: u8,
    cycles: &Runs,
    questions: &Runs,
    turns: &mut Vec<Turn>,
) -> Result<(), AllocError>
    ensures { (c q : ℕ → span.Span) → HasRuns cycles.now c → HasRuns questions.now q
        → OnOk result (turns.new.items ≡ turns.old.items
        ++ rows_of cycles.now questions.now c q function (body_tree statements.now)) }
{
    for statement in statements {
        add_turns_of(statement, function, cycles, questions, turns)?;
    }
    Ok(())
}

/// Adds the loops of a statement of this function.
#[cycle(turns)]
fn add_turns_of(
    statement: &Statement,
    function: u8,
    cycles: &Runs,
    questions: &Runs,
    turns: &mut Vec<Turn>,
) -> Result<(), AllocError>
    ensures { (c q : ℕ → span.Span) → HasRuns cycles.now c → HasRuns questions.now q
        → OnOk result (turns.new.items ≡ turns.old.items
        ++ rows_of cycles.now questions.now c q function (statement_tree statement.now Done)) }
{
    match statement {
        Statement::While(test, body) => {
            turns.push(Turn {
                function,
                cycles: cycles.turn(test, body),
                questions: questions.turn(test, body),
            })?;
            add_turns(body, function, cycles, questions, turns)
        }
        Statement::IfStatement(_, branch) => {
            add_turns(branch, function, cycles, questions, turns)
        }
        Statement::IfElseStatement(_, first, second) => {
            add_turns(first, function, cycles, questions, turns)?;
            add_turns(second, function, cycles, questions, turns)
        }
        Statement::ExpressionStatement(_) | Statement::Return(_) => Ok(()),
    }
}
