//! Checks a rule for each statement of a body, at any depth.

ghost use Rattle.std.specs.Prelude.{MatchResult, map};
ghost use Rattle.ir_blocks.specs.judged.Places.{Place, OccursAt};
ghost use Rattle.ir_blocks.specs.judged.Plain.{PlainStatement};
ghost use Rattle.ir_blocks.specs.found.View.{statement_view, block_view, case_view, cases_of};
ghost use Rattle.ir_places.specs.Paths.{IsPlaced, part_view};
ghost use Rattle.ir_places.specs.Stands.{StandsAt, StandsFrom, StandsInCase, StandsInPart};
ghost use Rattle.ir_places.specs.Each.{AllAre, AllWithin, AllInCases};

use crate::step::{Part, Step};
use crate::trail::Trail;
use ir_blocks::{Block, Statement, SwitchCase, plain_operation};

/// A rule for statements, which is checked for each statement without its nested blocks.
pub trait StatementRule<E> {
    /// The precondition of a check.
    ghost fits: { Self → Type 0 };

    /// The statement satisfies the rule.
    ghost meets: { Self → PlainStatement → Type 0 };

    /// The statement violates the rule with this error.
    ghost wrong: { Self → E → PlainStatement → Type 0 };

    /// Checks the rule for the statement; the error says why it is violated.
    fn check(&self, statement: &Statement) -> Result<(), E>
        requires { fits self.now }
        ensures { MatchResult result (λ _. meets self.now (statement_view statement.now)) (λ e. wrong self.now e (statement_view statement.now)) };
}

/// Checks a rule for each statement of a block, at any depth; the error is the first violation, and the trail is its place. Only
/// the trail allocates.
pub fn check_each<E, T: StatementRule<E>>(
    trail: &mut Trail,
    rule: &T,
    block: &Block,
) -> Result<(), E>
    requires { T.fits rule.now }
    ensures { MatchResult result
        (λ _. (p : Place) (s : PlainStatement) → OccursAt (block_view block.now) p s → T.meets rule.now s)
        (λ e. IsPlaced trail.new (λ p. (s : PlainStatement) × OccursAt (block_view block.now) p s × T.wrong rule.now e s)) }
{
    match check_block(trail, rule, block) {
        Ok(()) => Ok(()),
        Err(error) => Err(error),
    }
}

// Checks a rule for each statement of a block, along the block.
#[cycle(each)]
fn check_block<E, T: StatementRule<E>>(trail: &mut Trail, rule: &T, block: &Block) -> Result<(), E>
    requires { T.fits rule.now }
    ensures { MatchResult result
        (λ _. AllAre (T.meets rule.now) (block_view block.now))
        (λ e. IsPlaced trail.new (StandsAt (T.wrong rule.now e) (block_view block.now))) }
{
    for (index, statement) in block.as_slice().iter().enumerate() {
        match check_statement(trail, rule, index, statement) {
            Ok(()) => {}
            Err(error) => return Err(error),
        }
    }
    Ok(())
}

// Checks a rule for the statement of a block at an index, and for those nested in it. The trail is relative to the block.
#[cycle(each)]
fn check_statement<E, T: StatementRule<E>>(
    trail: &mut Trail,
    rule: &T,
    index: usize,
    statement: &Statement,
) -> Result<(), E>
    requires { T.fits rule.now }
    ensures { MatchResult result
        (λ _. T.meets rule.now (statement_view statement.now) × AllWithin (T.meets rule.now) (statement_view statement.now))
        (λ e. IsPlaced trail.new (StandsFrom (T.wrong rule.now e) index (statement_view statement.now))) }
{
    match rule.check(statement) {
        Ok(()) => {}
        Err(error) => {
            trail.stand(index);
            return Err(error);
        }
    }
    match statement {
        Statement::Block(block) => check_part(trail, rule, index, Part::Inner, block),
        Statement::If { accept, reject, .. } => {
            check_part(trail, rule, index, Part::Accepting, accept)?;
            check_part(trail, rule, index, Part::Rejecting, reject)
        }
        Statement::Switch { cases, .. } => check_cases(trail, rule, index, cases),
        Statement::Loop {
            body,
            continuing,
            ..
        } => {
            check_part(trail, rule, index, Part::LoopBody, body)?;
            check_part(trail, rule, index, Part::LoopContinuing, continuing)
        }
        Statement::Emit(_)
        | Statement::Break
        | Statement::Continue
        | Statement::Return { .. }
        | Statement::Kill
        | Statement::Call { .. }
        | plain_operation!() => Ok(()),
    }
}

// Checks a rule for a nested block of a statement. The trail is relative to the block that has the statement.
#[cycle(each)]
fn check_part<E, T: StatementRule<E>>(
    trail: &mut Trail,
    rule: &T,
    index: usize,
    part: Part,
    block: &Block,
) -> Result<(), E>
    requires { T.fits rule.now }
    ensures { MatchResult result
        (λ _. AllAre (T.meets rule.now) (block_view block.now))
        (λ e. IsPlaced trail.new (StandsInPart (T.wrong rule.now e) index (part_view part) (block_view block.now))) }
{
    match check_block(trail, rule, block) {
        Ok(()) => Ok(()),
        Err(error) => {
            trail.inside(Step { index, part });
            Err(error)
        }
    }
}

// Checks a rule for the cases of a switch. The trail is relative to the block that has the switch.
#[cycle(each)]
fn check_cases<E, T: StatementRule<E>>(
    trail: &mut Trail,
    rule: &T,
    index: usize,
    cases: &[SwitchCase],
) -> Result<(), E>
    requires { T.fits rule.now }
    ensures { MatchResult result
        (λ _. AllInCases (T.meets rule.now) (cases_of (map case_view cases.now)))
        (λ e. IsPlaced trail.new (StandsInCase (T.wrong rule.now e) index (cases_of (map case_view cases.now)))) }
{
    for (number, case) in cases.iter().enumerate() {
        match check_part(trail, rule, index, Part::Case(number), &case.body) {
            Ok(()) => {}
            Err(error) => return Err(error),
        }
    }
    Ok(())
}
