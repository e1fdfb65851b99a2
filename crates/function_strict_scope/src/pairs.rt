//! The operands of a function's expressions, each with its user.

ghost use Rattle.std.specs.Prelude.{◌≡◌, ◌&&◌, ◌<◌, ℕ, [], true, false, Contains, IfOk, IfSome, OnOk, length, slice_get};
ghost use Rattle.ir_items.specs.judged.Plain.{PlainFunction};
ghost use Rattle.ir_items.specs.found.View.{function_view};
ghost use Rattle.ir_types.specs.judged.ExpressionPlain.{expression_view};
ghost use Rattle.function_body_checks.specs.Carried.{pre_known};
ghost use Rattle.spec_statements.specs.judged.Scope.{is_pre_emitted};
ghost use Rattle.function_operand_index.specs.Index.{ArePaired};
ghost use Rattle.function_strict_scope.specs.Live.{IsPairedAt, IsWhole, Follows};

use crate::expressions::list_operands;
use crate::live::LiveOperands;
use crate::long::emits_often;
use function_operand_index::index::OperandIndex;
use function_operand_index::pairs::{Pairs, in_strips};
use ir_arena::handle::Handle;
use ir_items::{Expression, Function, key};
use std::alloc::{AllocError, Global};

// Whether an expression is in scope everywhere.
#[tactic(auto, using(function_body_checks::proofs::Lists::same_pre))]
fn is_pre_emitted(expression: &Expression) -> bool
    ensures { result ≡ is_pre_emitted (expression_view expression.now) }
{
    expression.needs_pre_emit()
}

// The same for the expression at a handle.
#[tactic(auto, using(typing_references::proofs::Entries::entries))]
fn is_always_known(function: &Function, handle: Handle<key::Expression>) -> bool
    ensures { result ≡ pre_known (slice_get (function_view function.now).expressions handle) }
{
    match function.expressions.try_get(handle) {
        Ok(expression) => is_pre_emitted(expression),
        Err(_) => false,
    }
}

// Adds the pair of an operand and a user, unless the operand is in scope everywhere. Returns whether the operand precedes the
// user then. The error is out of memory.
fn add_operand(
    pairs: &mut Pairs,
    function: &Function,
    place: usize,
    operand: Handle<key::Expression>,
) -> Result<bool, AllocError>
    requires small { place < 4294967295 }
    requires len { length pairs.old.users.items ≡ length pairs.old.operands.items }
    ensures len { OnOk result (length pairs.new.users.items ≡ length pairs.new.operands.items) }
    ensures kept { OnOk result ((o e : ℕ) → ArePaired pairs.old.operands.items pairs.old.users.items o e → ArePaired pairs.new.operands.items pairs.new.users.items o e) }
    ensures added { IfOk result (λ fits. fits ≡ true → IsPairedAt (function_view function.now) pairs.new.operands.items pairs.new.users.items place operand) }
{
    if is_always_known(function, operand) {
        return Ok(true);
    }
    if operand.index() >= place {
        return Ok(false);
    }
    pairs.add(operand.index() as u32, place as u32)?;
    Ok(true)
}

fn both(first: bool, second: bool) -> bool
    ensures { result ≡ (first && second) }
{
    first && second
}

// The same for each of several operands. Returns whether all of these precede the user.
fn add_operands(
    pairs: &mut Pairs,
    function: &Function,
    place: usize,
    operands: &[Handle<key::Expression>],
) -> Result<bool, AllocError>
    requires small { place < 4294967295 }
    requires len { length pairs.old.users.items ≡ length pairs.old.operands.items }
    ensures len { OnOk result (length pairs.new.users.items ≡ length pairs.new.operands.items) }
    ensures kept { OnOk result ((o e : ℕ) → ArePaired pairs.old.operands.items pairs.old.users.items o e → ArePaired pairs.new.operands.items pairs.new.users.items o e) }
    ensures added { IfOk result (λ whole. whole ≡ true → (o : ℕ) → Contains operands.now o → IsPairedAt (function_view function.now) pairs.new.operands.items pairs.new.users.items place o) }
{
    let mut whole = true;
    for operand in operands {
        let fits = add_operand(pairs, function, place, *operand)?;
        whole = both(whole, fits);
    }
    Ok(whole)
}

// All operands of a function that are not in scope everywhere, if each precedes its user. The error is out of memory.
fn all_operands(alloc: Global, function: &Function) -> Result<Option<Pairs>, AllocError>
    ensures { IfOk result (λ found. IfSome found (λ p. IsWhole (function_view function.now) p.operands.items p.users.items)) }
{
    let mut room = Vec::new(alloc);
    let mut pairs = Pairs::new(alloc);
    for place in 0..function.expressions.len() {
        list_operands(&mut room, function, Handle::at(place))?;
        if !add_operands(&mut pairs, function, place, &room)? {
            return Ok(None);
        }
    }
    Ok(Some(pairs))
}

// An empty index. The error is out of memory.
fn no_index(alloc: Global) -> Result<LiveOperands, AllocError>
    ensures { IfOk result (λ live. live.whole ≡ false) }
{
    Ok(LiveOperands {
        whole: false,
        index: OperandIndex::new(alloc, Vec::new(alloc), Vec::new(alloc))?,
        ranges: Vec::new(alloc),
        alloc,
    })
}

// The index of pairs, with no operand in scope. The error is out of memory.
#[tactic(auto, using(crate::proofs::LiveLemmas::follows_nothing))]
fn index_of(alloc: Global, pairs: &Pairs) -> Result<LiveOperands, AllocError>
    requires { length pairs.now.users.items ≡ length pairs.now.operands.items }
    ensures { IfOk result (λ live. (f : PlainFunction) → IsWhole f pairs.now.operands.items pairs.now.users.items → Follows f live []) }
{
    let Pairs { operands, users } = in_strips(alloc, &pairs.operands, &pairs.users)?;
    if operands.len() > u32::MAX as usize {
        return no_index(alloc);
    }
    Ok(LiveOperands {
        whole: true,
        index: OperandIndex::new(alloc, operands, users)?,
        ranges: Vec::new(alloc),
        alloc,
    })
}

/// The index at the start of a function's body. The error is out of memory.
#[tactic(auto, using(crate::proofs::LiveLemmas::follows_nothing))]
pub fn begin(alloc: Global, function: &Function) -> Result<LiveOperands, AllocError>
    ensures { IfOk result (λ live. Follows (function_view function.now) live []) }
{
    if !emits_often(function) {
        return no_index(alloc);
    }
    match all_operands(alloc, function)? {
        Some(pairs) => index_of(alloc, &pairs),
        None => no_index(alloc),
    }
}
