//! Whether calls pass as many arguments as their functions have.

ghost use Rattle.std.specs.Prelude.{◌≡◌, ◌↔◌, IsTrue, MatchOption, option_map, slice_get};
ghost use Rattle.ir_items.specs.found.View.{function_view, module_view};
ghost use Rattle.ir_places.specs.Paths.{IsPlaced};
ghost use Rattle.typing_references.specs.First.{first_in};
ghost use Rattle.spec_expressions.specs.judged.CallArities.{AritiesMatch};
ghost use Rattle.typing_handles.specs.Tests.{arity_fault_of, count_of, wrong_count, PassesWrongCount};

use ir_arena::handle::Handle;
use ir_blocks::plain_operation;
use ir_items::{Function, Module, Statement, key};
use ir_places::Trail;
use typing_references::{StatementLook, first_in, placed_in};

/// A call that passes a wrong number of arguments.
#[derive(Clone, Copy, PartialEq, Eq, Debug)]
pub struct ArityFault {
    /// The callee.
    pub function: Handle<key::Function>,
    /// Its number of arguments, or `None` if the callee does not exist.
    pub required: Option<usize>,
    /// The number of arguments passed.
    pub seen: usize,
}

// The function at a handle, if it exists.
#[tactic(auto, using(typing_references::proofs::Entries::entries))]
fn function_at(module: &Module, handle: Handle<key::Function>) -> Option<&Function>
    ensures { option_map (λ f. function_view f.now) result ≡ slice_get (module_view «module».now).functions handle }
{
    match module.functions.try_get(handle) {
        Ok(function) => Some(function),
        Err(_) => None,
    }
}

// The number of arguments of the function at a handle, if it exists.
fn count_of(module: &Module, handle: Handle<key::Function>) -> Option<usize>
    ensures { result ≡ count_of (slice_get (module_view «module».now).functions handle) }
{
    match function_at(module, handle) {
        Some(function) => Some(function.arguments.len()),
        None => None,
    }
}

// The fault, if the number of arguments is wrong or the function does not exist.
fn wrong_count(
    function: Handle<key::Function>,
    seen: usize,
    required: Option<usize>,
) -> Option<ArityFault>
    ensures { result ≡ wrong_count function seen required }
{
    match required {
        Some(count) => if count == seen {
            None
        } else {
            Some(ArityFault {
                function,
                required: Some(count),
                seen,
            })
        },
        None => Some(ArityFault {
            function,
            required: None,
            seen,
        }),
    }
}

// Calls with a wrong number of arguments.
#[derive(Drop)]
struct Arity<'a> {
    module: &'a Module,
}

impl StatementLook<ArityFault> for Arity<'_> {
    ghost use Rattle.ir_items.specs.found.View.{module_view};
    ghost use Rattle.typing_handles.specs.Tests.{arity_fault_of};

    ghost look = { λ t s. arity_fault_of (module_view t.«module».now) s };

    fn look(&self, statement: &Statement) -> Option<ArityFault> {
        match statement {
            Statement::Call {
                function,
                arguments,
                ..
            } => wrong_count(*function, arguments.len(), count_of(self.module, *function)),
            Statement::Emit(_)
            | Statement::Block(_)
            | Statement::If { .. }
            | Statement::Switch { .. }
            | Statement::Loop { .. }
            | Statement::Break
            | Statement::Continue
            | Statement::Return { .. }
            | Statement::Kill
            | plain_operation!() => None,
        }
    }
}

fn first_fault(function: &Function, module: &Module) -> Option<ArityFault>
    ensures { result ≡ first_in (arity_fault_of (module_view «module».now)) (function_view function.now).body }
{
    let arity = Arity { module };
    first_in(&arity, &function.body)
}

/// A call that passes a wrong number of arguments or names a function that does not
/// exist, at the trail's place (the first in program order, which no clause states); `None` if there is no such call.
pub fn arity_fault(trail: &mut Trail, function: &Function, module: &Module) -> Option<ArityFault>
    ensures { MatchOption result
        (AritiesMatch (module_view «module».now) (function_view function.now))
        (λ x. IsPlaced trail.new (PassesWrongCount (module_view «module».now) (function_view function.now) x)) }
{
    let arity = Arity { module };
    match placed_in(trail, &arity, &function.body) {
        Some(fault) => Some(fault),
        None => None,
    }
}

/// Whether the callee of each call of the function exists and has as many arguments as are passed.
pub fn arities_match(function: &Function, module: &Module) -> bool
    ensures { IsTrue result ↔ AritiesMatch (module_view «module».now) (function_view function.now) }
{
    match first_fault(function, module) {
        Some(_) => false,
        None => true,
    }
}
