//! The stages that may run an expression.

ghost use Rattle.std.specs.Prelude.{◌≡◌, Some, map};
ghost use Rattle.ir_types.specs.judged.ExpressionPlain.{expression_view};
ghost use Rattle.spec_statements.specs.judged.ExpressionStages.{callee_stages};
ghost use Rattle.function_tiny_lower.specs.Ends.{noted_of};
ghost use Rattle.function_tiny_lower.specs.Readings.{stages_by, stages_in};

use crate::known::{Known, known_of};
use crate::tiny::TinyInfo;
use bitflags::Flags;
use ir_arena::handle::Handle;
use ir_flags::ShaderStages;
use ir_types::{Expression, key};

// The stages that may run a function; all, if it has no information.
fn stages_at(callees: &[TinyInfo], function: Handle<key::Function>) -> ShaderStages
    ensures { result ≡ callee_stages (map noted_of callees.now) function }
{
    match callees.get(function.index()) {
        Some(info) => info.stages,
        None => ShaderStages::all(),
    }
}

fn stages_in(known: &Known, callees: &[TinyInfo]) -> ShaderStages
    ensures { result ≡ stages_in (map noted_of callees.now) (Some known.now) }
{
    match *known {
        Known::CallResult(function) => stages_at(callees, function),
        Known::Literal(_)
        | Known::ZeroValue(_)
        | Known::FunctionArgument(_)
        | Known::Unary { .. }
        | Known::Binary { .. }
        | Known::Select { .. } => ShaderStages::all(),
    }
}

/// The stages that may run an expression, given the information on functions.
pub(crate) fn stages_by(expression: &Expression, callees: &[TinyInfo]) -> ShaderStages
    ensures { result ≡ stages_by (map noted_of callees.now) (expression_view expression.now) }
{
    match known_of(expression) {
        Some(known) => stages_in(&known, callees),
        None => ShaderStages::all(),
    }
}
