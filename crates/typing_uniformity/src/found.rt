//! The first source of non-uniformity among operands.

ghost use Rattle.std.specs.Prelude.{◌≡◌, Option, None, map};
ghost use Rattle.ir_types.specs.judged.ExpressionPlain.{expression_view};
ghost use Rattle.spec_expressions.specs.judged.OperandUses.{operand, operands_in, expression_uses};
ghost use Rattle.spec_expressions.specs.declared.operand.Usage.TheVariants.{Read};
ghost use Rattle.spec_expressions.specs.judged.Values.{known_at};
ghost use Rattle.spec_expressions.specs.judged.Operands.{these};
ghost use Rattle.typing_uniformity.specs.Facts.{or_known, find_all};

use ir_arena::handle::Handle;
use ir_types::{Expression, key};
use spec_expressions::{Scoping, Slot};
use typing_references::{OperandUser, with_operands};

type Operand = Handle<key::Expression>;

// The facts of an expression, if they are known.
pub(crate) fn known(sources: &[Option<Operand>], operand: Operand) -> Option<Operand>
    ensures { result ≡ known_at sources.now operand }
{
    match sources.get(operand.index()) {
        Some(source) => *source,
        None => None,
    }
}

// The source found so far, or that of one more operand.
fn one(sources: &[Option<Operand>], found: Option<Operand>, operand: Operand) -> Option<Operand>
    ensures { result ≡ or_known sources.now operand found }
{
    match found {
        Some(source) => Some(source),
        None => known(sources, operand),
    }
}

fn of_slots(sources: &[Option<Operand>], slots: &[Slot]) -> Option<Operand>
    ensures { result ≡ find_all sources.now (operands_in (these slots.now)) None }
{
    let mut found = None;
    for slot in slots {
        if let Some(operand) = slot.handle {
            found = one(sources, found, operand);
        }
    }
    found
}

fn all(sources: &[Option<Operand>], operands: &[Operand]) -> Option<Operand>
    ensures { result ≡ find_all sources.now (map (operand Read) operands.now) None }
{
    let mut found = None;
    for operand in operands {
        found = one(sources, found, *operand);
    }
    found
}

// A visitor that searches for the first source among operands.
#[derive(Drop)]
struct Sources<'a> {
    sources: &'a [Option<Operand>],
}

impl OperandUser<(), Option<Operand>> for Sources<'_> {
    ghost use Rattle.std.specs.Prelude.{◌≡◌, None};
    ghost use Rattle.spec_expressions.specs.judged.OperandUses.{operands_in};
    ghost use Rattle.typing_uniformity.specs.Facts.{find_all};

    ghost does = { λ t before after found operands. found ≡ find_all t.sources.now (operands_in operands) None };

    fn take_slots(&self, state: &mut (), slots: &[Slot]) -> Option<Operand> {
        of_slots(self.sources, slots)
    }

    fn take_list(&self, state: &mut (), scoping: Scoping, handles: &[Operand]) -> Option<Operand> {
        all(self.sources, handles)
    }
}

// The source of non-uniformity of the expression's operands, if any.
pub(crate) fn source_below(sources: &[Option<Operand>], expression: &Expression) -> Option<Operand>
    ensures { result ≡ find_all sources.now (expression_uses (expression_view expression.now)) None }
{
    let all = Sources { sources };
    with_operands(&all, &mut (), expression)
}
