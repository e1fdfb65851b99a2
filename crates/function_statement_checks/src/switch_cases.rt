//! The values of the cases of a switch.

ghost use Rattle.std.specs.Prelude.{◌≡◌, ◌↔◌, IsTrue, IfOk, IfSome, None, Contains, false, List, map};
ghost use Rattle.ir_blocks.specs.found.View.{case_view, cases_of};
ghost use Rattle.ir_kinds.specs.declared.scalars.ScalarKind.TheVariants.{Sint, Uint};
ghost use Rattle.ir_kinds.specs.declared.values.SwitchValue.{SwitchValue as Value};
ghost use Rattle.ir_kinds.specs.declared.values.SwitchValue.TheVariants.{Default};
ghost use Rattle.spec_statements.specs.judged.Switches.{case_values, FitsKind, falls_at_end, CasesOK};
ghost use Rattle.function_statement_checks.specs.Cases.{OccursTwice, IsValueFault, AreApart, IsCaseFault};
ghost use Rattle.function_statement_checks.specs.CaseValues.{value_key};

use ir_blocks::SwitchCase;
use ir_kinds::{ScalarKind, SwitchValue};
use std::alloc::{AllocError, Global};
use std::collections::BTreeSet;
use typing_errors::FunctionError;

// Whether a scalar kind is `Sint`.
const fn is_signed(kind: ScalarKind) -> bool
    ensures { IsTrue result ↔ (kind ≡ Sint) }
{
    match kind {
        ScalarKind::Sint => true,
        ScalarKind::Uint
        | ScalarKind::Float
        | ScalarKind::Bool
        | ScalarKind::AbstractInt
        | ScalarKind::AbstractFloat => false,
    }
}

// Whether a scalar kind is `Uint`.
const fn is_unsigned(kind: ScalarKind) -> bool
    ensures { IsTrue result ↔ (kind ≡ Uint) }
{
    match kind {
        ScalarKind::Uint => true,
        ScalarKind::Sint
        | ScalarKind::Float
        | ScalarKind::Bool
        | ScalarKind::AbstractInt
        | ScalarKind::AbstractFloat => false,
    }
}

// Whether a value is of the selector's kind.
const fn fits_kind(kind: ScalarKind, value: SwitchValue) -> bool
    ensures { IsTrue result ↔ FitsKind kind value }
{
    match value {
        SwitchValue::I32(_) => is_signed(kind),
        SwitchValue::U32(_) => is_unsigned(kind),
        SwitchValue::Default => true,
    }
}

// The value as a number, with its kind.
const fn value_key(value: SwitchValue) -> (u8, i64)
    ensures { result ≡ value_key value }
{
    match value {
        SwitchValue::I32(number) => (0, number as i64),
        SwitchValue::U32(number) => (1, number as i64),
        SwitchValue::Default => (2, 0),
    }
}

// The error of a value that occurs twice.
const fn repeated(kind: ScalarKind, value: SwitchValue) -> FunctionError
    ensures { (values : List Value) → OccursTwice values value → IsValueFault kind values result }
{
    match value {
        SwitchValue::Default => FunctionError::MultipleDefaultCases,
        SwitchValue::I32(_) | SwitchValue::U32(_) => FunctionError::ConflictingSwitchCase(value),
    }
}

// The error of the first case whose value is wrong. The error is out of memory.
fn values_fault(
    alloc: Global,
    kind: ScalarKind,
    cases: &[SwitchCase],
) -> Result<Option<FunctionError>, AllocError>
    ensures none { IfOk result (λ found. found ≡ None → AreApart kind (case_values (cases_of (map case_view cases.now)))) }
    ensures some { IfOk result (λ found. IfSome found (IsValueFault kind (case_values (cases_of (map case_view cases.now))))) }
{
    let mut seen = BTreeSet::new(alloc);
    for case in cases {
        if !fits_kind(kind, case.value) {
            return Ok(Some(FunctionError::ConflictingCaseType));
        }
        if !seen.insert(value_key(case.value))? {
            return Ok(Some(repeated(kind, case.value)));
        }
    }
    Ok(None)
}

// Whether a value is that of the default.
const fn is_default(value: SwitchValue) -> bool
    ensures { IsTrue result ↔ (value ≡ Default) }
{
    match value {
        SwitchValue::Default => true,
        SwitchValue::I32(_) | SwitchValue::U32(_) => false,
    }
}

// Whether one of the cases is the default.
fn has_default(cases: &[SwitchCase]) -> bool
    ensures { IsTrue result ↔ Contains (case_values (cases_of (map case_view cases.now))) Default }
{
    for case in cases {
        if is_default(case.value) {
            return true;
        }
    }
    false
}

// Whether the last case falls through.
fn falls_at_end(cases: &[SwitchCase]) -> bool
    ensures { result ≡ falls_at_end false (cases_of (map case_view cases.now)) }
{
    let mut falls = false;
    for case in cases {
        falls = case.fall_through;
    }
    falls
}

/// The error of the cases of a switch with a selector of this kind, or `None` if their values have that kind and are distinct,
/// there is a default, and the last case does not fall through; else one of [`FunctionError::ConflictingCaseType`],
/// [`FunctionError::ConflictingSwitchCase`] or [`FunctionError::MultipleDefaultCases`], [`FunctionError::MissingDefaultCase`],
/// [`FunctionError::LastCaseFallTrough`]. The time is that of sorting the values.
///
/// # Errors
///
/// Out of memory for the values.
pub fn cases_fault(
    alloc: Global,
    kind: ScalarKind,
    cases: &[SwitchCase],
) -> Result<Option<FunctionError>, AllocError>
    ensures none { IfOk result (λ found. found ≡ None → CasesOK kind (cases_of (map case_view cases.now))) }
    ensures some { IfOk result (λ found. IfSome found (IsCaseFault kind (cases_of (map case_view cases.now)))) }
{
    match values_fault(alloc, kind, cases) {
        Err(error) => Err(error),
        Ok(Some(error)) => Ok(Some(error)),
        Ok(None) => {
            if !has_default(cases) {
                return Ok(Some(FunctionError::MissingDefaultCase));
            }
            if falls_at_end(cases) {
                return Ok(Some(FunctionError::LastCaseFallTrough));
            }
            Ok(None)
        }
    }
}
