// The validation result of a document, with the error if its module is invalid.
ghost use Rattle.std.specs.Prelude.{◌≡◌};
ghost use Rattle.shader_check.specs.found.Examined.{step_of, refused_early, refused_by, finding_in};

use function_modules::function_errors::ValidationError;
use function_modules::module_steps::ModuleError;
use judgement::{Finding, Step};
use typing_errors::ConstExpressionError;
use typing_infos::ModuleInfo;

/// The validation result of a document, with the error if its module is invalid.
#[derive(Drop)]
pub enum Examined {
    /// The module is valid.
    Accepted {
        /// Whether strict scope was checked.
        strict: bool,
        /// The module's `ModuleInfo`.
        info: ModuleInfo,
    },
    /// The module is invalid, with this error.
    Refused(ValidationError),
}

// The step of an error of a global expression.
fn step_of(error: &ConstExpressionError) -> Step
    ensures { result ≡ step_of error.now }
{
    match error {
        ConstExpressionError::Typing(_) => Step::Typing,
        ConstExpressionError::NonConstOrOverride
        | ConstExpressionError::NonFullyEvaluatedConst
        | ConstExpressionError::Compose(_)
        | ConstExpressionError::Literal(_)
        | ConstExpressionError::Other => Step::Expression,
    }
}

// The finding for an error of a step up to overrides.
fn refused_early(error: &ModuleError) -> Finding
    ensures { result ≡ refused_early error.now }
{
    match error {
        ModuleError::InvalidHandle(_) => Finding::RefusedHandles,
        ModuleError::Layouter(error) => Finding::Refused(Step::Layout, error.ty.index()),
        ModuleError::Typing(error) => Finding::Refused(Step::Type, error.ty.index()),
        ModuleError::ConstExpression(error) => {
            Finding::Refused(step_of(&error.error), error.expression.index())
        }
        ModuleError::Constant(error) => Finding::Refused(Step::Constant, error.constant.index()),
        ModuleError::Override(error) => Finding::Refused(Step::Override, error.id.index()),
    }
}

/// The finding for a module error: its step, and the item.
pub fn refused_by(error: &ValidationError) -> Finding
    ensures { result ≡ refused_by error.now }
{
    match error {
        ValidationError::Module(error) => refused_early(error),
        ValidationError::GlobalVariable(error) => {
            Finding::Refused(Step::Global, error.global.index())
        }
        ValidationError::Function(error) => {
            Finding::Refused(Step::Function, error.function.index())
        }
        ValidationError::EntryPoint(error) => Finding::Refused(Step::Entry, error.index),
    }
}

impl Examined {
    /// The finding, without the error: the failing step, and the least index of an item that fails it.
    pub fn finding(&self) -> Finding
        ensures { result ≡ finding_in self.now }
    {
        match self {
            Examined::Accepted { strict, .. } => Finding::Accepted { strict: *strict },
            Examined::Refused(error) => refused_by(error),
        }
    }
}
