// The result of validating a document.
ghost use Rattle.std.specs.Prelude.{◌≡◌, IfOk, string_bytes};

use std::alloc::{AllocError, Global};
use std::fmt::{self, Display};

/// A step of validation whose errors name an item.
#[derive(Clone, Copy, Debug, PartialEq, Eq)]
pub enum Step {
    /// Layouts of types.
    Layout,
    /// The checks of types.
    Type,
    /// Type inference of global expressions.
    Typing,
    /// The checks of global expressions.
    Expression,
    /// The checks of constants.
    Constant,
    /// The checks of overrides.
    Override,
    /// The checks of global variables.
    Global,
    /// The checks of functions.
    Function,
    /// The checks of entry points.
    Entry,
}

impl Display for Step {
    ghost use Rattle.std.specs.Prelude.{Some};
    ghost use Rattle.judgement.specs.judged.Text.{step_word};

    ghost output = { λ s. Some (step_word s) };

    /// Writes the name of the step.
    fn fmt<W: fmt::Write>(&self, f: &mut fmt::Formatter<W>) -> fmt::Result {
        match self {
            Step::Layout => write!(f, "layout"),
            Step::Type => write!(f, "type"),
            Step::Typing => write!(f, "typing"),
            Step::Expression => write!(f, "expression"),
            Step::Constant => write!(f, "constant"),
            Step::Override => write!(f, "override"),
            Step::Global => write!(f, "global"),
            Step::Function => write!(f, "function"),
            Step::Entry => write!(f, "entry"),
        }
    }
}

/// The result of validating a document.
#[derive(Clone, Copy, Debug, PartialEq, Eq)]
pub enum Finding {
    /// The module is valid.
    Accepted {
        /// The module is valid, with strict scope: the flags include `STRICT_SCOPE`, and `BLOCKS`, without which it has no effect.
        strict: bool,
    },
    /// The bytes are not a document.
    RefusedDocument,
    /// A handle is out of bounds or a forward dependency.
    RefusedHandles,
    /// The first failing step, and the least index of an item that fails it.
    Refused(Step, usize),
}

impl Finding {
    ghost use Rattle.judgement.specs.judged.Text.{text_of};

    /// The line of text for the result, with a line feed. The error is out of memory.
    pub fn text(self, alloc: Global) -> Result<String, AllocError>
        ensures { IfOk result (λ text. string_bytes text ≡ text_of self) }
    {
        match self {
            Finding::Accepted { strict: false } => String::from_str(alloc, "accepted\n"),
            Finding::Accepted { strict: true } => String::from_str(alloc, "accepted strict\n"),
            Finding::RefusedDocument => String::from_str(alloc, "refused document\n"),
            Finding::RefusedHandles => String::from_str(alloc, "refused handles\n"),
            Finding::Refused(step, index) => format!(in alloc; "refused {step} {index}\n"),
        }
    }
}
