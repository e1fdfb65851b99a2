// The location of an error.

use check_reasons::{BodyPlace, Brought, Site, Target, names_of};
use check_sentences::function_errors::ValidationError;
use check_sentences::module_steps::ModuleError;
use function_entry_checks::EntryPointError;
use ir_places::Trail;
use module_handles::InvalidHandleError;
use std::alloc::{AllocError, Global};
use typing_errors::FunctionError;

// In a body if the trail leads there, or else at a part.
fn site_in<'a>(of_entry: bool, index: usize, trail: &'a Trail, part: &'a [usize]) -> Site<'a> {
    if trail.is_lost() {
        return Site::Part(part);
    }
    Site::Body(BodyPlace {
        of_entry,
        index,
        trail,
    })
}

// The handle's referencing item, by the word of the handle's kind.
fn target<'a>(kind: &str, index: usize, subject: Option<usize>, part: &'a [usize]) -> Site<'a> {
    match names_of(kind) {
        Some(named) => Site::Handle(Target {
            named,
            index,
            subject,
            is_later: subject.is_some(),
        }),
        None => Site::Part(part),
    }
}

// The location of an error of handles.
fn site_of_handle<'a>(error: &InvalidHandleError, part: &'a [usize]) -> Site<'a> {
    match error {
        InvalidHandleError::BadHandle(bad) => target(bad.kind, bad.index, None, part),
        InvalidHandleError::ForwardDependency(error) => target(
            error.depends_on_kind,
            error.depends_on,
            Some(error.subject),
            part,
        ),
        InvalidHandleError::BadRange(bad) => {
            let range = bad.range.index_range();
            Site::Range(range.start as usize, range.end as usize)
        }
    }
}

// The expression that requires uniform control flow but does not have it.
fn diverging(error: &FunctionError) -> Option<usize> {
    match error {
        FunctionError::NonUniformControlFlow(_, expression, _) => Some(expression.index()),
        _ => None,
    }
}

// The location of an error of a function or of an entry point's function.
fn diverging_in(error: &ValidationError) -> Option<usize> {
    match error {
        ValidationError::Function(refused) => diverging(&refused.error),
        ValidationError::EntryPoint(refused) => match &refused.error {
            EntryPointError::Function(error) => diverging(error),
            _ => None,
        },
        ValidationError::Module(_) | ValidationError::GlobalVariable(_) => None,
    }
}

/// The location of an error, which is this part if it is neither in a body nor at a handle; `body` is the path of the body of
/// the invalid function.
pub(crate) fn site_of<'a>(
    error: &'a ValidationError,
    body: &'a [usize],
    part: &'a [usize],
) -> Site<'a> {
    if let Some(expression) = diverging_in(error) {
        return Site::Brought(Brought {
            body,
            expression,
            part,
        });
    }
    match error {
        ValidationError::Module(ModuleError::InvalidHandle(error)) => site_of_handle(error, part),
        ValidationError::Module(_) | ValidationError::GlobalVariable(_) => Site::Part(part),
        ValidationError::Function(refused) => {
            site_in(false, refused.function.index(), &refused.trail, part)
        }
        ValidationError::EntryPoint(refused) => {
            site_in(true, refused.index, &refused.trail, part)
        }
    }
}

/// The path of the body of the invalid function, or empty if there is none. The error is out of memory.
pub(crate) fn body_of(alloc: Global, error: &ValidationError) -> Result<Vec<usize>, AllocError> {
    let mut path = Vec::new(alloc);
    match error {
        ValidationError::Function(refused) => {
            path.extend_from_slice(&[12, refused.function.index(), 5])?;
        }
        ValidationError::EntryPoint(refused) => {
            path.extend_from_slice(&[13, refused.index, 6, 5])?;
        }
        ValidationError::Module(_) | ValidationError::GlobalVariable(_) => {}
    }
    Ok(path)
}
