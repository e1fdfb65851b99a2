//! Requirement texts for invalid returns and stores.

use crate::scene::Scene;
use check_cause_texts::space_word;
use check_causes::{ReturnCause, StoreCause, broken_return, broken_store};
use ir_arena::arena::Arena;
use ir_arena::handle::Handle;
use ir_kinds::AddressSpace;
use ir_types::{Expression, TypeInner, key};
use std::fmt;
use typing_errors::FunctionError;
use typing_forms::form_in;

// The maximum number of steps to follow from a pointer to its origin.
const MOST_STEPS: usize = 64;

/// Writes the requirement for an invalid return.
pub(crate) fn write_return<W: fmt::Write>(
    f: &mut fmt::Formatter<W>,
    scene: &Scene<'_>,
    value: Option<Handle<key::Expression>>,
    declared: Option<Handle<key::IrType>>,
) -> fmt::Result {
    let types = scene.types();
    match broken_return(&scene.context, declared, value) {
        Some(ReturnCause::NoResult(given)) => write!(
            f,
            "the function has no result, and a value of {} is returned",
            types.text(&given)
        ),
        Some(ReturnCause::Nothing(wanted)) => write!(
            f,
            "the function must return {}, and nothing is returned",
            types.text(&wanted)
        ),
        Some(ReturnCause::Differ(given, wanted)) => write!(
            f,
            "the function must return {}, and this value is {}",
            types.text(&wanted),
            types.text(&given)
        ),
        None => write!(
            f,
            "a function must return a value of its result type, and nothing if it has none"
        ),
    }
}

/// The global variable that a pointer originates from, if any.
pub(crate) fn root_of(
    expressions: &Arena<Expression, key::Expression>,
    pointer: Handle<key::Expression>,
) -> Option<Handle<key::GlobalVariable>> {
    let mut place = pointer.index();
    for _ in 0..MOST_STEPS {
        if place >= expressions.len() {
            return None;
        }
        match expressions[Handle::at(place)] {
            Expression::Access { base, .. } | Expression::AccessIndex { base, .. } => {
                place = base.index();
            }
            Expression::GlobalVariable(global) => return Some(global),
            _ => return None,
        }
    }
    None
}

// Why the memory of a pointer is not writable.
fn write_space<W: fmt::Write>(
    f: &mut fmt::Formatter<W>,
    scene: &Scene<'_>,
    pointer: Handle<key::Expression>,
    space: AddressSpace,
) -> fmt::Result {
    write!(
        f,
        "a Store must be through a pointer to memory that can be written"
    )?;
    let Some(global) = root_of(scene.context.expressions, pointer) else {
        return write!(f, "; this one leads into {}", space_word(space));
    };
    let Ok(variable) = scene.globals.try_get(global) else {
        return Ok(());
    };
    write!(f, "; globals[{}]", global.index())?;
    if let Some(name) = &variable.name {
        write!(f, " {:?}", name.as_str())?;
    }
    match variable.space {
        AddressSpace::Storage { .. } => write!(f, " lacks STORE"),
        other => write!(f, " lies in {}", space_word(other)),
    }
}

// Why a pointer can't be stored through.
fn write_pointer<W: fmt::Write>(
    f: &mut fmt::Formatter<W>,
    scene: &Scene<'_>,
    pointer: Handle<key::Expression>,
) -> fmt::Result {
    let form = scene.context.form_at(pointer);
    match broken_store(&scene.context, &form, &form) {
        Some(StoreCause::NoPointer(given)) => write!(
            f,
            "a Store must be through a pointer, and expressions[{}] is {}",
            pointer.index(),
            scene.types().text(&given)
        ),
        Some(StoreCause::Space(space)) => write_space(f, scene, pointer, space),
        Some(StoreCause::Value(..)) | None => write!(
            f,
            "a Store must be through a variable, an argument or a part of one"
        ),
    }
}

// Why a value can't be stored.
fn write_value<W: fmt::Write>(
    f: &mut fmt::Formatter<W>,
    scene: &Scene<'_>,
    pointer: Handle<key::Expression>,
    value: Handle<key::Expression>,
) -> fmt::Result {
    let to = scene.context.form_at(pointer);
    let of = scene.context.form_at(value);
    match broken_store(&scene.context, &to, &of) {
        Some(StoreCause::Value(given, wanted)) => write!(
            f,
            "the value must be {}, because the pointer leads to that, and it is {}",
            scene.types().text(&wanted),
            scene.types().text(&given)
        ),
        Some(_) | None => write!(f, "the value must have the type that the pointer points to"),
    }
}

// A type that need not be one of the module's.
fn write_inner<W: fmt::Write>(
    f: &mut fmt::Formatter<W>,
    scene: &Scene<'_>,
    before: &str,
    inner: &TypeInner,
) -> fmt::Result {
    let form = form_in(scene.context.types, None, inner);
    write!(f, "{before}{}", scene.types().text(&form))
}

/// Writes the requirement for an invalid store.
pub(crate) fn write_store<W: fmt::Write>(
    f: &mut fmt::Formatter<W>,
    scene: &Scene<'_>,
    error: &FunctionError,
) -> fmt::Result {
    match error {
        FunctionError::InvalidStorePointer(pointer) => write_pointer(f, scene, *pointer),
        FunctionError::InvalidStoreTypes { pointer, value } => {
            write_value(f, scene, *pointer, *value)
        }
        FunctionError::InvalidStoreTexture { actual_ty, .. } => {
            write!(f, "only storage images with STORE can be written")?;
            write_inner(f, scene, ", and this is ", actual_ty)
        }
        FunctionError::InvalidStoreValue {
            actual_ty,
            expected_ty,
            ..
        } => {
            write_inner(
                f,
                scene,
                "the value must have the texel type of the image, ",
                expected_ty,
            )?;
            write_inner(f, scene, ", and it is ", actual_ty)
        }
        _ => Ok(()),
    }
}
