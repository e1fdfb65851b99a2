//! The requirement text for an invalid expression.

use crate::kinds::write_required;
use crate::scene::Scene;
use check_cause_texts::{CauseText, ScalarText, SetText, word_of};
use ir_arena::handle::Handle;
use ir_kinds::ImageClass;
use ir_types::{Expression, TypeInner, key};
use std::fmt;
use typing_errors::{ComposeError, ConstExpressionError, ExpressionError, ResolveError};
use typing_forms::{Form, form_of_type, inner_of};
use typing_layout::{LiteralError, WidthError};

pub fn write_width<W: fmt::Write>(f: &mut fmt::Formatter<W>, error: &WidthError) -> fmt::Result {
    match error {
        WidthError::Invalid(kind, width) => {
            write!(f, "there is no {} scalar of {width} bytes", word_of(*kind))
        }
        WidthError::MissingCapability(missing) => {
            write!(f, "the document's capabilities lack {}", SetText(*missing))
        }
        WidthError::Abstract => write!(
            f,
            "abstract types cannot be used at run time: write i32, u32 or f32"
        ),
    }
}

fn write_literal<W: fmt::Write>(f: &mut fmt::Formatter<W>, error: &LiteralError) -> fmt::Result {
    match error {
        LiteralError::Width(error) => write_width(f, error),
    }
}

// ---- `Compose`

// The required type of a component, if there is only one.
fn component_type(scene: &Scene<'_>, inner: &TypeInner, index: usize) -> Option<Form> {
    match inner {
        TypeInner::Matrix { rows, scalar, .. } => Some(Form::Vector {
            size: *rows,
            scalar: *scalar,
        }),
        TypeInner::Array { base, .. } => Some(form_of_type(scene.context.types, *base)),
        TypeInner::Struct { members, .. } => {
            let member = members.get(index)?;
            Some(form_of_type(scene.context.types, member.ty))
        }
        _ => None,
    }
}

// The requirement of a component.
fn write_component<W: fmt::Write>(
    f: &mut fmt::Formatter<W>,
    scene: &Scene<'_>,
    inner: &TypeInner,
    index: usize,
) -> fmt::Result {
    if let TypeInner::Vector { scalar, .. } = inner {
        return write!(
            f,
            "component {index} must be a scalar or a vector of {}",
            ScalarText(*scalar)
        );
    }
    match component_type(scene, inner, index) {
        Some(wanted) => {
            write!(
                f,
                "component {index} must be {}",
                scene.types().text(&wanted)
            )
        }
        None => write!(
            f,
            "component {index} must have the type of that component of the composed type"
        ),
    }
}

// The requirement of a component, with its actual type.
fn write_components<W: fmt::Write>(
    f: &mut fmt::Formatter<W>,
    scene: &Scene<'_>,
    handle: Handle<key::Expression>,
    index: usize,
) -> fmt::Result {
    if let Ok(Expression::Compose { ty, components }) = scene.context.expressions.try_get(handle) {
        if let Some(inner) = inner_of(scene.context.types, *ty) {
            write_component(f, scene, inner, index)?;
            return match components.get(index) {
                Some(given) => scene.write_given(f, ", and it is ", *given),
                None => Ok(()),
            };
        }
    }
    write!(
        f,
        "component {index} must have the type of that component of the composed type"
    )
}

fn write_compose<W: fmt::Write>(
    f: &mut fmt::Formatter<W>,
    scene: &Scene<'_>,
    handle: Handle<key::Expression>,
    error: &ComposeError,
) -> fmt::Result {
    match error {
        ComposeError::Typing(ty) => write!(
            f,
            "only vectors, matrices, arrays of constant length and structs can be composed, and types[{}] is none of these",
            ty.index()
        ),
        ComposeError::ComponentCount { given, expected } => write!(
            f,
            "the composition requires {expected} components, and {given} are provided"
        ),
        ComposeError::ComponentType { index } => {
            write_components(f, scene, handle, *index as usize)
        }
    }
}

// ---- types

// The number of statically indexed parts of a value, if known.
fn count_of(scene: &Scene<'_>, form: &Form) -> Option<usize> {
    match *form {
        Form::Vector { size, .. }
        | Form::ValuePointer {
            size: Some(size),
            ..
        } => Some(u32::from(size) as usize),
        Form::Matrix { columns, .. } => Some(u32::from(columns) as usize),
        Form::Struct(handle) => count_in(inner_of(scene.context.types, handle)?),
        Form::Pointer { base, .. } => count_in(inner_of(scene.context.types, base)?),
        _ => None,
    }
}

fn count_in(inner: &TypeInner) -> Option<usize> {
    match inner {
        TypeInner::Struct { members, .. } => Some(members.len()),
        TypeInner::Matrix { columns, .. } => Some(u32::from(*columns) as usize),
        _ => None,
    }
}

fn write_outside<W: fmt::Write>(
    f: &mut fmt::Formatter<W>,
    scene: &Scene<'_>,
    expr: Handle<key::Expression>,
    index: u32,
) -> fmt::Result {
    let place = expr.index();
    match count_of(scene, &scene.context.form_at(expr)) {
        Some(count) => write!(
            f,
            "index {index} is out of bounds, because expressions[{place}] has {count} components"
        ),
        None => write!(f, "expressions[{place}] has no component {index}"),
    }
}

fn write_no_access<W: fmt::Write>(
    f: &mut fmt::Formatter<W>,
    scene: &Scene<'_>,
    expr: Handle<key::Expression>,
) -> fmt::Result {
    write!(
        f,
        "expressions[{}] cannot be indexed so: only vectors, matrices, arrays, binding arrays and pointers to them can, and structs by an AccessIndex",
        expr.index()
    )?;
    scene.write_given(f, "; it is ", expr)
}

// An operand that breaks a requirement.
fn write_no<W: fmt::Write>(
    f: &mut fmt::Formatter<W>,
    scene: &Scene<'_>,
    required: &str,
    expr: Handle<key::Expression>,
) -> fmt::Result {
    write!(f, "{required}, and expressions[{}] is ", expr.index())?;
    scene.write_given(f, "", expr)
}

fn write_typing<W: fmt::Write>(
    f: &mut fmt::Formatter<W>,
    scene: &Scene<'_>,
    handle: Handle<key::Expression>,
    error: &ResolveError,
) -> fmt::Result {
    match error {
        ResolveError::OutOfBoundsIndex { expr, index } => write_outside(f, scene, *expr, *index),
        ResolveError::InvalidAccess { expr, .. } => write_no_access(f, scene, *expr),
        ResolveError::InvalidSubAccess { ty, .. } => {
            write!(f, "types[{}] cannot be indexed", ty.index())
        }
        ResolveError::InvalidScalar(expr) => write_no(
            f,
            scene,
            "a splat must be of a scalar",
            *expr,
        ),
        ResolveError::InvalidVector(expr) => {
            write_no(f, scene, "a swizzle must be of a vector", *expr)
        }
        ResolveError::InvalidPointer(expr) => {
            write_no(
                f,
                scene,
                "a load must be from a pointer to a type that can be loaded",
                *expr,
            )
        }
        ResolveError::InvalidImage(expr) => {
            write_no(
                f,
                scene,
                "the operand must be an image that supports the operation",
                *expr,
            )
        }
        ResolveError::FunctionNotDefined { .. } => write!(f, "the function does not exist"),
        ResolveError::FunctionReturnsVoid => {
            write!(
                f,
                "a CallResult must be of a function with a result, and this one has none"
            )
        }
        ResolveError::FunctionArgumentNotFound(number) => {
            write!(f, "the function has no argument {number}")
        }
        ResolveError::MissingSpecialType => write!(
            f,
            "the document's special types must include the result type of this expression"
        ),
        ResolveError::IncompatibleOperands(_) | ResolveError::BuiltinArgumentsInvalid(_) => {
            write_rule(f, scene, handle)
        }
    }
}

// The broken rule of its kind.
fn write_rule<W: fmt::Write>(
    f: &mut fmt::Formatter<W>,
    scene: &Scene<'_>,
    handle: Handle<key::Expression>,
) -> fmt::Result {
    match scene.cause {
        Some(cause) => {
            let types = scene.context.types;
            write!(f, "{}", CauseText { types, cause })
        }
        None => write_required(f, scene, handle),
    }
}

// ---- expressions

/// Writes the requirement for an invalid expression of a function.
pub(crate) fn write_expression<W: fmt::Write>(
    f: &mut fmt::Formatter<W>,
    scene: &Scene<'_>,
    handle: Handle<key::Expression>,
    error: &ExpressionError,
) -> fmt::Result {
    match error {
        ExpressionError::NotInScope => write!(
            f,
            "an operand must be emitted, or be the result of a statement, earlier in the same block or in an enclosing one, and expressions[{}] is not there",
            handle.index()
        ),
        ExpressionError::Typing(error) => write_typing(f, scene, handle, error),
        ExpressionError::Literal(error) => write_literal(f, error),
        ExpressionError::Compose(error) => write_compose(f, scene, handle, error),
        ExpressionError::Other => write_rule(f, scene, handle),
        _ => write_image(f, scene, error),
    }
}

// The word for an image class.
const fn class_word(class: ImageClass) -> &'static str {
    match class {
        ImageClass::Sampled { .. } => "Sampled",
        ImageClass::Depth { .. } => "Depth",
        ImageClass::External => "External",
        ImageClass::Storage { .. } => "Storage",
    }
}

/// Writes the requirement of an image expression.
pub(crate) fn write_image<W: fmt::Write>(
    f: &mut fmt::Formatter<W>,
    scene: &Scene<'_>,
    error: &ExpressionError,
) -> fmt::Result {
    match error {
        ExpressionError::ExpectedGlobalOrArgument => write!(
            f,
            "a sampled image and its sampler must be global variables, arguments, or elements of a global variable"
        ),
        ExpressionError::ExpectedGlobalVariable => {
            write!(
                f,
                "the image must be a global variable or an element of one"
            )
        }
        ExpressionError::ExpectedBindingArrayType(ty) => {
            write!(f, "types[{}] is not a binding array", ty.index())
        }
        ExpressionError::ExpectedImageType(ty) => {
            write!(f, "types[{}] is not an image", ty.index())
        }
        ExpressionError::InvalidImageClass(class) => write!(
            f,
            "only storage images can be written, and this image is of class {}",
            class_word(*class)
        ),
        ExpressionError::InvalidImageFormat(format) => write!(
            f,
            "image format {} does not support the operation",
            word_of(*format)
        ),
        ExpressionError::InvalidImageStorageAccess(access) => write!(
            f,
            "the image's storage access, {}, does not allow the operation",
            SetText(*access)
        ),
        ExpressionError::InvalidImageArrayIndex => write!(
            f,
            "an array index must be present exactly when the image is arrayed"
        ),
        ExpressionError::InvalidImageArrayIndexType(index) => {
            write_no(f, scene, "an array index must be an integer scalar", *index)
        }
        ExpressionError::InvalidImageCoordinateType(dim, coordinate) => {
            write!(
                f,
                "expressions[{}] does not have the coordinate type of an image of dimension {}",
                coordinate.index(),
                word_of(*dim)
            )?;
            scene.write_given(f, "; it is ", *coordinate)
        }
        _ => write!(f, "the item breaks the rule of its kind"),
    }
}

/// Writes the requirement for an invalid global expression.
pub fn write_global_expression<W: fmt::Write>(
    f: &mut fmt::Formatter<W>,
    scene: &Scene<'_>,
    handle: Handle<key::Expression>,
    error: &ConstExpressionError,
) -> fmt::Result {
    match error {
        ConstExpressionError::NonConstOrOverride => write!(
            f,
            "a global expression must be a const-expression or an override-expression"
        ),
        ConstExpressionError::NonFullyEvaluatedConst => write!(
            f,
            "a constant must be fully evaluated: write the literal or the composition that it evaluates to"
        ),
        ConstExpressionError::Compose(error) => write_compose(f, scene, handle, error),
        ConstExpressionError::Literal(error) => write_literal(f, error),
        ConstExpressionError::Typing(error) => write_typing(f, scene, handle, error),
        ConstExpressionError::Other => write_rule(f, scene, handle),
    }
}
