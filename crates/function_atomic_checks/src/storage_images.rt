//! Stores to images, and atomic operations on texels.

ghost use Rattle.std.specs.Prelude.{◌≡◌, ◌↔◌, IsTrue, MatchResult, MatchOption, IfOk, Some, option_and_then, option_map};
ghost use Rattle.ir_kinds.specs.declared.images.StorageFormat.TheVariants.{R32Sint, R32Uint, R64Uint};
ghost use Rattle.ir_types.specs.judged.Plain.{inner_view, plain};
ghost use Rattle.ir_types.specs.declared.types.TypeInner.TheVariants.{Image, ValuePointer};
ghost use Rattle.function_atomic_checks.specs.StorageImages.{IsElementFault, IsWrittenImageFault, IsChangedImageFault, IsTexelFault, format_of, IsPlaceFault, IsMisfit, matrix_inner, inner_of_form, IsValueFault, IsImageStoreRefusal, IsFormatFault, IsStorageFault, IsChangeFault, IsImageAtomicFault};
ghost use Rattle.spec_statements.specs.judged.ImageLoads.{IsTexelCoordinate};
ghost use Rattle.spec_statements.specs.judged.Shapes.{image_type_of};
ghost use Rattle.spec_statements.specs.judged.BlockContext.{form_at};
ghost use Rattle.spec_statements.specs.judged.StorageImages.{resource_of, written_image, image_type_in, changed_image, IsTexelOf, ImageStoreOK, IsDoneAtTexels, FormatAllows, IsChangedBy, IsChanged, ImageAtomicOK};
ghost use Rattle.typing_forms.specs.judged.Forms.{form_of_type};
ghost use Rattle.typing_forms.specs.judged.Resolutions.{inner_at};

use crate::atomics::is_extremum;
use bitflags::Flags;
use function_statement_checks::{StatementContext, accessed_at, named_at, variable_at};
use ir_arena::handle::Handle;
use ir_blocks::AtomicFunction;
use ir_flags::{Capabilities, StorageAccess};
use ir_kinds::{AddressSpace, ImageClass, ImageDimension, Scalar, StorageFormat, VectorSize};
use ir_types::refusal::Refusal;
use ir_types::with_span::WithSpan;
use ir_types::{TypeInner, key};
use module_context::{are_same, image_type_of, is_integer_scalar};
use module_expressions::is_texel;
use spec_statements::ImageType;
use std::alloc::{AllocError, Global};
use typing_errors::{ExpressionError, FunctionError};
use typing_forms::Form;

// ---- the image

// The resource type of a binding array.
const fn resource_of(of: Form) -> Option<Handle<key::IrType>>
    ensures { result ≡ resource_of of }
{
    match of {
        Form::BindingArray { base, .. } => Some(base),
        Form::Scalar(_)
        | Form::Vector { .. }
        | Form::Matrix { .. }
        | Form::CooperativeMatrix { .. }
        | Form::Atomic(_)
        | Form::Pointer { .. }
        | Form::ValuePointer { .. }
        | Form::Array { .. }
        | Form::Struct(_)
        | Form::Image { .. }
        | Form::Sampler { .. }
        | Form::AccelerationStructure { .. }
        | Form::RayQuery { .. }
        | Form::Nothing => None,
    }
}

// The image type of the elements of an array type.
fn written_element<C: StatementContext>(
    context: &C,
    ty: Handle<key::IrType>,
) -> Result<ImageType, ExpressionError>
    ensures { MatchResult result
        (λ image_type. option_and_then (λ r. image_type_of (form_of_type (C.seen context.now).m.types r)) (resource_of (form_of_type (C.seen context.now).m.types ty)) ≡ Some image_type)
        (IsElementFault (C.seen context.now).m.types ty) }
{
    match resource_of(context.form_of(ty)) {
        None => Err(ExpressionError::ExpectedBindingArrayType(ty)),
        Some(resource) => match image_type_of(context.form_of(resource)) {
            Some(image_type) => Ok(image_type),
            None => Err(ExpressionError::ExpectedImageType(ty)),
        },
    }
}

// The image of a store: a global variable, or an element of a binding array of images.
fn written_image<C: StatementContext>(
    context: &C,
    image: Handle<key::Expression>,
) -> Result<ImageType, ExpressionError>
    ensures { MatchResult result
        (λ image_type. written_image (C.seen context.now).m (C.seen context.now).f image ≡ Some image_type)
        (IsWrittenImageFault (C.seen context.now) image) }
{
    match variable_at(context, image) {
        Some(variable) => match image_type_of(context.form_of(variable.ty)) {
            Some(image_type) => Ok(image_type),
            None => Err(ExpressionError::ExpectedImageType(variable.ty)),
        },
        None => match accessed_at(context, image) {
            Some(variable) => match written_element(context, variable.ty) {
                Ok(image_type) => Ok(image_type),
                Err(error) => Err(error),
            },
            None => Err(ExpressionError::ExpectedGlobalVariable),
        },
    }
}

// The image of a type, or of a binding array of images.
fn image_type_in<C: StatementContext>(context: &C, ty: Handle<key::IrType>) -> Option<ImageType>
    ensures { result ≡ image_type_in (C.seen context.now).m.types (form_of_type (C.seen context.now).m.types ty) (resource_of (form_of_type (C.seen context.now).m.types ty)) }
{
    match resource_of(context.form_of(ty)) {
        Some(resource) => image_type_of(context.form_of(resource)),
        None => image_type_of(context.form_of(ty)),
    }
}

// The image of an atomic operation on texels.
fn changed_image<C: StatementContext>(
    context: &C,
    image: Handle<key::Expression>,
) -> Result<ImageType, ExpressionError>
    ensures { MatchResult result
        (λ image_type. changed_image (C.seen context.now).m (C.seen context.now).f image ≡ Some image_type)
        (IsChangedImageFault (C.seen context.now) image) }
{
    match named_at(context, image) {
        Some(variable) => match image_type_in(context, variable.ty) {
            Some(image_type) => Ok(image_type),
            None => Err(ExpressionError::ExpectedImageType(variable.ty)),
        },
        None => Err(ExpressionError::ExpectedGlobalVariable),
    }
}

// ---- the texel

// Whether a coordinate has an array index exactly if the image is arrayed.
fn check_layer<C: StatementContext>(
    context: &C,
    image_type: &ImageType,
    coordinate: Handle<key::Expression>,
    array_index: &Option<Handle<key::Expression>>,
) -> Result<(), ExpressionError>
    requires { IsTexelCoordinate image_type.now.dim (form_at (C.seen context.now) coordinate) }
    ensures { MatchResult result
        (λ _. IsTexelOf (C.seen context.now) image_type.now coordinate array_index.now)
        (IsTexelFault (C.seen context.now) image_type.now coordinate array_index.now) }
{
    match *array_index {
        Some(layer) => {
            if !image_type.arrayed {
                return Err(ExpressionError::InvalidImageArrayIndex);
            }
            if !is_integer_scalar(context.form_at(layer)) {
                return Err(ExpressionError::InvalidImageArrayIndexType(layer));
            }
            Ok(())
        }
        None => {
            if image_type.arrayed {
                return Err(ExpressionError::InvalidImageArrayIndex);
            }
            Ok(())
        }
    }
}

// Whether a coordinate fits an image.
fn check_texel<C: StatementContext>(
    context: &C,
    image_type: &ImageType,
    coordinate: Handle<key::Expression>,
    array_index: &Option<Handle<key::Expression>>,
) -> Result<(), ExpressionError>
    ensures { MatchResult result
        (λ _. IsTexelOf (C.seen context.now) image_type.now coordinate array_index.now)
        (IsTexelFault (C.seen context.now) image_type.now coordinate array_index.now) }
{
    let place = context.form_at(coordinate);
    if !is_texel(image_type.dim, &place) {
        return Err(ExpressionError::InvalidImageCoordinateType(image_type.dim, coordinate));
    }
    check_layer(context, image_type, coordinate, array_index)
}

// ---- the stored value

// The format of a storage image.
const fn format_of(class: ImageClass) -> Option<StorageFormat>
    ensures { result ≡ format_of class }
{
    match class {
        ImageClass::Storage { format, .. } => Some(format),
        ImageClass::Sampled { .. } | ImageClass::Depth { .. } | ImageClass::External => None,
    }
}

// Whether the coordinate of a store fits the image. Returns the image's format if the value does not fit it.
#[tactic(auto, using(crate::proofs::Formats::texel_written))]
fn check_written<C: StatementContext>(
    context: &C,
    image: Handle<key::Expression>,
    coordinate: Handle<key::Expression>,
    array_index: &Option<Handle<key::Expression>>,
    value: Handle<key::Expression>,
) -> Result<Option<StorageFormat>, ExpressionError>
    ensures { MatchResult result
        (λ other. MatchOption other (ImageStoreOK (C.seen context.now) image coordinate array_index.now value) (IsMisfit (C.seen context.now) image value))
        (IsPlaceFault (C.seen context.now) image coordinate array_index.now) }
{
    match written_image(context, image) {
        Err(error) => Err(error),
        Ok(image_type) => match format_of(image_type.class) {
            None => Err(ExpressionError::InvalidImageClass(image_type.class)),
            Some(format) => match check_texel(context, &image_type, coordinate, array_index) {
                Err(error) => Err(error),
                Ok(()) => {
                    let texel = Form::Vector {
                        size: VectorSize::Quad,
                        scalar: Scalar::from(format),
                    };
                    if are_same(context.form_at(value), texel) {
                        Ok(None)
                    } else {
                        Ok(Some(format))
                    }
                }
            },
        },
    }
}

// ---- the types of values in errors

// The `TypeInner` of a matrix.
const fn matrix_inner(of: &Form) -> Option<TypeInner>
    ensures { option_map inner_view result ≡ matrix_inner of.now }
{
    match *of {
        Form::Matrix {
            columns,
            rows,
            scalar,
        } => Some(TypeInner::Matrix {
            columns,
            rows,
            scalar,
        }),
        Form::CooperativeMatrix {
            columns,
            rows,
            scalar,
            role,
        } => Some(TypeInner::CooperativeMatrix {
            columns,
            rows,
            scalar,
            role,
        }),
        Form::Scalar(_)
        | Form::Vector { .. }
        | Form::Atomic(_)
        | Form::Pointer { .. }
        | Form::ValuePointer { .. }
        | Form::Array { .. }
        | Form::Struct(_)
        | Form::Image { .. }
        | Form::Sampler { .. }
        | Form::AccelerationStructure { .. }
        | Form::RayQuery { .. }
        | Form::BindingArray { .. }
        | Form::Nothing => None,
    }
}

// The `TypeInner` of a pointer to a scalar or a vector.
const fn value_pointer_inner(
    size: Option<VectorSize>,
    scalar: Scalar,
    space: AddressSpace,
) -> TypeInner
    ensures { inner_view result ≡ plain (ValuePointer size scalar space) }
{
    TypeInner::ValuePointer {
        size,
        scalar,
        space,
    }
}

// The `TypeInner` of an image.
const fn image_inner(dim: ImageDimension, arrayed: bool, class: ImageClass) -> TypeInner
    ensures { inner_view result ≡ plain (Image dim arrayed class) }
{
    TypeInner::Image {
        dim,
        arrayed,
        class,
    }
}

// A copy of the `TypeInner` of the type at a handle.
fn copied_inner<C: StatementContext>(
    alloc: Global,
    context: &C,
    ty: Handle<key::IrType>,
) -> Result<Option<TypeInner>, AllocError>
    ensures { IfOk result (λ found. option_map inner_view found ≡ inner_at (C.seen context.now).m.types ty) }
{
    match context.inner_of(ty) {
        Some(inner) => match inner.clone(alloc) {
            Ok(copy) => Ok(Some(copy)),
            Err(error) => Err(error),
        },
        None => Ok(None),
    }
}

// The `TypeInner` of a form, owned, if it is a type.
fn inner_of_form<C: StatementContext>(
    alloc: Global,
    context: &C,
    of: &Form,
) -> Result<Option<TypeInner>, AllocError>
    ensures { IfOk result (λ found. option_map inner_view found ≡ inner_of_form (C.seen context.now).m.types of.now) }
{
    match *of {
        Form::Struct(handle) => copied_inner(alloc, context, handle),
        Form::Scalar(scalar) => Ok(Some(TypeInner::Scalar(scalar))),
        Form::Vector { size, scalar } => Ok(Some(TypeInner::Vector { size, scalar })),
        Form::Atomic(scalar) => Ok(Some(TypeInner::Atomic(scalar))),
        Form::Pointer { base, space } => Ok(Some(TypeInner::Pointer { base, space })),
        Form::Array { base, size, stride } => Ok(Some(TypeInner::Array { base, size, stride })),
        Form::Sampler { comparison } => Ok(Some(TypeInner::Sampler { comparison })),
        Form::AccelerationStructure { vertex_return } => Ok(Some(TypeInner::AccelerationStructure {
            vertex_return,
        })),
        Form::RayQuery { vertex_return } => Ok(Some(TypeInner::RayQuery { vertex_return })),
        Form::BindingArray { base, size } => Ok(Some(TypeInner::BindingArray { base, size })),
        Form::ValuePointer {
            size,
            scalar,
            space,
        } => Ok(Some(value_pointer_inner(size, scalar, space))),
        Form::Image {
            dim,
            arrayed,
            class,
        } => Ok(Some(image_inner(dim, arrayed, class))),
        Form::Matrix { .. } | Form::CooperativeMatrix { .. } => Ok(matrix_inner(of)),
        Form::Nothing => Ok(None),
    }
}

// The error of a value that does not fit a format.
fn value_error<C: StatementContext>(
    alloc: Global,
    context: &C,
    value: Handle<key::Expression>,
    format: StorageFormat,
) -> Result<FunctionError, AllocError>
    ensures { IfOk result (IsValueFault (C.seen context.now) value format) }
{
    let of = context.form_at(value);
    match inner_of_form(alloc, context, &of) {
        Ok(Some(actual_ty)) => Ok(FunctionError::InvalidStoreValue {
            actual: value,
            actual_ty,
            expected_ty: TypeInner::Vector {
                size: VectorSize::Quad,
                scalar: Scalar::from(format),
            },
        }),
        Ok(None) => Ok(FunctionError::InvalidImageStore(ExpressionError::Other)),
        Err(error) => Err(error),
    }
}

/// Whether a texel can be stored: in a storage image that is a global variable or an element of a binding array of images, at a
/// texel that it has, with a value of the image's format.
///
/// # Errors
///
/// [`FunctionError::InvalidImageStore`] for an image that can't be stored to in this way: not a global variable, not a binding
/// array, not an image, another class, or no such texel. [`FunctionError::InvalidStoreValue`] for a value of another type than
/// the format's; a value without a type is refused with [`ExpressionError::Other`]. [`Refusal::Memory`] if there is no memory
/// for the type of the value.
#[tactic(auto, using(crate::proofs::Refusals::refused_by))]
pub fn check_image_store<C: StatementContext>(
    alloc: Global,
    context: &C,
    image: Handle<key::Expression>,
    coordinate: Handle<key::Expression>,
    array_index: Option<Handle<key::Expression>>,
    value: Handle<key::Expression>,
) -> Result<(), Refusal<FunctionError>>
    ensures { MatchResult result
        (λ _. ImageStoreOK (C.seen context.now) image coordinate array_index value)
        (IsImageStoreRefusal (C.seen context.now) image coordinate array_index value) }
{
    match check_written(context, image, coordinate, &array_index, value) {
        Ok(None) => Ok(()),
        Ok(Some(format)) => match value_error(alloc, context, value, format) {
            Ok(error) => Err(Refusal::Fault(WithSpan::new(alloc, error))),
            Err(error) => Err(Refusal::Memory(error)),
        },
        Err(error) => Err(Refusal::Fault(WithSpan::new(
            alloc,
            FunctionError::InvalidImageStore(error),
        ))),
    }
}

// ---- atomic operations on texels

// Whether the operation is allowed on texels.
const fn is_done_at_texels(fun: &AtomicFunction) -> bool
    ensures { IsTrue result ↔ IsDoneAtTexels fun.now }
{
    match *fun {
        AtomicFunction::Add
        | AtomicFunction::And
        | AtomicFunction::ExclusiveOr
        | AtomicFunction::InclusiveOr
        | AtomicFunction::Min
        | AtomicFunction::Max => true,
        AtomicFunction::Subtract | AtomicFunction::Exchange { .. } => false,
    }
}

// Whether this operation is allowed on 64-bit texels.
#[tactic(auto, using(crate::proofs::Formats::wide_allowed))]
fn check_wide(capabilities: Capabilities, fun: &AtomicFunction) -> Result<(), FunctionError>
    ensures { MatchResult result (λ _. FormatAllows capabilities fun.now R64Uint) (IsFormatFault capabilities fun.now R64Uint) }
{
    if !capabilities.contains(Capabilities::TEXTURE_INT64_ATOMIC) {
        return Err(FunctionError::MissingCapability(Capabilities::TEXTURE_INT64_ATOMIC));
    }
    if !is_extremum(fun) {
        return Err(FunctionError::InvalidImageAtomicFunction(*fun));
    }
    Ok(())
}

// Whether this operation is allowed on 32-bit texels.
#[tactic(auto, using(crate::proofs::Formats::unsigned_allowed, crate::proofs::Formats::signed_allowed))]
fn check_narrow(capabilities: Capabilities, fun: &AtomicFunction) -> Result<(), FunctionError>
    ensures unsigned { MatchResult result (λ _. FormatAllows capabilities fun.now R32Uint) (IsFormatFault capabilities fun.now R32Uint) }
    ensures signed { MatchResult result (λ _. FormatAllows capabilities fun.now R32Sint) (IsFormatFault capabilities fun.now R32Sint) }
{
    if !capabilities.contains(Capabilities::TEXTURE_ATOMIC) {
        return Err(FunctionError::MissingCapability(Capabilities::TEXTURE_ATOMIC));
    }
    if !is_done_at_texels(fun) {
        return Err(FunctionError::InvalidImageAtomicFunction(*fun));
    }
    Ok(())
}

// Whether this operation is allowed on texels of a format.
fn check_format(
    capabilities: Capabilities,
    format: StorageFormat,
    fun: &AtomicFunction,
) -> Result<(), FunctionError>
    ensures { MatchResult result
        (λ _. FormatAllows capabilities fun.now format)
        (IsFormatFault capabilities fun.now format) }
{
    match format {
        StorageFormat::R64Uint => check_wide(capabilities, fun),
        StorageFormat::R32Uint | StorageFormat::R32Sint => check_narrow(capabilities, fun),
        StorageFormat::R8Unorm
        | StorageFormat::R8Snorm
        | StorageFormat::R8Uint
        | StorageFormat::R8Sint
        | StorageFormat::R16Uint
        | StorageFormat::R16Sint
        | StorageFormat::R16Float
        | StorageFormat::Rg8Unorm
        | StorageFormat::Rg8Snorm
        | StorageFormat::Rg8Uint
        | StorageFormat::Rg8Sint
        | StorageFormat::R32Float
        | StorageFormat::Rg16Uint
        | StorageFormat::Rg16Sint
        | StorageFormat::Rg16Float
        | StorageFormat::Rgba8Unorm
        | StorageFormat::Rgba8Snorm
        | StorageFormat::Rgba8Uint
        | StorageFormat::Rgba8Sint
        | StorageFormat::Bgra8Unorm
        | StorageFormat::Rgb10a2Uint
        | StorageFormat::Rgb10a2Unorm
        | StorageFormat::Rg11b10Ufloat
        | StorageFormat::Rg32Uint
        | StorageFormat::Rg32Sint
        | StorageFormat::Rg32Float
        | StorageFormat::Rgba16Uint
        | StorageFormat::Rgba16Sint
        | StorageFormat::Rgba16Float
        | StorageFormat::Rgba32Uint
        | StorageFormat::Rgba32Sint
        | StorageFormat::Rgba32Float
        | StorageFormat::R16Unorm
        | StorageFormat::R16Snorm
        | StorageFormat::Rg16Unorm
        | StorageFormat::Rg16Snorm
        | StorageFormat::Rgba16Unorm
        | StorageFormat::Rgba16Snorm => {
            Err(FunctionError::InvalidImageAtomic(ExpressionError::InvalidImageFormat(format)))
        }
    }
}

// Whether this operation with a value is allowed on a storage image.
fn check_storage<C: StatementContext>(
    context: &C,
    format: StorageFormat,
    access: StorageAccess,
    fun: &AtomicFunction,
    value: Handle<key::Expression>,
) -> Result<(), FunctionError>
    ensures { MatchResult result
        (λ _. IsChangedBy (C.seen context.now).capabilities format access fun.now (form_at (C.seen context.now) value))
        (IsStorageFault (C.seen context.now) format access fun.now value) }
{
    if !access.contains(StorageAccess::ATOMIC) {
        return Err(FunctionError::InvalidImageAtomic(ExpressionError::InvalidImageStorageAccess(
            access,
        )));
    }
    match check_format(context.capabilities(), format, fun) {
        Err(error) => Err(error),
        Ok(()) => {
            if are_same(context.form_at(value), Form::Scalar(Scalar::from(format))) {
                Ok(())
            } else {
                Err(FunctionError::InvalidImageAtomicValue(value))
            }
        }
    }
}

// Whether this operation with a value is allowed on an image of a class.
fn check_changed<C: StatementContext>(
    context: &C,
    class: ImageClass,
    fun: &AtomicFunction,
    value: Handle<key::Expression>,
) -> Result<(), FunctionError>
    ensures { MatchResult result
        (λ _. IsChanged (C.seen context.now).capabilities class fun.now (form_at (C.seen context.now) value))
        (IsChangeFault (C.seen context.now) class fun.now value) }
{
    match class {
        ImageClass::Storage { format, access } => {
            check_storage(context, format, access, fun, value)
        }
        ImageClass::Sampled { .. } | ImageClass::Depth { .. } | ImageClass::External => {
            Err(FunctionError::InvalidImageAtomic(ExpressionError::InvalidImageClass(class)))
        }
    }
}

/// Whether an atomic operation on a texel is valid: on a storage image with access `ATOMIC` that is a global variable or an
/// element of one, at a texel that it has, with an operation that its format allows, and a value of the format's scalar.
///
/// # Errors
///
/// [`FunctionError::InvalidImageAtomic`] for an image without such atomic operations: not a global variable, not an image, no
/// such texel, or another class, format or access. [`FunctionError::MissingCapability`],
/// [`FunctionError::InvalidImageAtomicFunction`] or [`FunctionError::InvalidImageAtomicValue`] if the format does not allow it.
pub fn check_image_atomic<C: StatementContext>(
    context: &C,
    image: Handle<key::Expression>,
    coordinate: Handle<key::Expression>,
    array_index: Option<Handle<key::Expression>>,
    fun: AtomicFunction,
    value: Handle<key::Expression>,
) -> Result<(), FunctionError>
    ensures { MatchResult result
        (λ _. ImageAtomicOK (C.seen context.now) image coordinate array_index fun value)
        (IsImageAtomicFault (C.seen context.now) image coordinate array_index fun value) }
{
    match changed_image(context, image) {
        Err(error) => Err(FunctionError::InvalidImageAtomic(error)),
        Ok(image_type) => match check_texel(context, &image_type, coordinate, &array_index) {
            Err(error) => Err(FunctionError::InvalidImageAtomic(error)),
            Ok(()) => match check_changed(context, image_type.class, &fun, value) {
                Ok(()) => Ok(()),
                Err(error) => Err(error),
            },
        },
    }
}
