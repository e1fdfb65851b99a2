//! The checks of global variables.

ghost use Rattle.std.specs.Prelude.{◌≡◌, ◌≢◌, ◌↔◌, ◌<◌, ℕ, IfSome, IsOk, IsSome, IsTrue, MatchResult, Option, Some, length};
ghost use Rattle.module_globals.specs.Contexts.{HasInfos, module_of};
ghost use Rattle.module_globals.specs.Faults.{IsArrayRefusal, counted_inner, counted_tree, IsLayoutFault, IsDecorationFault, IsBeginFault, IsWrongBy};
ghost use Rattle.module_globals.specs.Initializers.{HasFormOf, IsInitializer};
ghost use Rattle.module_globals.specs.declared.context.Initializer.{Initializer};
ghost use Rattle.module_globals.specs.declared.error.GlobalVariableError.TheVariants.{InvalidBinding, ZeroSizedTaskPayload};
ghost use Rattle.module_globals.specs.There.{IsPlaced};
ghost use Rattle.ir_flags.specs.Sets.{Has};
ghost use Rattle.ir_flags.specs.declared.settings.TheConstants.ValidationFlags.{BINDINGS, STRUCT_LAYOUTS};
ghost use Rattle.ir_items.specs.found.GlobalView.{global_view};
ghost use Rattle.spec_interface.specs.judged.Globals.{BeginsBy, DecorationsOK, VariableBy};
ghost use Rattle.spec_interface.specs.judged.Spaces.{effective_type, space_capability, LiesIn, space_row};
ghost use Rattle.spec_interface.specs.found.Variables.{ArraysOK, HasAll};
ghost use Rattle.ir_types.specs.judged.Plain.{inner_view};
ghost use Rattle.typing_forms.specs.judged.Order.{TypesGoBack};
ghost use Rattle.typing_forms.specs.judged.Resolutions.{inner_at};
ghost use Rattle.typing_forms.specs.judged.Sizes.{type_size};

use crate::context::{Initializer, VariableContext};
use crate::error::GlobalVariableError;
use crate::handles::{array_base, is_handle};
use crate::spaces::{array_capability, is_resource, is_storage, required, space_capability};
use bitflags::Flags;
use ir_arena::handle::Handle;
use ir_flags::{Capabilities, MemoryDecorations, StorageAccess, ValidationFlags};
use ir_items::GlobalVariable;
use ir_kinds::AddressSpace;
use ir_types::{TypeInner, key};
use typing_forms::laws::form_equality;
use typing_forms::{TypeInnerExt, form_of_type};
use typing_layout::LayoutCompatibility;

// The `TypeInner` of a type.
fn inner_of<'a>(context: &VariableContext<'a>, ty: Handle<key::IrType>) -> &'a TypeInner
    requires { ty < length (module_of context.now).types }
    ensures { inner_at (module_of context.now).types ty ≡ Some (inner_view result.now) }
{
    &context.module.types[ty].inner
}

// The error of a binding array of this element type in an address space.
fn no_array(
    space: AddressSpace,
    base: Handle<key::IrType>,
    inner: &TypeInner,
) -> GlobalVariableError
    ensures { IsArrayRefusal space base (Some (inner_view inner.now)) result }
{
    match space {
        AddressSpace::Handle if is_handle(inner) => GlobalVariableError::InvalidBindingArray(base),
        AddressSpace::Handle => GlobalVariableError::InvalidType(space),
        AddressSpace::Function
        | AddressSpace::Private
        | AddressSpace::WorkGroup
        | AddressSpace::Uniform
        | AddressSpace::Storage { .. }
        | AddressSpace::Immediate
        | AddressSpace::TaskPayload
        | AddressSpace::RayPayload
        | AddressSpace::IncomingRayPayload => GlobalVariableError::InvalidUsage(space),
    }
}

// The type that the rules apply to: for a binding array its element type, if the binding array is allowed.
fn check_arrays(
    context: &VariableContext<'_>,
    variable: &GlobalVariable,
) -> Result<Handle<key::IrType>, GlobalVariableError>
    requires back { TypesGoBack (module_of context.now).types }
    requires placed { IsPlaced (module_of context.now) (global_view variable.now) }
    ensures { (given : Option Initializer) (flags : ValidationFlags) → MatchResult result
        (λ ty. (ty ≡ effective_type (module_of context.now).types variable.now.ty) × ArraysOK context.now.capabilities variable.now.space (module_of context.now).types variable.now.ty)
        (IsWrongBy (HasFormOf given) flags context.now.capabilities (module_of context.now) (global_view variable.now)) }
{
    let Some(base) = array_base(inner_of(context, variable.ty)) else {
        return Ok(variable.ty);
    };
    let inner = inner_of(context, base);
    match array_capability(variable.space, inner) {
        Some(capability) if context.capabilities.contains(capability) => Ok(base),
        Some(capability) => Err(GlobalVariableError::UnsupportedCapability(capability)),
        None => Err(no_array(variable.space, base, inner)),
    }
}

// Whether the layout of a type is valid, if the address space requires one.
fn check_layout(
    flags: ValidationFlags,
    space: AddressSpace,
    layout: LayoutCompatibility,
) -> Result<(), GlobalVariableError>
    ensures { MatchResult result
        (λ _. Has flags.0 STRUCT_LAYOUTS.0 → IsOk layout)
        (IsLayoutFault flags space layout) }
{
    match layout {
        Err((ty, disalignment)) if flags.contains(ValidationFlags::STRUCT_LAYOUTS) => {
            Err(GlobalVariableError::Alignment(space, ty, disalignment))
        }
        Ok(_) | Err(_) => Ok(()),
    }
}

// Whether a task payload has a nonzero size.
fn check_bytes(inner: &TypeInner) -> Result<(), GlobalVariableError>
    ensures { MatchResult result
        (λ _. type_size (inner_view inner.now) ≢ 0)
        (λ e. (e ≡ ZeroSizedTaskPayload) × (type_size (inner_view inner.now) ≡ 0)) }
{
    if inner.size() == 0 {
        return Err(GlobalVariableError::ZeroSizedTaskPayload);
    }
    Ok(())
}

// Whether a type is allowed in an address space.
fn check_lies(
    flags: ValidationFlags,
    context: &VariableContext<'_>,
    variable: &GlobalVariable,
    ty: Handle<key::IrType>,
) -> Result<(), GlobalVariableError>
    requires known { HasInfos context.now }
    requires counts { ty ≡ effective_type (module_of context.now).types variable.now.ty }
    requires within { ty < length (module_of context.now).types }
    ensures { (given : Option Initializer) → MatchResult result
        (λ _. LiesIn flags variable.now.space (counted_inner (module_of context.now) (global_view variable.now)) (counted_tree (module_of context.now) (global_view variable.now)))
        (IsWrongBy (HasFormOf given) flags context.now.capabilities (module_of context.now) (global_view variable.now)) }
{
    let space = variable.space;
    let inner = inner_of(context, ty);
    let info = &context.infos[ty.index()];
    match space {
        AddressSpace::Function => Err(GlobalVariableError::InvalidUsage(space)),
        AddressSpace::Storage { access } => {
            if access == StorageAccess::STORE {
                return Err(GlobalVariableError::StorageAddressSpaceWriteOnlyNotSupported);
            }
            check_layout(flags, space, info.storage_layout)
        }
        AddressSpace::Uniform => check_layout(flags, space, info.uniform_layout),
        AddressSpace::Handle if is_handle(inner) => Ok(()),
        AddressSpace::Handle => Err(GlobalVariableError::InvalidType(space)),
        AddressSpace::Immediate => match info.immediates_compatibility {
            Ok(()) => Ok(()),
            Err(error) => Err(GlobalVariableError::InvalidImmediateType(error)),
        },
        AddressSpace::TaskPayload => check_bytes(inner),
        AddressSpace::Private
        | AddressSpace::WorkGroup
        | AddressSpace::RayPayload
        | AddressSpace::IncomingRayPayload => Ok(()),
    }
}

// Whether the required capability is enabled, and the type has the flags that the address space requires.
fn check_needs(
    context: &VariableContext<'_>,
    variable: &GlobalVariable,
    ty: Handle<key::IrType>,
) -> Result<(), GlobalVariableError>
    requires known { HasInfos context.now }
    requires counts { ty ≡ effective_type (module_of context.now).types variable.now.ty }
    requires within { ty < length (module_of context.now).types }
    ensures { (given : Option Initializer) (flags : ValidationFlags) → MatchResult result
        (λ _. IfSome (space_capability variable.now.space (counted_inner (module_of context.now) (global_view variable.now))) (λ c. Has context.now.capabilities.0 c.0)
        × HasAll (space_row variable.now.space).flags (counted_tree (module_of context.now) (global_view variable.now)))
        (IsWrongBy (HasFormOf given) flags context.now.capabilities (module_of context.now) (global_view variable.now)) }
{
    let inner = inner_of(context, ty);
    if let Some(capability) = space_capability(variable.space, inner) {
        if !context.capabilities.contains(capability) {
            return Err(GlobalVariableError::UnsupportedCapability(capability));
        }
    }
    let seen = context.infos[ty.index()].flags;
    let required = required(variable.space);
    if seen.contains(required) {
        Ok(())
    } else {
        Err(GlobalVariableError::MissingTypeFlags { required, seen })
    }
}

// Whether a variable has a binding exactly if its address space requires one.
fn check_binding(
    flags: ValidationFlags,
    variable: &GlobalVariable,
) -> Result<(), GlobalVariableError>
    ensures { MatchResult result
        (λ _. Has flags.0 BINDINGS.0 → IsTrue (space_row variable.now.space).bound ↔ IsSome (global_view variable.now).binding)
        (λ e. (e ≡ InvalidBinding) × Has flags.0 BINDINGS.0 × ¬ (IsTrue (space_row variable.now.space).bound ↔ IsSome (global_view variable.now).binding)) }
{
    if flags.contains(ValidationFlags::BINDINGS)
        && is_resource(variable.space) != variable.binding.is_some()
    {
        return Err(GlobalVariableError::InvalidBinding);
    }
    Ok(())
}

// Whether the memory decorations of a variable are allowed.
fn check_decorations(
    capabilities: Capabilities,
    space: AddressSpace,
    decorations: MemoryDecorations,
) -> Result<(), GlobalVariableError>
    ensures { MatchResult result
        (λ _. DecorationsOK capabilities space decorations)
        (IsDecorationFault capabilities space decorations) }
{
    if decorations != MemoryDecorations(0) && !is_storage(space) {
        return Err(GlobalVariableError::InvalidMemoryDecorationsAddressSpace);
    }
    if decorations.contains(MemoryDecorations::COHERENT)
        && !capabilities.contains(Capabilities::MEMORY_DECORATION_COHERENT)
    {
        return Err(GlobalVariableError::CoherentNotSupported);
    }
    if decorations.contains(MemoryDecorations::VOLATILE)
        && !capabilities.contains(Capabilities::MEMORY_DECORATION_VOLATILE)
    {
        return Err(GlobalVariableError::VolatileNotSupported);
    }
    Ok(())
}

// Whether a variable may have its initializer.
fn check_begin(
    context: &VariableContext<'_>,
    space: AddressSpace,
    ty: Handle<key::IrType>,
    initializer: Initializer,
) -> Result<(), GlobalVariableError>
    requires within { ty < length (module_of context.now).types }
    ensures { (init : ℕ) → IsInitializer (module_of context.now) (Some init) (Some initializer) → MatchResult result
        (λ _. BeginsBy (HasFormOf (Some initializer)) (module_of context.now) space ty init)
        (IsBeginFault (HasFormOf (Some initializer)) (module_of context.now) space ty init) }
{
    if space != AddressSpace::Private {
        return Err(GlobalVariableError::InitializerNotAllowed(space));
    }
    if !initializer.is_known {
        return Err(GlobalVariableError::InitializerExprType);
    }
    if !form_equality(initializer.form, form_of_type(&context.module.types, ty)) {
        return Err(GlobalVariableError::InitializerType);
    }
    Ok(())
}

/// Whether a global variable is valid, given the kind and form of its initializer (naga's `validate_global_var`, over any
/// typing of global expressions).
///
/// Requires that the variable's type and its initializer are in the module, and that types reference only earlier types, as in a
/// module with valid handles; that the `TypeInfo`s are those of the module's types; and that there is an `initializer` if
/// the variable has one.
///
/// # Errors
///
/// An error of the variable, returned only if its condition holds. If several hold, it is one of them.
pub fn validate_variable(
    flags: ValidationFlags,
    context: &VariableContext<'_>,
    variable: &GlobalVariable,
    initializer: Option<Initializer>,
) -> Result<(), GlobalVariableError>
    requires known { HasInfos context.now }
    requires back { TypesGoBack (module_of context.now).types }
    requires placed { IsPlaced (module_of context.now) (global_view variable.now) }
    requires initialized { IsInitializer (module_of context.now) variable.now.init initializer }
    ensures { MatchResult result
        (λ _. VariableBy (HasFormOf initializer) flags context.now.capabilities (module_of context.now) (global_view variable.now))
        (IsWrongBy (HasFormOf initializer) flags context.now.capabilities (module_of context.now) (global_view variable.now)) }
{
    let ty = match check_arrays(context, variable) {
        Ok(ty) => ty,
        Err(error) => return Err(error),
    };
    match check_lies(flags, context, variable, ty) {
        Ok(()) => {}
        Err(error) => return Err(error),
    }
    match check_needs(context, variable, ty) {
        Ok(()) => {}
        Err(error) => return Err(error),
    }
    match check_binding(flags, variable) {
        Ok(()) => {}
        Err(error) => return Err(error),
    }
    let decorations = variable.memory_decorations;
    match check_decorations(context.capabilities, variable.space, decorations) {
        Ok(()) => {}
        Err(error) => return Err(error),
    }
    match initializer {
        Some(initializer) => check_begin(context, variable.space, variable.ty, initializer),
        None => Ok(()),
    }
}
