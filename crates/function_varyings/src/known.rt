//! Types with valid varyings, found once for all entry points of a module.

ghost use Rattle.std.specs.Prelude.{◌≡◌, ◌↔◌, ◌≤◌, IfOk, IfSome, IsTrue, List, MatchResult, None, OnOk, Some, [], map};
ghost use Rattle.ir_flags.specs.declared.settings.Capabilities.{Capabilities};
ghost use Rattle.ir_flags.specs.declared.settings.ValidationFlags.{ValidationFlags};
ghost use Rattle.ir_items.specs.found.View.{argument_view};
ghost use Rattle.ir_types.specs.judged.Plain.{PlainType};
ghost use Rattle.spec_interface.specs.judged.Varyings.{VaryingsOK, argument_varyings, varyings_of};
ghost use Rattle.function_varying_checks.specs.Faults.{IsRefusal};
ghost use Rattle.function_varying_checks.specs.View.{IsReported, context_view};
ghost use Rattle.function_varyings.specs.Known.{AreKnown, AreKnownOf, AreNotedIn, IsNewlyGiven, IsNoted, IsShownBy, IsWayOf, digit, direction_number, number_of, stage_number};
ghost use Rattle.function_varyings.specs.Marks.{KeepsBits, KeepsNumbers};

use crate::marks::Marks;
use crate::shown::{has_blend_sources, has_built_in};
use crate::validate::{validate_arguments, validate_value};
use function_varying_checks::{VaryingContext, VaryingRefusal, are_rows, is_ahead};
use ir_arena::handle::Handle;
use ir_items::FunctionArgument;
use ir_kinds::{Binding, BuiltIn, ShaderStage};
use ir_types::key;
use spec_interface::{Direction, Varying};
use std::alloc::{AllocError, Global};
use std::collections::BTreeSet;

/// Facts about varyings.
#[derive(Clone, Copy)]
pub struct Shown {
    /// One is a position.
    pub positioned: bool,
    /// Two are blend sources.
    pub blended: bool,
}

impl Shown {
    /// The facts without varyings.
    pub const fn nothing() -> Shown
        ensures { IsShownBy [] result }
    {
        Shown {
            positioned: false,
            blended: false,
        }
    }
}

// The direction and stage of varyings, and the additional conditions of built-ins.
#[derive(Clone, Copy)]
pub(crate) struct Way {
    stage: ShaderStage,
    direction: Direction,
    // A mesh shader has no task payload.
    ahead: bool,
    // The workgroup is one-dimensional.
    rows: bool,
}

/// Types with valid varyings in some direction and stage, and their marks. It grows by a number for each type, direction and
/// stage, and by the marks of a type that was one of several arguments.
#[derive(Drop)]
pub struct KnownTypes {
    seen: BTreeSet<(u32, u32)>,
    marks: Marks,
}

// The number of a stage.
const fn stage_number(stage: ShaderStage) -> u32
    ensures value { result ≡ stage_number stage }
    ensures small { result ≤ 8 }
{
    match stage {
        ShaderStage::Vertex => 0,
        ShaderStage::Fragment => 1,
        ShaderStage::Compute => 2,
        ShaderStage::Mesh => 3,
        ShaderStage::Task => 4,
        ShaderStage::RayGeneration => 5,
        ShaderStage::AnyHit => 6,
        ShaderStage::ClosestHit => 7,
        ShaderStage::Miss => 8,
    }
}

// The number of a direction.
const fn direction_number(direction: Direction) -> u32
    ensures value { result ≡ direction_number direction }
    ensures small { result ≤ 3 }
{
    match direction {
        Direction::Input => 0,
        Direction::Output => 1,
        Direction::VertexOutput => 2,
        Direction::PrimitiveOutput => 3,
    }
}

// 0 or 1.
const fn digit(bit: bool) -> u32
    ensures value { result ≡ digit bit }
    ensures small { result ≤ 1 }
{
    if bit { 1 } else { 0 }
}

// The number of a direction, a stage and facts.
const fn number_of(way: Way, shown: Shown) -> u32
    ensures { result ≡ number_of way shown }
{
    let way_number = direction_number(way.direction) + 4 * stage_number(way.stage);
    let own = digit(way.rows) + 2 * (digit(way.ahead) + 2 * way_number);
    digit(shown.blended) + 2 * (digit(shown.positioned) + 2 * own)
}

// The direction and stage of varyings.
fn way_of(context: &VaryingContext<'_>) -> Way
    ensures { IsWayOf (context_view context.now) result }
{
    Way {
        stage: context.stage,
        direction: context.direction,
        ahead: is_ahead(context),
        rows: are_rows(context.workgroup_size),
    }
}

// Facts about varyings.
fn shown_by(varyings: &[Varying]) -> Shown
    ensures { IsShownBy varyings.now result }
{
    Shown {
        positioned: has_built_in(varyings, BuiltIn::Position { invariant: false }),
        blended: has_blend_sources(varyings),
    }
}

// These, if they are noted for a type in this direction and stage.
fn noted(
    seen: &BTreeSet<(u32, u32)>,
    ty: Handle<key::IrType>,
    way: Way,
    shown: Shown,
) -> Option<Shown>
    ensures { IfSome result (IsNoted seen.now ty way) }
{
    if seen.contains(&(ty.index() as u32, number_of(way, shown))) {
        Some(shown)
    } else {
        None
    }
}

// The facts noted for a type in this direction and stage, if there are any.
fn found_else(seen: &BTreeSet<(u32, u32)>, ty: Handle<key::IrType>, way: Way) -> Option<Shown>
    ensures { IfSome result (IsNoted seen.now ty way) }
{
    let position = Shown {
        positioned: true,
        blended: false,
    };
    let blend = Shown {
        positioned: false,
        blended: true,
    };
    match noted(seen, ty, way, position) {
        Some(shown) => Some(shown),
        None => noted(seen, ty, way, blend),
    }
}

// The facts noted for a type in this direction and stage.
fn found(seen: &BTreeSet<(u32, u32)>, ty: Handle<key::IrType>, way: Way) -> Option<Shown>
    ensures { IfSome result (IsNoted seen.now ty way) }
{
    match noted(seen, ty, way, Shown::nothing()) {
        Some(shown) => Some(shown),
        None => found_else(seen, ty, way),
    }
}

// Notes these facts for a type in this direction and stage. The error is out of memory.
fn note(
    seen: &mut BTreeSet<(u32, u32)>,
    context: &VaryingContext<'_>,
    ty: Handle<key::IrType>,
    varyings: &[Varying],
) -> Result<Shown, AllocError>
    requires known { AreNotedIn (context_view context.now) seen.old }
    requires these { varyings.now ≡ varyings_of (context_view context.now).types 0 ty None }
    requires fine { VaryingsOK (context_view context.now) varyings.now }
    ensures shown { IfOk result (IsShownBy varyings.now) }
    ensures known { AreNotedIn (context_view context.now) seen.new }
{
    let shown = shown_by(varyings);
    match seen.insert((ty.index() as u32, number_of(way_of(context), shown))) {
        Ok(_) => Ok(shown),
        Err(_) => Err(AllocError),
    }
}

// Whether an argument has no binding, so that the members of its type are checked. Both results are correct for the caller.
fn has_unbound(arguments: &[FunctionArgument]) -> bool {
    for argument in arguments {
        if argument.binding.is_none() {
            return true;
        }
    }
    false
}

impl KnownTypes {
    /// None. It allocates nothing.
    pub fn new(alloc: Global) -> KnownTypes
        ensures { (flags : ValidationFlags) (capabilities : Capabilities) (types : List PlainType) → AreKnownOf flags capabilities types result }
    {
        KnownTypes {
            seen: BTreeSet::new(alloc),
            marks: Marks::new(alloc),
        }
    }

    // The facts about the members of a type, if they are valid results.
    fn validate(
        &mut self,
        alloc: Global,
        context: &VaryingContext<'_>,
        ty: Handle<key::IrType>,
    ) -> Result<Shown, VaryingRefusal>
        requires told { IsReported context.now }
        requires known { AreKnown (context_view context.now) self.old }
        ensures fine { MatchResult result
            (λ shown. VaryingsOK (context_view context.now) (varyings_of (context_view context.now).types 0 ty None) × IsShownBy (varyings_of (context_view context.now).types 0 ty None) shown)
            (IsRefusal (context_view context.now) (varyings_of (context_view context.now).types 0 ty None)) }
        ensures known { AreKnown (context_view context.now) self.new }
        ensures marks { self.new.marks ≡ self.old.marks }
    {
        if let Some(shown) = found(&self.seen, ty, way_of(context)) {
            return Ok(shown);
        }
        match validate_value(alloc, context, ty, None) {
            Ok(varyings) => match note(&mut self.seen, context, ty, &varyings) {
                Ok(shown) => Ok(shown),
                Err(error) => Err(VaryingRefusal::Memory(error)),
            },
            Err(refusal) => Err(refusal),
        }
    }

    /// The facts about a result value or the members of its type, if valid, as in [`validate_value`](crate::validate_value).
    /// For a type without a binding they are found once for each direction and stage.
    ///
    /// # Errors
    ///
    /// Those of [`validate_value`](crate::validate_value), and [`VaryingRefusal::Memory`] if there is no memory to note them.
    pub fn validate_value(
        &mut self,
        alloc: Global,
        context: &VaryingContext<'_>,
        ty: Handle<key::IrType>,
        binding: Option<Binding>,
    ) -> Result<Shown, VaryingRefusal>
        requires told { IsReported context.now }
        requires known { AreKnown (context_view context.now) self.old }
        ensures fine { MatchResult result
            (λ shown. VaryingsOK (context_view context.now) (varyings_of (context_view context.now).types 0 ty binding) × IsShownBy (varyings_of (context_view context.now).types 0 ty binding) shown)
            (IsRefusal (context_view context.now) (varyings_of (context_view context.now).types 0 ty binding)) }
        ensures known { OnOk result (AreKnown (context_view context.now) self.new) }
    {
        match binding {
            None => self.validate(alloc, context, ty),
            Some(binding) => match validate_value(alloc, context, ty, Some(binding)) {
                Ok(varyings) => Ok(shown_by(&varyings)),
                Err(refusal) => Err(refusal),
            },
        }
    }

    // Takes the marks of the members of a type, and returns whether they are valid arguments with no mark taken before. The
    // error is out of memory.
    fn take_type(
        &mut self,
        alloc: Global,
        context: &VaryingContext<'_>,
        taken: &mut Vec<u64>,
        ty: Handle<key::IrType>,
    ) -> Result<bool, AllocError>
        requires told { IsReported context.now }
        requires known { AreKnown (context_view context.now) self.old }
        ensures known { OnOk result (AreKnown (context_view context.now) self.new) }
        ensures kept { OnOk result (KeepsNumbers self.old.marks.numbers self.new.marks.numbers) }
        ensures still { OnOk result (KeepsBits taken.old.items taken.new.items) }
        ensures free { IfOk result (λ free. IsTrue free → IsNewlyGiven (context_view context.now) self.new.marks.numbers taken.old.items taken.new.items ty None) }
    {
        match self.validate(alloc, context, ty) {
            Ok(_) => {}
            Err(_) => return Ok(false),
        }
        let free = self
            .marks
            .take_members(alloc, context.flags, context.types, taken, ty)?;
        Ok(free)
    }

    // The same for a value with a binding.
    fn take_value(
        &mut self,
        alloc: Global,
        context: &VaryingContext<'_>,
        taken: &mut Vec<u64>,
        ty: Handle<key::IrType>,
        binding: Binding,
    ) -> Result<bool, AllocError>
        requires told { IsReported context.now }
        requires known { AreKnown (context_view context.now) self.old }
        ensures known { OnOk result (AreKnown (context_view context.now) self.new) }
        ensures kept { OnOk result (KeepsNumbers self.old.marks.numbers self.new.marks.numbers) }
        ensures still { OnOk result (KeepsBits taken.old.items taken.new.items) }
        ensures free { IfOk result (λ free. IsTrue free → IsNewlyGiven (context_view context.now) self.new.marks.numbers taken.old.items taken.new.items ty (Some binding)) }
    {
        let varyings = match validate_value(alloc, context, ty, Some(binding)) {
            Ok(varyings) => varyings,
            Err(_) => return Ok(false),
        };
        let free = self.marks.take_each(context.flags, taken, &varyings)?;
        Ok(free)
    }

    // The same for an argument.
    fn take_argument(
        &mut self,
        alloc: Global,
        context: &VaryingContext<'_>,
        taken: &mut Vec<u64>,
        argument: &FunctionArgument,
    ) -> Result<bool, AllocError>
        requires told { IsReported context.now }
        requires known { AreKnown (context_view context.now) self.old }
        ensures known { OnOk result (AreKnown (context_view context.now) self.new) }
        ensures kept { OnOk result (KeepsNumbers self.old.marks.numbers self.new.marks.numbers) }
        ensures still { OnOk result (KeepsBits taken.old.items taken.new.items) }
        ensures free { IfOk result (λ free. IsTrue free → IsNewlyGiven (context_view context.now) self.new.marks.numbers taken.old.items taken.new.items argument.now.ty argument.now.binding) }
    {
        match argument.binding {
            None => self.take_type(alloc, context, taken, argument.ty),
            Some(binding) => self.take_value(alloc, context, taken, argument.ty, binding),
        }
    }

    // Whether each argument is valid by itself, and no mark occurs twice. The error is out of memory.
    fn are_apart(
        &mut self,
        alloc: Global,
        context: &VaryingContext<'_>,
        arguments: &[FunctionArgument],
    ) -> Result<bool, AllocError>
        requires told { IsReported context.now }
        requires known { AreKnown (context_view context.now) self.old }
        ensures known { OnOk result (AreKnown (context_view context.now) self.new) }
        ensures fine { IfOk result (λ apart. IsTrue apart → VaryingsOK (context_view context.now) (argument_varyings (context_view context.now).types (map argument_view arguments.now))) }
    {
        let mut taken = Vec::new(alloc);
        for index in 0..arguments.len() {
            match self.take_argument(alloc, context, &mut taken, &arguments[index]) {
                Ok(true) => {}
                Ok(false) => return Ok(false),
                Err(error) => return Err(error),
            }
        }
        Ok(true)
    }

    // Whether several arguments are valid. For types that were seen before it compares their marks, not their members; if marks
    // occur twice, all members are checked, to find the error.
    fn validate_several(
        &mut self,
        alloc: Global,
        context: &VaryingContext<'_>,
        arguments: &[FunctionArgument],
    ) -> Result<(), VaryingRefusal>
        requires told { IsReported context.now }
        requires known { AreKnown (context_view context.now) self.old }
        ensures fine { MatchResult result
            (λ _. VaryingsOK (context_view context.now) (argument_varyings (context_view context.now).types (map argument_view arguments.now)))
            (IsRefusal (context_view context.now) (argument_varyings (context_view context.now).types (map argument_view arguments.now))) }
        ensures known { OnOk result (AreKnown (context_view context.now) self.new) }
    {
        match self.are_apart(alloc, context, arguments) {
            Ok(true) => return Ok(()),
            Ok(false) => {}
            Err(error) => return Err(VaryingRefusal::Memory(error)),
        }
        match validate_arguments(alloc, context, arguments) {
            Ok(_) => Ok(()),
            Err(refusal) => Err(refusal),
        }
    }

    /// Whether arguments are valid, as in [`validate_arguments`](crate::validate_arguments). For a type without a binding this
    /// is found once for each stage, and the marks of its members once.
    ///
    /// # Errors
    ///
    /// Those of [`validate_arguments`](crate::validate_arguments), and [`VaryingRefusal::Memory`] if there is no memory to note
    /// them.
    pub fn validate_arguments(
        &mut self,
        alloc: Global,
        context: &VaryingContext<'_>,
        arguments: &[FunctionArgument],
    ) -> Result<(), VaryingRefusal>
        requires told { IsReported context.now }
        requires known { AreKnown (context_view context.now) self.old }
        ensures fine { MatchResult result
            (λ _. VaryingsOK (context_view context.now) (argument_varyings (context_view context.now).types (map argument_view arguments.now)))
            (IsRefusal (context_view context.now) (argument_varyings (context_view context.now).types (map argument_view arguments.now))) }
        ensures known { OnOk result (AreKnown (context_view context.now) self.new) }
    {
        if arguments.len() == 1 {
            let argument = &arguments[0];
            return match self.validate_value(alloc, context, argument.ty, argument.binding) {
                Ok(_) => Ok(()),
                Err(refusal) => Err(refusal),
            };
        }
        if has_unbound(arguments) {
            return self.validate_several(alloc, context, arguments);
        }
        match validate_arguments(alloc, context, arguments) {
            Ok(_) => Ok(()),
            Err(refusal) => Err(refusal),
        }
    }
}
