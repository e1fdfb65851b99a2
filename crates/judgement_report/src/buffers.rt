//! The rows of buffers.

ghost use Rattle.std.specs.Prelude.{◌≡◌, ◌++◌, ◌<◌, OnOk, Some, length};
ghost use Rattle.ir_items.specs.found.GlobalView.{global_view};
ghost use Rattle.ir_items.specs.found.View.{module_view};
ghost use Rattle.ir_types.specs.judged.Plain.{inner_view};
ghost use Rattle.judgement_report.specs.Reported.{AreLaid, IsReported};
ghost use Rattle.spec_interface.specs.judged.Spaces.{array_base, effective_type};
ghost use Rattle.judgement.specs.judged.Lines.{is_buffer, buffer_of, buffers};

use crate::rows::RowSink;
use ir_arena::handle::Handle;
use ir_items::{GlobalVariable, Module};
use ir_kinds::AddressSpace;
use ir_types::{TypeInner, key};
use judgement_rows::{BufferRow, ReportRow};
use std::alloc::AllocError;
use typing_infos::ModuleInfo;

/// Whether an address space is that of a buffer.
pub(crate) const fn is_buffer(space: AddressSpace) -> bool
    ensures { result ≡ is_buffer space }
{
    match space {
        AddressSpace::Uniform | AddressSpace::Storage { .. } => true,
        AddressSpace::Function
        | AddressSpace::Private
        | AddressSpace::WorkGroup
        | AddressSpace::Handle
        | AddressSpace::Immediate
        | AddressSpace::TaskPayload
        | AddressSpace::RayPayload
        | AddressSpace::IncomingRayPayload => false,
    }
}

// The element type of a binding array; `None` for any other type.
fn array_base(inner: &TypeInner) -> Option<Handle<key::IrType>>
    ensures { result ≡ array_base (Some (inner_view inner.now)) }
{
    match inner {
        TypeInner::BindingArray { base, .. } => Some(*base),
        _ => None,
    }
}

// The type whose layout is reported: for a binding array its element type.
fn counted(module: &Module, ty: Handle<key::IrType>) -> Handle<key::IrType>
    requires { ty < length (module_view «module».now).types }
    ensures { result ≡ effective_type (module_view «module».now).types ty }
{
    array_base(&module.types[ty].inner).unwrap_or(ty)
}

// The row of a global variable, if it is a buffer.
fn tell_variable<S: RowSink>(
    out: &mut S,
    module: &Module,
    info: &ModuleInfo,
    number: usize,
    variable: &GlobalVariable,
) -> Result<(), AllocError>
    requires laid { AreLaid (module_view «module».now) info.now }
    requires typed { variable.now.ty < length (module_view «module».now).types }
    ensures { OnOk result (S.told out.new ≡ S.told out.old ++ buffer_of (module_view «module».now).types number (global_view variable.now)) }
{
    if !is_buffer(variable.space) {
        return Ok(());
    }
    let layout = info.layout(counted(module, variable.ty));
    out.row(ReportRow::Buffer(BufferRow {
        global: number,
        size: layout.size,
        alignment: layout.alignment.get(),
    }))
}

/// The rows of all buffers, in order.
pub(crate) fn tell_buffers<S: RowSink>(
    out: &mut S,
    module: &Module,
    info: &ModuleInfo,
) -> Result<(), AllocError>
    requires { IsReported (module_view «module».now) info.now }
    ensures { OnOk result (S.told out.new ≡ S.told out.old ++ buffers (module_view «module».now)) }
{
    for number in 0..module.global_variables.len() {
        let variable = &module.global_variables[Handle::at(number)];
        tell_variable(out, module, info, number, variable)?;
    }
    Ok(())
}
