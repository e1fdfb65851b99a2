// Address spaces, images, bindings, stages and math functions.
use ir_flags::StorageAccess;
use ir_kinds::{
    AddressSpace, Binding, BuiltIn, ImageClass, MathFunction, MeshOutputTopology, Scalar,
    ScalarKind, ShaderStage, StorageFormat,
};
use std::io;

const SPACES: [AddressSpace; 10] = [
    AddressSpace::Function,
    AddressSpace::Private,
    AddressSpace::WorkGroup,
    AddressSpace::Uniform,
    AddressSpace::Storage {
        access: StorageAccess::STORE,
    },
    AddressSpace::Handle,
    AddressSpace::Immediate,
    AddressSpace::TaskPayload,
    AddressSpace::RayPayload,
    AddressSpace::IncomingRayPayload,
];

fn print_space(rt: &impl Print, space: AddressSpace) -> io::Result<()> {
    println!(rt;
        "{space:?}: {} {}",
        space.access().0,
        space.is_workgroup_like()
    )
}

const CLASSES: [(&str, ImageClass); 6] = [
    (
        "sampled",
        ImageClass::Sampled {
            kind: ScalarKind::Float,
            multi: false,
        },
    ),
    (
        "samples",
        ImageClass::Sampled {
            kind: ScalarKind::Float,
            multi: true,
        },
    ),
    ("depth", ImageClass::Depth { multi: false }),
    ("depths", ImageClass::Depth { multi: true }),
    ("external", ImageClass::External),
    (
        "storage",
        ImageClass::Storage {
            format: StorageFormat::R32Uint,
            access: StorageAccess::LOAD,
        },
    ),
];

fn print_class(rt: &impl Print, name: &str, class: ImageClass) -> io::Result<()> {
    let many = class.is_multisampled();
    println!(rt;
        "{name}: {many} {} {}",
        class.is_mipmapped(),
        class.is_depth()
    )
}

fn print_format(rt: &impl Print, format: StorageFormat) -> io::Result<()> {
    let scalar = Scalar::from(format);
    println!(rt; "{format:?}: {:?} {}", scalar.kind, scalar.width)
}

fn print_types(rt: &impl Print) -> io::Result<()> {
    for space in &SPACES {
        print_space(rt, *space)?;
    }
    for class in &CLASSES {
        print_class(rt, class.0, class.1)?;
    }
    for format in [
        StorageFormat::R64Uint,
        StorageFormat::Rgb10a2Uint,
        StorageFormat::Rgba8Sint,
        StorageFormat::R16Snorm,
        StorageFormat::Rg11b10Ufloat,
    ] {
        print_format(rt, format)?;
    }
    Ok(())
}

const BINDINGS: [Binding; 2] = [
    Binding::BuiltIn(BuiltIn::Position { invariant: true }),
    Binding::Location {
        location: 3,
        interpolation: None,
        sampling: None,
        blend_src: None,
        per_primitive: false,
    },
];

fn print_bindings(rt: &impl Print) -> io::Result<()> {
    for binding in &BINDINGS {
        println!(rt; "{:?}", binding.to_built_in())?;
    }
    for topology in [
        MeshOutputTopology::Points,
        MeshOutputTopology::Lines,
        MeshOutputTopology::Triangles,
    ] {
        println!(rt; "{topology:?}: {:?}", topology.to_builtin())?;
    }
    Ok(())
}

fn print_stages(rt: &impl Print) -> io::Result<()> {
    for stage in [
        ShaderStage::Vertex,
        ShaderStage::Fragment,
        ShaderStage::Compute,
        ShaderStage::Mesh,
        ShaderStage::Task,
        ShaderStage::RayGeneration,
        ShaderStage::AnyHit,
        ShaderStage::ClosestHit,
        ShaderStage::Miss,
    ] {
        println!(rt; "{stage:?}: {}", stage.compute_like())?;
    }
    for function in [
        MathFunction::Abs,
        MathFunction::Atan2,
        MathFunction::Outer,
        MathFunction::Refract,
        MathFunction::Mix,
        MathFunction::ExtractBits,
        MathFunction::InsertBits,
        MathFunction::Ldexp,
        MathFunction::QuantizeToF16,
    ] {
        println!(rt; "{function:?}: {}", function.argument_count())?;
    }
    Ok(())
}

/// Prints address spaces, images, bindings, stages and math functions.
pub fn run(rt: &impl Print) -> io::Result<()> {
    print_types(rt)?;
    print_bindings(rt)?;
    print_stages(rt)
}
