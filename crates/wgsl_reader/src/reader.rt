// From text to a module of the IR.
ghost use Rattle.std.specs.Prelude.{IfOk};
ghost use Rattle.wgsl_reader.specs.Checks.{MakesSixChecks};

use crate::building::Building;
use document_reader::Document;
use ir_flags::{Capabilities, Settings, ShaderStages, SubgroupOperationSet, ValidationFlags};
use ir_items::Module;
use ir_sets::keyed::KeyedState;
use std::alloc::Global;
use wgsl_declarations::lower_items;
use wgsl_expressions::Lowering;
use wgsl_names::names_of;
use wgsl_parser::parse;
use wgsl_text::{Failure, WgslError};

/// The module in this WGSL text, with the settings for its validation: all checks, the capabilities that it enables or requires,
/// and insertion of missing returns. Its spans are in bytes. The error is out of memory, that the text is not WGSL, or that a
/// construct is unsupported.
pub fn read_wgsl(alloc: Global, bytes: &[u8]) -> Result<Document, WgslError>
    ensures { IfOk result (λ d. MakesSixChecks d.settings.flags) }
{
    let tree = parse(alloc, bytes)?;
    let names = match names_of(alloc, &tree) {
        Ok(names) => names,
        Err(error) => {
            drop(tree);
            return Err(error);
        }
    };
    let enabled = tree.enabled;
    let builder = Building::new(alloc, KeyedState::of_bytes(bytes), tree.tokens.list.len());
    let mut failed = Failure::NONE;
    let mut lowering = Lowering::new(alloc, tree, names, builder, &mut failed);
    lowering.join(&failed);
    lower_items(&mut lowering);
    let built = lowering.into_builder();
    let failed = built.failed;
    failed.answer(document_of(built, enabled))
}

// The shader stages with subgroup operations, if a module requires them.
const STAGES: ShaderStages = ShaderStages(
    ShaderStages::VERTEX.0 | ShaderStages::FRAGMENT.0 | ShaderStages::COMPUTE.0,
);

// All subgroup operations.
const OPERATIONS: SubgroupOperationSet = SubgroupOperationSet(0x7f);

// The settings of a module with these capabilities.
fn settings_of(enabled: Capabilities) -> Settings
    ensures { MakesSixChecks result.flags }
{
    let has_subgroups = enabled.0 & Capabilities::SUBGROUP.0 != 0;
    Settings {
        flags: ValidationFlags::default(),
        capabilities: enabled,
        subgroup_stages: if has_subgroups {
            STAGES
        } else {
            ShaderStages(0)
        },
        subgroup_operations: if has_subgroups {
            OPERATIONS
        } else {
            SubgroupOperationSet(0)
        },
    }
}

// The document of the module.
fn document_of(built: Building, enabled: Capabilities) -> Document
    ensures { MakesSixChecks result.settings.flags }
{
    let enabled = Capabilities(enabled.0 | built.used.0);
    let parts = built.into_parts();
    let module = Module {
        types: parts.types,
        special_types: parts.special,
        constants: parts.constants,
        overrides: parts.overrides,
        global_variables: parts.variables,
        global_expressions: parts.expressions,
        functions: parts.functions,
        entry_points: parts.entries,
        diagnostic_filters: parts.filters,
        diagnostic_filter_leaf: parts.leaf,
    };
    Document {
        settings: settings_of(enabled),
        returns: true,
        module,
    }
}
