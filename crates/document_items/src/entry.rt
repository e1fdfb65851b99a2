// The JSON forms of what entry points have besides a function.
ghost use Rattle.std.specs.Prelude.{◌≡◌, ℕ, List, option_map};
ghost use Rattle.ir_items.specs.declared.entries.MeshStageInfo.{MeshStageInfo};
ghost use Rattle.ir_kinds.specs.declared.stages.ShaderStage.{ShaderStage};
ghost use Rattle.ir_kinds.specs.declared.stages.EarlyDepthTest.{EarlyDepthTest};
ghost use Rattle.document_items.specs.found.Items.{a_stage, an_early, the_sizes, a_mesh};

use crate::kinds::EarlyKind;
use document_forms::{
    At, End, Form, Maybe, ReadError, U32, Wanted, WordOf, read_items, read_row, read_tag,
};
use document_words::entry_stage;
use ir_items::MeshStageInfo;
use ir_kinds::{ConservativeDepth, EarlyDepthTest, MeshOutputTopology, ShaderStage};
use ir_types::key;
use serde_json::Value;
use std::alloc::Global;

/// The JSON form of a shader stage.
pub struct StageForm;

impl Form for StageForm {
    type Item = ShaderStage;

    ghost Plain = { ShaderStage };

    ghost view = { λ s. s };

    ghost form = { a_stage };

    fn read(_alloc: Global, value: &Value) -> Result<ShaderStage, ReadError> {
        let Some(word) = value.as_str() else {
            return Err(ReadError::here(Wanted::Word));
        };
        entry_stage(word).ok_or(ReadError::here(Wanted::Word))
    }
}

/// The JSON form of an early depth test.
pub struct EarlyForm;

impl Form for EarlyForm {
    type Item = EarlyDepthTest;

    ghost Plain = { EarlyDepthTest };

    ghost view = { λ e. e };

    ghost form = { an_early };

    #[tactic(auto, unfolding(crate::specs::found::Items::early_with))]
    fn read(alloc: Global, value: &Value) -> Result<EarlyDepthTest, ReadError> {
        let (kind, rest) = read_tag(value)?;
        match kind {
            EarlyKind::Force => {
                read_items::<End>(alloc, rest)?;
                Ok(EarlyDepthTest::Force)
            }
            EarlyKind::Allow => {
                let (conservative,) = read_items::<(WordOf<ConservativeDepth>,)>(alloc, rest)?;
                Ok(EarlyDepthTest::Allow { conservative })
            }
        }
    }
}

/// The JSON form of a workgroup size in x, y and z.
pub struct SizesForm;

impl Form for SizesForm {
    type Item = [u32; 3];

    ghost Plain = { List ℕ };

    ghost view = { λ s. s };

    ghost form = { the_sizes };

    fn read(alloc: Global, value: &Value) -> Result<[u32; 3], ReadError> {
        let (x, y, z) = read_row::<(U32, U32, U32)>(alloc, value)?;
        Ok([x, y, z])
    }
}

type T = At<key::IrType>;

type E = At<key::Expression>;

type MeshRow = (
    WordOf<MeshOutputTopology>,
    U32,
    Maybe<E>,
    U32,
    Maybe<E>,
    T,
    T,
    At<key::GlobalVariable>,
);

/// The JSON form of the outputs of a mesh shader.
pub struct MeshForm;

impl Form for MeshForm {
    type Item = MeshStageInfo;

    ghost Plain = { MeshStageInfo };

    ghost view = { λ m. m };

    ghost form = { a_mesh };

    fn read(alloc: Global, value: &Value) -> Result<MeshStageInfo, ReadError> {
        let (
            topology,
            max_vertices,
            max_vertices_override,
            max_primitives,
            max_primitives_override,
            vertex_output_type,
            primitive_output_type,
            output_variable,
        ) = read_row::<MeshRow>(alloc, value)?;
        Ok(MeshStageInfo {
            topology,
            max_vertices,
            max_vertices_override,
            max_primitives,
            max_primitives_override,
            vertex_output_type,
            primitive_output_type,
            output_variable,
        })
    }
}
