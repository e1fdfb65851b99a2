// Writes functions and entry points.

use crate::writer::Writer;
use ir_items::{
    EntryPoint, Function, FunctionArgument, FunctionResult, LocalVariable, MeshStageInfo,
};
use ir_kinds::{EarlyDepthTest, ShaderStage};

// The word of a shader stage.
fn stage_word(stage: ShaderStage) -> &'static str {
    match stage {
        ShaderStage::Vertex => "Vertex",
        ShaderStage::Fragment => "Fragment",
        ShaderStage::Compute => "Compute",
        ShaderStage::Mesh => "Mesh",
        ShaderStage::Task => "Task",
        ShaderStage::RayGeneration => "RayGeneration",
        ShaderStage::AnyHit => "AnyHit",
        ShaderStage::ClosestHit => "ClosestHit",
        ShaderStage::Miss => "Miss",
    }
}

impl Writer {
    fn argument(&mut self, argument: &FunctionArgument) {
        self.open();
        self.name(argument.name.as_deref());
        self.handle(argument.ty);
        self.binding(argument.binding);
        self.close();
    }

    fn local(&mut self, local: &LocalVariable) {
        self.open();
        self.name(local.name.as_deref());
        self.handle(local.ty);
        self.maybe(local.init);
        self.close();
    }

    /// Writes a function.
    pub fn function(&mut self, function: &Function) {
        self.open();
        self.name(function.name.as_deref());
        self.open();
        for argument in &function.arguments {
            self.argument(argument);
        }
        self.close();
        self.result(function.result);
        self.open();
        for (_, local) in function.local_variables.iter() {
            self.local(local);
        }
        self.close();
        self.open();
        for (_, expression) in function.expressions.iter() {
            self.expression(expression);
        }
        self.close();
        self.body(&function.body);
        self.leaf(function.diagnostic_filter_leaf);
        self.close();
    }

    fn result(&mut self, given: Option<FunctionResult>) {
        match given {
            Some(found) => {
                self.open();
                self.handle(found.ty);
                self.binding(found.binding);
                self.close();
            }
            None => self.null(),
        }
    }

    /// Writes an entry point.
    pub fn entry(&mut self, entry: &EntryPoint) {
        self.open();
        self.word(stage_word(entry.stage));
        self.text(entry.name.as_str());
        self.early(entry.early_depth_test);
        self.open();
        for size in entry.workgroup_size {
            self.number(u64::from(size));
        }
        self.close();
        match entry.mesh_info {
            Some(mesh) => self.mesh(mesh),
            None => self.null(),
        }
        match entry.task_payload {
            Some(handle) => self.handle(handle),
            None => self.null(),
        }
        self.function(&entry.function);
        self.close();
    }

    fn early(&mut self, test: Option<EarlyDepthTest>) {
        match test {
            Some(EarlyDepthTest::Force) => self.alone("Force"),
            Some(EarlyDepthTest::Allow { conservative }) => {
                self.begin("Allow");
                self.word_of(conservative);
                self.close();
            }
            None => self.null(),
        }
    }

    fn mesh(&mut self, mesh: MeshStageInfo) {
        self.open();
        self.word_of(mesh.topology);
        self.number(u64::from(mesh.max_vertices));
        self.maybe(mesh.max_vertices_override);
        self.number(u64::from(mesh.max_primitives));
        self.maybe(mesh.max_primitives_override);
        self.handle(mesh.vertex_output_type);
        self.handle(mesh.primitive_output_type);
        self.handle(mesh.output_variable);
        self.close();
    }
}
