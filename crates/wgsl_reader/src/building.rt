// A module under construction.

use crate::body::Body;
use crate::budget::{Budget, expression_size, type_size};
use crate::meshes::mesh_output;
use crate::required::required_by;
use ir_arena::arena::Arena;
use ir_arena::handle::Handle;
use ir_flags::Capabilities;
use ir_items::{
    Block, Constant, DiagnosticFilter, DiagnosticFilterNode, EntryPoint, Expression, Function,
    FunctionArgument, FunctionResult, GlobalVariable, IrType, LocalVariable, MeshStageInfo,
    Override, SpecialTypes, Statement, key,
};
use ir_kinds::PredeclaredType;
use ir_sets::keyed::KeyedState;
use ir_sets::unique_arena::UniqueArena;
use std::alloc::Global;
use std::mem;
use wgsl_declarations::{EntryHead, ModuleBuilder};
use wgsl_text::{Extent, Failure, WgslError};
use wgsl_types::{
    Builder, ExpressionHandle, RayStruct, TypeHandle, no_expression, no_type, span_of,
};

// The handle of a diagnostic filter.
type FilterHandle = Handle<key::DiagnosticFilterNode>;

// The parts of a module.
#[derive(Drop)]
pub(crate) struct Parts {
    pub types: UniqueArena<IrType, key::IrType>,
    pub variables: Arena<GlobalVariable, key::GlobalVariable>,
    pub expressions: Arena<Expression, key::Expression>,
    pub functions: Arena<Function, key::Function>,
    pub entries: Vec<EntryPoint>,
    pub constants: Arena<Constant, key::Constant>,
    pub overrides: Arena<Override, key::Override>,
    pub special: SpecialTypes,
    pub filters: Arena<DiagnosticFilterNode, key::DiagnosticFilterNode>,
    pub leaf: Option<FilterHandle>,
}

// The handle of the global variable with this index.
fn variable_handle(number: u32) -> Handle<key::GlobalVariable> {
    Handle::at(number.min(4_294_967_294) as usize)
}

// Whether the expression is allowed in functions only.
fn is_of_functions(expression: &Expression) -> bool {
    !matches!(
        expression,
        Expression::Compose { .. }
            | Expression::Splat { .. }
            | Expression::Access { .. }
            | Expression::AccessIndex { .. }
            | Expression::Swizzle { .. }
            | Expression::Unary { .. }
            | Expression::Binary { .. }
            | Expression::Select { .. }
            | Expression::Relational { .. }
            | Expression::Math { .. }
            | Expression::As { .. }
    )
}

// A module under construction.
#[derive(Drop)]
pub(crate) struct Building {
    pub alloc: Global,
    pub types: UniqueArena<IrType, key::IrType>,
    pub variables: Arena<GlobalVariable, key::GlobalVariable>,
    pub expressions: Arena<Expression, key::Expression>,
    pub functions: Arena<Function, key::Function>,
    pub entries: Vec<EntryPoint>,
    special: SpecialTypes,
    body: Body,
    is_global: bool,
    budget: Budget,
    pub failed: Failure,
    // the capabilities that the module requires
    pub used: Capabilities,
    constants: Arena<Constant, key::Constant>,
    overrides: Arena<Override, key::Override>,
    filters: Arena<DiagnosticFilterNode, key::DiagnosticFilterNode>,
    // the innermost filter of the module, and of the next function
    module_leaf: Option<FilterHandle>,
    leaf: Option<FilterHandle>,
}

impl Building {
    // An empty module, for a text with this many tokens.
    pub(crate) fn new(alloc: Global, key: KeyedState, tokens: usize) -> Building {
        Building {
            alloc,
            types: UniqueArena::with_hasher(alloc, key),
            variables: Arena::new(alloc),
            expressions: Arena::new(alloc),
            functions: Arena::new(alloc),
            entries: Vec::new(alloc),
            special: SpecialTypes::new(alloc),
            body: Body::new(alloc),
            is_global: true,
            budget: Budget::of(tokens),
            failed: Failure::NONE,
            used: Capabilities(0),
            constants: Arena::new(alloc),
            overrides: Arena::new(alloc),
            filters: Arena::new(alloc),
            module_leaf: None,
            leaf: None,
        }
    }

    // The parts of the module.
    pub(crate) fn into_parts(self) -> Parts {
        let Building {
            alloc: _,
            types,
            variables,
            expressions,
            functions,
            entries,
            special,
            body: _body,
            is_global: _,
            budget: _,
            failed: _,
            used: _,
            constants,
            overrides,
            filters,
            module_leaf,
            leaf: _,
        } = self;
        Parts {
            types,
            variables,
            expressions,
            functions,
            entries,
            constants,
            overrides,
            special,
            filters,
            leaf: module_leaf,
        }
    }

    // Spends from the budget; returns whether it suffices.
    fn spend(&mut self, count: u64, extent: Extent) -> bool {
        if let Some(error) = self.budget.spend(count, extent) {
            self.failed.fail(error);
        }
        !self.failed.is_some()
    }

    // The global expression of an override, if there is one.
    fn named_override(
        &mut self,
        by: Option<Handle<key::Override>>,
    ) -> Option<Handle<key::Expression>> {
        let by = by?;
        Some(self.global(Expression::Override(by), Extent::NONE))
    }

    // The output of a mesh shader in the variable with this index.
    fn mesh_info(&mut self, number: u32) -> Option<MeshStageInfo> {
        let variable = variable_handle(number);
        let ty = match self.variables.try_get(variable) {
            Ok(found) => found.ty,
            Err(_) => return None,
        };
        let output = mesh_output(&self.types, ty, variable);
        let mut info = output.info;
        info.max_vertices_override = self.named_override(output.vertices_by);
        info.max_primitives_override = self.named_override(output.primitives_by);
        Some(info)
    }

    // Reports that the function ran out of memory.
    fn check(&mut self) {
        if self.body.has_failed {
            self.failed.fail_memory();
        }
    }

    // Adds a global expression.
    fn global(&mut self, expression: Expression, extent: Extent) -> ExpressionHandle {
        match self.expressions.append(expression, span_of(extent)) {
            Ok(handle) => handle,
            Err(_) => {
                self.failed.fail_memory();
                no_expression()
            }
        }
    }
}

impl Builder for Building {
    fn fail(&mut self, error: WgslError) {
        self.failed.fail(error);
    }

    fn has_failed(&self) -> bool {
        self.failed.is_some()
    }

    fn insert(&mut self, ty: IrType, extent: Extent) -> TypeHandle {
        if !self.spend(type_size(&ty), extent) {
            drop(ty);
            return no_type();
        }
        self.require(required_by(&ty.inner));
        match self.types.insert(ty, span_of(extent)) {
            Ok(handle) => handle,
            Err(_) => {
                self.failed.fail_memory();
                no_type()
            }
        }
    }

    fn compute(&mut self, expression: Expression, extent: Extent) -> ExpressionHandle {
        if !self.spend(expression_size(&expression), extent) {
            drop(expression);
            return no_expression();
        }
        if self.is_global {
            if is_of_functions(&expression) {
                let text = "Unexpected runtime-expression";
                self.failed.fail(WgslError::malformed(text, extent));
            }
            return self.global(expression, extent);
        }
        let made = self.body.compute(expression, span_of(extent));
        self.check();
        made
    }

    fn place(&mut self, expression: Expression, extent: Extent) -> ExpressionHandle {
        if !self.spend(expression_size(&expression), extent) {
            drop(expression);
            return no_expression();
        }
        if self.is_global {
            return self.global(expression, extent);
        }
        let made = self.body.place(expression, span_of(extent));
        self.check();
        made
    }

    fn statement(&mut self, statement: Statement, extent: Extent) {
        if self.is_global {
            drop(statement);
            self.failed.fail(WgslError::malformed("Unexpected runtime-expression", extent));
            return;
        }
        self.body.statement(statement, span_of(extent));
        self.check();
    }

    fn open(&mut self) {
        self.body.open();
        self.check();
    }

    fn close(&mut self) -> Block {
        let block = self.body.close();
        self.check();
        block
    }

    fn local(&mut self, local: LocalVariable, extent: Extent) -> ExpressionHandle {
        let made = self.body.local(local, span_of(extent));
        self.check();
        made
    }

    fn overridable(&mut self, overridable: Override, extent: Extent) -> u32 {
        match self.overrides.append(overridable, span_of(extent)) {
            Ok(handle) => u32::try_from(handle.index()).unwrap_or(u32::MAX),
            Err(_) => {
                self.failed.fail_memory();
                0
            }
        }
    }

    fn is_global(&self) -> bool {
        self.is_global
    }

    fn require(&mut self, capability: Capabilities) {
        self.used = Capabilities(self.used.0 | capability.0);
    }

    fn predeclare(&mut self, of: PredeclaredType, ty: TypeHandle) {
        if self.special.predeclared_types.insert(of, ty).is_err() {
            self.failed.fail_memory();
        }
    }

    fn predeclare_rays(&mut self, of: RayStruct, ty: TypeHandle) {
        match of {
            RayStruct::Descriptor => self.special.ray_desc = Some(ty),
            RayStruct::Intersection => self.special.ray_intersection = Some(ty),
            RayStruct::Vertices => self.special.ray_vertex_return = Some(ty),
        }
    }
}

impl ModuleBuilder for Building {
    fn set_global(&mut self, is_global: bool) {
        self.is_global = is_global;
    }

    fn variable(&mut self, variable: GlobalVariable, extent: Extent) -> u32 {
        match self.variables.append(variable, span_of(extent)) {
            Ok(handle) => u32::try_from(handle.index()).unwrap_or(u32::MAX),
            Err(_) => {
                self.failed.fail_memory();
                0
            }
        }
    }

    fn filter(&mut self, filter: DiagnosticFilter, extent: Extent) {
        let node = DiagnosticFilterNode {
            inner: filter,
            parent: self.leaf,
        };
        match self.filters.append(node, span_of(extent)) {
            Ok(handle) => self.leaf = Some(handle),
            Err(_) => self.failed.fail_memory(),
        }
    }

    fn end_directives(&mut self) {
        self.module_leaf = self.leaf;
    }

    fn constant(&mut self, constant: Constant, extent: Extent) -> u32 {
        match self.constants.append(constant, span_of(extent)) {
            Ok(handle) => u32::try_from(handle.index()).unwrap_or(u32::MAX),
            Err(_) => {
                self.failed.fail_memory();
                0
            }
        }
    }

    fn end_function(
        &mut self,
        name: Option<String>,
        arguments: Vec<FunctionArgument>,
        gives: Option<FunctionResult>,
        extent: Extent,
    ) -> u32 {
        let leaf = mem::replace(&mut self.leaf, self.module_leaf);
        let function = self.body.take(name, arguments, gives, leaf);
        match self.functions.append(function, span_of(extent)) {
            Ok(handle) => u32::try_from(handle.index()).unwrap_or(u32::MAX),
            Err(_) => {
                self.failed.fail_memory();
                0
            }
        }
    }

    fn end_entry(
        &mut self,
        head: EntryHead,
        name: Option<String>,
        arguments: Vec<FunctionArgument>,
        gives: Option<FunctionResult>,
    ) {
        let leaf = mem::replace(&mut self.leaf, self.module_leaf);
        let function = self.body.take(None, arguments, gives, leaf);
        let mesh_info = match head.mesh {
            Some(number) => self.mesh_info(number),
            None => None,
        };
        let task_payload = match head.payload {
            Some(number) => Some(variable_handle(number)),
            None => None,
        };
        let entry = EntryPoint {
            name: match name {
                Some(name) => name,
                None => String::new(self.alloc),
            },
            stage: head.stage,
            early_depth_test: head.depth_test,
            workgroup_size: head.size,
            mesh_info,
            task_payload,
            function,
        };
        if self.entries.push(entry).is_err() {
            self.failed.fail_memory();
        }
    }
}
