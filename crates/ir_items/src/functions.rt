// Functions, with their arguments, results and local variables.
ghost use Rattle.std.specs.Prelude.{◌≡◌, IfOk};
ghost use Rattle.ir_items.specs.found.Copies.{spanned_function};
ghost use Rattle.ir_blocks.specs.found.View.{block_spans};
ghost use Rattle.ir_items.specs.found.View.{local_view, argument_view, function_view, empty_function};
ghost use Rattle.ir_blocks.specs.found.Spans.{no_spans};

use ir_blocks::Block;
use ir_blocks::ir_arena::arena::Arena;
use ir_blocks::ir_arena::copied::{Copied, copy_list};
use ir_blocks::ir_arena::handle::Handle;
use ir_blocks::ir_types::{Expression, clone_name, key};
use ir_kinds::Binding;
use std::alloc::{AllocError, Global};

/// A local variable of a function (naga's `LocalVariable`).
#[derive(PartialEq, Debug, Drop)]
pub struct LocalVariable {
    /// The name in the source, if any.
    pub name: Option<String>,
    /// Its type.
    pub ty: Handle<key::IrType>,
    /// The initialiser, an expression of the function, if any.
    pub init: Option<Handle<key::Expression>>,
}

/// An argument of a function (naga's `FunctionArgument`).
#[derive(PartialEq, Debug, Drop)]
pub struct FunctionArgument {
    /// The name in the source, if any.
    pub name: Option<String>,
    /// Its type.
    pub ty: Handle<key::IrType>,
    /// The binding, if the function is an entry point.
    pub binding: Option<Binding>,
}

/// The result of a function (naga's `FunctionResult`).
#[derive(Clone, Copy, PartialEq, Debug)]
pub struct FunctionResult {
    /// The type of the result.
    pub ty: Handle<key::IrType>,
    /// The binding, if the function is an entry point.
    pub binding: Option<Binding>,
}

/// A function (naga's `Function`).
#[derive(PartialEq, Debug, Drop)]
pub struct Function {
    /// The name in the source, if any.
    pub name: Option<String>,
    /// The arguments, in order.
    pub arguments: Vec<FunctionArgument>,
    /// The result, if any.
    pub result: Option<FunctionResult>,
    /// The local variables.
    pub local_variables: Arena<LocalVariable, key::LocalVariable>,
    /// The expressions.
    pub expressions: Arena<Expression, key::Expression>,
    /// The body.
    pub body: Block,
    /// The innermost diagnostic filter of the function.
    pub diagnostic_filter_leaf: Option<Handle<key::DiagnosticFilterNode>>,
}

impl LocalVariable {
    /// An equal variable in memory of its own. The error is out of memory.
    pub fn clone(&self, alloc: Global) -> Result<LocalVariable, AllocError>
        ensures { IfOk result (λ copy. local_view copy ≡ local_view self.now) }
    {
        Ok(LocalVariable {
            name: clone_name(alloc, &self.name)?,
            ty: self.ty,
            init: self.init,
        })
    }
}

impl FunctionArgument {
    /// An equal argument in memory of its own. The error is out of memory.
    pub fn clone(&self, alloc: Global) -> Result<FunctionArgument, AllocError>
        ensures { IfOk result (λ copy. argument_view copy ≡ argument_view self.now) }
    {
        Ok(FunctionArgument {
            name: clone_name(alloc, &self.name)?,
            ty: self.ty,
            binding: self.binding,
        })
    }
}

impl Function {
    /// A function without arguments, result and statements (naga's `Function::default`).
    pub fn new(alloc: Global) -> Function
        ensures function { function_view result ≡ empty_function }
        ensures spans { block_spans result.body ≡ no_spans }
    {
        Function {
            name: None,
            arguments: Vec::new(alloc),
            result: None,
            local_variables: Arena::new(alloc),
            expressions: Arena::new(alloc),
            body: Block::new(alloc),
            diagnostic_filter_leaf: None,
        }
    }

    /// An equal function in memory of its own, with the same spans. The error is out of memory.
    pub fn clone(&self, alloc: Global) -> Result<Function, AllocError>
        ensures { IfOk result (λ copy. spanned_function copy ≡ spanned_function self.now) }
    {
        Ok(Function {
            name: clone_name(alloc, &self.name)?,
            arguments: copy_list(alloc, &self.arguments)?,
            result: self.result,
            local_variables: self.local_variables.clone(alloc)?,
            expressions: self.expressions.clone(alloc)?,
            body: self.body.clone(alloc)?,
            diagnostic_filter_leaf: self.diagnostic_filter_leaf,
        })
    }
}

impl Copied for LocalVariable {
    ghost use Rattle.ir_items.specs.judged.Plain.{PlainLocal};
    ghost use Rattle.ir_items.specs.found.View.{local_view};

    ghost View = { PlainLocal };

    ghost view = { local_view };

    fn copied(&self, alloc: Global) -> Result<LocalVariable, AllocError> {
        self.clone(alloc)
    }
}

impl Copied for FunctionArgument {
    ghost use Rattle.ir_items.specs.judged.Plain.{PlainArgument};
    ghost use Rattle.ir_items.specs.found.View.{argument_view};

    ghost View = { PlainArgument };

    ghost view = { argument_view };

    fn copied(&self, alloc: Global) -> Result<FunctionArgument, AllocError> {
        self.clone(alloc)
    }
}

impl Copied for Function {
    ghost use Rattle.ir_items.specs.found.Copies.{SpannedFunction, spanned_function};

    ghost View = { SpannedFunction };

    ghost view = { spanned_function };

    fn copied(&self, alloc: Global) -> Result<Function, AllocError> {
        self.clone(alloc)
    }
}
