// Collects a function's expressions, locals and statements.

use ir_arena::arena::Arena;
use ir_arena::range::Range;
use ir_arena::span::Span;
use ir_items::{
    Block, Expression, Function, FunctionArgument, FunctionResult, LocalVariable, Statement, key,
};
use spirv_bodies::Writing;
use spirv_declarations::{Budget, expression_size};
use spirv_expressions::{Emits, Value, no_value};
use spirv_words::SpirvError;
use std::alloc::Global;
use std::mem;

/// Collects a function's expressions, locals and statements, and the functions before it.
#[derive(Drop)]
pub struct Body {
    alloc: Global,
    functions: Arena<Function, key::Function>,
    expressions: Arena<Expression, key::Expression>,
    locals: Arena<LocalVariable, key::LocalVariable>,
    // the blocks that are open, the innermost last
    open: Vec<Block>,
    // the first expression not emitted yet, and the spans from it on
    start: Option<u32>,
    span: Span,
    // the remaining budget
    budget: Budget,
    // the first error
    failure: Option<SpirvError>,
}

impl Body {
    /// An empty one with this budget.
    pub fn new(alloc: Global, budget: Budget) -> Body {
        Body {
            alloc,
            functions: Arena::new(alloc),
            expressions: Arena::new(alloc),
            locals: Arena::new(alloc),
            open: Vec::new(alloc),
            start: None,
            span: Span::UNDEFINED,
            budget,
            failure: None,
        }
    }

    // An expression.
    fn append(&mut self, expression: Expression, span: Span) -> Value {
        self.spend(expression_size(&expression), span);
        if self.failure.is_some() {
            return no_value();
        }
        match self.expressions.append(expression, span) {
            Ok(handle) => handle,
            Err(_) => {
                self.fail(SpirvError::Memory);
                no_value()
            }
        }
    }

    /// The remaining budget.
    pub fn budget(&self) -> Budget {
        self.budget
    }

    fn count(&self) -> u32 {
        u32::try_from(self.expressions.len()).unwrap_or(u32::MAX)
    }

    // Appends a statement to the innermost block.
    fn push(&mut self, statement: Statement, span: Span) {
        match self.open.last_mut() {
            Some(block) if self.failure.is_none() => {
                if block.push(statement, span).is_err() {
                    self.failure = Some(SpirvError::Memory);
                }
            }
            _ => drop(statement),
        }
    }

    // The collected function.
    fn take(
        &mut self,
        name: Option<String>,
        arguments: Vec<FunctionArgument>,
        gives: Option<FunctionResult>,
        body: Block,
    ) -> Function {
        let expressions = mem::replace(&mut self.expressions, Arena::new(self.alloc));
        let local_variables = mem::replace(&mut self.locals, Arena::new(self.alloc));
        self.start = None;
        Function {
            name,
            arguments,
            result: gives,
            local_variables,
            expressions,
            body,
            diagnostic_filter_leaf: None,
        }
    }

    /// All functions, in the order in which they were written.
    pub fn into_functions(self) -> Arena<Function, key::Function> {
        let mut body = self;
        mem::replace(&mut body.functions, Arena::new(body.alloc))
    }

    /// The one function that was written.
    pub fn into_function(
        self,
        name: Option<String>,
        arguments: Vec<FunctionArgument>,
        gives: Option<FunctionResult>,
    ) -> Function {
        let mut body = self;
        let block = body.close();
        body.take(name, arguments, gives, block)
    }
}

impl Emits for Body {
    fn fail(&mut self, error: SpirvError) {
        if self.failure.is_none() {
            self.failure = Some(error);
        }
    }

    fn compute(&mut self, expression: Expression, span: Span) -> Value {
        match self.start {
            None => {
                self.start = Some(self.count());
                self.span = span;
            }
            Some(_) => self.span.subsume(span),
        }
        self.append(expression, span)
    }

    fn place(&mut self, expression: Expression, span: Span) -> Value {
        self.flush();
        self.append(expression, span)
    }
}

impl Writing for Body {
    fn failure(&self) -> Option<SpirvError> {
        self.failure
    }

    fn spend(&mut self, count: u64, span: Span) {
        if let Err(error) = self.budget.spend(count, span) {
            self.fail(error);
        }
    }

    fn flush(&mut self) {
        let Some(start) = self.start.take() else {
            return;
        };
        let end = self.count();
        let span = self.span;
        if start < end {
            self.push(Statement::Emit(Range::new(start, end)), span);
        }
    }

    fn statement(&mut self, statement: Statement, span: Span) {
        self.flush();
        self.push(statement, span);
    }

    fn open(&mut self) {
        self.flush();
        if self.open.push(Block::new(self.alloc)).is_err() {
            self.fail(SpirvError::Memory);
        }
    }

    fn close(&mut self) -> Block {
        self.flush();
        match self.open.pop() {
            Some(block) => block,
            None => Block::new(self.alloc),
        }
    }

    fn local(&mut self, local: LocalVariable, span: Span) -> Value {
        match self.locals.append(local, span) {
            Ok(handle) => self.place(Expression::LocalVariable(handle), span),
            Err(_) => {
                self.fail(SpirvError::Memory);
                no_value()
            }
        }
    }

    fn end_function(
        &mut self,
        name: Option<String>,
        arguments: Vec<FunctionArgument>,
        gives: Option<FunctionResult>,
        body: Block,
        span: Span,
    ) {
        let function = self.take(name, arguments, gives, body);
        if self.functions.append(function, span).is_err() {
            self.fail(SpirvError::Memory);
        }
    }
}
