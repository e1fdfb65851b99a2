// A function under construction: its expressions, locals and statements.

use ir_arena::arena::Arena;
use ir_arena::handle::Handle;
use ir_arena::range::Range;
use ir_arena::span::Span;
use ir_items::{
    Block, Expression, Function, FunctionArgument, FunctionResult, LocalVariable, Statement, key,
};
use std::alloc::Global;
use std::mem;
use wgsl_types::{ExpressionHandle, no_expression};

// The state of the current function.
#[derive(Drop)]
pub(crate) struct Body {
    alloc: Global,
    expressions: Arena<Expression, key::Expression>,
    locals: Arena<LocalVariable, key::LocalVariable>,
    // the open blocks, the innermost last
    open: Vec<Block>,
    // the first expression that no `Emit` covers yet, and the span of those from it on
    start: Option<u32>,
    span: Span,
    // whether it ran out of memory
    pub has_failed: bool,
}

impl Body {
    // An empty function.
    pub(crate) fn new(alloc: Global) -> Body {
        Body {
            alloc,
            expressions: Arena::new(alloc),
            locals: Arena::new(alloc),
            open: Vec::new(alloc),
            start: None,
            span: Span::UNDEFINED,
            has_failed: false,
        }
    }

    // Appends an expression.
    fn append(&mut self, expression: Expression, span: Span) -> ExpressionHandle {
        match self.expressions.append(expression, span) {
            Ok(handle) => handle,
            Err(_) => {
                self.has_failed = true;
                no_expression()
            }
        }
    }

    fn count(&self) -> u32 {
        u32::try_from(self.expressions.len()).unwrap_or(u32::MAX)
    }

    // Appends a statement to the innermost block.
    fn push(&mut self, statement: Statement, span: Span) {
        match self.open.last_mut() {
            Some(block) => {
                if block.push(statement, span).is_err() {
                    self.has_failed = true;
                }
            }
            None => drop(statement),
        }
    }

    // Appends an `Emit` of the pending expressions.
    fn flush(&mut self) {
        let Some(start) = self.start.take() else {
            return;
        };
        let end = self.count();
        let span = self.span;
        if start < end {
            self.push(Statement::Emit(Range::new(start, end)), span);
        }
    }

    // Adds an expression that an `Emit` statement has to cover.
    pub(crate) fn compute(&mut self, expression: Expression, span: Span) -> ExpressionHandle {
        match self.start {
            None => {
                self.start = Some(self.count());
                self.span = span;
            }
            Some(_) => self.span.subsume(span),
        }
        self.append(expression, span)
    }

    // Adds an expression that needs no `Emit`, or is the result of a statement.
    pub(crate) fn place(&mut self, expression: Expression, span: Span) -> ExpressionHandle {
        self.flush();
        self.append(expression, span)
    }

    // Adds a statement, after an `Emit` of the pending expressions.
    pub(crate) fn statement(&mut self, statement: Statement, span: Span) {
        self.flush();
        self.push(statement, span);
    }

    // Opens a block.
    pub(crate) fn open(&mut self) {
        self.flush();
        if self.open.push(Block::new(self.alloc)).is_err() {
            self.has_failed = true;
        }
    }

    // Closes the innermost block.
    pub(crate) fn close(&mut self) -> Block {
        self.flush();
        match self.open.pop() {
            Some(block) => block,
            None => Block::new(self.alloc),
        }
    }

    // Adds a local variable; returns the pointer to it.
    pub(crate) fn local(&mut self, local: LocalVariable, span: Span) -> ExpressionHandle {
        match self.locals.append(local, span) {
            Ok(handle) => self.place(Expression::LocalVariable(handle), span),
            Err(_) => {
                self.has_failed = true;
                no_expression()
            }
        }
    }

    // The function, whose body is the open block.
    pub(crate) fn take(
        &mut self,
        name: Option<String>,
        arguments: Vec<FunctionArgument>,
        gives: Option<FunctionResult>,
        leaf: Option<Handle<key::DiagnosticFilterNode>>,
    ) -> Function {
        let body = self.close();
        let expressions = mem::replace(&mut self.expressions, Arena::new(self.alloc));
        let local_variables = mem::replace(&mut self.locals, Arena::new(self.alloc));
        self.start = None;
        Function {
            name,
            arguments,
            result: gives,
            local_variables,
            expressions,
            body,
            diagnostic_filter_leaf: leaf,
        }
    }
}
