// The writer that functions are built with.

use ir_arena::span::Span;
use ir_items::{Block, FunctionArgument, FunctionResult, LocalVariable, Statement};
use ir_types::clone_name;
use spirv_declarations::words_of;
use spirv_expressions::{Emits, Value, no_type};
use spirv_types::TypeHandle;
use spirv_words::{Failure, Listing, SpirvError};
use std::alloc::{AllocError, Global};

/// The writer that functions are built with, one after the other. It records the first error, and writes nothing after it.
pub trait Writing: Emits {
    /// The first error.
    fn failure(&self) -> Option<SpirvError>;

    /// Charges the budget for what is made, expressions aside.
    fn spend(&mut self, count: u64, span: Span);

    /// Emits the expressions that no statement has emitted yet.
    fn flush(&mut self);

    /// Appends a statement, after emitting pending expressions.
    fn statement(&mut self, statement: Statement, span: Span);

    /// Opens a block.
    fn open(&mut self);

    /// Closes the innermost block.
    fn close(&mut self) -> Block;

    /// Adds a local variable, and returns the pointer to it.
    fn local(&mut self, local: LocalVariable, span: Span) -> Value;

    /// Ends a function with this name, body, arguments and result. Its expressions and locals are those written so far.
    fn end_function(
        &mut self,
        name: Option<String>,
        arguments: Vec<FunctionArgument>,
        gives: Option<FunctionResult>,
        body: Block,
        span: Span,
    );
}

/// The type that was made, if it was.
pub fn type_in<W: Writing>(body: &mut W, made: Result<TypeHandle, SpirvError>) -> TypeHandle {
    match made {
        Ok(ty) => ty,
        Err(error) => {
            body.fail(error);
            no_type()
        }
    }
}

/// The name that was made, if it was.
pub fn made_in<W: Writing>(body: &mut W, name: Result<String, AllocError>) -> Option<String> {
    match name {
        Ok(name) => Some(name),
        Err(_) => {
            body.fail(SpirvError::Memory);
            None
        }
    }
}

/// The name that was read, if it was.
pub fn read_in<W: Writing>(
    body: &mut W,
    name: Result<Option<String>, SpirvError>,
) -> Option<String> {
    match name {
        Ok(name) => name,
        Err(error) => {
            body.fail(error);
            None
        }
    }
}

/// A copy of an id's name, if it has one, where this is not the only one.
pub fn copy_name<W: Writing>(
    body: &mut W,
    alloc: Global,
    listing: &Listing,
    id: u32,
    span: Span,
) -> Option<String> {
    let name = read_in(body, listing.name(alloc, id, None));
    body.spend(words_of(&name), span);
    name
}

/// A copy of a name.
pub fn clone_in<W: Writing>(
    body: &mut W,
    alloc: Global,
    name: &Option<String>,
    span: Span,
) -> Option<String> {
    body.spend(words_of(name), span);
    match clone_name(alloc, name) {
        Ok(name) => name,
        Err(_) => {
            body.fail(SpirvError::Memory);
            None
        }
    }
}

/// The error, if there was one.
pub fn fail_in<W: Writing>(body: &mut W, failed: &Failure) {
    if let Some(error) = failed.first {
        body.fail(error);
    }
}
