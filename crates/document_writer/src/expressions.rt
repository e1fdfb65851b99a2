// Writes expressions.

use crate::writer::Writer;
use ir_arena::handle::Handle;
use ir_kinds::{
    BinaryOperator, DerivativeAxis, DerivativeControl, Literal, RelationalFunction, Scalar,
    UnaryOperator, VectorSize,
};
use ir_types::{Expression, key};

type E = Handle<key::Expression>;

impl Writer {
    /// Writes an expression's handle, or `null`.
    pub fn maybe(&mut self, handle: Option<E>) {
        match handle {
            Some(handle) => self.handle(handle),
            None => self.null(),
        }
    }

    /// Writes a list of expression handles.
    pub fn handles(&mut self, handles: &[E]) {
        self.open();
        for handle in handles {
            self.handle(*handle);
        }
        self.close();
    }

    /// Writes a tag and a handle.
    pub fn one<T>(&mut self, word: &str, handle: Handle<T>) {
        self.word(word);
        self.handle(handle);
    }

    /// Writes a tag and two expression handles.
    pub fn two(&mut self, word: &str, first: E, second: E) {
        self.one(word, first);
        self.handle(second);
    }

    /// Writes an expression.
    pub fn expression(&mut self, expression: &Expression) {
        self.open();
        self.parts(expression);
        self.close();
    }

    // Writes the elements of an expression's array.
    fn parts(&mut self, expression: &Expression) {
        match expression {
            Expression::Literal(literal) => self.literal(*literal),
            Expression::Constant(handle) => self.one("Constant", *handle),
            Expression::Override(handle) => self.one("Override", *handle),
            Expression::ZeroValue(handle) => self.one("ZeroValue", *handle),
            Expression::Compose { ty, components } => {
                self.one("Compose", *ty);
                self.handles(components);
            }
            Expression::Access { base, index } => self.two("Access", *base, *index),
            Expression::AccessIndex { base, index } => self.access_index(*base, *index),
            Expression::Splat { size, value } => self.splat(*size, *value),
            Expression::Swizzle { .. } => self.swizzle(expression),
            Expression::FunctionArgument(index) => self.argument_index(*index),
            Expression::GlobalVariable(handle) => self.one("GlobalVariable", *handle),
            Expression::LocalVariable(handle) => self.one("LocalVariable", *handle),
            Expression::Load { pointer } => self.one("Load", *pointer),
            Expression::ImageSample { .. } => self.sample(expression),
            Expression::ImageLoad { .. } => self.texel(expression),
            Expression::ImageQuery { image, query } => self.query(*image, *query),
            Expression::Unary { op, expr } => self.unary(*op, *expr),
            Expression::Binary { op, left, right } => self.binary(*op, *left, *right),
            Expression::Select { .. } => self.select(expression),
            Expression::Derivative { axis, ctrl, expr } => self.derivative(*axis, *ctrl, *expr),
            Expression::Relational { fun, argument } => self.relational(*fun, *argument),
            Expression::Math { .. } => self.math(expression),
            Expression::As { .. } => self.conversion(expression),
            Expression::CallResult(function) => self.one("CallResult", *function),
            Expression::AtomicResult { ty, comparison } => {
                self.one("AtomicResult", *ty);
                self.truth(*comparison);
            }
            Expression::WorkGroupUniformLoadResult { ty } => {
                self.one("WorkGroupUniformLoadResult", *ty);
            }
            Expression::ArrayLength(array) => self.one("ArrayLength", *array),
            Expression::RayQueryVertexPositions { query, committed } => {
                self.ray("RayQueryVertexPositions", *query, *committed);
            }
            Expression::RayQueryProceedResult => self.word("RayQueryProceedResult"),
            Expression::RayQueryGetIntersection { query, committed } => {
                self.ray("RayQueryGetIntersection", *query, *committed);
            }
            Expression::SubgroupBallotResult => self.word("SubgroupBallotResult"),
            Expression::SubgroupOperationResult { ty } => self.one("SubgroupOperationResult", *ty),
            Expression::CooperativeLoad { .. } => self.cooperative_load(expression),
            Expression::CooperativeMultiplyAdd { a, b, c } => {
                self.two("CooperativeMultiplyAdd", *a, *b);
                self.handle(*c);
            }
        }
    }

    // Writes the scalar type and the value of a literal.
    fn literal(&mut self, literal: Literal) {
        self.word("Literal");
        let scalar: Scalar = literal.scalar();
        self.word_of(scalar);
        match literal {
            Literal::F64(bits) => self.number(bits),
            Literal::AbstractFloat(bits) => self.number(bits),
            Literal::U64(bits) => self.number(bits),
            Literal::F32(bits) => self.number(u64::from(bits)),
            Literal::U32(bits) => self.number(u64::from(bits)),
            Literal::F16(bits) => self.number(u64::from(bits)),
            Literal::U16(bits) => self.number(u64::from(bits)),
            Literal::I16(value) => self.signed(i64::from(value)),
            Literal::I32(value) => self.signed(i64::from(value)),
            Literal::I64(value) => self.signed(value),
            Literal::AbstractInt(value) => self.signed(value),
            Literal::Bool(value) => self.truth(value),
        }
    }

    fn access_index(&mut self, base: E, index: u32) {
        self.one("AccessIndex", base);
        self.number(u64::from(index));
    }

    fn splat(&mut self, size: VectorSize, value: E) {
        self.word("Splat");
        self.size(size);
        self.handle(value);
    }

    fn swizzle(&mut self, expression: &Expression) {
        let Expression::Swizzle {
            size,
            vector,
            pattern,
        } = *expression
        else {
            return;
        };
        self.word("Swizzle");
        self.size(size);
        self.handle(vector);
        self.open_text();
        for letter in pattern {
            self.bare_word_of(letter);
        }
        self.close_text();
    }

    fn argument_index(&mut self, index: u32) {
        self.word("FunctionArgument");
        self.number(u64::from(index));
    }
}

// Writes operators, function calls and conversions.
impl Writer {
    fn unary(&mut self, op: UnaryOperator, expr: E) {
        self.word("Unary");
        self.word_of(op);
        self.handle(expr);
    }

    fn binary(&mut self, op: BinaryOperator, left: E, right: E) {
        self.word("Binary");
        self.word_of(op);
        self.handle(left);
        self.handle(right);
    }

    fn select(&mut self, expression: &Expression) {
        let Expression::Select {
            condition,
            accept,
            reject,
        } = *expression
        else {
            return;
        };
        self.two("Select", condition, accept);
        self.handle(reject);
    }

    fn derivative(&mut self, axis: DerivativeAxis, ctrl: DerivativeControl, expr: E) {
        self.word("Derivative");
        self.word_of(axis);
        self.word_of(ctrl);
        self.handle(expr);
    }

    fn relational(&mut self, fun: RelationalFunction, argument: E) {
        self.word("Relational");
        self.word_of(fun);
        self.handle(argument);
    }

    fn math(&mut self, expression: &Expression) {
        let Expression::Math {
            fun,
            arg,
            arg1,
            arg2,
            arg3,
        } = *expression
        else {
            return;
        };
        self.word("Math");
        self.word_of(fun);
        self.handle(arg);
        self.maybe(arg1);
        self.maybe(arg2);
        self.maybe(arg3);
    }

    fn conversion(&mut self, expression: &Expression) {
        let Expression::As {
            expr,
            kind,
            convert,
        } = *expression
        else {
            return;
        };
        self.one("As", expr);
        self.word_of(kind);
        self.optional(convert.map(u32::from));
    }

    // Writes an expression on the committed or the candidate intersection of a ray query.
    fn ray(&mut self, word: &str, query: E, committed: bool) {
        self.one(word, query);
        self.truth(committed);
    }

    fn cooperative_load(&mut self, expression: &Expression) {
        let Expression::CooperativeLoad {
            columns,
            rows,
            role,
            block,
        } = *expression
        else {
            return;
        };
        self.word("CooperativeLoad");
        self.number(columns as u64);
        self.number(rows as u64);
        self.word_of(role);
        self.cooperative_data(block);
    }
}
