// Expressions, by operator precedence with an explicit stack.

use crate::cursor::Parser;
use crate::operators::{Operator, operator_of};
use crate::steps::StepKind;
use ir_kinds::UnaryOperator;
use wgsl_text::WgslError;
use wgsl_tokens::TokenKind;
use wgsl_words::Keyword;

/// The grammar rule.
#[derive(Clone, Copy, PartialEq, Eq)]
pub enum Mode {
    /// A value.
    Value,
    /// A type: an identifier with optional template arguments.
    Type,
    /// The left-hand side of an assignment, or a call: no binary operator outside brackets.
    Place,
}

// An open operator or bracket.
#[derive(Clone, Copy)]
pub(crate) enum Around {
    // a unary operator
    Unary(UnaryOperator),
    Deref,
    AddressOf,
    // a binary operator with its left operand read
    Binary(Operator),
    // brackets, with the number of operands read
    Group,
    Index,
    Call(u32),
    Template(u32),
}

// An open operator or bracket at its token.
#[derive(Clone, Copy)]
pub(crate) struct Open {
    around: Around,
    token: u32,
}

// The parser's expectation.
#[derive(Clone, Copy, PartialEq, Eq)]
enum Next {
    Operand,
    Operator,
    Nothing,
}

// The maximum number of operators and brackets open around an operand.
const MAX_OPEN: usize = 255;

// The unary operator of a token.
fn unary_of(kind: TokenKind) -> Option<Around> {
    match kind {
        TokenKind::Minus => Some(Around::Unary(UnaryOperator::Negate)),
        TokenKind::Bang => Some(Around::Unary(UnaryOperator::LogicalNot)),
        TokenKind::Tilde => Some(Around::Unary(UnaryOperator::BitwiseNot)),
        TokenKind::Star => Some(Around::Deref),
        TokenKind::And => Some(Around::AddressOf),
        _ => None,
    }
}

impl Parser {
    /// Reads an expression and appends its steps.
    pub fn expression(&mut self, mode: Mode) {
        let mut next = Next::Operand;
        self.open.clear();
        self.brackets = 0;
        for _ in self.place..self.tokens.list.len().saturating_add(1) {
            next = match next {
                Next::Operand => self.operand(mode),
                Next::Operator => self.operator(mode),
                Next::Nothing => break,
            };
            if self.has_failed() {
                break;
            }
        }
        if next != Next::Nothing && !self.has_failed() {
            self.operator(mode);
        }
    }

    // Pushes an operator or bracket.
    fn begin(&mut self, around: Around, token: u32) {
        if self.open.len() >= MAX_OPEN {
            let extent = self.extent();
            let error = WgslError::unsupported("expressions nested more than 255 deep", extent);
            self.failed.fail(error);
        }
        if matches!(
            around,
            Around::Group | Around::Index | Around::Call(_) | Around::Template(_)
        ) {
            self.brackets = self.brackets.saturating_add(1);
        }
        self.failed.push(&mut self.open, Open { around, token });
    }

    // An operand, or a prefix operator.
    fn operand(&mut self, mode: Mode) -> Next {
        let kind = self.kind();
        let token = self.token();
        if mode == Mode::Type && self.brackets == 0 && kind != TokenKind::Word {
            self.refuse("expected identifier");
            return Next::Nothing;
        }
        if let Some(around) = unary_of(kind) {
            self.advance();
            self.begin(around, token);
            return Next::Operand;
        }
        match kind {
            TokenKind::Number => self.number(),
            TokenKind::Word => self.word(mode),
            TokenKind::ParenOpen => {
                self.advance();
                self.begin(Around::Group, token);
                Next::Operand
            }
            _ => {
                self.refuse("expected expression");
                Next::Nothing
            }
        }
    }

    // A literal.
    fn number(&mut self) -> Next {
        match self.tokens.number(self.place) {
            Ok(literal) => {
                let place = u32::try_from(self.literals.len()).unwrap_or(u32::MAX);
                self.failed.push(&mut self.literals, literal);
                self.push(StepKind::Literal(place), self.token());
            }
            Err(error) => self.failed.fail(error),
        }
        self.advance();
        Next::Operator
    }

    // An identifier, with the brackets after it.
    fn word(&mut self, mode: Mode) -> Next {
        let token = self.token();
        let keyword = self.keyword();
        let number = self.name().unwrap_or(0);
        self.advance();
        match keyword {
            Keyword::True | Keyword::False => {
                self.push(StepKind::Bool(keyword == Keyword::True), token);
                return Next::Operator;
            }
            Keyword::Underscore => {
                let extent = self.tokens.at(token as usize).extent();
                self.failed
                    .fail(WgslError::malformed("Identifier can't be `_`", extent));
            }
            _ => {}
        }
        self.push(StepKind::Name(number), token);
        let open = self.token();
        if self.skip(TokenKind::TemplateOpen) {
            self.begin(Around::Template(0), open);
            return Next::Operand;
        }
        self.after_name(mode)
    }

    // The brackets after a template list.
    fn after_name(&mut self, mode: Mode) -> Next {
        let open = self.token();
        let is_type = mode == Mode::Type && self.brackets == 0;
        if is_type || !self.skip(TokenKind::ParenOpen) {
            return Next::Operator;
        }
        let close = self.token();
        if self.skip(TokenKind::ParenClose) {
            self.push(StepKind::Call(0), close);
            return Next::Operator;
        }
        self.begin(Around::Call(0), open);
        Next::Operand
    }

    // A postfix or binary operator, or the end.
    fn operator(&mut self, mode: Mode) -> Next {
        let kind = self.kind();
        let token = self.token();
        let is_inside = self.brackets > 0;
        if mode == Mode::Type && !is_inside {
            return Next::Nothing;
        }
        match kind {
            TokenKind::Dot => self.member(),
            TokenKind::BracketOpen => {
                self.advance();
                self.begin(Around::Index, token);
                Next::Operand
            }
            TokenKind::Comma if is_inside => self.comma(mode),
            TokenKind::ParenClose | TokenKind::BracketClose | TokenKind::TemplateClose
                if is_inside => { self.close(kind, mode) }
            _ => match operator_of(kind) {
                Some(operator) if is_inside || mode == Mode::Value => self.between(operator),
                _ => self.finish(),
            },
        }
    }

    // A member access.
    fn member(&mut self) -> Next {
        self.advance();
        let token = self.token();
        match self.name() {
            Some(number) => {
                self.push(StepKind::Member(number), token);
                self.advance();
                Next::Operator
            }
            None => {
                self.refuse("expected identifier");
                Next::Nothing
            }
        }
    }

    // A binary operator, after those before it that bind at least as strongly.
    fn between(&mut self, operator: Operator) -> Next {
        let token = self.token();
        self.reduce(operator.strength());
        if let Operator::Logical(or) = operator {
            self.push(StepKind::Between(or), token);
        }
        self.advance();
        self.begin(Around::Binary(operator), token);
        Next::Operand
    }

    // Pops the operators that bind at least as strongly.
    fn reduce(&mut self, strength: u8) {
        for _ in 0..self.open.len() {
            let Some(open) = self.open.last().copied() else {
                break;
            };
            let step = match open.around {
                Around::Unary(operator) => StepKind::Unary(operator),
                Around::Deref => StepKind::Deref,
                Around::AddressOf => StepKind::AddressOf,
                Around::Binary(operator) if operator.strength() >= strength => {
                    match operator {
                        Operator::Plain(operator, _) => StepKind::Binary(operator),
                        Operator::Logical(or) => StepKind::Logical(or),
                    }
                }
                _ => break,
            };
            let _ = self.open.pop();
            self.push(step, open.token);
        }
    }

    // The innermost open brackets, with the operators in them popped.
    fn innermost(&mut self) -> Option<Open> {
        self.reduce(0);
        self.open.last().copied()
    }

    // A comma before a further operand or a closing bracket.
    fn comma(&mut self, mode: Mode) -> Next {
        let Some(open) = self.innermost() else {
            return Next::Nothing;
        };
        let (more, close) = match open.around {
            Around::Call(count) => (Around::Call(count.saturating_add(1)), TokenKind::ParenClose),
            Around::Template(count) => (
                Around::Template(count.saturating_add(1)),
                TokenKind::TemplateClose,
            ),
            _ => {
                self.refuse_open(open);
                return Next::Nothing;
            }
        };
        self.advance();
        let _ = self.open.pop();
        if self.kind() == close {
            return self.closed(
                Open {
                    around: open.around,
                    token: open.token,
                },
                mode,
            );
        }
        self.failed.push(
            &mut self.open,
            Open {
                around: more,
                token: open.token,
            },
        );
        Next::Operand
    }

    // A closing bracket.
    fn close(&mut self, kind: TokenKind, mode: Mode) -> Next {
        let Some(open) = self.innermost() else {
            return Next::Nothing;
        };
        let wanted = match open.around {
            Around::Group | Around::Call(_) => TokenKind::ParenClose,
            Around::Index => TokenKind::BracketClose,
            _ => TokenKind::TemplateClose,
        };
        if kind != wanted {
            self.refuse_open(open);
            return Next::Nothing;
        }
        let _ = self.open.pop();
        self.closed(open, mode)
    }

    // Closes brackets at the next token.
    fn closed(&mut self, open: Open, mode: Mode) -> Next {
        let token = self.token();
        self.brackets = self.brackets.saturating_sub(1);
        self.advance();
        match open.around {
            Around::Group => self.push(StepKind::Group(open.token), token),
            Around::Index => self.push(StepKind::Index, token),
            Around::Call(count) => self.push(StepKind::Call(count.saturating_add(1)), token),
            Around::Template(count) => {
                self.push(StepKind::Template(count.saturating_add(1)), token);
                return self.after_name(mode);
            }
            _ => {}
        }
        Next::Operator
    }

    // Reports unbalanced brackets.
    fn refuse_open(&mut self, open: Open) {
        let wanted = match open.around {
            Around::Group | Around::Call(_) => "expected `)`",
            Around::Index => "expected `]`",
            _ => "expected `>`",
        };
        self.refuse(wanted);
    }

    // The end of the expression.
    fn finish(&mut self) -> Next {
        if let Some(open) = self.innermost() {
            self.refuse_open(open);
        }
        Next::Nothing
    }
}
