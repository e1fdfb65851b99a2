// Tags for the arenas that a handle may index: `Handle<key::Expression>` is an index into a function's expressions.
//
// They replace the items' own types as the handles' type parameter, so that no item's type is recursive through a handle. Each
// has the word that `BadHandle` errors report.

use ir_arena::handle::Kind;

/// Tag of the module's types.
#[derive(Clone, Copy)]
pub enum IrType {}

impl Kind for IrType {
    ghost use Rattle.std.specs.Prelude.{codes};

    ghost word = { codes "type" };

    fn word() -> &'static str {
        "type"
    }
}

/// Tag of the module's constants.
#[derive(Clone, Copy)]
pub enum Constant {}

impl Kind for Constant {
    ghost use Rattle.std.specs.Prelude.{codes};

    ghost word = { codes "constant" };

    fn word() -> &'static str {
        "constant"
    }
}

/// Tag of the module's overrides.
#[derive(Clone, Copy)]
pub enum Override {}

impl Kind for Override {
    ghost use Rattle.std.specs.Prelude.{codes};

    ghost word = { codes "override" };

    fn word() -> &'static str {
        "override"
    }
}

/// Tag of the module's global variables.
#[derive(Clone, Copy)]
pub enum GlobalVariable {}

impl Kind for GlobalVariable {
    ghost use Rattle.std.specs.Prelude.{codes};

    ghost word = { codes "global" };

    fn word() -> &'static str {
        "global"
    }
}

/// Tag of a function's local variables.
#[derive(Clone, Copy)]
pub enum LocalVariable {}

impl Kind for LocalVariable {
    ghost use Rattle.std.specs.Prelude.{codes};

    ghost word = { codes "local" };

    fn word() -> &'static str {
        "local"
    }
}

/// Tag of a function's expressions, or the module's global expressions.
#[derive(Clone, Copy)]
pub enum Expression {}

impl Kind for Expression {
    ghost use Rattle.std.specs.Prelude.{codes};

    ghost word = { codes "expression" };

    fn word() -> &'static str {
        "expression"
    }
}

/// Tag of the module's functions.
#[derive(Clone, Copy)]
pub enum Function {}

impl Kind for Function {
    ghost use Rattle.std.specs.Prelude.{codes};

    ghost word = { codes "function" };

    fn word() -> &'static str {
        "function"
    }
}

/// Tag of the module's diagnostic filter nodes.
#[derive(Clone, Copy)]
pub enum DiagnosticFilterNode {}

impl Kind for DiagnosticFilterNode {
    ghost use Rattle.std.specs.Prelude.{codes};

    ghost word = { codes "filter" };

    fn word() -> &'static str {
        "filter"
    }
}
