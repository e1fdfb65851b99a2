//! How statements may leave their block.

ghost use Rattle.std.specs.Prelude.{◌≡◌};
ghost use Rattle.function_body_checks.specs.Allowed.{view_of};

/// How a statement leaves its block where that is not allowed. It is small because it is returned for each statement, which an error of
/// functions is not.
#[derive(Clone, Copy)]
pub enum Wrong {
    /// By a break.
    Break,
    /// By a continue.
    Continue,
    /// By a return.
    Return,
}

/// How a statement may leave its block: by the nearest loop or switch around it, and whether it is in a continuing part (naga's
/// `ControlFlowAbility`).
#[derive(Clone, Copy, Debug, PartialEq, Eq)]
pub struct Allowed {
    pub breaks: bool,
    pub continues: bool,
    pub returns: bool,
}

impl Allowed {
    ghost use Rattle.ir_blocks.specs.judged.Shapes.{case_at, loop_body, loop_continuing};
    ghost use Rattle.function_body_checks.specs.Allowed.{in_body, inside};

    /// In a function's body.
    pub const BODY: Allowed = Allowed {
        breaks: false,
        continues: false,
        returns: true,
    };

    /// Inside a case of a switch that occurs here.
    pub fn in_case(self) -> Allowed
        ensures { view_of result ≡ inside (case_at 0) (view_of self) }
    {
        Allowed {
            breaks: true,
            ..self
        }
    }

    /// Inside the body of a loop that occurs here.
    pub fn in_loop(self) -> Allowed
        ensures { view_of result ≡ inside loop_body (view_of self) }
    {
        Allowed {
            breaks: true,
            continues: true,
            ..self
        }
    }

    /// Inside the continuing part of a loop that occurs here.
    pub fn in_continuing(self) -> Allowed
        ensures { view_of result ≡ inside loop_continuing (view_of self) }
    {
        Allowed {
            breaks: false,
            continues: false,
            returns: false,
        }
    }
}
