//! Laws of canonical forms.
ghost use Rattle.std.specs.Prelude.{◌≡◌, ◌↔◌, IsTrue};

use crate::form::Form;

/// `==` of forms is equality.
#[tactic(auto, using(crate::proofs::FormEquality::form_eq))]
pub fn form_equality(left: Form, right: Form) -> bool
    ensures { IsTrue result ↔ (left ≡ right) }
{
    left == right
}
