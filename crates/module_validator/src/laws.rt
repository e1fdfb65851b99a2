//! Laws of modules with valid handles, of errors, of the contexts of checks, and of sets of slots.

ghost use Rattle.module_validator.specs.Contexts.{ExpressionsAreKnown, TypesAreKnown, ValuesAreKnown};

pub use judgement::module_laws::{more_capabilities, none_fails, one_failure};
pub use module_constants::laws::{
    components_refuted, composition_refuted, constant_refuted, literal_refuted, override_refuted,
};
pub use module_globals::slot_laws::{
    contains_by_difference, contains_by_slots, slots_are_all, union_by_slots, unions_agree,
};
pub use module_handles::order_laws::{
    order_gives_expressions, order_gives_origins, order_gives_types,
};
pub use typing_handles::laws::order_gives_conditions;

/// If [`crate::ModuleValidator::validate`] accepts a module, [`crate::ModuleValidator::validate_type`] can be called with the
/// layouts of all its types and the `TypeInfo`s of its `ModuleInfo`.
pub fn types_are_known()
    ensures { TypesAreKnown }
{}

/// If it does, [`crate::ModuleValidator::validate_const_expression`] can be called with the kinds of all its global expressions,
/// the forms of their types ([`crate::forms_given`]), and the `TypeInfo`s of its `ModuleInfo`.
pub fn values_are_known()
    ensures { ValuesAreKnown }
{}

/// If it does, [`crate::ModuleValidator::validate_expression`] can be called with the kinds of all expressions of a function, or
/// of all global expressions, and the `TypeInfo`s of its `ModuleInfo`.
pub fn expressions_are_known()
    ensures { ExpressionsAreKnown }
{}
