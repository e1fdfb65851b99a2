//! Laws of types, forms, layouts, expression kinds and overload sets, for all values.

pub use spec_expressions::call_laws::{by_calls, joined_by_callees, joined_is_summary};
pub use spec_expressions::laws::{
    equivalent_operands_decide, faulty_has_none, one_type, operands_decide,
};
pub use typing_forms::laws::form_equality;
pub use typing_forms::rule_laws::{
    canonical_once, compare_reflexive, compare_symmetric, compare_transitive,
};
pub use typing_layout::laws::{layouts_stay, one_kind, one_layout};
pub use typing_layout::tree_laws::{rounded_is_least, size_of_tree, tree_by_trees, trees_stay};
pub use typing_rules::laws::{argument_counts, arguments_filter, preferred_is_best};
pub use typing_rules::set_laws::{members_by_bits, named_sets, ones_of_a_number};
