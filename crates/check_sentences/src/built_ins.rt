//! Built-in values as text.

use check_cause_texts::word_of;
use ir_kinds::BuiltIn;

/// The word for a built-in value.
pub(crate) fn built_in_word(value: &BuiltIn) -> &'static str {
    match *value {
        BuiltIn::Position { .. } => "Position",
        other => word_of(other),
    }
}
