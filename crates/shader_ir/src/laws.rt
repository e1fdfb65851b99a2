//! Laws of handles, spans, types and completed bodies.

pub use ir_arena::laws::{handle_laws, subsume_laws};
pub use ir_flags::laws::{all_words, compute_like, within};
pub use ir_items::emitter_laws::ranges_partition;
pub use ir_items::laws::{
    always_in_step, completed_by_tails, completed_once, kept_equality, one_completed,
    one_flattening, one_origin, one_returned, one_severity, returned_by_bodies,
    spans_completed_by_tails,
};
pub use ir_kinds::laws::{scalar_constants, vector_constants};
pub use ir_types::laws::type_equality;
