// Laws of the validation of bytes, and the guarantees for a valid module.
ghost use Rattle.std.specs.Prelude.{false, true};
ghost use Rattle.shader_check.specs.found.Fresh.{AnswersAreAlike};
ghost use Rattle.shader_check.specs.found.Reported.{ValidatedIsReported};
ghost use Rattle.shader_check.specs.judged.Theorem.{AcceptedTextsAreSound, OneText, SomeText, ReturnsDontShow};

pub use document_reader::laws::{distinct_types, one_document};
pub use function_modules::laws::{entry_depth_bound, made_for_accepted};
pub use judgement::module_laws::more_capabilities;
pub use judgement::report_laws::{named_are_reported, one_report, some_report};
pub use judgement_laws::accepted_laws::{
    answered_by_one, answered_by_one_in_entries, bindings_differ, calls_fall,
};
pub use judgement_report::laws::{accepted_is_laid, rows_are_leaves};
pub use judgement_report::{Leaf, buffer_leaves};

/// At most one text is expected for given bytes: every result for the same bytes is the same.
pub fn one_text()
    ensures { OneText }
{}

/// Some text is expected for any bytes (as a double negation). With [`one_text`] and classical logic, it is exactly one.
#[tactic(auto, using(crate::proofs::SomeText::some_text_lem))]
pub fn some_text()
    ensures { SomeText }
{}

/// The expected text for the bytes of a document without results is the text of that document, whether
/// it requests missing returns or not.
pub fn returns_dont_show()
    ensures { ReturnsDontShow }
{}

/// If the expected text for some bytes begins with `accepted`, all guarantees for a valid document hold.
pub fn accepted_texts_are_sound()
    ensures { AcceptedTextsAreSound }
{}

/// Whatever a validator validated before, even after out of memory, it answers as a fresh one with the same settings: the
/// contract of [`crate::Validator::validate`] depends on the settings alone, and for these no module is both valid and invalid,
/// nor invalid at two steps or two items.
pub fn validate_answers_as_fresh()
    ensures { AnswersAreAlike false }
{}

/// The same for [`crate::Validator::validate_resolved_overrides`].
pub fn validate_resolved_overrides_answers_as_fresh()
    ensures { AnswersAreAlike true }
{}

/// The `ModuleInfo` that [`crate::Validator::validate`] or [`crate::Validator::validate_resolved_overrides`] returns for
/// a valid module is what [`crate::report`] requires.
pub fn validated_is_reported()
    ensures { ValidatedIsReported }
{}
