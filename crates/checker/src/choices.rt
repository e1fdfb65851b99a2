// Validation options for SPIR-V.

use document_words::{SetWord, Word, find_word};
use ir_flags::{Capabilities, Settings, ValidationFlags};
use std::alloc::{AllocError, Global};
use std::fmt::{self, Display};

/// The options for validating SPIR-V modules.
#[derive(Clone, Copy)]
pub struct Choices {
    /// The checks that are skipped.
    pub without: ValidationFlags,
    /// The enabled capabilities, in place of those that the module declares.
    pub capabilities: Option<Capabilities>,
}

// The union of flags by comma-separated words, if each names a flag.
fn set_of<S: SetWord>(words: &str) -> Option<S> {
    let mut all = S::none();
    for word in words.split(',') {
        all = all.with(find_word::<S>(word)?);
    }
    Some(all)
}

impl Choices {
    /// The default options: all six checks, and the capabilities that the module declares.
    pub const NONE: Choices = Choices {
        without: ValidationFlags(0),
        capabilities: None,
    };

    /// Skips the checks in this comma-separated list. Returns whether each word names a check.
    pub fn leave_out(&mut self, words: &str) -> bool {
        match set_of::<ValidationFlags>(words) {
            Some(flags) => {
                self.without = self.without.with(flags);
                true
            }
            None => false,
        }
    }

    /// Enables the capabilities in this comma-separated list instead. Returns whether each word names a capability.
    pub fn allow(&mut self, words: &str) -> bool {
        match set_of::<Capabilities>(words) {
            Some(capabilities) => {
                self.capabilities = Some(capabilities);
                true
            }
            None => false,
        }
    }

    /// Whether a check is skipped.
    pub fn leaves_out(&self) -> bool {
        self.without.0 != 0
    }

    /// Whether the options are the default.
    pub fn is_none(&self) -> bool {
        !self.leaves_out() && self.capabilities.is_none()
    }

    /// Applies the options to the settings of a document.
    pub fn apply(&self, settings: &mut Settings) {
        settings.flags = ValidationFlags(settings.flags.0 & !self.without.0);
        if let Some(capabilities) = self.capabilities {
            settings.capabilities = capabilities;
        }
    }

    /// The words of the skipped checks. The error is out of memory.
    pub fn left_out(&self, alloc: Global) -> Result<Vec<&'static str>, AllocError> {
        let mut words = Vec::new(alloc);
        for entry in ValidationFlags::table() {
            if self.without.0 & (entry.1).0 != 0 {
                words.push(entry.0)?;
            }
        }
        Ok(words)
    }
}

// The skipped checks, by their words.
impl Display for Choices {
    fn fmt<W: fmt::Write>(&self, f: &mut fmt::Formatter<W>) -> fmt::Result {
        let mut rest = self.without.0;
        for entry in ValidationFlags::table() {
            let bit = (entry.1).0;
            if rest & bit != 0 {
                rest = rest & !bit;
                let comma = if rest == 0 { "" } else { "," };
                write!(f, "{}{comma}", entry.0)?;
            }
        }
        Ok(())
    }
}
