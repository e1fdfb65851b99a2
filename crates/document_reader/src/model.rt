// The decoded document.
ghost use Rattle.std.specs.Prelude.{◌≡◌, IfOk};
ghost use Rattle.ir_items.specs.found.Copies.{spanned_module};
ghost use Rattle.ir_items.specs.found.View.{module_view};
ghost use Rattle.document_reader.specs.found.View.{document_view};

use ir_flags::Settings;
use ir_items::Module;
use std::alloc::{AllocError, Global};

/// A decoded document. An item's index in its list is its handle.
#[derive(Debug)]
pub struct Document {
    /// The settings with which the module is to be validated.
    pub settings: Settings,
    /// Whether missing returns are added before the validation.
    pub returns: bool,
    /// The module.
    pub module: Module,
}

/// A copy of the document's module, with the same spans. The error is out of memory.
pub fn build_module(alloc: Global, document: &Document) -> Result<Module, AllocError>
    ensures content { IfOk result (λ m. module_view m ≡ (document_view document.now).content) }
    ensures spans { IfOk result (λ m. spanned_module m ≡ spanned_module document.now.«module») }
{
    document.module.clone(alloc)
}

// Explicit, so that the parts of a module are dropped by a call of this crate wherever a document is dropped.
impl Drop for Document {
    fn drop(self) {
        let Document {
            settings: _settings,
            returns: _returns,
            module: _module,
        } = self;
    }
}

impl Document {
    /// A copy of the document. The error is out of memory.
    pub fn clone(&self, alloc: Global) -> Result<Document, AllocError>
        ensures document { IfOk result (λ copy. document_view copy ≡ document_view self.now) }
        ensures spans { IfOk result (λ copy. spanned_module copy.«module» ≡ spanned_module self.now.«module») }
    {
        let module = build_module(alloc, self)?;
        Ok(Document {
            settings: self.settings,
            returns: self.returns,
            module,
        })
    }

    /// Moves the module out.
    pub fn into_module(self) -> Module
        ensures { result ≡ self.«module» }
    {
        let Document {
            settings: _,
            returns: _,
            module: own,
        } = self;
        own
    }
}
