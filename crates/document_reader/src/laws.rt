// Laws of documents: they are unique, and their types are distinct.
ghost use Rattle.std.specs.Prelude.{List, ℕ};
ghost use Rattle.document_reader.specs.judged.Distinct.{AreDistinct};
ghost use Rattle.document_reader.specs.judged.Plain.{PlainDocument};
ghost use Rattle.document_reader.specs.judged.Form.{OneDocument, Reads};

/// Bytes encode at most one document.
pub fn one_document()
    ensures { OneDocument }
{}

/// The types of a document are distinct, so that a type's index in the list is its handle.
pub fn distinct_types()
    ensures { (bytes : List ℕ) (d : PlainDocument) → Reads bytes d → AreDistinct d.content.types }
{}
