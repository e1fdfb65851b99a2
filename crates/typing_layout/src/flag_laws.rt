//! Laws of type validation.
ghost use Rattle.typing_layout.specs.found.TreeLaws.{MoreCapabilities};

/// A larger set of capabilities accepts every type that a smaller one accepts.
pub fn more_capabilities()
    ensures { MoreCapabilities }
{}
