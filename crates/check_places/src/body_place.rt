// The location of an error in a body, and its path.

ghost use Rattle.std.specs.Prelude.{◌≡◌, ◌++◌, IfOk, OnOk, map};
ghost use Rattle.check_places.specs.Placed.{body_path, clamped, path_to};

use check_paths::json_path;
use ir_places::Trail;
use std::alloc::{AllocError, Global};

/// The location of an error in a body.
#[derive(Clone, Copy)]
pub struct BodyPlace<'a> {
    /// Whether the body is that of an entry point.
    pub of_entry: bool,
    /// The index of the function or of the entry point.
    pub index: usize,
    /// The position in the body: a trail that is not lost.
    pub trail: &'a Trail,
}

/// An index as a step of a path, saturated at the maximum.
pub fn step(index: usize) -> u32
    ensures { result ≡ clamped index }
{
    match u32::try_from(index) {
        Ok(step) => step,
        Err(_) => u32::MAX,
    }
}

// Appends the path of the array of a body's statements.
fn push_body(path: &mut Vec<usize>, place: BodyPlace<'_>) -> Result<(), AllocError>
    ensures { OnOk result (path.new.items ≡ path.old.items ++ body_path place.exit.of_entry place.exit.index) }
{
    let list = if place.of_entry { 13 } else { 12 };
    path.push(list)?;
    path.push(place.index)?;
    if place.of_entry {
        path.push(6)?;
    }
    path.push(5).map_err(AllocError::from)
}

/// The indices as steps of a path. The error is out of memory.
pub(crate) fn steps_of(alloc: Global, indexes: &[usize]) -> Result<Vec<u32>, AllocError>
    ensures { IfOk result (λ path. path.items ≡ map clamped indexes.now) }
{
    let mut path = Vec::new(alloc);
    for index in indexes {
        path.push(step(*index))?;
    }
    Ok(path)
}

/// The path of a position in a body. The error is out of memory.
pub(crate) fn place_path(alloc: Global, place: BodyPlace<'_>) -> Result<Vec<u32>, AllocError>
    ensures { IfOk result (λ path. path.items ≡ path_to place.exit) }
{
    let mut indexes = Vec::new(alloc);
    push_body(&mut indexes, place)?;
    json_path(&mut indexes, place.trail)?;
    steps_of(alloc, &indexes)
}
