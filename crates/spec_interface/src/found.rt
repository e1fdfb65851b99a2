//! Search results: none, exactly one, or several.

ghost use Rattle.std.specs.Prelude.{◌≡◌};
ghost use Rattle.spec_interface.specs.found.Found.{next};

/// The result of a search.
#[derive(Clone, Copy)]
pub(crate) enum Found<T> {
    /// None.
    Nothing,
    /// Exactly this one.
    One(T),
    /// Several.
    More,
}

/// The result after the next element, if it is a match.
pub(crate) fn next<T: Copy>(found: Found<T>, more: Option<T>) -> Found<T>
    ensures { result ≡ next found more }
{
    match (found, more) {
        (_, None) => found,
        (Found::Nothing, Some(one)) => Found::One(one),
        (Found::One(_) | Found::More, Some(_)) => Found::More,
    }
}
