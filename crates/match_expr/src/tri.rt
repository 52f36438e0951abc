ghost use Rattle.std.specs.Prelude.{◌≡◌};
ghost use Rattle.std.specs.List.{list_any};
ghost use Rattle.match_expr.specs.Truth.{all_of, is_maybe, is_no};

/// What is known of a match: that it doesn't hold, nothing, or that it holds.
#[derive(Clone, Copy, Debug, PartialEq, Eq)]
pub enum Tri {
    /// It doesn't hold.
    No,
    /// It may hold.
    Maybe,
    /// It holds.
    Yes,
}

/// What is known of a match that holds where all of these parts hold.
///
/// The answer is `No` where a part is `No`, else `Maybe` where a part is `Maybe`, else `Yes`.
pub fn tri_all(parts: &[Tri]) -> Tri
    ensures { result ≡ all_of parts.now }
{
    if any_no(parts) {
        Tri::No
    } else if any_maybe(parts) {
        Tri::Maybe
    } else {
        Tri::Yes
    }
}

fn any_no(parts: &[Tri]) -> bool
    ensures { result ≡ list_any is_no parts.now }
{
    parts.iter().any(|part| *part == Tri::No)
}

fn any_maybe(parts: &[Tri]) -> bool
    ensures { result ≡ list_any is_maybe parts.now }
{
    parts.iter().any(|part| *part == Tri::Maybe)
}
