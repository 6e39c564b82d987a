ghost use Rattle.std.specs.Prelude.{◌≡◌, ◌<◌, ◌^◌, None};
ghost use Rattle.yaml_lines.specs.Found.{found_at};

/// What a byte says of a place that is looked for.
#[derive(Clone, Copy, Debug, PartialEq, Eq)]
pub enum Found {
    /// It is the place.
    Here,
    /// The place is the one behind it.
    Past,
    /// There is no such place.
    Nowhere,
    /// The place comes later.
    Later,
}

/// The place that the byte at `at` tells.
pub(crate) fn place_told(found: Found, at: usize) -> Option<usize>
    requires { at < 2 ^ 63 }
    ensures { result ≡ found_at at found None }
{
    match found {
        Found::Here => Some(at),
        Found::Past => Some(at + 1),
        Found::Nowhere => None,
        Found::Later => None,
    }
}
