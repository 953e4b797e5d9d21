//! How many records are shown with a Search.

ghost use Rattle.std.specs.Prelude.{◌≡◌, ◌≤◌};
ghost use Rattle.z_types.specs.Shown.{shown};

/// How many records a Search of `count` hits shows, by its small-set upper bound, its large-set lower
/// bound and its medium-set present number (ANSI/NISO Z39.50-2003, 3.2.2).
pub fn shown_count(count: u32, small: u32, large: u32, medium: u32) -> u32
    ensures shown { result ≡ shown count small large medium }
    ensures within { result ≤ count }
{
    if count <= small {
        count
    } else if large <= count {
        0
    } else {
        medium.min(count)
    }
}
