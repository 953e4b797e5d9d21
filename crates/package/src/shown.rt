//! What a Search shows of what it found (ANSI/NISO Z39.50-2003, 3.2.2).

ghost use Rattle.std.specs.Prelude.{◌≡◌, if◌then◌else◌, nat_le};
ghost use Rattle.std.specs.Option.{option_copied};

use z_types::Text;

/// The element set name of what a Search of `all` hits shows (ANSI/NISO Z39.50-2003, 3.2.2).
pub(crate) fn element_shown<'a>(
    all: u32,
    small: u32,
    small_element: &'a Option<Text>,
    medium_element: &'a Option<Text>,
) -> Option<&'a Text>
    ensures { option_copied result ≡
        (if nat_le all small then small_element.now else medium_element.now) }
{
    if all <= small {
        small_element.as_ref()
    } else {
        medium_element.as_ref()
    }
}
