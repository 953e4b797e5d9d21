//! The tag and the header of an element (X.690:2021, 8.1.2, 8.1.3).

ghost use Rattle.std.specs.Prelude.{◌≡◌, ◌^◌, ◌<◌, true, false};

/// Class, form and number (X.690, 8.1.2.2). A valid tag has a class from 0 to 3 and a number from 0
/// to 2147483647.
#[derive(Clone, Copy, Debug, PartialEq, Eq)]
pub struct Tag {
    /// 0 universal, 1 application, 2 context, 3 private.
    pub class: u8,
    /// Whether the contents are elements.
    pub constructed: bool,
    /// From 0 to 2147483647.
    pub number: u32,
}

impl Tag {
    ghost use Rattle.z_ber.specs.Written.{IsTag};

    /// A primitive tag of the universal class, such as 2 for INTEGER.
    pub const fn universal(number: u32) -> Tag
        requires { number < 2 ^ 31 }
        ensures value { result ≡ record { class = 0; constructed = false; number = number } }
        ensures valid { IsTag result }
        ensures form { result.constructed ≡ false }
    {
        Tag {
            class: 0,
            constructed: false,
            number,
        }
    }

    /// A primitive tag of the context class.
    pub const fn context(number: u32) -> Tag
        requires { number < 2 ^ 31 }
        ensures value { result ≡ record { class = 2; constructed = false; number = number } }
        ensures valid { IsTag result }
        ensures form { result.constructed ≡ false }
    {
        Tag {
            class: 2,
            constructed: false,
            number,
        }
    }

    /// A constructed tag of the context class.
    pub const fn constructed_context(number: u32) -> Tag
        requires { number < 2 ^ 31 }
        ensures value { result ≡ record { class = 2; constructed = true; number = number } }
        ensures valid { IsTag result }
        ensures form { result.constructed ≡ true }
    {
        Tag {
            class: 2,
            constructed: true,
            number,
        }
    }
}

/// A tag and a length (X.690, 8.1.2, 8.1.3).
#[derive(Clone, Copy, Debug, PartialEq, Eq)]
pub struct Header {
    /// The tag, valid.
    pub tag: Tag,
    /// How many octets the header takes itself.
    pub size: usize,
    /// How many octets the contents take; `None` for the indefinite form.
    pub length: Option<u64>,
}

/// An element in its written form at the front of octets (X.690, 10.1), lent.
#[derive(Clone, Copy, Debug)]
pub struct WrittenElement<'a> {
    /// The tag, valid.
    pub tag: Tag,
    /// The contents octets.
    pub contents: &'a [u8],
    /// What follows the element.
    pub rest: &'a [u8],
}
