//! Why a unit is not read, though it is an element (this project's own).

ghost use Rattle.std.specs.Prelude.{◌≡◌};
ghost use Rattle.unit_forms.specs.Reading.Answers.{first_refusal};

/// A rule that a unit breaks, with the number of the tag that breaks it.
#[derive(Clone, Copy, Debug, PartialEq, Eq)]
pub enum Refusal {
    /// The unit is none that is known.
    UnknownUnit(u32),
    /// A field that has to be there is not.
    Missing(u32),
    /// A field's form or contents are not as its type is read.
    BadValue(u32),
    /// A string in constructed form.
    LeftOut(u32),
}

impl Refusal {
    ghost use Rattle.unit_forms.specs.Reading.Answers.{rank};

    /// The refusal's place in the order of refusals, where octets that are no element have 1.
    pub fn number(&self) -> u32
        ensures { result ≡ rank self.now }
    {
        match self {
            Refusal::UnknownUnit(_) => 2,
            Refusal::Missing(_) => 3,
            Refusal::BadValue(_) => 4,
            Refusal::LeftOut(_) => 5,
        }
    }
}

/// The refusal that is told, of two in the order of the table.
pub fn first_refusal(first: Refusal, second: Refusal) -> Refusal
    ensures { result ≡ first_refusal first second }
{
    if first.number() <= second.number() {
        first
    } else {
        second
    }
}
