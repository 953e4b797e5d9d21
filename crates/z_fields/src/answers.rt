//! What reading a field answers, and two fields of a unit, read one after the other (this project's
//! own).

ghost use Rattle.std.specs.Prelude.{◌≡◌};
ghost use Rattle.unit_forms.specs.declared.refusal.Refusal.TheVariants as rule;
ghost use Rattle.z_fields.specs.declared.answers.FieldFault.TheVariants as fault;
ghost use Rattle.z_fields.specs.Answers.{both_answers};

use unit_forms::{Refusal, first_refusal};
use z_types::Memory;

/// Why a field is not read.
#[derive(Clone, Copy, Debug, PartialEq, Eq)]
pub enum FieldFault {
    /// It breaks this rule, or a field in it does.
    Refused(Refusal),
    /// No memory could be had.
    Memory,
}

impl From<Memory> for FieldFault {
    ghost from_gives = { λ _ e. e ≡ fault.Memory };

    fn from(_: Memory) -> FieldFault {
        FieldFault::Memory
    }
}

impl FieldFault {
    /// No unit that is known has this number.
    #[inline(always)]
    pub fn unknown_unit(number: u32) -> FieldFault
        ensures { result ≡ fault.Refused (rule.UnknownUnit number) }
    {
        FieldFault::Refused(Refusal::UnknownUnit(number))
    }

    /// The field of this number has to be there and is not.
    #[inline(always)]
    pub fn missing(number: u32) -> FieldFault
        ensures { result ≡ fault.Refused (rule.Missing number) }
    {
        FieldFault::Refused(Refusal::Missing(number))
    }

    /// The form or the contents of the field of this number are not as its type is read.
    #[inline(always)]
    pub fn bad_value(number: u32) -> FieldFault
        ensures { result ≡ fault.Refused (rule.BadValue number) }
    {
        FieldFault::Refused(Refusal::BadValue(number))
    }

    /// The string of this number is in constructed form.
    #[inline(always)]
    pub fn left_out(number: u32) -> FieldFault
        ensures { result ≡ fault.Refused (rule.LeftOut number) }
    {
        FieldFault::Refused(Refusal::LeftOut(number))
    }
}

/// Both values; or want of memory, if one of the two has it; or else the refusal that is told.
#[inline(always)]
pub fn both<A: Drop, B: Drop>(
    first: Result<A, FieldFault>,
    second: Result<B, FieldFault>,
) -> Result<(A, B), FieldFault>
    ensures { result ≡ both_answers first second }
{
    match first {
        Ok(a) => match second {
            Ok(b) => Ok((a, b)),
            Err(fault) => Err(fault),
        },
        Err(FieldFault::Refused(refusal)) => match second {
            Ok(_) => Err(FieldFault::Refused(refusal)),
            Err(FieldFault::Refused(other)) => {
                Err(FieldFault::Refused(first_refusal(refusal, other)))
            }
            Err(FieldFault::Memory) => Err(FieldFault::Memory),
        },
        Err(FieldFault::Memory) => Err(FieldFault::Memory),
    }
}
