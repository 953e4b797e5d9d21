//! An Init, and the fields of its answer (ANSI/NISO Z39.50-2003, InitializeRequest, InitializeResponse).

ghost use Rattle.std.specs.Prelude.{◌≡◌};
ghost use Rattle.unit_forms.specs.Reading.InitRequest.{as_init, init_in, login_in, login_of, shared_in};
ghost use Rattle.z_fields.specs.Answers.{IsOrMemory};

use std::alloc::Global;
use unit_forms::tags;
use z_fields::{
    Field, FieldFault, Fields, both, context, optional_octets, required_bits, required_number,
};
use z_types::{Init, MOST_LOGIN_OCTETS, Text};

/// The referenceId, the versions, the options, and the preferred and the exceptional size.
pub type Shared = (Option<Text>, (u32, (u32, (u32, u32))));

/// The fields that an Init and its answer share.
#[tactic(auto, using(z_fields::proofs::AnswerLemmas::rows), unfolding(unit_forms::specs::Reading::InitRequest::shared_in))]
pub fn shared_in(alloc: Global, fields: &Fields<'_>) -> Result<Shared, FieldFault>
    ensures { IsOrMemory (shared_in fields.now) result }
{
    let ref_id = optional_octets(alloc, fields, tags::REFERENCE_ID);
    let versions = required_bits(fields, tags::PROTOCOL_VERSION);
    let options = required_bits(fields, tags::OPTIONS);
    let preferred = required_number(fields, tags::PREFERRED_MESSAGE_SIZE);
    let exceptional = required_number(fields, tags::EXCEPTIONAL_RECORD_SIZE);
    both(
        ref_id,
        both(versions, both(options, both(preferred, exceptional))),
    )
}

/// The contents octets of idAuthentication, as they stand, where they are not too many.
fn login_of(alloc: Global, field: &Field<'_>) -> Result<Text, FieldFault>
    ensures { IsOrMemory (login_of field.now) result }
{
    let contents = field.contents();
    if contents.len() > MOST_LOGIN_OCTETS {
        return Err(FieldFault::bad_value(field.tag().number));
    }
    Ok(Text::copy_of(alloc, contents)?)
}

/// The login of an Init, where it has one.
#[tactic(auto, unfolding(unit_forms::specs::Reading::InitRequest::login_in))]
fn login_in(alloc: Global, fields: &Fields<'_>) -> Result<Option<Text>, FieldFault>
    ensures { IsOrMemory (login_in fields.now) result }
{
    match fields
        .elements()
        .first_constructed(context(tags::ID_AUTHENTICATION))
    {
        Some(field) => Ok(Some(login_of(alloc, &field)?)),
        None => Ok(None),
    }
}

/// An Init with these fields and this login.
pub fn as_init(shared: Shared, login: Option<Text>) -> Init
    ensures { result ≡ as_init (shared, login) }
{
    let (ref_id, (versions, (options, (preferred, exceptional)))) = shared;
    Init {
        ref_id,
        versions,
        options,
        preferred,
        exceptional,
        login,
    }
}

/// The Init of these fields.
#[tactic(auto, using(z_fields::proofs::AnswerLemmas::rows), unfolding(unit_forms::specs::Reading::InitRequest::init_in))]
pub fn init_in(alloc: Global, fields: &Fields<'_>) -> Result<Init, FieldFault>
    ensures { IsOrMemory (init_in fields.now) result }
{
    let shared = shared_in(alloc, fields);
    let login = login_in(alloc, fields);
    let (shared, login) = both(shared, login)?;
    Ok(as_init(shared, login))
}
