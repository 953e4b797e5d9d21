//! A Search (ANSI/NISO Z39.50-2003, SearchRequest).

ghost use Rattle.std.specs.Prelude.{◌≡◌};
ghost use Rattle.unit_forms.specs.Tags as numbers;
ghost use Rattle.unit_forms.specs.Reading.Answers.{◌⊗◌};
ghost use Rattle.unit_forms.specs.Reading.Rows.{oid_of, required, optional, within};
ghost use Rattle.unit_forms.specs.Reading.Queries.{query_in};
ghost use Rattle.unit_forms.specs.Reading.SearchRequest.{name_in, with_names, bounds_in, named_in, wanted_in, as_search, search_in};
ghost use Rattle.z_fields.specs.Answers.{IsOrMemory};

use crate::element_names::optional_names;
use crate::lists::required_databases;
use crate::queries::query_in;
use std::alloc::Global;
use unit_forms::tags;
use z_fields::{
    FieldFault, Fields, both, context, optional_octets, optional_oid, required_flag,
    required_number, required_octets,
};
use z_types::{Asked, List, Oid, RpnQuery, Search, Text};

/// The referenceId, and the three bounds.
type Bounds = (Option<Text>, (u32, (u32, u32)));

/// The replace indicator, the result set's name and the databases.
type Named = (bool, (Text, List<Text>));

/// The element set names of a small and of a medium set, the syntax and the query.
type Wanted = (
    Option<Asked<Text>>,
    (Option<Asked<Text>>, (Option<Oid>, Asked<RpnQuery>)),
);

/// The parts of a Search.
type Parts = (Bounds, (Named, Wanted));

/// The referenceId and the bounds of a Search.
#[tactic(auto, using(z_fields::proofs::AnswerLemmas::rows), unfolding(unit_forms::specs::Reading::SearchRequest::bounds_in))]
fn bounds_in(alloc: Global, fields: &Fields<'_>) -> Result<Bounds, FieldFault>
    ensures { IsOrMemory (bounds_in fields.now) result }
{
    let ref_id = optional_octets(alloc, fields, tags::REFERENCE_ID);
    let small = required_number(fields, tags::SMALL_SET_UPPER_BOUND);
    let large = required_number(fields, tags::LARGE_SET_LOWER_BOUND);
    let medium = required_number(fields, tags::MEDIUM_SET_PRESENT_NUMBER);
    both(ref_id, both(small, both(large, medium)))
}

/// The result set and the databases of a Search.
#[tactic(auto, using(z_fields::proofs::AnswerLemmas::rows), unfolding(unit_forms::specs::Reading::SearchRequest::named_in))]
fn named_in(alloc: Global, fields: &Fields<'_>) -> Result<Named, FieldFault>
    ensures { IsOrMemory (named_in fields.now) result }
{
    let replace = required_flag(fields, tags::REPLACE_INDICATOR);
    let set_name = required_octets(alloc, fields, tags::RESULT_SET_NAME);
    let dbs = required_databases(alloc, fields, tags::DATABASE_NAMES);
    both(replace, both(set_name, dbs))
}

/// The query, which has to be there.
fn required_query(alloc: Global, fields: &Fields<'_>) -> Result<Asked<RpnQuery>, FieldFault>
    ensures { IsOrMemory (required numbers.query (within query_in) fields.now) result }
{
    match fields.first_of(&[context(tags::QUERY)]) {
        Some(field) => {
            if field.tag().constructed {
                query_in(alloc, field.elements())
            } else {
                Err(FieldFault::bad_value(field.tag().number))
            }
        }
        None => Err(FieldFault::missing(tags::QUERY)),
    }
}

/// The syntax of records that is preferred, where one is.
fn optional_syntax(alloc: Global, fields: &Fields<'_>) -> Result<Option<Oid>, FieldFault>
    ensures { IsOrMemory (optional numbers.preferred_record_syntax oid_of fields.now) result }
{
    optional_oid(alloc, fields, context(tags::PREFERRED_RECORD_SYNTAX))
}

/// The other fields of a Search.
#[tactic(auto, using(z_fields::proofs::AnswerLemmas::rows), unfolding(unit_forms::specs::Reading::SearchRequest::wanted_in))]
fn wanted_in(alloc: Global, fields: &Fields<'_>) -> Result<Wanted, FieldFault>
    ensures { IsOrMemory (wanted_in fields.now) result }
{
    let small = optional_names(alloc, fields, tags::SMALL_SET_ELEMENT_SET_NAMES);
    let medium = optional_names(alloc, fields, tags::MEDIUM_SET_ELEMENT_SET_NAMES);
    let syntax = optional_syntax(alloc, fields);
    let query = required_query(alloc, fields);
    both(small, both(medium, both(syntax, query)))
}

/// The query, or the diagnostic of element set names that are not served.
#[inline(always)]
fn with_names(names: Option<Asked<Text>>, query: Asked<RpnQuery>) -> (Option<Text>, Asked<RpnQuery>)
    ensures name { result.0 ≡ name_in names }
    ensures query { result.1 ≡ with_names names query }
{
    match names {
        Some(Asked::Good(name)) => (Some(name), query),
        Some(Asked::Bad(diag)) => match query {
            Asked::Good(_) => (None, Asked::Bad(diag)),
            Asked::Bad(first) => (None, Asked::Bad(first)),
        },
        None => (None, query),
    }
}

/// The Search of its fields.
fn as_search(parts: Parts) -> Search
    ensures { result ≡ as_search parts }
{
    let (bounds, (named, wanted)) = parts;
    let (ref_id, (small, (large, medium))) = bounds;
    let (replace, (set_name, dbs)) = named;
    let (small_names, (medium_names, (syntax, query))) = wanted;
    let (small_element, query) = with_names(small_names, query);
    let (medium_element, query) = with_names(medium_names, query);
    Search {
        ref_id,
        small,
        large,
        medium,
        replace,
        set_name,
        dbs,
        small_element,
        medium_element,
        syntax,
        query,
    }
}

/// The parts of the Search of these fields.
#[tactic(auto, using(z_fields::proofs::AnswerLemmas::rows))]
fn parts_in(alloc: Global, fields: &Fields<'_>) -> Result<Parts, FieldFault>
    ensures { IsOrMemory
        (bounds_in fields.now ⊗ named_in fields.now ⊗ wanted_in fields.now) result }
{
    let bounds = bounds_in(alloc, fields);
    let named = named_in(alloc, fields);
    let wanted = wanted_in(alloc, fields);
    both(bounds, both(named, wanted))
}

/// The Search of these fields.
#[tactic(auto, unfolding(unit_forms::specs::Reading::SearchRequest::search_in))]
pub fn search_in(alloc: Global, fields: &Fields<'_>) -> Result<Search, FieldFault>
    ensures { IsOrMemory (search_in fields.now) result }
{
    Ok(as_search(parts_in(alloc, fields)?))
}
