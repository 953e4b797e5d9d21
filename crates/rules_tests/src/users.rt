//! Users and access rules of the smallest route, whom and what a rule is for, and the numbers of a cache.

use crate::parts::put_soundness;
use case_files::{Answer, NoAnswer, number_of};
use route_config::{RouteParts, Rule, User, is_for_database, is_for_user};
use std::alloc::Global;
use z_types::{List, Memory, Text};

/// Whether a call is one of these. Its answer is put at the end.
pub(crate) fn is_answered(
    alloc: Global,
    call: &str,
    words: &str,
    out: &mut Answer,
) -> Result<bool, NoAnswer> {
    match call {
        "with_user" => put_soundness(out, &with_user(alloc, words)?),
        "with_rule" => put_soundness(out, &with_rule(alloc, words)?),
        "with_cache" => put_soundness(out, &with_cache(alloc, words)?),
        "is_for_user" | "is_for_database" => put_match(out, call, words)?,
        _ => return Ok(false),
    }
    Ok(true)
}

/// Whether what a rule names, the first word, stands for the second.
fn put_match(out: &mut Answer, call: &str, words: &str) -> Result<(), NoAnswer> {
    let Some((named, one)) = words.split_once(' ') else {
        return Err(NoAnswer::Misspelt);
    };
    let (named, one) = (named.as_bytes(), one.as_bytes());
    let is_for = if call == "is_for_user" {
        is_for_user(named, one)
    } else {
        is_for_database(named, one)
    };
    out.print(&is_for);
    Ok(())
}

/// The parts of the smallest route with a user: its name and its password.
fn with_user(alloc: Global, words: &str) -> Result<RouteParts, NoAnswer> {
    let Some((name, password)) = words.split_once(' ') else {
        return Err(NoAnswer::Misspelt);
    };
    let mut parts = RouteParts::smallest(alloc)?;
    parts.users.push(user(alloc, name, password)?)?;
    Ok(parts)
}

/// The parts of the smallest route with the user `ann` and a rule: its name, its user and its databases.
fn with_rule(alloc: Global, words: &str) -> Result<RouteParts, NoAnswer> {
    let Some((name, words)) = words.split_once(' ') else {
        return Err(NoAnswer::Misspelt);
    };
    let Some((named, databases)) = words.split_once(':') else {
        return Err(NoAnswer::Misspelt);
    };
    let mut parts = with_user(alloc, "ann pw")?;
    parts.rules.push(Rule {
        name: Text::copy_of(alloc, name.as_bytes())?,
        allow: true,
        user: Text::copy_of(alloc, named.as_bytes())?,
        databases: texts_of(alloc, databases)?,
    })?;
    Ok(parts)
}

/// The parts of the smallest route with other numbers of a cache: of records, and of octets of each.
fn with_cache(alloc: Global, words: &str) -> Result<RouteParts, NoAnswer> {
    let Some((records, record_bytes)) = words.split_once(' ') else {
        return Err(NoAnswer::Misspelt);
    };
    let mut parts = RouteParts::smallest(alloc)?;
    parts.cache_records = number_of(records)?;
    parts.cache_record_bytes = number_of(record_bytes)?;
    Ok(parts)
}

fn user(alloc: Global, name: &str, password: &str) -> Result<User, Memory> {
    Ok(User {
        name: Text::copy_of(alloc, name.as_bytes())?,
        password: Text::copy_of(alloc, password.as_bytes())?,
    })
}

/// Texts, white space between each two.
fn texts_of(alloc: Global, words: &str) -> Result<List<Text>, Memory> {
    let mut texts = List::new(alloc);
    for word in words.split_ascii_whitespace() {
        texts.push(Text::copy_of(alloc, word.as_bytes())?)?;
    }
    Ok(texts)
}
