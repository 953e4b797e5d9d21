//! The mark of what came of a work, and its diagnostic (this project's own).

ghost use Rattle.std.specs.Prelude.{◌≡◌, IfOk};
ghost use Rattle.gateway_rules.specs.Marks as marks;
ghost use Rattle.gateway_rules.specs.Works as works;

use std::alloc::Global;
use z_types::{Condition, Diag, Mark, Memory, Outcome, Text};

/// The diagnostic that a mark gives in place of the targets' answer: none for `Plain`; for `Link` the
/// class whose leg failed is its addinfo. Only want of memory fails.
pub fn marked_diag(alloc: Global, mark: Mark, class: Text) -> Result<Option<Diag>, Memory>
    ensures { IfOk result (λ diag. diag ≡ marks.marked_diag mark class) }
{
    let (condition, addinfo) = match mark {
        Mark::Plain => return Ok(None),
        Mark::Link => (Condition::DatabaseUnavailable, class),
        Mark::Silent(_) => (
            Condition::TemporarySystemError,
            Text::copy_of(alloc, b"patience")?,
        ),
        Mark::Gone => (Condition::ResultSetNoLongerExists, Text::new(alloc)),
        Mark::Full(_) => (
            Condition::TemporarySystemError,
            Text::copy_of(alloc, b"sessions")?,
        ),
    };
    Ok(Some(Diag::bib1(alloc, condition, addinfo)?))
}

/// The mark of what came of a work: `Plain` unless a leg was marked.
pub fn mark_of(outcome: &Outcome) -> Mark
    ensures { result ≡ works.mark_of outcome.now }
{
    match outcome {
        Outcome::Marked { mark, .. } => *mark,
        _ => Mark::Plain,
    }
}
