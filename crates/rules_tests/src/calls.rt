//! The calls that the cases name.

use crate::{cuts, databases, inits, laws, limits, memory, merged, parts, users};
use case_files::{Answer, Answers, NoAnswer};
use std::alloc::Global;

pub(crate) struct Calls;

impl Answers for Calls {
    fn answer(
        &self,
        alloc: Global,
        call: &str,
        subject: &str,
        out: &mut Answer,
    ) -> Result<(), NoAnswer> {
        if merged::is_answered(alloc, call, subject, out)?
            || limits::is_answered(call, subject, out)?
            || databases::is_answered(alloc, call, subject, out)?
            || parts::is_answered(alloc, call, subject, out)?
            || users::is_answered(alloc, call, subject, out)?
            || inits::is_answered(alloc, call, subject, out)?
            || cuts::is_answered(alloc, call, subject, out)?
            || laws::is_answered(call, subject, out)?
            || memory::is_answered(alloc, call, subject, out)?
        {
            return Ok(());
        }
        Err(NoAnswer::Misspelt)
    }
}
