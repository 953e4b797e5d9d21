//! How a connection has ended.

ghost use Rattle.front_conn.specs.steps.Answering.{IsEndAfter};

use crate::Stepped;
use z_types::{End, Memory};

/// How a connection stands behind what was done: without memory it has ended so.
pub(crate) fn end_step(end: &mut Option<End>, done: Result<Option<End>, Memory>) -> Stepped
    ensures { IsEndAfter done end.new result }
{
    match done {
        Ok(ended) => {
            *end = ended;
            Stepped::Went
        }
        Err(_) => {
            *end = Some(End::Memory);
            Stepped::Memory
        }
    }
}
