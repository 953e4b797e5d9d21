//! What is printed of connections that were served.

ghost use Rattle.std.specs.Prelude.{◌≡◌, ◌≤◌, IfOk, length};
ghost use Rattle.serve_top.specs.Lines.{served_count, served_line};

use serve_cached::serve_threads::serve::Worker;
use std::alloc::Global;
use z_types::{Memory, Text};

/// The line of an accept that failed.
pub(crate) const ACCEPT_FAULT: &[u8] = b"accept fault\n";

/// How many connections are listed, of all workers.
pub(crate) fn listed<B, A, C>(workers: &Vec<Worker<B, A, C>>) -> u128
    requires few { length workers.now.items ≤ 64 }
    ensures { result ≡ served_count workers.now.items }
{
    served_count(workers.as_slice())
}

/// How many connections are listed, of all workers of a slice.
fn served_count<B, A, C>(workers: &[Worker<B, A, C>]) -> u128
    requires few { length workers.now ≤ 64 }
    ensures { result ≡ served_count workers.now }
{
    let mut count = 0;
    for worker in workers {
        count += u128::from(worker.served.len());
    }
    count
}

/// The line of so many connections that were served.
pub(crate) fn served_line(alloc: Global, number: u128) -> Result<Text, Memory>
    ensures { IfOk result (λ line. line ≡ served_line number) }
{
    let digits = format!(in alloc; "{number}")?;
    let mut line = Text::new(alloc);
    line.append(b"served ")?;
    line.append(digits.as_bytes())?;
    line.append(b"\n")?;
    Ok(line)
}
