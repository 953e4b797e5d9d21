//! The printed page of a report.

ghost use Rattle.std.specs.Prelude.{◌≡◌, ◌∷◌, ◌++◌, IfOk, OnOk, codes};
ghost use Rattle.std.specs.List.{flat_map};
ghost use Rattle.std.specs.Fmt.{decimal};
ghost use Rattle.replay.specs.Page.{page, class_line, hits_line, counts_text, client_lines, sums_line, requests, mark_text, marks_text, octets_text, end_text, line};

use crate::{ClassReport, ClientReport, Report};
use std::alloc::Global;
use z_types::{End, List, Mark, Memory, Text};

/// What is printed of a report: four lines for each client, a line for each class, one of the Presents that kept
/// records answered, where these are told, and a line of sums.
pub fn print(alloc: Global, report: &Report) -> Result<Text, Memory>
    ensures { IfOk result (λ text. text ≡ page report.now) }
{
    let mut out = Text::new(alloc);
    put_clients(alloc, &mut out, &report.clients)?;
    put_classes(alloc, &mut out, &report.classes)?;
    put_hits(alloc, &mut out, report.cache_hits)?;
    put_sums(alloc, &mut out, &report.clients)?;
    Ok(out)
}

/// The lines of each client.
fn put_clients(alloc: Global, out: &mut Text, clients: &List<ClientReport>) -> Result<(), Memory>
    ensures { OnOk result (out.new ≡ out.old ++ flat_map client_lines clients.now) }
{
    for client in clients.as_slice() {
        put_client(alloc, out, client)?;
    }
    Ok(())
}

/// The lines of one client.
#[tactic(auto, unfolding(crate::specs::Page::client_lines))]
fn put_client(alloc: Global, out: &mut Text, client: &ClientReport) -> Result<(), Memory>
    ensures { OnOk result (out.new ≡ out.old ++ client_lines client.now) }
{
    put_client_line(alloc, out, client.number)?;
    put_bytes_line(alloc, out, &client.bytes)?;
    put_marks_line(alloc, out, client.marks.as_slice())?;
    put_end_line(alloc, out, client.end)
}

/// The line of a client's number.
fn put_client_line(alloc: Global, out: &mut Text, number: u32) -> Result<(), Memory>
    ensures { OnOk result (out.new ≡ out.old ++ line (codes "client ") (decimal number)) }
{
    out.append(b"client ")?;
    put_number(alloc, out, u128::from(number))?;
    out.append(b"\n")
}

/// The line of what was written to a client.
fn put_bytes_line(alloc: Global, out: &mut Text, octets: &Text) -> Result<(), Memory>
    ensures { OnOk result (out.new ≡ out.old ++ line (codes "bytes ") (octets_text octets.now)) }
{
    out.append(b"bytes ")?;
    put_octets(alloc, out, octets)?;
    out.append(b"\n")
}

/// The line of a client's marks.
fn put_marks_line(alloc: Global, out: &mut Text, marks: &[Mark]) -> Result<(), Memory>
    ensures { OnOk result (out.new ≡ out.old ++ line (codes "marks ") (marks_text marks.now)) }
{
    out.append(b"marks ")?;
    put_marks(alloc, out, marks)?;
    out.append(b"\n")
}

/// The line of a client's end.
fn put_end_line(alloc: Global, out: &mut Text, end: End) -> Result<(), Memory>
    ensures { OnOk result (out.new ≡ out.old ++ line (codes "end ") (end_text end)) }
{
    out.append(b"end ")?;
    put_end(alloc, out, end)?;
    out.append(b"\n")
}

/// The line of each class.
fn put_classes(alloc: Global, out: &mut Text, classes: &List<ClassReport>) -> Result<(), Memory>
    ensures { OnOk result (out.new ≡ out.old ++ flat_map class_line classes.now) }
{
    for class in classes.as_slice() {
        put_class(alloc, out, class)?;
    }
    Ok(())
}

/// The line of one class.
#[tactic(auto, unfolding(crate::specs::Page::class_line))]
fn put_class(alloc: Global, out: &mut Text, class: &ClassReport) -> Result<(), Memory>
    ensures { OnOk result (out.new ≡ out.old ++ class_line class.now) }
{
    out.append(b"class ")?;
    out.append(class.name.as_slice())?;
    put_counts(alloc, out, class)
}

/// What was counted of a class, and the end of its line.
#[tactic(auto, unfolding(crate::specs::Page::counts_text))]
fn put_counts(alloc: Global, out: &mut Text, class: &ClassReport) -> Result<(), Memory>
    ensures { OnOk result (out.new ≡ out.old ++ counts_text class.now) }
{
    put_count(alloc, out, b" dials ", class.dials)?;
    put_count(alloc, out, b" searches ", class.searches)?;
    put_count(alloc, out, b" gones ", class.gones)?;
    put_count(alloc, out, b" faults ", class.faults)?;
    out.append(b"\n")
}

/// The line of the Presents that kept records answered, where these are told.
fn put_hits(alloc: Global, out: &mut Text, hits: Option<u64>) -> Result<(), Memory>
    ensures { OnOk result (out.new ≡ out.old ++ hits_line hits) }
{
    match hits {
        Some(hits) => {
            put_count(alloc, out, b"cache hits ", hits)?;
            out.append(b"\n")
        }
        None => Ok(()),
    }
}

/// A word, and a number in decimal.
fn put_count(alloc: Global, out: &mut Text, word: &[u8], number: u64) -> Result<(), Memory>
    ensures { OnOk result (out.new ≡ out.old ++ word.now ++ decimal number) }
{
    out.append(word)?;
    put_number(alloc, out, u128::from(number))
}

/// A number in decimal.
fn put_number(alloc: Global, out: &mut Text, number: u128) -> Result<(), Memory>
    ensures { OnOk result (out.new ≡ out.old ++ decimal number) }
{
    let text = format!(in alloc; "{number}")?;
    out.append(text.as_bytes())
}

/// Octets in hexadecimal, or a dash.
fn put_octets(alloc: Global, out: &mut Text, octets: &Text) -> Result<(), Memory>
    ensures { OnOk result (out.new ≡ out.old ++ octets_text octets.now) }
{
    if octets.is_empty() {
        return out.append(b"-");
    }
    let text = hex::encode(alloc, octets.as_slice())?;
    out.append(text.as_bytes())
}

/// Marks with a space between them, or a dash.
fn put_marks(alloc: Global, out: &mut Text, marks: &[Mark]) -> Result<(), Memory>
    ensures { OnOk result (out.new ≡ out.old ++ marks_text marks.now) }
{
    match marks {
        [] => out.append(b"-"),
        [first, others @ ..] => {
            put_mark(alloc, out, *first)?;
            put_other_marks(alloc, out, others)
        }
    }
}

/// Marks with a space before each.
fn put_other_marks(alloc: Global, out: &mut Text, marks: &[Mark]) -> Result<(), Memory>
    ensures { OnOk result (out.new ≡
        out.old ++ flat_map (λ other. 32 ∷ mark_text other) marks.now) }
{
    for mark in marks {
        out.append(b" ")?;
        put_mark(alloc, out, *mark)?;
    }
    Ok(())
}

/// A mark.
fn put_mark(alloc: Global, out: &mut Text, mark: Mark) -> Result<(), Memory>
    ensures { OnOk result (out.new ≡ out.old ++ mark_text mark) }
{
    match mark {
        Mark::Plain => out.append(b"Plain"),
        Mark::Link => out.append(b"Link"),
        Mark::Silent(looks) => {
            out.append(b"Silent:")?;
            put_number(alloc, out, u128::from(looks))
        }
        Mark::Gone => out.append(b"Gone"),
        Mark::Full(open) => {
            out.append(b"Full:")?;
            put_number(alloc, out, u128::from(open))
        }
    }
}

/// How a connection ended.
fn put_end(alloc: Global, out: &mut Text, end: End) -> Result<(), Memory>
    ensures { OnOk result (out.new ≡ out.old ++ end_text end) }
{
    match end {
        End::Closed => out.append(b"Closed"),
        End::Finished => out.append(b"Finished"),
        End::Malformed(at) => {
            out.append(b"Malformed ")?;
            put_number(alloc, out, u128::from(at))
        }
        End::Cut(left) => {
            out.append(b"Cut ")?;
            put_number(alloc, out, u128::from(left))
        }
        End::Limited => out.append(b"Limited"),
        End::ReadFault => out.append(b"ReadFault"),
        End::WriteFault => out.append(b"WriteFault"),
        End::Memory => out.append(b"Memory"),
    }
}

/// The line of sums.
#[tactic(auto, unfolding(crate::specs::Page::sums_line))]
fn put_sums(alloc: Global, out: &mut Text, clients: &List<ClientReport>) -> Result<(), Memory>
    ensures { OnOk result (out.new ≡ out.old ++ sums_line clients.now) }
{
    out.append(b"clients ")?;
    put_number(alloc, out, clients.len() as u128)?;
    out.append(b" requests ")?;
    put_number(alloc, out, requests(clients.as_slice()))?;
    out.append(b"\n")
}

/// How many marks there are.
fn requests(clients: &[ClientReport]) -> u128
    ensures { result ≡ requests clients.now }
{
    let mut count = 0;
    for client in clients {
        count += client.marks.len() as u128;
    }
    count
}
