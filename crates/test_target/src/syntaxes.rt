//! The record syntaxes of the test targets (ANSI/NISO Z39.50-2003, appendix REC).

ghost use Rattle.std.specs.Prelude.{◌≡◌, ◌<◌, ◌∷◌, ◌++◌, IfOk, OnOk, length, codes};
ghost use Rattle.std.specs.List.{flat_map};
ghost use Rattle.std.specs.Fmt.{decimal};
ghost use Rattle.std.specs.Option.{option_copied};
ghost use Rattle.z_types.specs.Bib1.{bib1};
ghost use Rattle.z_types.specs.declared.conditions.Condition.TheVariants.{RecordSyntaxNotSupported};
ghost use Rattle.gw_outside.specs.Targets.{AnswersAs};
ghost use Rattle.test_target.specs.Syntaxes.{syntax_in, in_syntax, dotted};

use gw_outside::TargetAnswer;
use std::alloc::Global;
use z_types::{Condition, Diag, Form, Item, Memory, Oid, Text};

/// XML (1.2.840.10003.5.109.10).
const XML: [u32; 7] = [1, 2, 840, 10003, 5, 109, 10];

/// SUTRS (1.2.840.10003.5.101).
const SUTRS: [u32; 6] = [1, 2, 840, 10003, 5, 101];

/// The identifier octet of a GeneralString (X.690:2021, 8.23: universal 27).
const GENERAL_STRING: u8 = 27;

/// A record syntax that the test targets have.
#[derive(Clone, Copy, PartialEq, Eq, Debug)]
pub(crate) enum Syntax {
    /// XML.
    Xml,
    /// SUTRS.
    Sutrs,
}

/// The syntax asked for, XML where there is none.
pub(crate) fn syntax_in(alloc: Global, asked: Option<&Oid>) -> TargetAnswer<Syntax>
    ensures { AnswersAs result (syntax_in (option_copied asked.entry)) }
{
    let Some(asked) = asked else {
        return TargetAnswer::Good(Syntax::Xml);
    };
    if asked.arcs() == XML.as_slice() {
        TargetAnswer::Good(Syntax::Xml)
    } else if asked.arcs() == SUTRS.as_slice() {
        TargetAnswer::Good(Syntax::Sutrs)
    } else {
        TargetAnswer::refused(not_supported(alloc, asked))
    }
}

/// The diagnostic of a syntax that the test targets do not have.
fn not_supported(alloc: Global, syntax: &Oid) -> Result<Diag, Memory>
    ensures { IfOk result (λ diag. diag ≡ bib1 RecordSyntaxNotSupported (dotted syntax.now)) }
{
    Diag::bib1(
        alloc,
        Condition::RecordSyntaxNotSupported,
        dotted_text(alloc, syntax.arcs())?,
    )
}

/// Numbers in decimal with full stops between them.
fn dotted_text(alloc: Global, arcs: &[u32]) -> Result<Text, Memory>
    ensures { IfOk result (λ text. text ≡ dotted arcs.now) }
{
    let [first, rest @ ..] = arcs else {
        return Ok(Text::new(alloc));
    };
    let mut text = Text::from_vec(format!(in alloc; "{first}")?.into_bytes());
    put_dotted(alloc, &mut text, rest)?;
    Ok(text)
}

/// Puts numbers in decimal behind a text, each behind a full stop.
fn put_dotted(alloc: Global, text: &mut Text, arcs: &[u32]) -> Result<(), Memory>
    ensures { OnOk result (text.new ≡ text.old ++ flat_map (λ arc. 46 ∷ decimal arc) arcs.now) }
{
    for arc in arcs {
        text.push(b'.')?;
        text.append(format!(in alloc; "{arc}")?.as_bytes())?;
    }
    Ok(())
}

/// A text as a record in a syntax.
pub(crate) fn in_syntax(alloc: Global, syntax: Syntax, text: &Text) -> Result<Item, Memory>
    requires { length text.now < 128 }
    ensures { IfOk result (λ item. item ≡ in_syntax syntax text.now) }
{
    match syntax {
        Syntax::Xml => Ok(Item::Record {
            syntax: Oid::copy_of(alloc, &XML)?,
            form: Form::Octets,
            bytes: in_element(alloc, text)?,
        }),
        Syntax::Sutrs => Ok(Item::Record {
            syntax: Oid::copy_of(alloc, &SUTRS)?,
            form: Form::Single,
            bytes: in_general_string(alloc, text)?,
        }),
    }
}

/// A text as an XML element.
fn in_element(alloc: Global, text: &Text) -> Result<Text, Memory>
    ensures { IfOk result (λ bytes. bytes ≡ codes "<r>" ++ text.now ++ codes "</r>") }
{
    let mut bytes = Text::copy_of(alloc, b"<r>")?;
    bytes.append(text.as_slice())?;
    bytes.append(b"</r>")?;
    Ok(bytes)
}

/// A text as a GeneralString, with a length of one octet.
fn in_general_string(alloc: Global, text: &Text) -> Result<Text, Memory>
    requires { length text.now < 128 }
    ensures { IfOk result (λ bytes. bytes ≡ 27 ∷ length text.now ∷ text.now) }
{
    let mut bytes = Text::copy_of(alloc, &[GENERAL_STRING, text.len() as u8])?;
    bytes.append(text.as_slice())?;
    Ok(bytes)
}
