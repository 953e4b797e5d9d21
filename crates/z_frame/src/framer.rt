//! The framer: it keeps the octets that have not been handed out, and where the scan stands in them.

ghost use Rattle.std.specs.Prelude.{◌≡◌, [], length, OnOk, OnErr};
ghost use Rattle.z_ber.specs.Header.{IsBadFor};
ghost use Rattle.z_ber.specs.Frames.{IsFrame};
ghost use Rattle.z_ber.specs.Due.{Stands};
ghost use Rattle.z_frame.specs.Framing.{nothing_yet, with_piece, IsRefusal, IsFound, IsNext, IsLentAt, HasTaken, TakesPiece, TakesNext};

use bytes::BytesMut;
use std::alloc::Global;
use std::marker::Model;
use z_ber::{BerFault, Scan, stands_on, too_large};
use z_types::Memory;

/// What a stream goes on with. Offsets are counted from its first octet, from 0.
#[derive(Clone, Copy, Debug, PartialEq, Eq)]
pub enum Framed {
    /// The next unit, from the first offset up to the second.
    Unit(u64, u64),
    /// No whole unit, but more octets can make one.
    NeedMore,
    /// A definite header with which the unit would be larger than 1048576 octets: its number of
    /// contents octets.
    TooLarge(u64),
    /// No octets can make a unit of what begins at this offset.
    Bad(u64),
}

/// Cuts a stream into its units, in whatever pieces it comes. After `TooLarge` or `Bad` each answer is
/// that one.
#[derive(Drop)]
pub struct Framer {
    buffer: BytesMut<Global>,
    start: u64,
    end: u64,
    given: usize,
    scan: Scan,
    refused: Option<Framed>,
}

impl Model for Framer {
    ghost use Rattle.z_frame.specs.Framing.{Framing, framing, IsKept};

    ghost Value = { Framing };

    ghost view = { λ f. framing f.start f.given f.end f.buffer.items f.refused };

    ghost invariant = { λ f. IsKept f.given f.buffer.items f.scan f.refused };
}

/// The size of the unit that octets at an offset begin with, if it is whole, or why none can come.
fn find(scan: &mut Scan, rest: &[u8], at: u64) -> Result<Option<usize>, Framed>
    requires { Stands rest.now scan.old.passed scan.old.opened }
    ensures stands { Stands rest.now scan.new.passed scan.new.opened }
    ensures found { IsFound rest.now at result }
{
    match scan.whole(rest) {
        Ok(size) => Ok(Some(size)),
        Err(BerFault::Short) => Ok(None),
        Err(_) => Err(refusal(rest, at)),
    }
}

/// Why octets at an offset begin with no unit, however they go on.
fn refusal(rest: &[u8], at: u64) -> Framed
    requires { IsBadFor IsFrame rest.now }
    ensures { IsRefusal rest.now at result }
{
    match too_large(rest) {
        Some(len) => Framed::TooLarge(len),
        None => Framed::Bad(at),
    }
}

impl Framer {
    /// The framer of a stream of which nothing has come.
    pub fn new(alloc: Global) -> Framer
        ensures nothing { result ≡ nothing_yet }
        ensures stream { HasTaken [] [] result }
    {
        Framer {
            buffer: BytesMut::new(alloc),
            start: 0,
            end: 0,
            given: 0,
            scan: Scan::start(),
            refused: None,
        }
    }

    /// Puts the next piece of the stream at the end; without memory nothing is changed.
    pub fn feed(&mut self, piece: &[u8]) -> Result<(), Memory>
        ensures ok { OnOk result (self.new ≡ with_piece self.old piece.now) }
        ensures err { OnErr result (self.new ≡ self.old) }
        ensures stream { OnOk result (TakesPiece self.old self.new piece.now) }
    {
        stands_on();
        self.buffer.extend_from_slice(piece)?;
        Ok(())
    }

    /// What the stream goes on with behind the units that were handed out. The unit that was given
    /// last is dropped.
    pub fn next(&mut self) -> Framed
        ensures next { IsNext self.old self.new result }
        ensures lent { IsLentAt self.new result }
        ensures stream { TakesNext self.old self.new result }
    {
        self.buffer.advance(self.given);
        self.given = 0;
        self.start = self.end;
        if let Some(refusal) = self.refused {
            return refusal;
        }
        match find(&mut self.scan, self.buffer.as_slice(), self.end) {
            Ok(Some(size)) => {
                self.given = size;
                self.end = self.start.saturating_add(size as u64);
                self.scan = Scan::start();
                Framed::Unit(self.start, self.end)
            }
            Ok(None) => Framed::NeedMore,
            Err(refusal) => {
                self.refused = Some(refusal);
                refusal
            }
        }
    }

    /// Lends the unit that was given last.
    pub fn unit(&self, start: u64, end: u64) -> &[u8]
        requires start { start ≡ self.now.start }
        requires end { end ≡ self.now.end }
        ensures { result.now ≡ self.now.unit }
    {
        &self.buffer.as_slice()[..self.given]
    }

    /// Lends the octets behind the unit that was given last.
    pub fn rest(&self) -> &[u8]
        ensures { result.now ≡ self.now.rest }
    {
        &self.buffer.as_slice()[self.given..]
    }

    /// How many octets stand behind the unit that was given last.
    pub fn rest_len(&self) -> usize
        ensures { result ≡ length self.now.rest }
    {
        self.rest().len()
    }

    /// The offset of the octets behind the unit that was given last.
    pub fn offset(&self) -> u64
        ensures { result ≡ self.now.end }
    {
        self.end
    }
}
