//! The scan for the end of a frame, which goes on from where it stands when more octets have come
//! (X.690:2021, 8.1.3, 8.1.5).

ghost use Rattle.std.specs.Prelude.{◌≡◌, ◌<◌, ◌≤◌, ℕ, List, Err};
ghost use Rattle.z_ber.specs.Due.{Stands};
ghost use Rattle.z_ber.specs.FrameAnswer.{IsWholeAnswer, IsTooLarge};
ghost use Rattle.z_ber.specs.Scanning.{ended, moved, stop, IsProgress, IsScanned};

use crate::BerFault;
use crate::extent::step;
use crate::frame::{FRAME_MAX, definite_frame, is_small};
use crate::read::read_header;
use crate::step::Step;
use crate::wanting::least_to_come;
use z_types::MOST_LEVELS;

/// Where a scan stands in the octets of a frame: behind the first `passed` of them, where a header
/// is due, or an end of contents.
#[derive(Clone, Copy, Debug, PartialEq, Eq)]
pub struct Scan {
    passed: usize,
    opened: u32,
}

/// What a scan meets where it stands.
#[derive(Clone, Copy, Debug)]
pub enum Progress {
    /// It goes on from there.
    On(Scan),
    /// The frame ends: its number of octets.
    Found(usize),
}

/// A scan goes on behind an element, or into one, if the frame has room for the ends of what is open.
fn move_on(passed: usize, opened: u32) -> Result<Progress, BerFault>
    ensures { result ≡ moved passed opened }
{
    if is_small(passed as u64, 2 * u64::from(opened)) {
        Ok(Progress::On(Scan { passed, opened }))
    } else {
        Err(BerFault::TooLarge(FRAME_MAX + 1))
    }
}

/// An element ends, and with the outermost the frame.
fn end_element(passed: usize, opened: u32) -> Progress
    requires { 0 < opened }
    ensures { result ≡ ended passed opened }
{
    if opened == 1 {
        Progress::Found(passed)
    } else {
        Progress::On(Scan {
            passed,
            opened: opened - 1,
        })
    }
}

/// Why a scan goes no further: the fault that it meets, or no room for the octets that are wanting.
fn stop(come: usize, opened: u32, rest: &[u8], fault: BerFault) -> BerFault
    ensures { result ≡ stop come opened rest.now fault }
{
    match fault {
        BerFault::Short => {
            if is_small(come as u64, least_to_come(opened, rest)) {
                BerFault::Short
            } else {
                BerFault::TooLarge(FRAME_MAX + 1)
            }
        }
        _ => fault,
    }
}

/// Looks at what stands where a scan stands in an element of indefinite length.
fn look(scan: Scan, bytes: &[u8]) -> Result<Progress, BerFault>
    requires stands { Stands bytes.now scan.passed scan.opened }
    requires opened { 0 < scan.opened }
    ensures { IsProgress scan bytes.now result }
{
    let rest = &bytes[scan.passed..];
    match step(MOST_LEVELS - scan.opened, rest) {
        Ok((Step::End, after)) => Ok(end_element(bytes.len() - after.len(), scan.opened)),
        Ok((Step::Whole, after)) => move_on(bytes.len() - after.len(), scan.opened),
        Ok((Step::Open, after)) => move_on(bytes.len() - after.len(), scan.opened + 1),
        Err(fault) => Err(stop(bytes.len(), scan.opened, rest, fault)),
    }
}

/// Scans on to the end of the outermost element.
fn close(start: Scan, bytes: &[u8]) -> (Scan, Result<usize, BerFault>)
    requires stands { Stands bytes.now start.passed start.opened }
    requires opened { 0 < start.opened }
    ensures { IsScanned start bytes.now result.0 result.1 }
{
    let mut scan = start;
    loop {
        match look(scan, bytes) {
            Ok(Progress::On(next)) => scan = next,
            Ok(Progress::Found(size)) => return (scan, Ok(size)),
            Err(fault) => return (scan, Err(fault)),
        }
    }
}

impl Scan {
    /// The scan that stands in front of a frame, whatever its octets are.
    pub const fn start() -> Scan
        ensures stands { (bytes : List ℕ) → Stands bytes result.passed result.opened }
        ensures passed { result.passed ≡ 0 }
        ensures opened { result.opened ≡ 0 }
    {
        Scan {
            passed: 0,
            opened: 0,
        }
    }

    /// The size of the frame that octets begin with, in which the scan stands; where they are open it
    /// then stands further on in them.
    pub fn whole(&mut self, bytes: &[u8]) -> Result<usize, BerFault>
        requires { Stands bytes.now self.old.passed self.old.opened }
        ensures answer { IsWholeAnswer bytes.now result }
        ensures stands { Stands bytes.now self.new.passed self.new.opened }
        ensures on { self.old.passed ≤ self.new.passed }
    {
        if self.opened == 0 {
            match read_header(bytes) {
                Ok((_, None, body)) => {
                    self.passed = bytes.len() - body.len();
                    self.opened = 1;
                }
                Ok((_, Some(_), _)) => return definite_frame(bytes),
                Err(_) => return definite_frame(bytes),
            }
        }
        let (scan, answer) = close(*self, bytes);
        *self = scan;
        answer
    }
}

/// The size of the frame that octets begin with: an element of definite length, whatever its
/// contents are, or one of indefinite length with the frames in it.
pub fn whole(bytes: &[u8]) -> Result<usize, BerFault>
    ensures answer { IsWholeAnswer bytes.now result }
    ensures large { (n : ℕ) → IsTooLarge bytes.now n → result ≡ Err (BerFault.TooLarge n) }
{
    Scan::start().whole(bytes)
}
