//! The verdict on a file of cabling topology: the strict check of its image, and whether its objects
//! find space in a heap of four regions.
#![tactic(auto)]

mod placement;

ghost use Rattle.std.specs.Prelude.{◌≡◌, Some};
ghost use Rattle.verdict.specs.Line.{line_of};
ghost use Rattle.verdict.specs.Space.{Fits, WorkListSuffices, verdict_of};

use image::{Refusal, Summary};
use layout::Cabling;
use placement::Placement;
use std::fmt;

/// The longest image that is read, in bytes.
pub const LONGEST: usize = 8192;

/// What is said of an image.
//
// No `Result`: none of the four is an error to its caller, which prints each.
#[derive(Clone, Copy)]
pub enum Verdict {
    /// It has more than 8,192 bytes.
    TooLong,
    /// It has a fault.
    Faulty(Refusal),
    /// It has no fault, and its objects find no space.
    NoSpace,
    /// It has no fault, and its objects find space.
    Sound(Summary),
}

/// The verdict on an image of the cabling layout.
pub fn judge(bytes: &[u8]) -> Verdict
    ensures value { result ≡ verdict_of bytes.now }
    ensures fits { Fits result }
    ensures work_list { WorkListSuffices bytes.now }
{
    if bytes.len() > LONGEST {
        return Verdict::TooLong;
    }
    let mut placement = Placement::new();
    match image::visit::<Cabling, Placement>(bytes, &mut placement) {
        Ok(summary) if placement.space.is_some() => Verdict::Sound(summary),
        Ok(_) => Verdict::NoSpace,
        Err(refusal) => Verdict::Faulty(refusal),
    }
}

impl fmt::Display for Verdict {
    ghost output = { λ v. Some (line_of v) };

    fn fmt<W: fmt::Write>(&self, f: &mut fmt::Formatter<W>) -> fmt::Result {
        match *self {
            Verdict::TooLong => write!(f, "too long"),
            Verdict::Faulty(refusal) => {
                let number = u32::from(refusal.fault);
                let place = refusal.place;
                let object = refusal.object;
                write!(f, "refused {number} at {place} object {object}")
            }
            Verdict::NoSpace => write!(f, "refused 33 at 0 object 0"),
            Verdict::Sound(summary) => {
                let objects = summary.objects;
                let roots = summary.roots;
                let words = summary.words;
                write!(f, "ok {objects} objects {roots} roots {words} words")
            }
        }
    }
}
