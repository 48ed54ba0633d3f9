ghost use Rattle.std.specs.Prelude.{◌≡◌, ◌≤◌, length, IfOk, MatchResult, Some};
ghost use Rattle.diagnostics.specs.Tells.{View, ToldAll};
ghost use Rattle.path.specs.Checks.{refusal_number, passes, refused, check_answer, check_rule};
ghost use Rattle.path.specs.Prohibits.{prohibited, Exactly};
ghost use Rattle.path.specs.Words.{refusal_words};

use crate::prohibited::tell_prohibited;
use crate::segments::{PathSegment, Resolution};
use diagnostics::list::ReportList;
use std::error::Error;
use std::fmt;

// Why a path was not checked: it has more than 16 segments; it has segments, and the remaining index is 0 or
// above their number; or the report list has less room than the path has segments.
#[derive(Clone, Copy, PartialEq, Eq, Debug)]
pub enum CheckRefusal {
    ManySegments,
    BadIndex,
    NoRoom,
}

impl From<CheckRefusal> for u32 {
    ghost from_gives = { λ refusal number. number ≡ refusal_number refusal };

    fn from(refusal: CheckRefusal) -> u32 {
        match refusal {
            CheckRefusal::ManySegments => 11,
            CheckRefusal::BadIndex => 12,
            CheckRefusal::NoRoom => 13,
        }
    }
}

impl fmt::Display for CheckRefusal {
    ghost output = { λ refusal. Some (refusal_words refusal) };

    fn fmt<W: fmt::Write>(&self, f: &mut fmt::Formatter<W>) -> fmt::Result {
        f.write_str(match self {
            CheckRefusal::ManySegments => "the path has more than 16 segments",
            CheckRefusal::BadIndex => "the path has no such segment",
            CheckRefusal::NoRoom => "there is no room for its reports",
        })
    }
}

impl Error for CheckRefusal {}

// A path that was checked, with its resolved segment. Only `check_path` makes one, and it can be neither copied
// nor cloned, so that what takes one by value is called once for each check.
#[derive(Drop)]
pub struct CheckedPath {
    segment: usize,
}

impl CheckedPath {
    pub fn segment(&self) -> usize
        ensures { result ≡ self.now.segment }
    {
        self.segment
    }
}

// The number of the resolved segment, 0 for an empty path.
fn resolved_segment(
    count: usize,
    remaining: Option<usize>,
    room: usize,
) -> Result<usize, CheckRefusal>
    ensures answered { MatchResult result (λ s. passes s ≡ check_rule count remaining room) (λ e. refused (refusal_number e) ≡ check_rule count remaining room) }
    ensures enough { IfOk result (λ _. count ≤ room) }
{
    if count > 16 {
        return Err(CheckRefusal::ManySegments);
    }
    if count == 0 {
        return Ok(0);
    }
    let index = remaining.unwrap_or(count);
    if index == 0 || index > count {
        return Err(CheckRefusal::BadIndex);
    }
    if room < count {
        return Err(CheckRefusal::NoRoom);
    }
    Ok(index - 1)
}

// Checks that no segment has a list that may have none. The resolved segment is the one before the remaining
// index, else the last, and those before it are modules. Tells the reports in the order of the segments; an empty
// list is a list. A refusal leaves the report list as it was.
pub fn check_path<R: ReportList>(
    segments: &[PathSegment],
    resolution: Resolution,
    reports: &mut R,
) -> Result<CheckedPath, CheckRefusal>
    ensures answered { check_answer result ≡ check_rule (length segments.now) resolution.remaining (R.ReportList.view reports.old).room }
    ensures left { MatchResult result
        (λ _. ToldAll (prohibited segments.now resolution) (R.ReportList.view reports.old) (R.ReportList.view reports.new))
        (λ _. reports.new ≡ reports.old) }
    ensures exact { Exactly segments.now resolution (prohibited segments.now resolution) }
{
    let segment = resolved_segment(segments.len(), resolution.remaining, reports.room())?;
    tell_prohibited(segments, segment, resolution.kind, reports);
    Ok(CheckedPath { segment })
}
