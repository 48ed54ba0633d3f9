ghost use Rattle.std.specs.Prelude.{◌≡◌, ◌<◌, ◌≤◌, ◌++◌, length, take, Some};
ghost use Rattle.diagnostics.specs.Tells.{View, ToldAll};
ghost use Rattle.path.specs.Prohibits.{list_at, reason_of, report_on, reports_on};

use crate::segments::{PathSegment, TypeNs};
use diagnostics::list::ReportList;
use diagnostics::reports::{GenericArgsProhibitedReason, PathLoweringDiagnostic};

// Why the resolved segment may have no list, if there is a reason.
fn reason_of(kind: TypeNs) -> Option<GenericArgsProhibitedReason>
    ensures { result ≡ reason_of kind }
{
    match kind {
        TypeNs::SelfType | TypeNs::AdtSelfType => Some(GenericArgsProhibitedReason::SelfTy),
        TypeNs::GenericParam => Some(GenericArgsProhibitedReason::TyParam),
        TypeNs::BuiltinType => Some(GenericArgsProhibitedReason::PrimitiveTy),
        TypeNs::Module => Some(GenericArgsProhibitedReason::Module),
        TypeNs::Adt | TypeNs::EnumVariant | TypeNs::TypeAlias | TypeNs::Trait => None,
    }
}

// Tells a report about segment `i`, if it has a list.
fn tell_list<R: ReportList>(
    segment: PathSegment,
    i: u32,
    reason: GenericArgsProhibitedReason,
    reports: &mut R,
)
    requires { 0 < (R.ReportList.view reports.old).room }
    ensures { ToldAll (report_on i segment.args (Some reason)) (R.ReportList.view reports.old) (R.ReportList.view reports.new) }
{
    if segment.args.is_some() {
        reports.tell(PathLoweringDiagnostic::GenericArgsProhibited { segment: i, reason });
    }
}

// Tells a report about each module that has a list, and about the resolved segment if it has one and may have none.
pub(crate) fn tell_prohibited<R: ReportList>(
    segments: &[PathSegment],
    resolved: usize,
    kind: TypeNs,
    reports: &mut R,
)
    requires short { length segments.now ≤ 16 }
    requires inside { resolved ≤ length segments.now }
    requires room { length segments.now ≤ (R.ReportList.view reports.old).room }
    ensures { ToldAll (reports_on 0 (take resolved segments.now) ++ report_on resolved (list_at segments.now resolved) (reason_of kind)) (R.ReportList.view reports.old) (R.ReportList.view reports.new) }
{
    // A `for`, since it tells; the index is the segment's number.
    for (i, module) in segments[..resolved].iter().enumerate() {
        tell_list(
            *module,
            i as u32,
            GenericArgsProhibitedReason::Module,
            reports,
        );
    }
    if let (Some(segment), Some(reason)) = (segments.get(resolved), reason_of(kind)) {
        tell_list(*segment, resolved as u32, reason, reports);
    }
}
