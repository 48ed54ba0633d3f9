use crate::args::Form;
use crate::checked::{CheckRefusal, check_path};
use crate::segments::{GenericArgs, PathSegment, Resolution, TypeNs};
use diagnostics::lent::LentReports;
use diagnostics::list::ReportList;
use diagnostics::own::OwnReports;
use diagnostics::reports::{GenericArgsProhibitedReason, PathLoweringDiagnostic};

const BARE: PathSegment = PathSegment { args: None };

const LISTED: PathSegment = PathSegment {
    args: Some(GenericArgs {
        start: 0,
        len: 0,
        has_self: false,
    }),
};

fn prohibited(segment: u32, reason: GenericArgsProhibitedReason) -> PathLoweringDiagnostic {
    PathLoweringDiagnostic::GenericArgsProhibited { segment, reason }
}

// The number of the resolved segment, or that of the refusal.
fn answer<R: ReportList>(
    segments: &[PathSegment],
    kind: TypeNs,
    remaining: Option<usize>,
    reports: &mut R,
) -> Result<usize, u32> {
    check_path(segments, Resolution { kind, remaining }, reports)
        .map(|path| path.segment())
        .map_err(u32::from)
}

#[test]
fn limits(rt: HostRuntime) {
    let mut list = OwnReports::new();
    assert_eq!(rt; answer(&[BARE; 16], TypeNs::Adt, None, &mut list), Ok(15));
    assert_eq!(rt; answer(&[BARE; 17], TypeNs::Adt, None, &mut list), Err(11));
    assert_eq!(rt; answer(&[BARE; 3], TypeNs::Adt, Some(1), &mut list), Ok(0));
    assert_eq!(rt; answer(&[BARE; 3], TypeNs::Adt, Some(3), &mut list), Ok(2));
    assert_eq!(rt;
        answer(&[BARE; 3], TypeNs::Adt, Some(0), &mut list),
        Err(12)
    );
    assert_eq!(rt;
        answer(&[BARE; 3], TypeNs::Adt, Some(4), &mut list),
        Err(12)
    );
    assert_eq!(rt; answer(&[], TypeNs::SelfType, None, &mut list), Ok(0));
    assert_eq!(rt; answer(&[], TypeNs::SelfType, Some(0), &mut list), Ok(0));
    assert_eq!(rt; answer(&[], TypeNs::SelfType, Some(9), &mut list), Ok(0));
    assert_eq!(rt; list.told(), 0);
}

#[test]
fn room(rt: HostRuntime) {
    let mut places = [prohibited(0, GenericArgsProhibitedReason::Module); 2];
    let mut list = LentReports::new(&mut places);
    assert_eq!(rt; answer(&[BARE; 2], TypeNs::Adt, None, &mut list), Ok(1));
    assert_eq!(rt; answer(&[BARE; 3], TypeNs::Adt, None, &mut list), Err(13));
    assert_eq!(rt;
        answer(&[LISTED; 3], TypeNs::Adt, Some(4), &mut list),
        Err(12)
    );
    assert_eq!(rt;
        answer(&[LISTED; 17], TypeNs::Adt, Some(0), &mut list),
        Err(11)
    );
    assert_eq!(rt; list.told(), 0);
}

#[test]
fn reports(rt: HostRuntime) {
    let mut list = OwnReports::new();
    assert_eq!(rt;
        answer(
            &[LISTED, BARE, LISTED, LISTED, LISTED],
            TypeNs::BuiltinType,
            Some(4),
            &mut list,
        ),
        Ok(3)
    );
    assert_eq!(rt; list.told(), 3);
    assert_eq!(rt;
        list.report(0),
        Some(prohibited(0, GenericArgsProhibitedReason::Module))
    );
    assert_eq!(rt;
        list.report(1),
        Some(prohibited(2, GenericArgsProhibitedReason::Module))
    );
    assert_eq!(rt;
        list.report(2),
        Some(prohibited(3, GenericArgsProhibitedReason::PrimitiveTy))
    );
    assert_eq!(rt; answer(&[LISTED], TypeNs::Trait, None, &mut list), Ok(0));
    assert_eq!(rt; list.told(), 3);
    assert_eq!(rt;
        answer(&[LISTED], TypeNs::GenericParam, None, &mut list),
        Ok(0)
    );
    assert_eq!(rt;
        list.report(3),
        Some(prohibited(0, GenericArgsProhibitedReason::TyParam))
    );
}

#[test]
fn words(rt: HostRuntime) {
    let refusal = CheckRefusal::BadIndex;
    let form = Form::Placeholder;
    let text = format!(in rt.alloc(); "{refusal}: {form}").expect(&rt, "memory");
    assert_eq!(rt;
        text.as_str(),
        "the path has no such segment: a placeholder"
    );
}
