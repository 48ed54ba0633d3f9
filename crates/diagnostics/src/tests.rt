use crate::laws::capacity;
use crate::lent::LentReports;
use crate::list::ReportList;
use crate::own::OwnReports;
use crate::reports::{GenericArgsProhibitedReason, PathLoweringDiagnostic};

fn on_segment(segment: u32) -> PathLoweringDiagnostic {
    PathLoweringDiagnostic::GenericArgsProhibited {
        segment,
        reason: GenericArgsProhibitedReason::SelfTy,
    }
}

#[test]
fn own_list(rt: HostRuntime) {
    let mut list = OwnReports::new();
    assert_eq!(rt; list.room(), 64);
    assert_eq!(rt; list.stock(), 0);
    assert_eq!(rt; list.report(0), None);
    for segment in 0..64u32 {
        list.tell(on_segment(segment));
    }
    assert_eq!(rt; list.room(), 0);
    list.tell(on_segment(64));
    assert_eq!(rt; list.told(), 64);
    assert_eq!(rt; list.report(63), Some(on_segment(63)));
    assert_eq!(rt; list.report(64), None);
    list.clear();
    assert_eq!(rt; list.told(), 0);
    assert_eq!(rt; list.report(0), None);
    assert_eq!(rt; list.room(), 64);
    list.tell(on_segment(7));
    assert_eq!(rt; list.report(0), Some(on_segment(7)));
    assert_eq!(rt; capacity(&list), 64);
}

#[test]
fn lent_list(rt: HostRuntime) {
    let mut no_place = [on_segment(9); 0];
    let mut none = LentReports::new(&mut no_place);
    none.tell(on_segment(0));
    assert_eq!(rt; none.told(), 0);
    assert_eq!(rt; none.report(0), None);
    let mut one_place = [on_segment(9)];
    let mut one = LentReports::new(&mut one_place);
    assert_eq!(rt; one.room(), 1);
    one.tell(on_segment(1));
    one.tell(on_segment(2));
    assert_eq!(rt; one.told(), 1);
    assert_eq!(rt; one.report(0), Some(on_segment(1)));
    assert_eq!(rt; one.report(1), None);
    let mut two_places = [on_segment(9); 2];
    let mut two = LentReports::new(&mut two_places);
    assert_eq!(rt; two.report(0), None);
    two.tell(on_segment(3));
    two.tell(on_segment(4));
    assert_eq!(rt; two.room(), 0);
    assert_eq!(rt; two.report(1), Some(on_segment(4)));
    assert_eq!(rt; two.report(2), None);
    two.clear();
    assert_eq!(rt; two.room(), 2);
    assert_eq!(rt; two.stock(), 0);
    assert_eq!(rt; capacity(&two), 2);
}

#[test]
fn words(rt: HostRuntime) {
    let reason = GenericArgsProhibitedReason::PrimitiveTy;
    let text = format!(in rt.alloc(); "{reason}").expect(&rt, "memory");
    assert_eq!(rt; text.as_str(), "a built-in type");
}
