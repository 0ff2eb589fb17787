use crate::rate_sheet::RateSheet;
use odds::Odds;
use paytables::paytable::{Paytable, paid_at};
use paytables::printed::PrintedSheet;
use paytables::stepped::SteppedSheet;
use published_sheets::PublishedSheet;
use search::Ranked;
use std::test::Fail;

// The published table. Of each sheet the entries from class 9 down to class 0, as numerator and denominator.
const TABLE: [(PublishedSheet, [Option<(u16, u8)>; 10]); 6] = [
    (
        PublishedSheet::Blind,
        [
            Some((500, 1)),
            Some((50, 1)),
            Some((10, 1)),
            Some((3, 1)),
            Some((3, 2)),
            Some((1, 1)),
            None,
            None,
            None,
            None,
        ],
    ),
    (
        PublishedSheet::TripsA,
        [
            Some((50, 1)),
            Some((40, 1)),
            Some((30, 1)),
            Some((9, 1)),
            Some((7, 1)),
            Some((4, 1)),
            Some((3, 1)),
            None,
            None,
            None,
        ],
    ),
    (
        PublishedSheet::TripsB,
        [
            Some((50, 1)),
            Some((40, 1)),
            Some((30, 1)),
            Some((8, 1)),
            Some((6, 1)),
            Some((5, 1)),
            Some((3, 1)),
            None,
            None,
            None,
        ],
    ),
    (
        PublishedSheet::TripsC,
        [
            Some((50, 1)),
            Some((40, 1)),
            Some((30, 1)),
            Some((8, 1)),
            Some((7, 1)),
            Some((4, 1)),
            Some((3, 1)),
            None,
            None,
            None,
        ],
    ),
    (
        PublishedSheet::TripsD,
        [
            Some((50, 1)),
            Some((40, 1)),
            Some((20, 1)),
            Some((7, 1)),
            Some((6, 1)),
            Some((5, 1)),
            Some((3, 1)),
            None,
            None,
            None,
        ],
    ),
    (
        PublishedSheet::TripsE,
        [
            Some((50, 1)),
            Some((40, 1)),
            Some((30, 1)),
            Some((7, 1)),
            Some((6, 1)),
            Some((5, 1)),
            Some((3, 1)),
            None,
            None,
            None,
        ],
    ),
];

fn figures(entry: Option<Odds>) -> Option<(u16, u8)> {
    entry.map(|odds| (odds.numerator(), odds.denominator()))
}

#[test]
fn every_figure_of_every_published_sheet(rt: HostRuntime) {
    for (published, entries) in &TABLE {
        let sheet = published.sheet();
        for (class, expected) in (0..10).rev().zip(entries) {
            assert_eq!(rt;
                figures(sheet.entry(class)),
                *expected,
                "{published:?} at class {class}"
            );
        }
    }
}

#[test]
fn classes_above_nine_have_no_entry(rt: HostRuntime) {
    let sheet = PublishedSheet::Blind.sheet();
    for class in [10, 255, 256, u64::MAX] {
        assert_eq!(rt; sheet.entry(class), None);
    }
}

#[test]
fn odds_are_made_within_their_ranges_only(rt: HostRuntime) {
    assert!(rt; Odds::new(1, 1).is_some());
    assert!(rt; Odds::new(1000, 100).is_some());
    assert_eq!(rt; Odds::new(0, 1), None);
    assert_eq!(rt; Odds::new(1, 0), None);
    assert_eq!(rt; Odds::new(1001, 1), None);
    assert_eq!(rt; Odds::new(1, 101), None);
    // 2^16 + 1 and 2^8 + 1, which would be 1 if their high bits were lost
    assert_eq!(rt; Odds::new(65537, 1), None);
    assert_eq!(rt; Odds::new(1, 257), None);
}

// At most what the wager brings exactly: 3 to 2 on 5 is 7, not 7 and a half.
#[test]
fn payments_are_rounded_down(rt: HostRuntime) {
    let blind = PublishedSheet::Blind.sheet();
    assert_eq!(rt; paid_at(&blind, 5, 5), 7);
    assert_eq!(rt; paid_at(&blind, 5, 1), 1);
    assert_eq!(rt; paid_at(&blind, 9, 200), 100_000);
    assert_eq!(rt; paid_at(&blind, 3, 200), 0);
    assert_eq!(rt; paid_at(&blind, 9, u32::MAX), 2_147_483_647_500);
    assert_eq!(rt; paid_at(&PublishedSheet::TripsA.sheet(), 6, 5), 45);
}

// A third is more than 33 in a hundred, though both pay 33 on 100.
#[test]
fn odds_are_compared_exactly(rt: HostRuntime) -> Result<(), Fail> {
    let third = Odds::new(1, 3).ok_or("no odds of 1 to 3")?;
    let less = Odds::new(33, 100).ok_or("no odds of 33 to 100")?;
    let same = Odds::new(3, 9).ok_or("no odds of 3 to 9")?;
    assert_eq!(rt; third.pays(100), less.pays(100));
    assert!(rt; less.is_below(&third));
    assert!(rt; !third.is_below(&less));
    assert!(rt; !third.is_below(&same));
    assert!(rt; !same.is_below(&third));
    Ok(())
}

#[test]
fn a_list_that_falls_makes_no_sheet(rt: HostRuntime) {
    let one = Odds::new(1, 1);
    let two = Odds::new(2, 1);
    let n: Option<Odds> = None;
    assert!(rt; PrintedSheet::new([n, n, n, n, n, n, n, n, n, n]).is_some());
    assert!(rt; PrintedSheet::new([n, n, n, n, n, n, n, one, one, two]).is_some());
    assert_eq!(rt;
        PrintedSheet::new([n, n, n, n, n, n, n, one, two, one]),
        None
    );
    assert_eq!(rt; PrintedSheet::new([n, n, n, n, n, n, n, one, one, n]), None);
    assert_eq!(rt; PrintedSheet::new([one, n, n, n, n, n, n, n, n, n]), None);
}

#[test]
fn a_step_has_one_entry_upward(rt: HostRuntime) -> Result<(), Fail> {
    let odds = Odds::new(3, 2).ok_or("no odds of 3 to 2")?;
    let stepped = SteppedSheet { from: 5, odds };
    assert_eq!(rt; stepped.entry(4), None);
    assert_eq!(rt; paid_at(&stepped, 5, 10), 15);
    assert_eq!(rt; paid_at(&stepped, 9, 10), 15);
    assert_eq!(rt; stepped.entry(10), None);
    let above = SteppedSheet { from: 10, odds };
    assert_eq!(rt; above.entry(9), None);
    assert_eq!(rt; above.entry(10), None);
    Ok(())
}

#[test]
fn a_sheet_that_computes_pays_like_any_other(rt: HostRuntime) {
    let sheet = RateSheet { halves: 3 };
    assert_eq!(rt; paid_at(&sheet, 0, 10), 0);
    assert_eq!(rt; paid_at(&sheet, 1, 5), 7);
    assert_eq!(rt; paid_at(&sheet, 9, 10), 135);
    assert_eq!(rt; paid_at(&sheet, 10, 10), 0);
    assert_eq!(rt; paid_at(&RateSheet { halves: u64::MAX }, 1, 10), 5000);
}
