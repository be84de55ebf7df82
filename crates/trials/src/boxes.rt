// A box over dials, over a recording and over another box: three gauges full and one empty, marks, limits and refusals; and a pile with counted banks in it.
use bank::{CountedBank, Dials, GaugeBank, Mark, Reading, Record, Recording};
use fault::{Cause, Fault};
use junction::{Join, wired};
use std::test::Fail;

// A reading of a load in thousandths of a digit.
fn reading(load: i64, overdriven: bool) -> Reading {
    Reading {
        load,
        mark: Mark { overdriven },
    }
}

// Gauges of factor 1,000 at ports 1 to 4.
fn four_dials() -> Result<Dials, Fault> {
    let mut dials = Dials::new();
    for port in 1..5u8 {
        dials.fit(port, 1000)?;
        dials.set(port, 250_000, 2)?;
    }
    dials.set(4, 1_250_001, 1)?;
    Ok(dials)
}

#[test]
fn the_fourth_gauge_runs_dry(rt: HostRuntime) -> Result<(), Fail> {
    let joins = [
        Join { below: 2, above: 1 },
        Join { below: 3, above: 1 },
        Join { below: 4, above: 1 },
        Join {
            below: 4,
            above: 32,
        },
    ];
    let wired = wired(four_dials()?, &joins);
    assert_eq!(rt; wired.refused, 1);
    let mut platform = wired.junction;
    assert_eq!(rt; platform.gauges(1), Ok(4));
    assert_eq!(rt; platform.waiting(1), Ok(1));
    assert_eq!(rt; platform.take(1), Ok(reading(2_000_001_000, true)));
    assert_eq!(rt; platform.take(1), Err(Cause::TooFewReadings.at(1)));
    assert_eq!(rt; platform.gauges(2), Ok(0));
    assert_eq!(rt; platform.take(32), Err(Cause::PortRange.at(32)));
    Ok(())
}

#[test]
fn boxes_stand_on_a_recording(rt: HostRuntime) -> Result<(), Fail> {
    let records = [
        Record {
            port: 2,
            digits: 100,
        },
        Record {
            port: 40,
            digits: 9,
        },
        Record {
            port: 3,
            digits: -7,
        },
        Record {
            port: 2,
            digits: 2_000_000,
        },
    ];
    let mut low = Recording::new(&records);
    low.fit(2, 1000)?;
    low.fit(3, 500)?;
    assert_eq!(rt; low.fit(2, 1501), Err(Cause::FactorRange.at(2)));
    let first = wired(low, &[Join { below: 3, above: 7 }]).junction;
    let mut top = wired(
        first,
        &[Join { below: 7, above: 0 }, Join { below: 2, above: 0 }],
    )
    .junction;
    assert_eq!(rt; top.gauges(0), Ok(2));
    assert_eq!(rt; top.waiting(0), Ok(1));
    assert_eq!(rt; top.take(0), Ok(reading(96_500, false)));
    assert_eq!(rt; top.waiting(0), Ok(0));
    Ok(())
}

// Whether two banks answer every call alike, at each port and at one that no bank has, before each of three takes and after.
fn answer_alike<A: GaugeBank, B: GaugeBank>(one: &mut A, other: &mut B) -> bool {
    for port in 0..33u8 {
        for _ in 0..4 {
            if one.gauges(port) != other.gauges(port)
                || one.waiting(port) != other.waiting(port)
                || one.take(port) != other.take(port)
            {
                return false;
            }
        }
    }
    true
}

#[test]
fn counted_banks_in_a_pile_change_no_answer(rt: HostRuntime) -> Result<(), Fail> {
    let first = [Join { below: 2, above: 1 }, Join { below: 4, above: 3 }];
    let second = [Join { below: 1, above: 5 }];
    let mut plain = wired(wired(four_dials()?, &first).junction, &second).junction;
    let low = wired(CountedBank::over(four_dials()?), &first).junction;
    let top = wired(CountedBank::over(low), &second).junction;
    let mut counted = CountedBank::over(top);
    assert_eq!(rt; counted.gauges(5), Ok(2));
    assert_eq!(rt; counted.waiting(5), Ok(2));
    assert_eq!(rt; counted.waiting(3), Ok(1));
    assert!(rt; answer_alike(&mut plain, &mut counted));
    assert_eq!(rt; counted.waiting(5), Ok(0));
    assert_eq!(rt; counted.gauges(5), Ok(2));
    Ok(())
}
