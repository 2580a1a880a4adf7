//! Certificates of several hundred records, accepted one by one, and the time that judging takes.
use crate::certified;
use crate::common::{holds, record_of, walk_of};
use polygon_counting::diagonal::Diagonal;
use polygons::polygon::Polygon;
use rewriting::rewrite::rewrite;
use std::process::Abort;
use std::test::Fail;
use std::time::Instant;
use surfaces::loading::load;
use surfaces::torus::Torus;
use triangulations::board::Board;
use triangulations::step::Step;
use walks::walk::Walk;

fn accepted(
    rt: &impl Abort,
    table: &Board,
    walk: &[u8],
    records: &[u8],
    end: &[u8],
) -> Result<(), Fail> {
    let (steps, _) = walk.as_chunks::<3>();
    let (records, _) = records.as_chunks::<7>();
    let (end, _) = end.as_chunks::<3>();
    let mut walk = walk_of(rt, steps)?;
    let mut board = Board::new();
    assert_eq!(rt; records.len(), 400);
    for (at, record) in records.iter().enumerate() {
        assert_eq!(rt;
            rewrite(table, &mut walk, record_of(*record), &mut board),
            Ok(()),
            "record {at}"
        );
    }
    holds(rt, &walk, end);
    Ok(())
}

#[test]
fn on_a_torus(rt: HostRuntime) -> Result<(), Fail> {
    let mut table = Board::new();
    load(&Torus::new(3)?, &mut table);
    accepted(
        &rt,
        &table,
        certified::TORUS_WALK,
        certified::TORUS_RECORDS,
        certified::TORUS_END,
    )
}

#[test]
fn on_a_nonagon(rt: HostRuntime) -> Result<(), Fail> {
    let mut table = Board::new();
    let diagonals = [2, 3, 4, 5, 6, 7].map(|high| Diagonal { low: 0, high });
    load(&Polygon::new(9, &diagonals)?, &mut table);
    accepted(
        &rt,
        &table,
        certified::NONAGON_WALK,
        certified::NONAGON_RECORDS,
        certified::NONAGON_END,
    )
}

// 4,096 records at the end of a walk of 256 steps, or of 254, take less than a second.
#[test]
fn many_records(rt: HostRuntime) -> Result<(), Fail> {
    let mut table = Board::new();
    load(&Torus::new(3)?, &mut table);
    let mut walk = Walk::new();
    for _ in 0..254 {
        assert_eq!(rt; walk.push(Step::left(2)), Ok(()));
    }
    let mut board = Board::new();
    let start = Instant::now(&rt)?;
    for _ in 0..2048 {
        assert_eq!(rt;
            rewrite(
                &table,
                &mut walk,
                record_of([1, 1, 0, 254, 3, 0, 1]),
                &mut board
            ),
            Ok(())
        );
        assert_eq!(rt;
            rewrite(
                &table,
                &mut walk,
                record_of([1, 0, 0, 254, 0, 0, 0]),
                &mut board
            ),
            Ok(())
        );
    }
    let taken = start.elapsed(&rt)?;
    assert_eq!(rt; walk.len(), 254);
    assert!(rt; taken.as_millis() < 1000);
    Ok(())
}
