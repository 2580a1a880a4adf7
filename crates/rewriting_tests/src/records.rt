use crate::common::{holds, record_of, walk_of};
use polygon_counting::diagonal::Diagonal;
use polygons::polygon::Polygon;
use rewriting::rewrite::rewrite;
use std::process::Abort;
use std::test::Fail;
use surfaces::loading::load;
use triangulations::board::Board;
use triangulations::step::Step;
use walks::walk::Walk;

// The pentagon with the diagonals 0–2 and 0–3, edges 5 and 6.
fn pentagon() -> Result<Board, Fail> {
    let mut board = Board::new();
    let diagonals = [Diagonal { low: 0, high: 2 }, Diagonal { low: 0, high: 3 }];
    load(&Polygon::new(5, &diagonals)?, &mut board);
    Ok(board)
}

// The heptagon whose diagonals 0–2, 0–3, 0–4 and 0–5 are the edges 7 to 10.
fn heptagon() -> Result<Board, Fail> {
    let mut board = Board::new();
    let diagonals = [
        Diagonal { low: 0, high: 2 },
        Diagonal { low: 0, high: 3 },
        Diagonal { low: 0, high: 4 },
        Diagonal { low: 0, high: 5 },
    ];
    load(&Polygon::new(7, &diagonals)?, &mut board);
    Ok(board)
}

fn becomes(
    rt: &impl Abort,
    table: &Board,
    before: &[[u8; 3]],
    record: [u8; 7],
    after: &[[u8; 3]],
) -> Result<(), Fail> {
    let mut walk = walk_of(rt, before)?;
    let mut board = Board::new();
    assert!(rt; rewrite(table, &mut walk, record_of(record), &mut board).is_ok());
    holds(rt, &walk, after);
    Ok(())
}

// The number, the layer and the place of the refusal; the walk stays.
fn refuses(
    rt: &impl Abort,
    table: &Board,
    before: &[[u8; 3]],
    record: [u8; 7],
    refusal: (u8, u8, usize),
) -> Result<(), Fail> {
    let mut walk = walk_of(rt, before)?;
    let mut board = Board::new();
    let told = rewrite(table, &mut walk, record_of(record), &mut board)
        .err()
        .map(|fault| (fault.number(), fault.layer(), fault.place()));
    assert_eq!(rt; told, Some(refusal));
    holds(rt, &walk, before);
    Ok(())
}

#[test]
fn pairs_and_doubles(rt: HostRuntime) -> Result<(), Fail> {
    let table = pentagon()?;
    becomes(
        &rt,
        &table,
        &[[2, 1, 0], [0, 5, 0], [1, 5, 0]],
        [1, 0, 0, 1, 0, 0, 0],
        &[[2, 1, 0]],
    )?;
    becomes(
        &rt,
        &table,
        &[[3, 1, 4], [3, 1, 4]],
        [1, 0, 0, 0, 0, 0, 0],
        &[],
    )?;
    becomes(
        &rt,
        &table,
        &[[2, 1, 0]],
        [1, 1, 0, 1, 1, 6, 0],
        &[[2, 1, 0], [1, 6, 0], [0, 6, 0]],
    )?;
    becomes(
        &rt,
        &table,
        &[[0, 6, 0], [0, 6, 0]],
        [2, 0, 0, 0, 0, 0, 0],
        &[[2, 6, 0]],
    )?;
    becomes(
        &rt,
        &table,
        &[[2, 6, 0]],
        [2, 1, 0, 0, 0, 0, 0],
        &[[0, 6, 0], [0, 6, 0]],
    )
}

// 7 and 9 share no triangle, 7 and 8 share one.
#[test]
fn flips_apart(rt: HostRuntime) -> Result<(), Fail> {
    let table = heptagon()?;
    becomes(
        &rt,
        &table,
        &[[0, 7, 0], [1, 9, 0]],
        [3, 0, 0, 0, 0, 0, 0],
        &[[1, 9, 0], [0, 7, 0]],
    )?;
    refuses(
        &rt,
        &table,
        &[[0, 7, 0], [1, 8, 0]],
        [3, 0, 0, 0, 0, 0, 0],
        (15, 5, 0),
    )
}

#[test]
fn carried_over(rt: HostRuntime) -> Result<(), Fail> {
    let table = pentagon()?;
    refuses(
        &rt,
        &table,
        &[[2, 5, 0], [3, 5, 6]],
        [4, 0, 0, 0, 0, 0, 0],
        (14, 5, 0),
    )?;
    becomes(
        &rt,
        &table,
        &[[3, 5, 6], [2, 5, 0]],
        [4, 0, 0, 0, 0, 0, 0],
        &[[2, 6, 0], [3, 5, 6]],
    )?;
    becomes(
        &rt,
        &table,
        &[[0, 6, 0], [3, 5, 6]],
        [4, 1, 0, 0, 0, 0, 0],
        &[[3, 5, 6], [0, 5, 0]],
    )?;
    becomes(
        &rt,
        &table,
        &[[3, 1, 6], [3, 4, 6]],
        [4, 0, 0, 0, 0, 0, 0],
        &[[3, 1, 4], [3, 1, 6]],
    )?;
    becomes(
        &rt,
        &table,
        &[[2, 5, 0], [1, 5, 0]],
        [4, 0, 0, 0, 0, 0, 0],
        &[[1, 5, 0], [2, 5, 0]],
    )
}

// In the pentagon and in the one with edge 5 turned, from either edge, and back.
#[test]
fn pentagons(rt: HostRuntime) -> Result<(), Fail> {
    let table = pentagon()?;
    let from_5 = [[0, 5, 0], [0, 6, 0], [0, 5, 0], [0, 6, 0], [0, 5, 0]];
    let from_6 = [[0, 6, 0], [0, 5, 0], [0, 6, 0], [0, 5, 0], [0, 6, 0]];
    becomes(
        &rt,
        &table,
        &from_5,
        [5, 0, 0, 0, 0, 5, 6],
        &[[3, 5, 6], [2, 5, 0], [2, 6, 0]],
    )?;
    becomes(
        &rt,
        &table,
        &from_6,
        [5, 0, 0, 0, 0, 6, 5],
        &[[3, 5, 6], [2, 5, 0]],
    )?;
    becomes(
        &rt,
        &table,
        &[[3, 5, 6], [2, 5, 0]],
        [5, 1, 0, 0, 0, 6, 5],
        &from_6,
    )?;
    let turned_5 = [
        [2, 5, 0],
        [0, 5, 0],
        [0, 6, 0],
        [0, 5, 0],
        [0, 6, 0],
        [0, 5, 0],
    ];
    let turned_6 = [
        [2, 5, 0],
        [0, 6, 0],
        [0, 5, 0],
        [0, 6, 0],
        [0, 5, 0],
        [0, 6, 0],
    ];
    becomes(
        &rt,
        &table,
        &turned_5,
        [5, 0, 0, 1, 0, 5, 6],
        &[[2, 5, 0], [3, 5, 6]],
    )?;
    becomes(
        &rt,
        &table,
        &turned_6,
        [5, 0, 0, 1, 0, 6, 5],
        &[[2, 5, 0], [3, 5, 6], [2, 6, 0]],
    )?;
    refuses(&rt, &table, &from_5, [5, 0, 0, 0, 0, 6, 5], (14, 5, 0))?;
    refuses(&rt, &table, &from_5, [5, 0, 0, 0, 0, 5, 0], (15, 5, 0))
}

#[test]
fn refusals(rt: HostRuntime) -> Result<(), Fail> {
    let table = pentagon()?;
    let turn = [[2, 1, 0]];
    let cases = [
        ([0, 0, 0, 0, 0, 0, 0], (5, 5, 0)),
        ([6, 0, 0, 1, 0, 0, 0], (5, 5, 1)),
        ([3, 1, 0, 0, 0, 0, 0], (5, 5, 0)),
        ([2, 0, 0, 0, 0, 0, 1], (5, 5, 0)),
        ([1, 1, 0, 0, 4, 0, 0], (5, 5, 0)),
        ([5, 0, 0, 0, 1, 5, 6], (5, 5, 0)),
        ([1, 1, 9, 9, 0, 7, 0], (6, 5, 2313)),
        ([5, 1, 0, 0, 0, 5, 7], (6, 5, 0)),
        ([1, 1, 0, 0, 3, 2, 1], (7, 5, 0)),
        ([1, 0, 0, 2, 0, 0, 0], (13, 5, 2)),
        ([1, 0, 0, 1, 0, 0, 0], (14, 5, 1)),
        ([2, 0, 0, 0, 0, 0, 0], (14, 5, 0)),
        ([2, 1, 0, 0, 0, 0, 0], (15, 5, 0)),
        ([1, 1, 0, 1, 0, 1, 0], (15, 5, 1)),
    ];
    for (record, refusal) in cases {
        refuses(&rt, &table, &turn, record, refusal)?;
    }
    refuses(
        &rt,
        &table,
        &[[0, 1, 0], [2, 1, 0]],
        [1, 0, 0, 1, 0, 0, 0],
        (10, 3, 0),
    )
}

// A pair goes into a walk of 254 steps, and not into one of 255.
#[test]
fn the_longest_walk(rt: HostRuntime) -> Result<(), Fail> {
    let table = pentagon()?;
    let put_in = record_of([1, 1, 0, 0, 2, 1, 0]);
    let mut walk = Walk::new();
    for _ in 0..254 {
        assert!(rt; walk.push(Step::read([2, 3, 0], 7)?).is_ok());
    }
    let mut longer = walk;
    let mut board = Board::new();
    assert!(rt; rewrite(&table, &mut walk, put_in, &mut board).is_ok());
    assert_eq!(rt; walk.len(), 256);
    assert!(rt; longer.push(Step::read([2, 3, 0], 7)?).is_ok());
    let told = rewrite(&table, &mut longer, put_in, &mut board)
        .err()
        .map(|fault| (fault.number(), fault.place()));
    assert_eq!(rt; told, Some((11, 256)));
    assert_eq!(rt; longer.len(), 255);
    Ok(())
}
