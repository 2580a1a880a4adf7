//! Polygons against triangles worked out elsewhere, and what is refused.
#![tactic(auto)]

#[cfg(test)]
mod cases;

#[cfg(test)]
mod tests {
    use super::cases;
    use polygon_counting::diagonal::Diagonal;
    use polygons::polygon::Polygon;
    use polygons::worked_walks::pentagon_walks;
    use std::alloc::Global;
    use std::process::Abort;
    use std::test::Fail;
    use surfaces::faults::SurfaceFault;
    use surfaces::faults::SurfaceFault::{CountOutside, Crosses, NotDiagonal};
    use surfaces::loading::load;
    use surfaces::surface_trait::Surface;
    use triangulations::board::Board;
    use triangulations::step::{Label, Step};

    fn make(
        heap: Global,
        corners: u16,
        pairs: &[[u8; 2]],
    ) -> Result<Result<Polygon, SurfaceFault>, Fail> {
        let mut diagonals = Vec::new(heap);
        for [low, high] in pairs {
            diagonals.push(Diagonal {
                low: *low,
                high: *high,
            })?;
        }
        Ok(Polygon::new(corners, diagonals.as_slice()))
    }

    // These are all triangles on the board: a triangle fewer by two than corners, and the odd darts of the sides lie outside.
    fn holds(rt: &impl Abort, board: &Board, corners: u8, triangles: &[[u8; 3]]) {
        assert!(rt; 3 <= corners && corners <= 33);
        assert_eq!(rt; board.edges(), 2 * corners - 3);
        assert_eq!(rt; triangles.len(), corners as usize - 2);
        for [x, y, z] in triangles {
            assert_eq!(rt; board.after(*x), Some(*y));
            assert_eq!(rt; board.after(*y), Some(*z));
            assert_eq!(rt; board.after(*z), Some(*x));
        }
        for side in 0..corners {
            assert_eq!(rt; board.after(2 * side + 1), None);
        }
        assert_eq!(rt; board.after(4 * corners - 6), None);
    }

    fn cut(
        rt: &impl Abort,
        heap: Global,
        corners: u8,
        pairs: &[[u8; 2]],
        triangles: &[[u8; 3]],
    ) -> Result<(), Fail> {
        let polygon = make(heap, u16::from(corners), pairs)??;
        assert_eq!(rt; polygon.corners(), corners);
        assert_eq!(rt; polygon.diagonals().len(), pairs.len());
        let mut board = Board::new();
        load(&polygon, &mut board);
        assert_eq!(rt; polygon.edges(), board.edges());
        for dart in 0..=255u8 {
            assert_eq!(rt; polygon.after(dart), board.after(dart));
        }
        holds(rt, &board, corners, triangles);
        Ok(())
    }

    #[test]
    fn a_triangle(rt: HostRuntime) -> Result<(), Fail> {
        cut(&rt, rt.alloc(), 3, &[], &[[0, 2, 4]])
    }

    #[test]
    fn a_square_both_ways(rt: HostRuntime) -> Result<(), Fail> {
        cut(&rt, rt.alloc(), 4, &[[0, 2]], &[[0, 2, 9], [4, 6, 8]])?;
        cut(&rt, rt.alloc(), 4, &[[1, 3]], &[[2, 4, 9], [6, 0, 8]])
    }

    // The diagonals of the inner triangle share corners, and do not cross.
    #[test]
    fn a_hexagon_with_an_inner_triangle(rt: HostRuntime) -> Result<(), Fail> {
        cut(
            &rt,
            rt.alloc(),
            6,
            &[[2, 4], [0, 4], [0, 2]],
            &[[0, 2, 17], [4, 6, 13], [8, 10, 14], [16, 12, 15]],
        )
    }

    #[test]
    fn every_heptagon(rt: HostRuntime) -> Result<(), Fail> {
        for (pairs, triangles) in cases::HEPTAGONS
            .iter()
            .zip(cases::HEPTAGON_TRIANGLES.iter())
        {
            cut(&rt, rt.alloc(), 7, pairs, triangles)?;
        }
        Ok(())
    }

    // The diagonals that the bits of `mask` choose.
    fn chosen(heap: Global, mask: u32) -> Result<Vec<[u8; 2]>, Fail> {
        let mut pairs = Vec::new(heap);
        for (k, pair) in cases::HEPTAGON_DIAGONALS.iter().enumerate() {
            if mask >> k & 1 == 1 {
                pairs.push(*pair)?;
            }
        }
        Ok(pairs)
    }

    #[test]
    fn no_other_heptagon(rt: HostRuntime) -> Result<(), Fail> {
        let mut granted = 0u32;
        for mask in 0..1u32 << 14 {
            let pairs = chosen(rt.alloc(), mask)?;
            if make(rt.alloc(), 7, pairs.as_slice())?.is_ok() {
                granted = granted.wrapping_add(1);
            }
        }
        assert_eq!(rt; granted, 42);
        Ok(())
    }

    #[test]
    fn thirty_three_corners(rt: HostRuntime) -> Result<(), Fail> {
        cut(&rt, rt.alloc(), 33, &cases::FAN, &cases::FAN_TRIANGLES)?;
        cut(
            &rt,
            rt.alloc(),
            33,
            &cases::ZIGZAG,
            &cases::ZIGZAG_TRIANGLES,
        )
    }

    // The board after these steps on the pentagon with the diagonals 0–2 and 0–3.
    fn after_steps(rt: &impl Abort, heap: Global, steps: &[Step]) -> Result<Board, Fail> {
        let polygon = make(heap, 5, &[[0, 2], [0, 3]])??;
        let mut board = Board::new();
        load(&polygon, &mut board);
        for step in steps {
            assert_eq!(rt; board.step(*step), Ok(()));
        }
        Ok(board)
    }

    #[test]
    fn five_flips_of_a_pentagon(rt: HostRuntime) -> Result<(), Fail> {
        let heap = rt.alloc();
        let (left_5, left_6) = (Step::left(5), Step::left(6));
        let (turn_5, turn_6) = (Step::turn(5), Step::turn(6));
        let swap = Step::Label(Label::Swap(5, 6));
        let flips = after_steps(&rt, heap, &[left_5, left_6, left_5, left_6, left_5])?;
        for (dart, next) in pentagon_walks().iter().enumerate() {
            assert_eq!(rt; flips.after(u8::try_from(dart)?), *next);
        }
        assert_eq!(rt; flips, after_steps(&rt, heap, &[swap, turn_5, turn_6])?);
        let turned = after_steps(&rt, heap, &[turn_5, left_5, left_6, left_5, left_6, left_5])?;
        assert_eq!(rt; turned, after_steps(&rt, heap, &[turn_5, swap])?);
        Ok(())
    }

    #[test]
    fn counts(rt: HostRuntime) -> Result<(), Fail> {
        let heap = rt.alloc();
        for corners in [0u16, 1, 2, 34, 256 + 3, 65535] {
            assert_eq!(rt; make(heap, corners, &[])?, Err(CountOutside));
        }
        assert_eq!(rt; make(heap, 34, &cases::FAN)?, Err(CountOutside));
        assert_eq!(rt; make(heap, 3, &[[0, 2]])?, Err(CountOutside));
        assert_eq!(rt; make(heap, 5, &[[0, 2]])?, Err(CountOutside));
        assert_eq!(rt;
            make(heap, 5, &[[0, 2], [0, 3], [0, 2]])?,
            Err(CountOutside)
        );
        assert_eq!(rt;
            make(heap, 5, &[[1, 0]])?,
            Err(CountOutside),
            "the counts are judged first"
        );
        Ok(())
    }

    #[test]
    fn pairs_that_are_no_diagonals(rt: HostRuntime) -> Result<(), Fail> {
        let heap = rt.alloc();
        assert_eq!(rt; make(heap, 4, &[[2, 0]])?, Err(NotDiagonal(0)), "falling");
        assert_eq!(rt;
            make(heap, 4, &[[2, 2]])?,
            Err(NotDiagonal(0)),
            "a corner twice"
        );
        assert_eq!(rt; make(heap, 4, &[[0, 4]])?, Err(NotDiagonal(0)), "no corner");
        assert_eq!(rt;
            make(heap, 4, &[[200, 255]])?,
            Err(NotDiagonal(0)),
            "no corners"
        );
        assert_eq!(rt; make(heap, 4, &[[0, 1]])?, Err(NotDiagonal(0)), "a side");
        assert_eq!(rt;
            make(heap, 4, &[[2, 3]])?,
            Err(NotDiagonal(0)),
            "the side before the last"
        );
        assert_eq!(rt;
            make(heap, 4, &[[0, 3]])?,
            Err(NotDiagonal(0)),
            "the last side"
        );
        assert_eq!(rt;
            make(heap, 6, &[[0, 2], [0, 3], [0, 5]])?,
            Err(NotDiagonal(2))
        );
        assert_eq!(rt;
            make(heap, 6, &[[0, 2], [3, 2], [0, 2]])?,
            Err(NotDiagonal(1)),
            "in their order"
        );
        assert_eq!(rt;
            make(heap, 6, &[[1, 4], [4, 1], [0, 2]])?,
            Err(NotDiagonal(1)),
            "8 before 9"
        );
        Ok(())
    }

    #[test]
    fn diagonals_that_clash(rt: HostRuntime) -> Result<(), Fail> {
        let heap = rt.alloc();
        assert_eq!(rt;
            make(heap, 5, &[[0, 2], [0, 2]])?,
            Err(Crosses(1)),
            "repeats"
        );
        assert_eq!(rt; make(heap, 5, &[[0, 2], [1, 3]])?, Err(Crosses(1)));
        assert_eq!(rt; make(heap, 5, &[[1, 3], [0, 2]])?, Err(Crosses(1)));
        assert_eq!(rt;
            make(heap, 6, &[[0, 3], [0, 2], [1, 4]])?,
            Err(Crosses(2)),
            "the first of them"
        );
        assert_eq!(rt; make(heap, 6, &[[0, 2], [2, 4], [2, 4]])?, Err(Crosses(2)));
        assert_eq!(rt;
            make(heap, 6, &[[0, 2], [1, 3], [0, 1]])?,
            Err(Crosses(1)),
            "in their order"
        );
        Ok(())
    }

    #[test]
    fn numbers(rt: HostRuntime) {
        assert_eq!(rt; CountOutside.number(), 4);
        assert_eq!(rt; NotDiagonal(29).number(), 8);
        assert_eq!(rt; Crosses(29).number(), 9);
    }
}
