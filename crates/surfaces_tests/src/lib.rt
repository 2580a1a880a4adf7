//! Walks on tori against tables worked out elsewhere.
#![tactic(auto)]

#[cfg(test)]
mod cases;

#[cfg(test)]
mod tests {
    use super::cases;
    use std::process::Abort;
    use std::test::Fail;
    use surfaces::faults::SurfaceFault;
    use surfaces::loading::load;
    use surfaces::surface_trait::Surface;
    use surfaces::torus::Torus;
    use triangulations::board::Board;
    use triangulations::moves::NotLegal;
    use triangulations::step::{Flip, Label, Side, Step};

    fn on_torus(punctures: u16) -> Result<Board, SurfaceFault> {
        let torus = Torus::new(punctures)?;
        let mut board = Board::new();
        load(&torus, &mut board);
        Ok(board)
    }

    // The board has just these followers.
    fn holds(rt: &impl Abort, board: &Board, table: &[u8]) -> Result<(), Fail> {
        for (d, next) in table.iter().enumerate() {
            assert_eq!(rt; board.after(u8::try_from(d)?), Some(*next));
        }
        assert_eq!(rt; board.after(u8::try_from(table.len())?), None);
        Ok(())
    }

    fn walks(
        rt: &impl Abort,
        punctures: u16,
        start: &[u8],
        walk: &[[u8; 3]],
        end: &[u8],
    ) -> Result<(), Fail> {
        let mut board = on_torus(punctures)?;
        holds(rt, &board, start)?;
        for record in walk {
            let step = Step::read(*record, board.edges())?;
            assert_eq!(rt; step.write(), *record);
            assert_eq!(rt; board.step(step), Ok(()));
        }
        holds(rt, &board, end)
    }

    #[test]
    fn one_puncture(rt: HostRuntime) -> Result<(), Fail> {
        walks(&rt, 1, &cases::TORUS_1, &cases::WALK_1, &cases::END_1)
    }

    #[test]
    fn two_punctures(rt: HostRuntime) -> Result<(), Fail> {
        walks(&rt, 2, &cases::TORUS_2, &cases::WALK_2, &cases::END_2)
    }

    #[test]
    fn three_punctures(rt: HostRuntime) -> Result<(), Fail> {
        walks(&rt, 3, &cases::TORUS_3, &cases::WALK_3, &cases::END_3)
    }

    #[test]
    fn twenty_one_punctures(rt: HostRuntime) -> Result<(), Fail> {
        walks(&rt, 21, &cases::TORUS_21, &cases::WALK_21, &cases::END_21)
    }

    // On two punctures L(1) L(0) L(2) L(3) folds a triangle at edge 5 onto itself.
    #[test]
    fn a_step_that_is_not_legal_leaves_the_board(rt: HostRuntime) -> Result<(), Fail> {
        let mut board = on_torus(2)?;
        for edge in [1, 0, 2, 3] {
            assert_eq!(rt; board.step(Step::left(edge)), Ok(()));
        }
        let before = board;
        assert!(rt; !board.is_flippable(5));
        assert_eq!(rt; board.step(Step::left(5)), Err(NotLegal));
        let right = Step::Flip(Flip {
            side: Side::Right,
            edge: 5,
        });
        assert_eq!(rt; board.step(right), Err(NotLegal));
        assert_eq!(rt; board.step(Step::left(6)), Err(NotLegal));
        assert_eq!(rt; board.step(Step::left(200)), Err(NotLegal));
        assert_eq!(rt; board.step(Step::Label(Label::Turn(6))), Err(NotLegal));
        assert_eq!(rt; board.step(Step::Label(Label::Swap(3, 3))), Err(NotLegal));
        assert_eq!(rt; board.step(Step::Label(Label::Swap(4, 3))), Err(NotLegal));
        assert_eq!(rt; board.step(Step::Label(Label::Swap(0, 6))), Err(NotLegal));
        assert_eq!(rt; board, before);
        Ok(())
    }

    #[test]
    fn punctures_are_from_1_to_21(rt: HostRuntime) -> Result<(), Fail> {
        for punctures in [0u16, 22, 256, 65535] {
            assert!(rt; Torus::new(punctures).is_err());
        }
        assert_eq!(rt; Torus::new(1)?.edges(), 3);
        assert_eq!(rt; Torus::new(21)?.edges(), 63);
        Ok(())
    }
}
