ghost use Rattle.std.specs.Prelude.{◌≡◌, map};
ghost use Rattle.triangulations.specs.Meaning.{meant};
ghost use Rattle.triangulations.specs.Boards.{on};
ghost use Rattle.relations.specs.Judging.{first_illegal};
ghost use Rattle.rewriting.specs.Replays.{told, reached};

use rewriting_records::fault::RewritingFault;
use triangulations::board::Board;
use triangulations::step::Step;

/// Does steps on a board, one after the other, as far as they are legal. Refuses at the first that is not, if there is one.
pub fn replay(board: &mut Board, steps: &[Step]) -> Result<(), RewritingFault>
    ensures illegal { result ≡ told (first_illegal (map meant steps.now) (on board.old)) }
    ensures reached { on board.new ≡ reached (map meant steps.now) (on board.old) }
{
    for (i, step) in steps.iter().enumerate() {
        board
            .step(*step)
            .map_err(|_| RewritingFault::NotLegal { step: i })?;
    }
    Ok(())
}
