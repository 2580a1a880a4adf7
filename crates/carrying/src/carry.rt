ghost use Rattle.std.specs.Prelude.{◌≡◌, ℕ, ◌<◌, ◌≢◌, map, length, slice_index_or, Err, OnErr};
ghost use Rattle.triangulations.specs.Triangulations.{edge_of};
ghost use Rattle.triangulations.specs.Meaning.{meant, meant_flip, meant_label};
ghost use Rattle.triangulations.specs.Boards.{on};
ghost use Rattle.walks.specs.Walks.{moves};
ghost use Rattle.carrying.specs.declared.refusal.CarryRefusal.TheVariants.{RowCount};
ghost use Rattle.carrying.specs.Rows.{Ready, Within, IsSides};
ghost use Rattle.carrying.specs.Carrying.{Carries};
ghost use Rattle.carrying.specs.Stepping.{counted, Judged, Steps};

use crate::refusal::CarryRefusal;
use numbers::judge::judge;
use numbers::kind::Kind;
use numbers::ptolemy::Sides;
use triangulations::board::Board;
use triangulations::darts::Dart;
use triangulations::quadrilateral::Quadrilateral;
use triangulations::step::{Flip, Label, Step};
use walks::walk::Walk;

/// Carries the rows along the walk from the triangulation `table`; `board` is memory to work on, and what it holds does not
/// matter. There is to be a row for each edge, a stored number. Where a step is refused, the rows stay as they are before it.
pub fn carry<K: Kind>(
    table: &Board,
    walk: &Walk,
    rows: &mut [K],
    board: &mut Board,
) -> Result<(), CarryRefusal>
    ensures { Carries K.numbers (moves walk.now) (on table.now) rows.old rows.new result }
{
    judge_rows(table.edges(), rows)?;
    *board = *table;
    carry_along(walk.steps(), rows, board)
}

// Whether there is a row for each edge, and each is a stored number.
fn judge_rows<K: Kind>(edges: u8, rows: &[K]) -> Result<(), CarryRefusal>
    ensures { Judged K.numbers edges rows.now result }
{
    count_rows(edges, rows)?;
    Ok(judge(rows)?)
}

// Whether there is a row for each edge.
fn count_rows<K: Kind>(edges: u8, rows: &[K]) -> Result<(), CarryRefusal>
    ensures { result ≡ counted edges (length rows.now) }
{
    let count = rows.len();
    if count == edges as usize {
        Ok(())
    } else {
        Err(CarryRefusal::RowCount { count })
    }
}

fn carry_along<K: Kind>(
    steps: &[Step],
    rows: &mut [K],
    board: &mut Board,
) -> Result<(), CarryRefusal>
    requires { Ready K.numbers (on board.old).edges rows.old }
    ensures { Carries K.numbers (map meant steps.now) (on board.old) rows.old rows.new result }
{
    for (k, step) in steps.iter().enumerate() {
        carry_step(k, *step, rows, board)?;
    }
    Ok(())
}

/// Carries the rows along one step, with the index `k` in its walk, on the board that the steps before it reach. There is to be
/// a row for each edge, a stored number. Where the step is refused, rows and board stay as they are.
pub fn carry_step<K: Kind>(
    k: usize,
    step: Step,
    rows: &mut [K],
    board: &mut Board,
) -> Result<(), CarryRefusal>
    ensures stepped { length rows.old ≡ (on board.old).edges → Steps K.numbers k (meant step) (on board.old) (on board.new) rows.old rows.new result }
    ensures miscounted { length rows.old ≢ (on board.old).edges → result ≡ Err (RowCount (length rows.old)) }
    ensures kept { OnErr result ((rows.new ≡ rows.old) × (on board.new ≡ on board.old)) }
{
    count_rows(board.edges(), rows)?;
    match step {
        Step::Flip(flip) => carry_flip(k, flip, rows, board),
        Step::Label(label) => carry_label(k, label, rows, board),
    }
}

// Rows and board go side by side: both public calls take them from the caller, and of what is left only two ask how they fit.

// A flip writes the new value to the row of its edge.
fn carry_flip<K: Kind>(
    k: usize,
    flip: Flip,
    rows: &mut [K],
    board: &mut Board,
) -> Result<(), CarryRefusal>
    requires { length rows.old ≡ (on board.old).edges }
    ensures stepped { Steps K.numbers k (meant_flip flip) (on board.old) (on board.new) rows.old rows.new result }
    ensures kept { OnErr result ((rows.new ≡ rows.old) × (on board.new ≡ on board.old)) }
{
    let around = board
        .around(flip.edge)
        .ok_or(CarryRefusal::NotLegal { step: k })?;
    let value = sides_in(rows, around).flipped_at(k)?;
    board
        .step(Step::Flip(flip))
        .map_err(|_| CarryRefusal::NotLegal { step: k })?;
    rows[flip.edge as usize] = value;
    Ok(())
}

// A swap exchanges two rows, and a turn leaves them.
fn carry_label<K: Kind>(
    k: usize,
    label: Label,
    rows: &mut [K],
    board: &mut Board,
) -> Result<(), CarryRefusal>
    requires { length rows.old ≡ (on board.old).edges }
    ensures stepped { Steps K.numbers k (meant_label label) (on board.old) (on board.new) rows.old rows.new result }
    ensures kept { OnErr result ((rows.new ≡ rows.old) × (on board.new ≡ on board.old)) }
{
    board
        .step(Step::Label(label))
        .map_err(|_| CarryRefusal::NotLegal { step: k })?;
    if let Label::Swap(e, f) = label {
        rows.swap(e as usize, f as usize);
    }
    Ok(())
}

// The rows of the edges around an edge and of the edge.
fn sides_in<K: Kind>(rows: &[K], around: Quadrilateral) -> Sides<K>
    requires { Within around (length rows.now) }
    ensures { IsSides around rows.now result }
{
    Sides {
        a: row_of(rows, around.a),
        b: row_of(rows, around.b),
        c: row_of(rows, around.c),
        g: row_of(rows, around.g),
        e: row_of(rows, around.d),
    }
}

// The row of a dart's edge.
fn row_of<K: Kind>(rows: &[K], dart: Dart) -> K
    requires { edge_of dart < length rows.now }
    ensures { result ≡ slice_index_or rows.now (edge_of dart) result }
{
    rows[(dart / 2) as usize]
}
