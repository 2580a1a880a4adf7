ghost use Rattle.std.specs.Prelude.{◌≡◌};
ghost use Rattle.triangulations.specs.Stored.{table_of};
ghost use Rattle.triangulations.specs.Boards.{on};

use crate::surface_trait::Surface;
use std::array;
use triangulations::board::Board;
use triangulations::darts::Dart;

/// Asks a surface for its table and puts it on the board, whatever the board held before.
pub fn load<S: Surface>(surface: &S, board: &mut Board)
    ensures { on board.new ≡ S.triangulation surface.now }
{
    let table = ask_table(surface);
    // The triangulation of every surface is lawful, so this is granted, as the check proves.
    board.load(surface.edges(), table).unwrap();
}

fn ask_table<S: Surface>(surface: &S) -> [Option<Dart>; 128]
    ensures { table_of result ≡ (S.triangulation surface.now).next }
{
    array::from_fn(|dart| surface.after(dart as u8))
}
