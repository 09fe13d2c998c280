//! What a move of the queue depends on besides its words. The call that makes the move sets it.

ghost use Rattle.atomic_table.specs.Seated.{TableId as BoardId};
ghost use Rattle.std.specs.Prelude.{[]};

use std::marker::Brand;

/// A board.
pub(crate) trait Boarded {
    ghost board: { BoardId };
}

impl Boarded for Brand {
    ghost board = { record { words = 0; slots = 0; views_name = 0; atom = 0; block = 0; offset = 0; slot_names = [] } };
}
