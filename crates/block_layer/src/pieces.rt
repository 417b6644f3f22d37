//! Pieces of an inner table, turned into pieces of the layer's table.

ghost use Rattle.std.specs.Prelude.{◌≡◌, ◌+◌, ◌-◌, ◌*◌, ◌^◌, ◌<◌, length};
ghost use Rattle.std.specs.List.{slice_get};
ghost use Rattle.scheme.specs.Table.{Written};
ghost use Rattle.layer_parts.specs.Parts.{child_start};
ghost use Rattle.layer_parts.specs.Writes.{piece_in_layer, outer_at};
ghost use Rattle.block_layer.specs.Steps.{InnerPiece, InnerPieces};

use crate::cells::Parent;
use crate::steps::events_of;
use scheme::{CellNo, ChildNo, EventNo, Piece};

impl Parent {
    // The first event of a child.
    fn first_event(self, child: ChildNo) -> EventNo
        requires { (child.0 < 65536) × (self.start.0 + child.0 * 2 ^ self.block.e < 65536) }
        ensures { result.0 ≡ self.start.0 + child.0 * 2 ^ self.block.e }
    {
        EventNo(self.start.0 + events_of(child.0 as usize, self.block) as u32)
    }

    // The last event of a child.
    fn last_event(self, child: ChildNo) -> EventNo
        requires { child.0 < 65536 }
        ensures { result.0 ≡ child_start self.events.count self.start.0 (2 ^ self.block.e) (child.0 + 1) - 1 }
    {
        let next = self.start.0 as usize + events_of(child.0 as usize + 1, self.block);
        let end = next.min(self.events.count as usize);
        EventNo(end.saturating_sub(1) as u32)
    }

    // A piece of the inner table, as a piece of the layer's table.
    fn outer_piece(self, piece: Piece) -> Piece
        requires place { self.at < 2 ^ 40 }
        requires piece { InnerPiece self.start.0 (2 ^ self.block.e) piece }
        ensures { result ≡ piece_in_layer self.events.count self.at self.start.0 (2 ^ self.block.e) piece }
    {
        Piece {
            cell: CellNo(self.at as u64 + piece.cell.0),
            first: self.first_event(ChildNo(piece.first.0)),
            last: self.last_event(ChildNo(piece.last.0)),
        }
    }

    // Turns pieces of the inner table.
    pub(crate) fn turn_pieces(self, pieces: &mut [Piece])
        requires place { self.at < 2 ^ 40 }
        requires pieces { InnerPieces self.start.0 (2 ^ self.block.e) pieces.old }
        ensures { Written (λ k. outer_at self.events.count self.at self.start.0 (2 ^ self.block.e) (slice_get pieces.old k)) (length pieces.old) 0 pieces.old pieces.new }
    {
        for piece in pieces.iter_mut() {
            *piece = self.outer_piece(*piece);
        }
    }
}
