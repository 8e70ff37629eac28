//! The order of an epoch's pieces.

ghost use Rattle.std.specs.Prelude.{◌≡◌};
ghost use Rattle.std.specs.List.Sorted.{IsPermutation};
ghost use Rattle.coco_parallel.specs.PieceOrder.{ArePiecesInOrder, id_at};

use coco_types::{Piece, Request};

/// The same pieces, by time, id of their request and partition: in the order of the Dones that they are of. It takes
/// no memory.
pub(crate) fn in_done_order(mut parts: Vec<Piece>, requests: &[Request]) -> Vec<Piece>
    ensures same { IsPermutation parts.items result.items }
    ensures order { ArePiecesInOrder requests.now result.items }
{
    parts.sort_unstable_by_key(|piece| (
        piece.time,
        request_id(requests, piece.place),
        piece.partition,
    ));
    parts
}

// The id of the request at a place; there is none past the end.
fn request_id(requests: &[Request], place: u32) -> u64
    ensures { result ≡ id_at requests.now place }
{
    match requests.get(place as usize) {
        Some(request) => request.id,
        None => 0,
    }
}
