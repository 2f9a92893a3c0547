// Records of numbers in slices that the host lends, each after `count` others. Each put is total: where the slice holds no further record it
// changes nothing.
ghost use Rattle.std.specs.Prelude.{◌≡◌, ◌<◌, [], ◌∷◌};
ghost use Rattle.btor2_list.specs.Records.{put_record};
ghost use Rattle.edges.specs.Edges.{edge};

use crate::InEdge;
use btor2::NodeRef;

// The words of an in-edge: to, from, origin, condition.
pub const EDGE: usize = 4;

// The words of a dispatch: register, from.
pub const DISPATCH: usize = 2;

pub(crate) fn put_edge(edges: &mut [u64], count: usize, e: InEdge)
    ensures { edges.new ≡ put_record 4 edges.old count (edge e.to e.from e.origin e.condition.0) }
{
    put_record(edges, count, [e.to, e.from, e.origin, e.condition.0 as u64]);
}

// Jalr under a register: a dispatch.
pub fn go_to_anywhere(dispatches: &mut [u64], count: usize, register: u64, from: u64)
    ensures { dispatches.new ≡ put_record 2 dispatches.old count (register ∷ from ∷ []) }
{
    put_record(dispatches, count, [register, from]);
}

// The place of a line: of a bad line with the bads, of a Next with the sequentials.
pub fn put_place(places: &mut [u64], count: usize, place: NodeRef)
    ensures { places.new ≡ put_record 1 places.old count (place.0 ∷ []) }
{
    put_record(places, count, [place.0 as u64]);
}

fn put_record<const N: usize>(words: &mut [u64], count: usize, fields: [u64; N])
    requires { 0 < N }
    ensures { words.new ≡ put_record N words.old count fields.entry }
{
    if count < words.len() / N {
        let at = count * N;
        words[at..at + N].copy_from_slice(&fields);
    }
}
