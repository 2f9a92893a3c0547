// The join with one address's in-edges in a slice of records. Their words are put into words that the host lends, and the core, over number
// slices, does the work.
#![tactic(auto)]

ghost use Rattle.std.specs.Prelude.{◌≡◌, ◌+◌, ◌*◌, ◌≤◌, length};
ghost use Rattle.std.proofs.lemmas.List.Edits.{sets};
ghost use Rattle.edges.specs.Edges.{edge, edge_stride};
ghost use Rattle.edges.specs.InEdges.{edge_words};
ghost use Rattle.join.specs.Refusal.{join_input};
ghost use Rattle.join.specs.Code.{lists_lent, SameJoinLent, join_answered};
ghost use Rattle.join_entry.specs.Records.{with_words, joining_records};

use edges::{EDGE, InEdge};
use join::{JoinHeld, JoinInput, JoinLent, Joined};
use refusals::Refusal;

// Joins as `join_calls::join` does, with one address's edges in a slice of records. `words` is room for four words an edge, which the call may
// use; fewer are refusal 9, and so are more edges than there are records. Any call but one refused for these leaves its edges' words in front.
pub fn join(
    lent: &mut JoinLent,
    input: &JoinInput<InEdge>,
    words: &mut [u64],
    held: JoinHeld,
) -> Result<Joined, Refusal>
    ensures is { with_words (join_answered held (join_input (edge_words input.now.edges.now) input.now.dispatches.now input.now.flags.now input.now.dynamics.now input.now.asked) result (lists_lent lent.new)) words.new ≡ joining_records (lists_lent lent.old) held input.now.edges.now words.old input.now.dispatches.now input.now.flags.now input.now.dynamics.now input.now.asked }
    ensures same { SameJoinLent lent.old lent.new }
{
    let count = input.asked.edges;
    if (input.edges.len() < count) | (words.len() / EDGE < count) {
        return Err(Refusal::BadCount);
    }
    put_words(&input.edges[..count], words);
    let given = JoinInput {
        edges: words,
        dispatches: input.dispatches,
        flags: input.flags,
        dynamics: input.dynamics,
        asked: input.asked,
    };
    join_calls::join(lent, &given, held)
}

// Puts the words of the records, four each, into `words`, which hold them.
fn put_words(edges: &[InEdge], words: &mut [u64])
    requires { length edges.now * edge_stride ≤ length words.old }
    ensures { words.new ≡ sets words.old 0 (edge_words edges.now) }
{
    for (place, edge) in edges.iter().enumerate() {
        put_edge(words, place, *edge);
    }
}

// Puts the words of a record at its place.
fn put_edge(words: &mut [u64], place: usize, e: InEdge)
    requires { place * edge_stride + edge_stride ≤ length words.old }
    ensures { words.new ≡ sets words.old (place * edge_stride) (edge e.to e.from e.origin e.condition.0) }
{
    let b = place * EDGE;
    words[b] = e.to;
    words[b + 1] = e.from;
    words[b + 2] = e.origin;
    words[b + 3] = e.condition.0 as u64;
}
