// The listing's remarks on edges as text.
ghost use Rattle.std.specs.Prelude.{◌≡◌};
ghost use Rattle.line_text.specs.Line.{nodes};
ghost use Rattle.text.specs.Ascii.{ascii};
ghost use Rattle.text.specs.Put.{Put};
ghost use Rattle.listing_text.specs.Remarks.{condition_text, edge_text, edges_text};
ghost use Rattle.listing_text.specs.Remarks.{origin_word as Remarks·origin_word};

use btor2::NodeRef;
use edges::{InEdge, Origin};
use line_text::nid_at;

fn origin_word(origin: u64) -> &'static [u8]
    ensures { result.now ≡ ascii (Remarks·origin_word origin) }
{
    match Origin::numbered(origin) {
        Some(Origin::Regular) => b"regular",
        Some(Origin::Branch) => b"branch",
        _ => b"syscall",
    }
}

fn put_condition(out: &mut [u8], at: usize, list: &[u64], lines: usize, condition: u64) -> usize
    ensures { Put out.old at (condition_text (nodes list.now lines) condition) out.new result }
{
    if condition == edges::NO_CONDITION {
        return text::put_bytes(out, at, b"-");
    }
    let nid = nid_at(list, lines, NodeRef(condition as usize));
    text::put_decimal(out, at, nid.0)
}

fn put_edge(out: &mut [u8], at: usize, list: &[u64], lines: usize, edge: InEdge) -> usize
    ensures { Put out.old at (edge_text (nodes list.now lines) edge.to edge.from edge.origin edge.condition.0) out.new result }
{
    let at = text::put_bytes(out, at, b"; in ");
    let at = text::put_decimal(out, at, edge.to);
    let at = text::put_bytes(out, at, b" from ");
    let at = text::put_decimal(out, at, edge.from);
    let at = text::put_byte(out, at, b' ');
    let at = text::put_bytes(out, at, origin_word(edge.origin));
    let at = text::put_byte(out, at, b' ');
    let at = put_condition(out, at, list, lines, edge.condition.0 as u64);
    text::put_byte(out, at, b'\n')
}

// The first `count` edges, their conditions being lines of the list.
pub fn put_edges(
    out: &mut [u8],
    at: usize,
    list: &[u64],
    lines: usize,
    records: &[u64],
    count: usize,
) -> usize
    ensures { Put out.old at (edges_text (nodes list.now lines) records.now count) out.new result }
{
    let mut p = at;
    for record in records.chunks_exact(edges::EDGE).take(count) {
        let edge = InEdge {
            to: record[0],
            from: record[1],
            origin: record[2],
            condition: NodeRef(record[3] as usize),
        };
        p = put_edge(out, p, list, lines, edge);
    }
    p
}
