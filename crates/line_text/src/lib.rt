// Node lines of a list as text, one or a run of them.
#![tactic(auto)]

mod record;

ghost use Rattle.std.specs.Prelude.{◌≡◌, length};
ghost use Rattle.text.specs.Put.{Put};
ghost use Rattle.btor2_list.specs.Record.{capacity};
ghost use Rattle.btor2_list.specs.Node.{node_of};
ghost use Rattle.line_text.specs.Line.{nodes, nid_at, node_text, run_text};

use btor2::{Nid, NodeRef};
use btor2_list::Line;
pub use record::Areas;
use record::Identified;

// A list of lines, in words that may hold more, and the areas of their names.
#[derive(Clone, Copy)]
pub struct Listing<'a> {
    pub list: &'a [u64],
    pub lines: usize,
    pub areas: Areas<'a>,
}

// The identifier of the line at a place (unicorn's `get_nid`), 0 where there is none, as the definition has it.
pub fn nid_at(list: &[u64], lines: usize, place: NodeRef) -> Nid
    ensures { result.0 ≡ nid_at (nodes list.now lines) place.0 }
{
    if lines <= place.0 {
        return Nid(0);
    }
    btor2_list::nid_at(list, place)
}

// The `count` lines from a place on; fewer where the list ends.
pub fn put_run(out: &mut [u8], at: usize, listing: &Listing, from: usize, count: usize) -> usize
    ensures { Put out.old at (run_text listing.now.areas.host.now listing.now.areas.ours.now (nodes listing.now.list.now listing.now.lines) from count) out.new result }
{
    let list = btor2_list::first_lines(listing.list, listing.lines);
    put_lines(out, at, list, &listing.areas, from, count)
}

// In words that the list fills, so that one test tells whether a place is one of its lines.
fn put_lines(
    out: &mut [u8],
    at: usize,
    list: &[u64],
    areas: &Areas,
    from: usize,
    count: usize,
) -> usize
    ensures { Put out.old at (run_text areas.now.host.now areas.now.ours.now (nodes list.now (capacity (length list.now))) from count) out.new result }
{
    let mut p = at;
    for place in from..from.saturating_add(count) {
        let Some(line) = btor2_list::get(list, NodeRef(place)) else {
            return p;
        };
        p = put_line(out, p, list, areas, line);
    }
    p
}

// A line of such a list.
fn put_line(out: &mut [u8], at: usize, list: &[u64], areas: &Areas, line: Line) -> usize
    ensures { Put out.old at (node_text areas.now.host.now areas.now.ours.now (nodes list.now (capacity (length list.now))) (node_of line)) out.new result }
{
    let identified = Identified {
        line,
        a: btor2_list::nid_at(list, line.op1),
        b: btor2_list::nid_at(list, line.op2),
        c: btor2_list::nid_at(list, line.op3),
    };
    record::put_record(out, at, identified, areas)
}
