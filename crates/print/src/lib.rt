// Prints a run of the list's lines into an output, or refuses.
#![tactic(auto)]

ghost use Rattle.std.specs.Prelude.{◌≡◌, true, ◌+◌, ◌-◌, ◌^◌, ◌<◌, ◌≤◌, min, ltb, length, IfSome};
ghost use Rattle.refusals.specs.Refusal.{refused_with};
ghost use Rattle.btor2_list.specs.Record.{capacity};
ghost use Rattle.line_text.specs.Line.{nodes, run_text};
ghost use Rattle.print.specs.Room.{RoomWith, Surveyed, Roomy};
ghost use Rattle.print.specs.Printing.{nids_too_large, whole_refusal, answer_of, print_outcome, printing};

use btor2::NodeRef;
use btor2_list::{MOST_NID, list_out};
use line_text::{Listing, nid_at, put_run};
use list_check::Checked;
use refusals::Refusal;

// The most bytes of a line of such an identifier, and how many more one with a name has besides the name: a State has a second row.
const LINE_ROOM: usize = 53;

const NAMED_ROOM: usize = 10;

// Puts the `count` lines from place `from` on at the output's start, and gives how many bytes it wrote. A refusal changes nothing. Where one pass
// over the list finds that no refusal applies, as there is room for lines as long as they can be, the run is put at once; else the refusals are
// tested one by one, and the run is measured.
pub fn print(listing: &Listing, from: usize, count: usize, out: &mut [u8]) -> Result<usize, Refusal>
    ensures { print_outcome (answer_of result) out.new ≡ printing listing.now.list.now listing.now.lines listing.now.areas.host.now listing.now.areas.ours.now from count out.old }
{
    if roomy(listing, from, count, out.len()) {
        let n = put_run(out, 0, listing, from, count);
        return Ok(n);
    }
    if run_outside(listing.lines, from, count) {
        return Err(Refusal::BadCount);
    }
    check_whole(listing)?;
    let n = run_len(listing, from, count);
    if out.len() < n {
        return Err(Refusal::OutputTooShort);
    }
    put_run(out, 0, listing, from, count);
    Ok(n)
}

// No refusal applies: the list is in bounds and well formed, and the run fits in `end` bytes however long its lines are.
fn roomy(listing: &Listing, from: usize, count: usize, end: usize) -> bool
    ensures { result ≡ true → Roomy listing.now.list.now listing.now.lines (length listing.now.areas.host.now) (length listing.now.areas.ours.now) from count end }
{
    if list_out(listing.list, listing.lines) || run_outside(listing.lines, from, count) {
        return false;
    }
    let Some(names) = survey(listing) else {
        return false;
    };
    let Some(room) = end.checked_sub(names) else {
        return false;
    };
    LINE_ROOM * count <= room
}

// The room for the names of all lines, or none where a line has too large an identifier or is not well formed: one pass for both, as the list is
// longer than caches are.
fn survey(listing: &Listing) -> Option<usize>
    requires { listing.now.lines ≤ capacity (length listing.now.list.now) }
    ensures { IfSome result (λ r. Surveyed listing.now.list.now listing.now.lines (length listing.now.areas.host.now) (length listing.now.areas.ours.now) listing.now.lines r) }
{
    let list = listing.list;
    let host = listing.areas.host.len();
    let ours = listing.areas.ours.len();
    let mut names = 0;
    for i in 0..listing.lines {
        let own = nid_at(list, listing.lines, NodeRef(i));
        if MOST_NID < own.0 {
            return None;
        }
        names = with_name(list_check::check_line(list, i, host, ours), names)?;
    }
    Some(names)
}

// `names`, and the room for the name of a line that the check finds so; none where it is not well formed.
fn with_name(found: Checked, names: usize) -> Option<usize>
    ensures { IfSome result (λ r. RoomWith found names r) }
{
    match found {
        Checked::Unformed => None,
        Checked::Unnamed => Some(names),
        Checked::Named(len) => names.checked_add(NAMED_ROOM)?.checked_add(len as usize),
    }
}

// The run reaches past the list's lines.
fn run_outside(lines: usize, from: usize, count: usize) -> bool
    ensures { result ≡ ltb lines (from + count) }
{
    match from.checked_add(count) {
        Some(end) => lines < end,
        None => true,
    }
}

// The first of 9 and 11 that applies to a whole list: too many lines, a count above its storage or too large an identifier; a line that is not
// well formed. Nothing is written.
fn check_whole(listing: &Listing) -> Result<(), Refusal>
    ensures { refused_with result ≡ whole_refusal listing.now.list.now listing.now.lines (length listing.now.areas.host.now) (length listing.now.areas.ours.now) }
{
    let list = listing.list;
    let lines = listing.lines;
    if list_out(list, lines) || nids_too_large(list, lines) {
        return Err(Refusal::BadCount);
    }
    if list_check::unformed(
        list,
        lines,
        listing.areas.host.len(),
        listing.areas.ours.len(),
    ) {
        return Err(Refusal::Unformed);
    }
    Ok(())
}

// Some line has an identifier above the largest.
fn nids_too_large(list: &[u64], lines: usize) -> bool
    ensures { result ≡ nids_too_large list.now lines }
{
    for i in 0..lines {
        let nid = nid_at(list, lines, NodeRef(i));
        if MOST_NID < nid.0 {
            return true;
        }
    }
    false
}

// The bytes of a run. The pieces of text give the place after them past the end of an output too, so one byte serves to measure.
fn run_len(listing: &Listing, from: usize, count: usize) -> usize
    ensures { result ≡ min (length (run_text listing.now.areas.host.now listing.now.areas.ours.now (nodes listing.now.list.now listing.now.lines) from count)) (2 ^ 64 - 1) }
{
    let mut none = [0u8; 1];
    put_run(&mut none, 0, listing, from, count)
}
