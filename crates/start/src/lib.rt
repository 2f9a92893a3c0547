// The check of a list of lines, which is refused with 9 to 12, and of a start: whoever prepares it is refused with 9 to 13.
#![tactic(auto)]

ghost use Rattle.std.specs.Prelude.{◌≡◌, length};
ghost use Rattle.state.specs.Room.{room_of};
ghost use Rattle.refusals.specs.Refusal.{refused_with};
ghost use Rattle.start.specs.Start.{list_refusal, start_refusal};

use btor2_list::{MOST_START_NID, capacity, tally_out};
use list_check::unformed;
use nid_check::nids_out;
use refusals::Refusal;
use sort_check::sort_broken;
use state::{State, counts_out, roles_out, room_of};

// Refused with the first of 9 to 12 that applies to a list of this many lines with this next identifier: each is looked for in the whole list before
// the next. `host` and `ours` are the lengths of the two name areas. Nothing is written.
fn check_list(
    list: &[u64],
    lines: usize,
    next: u64,
    host: usize,
    ours: usize,
) -> Result<(), Refusal>
    ensures { refused_with result ≡ list_refusal list.now lines next host ours }
{
    if tally_out(MOST_START_NID, capacity(list.len()), lines, next) {
        return Err(Refusal::BadCount);
    }
    if nids_out(list, lines, next) {
        return Err(Refusal::BadIdentifiers);
    }
    if unformed(list, lines, host, ours) {
        return Err(Refusal::Unformed);
    }
    if sort_broken(list, lines) {
        return Err(Refusal::IllSorted);
    }
    Ok(())
}

// Refused with the first of 9 to 13 that applies to a start. `state` says how much of each lent list is in use, the next identifier and the roles: 9
// asks all of these counts, and the list's own check repeats it for the lines alone. Nothing is written.
pub fn check_start(
    list: &[u64],
    host: &[u8],
    names: &[u8],
    edges: &[u64],
    dispatches: &[u64],
    bads: &[u64],
    state: State,
) -> Result<(), Refusal>
    ensures { refused_with result ≡ start_refusal list.now (length host.now) (room_of (length list.now) (length names.now) (length edges.now) (length dispatches.now) (length bads.now)) state }
{
    let room = room_of(
        list.len(),
        names.len(),
        edges.len(),
        dispatches.len(),
        bads.len(),
    );
    let t = state.tally;
    if counts_out(MOST_START_NID, room, t, state.counts) {
        return Err(Refusal::BadCount);
    }
    check_list(list, t.lines, t.nid, host.len(), names.len())?;
    if roles_out(list, t.lines, state.roles) {
        return Err(Refusal::UnfitRoles);
    }
    Ok(())
}
