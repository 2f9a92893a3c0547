// What an instruction needs of lent storage, and the refusals of a lowering but 9 and 13, whose tests are state's.
#![tactic(auto)]

ghost use Rattle.std.specs.Prelude.{◌≡◌, [], ◌∷◌, cond, not, ◌&&◌, eqb, ltb, length, ◌+◌};
ghost use Rattle.lowering_refusals.specs.Refusal.{needs_of, needs as needs_at, flag_out, room_out, tests_of_record};
ghost use Rattle.btor2.specs.declared.NodeType.TheVariants.{Bit};
ghost use Rattle.btor2.specs.Sort.{sort_number};
ghost use Rattle.btor2_list.specs.Look.{look_at};
ghost use Rattle.refusals.specs.Refusal.{refused_with};
ghost use Rattle.state.specs.RolesFit.{value_sort};
ghost use Rattle.text.specs.BadName.{bad_name};
ghost use Rattle.riscv.specs.Class.{class as class_at, class_needs_flag};
ghost use Rattle.riscv.specs.Zeros.{zeros_of};
ghost use Rattle.riscv.specs.Kind.{kind_at};
ghost use Rattle.riscv.specs.Refusal.{refusal, first};

use btor2::{BIT, NodeRef};
use btor2_list::MOST_LINES;
use builder::Tally;
use refusals::Refusal;
use riscv::{Class, Instruction, Zeros};
use riscv_rows::{class_of, has_bad, has_dispatch, line_count, needs_flag, zeros_of};
use state::{Counts, Room};

// What a record needs of lent storage, its kind's class, which of its fields are zero, and whether it is refused.
#[derive(Clone, Copy)]
pub struct Weighed {
    pub accepted: Result<(), Refusal>,
    pub needs: Room,
    pub class: Class,
    pub zeros: Zeros,
}

// How much storage is lent, and how much of it is in use.
#[derive(Clone, Copy)]
pub struct Storage {
    pub room: Room,
    pub tally: Tally,
    pub counts: Counts,
}

// Weighs a record, refused or not; it is refused with the first of 1 to 6, 7 and 8 that applies to it and what is lent for it.
pub fn weigh(list: &[u64], storage: Storage, i: Instruction, address: u64, flag: NodeRef) -> Weighed
    ensures refusal { refused_with result.accepted ≡ first (tests_of_record list.now storage.room storage.tally storage.counts i address flag.0) }
    ensures needs { result.needs ≡ needs_at i address }
    ensures class { result.class ≡ class_at (kind_at i.kind) }
    ensures zeros { result.zeros ≡ zeros_of i }
{
    let class = class_of(i.kind);
    let zeros = zeros_of(i);
    let needs = needs_of(i.kind, class, zeros, address);
    let accepted = refuse_record(list, storage, needs, class, zeros, i, flag);
    Weighed {
        accepted,
        needs,
        class,
        zeros,
    }
}

// The first of 1 to 6, 7 and 8 that applies, by what the record needs, its kind's class and its zero fields.
fn refuse_record(
    list: &[u64],
    storage: Storage,
    needs: Room,
    class: Class,
    z: Zeros,
    i: Instruction,
    flag: NodeRef,
) -> Result<(), Refusal>
    requires class { class ≡ class_at (kind_at i.kind) }
    requires zeros { z ≡ zeros_of i }
    ensures { refused_with result ≡ first ((not (eqb (refusal i) 0), refusal i) ∷ (flag_out list.now storage.tally.lines i flag.0, 7) ∷ (room_out storage.room storage.tally storage.counts needs, 8) ∷ []) }
{
    riscv_rows::check(i)?;
    if flag_out(list, storage.tally.lines, class, z, flag) {
        return Err(Refusal::NoFlag);
    }
    if room_out(storage, needs) {
        return Err(Refusal::NoRoom);
    }
    Ok(())
}

// What an instruction appends.
#[tactic(auto, unfolding(crate::specs::Refusal::needs_of))]
fn needs_of(kind: u64, class: Class, z: Zeros, address: u64) -> Room
    requires { class ≡ class_at (kind_at kind) }
    ensures { result ≡ needs_of (kind_at kind) z address }
{
    let bad = has_bad(class, z);
    let dispatch = has_dispatch(class, z);
    Room {
        lines: line_count(kind, z),
        names: name_room(bad, address),
        edges: edges::edge_count(class),
        dispatches: usize::from(dispatch),
        bads: usize::from(bad),
    }
}

// The bytes of the name of a bad line, where there is one.
fn name_room(bad: bool, address: u64) -> usize
    ensures { result ≡ cond bad (length (bad_name address)) 0 }
{
    if bad { text::bad_name_len(address) } else { 0 }
}

// 7: a flag is needed, and the place given for it is no value line of sort Bit.
fn flag_out(list: &[u64], lines: usize, class: Class, z: Zeros, flag: NodeRef) -> bool
    ensures { result ≡ (class_needs_flag class z && not (eqb (value_sort (look_at list.now lines flag.0)) (sort_number Bit))) }
{
    needs_flag(class, z) && state::value_sort(list, lines, flag) != BIT
}

// 8: what an instruction appends exceeds what is lent, or the most lines.
#[tactic(auto, unfolding(crate::specs::Refusal::room_out))]
fn room_out(storage: Storage, n: Room) -> bool
    ensures { result ≡ room_out storage.room storage.tally storage.counts n }
{
    let room = storage.room;
    let lines = storage.tally.lines;
    let counts = storage.counts;
    exceeds(MOST_LINES, lines, n.lines)
        || exceeds(room.lines, lines, n.lines)
        || exceeds(room.names, counts.names, n.names)
        || exceeds(room.edges, counts.edges, n.edges)
        || exceeds(room.dispatches, counts.dispatches, n.dispatches)
        || exceeds(room.bads, counts.bads, n.bads)
}

// Whether so many more than a count are more than there is room for.
fn exceeds(room: usize, count: usize, more: usize) -> bool
    ensures { result ≡ ltb room (count + more) }
{
    count.checked_add(more).map_or(true, |sum| room < sum)
}
