// A call apart from the roles: by what the instruction reads of them, what it gives to be set.
ghost use Rattle.std.specs.Prelude.{◌≡◌, Ok, IfOk, ◌+◌, ◌≤◌};
ghost use Rattle.refusals.specs.Refusal.{refused_with};
ghost use Rattle.riscv.specs.Class.{class as class_at};
ghost use Rattle.riscv.specs.Kind.{kind_at};
ghost use Rattle.riscv.specs.Zeros.{zeros_of};
ghost use Rattle.builder.specs.Append.{run_for};
ghost use Rattle.btor2_list.specs.Limits.{most_lines};
ghost use Rattle.lowering_refusals.specs.Refusal.{refusal_given};
ghost use Rattle.lowering.specs.Lines.{name_for, program_with};
ghost use Rattle.lowering.specs.Lowering.{lent_by, SameLent, room_in, link_lines, names_after, dispatches_after, bads_after, counts_after};
ghost use Rattle.lowering_calls.specs.Bounds.{Added, Ready};
ghost use Rattle.lowering_calls.specs.Apart.{given_apart, accepted_with, call_apart};

use btor2::NodeRef;
use btor2_list::MOST_NID;
use builder::Tally;
use lowering::{Lent, LowerCall, lower_lines, name_for};
use lowering_refusals::{Storage, Weighed, weigh};
use models::{Flows, Outcome};
use refusals::Refusal;
use riscv::Zeros;
use riscv_rows::{has_bad, has_dispatch};
use state::{Counts, Reads, Room, counts_out, room_of};

// What a call reads of a state: how much is in use, and of the roles what its instruction reads.
#[derive(Clone, Copy)]
pub(crate) struct Before {
    pub tally: Tally,
    pub counts: Counts,
    pub reads: Reads,
}

// What an accepted call gives apart from the roles.
#[derive(Clone, Copy)]
pub(crate) struct Apart {
    pub tally: Tally,
    pub counts: Counts,
    pub flows: Flows,
    pub outcome: Outcome,
}

// The refusals first, then what an accepted call does.
pub(crate) fn lower_apart(
    lent: &mut Lent,
    before: Before,
    call: LowerCall,
    fits: bool,
) -> Result<Apart, Refusal>
    ensures is { given_apart before result (lent_by lent.new) ≡ call_apart fits (lent_by lent.old) before.tally before.counts before.reads call.instruction call.address call.flag }
    ensures same { SameLent lent.old lent.new }
{
    let weighed = refuse(lent, before, call, fits)?;
    Ok(accept(lent, before, weighed, call))
}

// 9, then 13 by the answer of the test of the roles, then the refusals of the record.
fn refuse(lent: &Lent, before: Before, call: LowerCall, fits: bool) -> Result<Weighed, Refusal>
    ensures refusal { refused_with result ≡ refusal_given fits lent.now.list.now (room_in (lent_by lent.now)) before.tally before.counts call.instruction call.address call.flag.0 }
    ensures ready { IfOk result (λ w. Ready before.tally before.counts w.needs call.instruction call.address) }
    ensures class { IfOk result (λ w. w.class ≡ class_at (kind_at call.instruction.kind)) }
    ensures zeros { IfOk result (λ w. w.zeros ≡ zeros_of call.instruction) }
{
    let tally = before.tally;
    let counts = before.counts;
    let room = room_of(
        lent.list.len(),
        lent.names.len(),
        lent.edges.len(),
        lent.dispatches.len(),
        lent.bads.len(),
    );
    if counts_out(MOST_NID, room, tally, counts) {
        return Err(Refusal::BadCount);
    }
    if !fits {
        return Err(Refusal::UnfitRoles);
    }
    let storage = Storage {
        room,
        tally,
        counts,
    };
    let weighed = weigh(
        lent.list,
        storage,
        call.instruction,
        call.address,
        call.flag,
    );
    weighed.accepted?;
    Ok(weighed)
}

// What an accepted call does.
fn accept(lent: &mut Lent, before: Before, weighed: Weighed, call: LowerCall) -> Apart
    requires { Ready before.tally before.counts weighed.needs call.instruction call.address }
    ensures is { given_apart before (Ok result) (lent_by lent.new) ≡ accepted_with weighed.class weighed.zeros (lent_by lent.old) before.tally before.counts call.instruction call.address (run_for call.address lent.old.list.now before.tally (program_with (name_for weighed.class weighed.zeros before.counts.names call.address) weighed.zeros before.reads call.instruction call.address)) }
    ensures same { SameLent lent.old lent.new }
{
    let i = call.instruction;
    let name = name_for(
        weighed.class,
        weighed.zeros,
        before.counts.names,
        call.address,
    );
    let m = lower_lines(
        lent.list,
        before.tally,
        name,
        weighed.zeros,
        before.reads,
        i,
        call.address,
    );
    edges::go_to_instructions(
        lent.edges,
        before.counts.edges,
        weighed.class,
        call.address,
        i.imm,
        m.outcome,
    );
    put_jalr(lent, before, weighed, call);
    Apart {
        tally: m.tally,
        counts: counts_after(before.counts, weighed.needs),
        flows: m.flows,
        outcome: m.outcome,
    }
}

// What Jalr adds besides lines: under x0 the bad line's name and place, else a dispatch.
fn put_jalr(lent: &mut Lent, before: Before, weighed: Weighed, call: LowerCall)
    requires { before.tally.lines ≤ most_lines }
    ensures is { lent_by lent.new ≡ record (lent_by lent.old) { names = names_after lent.old.names.now before.counts.names weighed.class weighed.zeros call.address; dispatches = dispatches_after lent.old.dispatches.now before.counts.dispatches weighed.class weighed.zeros call.instruction.rs1 call.address; bads = bads_after lent.old.bads.now before.counts.bads weighed.class weighed.zeros before.tally.lines } }
    ensures same { SameLent lent.old lent.new }
{
    if has_bad(weighed.class, weighed.zeros) {
        let place = bad_place(weighed.zeros, before.tally.lines);
        text::put_bad_name(lent.names, before.counts.names, call.address);
        edges::put_place(lent.bads, before.counts.bads, place);
    } else if has_dispatch(weighed.class, weighed.zeros) {
        edges::go_to_anywhere(
            lent.dispatches,
            before.counts.dispatches,
            call.instruction.rs1,
            call.address,
        );
    }
}

// The bad line stands after the link's two lines, which there are where rd is not x0.
fn bad_place(zeros: Zeros, lines: usize) -> NodeRef
    requires { lines ≤ most_lines }
    ensures { result.0 ≡ lines + link_lines zeros }
{
    NodeRef(if zeros.rd { lines } else { lines + 2 })
}

fn counts_after(counts: Counts, needs: Room) -> Counts
    requires { Added counts needs }
    ensures { result ≡ counts_after counts needs }
{
    Counts {
        names: counts.names + needs.names,
        edges: counts.edges + needs.edges,
        dispatches: counts.dispatches + needs.dispatches,
        bads: counts.bads + needs.bads,
    }
}
