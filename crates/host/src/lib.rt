// The library for a host in C or Rust. A slice is a pointer and a length there; the state is 85 words that the host keeps. Each function has a
// parameter for each of these, however many they are, since that is the interface for C.
#![tactic(auto)]

ghost use Rattle.std.specs.Prelude.{◌≡◌, length};
ghost use Rattle.lowering.specs.Lowering.{lent};
ghost use Rattle.state.specs.Room.{room_of};
ghost use Rattle.lowering.specs.Words.{given, lowering_words};
ghost use Rattle.lowering.specs.All.{given_all, lowering_all_words};
ghost use Rattle.join.specs.Refusal.{join_lent, join_input};
ghost use Rattle.join.specs.Words.{given_join, joining_words};
ghost use Rattle.host.specs.Host.{given_text, host_printing, host_check, given_numbers, host_evaluation, given_address, host_address};

use btor2::NodeRef;
use join::{Asked, JoinInput, JoinLent};
use line_text::{Areas, Listing};
use lowering::{Lent, LowerCall};
use refusals::{Refusal, number_or_zero};
use riscv::Instruction;
use state::STATE_WORDS;

// Lowers the instruction `kind`, `rd`, `rs1`, `rs2`, `imm` at an address under a flag. Gives the number of the refusal, or 0. A refused call
// changes nothing.
#[unsafe(no_mangle)]
pub extern "C" fn lanthanumbat_lower(
    list: &mut [u64],
    names: &mut [u8],
    edges: &mut [u64],
    dispatches: &mut [u64],
    bads: &mut [u64],
    state: &mut [u64],
    address: u64,
    kind: u64,
    rd: u64,
    rs1: u64,
    rs2: u64,
    imm: u64,
    flag: usize,
) -> u64
    ensures { given result (lent list.new names.new edges.new dispatches.new bads.new) state.new ≡ lowering_words (lent list.old names.old edges.old dispatches.old bads.old) state.old (record { kind = kind; rd = rd; rs1 = rs1; rs2 = rs2; imm = imm }) address (record { 0 = flag }) }
{
    let mut lent = Lent {
        list,
        names,
        edges,
        dispatches,
        bads,
    };
    let call = LowerCall {
        instruction: Instruction {
            kind,
            rd,
            rs1,
            rs2,
            imm,
        },
        address,
        flag: NodeRef(flag),
    };
    number_or_zero(lowering_calls::lower_words(&mut lent, state, call))
}

// Lowers call after call, seven words each: address, kind, rd, rs1, rs2, imm, flag. Stops at the first that is refused: gives how many were
// accepted, and through `refusal` the number of the next one's refusal, or 0.
#[unsafe(no_mangle)]
pub extern "C" fn lanthanumbat_lower_all(
    list: &mut [u64],
    names: &mut [u8],
    edges: &mut [u64],
    dispatches: &mut [u64],
    bads: &mut [u64],
    state: &mut [u64],
    calls: &[u64],
    refusal: &mut u64,
) -> usize
    ensures { given_all result refusal.new (lent list.new names.new edges.new dispatches.new bads.new) state.new ≡ lowering_all_words (lent list.old names.old edges.old dispatches.old bads.old) state.old calls.now }
{
    let mut lent = Lent {
        list,
        names,
        edges,
        dispatches,
        bads,
    };
    let stopped = lowering_calls::lower_all(&mut lent, state, calls);
    *refusal = stopped.refusal.map_or(0, |r| r.number());
    stopped.done
}

// Joins one address's edges, then its dispatches, into a flow: `flow` is the starting flow's place, and is set to the new one; `used` is how many
// sequentials are in use, and is set to how many there are then. Gives the number of the refusal, or 0. A refused call changes nothing.
#[unsafe(no_mangle)]
pub extern "C" fn lanthanumbat_join(
    list: &mut [u64],
    names: &mut [u8],
    sequentials: &mut [u64],
    state: &mut [u64],
    edges: &[u64],
    dispatches: &[u64],
    flags: &[u64],
    dynamics: &[u64; 31],
    count: usize,
    dispatched: usize,
    flagged: usize,
    mode: usize,
    none: usize,
    used: &mut usize,
    flow: &mut usize,
) -> u64
    ensures { given_join result flow.new used.new (join_lent list.new names.new sequentials.new) state.new ≡ joining_words (join_lent list.old names.old sequentials.old) state.old used.old (join_input edges.now dispatches.now flags.now dynamics.now (record { edges = count; dispatches = dispatched; flags = flagged; mode = record { 0 = mode }; none = record { 0 = none }; flow = record { 0 = flow.old } })) }
{
    let mut lent = JoinLent {
        list,
        names,
        sequentials,
    };
    let input = JoinInput {
        edges,
        dispatches,
        flags,
        dynamics,
        asked: Asked {
            edges: count,
            dispatches: dispatched,
            flags: flagged,
            mode: NodeRef(mode),
            none: NodeRef(none),
            flow: NodeRef(*flow),
        },
    };
    match join_calls::join_words(&mut lent, state, &input, *used) {
        Ok(joined) => {
            *flow = joined.flow.0;
            *used = joined.sequentials;
            0
        }
        Err(refusal) => refusal.number(),
    }
}

// Puts the `count` lines from place `from` on, of a list of this many lines, at the output's start. Gives the number of the refusal, or 0, and
// through `written` how many bytes there are, 0 where it is refused. A refused call leaves the output as it was.
#[unsafe(no_mangle)]
pub extern "C" fn lanthanumbat_print<'a>(
    list: &[u64],
    lines: usize,
    host: &'a [u8],
    ours: &'a [u8],
    from: usize,
    count: usize,
    out: &mut [u8],
    written: &mut u64,
) -> u64
    ensures { given_text result written.new out.new ≡ host_printing list.now lines host.now ours.now from count out.old }
{
    let areas = Areas { host, ours };
    let listing = Listing { list, lines, areas };
    match print::print(&listing, from, count, out) {
        Ok(n) => {
            *written = n as u64;
            0
        }
        Err(refusal) => {
            *written = 0;
            refusal.number()
        }
    }
}

// Checks a start: the first of 9 to 13 that applies, or 0. Nothing is written.
#[unsafe(no_mangle)]
pub extern "C" fn lanthanumbat_check_start(
    list: &[u64],
    host: &[u8],
    names: &[u8],
    edges: &[u64],
    dispatches: &[u64],
    bads: &[u64],
    state: &[u64],
) -> u64
    ensures { result ≡ host_check list.now (length host.now) (room_of (length list.now) (length names.now) (length edges.now) (length dispatches.now) (length bads.now)) state.now }
{
    if state.len() < STATE_WORDS {
        return Refusal::BadCount.number();
    }
    let given = state::state_in(state);
    number_or_zero(start::check_start(list, host, names, edges, dispatches, bads, given))
}

// Evaluates the line at a place of a list of this many lines on given values, records of node and value, and of node, address and word. Gives
// the number of the refusal, or 0, and through `value` and `visits` the value and how many visits it took. A refused call changes nothing.
#[unsafe(no_mangle)]
pub extern "C" fn lanthanumbat_evaluate(
    list: &[u64],
    lines: usize,
    values: &[u64],
    memory: &[u64],
    asked: usize,
    value: &mut u64,
    visits: &mut u64,
) -> u64
    ensures { given_numbers result value.new visits.new ≡ host_evaluation list.now lines values.now memory.now asked value.old visits.old }
{
    match evaluation_calls::evaluate(list, lines, values, memory, NodeRef(asked)) {
        Ok(evaluated) => {
            *value = evaluated.value;
            *visits = evaluated.visits;
            0
        }
        Err(refusal) => refusal.number(),
    }
}

// The address of the instruction that the line at a place was lowered for, of a list of this many lines. Gives 1 and the address through `address`, or
// 0 where there is no such line or it has none; `address` is then as it was.
#[unsafe(no_mangle)]
pub extern "C" fn lanthanumbat_address(
    list: &[u64],
    lines: usize,
    place: usize,
    address: &mut u64,
) -> u64
    ensures { given_address result address.new ≡ host_address list.now lines place address.old }
{
    match btor2_list::address_at(list, lines, NodeRef(place)) {
        Some(a) => {
            *address = a;
            1
        }
        None => 0,
    }
}
