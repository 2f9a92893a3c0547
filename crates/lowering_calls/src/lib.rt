// The calls: one instruction over the state's words or over a state, and many in one. Each tests the roles itself; many test them once, since an
// accepted call's roles fit again (crates/roles_kept).
#![tactic(auto)]

mod apart;

ghost use Rattle.std.specs.Prelude.{◌≡◌, ◌+◌, ◌*◌, ◌≤◌, length, drop};
ghost use Rattle.refusals.specs.Refusal.{refused_with};
ghost use Rattle.state.specs.RolesFit.{roles_fit};
ghost use Rattle.lowering.specs.Lowering.{lent_by, SameLent, answer, lowered_by, lowering};
ghost use Rattle.state.specs.Words.{state_in};
ghost use Rattle.lowering.specs.Words.{given, lowering_words};
ghost use Rattle.lowering.specs.All.{call_words, call_in, stopped_with, given_all, lowering_all_words};
ghost use Rattle.lowering_calls.specs.Known.{known_words, words_all};

use apart::{Before, lower_apart};
use btor2::NodeRef;
use lowering::{Lent, LowerCall};
use refusals::Refusal;
use riscv::Instruction;
use state::{STATE_WORDS, State};

// The words of a call: address, kind, rd, rs1, rs2, imm, flag.
pub const CALL: usize = 7;

// The flag of a call that has none: a place that no list reaches. It is no Option, since the C interface gives a flag as a word, and the
// definition `lowering` speaks of its place.
pub const NO_FLAG: NodeRef = NodeRef(0xffff_ffff_ffff_ffff);

// How many calls were accepted, and the refusal of the next one, if it was refused.
#[derive(Clone, Copy)]
pub struct Stopped {
    pub done: usize,
    pub refusal: Option<Refusal>,
}

// Lowers an instruction at an address under a flag. `state` says how much of each lent list is in use, the next identifier and the roles.
// A refused call changes nothing.
pub fn lower(lent: &mut Lent, state: State, call: LowerCall) -> Result<State, Refusal>
    ensures is { answer (lowered_by state result) (lent_by lent.new) ≡ lowering (lent_by lent.old) state call.instruction call.address call.flag }
    ensures same { SameLent lent.old lent.new }
{
    let mut words = state::words_of(state.tally, state.counts, state.roles);
    lower_words(lent, &mut words, call)?;
    Ok(state::state_in(&words))
}

// The same over the state's words, which the host keeps. Refused with 9 where there are fewer words than a state has.
pub fn lower_words(lent: &mut Lent, state: &mut [u64], call: LowerCall) -> Result<(), Refusal>
    ensures is { given (refused_with result) (lent_by lent.new) state.new ≡ lowering_words (lent_by lent.old) state.old call.instruction call.address call.flag }
    ensures same { SameLent lent.old lent.new }
{
    let fits = roles_fit(lent, state);
    lower_known(lent, state, call, fits)
}

// Lowers call after call, seven words each, and stops at the first that is refused: what those before it did stays.
pub fn lower_all(lent: &mut Lent, state: &mut [u64], calls: &[u64]) -> Stopped
    ensures is { given_all result.done (stopped_with result.refusal) (lent_by lent.new) state.new ≡ lowering_all_words (lent_by lent.old) state.old calls.now }
    ensures same { SameLent lent.old lent.new }
{
    if state.len() < STATE_WORDS {
        return Stopped {
            done: 0,
            refusal: Some(Refusal::BadCount),
        };
    }
    let fits = roles_fit(lent, state);
    lower_rest(lent, state, calls, fits)
}

// Whether the roles of the state in these words fit.
fn roles_fit(lent: &Lent, words: &[u64]) -> bool
    ensures { result ≡ roles_fit lent.now.list.now (state_in words.now).tally.lines 0 (state_in words.now).roles }
{
    let state = state::state_in(words);
    !state::roles_out(lent.list, state.tally.lines, state.roles)
}

// A call over the state's words where it is known whether the roles of the state in them fit.
fn lower_known(
    lent: &mut Lent,
    state: &mut [u64],
    call: LowerCall,
    fits: bool,
) -> Result<(), Refusal>
    ensures is { given (refused_with result) (lent_by lent.new) state.new ≡ known_words fits (lent_by lent.old) state.old call.instruction call.address call.flag }
    ensures same { SameLent lent.old lent.new }
{
    if state.len() < STATE_WORDS {
        return Err(Refusal::BadCount);
    }
    let before = Before {
        tally: state::tally_in(state),
        counts: state::counts_in(state),
        reads: state::reads_in(state, call.flag, call.instruction),
    };
    let apart = lower_apart(lent, before, call, fits)?;
    state::put_state(
        state,
        apart.tally,
        apart.counts,
        apart.flows,
        call.instruction.rd,
        apart.outcome,
    );
    Ok(())
}

// All calls where it is known whether the roles fit at the start.
fn lower_rest(lent: &mut Lent, state: &mut [u64], calls: &[u64], fits: bool) -> Stopped
    ensures is { given_all result.done (stopped_with result.refusal) (lent_by lent.new) state.new ≡ words_all fits (lent_by lent.old) state.old calls.now }
    ensures same { SameLent lent.old lent.new }
{
    let count = calls.len() / CALL;
    for done in 0..count {
        let call = call_at(calls, done);
        if let Err(refusal) = lower_known(lent, state, call, fits) {
            return Stopped {
                done,
                refusal: Some(refusal),
            };
        }
    }
    Stopped {
        done: count,
        refusal: None,
    }
}

// The call after `done` others.
fn call_at(calls: &[u64], done: usize) -> LowerCall
    requires { done * call_words + call_words ≤ length calls.now }
    ensures { result ≡ call_in (drop (done * call_words) calls.now) }
{
    let from = done * CALL;
    LowerCall {
        instruction: Instruction {
            kind: calls[from + 1],
            rd: calls[from + 2],
            rs1: calls[from + 3],
            rs2: calls[from + 4],
            imm: calls[from + 5],
        },
        address: calls[from],
        flag: NodeRef(calls[from + 6] as usize),
    }
}
