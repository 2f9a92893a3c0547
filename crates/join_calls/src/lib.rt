// The join of one address's edges and dispatches into its flag: the refusals first, then the lines.
#![tactic(auto)]

mod areas;
mod checks;
mod control_flow;
mod lines;
mod names;
mod records;
mod room;

ghost use Rattle.std.specs.Prelude.{◌≡◌};
ghost use Rattle.builder.specs.Prog.{exec};
ghost use Rattle.refusals.specs.Refusal.{refused_with};
ghost use Rattle.join.specs.Code.{lists_lent, lists_given, SameJoinLent, join_answered};
ghost use Rattle.join.specs.Listed.{append_listed};
ghost use Rattle.join.specs.Refusal.{join_lent, join_program, join_counts_out, join_refusal};
ghost use Rattle.join.specs.Join.{join_answer, join_settled, join_store, joining};
ghost use Rattle.join.specs.Words.{joining_words};
ghost use Rattle.join_calls.specs.Records.{CountsWithin, asked_for};
ghost use Rattle.join_calls.specs.Answer.{answered_words};
ghost use Rattle.join_calls.specs.Entry.{ReadyToCheck, ReadyToJoin};

use areas::Areas;
use btor2::NodeRef;
use btor2_list::{MOST_NID, capacity, tally_out};
use builder::Builder;
use checks::Lines;
use edges::{DISPATCH, EDGE};
use join::{Bits, JoinHeld, JoinInput, JoinLent, Joined};
use lines::{join_dispatches, join_edges};
use records::FLAG;
use refusals::Refusal;
use room::room_left;
use state::{Counts, ONE_BIT, STATE_WORDS, State, ZERO_BIT};

// Joins one address's edges, then its dispatches, into a flow. What is held says how much of the list, our name area and the sequentials is in
// use, the next identifier and the roles. A refused call changes nothing.
pub fn join(lent: &mut JoinLent, input: &JoinInput, held: JoinHeld) -> Result<Joined, Refusal>
    ensures is { join_answered held (lists_given input.now) result (lists_lent lent.new) ≡ joining (lists_lent lent.old) held (lists_given input.now) }
    ensures same { SameJoinLent lent.old lent.new }
{
    if counts_out(lent, input, held) {
        return Err(Refusal::BadCount);
    }
    let given = asked_for(input);
    check(lent, &given, held)?;
    Ok(accept(lent.list, lent.names, lent.sequentials, &given, held))
}

// What an accepted join over the state's words gives: the flow, and how many sequentials there are.
#[derive(Clone, Copy)]
pub struct JoinedWords {
    pub flow: NodeRef,
    pub sequentials: usize,
}

// The same over the state's words, which the host keeps, with so many sequentials in use; 9 where there are fewer words than a state has.
pub fn join_words(
    lent: &mut JoinLent,
    state: &mut [u64],
    input: &JoinInput,
    used: usize,
) -> Result<JoinedWords, Refusal>
    ensures is { answered_words used (lists_given input.now) result (lists_lent lent.new) state.new ≡ joining_words (lists_lent lent.old) state.old used (lists_given input.now) }
    ensures same { SameJoinLent lent.old lent.new }
{
    if state.len() < STATE_WORDS {
        return Err(Refusal::BadCount);
    }
    let before = JoinHeld {
        state: state::state_in(state),
        sequentials: used,
    };
    let Joined { flow, held } = join(lent, input, before)?;
    // A join changes no role.
    state::put_counts(state, held.state.tally, held.state.counts);
    Ok(JoinedWords {
        flow,
        sequentials: held.sequentials,
    })
}

// 9: too many lines, too large a next identifier, or a count above its storage.
fn counts_out(lent: &JoinLent, input: &JoinInput, held: JoinHeld) -> bool
    ensures { result ≡ join_counts_out (lists_lent lent.now) held (lists_given input.now) }
{
    let tally = held.state.tally;
    let asked = input.asked;
    tally_out(MOST_NID, capacity(lent.list.len()), tally.lines, tally.nid)
        | (lent.names.len() < held.state.counts.names)
        | (input.edges.len() / EDGE < asked.edges)
        | (input.dispatches.len() / DISPATCH < asked.dispatches)
        | (input.flags.len() / FLAG < asked.flags)
        | (lent.sequentials.len() < held.sequentials)
}

// The records that are asked for, without the words after them.
fn asked_for<'a>(input: &JoinInput<'a>) -> JoinInput<'a>
    requires { CountsWithin (lists_given input.now) }
    ensures { lists_given result ≡ asked_for (lists_given input.now) }
{
    let asked = input.asked;
    JoinInput {
        edges: &input.edges[..asked.edges * EDGE],
        dispatches: &input.dispatches[..asked.dispatches * DISPATCH],
        flags: &input.flags[..asked.flags * FLAG],
        ..*input
    }
}

// The first of 13, 15, 16 and 8 that applies.
fn check(lent: &JoinLent, given: &JoinInput, held: JoinHeld) -> Result<(), Refusal>
    requires { ReadyToCheck (lists_lent lent.now) held (lists_given given.now) }
    ensures { refused_with result ≡ join_refusal (lists_lent lent.now) held (lists_given given.now) }
{
    let state = held.state;
    let count = state.tally.lines;
    if state::roles_out(lent.list, count, state.roles) {
        return Err(Refusal::UnfitRoles);
    }
    let lines = Lines {
        list: lent.list,
        count,
    };
    if lines.flags_out(given) {
        return Err(Refusal::JoinFlags);
    }
    if lines.edges_out(given.edges) | lines.dispatches_out(given.dispatches) {
        return Err(Refusal::JoinEdges);
    }
    let left = room_left(lent, held, given.asked.flow);
    if left.exceeded(given, state.roles[ZERO_BIT]) {
        return Err(Refusal::NoRoom);
    }
    Ok(())
}

// What an accepted call does. The lists are parameters of their own: the proof does not follow a builder that is made of a field of `JoinLent`.
fn accept(
    list: &mut [u64],
    names: &mut [u8],
    sequentials: &mut [u64],
    given: &JoinInput,
    held: JoinHeld,
) -> Joined
    requires { ReadyToJoin held (lists_given given.now) }
    ensures { join_answer 0 result.flow.0 result.held (join_lent list.new names.new sequentials.new) ≡ join_settled (join_lent list.old names.old sequentials.old) held (lists_given given.now) (exec append_listed (join_store (join_lent list.old names.old sequentials.old) held) (join_program held.state (lists_given given.now))) }
{
    let State {
        tally,
        counts,
        roles,
    } = held.state;
    let bits = Bits {
        zero: roles[ZERO_BIT],
        one: roles[ONE_BIT],
    };
    let mut b = Builder::new(list, tally);
    let mut areas = Areas {
        names,
        named: counts.names,
        sequentials,
        listed: held.sequentials,
    };
    let joined = join_edges(&mut b, &mut areas, bits, given);
    let flow = join_dispatches(&mut b, bits, roles, given, joined);
    Joined {
        flow,
        held: JoinHeld {
            state: State {
                tally: b.tally(),
                counts: Counts {
                    names: areas.named,
                    ..counts
                },
                roles,
            },
            sequentials: areas.listed,
        },
    }
}
