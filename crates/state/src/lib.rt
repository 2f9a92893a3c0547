// What passes from call to call, by value and as words: what a call reads of the words, and what it puts there. The roles have their names in
// roles.rt, roles_check.rt tests that they fit, and room.rt that the counts do.
#![tactic(auto)]

mod roles;
mod roles_check;
mod room;

ghost use Rattle.std.specs.Prelude.{◌≡◌, [], ◌∷◌, ◌≤◌, ◌<◌, length, get_or};
ghost use Rattle.riscv.specs.declared.Instruction.{Instruction};
ghost use Rattle.models.specs.Code.{flows_of, outcome_of};
ghost use Rattle.state.specs.Roles.{role, role_count, node_role, flow_role, operands_for, flows_in, reads_in, with_flows, with_register_flow, with_outcome};
ghost use Rattle.state.specs.Words.{state_words, roles_in, state_of, state_in, state_out, with_state, roles_held, counts_stored, stored};
ghost use Rattle.state.specs.Put.{with_roles};

use btor2::NodeRef;
use builder::Tally;
use models::{Flows, Operands, Outcome};
use riscv::{Instruction, LAST_REGISTER};
pub use roles::{ONE_BIT, REGISTER_FLOWS, REGISTERS, ROLES, Reads, ZERO_BIT};
pub use roles_check::{roles_out, value_sort};
pub use room::{Room, counts_out, room_of};

// How much of each lent list and of our name area is in use, the list of lines apart.
#[derive(Clone, Copy)]
pub struct Counts {
    pub names: usize,
    pub edges: usize,
    pub dispatches: usize,
    pub bads: usize,
}

// What passes from call to call: the tally, the counts, and the roles.
#[derive(Clone, Copy)]
pub struct State {
    pub tally: Tally,
    pub counts: Counts,
    pub roles: [NodeRef; ROLES],
}

// Where each stands: lines, next identifier, counts of names, edges, dispatches and bads, and from FIRST_ROLE on the roles.
const LINES_WORD: usize = 0;

const NID_WORD: usize = 1;

const NAMES_WORD: usize = 2;

const EDGES_WORD: usize = 3;

const DISPATCHES_WORD: usize = 4;

const BADS_WORD: usize = 5;

const FIRST_ROLE: usize = 6;

pub const STATE_WORDS: usize = FIRST_ROLE + ROLES;

// The words of no state: every count and place is 0.
static NO_STATE: [u64; STATE_WORDS] = [0; STATE_WORDS];

// The state in words; 0 for a word that is missing.
#[tactic(auto, unfolding(crate::specs::Words::state_in))]
pub fn state_in(words: &[u64]) -> State
    ensures { result ≡ state_in words.now }
{
    State {
        tally: tally_in(words),
        counts: counts_in(words),
        roles: roles_in(words),
    }
}

// The words of a state of these parts, and how many roles their type gives.
pub fn words_of(t: Tally, c: Counts, places: [NodeRef; ROLES]) -> [u64; STATE_WORDS]
    ensures words { result ≡ state_out (state_of t c places) }
    ensures roles { length places ≡ role_count }
{
    let mut words = [0u64; STATE_WORDS];
    words[..FIRST_ROLE].copy_from_slice(&count_words(t, c));
    for k in 0..ROLES {
        words[FIRST_ROLE + k] = places[k].0 as u64;
    }
    words
}

// The words before the roles.
fn count_words(t: Tally, c: Counts) -> [u64; FIRST_ROLE]
    ensures { result ≡ t.lines ∷ t.nid ∷ c.names ∷ c.edges ∷ c.dispatches ∷ c.bads ∷ [] }
{
    [
        t.lines as u64,
        t.nid,
        c.names as u64,
        c.edges as u64,
        c.dispatches as u64,
        c.bads as u64,
    ]
}

fn word_at(words: &[u64], k: usize) -> u64
    ensures { result ≡ get_or words.now k 0 }
{
    words.get(k).copied().unwrap_or(0)
}

#[tactic(auto, unfolding(crate::specs::Words::state_in))]
pub fn tally_in(words: &[u64]) -> Tally
    ensures { result ≡ (state_in words.now).tally }
{
    Tally {
        lines: word_at(words, LINES_WORD) as usize,
        nid: word_at(words, NID_WORD),
    }
}

#[tactic(auto, unfolding(crate::specs::Words::state_in))]
pub fn counts_in(words: &[u64]) -> Counts
    ensures { result ≡ (state_in words.now).counts }
{
    Counts {
        names: word_at(words, NAMES_WORD) as usize,
        edges: word_at(words, EDGES_WORD) as usize,
        dispatches: word_at(words, DISPATCHES_WORD) as usize,
        bads: word_at(words, BADS_WORD) as usize,
    }
}

fn roles_in(words: &[u64]) -> [NodeRef; ROLES]
    ensures { result ≡ roles_in words.now }
{
    let mut roles = [NodeRef(0); ROLES];
    for k in 0..ROLES {
        roles[k] = NodeRef(word_at(words, FIRST_ROLE + k) as usize);
    }
    roles
}

// What an instruction reads of the roles in a state's words; places of 0 where there are fewer words than a state has.
pub fn reads_in(words: &[u64], flag: NodeRef, i: Instruction) -> Reads
    ensures { result ≡ reads_in (roles_held words.now) flag i }
{
    if words.len() < STATE_WORDS {
        reads_of_roles(&NO_STATE, flag, i)
    } else {
        reads_of_roles(words, flag, i)
    }
}

fn reads_of_roles(words: &[u64], flag: NodeRef, i: Instruction) -> Reads
    requires { state_words ≤ length words.now }
    ensures { result ≡ reads_in (roles_in words.now) flag i }
{
    Reads {
        operands: operands_in(words, flag, i),
        flows: flows_in(words),
        register: role(words, flow_role(i.rd)),
        memory: role(words, roles::MEMORY_FLOW),
    }
}

#[tactic(auto, unfolding(crate::specs::Roles::operands_for))]
fn operands_in(words: &[u64], flag: NodeRef, i: Instruction) -> Operands
    requires { state_words ≤ length words.now }
    ensures { result ≡ operands_for (roles_in words.now) flag i.rs1 i.rs2 }
{
    Operands {
        flag,
        rs1: role(words, node_role(i.rs1)),
        rs2: role(words, node_role(i.rs2)),
        zero: role(words, roles::ZERO_WORD),
        one: role(words, roles::ONE_WORD),
        true_bit: role(words, roles::ONE_BIT),
        memory: role(words, roles::MEMORY),
        counter: role(words, roles::COUNTER),
        maximum: role(words, roles::MAXIMUM),
    }
}

#[tactic(auto, unfolding(crate::specs::Roles::flows_in))]
fn flows_in(words: &[u64]) -> Flows
    requires { state_words ≤ length words.now }
    ensures { result ≡ flows_in (roles_in words.now) }
{
    Flows {
        counter: role(words, roles::COUNTER_FLOW),
        maximum: role(words, roles::MAXIMUM_FLOW),
        division: role(words, roles::DIVISION_FLOW),
        remainder: role(words, roles::REMAINDER_FLOW),
        access: role(words, roles::ACCESS_FLOW),
        addition: role(words, roles::ADDITION_FLOW),
        multiplication: role(words, roles::MULTIPLICATION_FLOW),
        ecall: role(words, roles::ECALL_FLOW),
    }
}

#[tactic(auto, using(crate::proofs::Words::role_at))]
fn role(words: &[u64], place: usize) -> NodeRef
    requires words { state_words ≤ length words.now }
    requires place { place < role_count }
    ensures { result ≡ role (roles_in words.now) place }
{
    NodeRef(words[FIRST_ROLE + place] as usize)
}

// Which role is a register's node, and which its flow; x0's node for what has none.
fn node_role(r: u64) -> usize
    ensures is { result ≡ node_role r }
    ensures small { result < role_count }
{
    match r {
        0..=LAST_REGISTER => roles::REGISTERS + r as usize,
        _ => roles::REGISTERS,
    }
}

fn flow_role(r: u64) -> usize
    ensures is { result ≡ flow_role r }
    ensures small { result < role_count }
{
    match r {
        1..=LAST_REGISTER => roles::REGISTER_FLOWS + r as usize,
        _ => roles::REGISTERS,
    }
}

// Puts what an accepted call gives into a state's words; fewer words than a state has are left as they were.
pub fn put_state(words: &mut [u64], t: Tally, c: Counts, flows: Flows, rd: u64, outcome: Outcome)
    ensures { words.new ≡ stored words.old t c (flows_of flows) rd (outcome_of outcome) }
{
    if words.len() < STATE_WORDS {
        return;
    }
    store_counts(words, t, c);
    put_flows(words, flows);
    put_outcome(words, rd, outcome);
}

// Puts the tally and the counts of a call that changes no role; fewer words than a state has are left as they were.
pub fn put_counts(words: &mut [u64], t: Tally, c: Counts)
    ensures { words.new ≡ counts_stored words.old t c }
{
    if words.len() >= STATE_WORDS {
        store_counts(words, t, c);
    }
}

fn store_counts(words: &mut [u64], t: Tally, c: Counts)
    requires { state_words ≤ length words.old }
    ensures { words.new ≡ with_state words.old (state_of t c (roles_in words.old)) }
{
    words[..FIRST_ROLE].copy_from_slice(&count_words(t, c));
}

fn put_flows(words: &mut [u64], f: Flows)
    requires { state_words ≤ length words.old }
    ensures { words.new ≡ with_roles words.old (with_flows (roles_in words.old) (flows_of f)) }
{
    let places = [
        f.counter.0 as u64,
        f.maximum.0 as u64,
        f.division.0 as u64,
        f.remainder.0 as u64,
        f.access.0 as u64,
        f.addition.0 as u64,
        f.multiplication.0 as u64,
        f.ecall.0 as u64,
    ];
    words[FIRST_ROLE + roles::COUNTER_FLOW..STATE_WORDS].copy_from_slice(&places);
}

fn put_outcome(words: &mut [u64], rd: u64, outcome: Outcome)
    requires { state_words ≤ length words.old }
    ensures { words.new ≡ with_roles words.old (with_outcome (roles_in words.old) rd (outcome_of outcome)) }
{
    match outcome {
        Outcome::Register(x) => put_register(words, rd, x),
        Outcome::Memory(x) => words[FIRST_ROLE + roles::MEMORY_FLOW] = x.0 as u64,
        Outcome::Nothing | Outcome::Branch(_, _) => {}
    }
}

fn put_register(words: &mut [u64], rd: u64, x: NodeRef)
    requires { state_words ≤ length words.old }
    ensures { words.new ≡ with_roles words.old (with_register_flow (roles_in words.old) rd x) }
{
    if let 1..=LAST_REGISTER = rd {
        words[FIRST_ROLE + (roles::REGISTER_FLOWS + rd as usize)] = x.0 as u64;
    }
}
