// The commands of a text of cases: decimal numbers, each after the byte that ended the one before.
ghost use Rattle.std.specs.Prelude.{◌≡◌, nat_le, length};
ghost use Rattle.cases.specs.Scan.{read, number_from};
ghost use Rattle.cases.specs.Record.{record_from};
ghost use Rattle.cases.specs.Instruction.{instruction_from};
ghost use Rattle.cases.specs.State.{counts_from, role_from, with_role};

use btor2::{Name, Nid, NodeRef};
use btor2_list::{Line, address_by};
use builder::Tally;
use riscv::Instruction;
use state::{Counts, ROLES, State};

// A text, and where in it the next number starts.
#[derive(Drop)]
pub struct Commands<'a> {
    text: &'a [u8],
    at: usize,
}

// A record, and the place that it is to be put at.
#[derive(Clone, Copy)]
pub struct Placed {
    pub place: NodeRef,
    pub line: Line,
}

impl<'a> Commands<'a> {
    pub fn new(text: &'a [u8]) -> Commands<'a>
        ensures text { result.text.now ≡ text.now }
        ensures at { result.at ≡ 0 }
    {
        Commands { text, at: 0 }
    }

    // Whether no number is left.
    pub fn is_empty(&self) -> bool
        ensures { result ≡ nat_le (length self.now.text.now) self.now.at }
    {
        self.text.len() <= self.at
    }

    // The next number, modulo 2^64.
    pub fn number(&mut self) -> u64
        ensures number { read result self.new.at ≡ number_from self.old.text.now self.old.at }
        ensures text { self.new.text.now ≡ self.old.text.now }
    {
        let (value, next) = number_from(self.text, self.at);
        self.at = next;
        value
    }

    // KIND RD RS1 RS2 IMM
    pub fn instruction(&mut self) -> Instruction
        ensures instruction { read result self.new.at ≡ instruction_from self.old.text.now self.old.at }
        ensures text { self.new.text.now ≡ self.old.text.now }
    {
        let kind = self.number();
        let rd = self.number();
        let rs1 = self.number();
        let rs2 = self.number();
        let imm = self.number();
        Instruction {
            kind,
            rd,
            rs1,
            rs2,
            imm,
        }
    }

    // PLACE NID KIND SORT OP1 OP2 OP3 IMM AREA AT LEN MARK ADDRESS; the mark is 0 where there is no address.
    pub fn record(&mut self) -> Placed
        ensures record { read result self.new.at ≡ record_from self.old.text.now self.old.at }
        ensures text { self.new.text.now ≡ self.old.text.now }
    {
        let place = self.number();
        let nid = self.number();
        let kind = self.number();
        let sort = self.number();
        let op1 = self.number();
        let op2 = self.number();
        let op3 = self.number();
        let imm = self.number();
        let area = self.number();
        let at = self.number();
        let len = self.number();
        let mark = self.number();
        let address = self.number();
        Placed {
            place: NodeRef(place as usize),
            line: Line {
                nid: Nid(nid),
                kind,
                sort,
                op1: NodeRef(op1 as usize),
                op2: NodeRef(op2 as usize),
                op3: NodeRef(op3 as usize),
                imm,
                name: Name { area, at, len },
                address: address_by(mark, address),
            },
        }
    }

    // LINES NID NAMES EDGES DISPATCHES BADS: another tally and other counts.
    pub fn counts(&mut self, state: State) -> State
        ensures counts { read result self.new.at ≡ counts_from self.old.text.now self.old.at state }
        ensures text { self.new.text.now ≡ self.old.text.now }
    {
        let lines = self.number();
        let nid = self.number();
        let names = self.number();
        let edges = self.number();
        let dispatches = self.number();
        let bads = self.number();
        State {
            tally: Tally {
                lines: lines as usize,
                nid,
            },
            counts: Counts {
                names: names as usize,
                edges: edges as usize,
                dispatches: dispatches as usize,
                bads: bads as usize,
            },
            ..state
        }
    }

    // ROLE PLACE: another place for a role; none where there is no such role.
    pub fn role(&mut self, state: State) -> State
        ensures role { read result self.new.at ≡ role_from self.old.text.now self.old.at state }
        ensures text { self.new.text.now ≡ self.old.text.now }
    {
        let role = self.number();
        let place = self.number();
        State {
            roles: with_role(state.roles, role as usize, NodeRef(place as usize)),
            ..state
        }
    }
}

// The number whose digits start at a place, modulo 2^64, and the place after the byte that ended it.
fn number_from(text: &[u8], from: usize) -> (u64, usize)
    ensures { read result.0 result.1 ≡ number_from text.now from }
{
    let mut value: u64 = 0;
    for at in from..text.len() {
        let byte = text[at];
        if !byte.is_ascii_digit() {
            return (value, at + 1);
        }
        value = value.wrapping_mul(10).wrapping_add(u64::from(byte - b'0'));
    }
    (value, from.max(text.len()))
}

fn with_role(roles: [NodeRef; ROLES], role: usize, place: NodeRef) -> [NodeRef; ROLES]
    ensures { result ≡ with_role roles role place }
{
    let mut next = roles;
    if role < ROLES {
        next[role] = place;
    }
    next
}
