// The list of lines: records of numbers at a fixed stride in words that the host lends.
#![tactic(auto)]

mod name;
mod operator;

ghost use Rattle.std.specs.Prelude.{◌≡◌, true, false, cond, ◌&&◌, eqb, ltb, ◌+◌, ◌-◌, ◌≤◌, length, MatchOption};
ghost use Rattle.std.proofs.lemmas.List.Edits.{sets};
ghost use Rattle.btor2.specs.Op.{carried, identifiers};
ghost use Rattle.btor2_list.specs.declared.Line.{Line};
ghost use Rattle.btor2_list.specs.Kinds.{state_kind};
ghost use Rattle.btor2_list.specs.Record.{stride, capacity as capacity_of, kind_in, sort_in, area_in, init_in, address_mark_in, nid_in, head_of, address_by, with_address, address_lines, has_name, words, record_at, holds, put_at, get_at, field_at, first_lines};
ghost use Rattle.btor2_list.specs.Node.{op_of, node_of};
ghost use Rattle.btor2_list.specs.Look.{seen, look_at, address_at};
ghost use Rattle.btor2_list.specs.Inside.{unaddressed, IsRecord};
ghost use Rattle.btor2_list.specs.Limits.{lines_out, tally_out};

use btor2::{Name, Nid, NodeRef, NodeType, sort_of};
pub use name::{HOST_AREA, OUR_AREA, name_bytes};
pub use operator::{Bin, LineOperator, operator_of};

// The words of one record, for whoever lends storage, and where each stands in it. A Const's value stands in the first operand's place; a named
// line has no second and third operand: the place and the length of its name stand there.
pub const STRIDE: usize = 5;

const AT_HEAD: usize = 0;

const AT_OP1: usize = 1;

const AT_OP2: usize = 2;

const AT_OP3: usize = 3;

const AT_ADDRESS: usize = 4;

// The places of the fields of the first word: `Head` reads by them, and what stores a record or an address writes by them.
const BYTE: u64 = 256;

const HALF_BYTE: u64 = 16;

const SORT_UNIT: u64 = 256;

const AREA_UNIT: u64 = 65536;

const INIT_UNIT: u64 = 16777216;

const ADDRESS_UNIT: u64 = 268435456;

const NID_UNIT: u64 = 4294967296;

// The largest numbers that fields of the first word hold, and the mark that we write for a State's init and for an address; on reading, any but
// 0 is one.
const MOST_IN_BYTE: u64 = 255;

const MOST_IN_FOUR_BYTES: u64 = 4294967295;

const MARK: u64 = 1;

// The most lines that a list holds, the largest next identifier at a start, and at a lowering, which is the largest of a line that is printed.
pub const MOST_LINES: usize = 1_048_576;

pub const MOST_START_NID: u64 = 2_147_483_648;

pub const MOST_NID: u64 = 2_149_580_800;

// The kinds of a record, in the order of unicorn's `Node`. They are numbers and no enum, since a record may hold any other number, and `get_at` of
// specs/Record promises that very number.
pub const CONST: u64 = 1;

pub const READ: u64 = 2;

pub const WRITE: u64 = 3;

pub const ADD: u64 = 4;

pub const SUB: u64 = 5;

pub const MUL: u64 = 6;

pub const DIVU: u64 = 7;

pub const DIV: u64 = 8;

pub const REM: u64 = 9;

pub const SLL: u64 = 10;

pub const SRL: u64 = 11;

pub const ULT: u64 = 12;

pub const EXT: u64 = 13;

pub const ITE: u64 = 14;

pub const EQ: u64 = 15;

pub const AND: u64 = 16;

pub const OR: u64 = 17;

pub const NOT: u64 = 18;

pub const STATE: u64 = 19;

pub const NEXT: u64 = 20;

pub const INPUT: u64 = 21;

pub const BAD: u64 = 22;

// The record of a line. Operands stand in printed order; a State's init is op1, and there where imm is not 0. A field that a kind does
// not use is not looked at; where we write the record it is 0.
#[derive(Clone, Copy)]
pub struct Line {
    pub nid: Nid,
    pub kind: u64,
    pub sort: u64,
    pub op1: NodeRef,
    pub op2: NodeRef,
    pub op3: NodeRef,
    pub imm: u64,
    pub name: Name,
    pub address: Option<u64>,
}

// What a place is to a line that names it: the identifier of the line there, 0 where there is none, and the sort of the value that it carries;
// a place outside carries none, nor do Next, Bad and a line of unknown kind or sort.
#[derive(Clone, Copy)]
pub struct Looked {
    pub nid: Nid,
    pub sort: Option<NodeType>,
}

// The first word of a record.
#[derive(Clone, Copy)]
struct Head(u64);

impl Head {
    fn kind(self) -> u64
        ensures { result ≡ kind_in self.0 }
    {
        self.0 % BYTE
    }

    fn sort(self) -> u64
        ensures { result ≡ sort_in self.0 }
    {
        self.0 / SORT_UNIT % BYTE
    }

    // The area of the name.
    fn area(self) -> u64
        ensures { result ≡ area_in self.0 }
    {
        self.0 / AREA_UNIT % BYTE
    }

    // The mark of a State's init.
    fn init(self) -> u64
        ensures { result ≡ init_in self.0 }
    {
        self.0 / INIT_UNIT % HALF_BYTE
    }

    fn address_mark(self) -> u64
        ensures { result ≡ address_mark_in self.0 }
    {
        self.0 / ADDRESS_UNIT % HALF_BYTE
    }

    fn nid(self) -> Nid
        ensures { result.0 ≡ nid_in self.0 }
    {
        Nid(self.0 / NID_UNIT)
    }

    // What the place of the record is to a line that names it.
    fn looked(self) -> Looked
        ensures { (l : Line) → l.nid.0 ≡ nid_in self.0 → l.kind ≡ kind_in self.0 → l.sort ≡ sort_in self.0 → result ≡ seen (node_of l) }
    {
        Looked {
            nid: self.nid(),
            sort: carries(self.kind(), self.sort()),
        }
    }
}

// How many records so many words hold.
pub fn capacity(words: usize) -> usize
    ensures { result ≡ capacity_of words }
{
    words / STRIDE
}

// Stores a record at a place; a number that its field cannot hold, as the largest that it can. Where the words do not reach that far, answers
// false and changes nothing. A Result would be no plainer: there is one reason.
pub fn put(list: &mut [u64], place: NodeRef, line: Line) -> bool
    ensures stored { result ≡ holds list.old place.0 }
    ensures list { list.new ≡ put_at list.old place.0 line }
{
    if capacity(list.len()) <= place.0 {
        return false;
    }
    let at = place.0 * STRIDE;
    store(list, at, line);
    if let Some(address) = line.address {
        address_line(list, at, address);
    }
    true
}

// The record without its address. All fields are read before the choices, so that these need no branch.
fn store(list: &mut [u64], at: usize, line: Line)
    requires { at + stride ≤ length list.old }
    ensures { list.new ≡ sets list.old at (words (unaddressed line)) }
{
    let named = is_named(line.kind);
    let a = line.op1.0 as u64;
    let b = line.op2.0 as u64;
    let c = line.op3.0 as u64;
    let imm = line.imm;
    let name = line.name;
    list[at + AT_HEAD] = head_of(line);
    list[at + AT_OP1] = if line.kind == CONST { imm } else { a };
    list[at + AT_OP2] = if named { name.at } else { b };
    list[at + AT_OP3] = if named { name.len } else { c };
    list[at + AT_ADDRESS] = 0;
}

// The first word of a record without an address. A number that its field cannot hold is stored as the largest that it can, which no check over the
// list accepts; the builder writes none.
fn head_of(line: Line) -> u64
    ensures { result ≡ head_of line.kind line.sort line.name.area (cond (eqb line.kind state_kind) line.imm 0) line.nid.0 }
{
    let imm = line.imm;
    let init = if line.kind == STATE { imm } else { 0 };
    line.kind.min(MOST_IN_BYTE)
        + SORT_UNIT * line.sort.min(MOST_IN_BYTE)
        + AREA_UNIT * line.name.area.min(MOST_IN_BYTE)
        + INIT_UNIT * init.min(MARK)
        + NID_UNIT * line.nid.0.min(MOST_IN_FOUR_BYTES)
}

// Gives the lines from one place up to another, as far as the words hold them, an address, and changes nothing else in their records.
pub fn address_lines(list: &mut [u64], from: usize, to: usize, address: u64)
    ensures { list.new ≡ address_lines list.old from (to - from) address }
{
    let end = to.min(capacity(list.len()));
    for place in from..end {
        address_line(list, place * STRIDE, address);
    }
}

// The one writer of an address and its mark, in the record that starts at a word. The mark is the lowest bit of its field, so that a mark that
// is there stays one.
fn address_line(list: &mut [u64], at: usize, address: u64)
    requires { at + stride ≤ length list.old }
    ensures { list.new ≡ with_address list.old at address }
{
    list[at + AT_HEAD] |= ADDRESS_UNIT;
    list[at + AT_ADDRESS] = address;
}

// Whether lines of a kind have a name.
pub fn is_named(kind: u64) -> bool
    ensures { result ≡ has_name kind }
{
    kind == STATE || kind == INPUT || kind == BAD
}

// The words of the record at a place, where the list's words reach over it.
fn record(list: &[u64], place: NodeRef) -> Option<&[u64; STRIDE]>
    ensures { MatchOption result (holds list.now place.0 ≡ false) (λ r. IsRecord list.now place.0 r.now) }
{
    let (records, _) = list.as_chunks::<STRIDE>();
    records.get(place.0)
}

// The record at a place.
pub fn get(list: &[u64], place: NodeRef) -> Option<Line>
    ensures { result ≡ get_at list.now place.0 }
{
    let words = record(list, place)?;
    Some(fetch(words))
}

#[tactic(auto, using(std::proofs::lemmas::Bool::Decides::nat_tests), unfolding(crate::specs::Record::record_at))]
fn fetch(words: &[u64; STRIDE]) -> Line
    ensures { result ≡ record_at words.now 0 }
{
    let head = Head(words[AT_HEAD]);
    let a = words[AT_OP1];
    let b = words[AT_OP2];
    let c = words[AT_OP3];
    Line {
        nid: head.nid(),
        kind: head.kind(),
        sort: head.sort(),
        op1: NodeRef(a as usize),
        op2: NodeRef(b as usize),
        op3: NodeRef(c as usize),
        imm: if head.kind() == STATE { head.init() } else { a },
        name: Name {
            area: head.area(),
            at: b,
            len: c,
        },
        address: address_by(head.address_mark(), words[AT_ADDRESS]),
    }
}

// An address, or none where its mark is 0.
pub fn address_by(mark: u64, address: u64) -> Option<u64>
    ensures { result ≡ address_by mark address }
{
    (mark != 0).then_some(address)
}

// The kind of the record at a place, 0 where there is none, as `field_at` has it: no kind has the number 0.
pub fn kind_at(list: &[u64], place: NodeRef) -> u64
    ensures { result ≡ field_at (λ l. l.kind) list.now place.0 }
{
    match record(list, place) {
        Some(words) => Head(words[AT_HEAD]).kind(),
        None => 0,
    }
}

// The identifier of the record at a place, 0 where there is none, as `field_at` has it.
pub fn nid_at(list: &[u64], place: NodeRef) -> Nid
    ensures { result.0 ≡ field_at (λ l. l.nid.0) list.now place.0 }
{
    match record(list, place) {
        Some(words) => Head(words[AT_HEAD]).nid(),
        None => Nid(0),
    }
}

// The words of the record at a place, in a list of `lines` lines.
fn record_of_line(list: &[u64], lines: usize, place: NodeRef) -> Option<&[u64; STRIDE]>
    ensures { MatchOption result ((ltb place.0 lines && holds list.now place.0) ≡ false) (λ r. (ltb place.0 lines ≡ true) × IsRecord list.now place.0 r.now) }
{
    if lines <= place.0 {
        return None;
    }
    record(list, place)
}

// What the place is to a line that names it, in a list of `lines` lines.
pub fn look(list: &[u64], lines: usize, place: NodeRef) -> Looked
    ensures { result ≡ look_at list.now lines place.0 }
{
    match record_of_line(list, lines, place) {
        Some(words) => Head(words[AT_HEAD]).looked(),
        None => Looked {
            nid: Nid(0),
            sort: None,
        },
    }
}

// The address of the line at the place, in a list of `lines` lines.
pub fn address_at(list: &[u64], lines: usize, place: NodeRef) -> Option<u64>
    ensures { result ≡ address_at list.now lines place.0 }
{
    let words = record_of_line(list, lines, place)?;
    let head = Head(words[AT_HEAD]);
    address_by(head.address_mark(), words[AT_ADDRESS])
}

// The sort that every record of this kind and sort carries: none for Next, Bad and what is no kind.
#[tactic(auto, using(std::proofs::lemmas::Bool::Decides::nat_tests), unfolding(crate::specs::Node::op_of, btor2::specs::Op::carried))]
fn carries(kind: u64, sort: u64) -> Option<NodeType>
    ensures { (l : Line) → l.kind ≡ kind → l.sort ≡ sort → result ≡ carried (op_of l) }
{
    // Each kind that has its record's own sort has an arm of its own: with one arm for all of them the compiled code tests some of them once more,
    // and a join that checks a long table of flags takes half as long again.
    match kind {
        CONST => sort_of(sort),
        ITE => sort_of(sort),
        AND => sort_of(sort),
        OR => sort_of(sort),
        NOT => sort_of(sort),
        STATE => sort_of(sort),
        INPUT => sort_of(sort),
        READ | ADD | SUB | MUL | DIVU | DIV | REM | SLL | SRL => Some(NodeType::Word),
        EXT => sort_of(sort).and(Some(NodeType::Word)),
        WRITE => Some(NodeType::Memory),
        ULT | EQ => Some(NodeType::Bit),
        _ => None,
    }
}

// How many identifiers the line of a record takes: a State with an init two. One of unknown sort is no State.
pub fn nids_taken(line: Line) -> u64
    ensures { result ≡ identifiers (op_of line) }
{
    if line.kind == STATE && line.imm != 0 && sort_of(line.sort).is_some() {
        2
    } else {
        1
    }
}

// The words of the first `lines` records, or of all that the words hold where these are fewer.
pub fn first_lines<'a>(list: &'a [u64], lines: usize) -> &'a [u64]
    ensures { result.now ≡ first_lines list.now lines }
{
    &list[..lines.min(capacity(list.len())) * STRIDE]
}

// 9, of this many lines in these words.
pub fn list_out(list: &[u64], lines: usize) -> bool
    ensures { result ≡ lines_out (capacity_of (length list.now)) lines }
{
    lines_out(capacity(list.len()), lines)
}

// In storage that holds `room` lines.
fn lines_out(room: usize, lines: usize) -> bool
    ensures { result ≡ lines_out room lines }
{
    MOST_LINES < lines || room < lines
}

// And of their next identifier, which is at most `most`.
pub fn tally_out(most: u64, room: usize, lines: usize, next: u64) -> bool
    ensures { result ≡ tally_out most room lines next }
{
    lines_out(room, lines) || most < next
}
