// The checks over a whole list of lines: refusal 11.
#![tactic(auto)]

mod operands;

ghost use Rattle.std.specs.Prelude.{◌≡◌, true, false, cond, not, ◌&&◌, ◌||◌, eqb, ltb, [], ◌∷◌, ℕ, ◌+◌};
ghost use Rattle.btor2.specs.Sort.{sort_numbered};
ghost use Rattle.btor2_list.specs.Kinds.{uext_kind};
ghost use Rattle.btor2_list.specs.Record.{has_name, record_at, holds};
ghost use Rattle.btor2_list.specs.Node.{op_of};
ghost use Rattle.list_check.specs.declared.Checked.TheVariants.{Unformed};
ghost use Rattle.list_check.specs.Lines.{any};
ghost use Rattle.list_check.specs.Formed.{name_outside, has_value, op_unformed, unformed_words};
ghost use Rattle.list_check.specs.Scan.{out_before, scan_unformed, name_length, scan_line, checked_line};

use btor2::{BIT, MEMORY, Name, NodeRef, NodeType, sort_of};
use btor2_list::{
    ADD, AND, BAD, CONST, DIV, DIVU, EQ, EXT, HOST_AREA, INPUT, ITE, Line, MUL, NEXT, NOT, OR,
    OUR_AREA, READ, REM, SLL, SRL, STATE, SUB, ULT, WRITE, capacity, get, is_named, kind_at,
};
pub use operands::broken;

// An Ext from Memory as one number, kind * 32 + sort, so that one comparison tells it.
const EXT_FROM_MEMORY: u64 = EXT * 32 + MEMORY;

// What the check of a line finds: 11; or that it is well formed, and how long its name is where lines of its kind have one. A Result of an Option
// would be no plainer: each of the three answers has a name.
#[derive(Clone, Copy)]
pub enum Checked {
    Unformed,
    Unnamed,
    Named(u64),
}

// 11: some line has an unknown kind or sort, extends a Memory, names an operand that is no earlier value line, or has a name outside its
// area. `host` and `ours` are the lengths of the two areas. True where the words do not hold as many lines.
pub fn unformed(list: &[u64], lines: usize, host: usize, ours: usize) -> bool
    ensures { result ≡ unformed_words list.now lines host ours }
{
    capacity(list.len()) < lines || (0..lines).any(|i| line_unformed(list, i, host, ours))
}

fn line_unformed(list: &[u64], i: usize, host: usize, ours: usize) -> bool
    ensures { result ≡ scan_unformed list.now i host ours }
{
    get(list, NodeRef(i)).is_none_or(|line| unformed_by_kind(list, i, line, host, ours))
}

// Line i alone, in a scan that has found the lines before it well formed: then it answers 11 of the lines up to this one.
pub fn check_line(list: &[u64], i: usize, host: usize, ours: usize) -> Checked
    ensures is { result ≡ scan_line list.now i host ours }
    ensures eleven { unformed_words list.now i host ours ≡ false → result ≡ checked_line list.now i host ours }
{
    if plain_at(list, i) {
        return Checked::Unnamed;
    }
    check_by_kind(list, i, host, ours)
}

// In a long list the jump of a match on the kind is guessed wrongly for most lines, so that a test which nearly all of them pass stands in
// front of it. That reads the record by itself, so that for these lines no record is stored for a call.
fn plain_at(list: &[u64], i: usize) -> bool
    ensures { result ≡ true → (holds list.now i ≡ true) × (has_name (record_at list.now i).kind ≡ false) × ((host ours : ℕ) → op_unformed host ours (out_before list.now i) (op_of (record_at list.now i)) ≡ false) }
{
    get(list, NodeRef(i)).is_some_and(|line| plainly_formed(list, i, line))
}

fn check_by_kind(list: &[u64], i: usize, host: usize, ours: usize) -> Checked
    ensures { result ≡ scan_line list.now i host ours }
{
    match get(list, NodeRef(i)) {
        Some(line) => check_record(list, i, line, host, ours),
        None => Checked::Unformed,
    }
}

fn check_record(list: &[u64], i: usize, line: Line, host: usize, ours: usize) -> Checked
    ensures { result ≡ cond (op_unformed host ours (out_before list.now i) (op_of line)) Unformed (name_length line) }
{
    if unformed_by_kind(list, i, line, host, ours) {
        Checked::Unformed
    } else if is_named(line.kind) {
        Checked::Named(line.name.len)
    } else {
        Checked::Unnamed
    }
}

// Line i is surely well formed: a kind without a name, Bit, Word or Memory as its sort, and a Const, or no Ext from Memory and none of the
// three operands out, whether or not the kind uses these fields. In a list that the builder wrote an unused operand is 0, an earlier value
// line, so that each branch nearly always goes the same way.
fn plainly_formed(list: &[u64], i: usize, line: Line) -> bool
    ensures { result ≡ true → (has_name line.kind ≡ false) × ((host ours : ℕ) → op_unformed host ours (out_before list.now i) (op_of line) ≡ false) }
{
    let kind = line.kind;
    let sort = line.sort;
    if kind < CONST || NEXT < kind || kind == STATE || sort < BIT || MEMORY < sort {
        return false;
    }
    kind == CONST || (kind * 32 + sort != EXT_FROM_MEMORY && !three_out(list, i, line))
}

// By a match on the kind: the fields that it uses.
#[tactic(auto, using(std::proofs::lemmas::Bool::Decides::nat_tests), unfolding(btor2_list::specs::Node::op_of, crate::specs::Formed::op_unformed))]
fn unformed_by_kind(list: &[u64], i: usize, line: Line, host: usize, ours: usize) -> bool
    ensures { result ≡ op_unformed host ours (out_before list.now i) (op_of line) }
{
    match line.kind {
        CONST => no_sort(line),
        READ | ADD | SUB | MUL | DIVU | DIV | REM | SLL | SRL | ULT | EQ => two_out(list, i, line),
        WRITE => three_out(list, i, line),
        EXT => extended_out(list, i, line),
        ITE => no_sort(line) || three_out(list, i, line),
        AND | OR | NEXT => no_sort(line) || two_out(list, i, line),
        NOT => no_sort(line) || operand_out(list, i, line.op1),
        STATE => no_sort(line) || state_out(list, i, line, host, ours),
        INPUT => no_sort(line) || name_out(line.name, host, ours),
        BAD => name_out(line.name, host, ours) || operand_out(list, i, line.op1),
        _ => true,
    }
}

// An Ext: the sort that it extends from is unknown or Memory, or its operand is out.
#[tactic(auto, using(std::proofs::lemmas::Bool::Decides::nat_tests), unfolding(btor2_list::specs::Node::op_of, crate::specs::Formed::op_unformed))]
fn extended_out(list: &[u64], i: usize, line: Line) -> bool
    ensures { (host ours : ℕ) → line.kind ≡ uext_kind → result ≡ op_unformed host ours (out_before list.now i) (op_of line) }
{
    sort_of(line.sort).is_none_or(|from| from == NodeType::Memory) || operand_out(list, i, line.op1)
}

// A State has an operand where its mark is not 0.
fn state_out(list: &[u64], i: usize, line: Line, host: usize, ours: usize) -> bool
    ensures { result ≡ (name_outside host ours line.name || (not (eqb line.imm 0) && out_before list.now i line.op1.0)) }
{
    name_out(line.name, host, ours) || (line.imm != 0 && operand_out(list, i, line.op1))
}

// Its first two operands. With three_out it is one test over a slice of operands, but a call for each is what the compiler merges into the match.
fn two_out(list: &[u64], i: usize, line: Line) -> bool
    ensures { result ≡ any (out_before list.now i) (line.op1.0 ∷ line.op2.0 ∷ []) }
{
    operand_out(list, i, line.op1) || operand_out(list, i, line.op2)
}

// All three.
fn three_out(list: &[u64], i: usize, line: Line) -> bool
    ensures { result ≡ any (out_before list.now i) (line.op1.0 ∷ line.op2.0 ∷ line.op3.0 ∷ []) }
{
    operand_out(list, i, line.op1)
        || (operand_out(list, i, line.op2) || operand_out(list, i, line.op3))
}

// An operand is out: not the place of a value line before line i. Of lines of a known kind and sort only Next and Bad carry no value, so that
// no sort is looked at.
fn operand_out(list: &[u64], i: usize, place: NodeRef) -> bool
    ensures { result ≡ out_before list.now i place.0 }
{
    i <= place.0 || matches!(kind_at(list, place), NEXT | BAD)
}

// Its own sort is unknown.
fn no_sort(line: Line) -> bool
    ensures { result ≡ not (has_value (sort_numbered line.sort)) }
{
    sort_of(line.sort).is_none()
}

// A name that is not missing has all its bytes in its area. A mark that is none of the two areas' and not 0 is outside.
fn name_out(name: Name, host: usize, ours: usize) -> bool
    ensures { result ≡ name_outside host ours name }
{
    match name.area {
        0 => false,
        HOST_AREA => past(host, name),
        OUR_AREA => past(ours, name),
        _ => true,
    }
}

// The bytes of a name reach past the end of an area.
fn past(area: usize, name: Name) -> bool
    ensures { result ≡ ltb area (name.at + name.len) }
{
    name.at
        .checked_add(name.len)
        .is_none_or(|end| (area as u64) < end)
}
