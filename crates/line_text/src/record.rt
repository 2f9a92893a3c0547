// The text of a record by the identifiers of its operands (the per-node part of unicorn's `write_model`): one row, or two for a State with an
// init.
ghost use Rattle.std.specs.Prelude.{◌≡◌, ◌+◌, ◌-◌, ◌%◌, ◌^◌, true, false, [], ◌∷◌, ◌++◌, if◌then◌else◌, nat_eq, Some, None};
ghost use Rattle.text.specs.Put.{Put};
ghost use Rattle.btor2.specs.Sort.{sort_numbered, width};
ghost use Rattle.btor2.specs.declared.NodeType.{NodeType};
ghost use Rattle.btor2.specs.Op.{unknown};
ghost use Rattle.btor2_list.specs.declared.Line.{Line};
ghost use Rattle.btor2_list.specs.Node.{op_of};
ghost use Rattle.line_text.specs.OwnSort.{own_sort};
ghost use Rattle.line_text.specs.Record.{plain_row, named_row, line_text, printed_name, with_operands};

use btor2::{BIT, MEMORY, Name, Nid, WORD, sort_of};
use btor2_list::{
    ADD, AND, BAD, CONST, DIV, DIVU, EQ, EXT, HOST_AREA, INPUT, ITE, Line, MUL, NEXT, NOT, OR,
    OUR_AREA, READ, REM, SLL, SRL, STATE, SUB, ULT, WRITE, name_bytes,
};
use row_text::{put_named, put_row};

// The areas that names lie in.
#[derive(Clone, Copy)]
pub struct Areas<'a> {
    pub host: &'a [u8],
    pub ours: &'a [u8],
}

impl<'a> Areas<'a> {
    // What is printed for a name: its bytes, or `?` where it is missing.
    fn printed(&self, name: Name) -> &'a [u8]
        ensures { result.now ≡ printed_name self.now.host.now self.now.ours.now name }
    {
        if name.area == HOST_AREA || name.area == OUR_AREA {
            return name_bytes(self.host, self.ours, name);
        }
        b"?"
    }
}

// A record and the identifiers of its operands.
#[derive(Clone, Copy)]
pub(crate) struct Identified {
    pub(crate) line: Line,
    pub(crate) a: Nid,
    pub(crate) b: Nid,
    pub(crate) c: Nid,
}

// One of unknown kind or sort has no text.
pub(crate) fn put_record(out: &mut [u8], at: usize, identified: Identified, areas: &Areas) -> usize
    ensures { Put out.old at (line_text (printed_name areas.now.host.now areas.now.ours.now) identified.line.nid.0 (op_of (with_operands identified.line identified.a.0 identified.b.0 identified.c.0))) out.new result }
{
    if unsorted(identified.line.kind, identified.line.sort) {
        return at;
    }
    put_known(out, at, identified, areas)
}

// A record whose sort is known where it has one of its own: a clause for each kind, as in unicorn's `write_model`.
fn put_known(out: &mut [u8], at: usize, identified: Identified, areas: &Areas) -> usize
    requires { own_sort identified.line.kind ≡ true → (s : NodeType) × (sort_numbered identified.line.sort ≡ Some s) }
    ensures { Put out.old at (line_text (printed_name areas.now.host.now areas.now.ours.now) identified.line.nid.0 (op_of (with_operands identified.line identified.a.0 identified.b.0 identified.c.0))) out.new result }
{
    let line = identified.line;
    let nid = line.nid.0;
    let sort = line.sort;
    let a = identified.a.0;
    let b = identified.b.0;
    let c = identified.c.0;
    let operands = [a, b, c];
    match line.kind {
        CONST => put_row(out, at, nid, b"constd", sort, &[line.imm]),
        READ => put_row(out, at, nid, b"read", WORD, &operands[..2]),
        WRITE => put_row(out, at, nid, b"write", MEMORY, &operands),
        ADD => put_row(out, at, nid, b"add", WORD, &operands[..2]),
        SUB => put_row(out, at, nid, b"sub", WORD, &operands[..2]),
        MUL => put_row(out, at, nid, b"mul", WORD, &operands[..2]),
        DIVU => put_row(out, at, nid, b"udiv", WORD, &operands[..2]),
        DIV => put_row(out, at, nid, b"sdiv", WORD, &operands[..2]),
        REM => put_row(out, at, nid, b"urem", WORD, &operands[..2]),
        SLL => put_row(out, at, nid, b"sll", WORD, &operands[..2]),
        SRL => put_row(out, at, nid, b"srl", WORD, &operands[..2]),
        ULT => put_row(out, at, nid, b"ult", BIT, &operands[..2]),
        EXT => put_row(out, at, nid, b"uext", WORD, &[a, padding(sort)]),
        ITE => put_row(out, at, nid, b"ite", sort, &operands),
        EQ => put_row(out, at, nid, b"eq", BIT, &operands[..2]),
        AND => put_row(out, at, nid, b"and", sort, &operands[..2]),
        OR => put_row(out, at, nid, b"or", sort, &operands[..2]),
        NOT => put_row(out, at, nid, b"not", sort, &operands[..1]),
        STATE => put_state(out, at, line, identified.a, areas.printed(line.name)),
        NEXT => put_row(out, at, nid, b"next", sort, &operands[..2]),
        INPUT => put_named(out, at, nid, b"input", sort, areas.printed(line.name)),
        BAD => put_named(out, at, nid, b"bad", a, areas.printed(line.name)),
        _ => at,
    }
}

// By how many bits a value of a sort is extended to a Word.
fn padding(from: u64) -> u64
    ensures { (s : NodeType) → sort_numbered from ≡ Some s → result ≡ 64 - width s }
{
    match sort_of(from) {
        Some(sort) => btor2::padding(sort),
        None => 0,
    }
}

// Whether a line of this kind has a sort of its own.
fn own_sort(kind: u64) -> bool
    ensures { result ≡ own_sort kind }
{
    matches!(
        kind,
        CONST | EXT | ITE | AND | OR | NOT | STATE | NEXT | INPUT
    )
}

// Whether a line of this kind has a sort of its own, which is unknown.
fn unsorted(kind: u64, sort: u64) -> bool
    ensures known { result ≡ false → own_sort kind ≡ true → (s : NodeType) × (sort_numbered sort ≡ Some s) }
    ensures unknown { result ≡ true → (l : Line) → l.kind ≡ kind → l.sort ≡ sort → op_of l ≡ unknown }
{
    sort_of(sort).is_none() && own_sort(kind)
}

// A State by its name, and its init where `imm` says that it has one.
fn put_state(out: &mut [u8], at: usize, line: Line, init: Nid, name: &[u8]) -> usize
    ensures { Put out.old at (named_row line.nid.0 "state" line.sort name.now ++ (if nat_eq line.imm 0 then [] else plain_row ((line.nid.0 + 1) % 2 ^ 64) "init" (line.sort ∷ line.nid.0 ∷ init.0 ∷ []))) out.new result }
{
    let nid = line.nid.0;
    let p = put_named(out, at, nid, b"state", line.sort, name);
    if line.imm == 0 {
        return p;
    }
    let next = nid.wrapping_add(1);
    put_row(out, p, next, b"init", line.sort, &[nid, init.0])
}
