// Refusal 12: every line meets the sort rule. What a line is to a later one depends on its own record alone, so each operand is looked up once.
#![tactic(auto, using(std::proofs::lemmas::Bool::Decides::nat_tests), unfolding(btor2::specs::Op::map_op, btor2::specs::SortRule::rule))]

ghost use Rattle.std.specs.Prelude.{◌≡◌, cond, true, ◌&&◌, ◌||◌};
ghost use Rattle.std.proofs.Math.Bool as B;
ghost use Rattle.btor2.specs.declared.NodeType.TheVariants.{Bit, Word};
ghost use Rattle.btor2.specs.Op as O;
ghost use Rattle.btor2.specs.Op.{map_op};
ghost use Rattle.btor2.specs.Sort.{same_sort};
ghost use Rattle.btor2.specs.SortRule.{has_sort, is, bit_or_word, rule, is_state_op};
ghost use Rattle.btor2_list.specs.Record.{holds, record_at};
ghost use Rattle.btor2_list.specs.Node.{op_of};
ghost use Rattle.btor2_list.specs.Operator.{op_from};
ghost use Rattle.sort_check.specs.Broken.{sort_broken_words};
ghost use Rattle.sort_check.specs.Marks.{mark_at};

use btor2::{NodeRef, NodeType, bitsize};
use btor2_list::{Line, LineOperator, capacity, get, look, operator_of};

// 12: some line breaks the sort rule. True where the words do not hold as many lines.
pub fn sort_broken(list: &[u64], lines: usize) -> bool
    ensures { result ≡ sort_broken_words list.now lines }
{
    capacity(list.len()) < lines || (0..lines).any(|i| line_breaks(list, i))
}

fn line_breaks(list: &[u64], i: usize) -> bool
    ensures { result ≡ cond (holds list.now i) (B.not (rule (map_op (mark_at list.now i) (op_of (record_at list.now i))))) true }
{
    get(list, NodeRef(i)).is_none_or(|line| !meets_rule(list, i, operator_of(line)))
}

// The rule of line i, which says `o`.
pub fn meets_rule(list: &[u64], i: usize, o: LineOperator) -> bool
    ensures { result ≡ rule (map_op (mark_at list.now i) (op_from o)) }
{
    let earlier = Earlier { list, lines: i };
    match o {
        // "Const fits its sort and isn't Memory"
        LineOperator::Const(s, n) => const_fits(s, n),
        // "reads and writes on a Memory with Word addresses and values"
        LineOperator::Read(m, a) => earlier.is(NodeType::Memory, m)
            && earlier.is(NodeType::Word, a),
        LineOperator::Write(m, a, v) => earlier.is(NodeType::Memory, m)
            && earlier.are(NodeType::Word, a, v),
        // "Ult on Words, itself Bit; other operators on Words"
        LineOperator::Binary(_, a, b) => earlier.are(NodeType::Word, a, b),
        // "Ext takes a value of its `from`, Bit or an input sort"
        LineOperator::Ext(from, a) => from != NodeType::Word
            && from != NodeType::Memory
            && earlier.is(from, a),
        // "Ite has a Bit condition and branches of its sort"
        LineOperator::Ite(s, c, a, b) => earlier.is(NodeType::Bit, c) && earlier.are(s, a, b),
        // "Eq on two Bits or two Words, itself Bit"
        LineOperator::Eq(a, b) => eq_fits(earlier.sort(a), earlier.sort(b)),
        // "And, Or, Not work on Bit or Word, operands and result alike"
        LineOperator::And(s, a, b) | LineOperator::Or(s, a, b) => bit_or_word(s)
            && earlier.are(s, a, b),
        LineOperator::Not(s, a) => bit_or_word(s) && earlier.is(s, a),
        // "State's init has its sort, or Word for Memory"
        LineOperator::StateInit(s, a, _) => earlier.sort(a).is_some_and(|t| t == s
            || (s == NodeType::Memory && t == NodeType::Word)),
        // "Next joins a State and a value of its sort"
        LineOperator::Next(s, a, b) => earlier.is_state(a) && earlier.are(s, a, b),
        // "Bad takes Bit"
        LineOperator::Bad(a, _) => earlier.is(NodeType::Bit, a),
        LineOperator::State(..) | LineOperator::Input(..) => true,
        LineOperator::Unknown => false,
    }
}

fn const_fits(s: NodeType, n: u64) -> bool
    ensures { result ≡ rule (O.const s n) }
{
    s == NodeType::Word || (s != NodeType::Memory && n < 1 << bitsize(s))
}

fn eq_fits(x: Option<NodeType>, y: Option<NodeType>) -> bool
    ensures { result ≡ ((has_sort Bit x && has_sort Bit y) || (has_sort Word x && has_sort Word y)) }
{
    both(NodeType::Bit, x, y) || both(NodeType::Word, x, y)
}

fn both(s: NodeType, x: Option<NodeType>, y: Option<NodeType>) -> bool
    ensures { result ≡ (has_sort s x && has_sort s y) }
{
    of_sort(s, x) && of_sort(s, y)
}

fn of_sort(s: NodeType, x: Option<NodeType>) -> bool
    ensures { result ≡ has_sort s x }
{
    x.is_some_and(|t| s == t)
}

fn bit_or_word(s: NodeType) -> bool
    ensures { result ≡ bit_or_word s }
{
    s == NodeType::Bit || s == NodeType::Word
}

// A value line before line i, of sort s. No crate here calls it any more: it stays for those that do elsewhere.
pub fn is_of(list: &[u64], i: usize, s: NodeType, place: NodeRef) -> bool
    ensures { result ≡ is s (mark_at list.now i place.0) }
{
    let earlier = Earlier { list, lines: i };
    earlier.is(s, place)
}

// The same sort, in the words of the rule. No crate here calls it any more: it stays for those that do elsewhere.
pub fn same(s: NodeType, t: NodeType) -> bool
    ensures { result ≡ same_sort s t }
{
    s == t
}

// The first lines of a list, which come before the line that names them.
#[derive(Clone, Copy)]
struct Earlier<'a> {
    list: &'a [u64],
    lines: usize,
}

impl Earlier<'_> {
    // The sort of the value line that the place names.
    fn sort(&self, place: NodeRef) -> Option<NodeType>
        ensures { result ≡ (mark_at self.now.list.now self.now.lines place.0).sort }
    {
        look(self.list, self.lines, place).sort
    }

    fn is(&self, s: NodeType, place: NodeRef) -> bool
        ensures { result ≡ is s (mark_at self.now.list.now self.now.lines place.0) }
    {
        of_sort(s, self.sort(place))
    }

    fn are(&self, s: NodeType, a: NodeRef, b: NodeRef) -> bool
        ensures { result ≡ (is s (mark_at self.now.list.now self.now.lines a.0) && is s (mark_at self.now.list.now self.now.lines b.0)) }
    {
        self.is(s, a) && self.is(s, b)
    }

    fn is_state(&self, place: NodeRef) -> bool
        ensures { result ≡ (mark_at self.now.list.now self.now.lines place.0).is_state }
    {
        place.0 < self.lines && get(self.list, place).is_some_and(is_state)
    }
}

#[tactic(auto, unfolding(btor2::specs::SortRule::is_state_op))]
fn is_state(line: Line) -> bool
    ensures { result ≡ is_state_op (op_of line) }
{
    matches!(
        operator_of(line),
        LineOperator::State(..) | LineOperator::StateInit(..)
    )
}
