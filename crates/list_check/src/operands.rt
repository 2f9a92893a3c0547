// Refusal 19's check over a whole list of lines: kinds, sorts and operands.
ghost use Rattle.std.specs.Prelude.{◌≡◌, true, cond};
ghost use Rattle.btor2_list.specs.Record.{holds};
ghost use Rattle.btor2_list.specs.Operator.{op_from};
ghost use Rattle.list_check.specs.Operand.{no_value_at};
ghost use Rattle.list_check.specs.Broken.{op_broken, broken_words};
ghost use Rattle.list_check.specs.OperandsOut.{record_broken};

use btor2::NodeRef;
use btor2_list::{Line, LineOperator, capacity, get, look, operator_of};

// Some line has an unknown kind or sort, or names an operand that is no earlier value line. True where the words do not hold as many lines.
pub fn broken(list: &[u64], lines: usize) -> bool
    ensures { result ≡ broken_words list.now lines }
{
    capacity(list.len()) < lines || (0..lines).any(|i| line_broken(list, i))
}

fn line_broken(list: &[u64], i: usize) -> bool
    ensures { result ≡ cond (holds list.now i) (record_broken list.now i) true }
{
    get(list, NodeRef(i)).is_none_or(|line| operator_broken(list, i, operator_of(line)))
}

// Line i, which says `o`: an operand is out where it is no value line before line i.
#[tactic(auto, using(std::proofs::lemmas::Bool::Decides::nat_tests), unfolding(crate::specs::Broken::op_broken))]
fn operator_broken(list: &[u64], i: usize, o: LineOperator) -> bool
    ensures { result ≡ op_broken (no_value_at list.now i) (op_from o) }
{
    let out = |place: NodeRef| look(list, i, place).sort.is_none();
    match o {
        LineOperator::Const(..) | LineOperator::State(..) | LineOperator::Input(..) => false,
        LineOperator::Ext(_, a)
        | LineOperator::Not(_, a)
        | LineOperator::StateInit(_, a, _)
        | LineOperator::Bad(a, _) => out(a),
        LineOperator::Read(a, b)
        | LineOperator::Binary(_, a, b)
        | LineOperator::Eq(a, b)
        | LineOperator::And(_, a, b)
        | LineOperator::Or(_, a, b)
        | LineOperator::Next(_, a, b) => out(a) || out(b),
        LineOperator::Write(a, b, c) | LineOperator::Ite(_, a, b, c) => out(a) || out(b) || out(c),
        LineOperator::Unknown => true,
    }
}
