// The bench: the value of a line on given values, with the visits that it takes.
#![tactic(auto)]

mod given_records;
mod operators;

ghost use Rattle.std.specs.Prelude.{◌≡◌, ◌<◌, ℕ, length, MatchResult};
ghost use Rattle.btor2_list.specs.Operator.{op_from};
ghost use Rattle.btor2_list.specs.Record.{capacity};
ghost use Rattle.evaluation.specs.Answer.{evaluated_of};
ghost use Rattle.evaluation.specs.Evaluation.{evaluated};
ghost use Rattle.evaluation_calls.specs.Inside.{num_from, cell_from, of_both, joined_of, said_at, Entered, Stopped};

use btor2::{NodeRef, NodeType};
use btor2_list::{LineOperator, get, look, operator_of};
use evaluation::Evaluated;
use given_records::{given, given_cell};
use list_check::broken;
use operators::{binary, not};
use refusals::Refusal;
use sort_check::meets_rule;

// The most lines of a list, and the most visits.
const BENCH_LINES: usize = 4096;

const MOST_VISITS: u64 = 100_000;

// The value of the line at a place on the given values, and the visits that it took; or refusal 19, 18 or 17. `lines` is how many lines the list has;
// `values` are records of node and value, `memory` of node, address and word.
pub fn evaluate(
    list: &[u64],
    lines: usize,
    values: &[u64],
    memory: &[u64],
    asked: NodeRef,
) -> Result<Evaluated, Refusal>
    ensures { evaluated_of result ≡ evaluated list.now lines values.now memory.now asked.0 }
{
    if BENCH_LINES < lines || broken(list, lines) {
        return Err(Refusal::UnfitAsked);
    }
    let looked = look(list, lines, asked);
    let Some(sort) = looked.sort else {
        return Err(Refusal::UnfitAsked);
    };
    match sort {
        NodeType::Bit | NodeType::Word => {
            let bench = Bench {
                list,
                values,
                memory,
            };
            bench.number(asked, 0)
        }
        _ => Err(Refusal::UnfitAsked),
    }
}

// What an evaluation reads.
#[derive(Clone, Copy)]
struct Bench<'a> {
    list: &'a [u64],
    values: &'a [u64],
    memory: &'a [u64],
}

impl Bench<'_> {
    // The number of the line at a place. A line that has none, as a Write, has 0: no line that meets the sort rule asks it for one.
    #[cycle(looks)]
    fn number(&self, place: NodeRef, visits: u64) -> Result<Evaluated, Refusal>
        requires { place.0 < capacity (length self.now.list.now) }
        ensures { evaluated_of result ≡ num_from self.now place.0 visits }
    {
        let line = self.visit(place, visits)?;
        let n = visits + 1;
        match line {
            LineOperator::Const(_, x) => Ok(Evaluated {
                value: x,
                visits: n,
            }),
            LineOperator::Read(m, a) => {
                let address = self.number(a, n)?;
                self.cell(m, address.value, address.visits)
            }
            LineOperator::Binary(f, a, b) => {
                let (x, y) = self.two(a, b, n)?;
                Ok(Evaluated {
                    value: binary(f, x.value, y.value),
                    ..y
                })
            }
            LineOperator::Ext(_, a) => self.number(a, n),
            LineOperator::Ite(_, c, a, b) => {
                let condition = self.number(c, n)?;
                let chosen = if condition.value == 1 { a } else { b };
                self.number(chosen, condition.visits)
            }
            LineOperator::Eq(a, b) => {
                let (x, y) = self.two(a, b, n)?;
                Ok(Evaluated {
                    value: u64::from(x.value == y.value),
                    ..y
                })
            }
            LineOperator::And(_, a, b) => {
                let (x, y) = self.two(a, b, n)?;
                Ok(Evaluated {
                    value: x.value & y.value,
                    ..y
                })
            }
            LineOperator::Or(_, a, b) => {
                let (x, y) = self.two(a, b, n)?;
                Ok(Evaluated {
                    value: x.value | y.value,
                    ..y
                })
            }
            LineOperator::Not(s, a) => {
                let operand = self.number(a, n)?;
                Ok(Evaluated {
                    value: not(s, operand.value),
                    ..operand
                })
            }
            LineOperator::State(s, _)
            | LineOperator::StateInit(s, _, _)
            | LineOperator::Input(s, _) => {
                Ok(Evaluated {
                    value: given(self.values, place, s),
                    visits: n,
                })
            }
            LineOperator::Write(_, _, _)
            | LineOperator::Next(_, _, _)
            | LineOperator::Bad(_, _)
            | LineOperator::Unknown => {
                Ok(Evaluated {
                    value: 0,
                    visits: n,
                })
            }
        }
    }

    // A cell of the memory at a place: back to the newest write that covers it. A line that is no memory has 0: no line that meets the sort rule asks it
    // for a cell.
    #[cycle(looks)]
    fn cell(&self, place: NodeRef, address: u64, visits: u64) -> Result<Evaluated, Refusal>
        requires { place.0 < capacity (length self.now.list.now) }
        ensures { evaluated_of result ≡ cell_from self.now place.0 address visits }
    {
        let line = self.visit(place, visits)?;
        let n = visits + 1;
        match line {
            LineOperator::Write(m, a, v) => {
                let at = self.number(a, n)?;
                if at.value == address {
                    self.number(v, at.visits)
                } else {
                    self.cell(m, address, at.visits)
                }
            }
            LineOperator::Ite(_, c, a, b) => {
                let condition = self.number(c, n)?;
                let chosen = if condition.value == 1 { a } else { b };
                self.cell(chosen, address, condition.visits)
            }
            LineOperator::State(s, _)
            | LineOperator::StateInit(s, _, _)
            | LineOperator::Input(s, _) => {
                Ok(Evaluated {
                    value: given_cell(self.memory, place, s, address),
                    visits: n,
                })
            }
            _ => Ok(Evaluated {
                value: 0,
                visits: n,
            }),
        }
    }

    // Two numbers, one after the other. This is compiled into its caller, so that a line that waits for its operands takes less of the stack.
    #[inline(always)]
    #[cycle(looks)]
    fn two(&self, a: NodeRef, b: NodeRef, visits: u64) -> Result<(Evaluated, Evaluated), Refusal>
        requires first { a.0 < capacity (length self.now.list.now) }
        requires second { b.0 < capacity (length self.now.list.now) }
        ensures { (f : ℕ → ℕ → ℕ) → joined_of f result ≡ of_both f (num_from self.now a.0) (num_from self.now b.0) visits }
    {
        let x = self.number(a, visits)?;
        let y = self.number(b, x.visits)?;
        Ok((x, y))
    }

    // A visit of the line at a place, after this many others, gives what it says: the limit is tested before the line is looked at, then its sort rule.
    fn visit(&self, place: NodeRef, visits: u64) -> Result<LineOperator, Refusal>
        requires { place.0 < capacity (length self.now.list.now) }
        ensures { MatchResult result (λ line. Entered self.now place.0 visits (op_from line)) (λ r. Stopped self.now place.0 visits r) }
    {
        if MOST_VISITS <= visits {
            return Err(Refusal::TooManyVisits);
        }
        let line = operator_at(self.list, place);
        if meets_rule(self.list, place.0, line) {
            Ok(line)
        } else {
            Err(Refusal::VisitIllSorted)
        }
    }
}

// What the line at a place says.
fn operator_at(list: &[u64], place: NodeRef) -> LineOperator
    requires { place.0 < capacity (length list.now) }
    ensures { op_from result ≡ said_at list.now place.0 }
{
    match get(list, place) {
        Some(line) => operator_of(line),
        None => LineOperator::Unknown,
    }
}
