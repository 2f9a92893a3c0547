// The operators on two words that take one line.
ghost use Rattle.std.specs.Prelude.{◌≡◌};
ghost use Rattle.btor2.specs.Sort.{sort_number};
ghost use Rattle.btor2.specs.Op.{bin_sort};
ghost use Rattle.btor2_list.specs.Node.{bin_kind};
ghost use Rattle.builder.specs.OneLine.{new_bin};
ghost use Rattle.builder.specs.Builds.{Builds};
ghost use Rattle.btor2_list.specs.Operator.{bin_from};

use crate::Builder;
use btor2::{BIT, NodeRef, WORD};
use btor2_list::{ADD, Bin, DIV, DIVU, Line, MUL, REM, SLL, SRL, SUB, ULT};

fn bin_kind(operator: Bin) -> u64
    ensures { result ≡ bin_kind (bin_from operator) }
{
    match operator {
        Bin::Add => ADD,
        Bin::Sub => SUB,
        Bin::Mul => MUL,
        Bin::Divu => DIVU,
        Bin::Div => DIV,
        Bin::Rem => REM,
        Bin::Sll => SLL,
        Bin::Srl => SRL,
        Bin::Ult => ULT,
    }
}

fn bin_sort(operator: Bin) -> u64
    ensures { result ≡ sort_number (bin_sort (bin_from operator)) }
{
    match operator {
        Bin::Ult => BIT,
        _ => WORD,
    }
}

impl<'a> Builder<'a> {
    // unicorn's `new_add`, `new_sub`, `new_mul`, `new_divu`, `new_div`, `new_rem`, `new_sll`, `new_srl` and `new_ult`.
    pub fn new_bin(&mut self, operator: Bin, left: NodeRef, right: NodeRef) -> NodeRef
        ensures { Builds self.old (new_bin (bin_from operator) left.0 right.0) self.new result.0 }
    {
        self.add_node(Line {
            kind: bin_kind(operator),
            sort: bin_sort(operator),
            op1: left,
            op2: right,
            ..self.next_line()
        })
    }
}
