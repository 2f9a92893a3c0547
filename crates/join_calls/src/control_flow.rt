// How an edge or a dispatch goes into the flag of an address (unicorn's `control_flow_from_*`).
ghost use Rattle.builder.specs.Builds.{Builds};
ghost use Rattle.edges.specs.Edges.{syscall_origin};
ghost use Rattle.join.specs.FlagName.{flag_name, name_at};
ghost use Rattle.join.specs.ControlFlow.{control_flow_from_any, control_flow_from_regular, control_flow_from_branch, control_flow_from_ecall, control_flow_from_jalr};
ghost use Rattle.join.specs.Code.{bit_places, kernel_places};
ghost use Rattle.join_calls.specs.Steps.{Joins, RoomForEdge};

use crate::areas::Areas;
use btor2::{NodeRef, NodeType};
use builder::Builder;
use join::{Bits, Kernel};

// The zero bit's own place is replaced without an ite.
fn control_flow_from_any(b: &mut Builder, bits: Bits, activate: NodeRef, flow: NodeRef) -> NodeRef
    ensures { Builds b.old (control_flow_from_any (bit_places bits) activate.0 flow.0) b.new result.0 }
{
    if flow.0 == bits.zero.0 {
        return activate;
    }
    b.new_ite(NodeType::Bit, activate, bits.one, flow)
}

pub(crate) fn control_flow_from_regular(
    b: &mut Builder,
    bits: Bits,
    flag: NodeRef,
    flow: NodeRef,
) -> NodeRef
    ensures { Builds b.old (control_flow_from_regular (bit_places bits) flag.0 flow.0) b.new result.0 }
{
    control_flow_from_any(b, bits, flag, flow)
}

pub(crate) fn control_flow_from_branch(
    b: &mut Builder,
    bits: Bits,
    flag: NodeRef,
    condition: NodeRef,
    flow: NodeRef,
) -> NodeRef
    ensures { Builds b.old (control_flow_from_branch (bit_places bits) flag.0 condition.0 flow.0) b.new result.0 }
{
    let activate = b.new_and(NodeType::Bit, flag, condition);
    control_flow_from_any(b, bits, activate, flow)
}

// Its State has a name of its own, and its Next is listed with the sequentials.
pub(crate) fn control_flow_from_ecall(
    b: &mut Builder,
    areas: &mut Areas,
    bits: Bits,
    kernel: Kernel,
    flag: NodeRef,
    from: u64,
    flow: NodeRef,
) -> NodeRef
    requires { RoomForEdge areas.now syscall_origin from }
    ensures { Joins b.old areas.old (control_flow_from_ecall (bit_places bits) (kernel_places kernel) flag.0 (name_at areas.old.named from) flow.0) (flag_name from) 1 b.new areas.new result.0 }
{
    let name = areas.put_flag_name(from);
    let state = b.new_state(NodeType::Bit, bits.zero, name);
    let value = b.new_ite(NodeType::Bit, state, kernel.mode, flag);
    let next = b.new_next(NodeType::Bit, state, value);
    areas.list_next(next);
    let activate = b.new_and(NodeType::Bit, state, kernel.none);
    control_flow_from_any(b, bits, activate, flow)
}

pub(crate) fn control_flow_from_jalr(
    b: &mut Builder,
    bits: Bits,
    register: NodeRef,
    dynamic: NodeRef,
    pc: NodeRef,
    flow: NodeRef,
) -> NodeRef
    ensures { Builds b.old (control_flow_from_jalr (bit_places bits) register.0 dynamic.0 pc.0 flow.0) b.new result.0 }
{
    let here = b.new_eq(register, pc);
    let activate = b.new_and(NodeType::Bit, dynamic, here);
    control_flow_from_any(b, bits, activate, flow)
}
