// The lines of a join: one address's edges, then its dispatches.
ghost use Rattle.std.specs.Prelude.{◌≡◌};
ghost use Rattle.builder.specs.Builds.{Builds};
ghost use Rattle.state.specs.Roles.{register_node};
ghost use Rattle.join.specs.Code.{bit_places, kernel_places};
ghost use Rattle.join.specs.Program.{edge_name, names_of, nexts_by, nexts_of, from_edge, join_edges, join_dispatches};
ghost use Rattle.join.specs.Given.{flag_for, dynamic_for};
ghost use Rattle.join_calls.specs.Records.{edge_record, all_edges, all_dispatches, all_flags};
ghost use Rattle.join_calls.specs.Steps.{Joins, RoomForEdges, RoomForEdge, kernel_of};

use crate::areas::Areas;
use crate::control_flow::{
    control_flow_from_branch, control_flow_from_ecall, control_flow_from_jalr,
    control_flow_from_regular,
};
use crate::records::{dispatch_in, dynamic_flag, edge_in, find_flag};
use btor2::NodeRef;
use builder::Builder;
use edges::{DISPATCH, EDGE, InEdge, Origin};
use join::{Bits, JoinInput, Kernel};
use riscv::LAST_REGISTER;
use state::ROLES;

// One edge, with the flag of its source.
fn from_edge(
    b: &mut Builder,
    areas: &mut Areas,
    bits: Bits,
    kernel: Kernel,
    edge: InEdge,
    flag: NodeRef,
    flow: NodeRef,
) -> NodeRef
    requires { RoomForEdge areas.now edge.origin edge.from }
    ensures { Joins b.old areas.old (from_edge (bit_places bits) (kernel_places kernel) (λ _. flag.0) areas.old.named (edge_record edge) flow.0) (edge_name edge.origin edge.from) (nexts_by edge.origin) b.new areas.new result.0 }
{
    match Origin::numbered(edge.origin) {
        Some(Origin::Branch) => control_flow_from_branch(b, bits, flag, edge.condition, flow),
        Some(Origin::Syscall) => {
            control_flow_from_ecall(b, areas, bits, kernel, flag, edge.from, flow)
        }
        _ => control_flow_from_regular(b, bits, flag, flow),
    }
}

// One address's edges, in their order.
pub(crate) fn join_edges(
    b: &mut Builder,
    areas: &mut Areas,
    bits: Bits,
    given: &JoinInput,
) -> NodeRef
    requires { RoomForEdges areas.now (all_edges given.now.edges.now) }
    ensures { Joins b.old areas.old (join_edges (bit_places bits) (kernel_of given.now.asked) (flag_for (all_flags given.now.flags.now)) areas.old.named (all_edges given.now.edges.now) given.now.asked.flow.0) (names_of (all_edges given.now.edges.now)) (nexts_of (all_edges given.now.edges.now)) b.new areas.new result.0 }
{
    let kernel = Kernel {
        mode: given.asked.mode,
        none: given.asked.none,
    };
    let mut flow = given.asked.flow;
    for words in given.edges.chunks_exact(EDGE) {
        let edge = edge_in(words);
        let flag = find_flag(given.flags, edge.from);
        flow = from_edge(b, areas, bits, kernel, edge, flag, flow);
    }
    flow
}

// One address's dispatches, in their order.
pub(crate) fn join_dispatches(
    b: &mut Builder,
    bits: Bits,
    roles: [NodeRef; ROLES],
    given: &JoinInput,
    flow: NodeRef,
) -> NodeRef
    ensures { Builds b.old (join_dispatches (bit_places bits) (λ n. (register_node roles n).0) (dynamic_for given.now.dynamics.now) (all_dispatches given.now.dispatches.now) flow.0) b.new result.0 }
{
    let mut joined = flow;
    for words in given.dispatches.chunks_exact(DISPATCH) {
        let dispatch = dispatch_in(words);
        let register = register_node(roles, dispatch.register);
        let dynamic = dynamic_flag(given.dynamics, dispatch.register);
        joined = control_flow_from_jalr(b, bits, register, dynamic, dispatch.address, joined);
    }
    joined
}

// The node of a register; x0's for what is no register.
fn register_node(roles: [NodeRef; ROLES], r: u64) -> NodeRef
    ensures { result ≡ register_node roles r }
{
    if r > LAST_REGISTER {
        return roles[state::REGISTERS];
    }
    roles[state::REGISTERS + r as usize]
}
