// The check of the roles (refusal 13): each is a value line of its sort.
ghost use Rattle.std.specs.Prelude.{◌≡◌, not, true, eqb, ℕ, ◌≤◌};
ghost use Rattle.btor2.specs.Sort.{sort_number};
ghost use Rattle.btor2_list.specs.declared.Line.{Line};
ghost use Rattle.btor2_list.specs.Record.{holds, record_at};
ghost use Rattle.btor2_list.specs.Node.{node_of};
ghost use Rattle.btor2_list.specs.Look.{look_at, seen};
ghost use Rattle.state.specs.RolesFit.{value_sort, role_sort, roles_fit};

use crate::roles::{
    ADDITION_FLOW, COUNTER, COUNTER_FLOW, MEMORY, MEMORY_FLOW, ONE_BIT, ROLES, ZERO_BIT,
};
use btor2::{NodeRef, NodeType, get_sort};
use btor2_list::{CONST, ITE, Line, STATE, get, look};

// The number of the sort of the value at a place, 0 where there is no value: it is compared with the number that a record has for its sort.
pub fn value_sort(list: &[u64], lines: usize, place: NodeRef) -> u64
    ensures { result ≡ value_sort (look_at list.now lines place.0) }
{
    match look(list, lines, place).sort {
        Some(s) => get_sort(s),
        None => 0,
    }
}

// 13: a role is outside the list, not a value line, or of the wrong sort.
pub fn roles_out(list: &[u64], lines: usize, roles: [NodeRef; ROLES]) -> bool
    ensures { result ≡ not (roles_fit list.now lines 0 roles) }
{
    for role in 0..ROLES {
        if role_out(list, lines, roles[role], role_sort(role)) {
            return true;
        }
    }
    false
}

// The sort that a role must have: most roles are registers, which are words.
fn role_sort(role: usize) -> NodeType
    ensures is { result ≡ role_sort role }
    ensures most { sort_number result ≤ 3 }
{
    match role {
        ZERO_BIT | ONE_BIT | ADDITION_FLOW.. => NodeType::Bit,
        MEMORY | COUNTER | MEMORY_FLOW | COUNTER_FLOW => NodeType::Memory,
        _ => NodeType::Word,
    }
}

// Whether the value at a place is not of a sort. Most roles are constants, states and ites, whose record says its own sort: these are told
// without a lookup.
fn role_out(list: &[u64], lines: usize, place: NodeRef, sort: NodeType) -> bool
    requires { sort_number sort ≤ 3 }
    ensures { result ≡ not (eqb (value_sort (look_at list.now lines place.0)) (sort_number sort)) }
{
    let number = get_sort(sort);
    !(place.0 < lines && says_sort(list, place, number)) && value_sort(list, lines, place) != number
}

// Whether the record at a place says that its value has the sort of this number.
fn says_sort(list: &[u64], place: NodeRef, sort: u64) -> bool
    requires { (sort ≡ 0 → ⊥) × (sort ≤ 3) }
    ensures { result ≡ true → (holds list.now place.0 ≡ true) × (sort ≡ value_sort (seen (node_of (record_at list.now place.0)))) }
{
    match get(list, place) {
        Some(line) => line.sort == sort && says_own_sort(line.kind),
        None => false,
    }
}

// Whether a record of this kind has the sort that it says, where that is a Bit, a Word or a Memory.
fn says_own_sort(kind: u64) -> bool
    ensures { (l : Line) (s : ℕ) → l.kind ≡ kind → l.sort ≡ s → (s ≡ 0 → ⊥) → s ≤ 3 → result ≡ true → s ≡ value_sort (seen (node_of l)) }
{
    matches!(kind, CONST | ITE | STATE)
}
