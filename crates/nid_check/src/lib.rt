// Refusal 10: the identifiers of a start rise, none is one of a sort, and the next is above them all.
#![tactic(auto)]

ghost use Rattle.std.specs.Prelude.{◌≡◌, cond, None, Some};
ghost use Rattle.btor2_list.specs.Record.{holds, record_at};
ghost use Rattle.btor2_list.specs.Node.{node_of};
ghost use Rattle.nid_check.specs.Identifiers.{reserved, nids_out_words};
ghost use Rattle.nid_check.specs.Inside.{nid_out, rise_of};

use btor2::NodeRef;
use btor2_list::{Line, capacity, get, nids_taken};

// The last identifier that a sort is printed as.
const LAST_SORT: u64 = 17;

// 10: identifiers do not rise, one taken is that of a sort, or the next one is not above 17 and all those taken. True where the words do not
// hold as many lines.
pub fn nids_out(list: &[u64], lines: usize, next: u64) -> bool
    ensures { result ≡ nids_out_words list.now lines next }
{
    if capacity(list.len()) < lines || next <= LAST_SORT {
        return true;
    }
    let mut last = 0;
    for i in 0..lines {
        let Some(nid) = line_rises(list, i, last, next) else {
            return true;
        };
        last = nid;
    }
    false
}

// The identifiers that line i takes, after the last one taken before it.
fn line_rises(list: &[u64], i: usize, last: u64, next: u64) -> Option<u64>
    ensures { result ≡ cond (holds list.now i) (rise_of next last (node_of (record_at list.now i))) None }
{
    rise_of(get(list, NodeRef(i))?, last, next)
}

fn rise_of(line: Line, last: u64, next: u64) -> Option<u64>
    ensures { result ≡ rise_of next last (node_of line) }
{
    let nid = rise(line.nid.0, last, next)?;
    if nids_taken(line) == 1 {
        Some(nid)
    } else {
        rise(nid + 1, nid, next)
    }
}

// The identifier itself, where it may stand after the last one taken.
fn rise(nid: u64, last: u64, next: u64) -> Option<u64>
    ensures { result ≡ cond (nid_out next last nid) None (Some nid) }
{
    (!nid_out(nid, last, next)).then_some(nid)
}

// Not above the last one taken, that of a sort, or not below the next one.
fn nid_out(nid: u64, last: u64, next: u64) -> bool
    ensures { result ≡ nid_out next last nid }
{
    nid <= last || is_reserved(nid) || next <= nid
}

// The identifiers 0 to 3 and those of the input sorts.
fn is_reserved(nid: u64) -> bool
    ensures { result ≡ reserved nid }
{
    matches!(nid, 0..=3 | 11..=LAST_SORT)
}
