// The listing program, run on lines that reach every kind and every refusal that it can give. tools/listing_cases.py made them, and what is
// to be written.
#![tactic(auto)]

use std::io;

fn main(rt: HostRuntime) -> io::Result<()> {
    listing_run::list_instructions(&mut rt.stdin(), &mut rt.stdout())
}
