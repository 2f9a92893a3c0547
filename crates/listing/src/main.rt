// The listing program. Its test is the example of document 01, and then bad lines with the longest names until its list is full, and beyond.
// tools/listing_example.py made them, and what is to be written.
#![tactic(auto)]

use std::io;

fn main(rt: HostRuntime) -> io::Result<()> {
    listing_run::list_instructions(&mut rt.stdin(), &mut rt.stdout())
}
