// The name of a syscall edge's State.
ghost use Rattle.std.specs.Prelude.{◌≡◌, ◌≤◌, length};
ghost use Rattle.text.specs.Put.{Put};
ghost use Rattle.join.specs.FlagName.{flag_name};

// Puts the name from a place on, and gives the place after it.
pub(crate) fn put_flag_name(names: &mut [u8], at: usize, address: u64) -> usize
    ensures { Put names.old at (flag_name address) names.new result }
{
    let p = text::put_bytes(names, at, b"kernel-mode-pc-flag-");
    text::put_decimal(names, p, address)
}

// The name is put into an array of its own: the place after it is its length.
pub(crate) fn flag_name_len(address: u64) -> usize
    ensures is { result ≡ length (flag_name address) }
    ensures most { result ≤ 40 }
{
    let mut name = [0u8; 40];
    put_flag_name(&mut name, 0, address)
}
