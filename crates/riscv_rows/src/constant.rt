// The constant that a kind's lines have: its immediate, or what the Rust makes of it.
ghost use Rattle.std.specs.Prelude.{◌≡◌};
ghost use Rattle.riscv.specs.Kind.{kind_at};
ghost use Rattle.riscv.specs.Constant.{upper, constant_of};

use riscv::Kind;

pub fn constant_of(kind: u64, imm: u64, address: u64) -> u64
    ensures { result ≡ constant_of (kind_at kind) imm address }
{
    match Kind::at(kind) {
        Kind::Lui => upper_immediate(imm),
        Kind::Auipc => upper_immediate(imm).wrapping_add(address),
        Kind::Srai => imm % 64,
        Kind::Slliw | Kind::Srliw => imm.wrapping_add(32),
        Kind::Sraiw => imm % 64 + 32,
        Kind::Jal | Kind::Jalr => address.wrapping_add(4),
        _ => imm,
    }
}

// `((imm as i32) << 12) as u64`
fn upper_immediate(imm: u64) -> u64
    ensures { result ≡ upper imm }
{
    let field = imm % 0x10_0000;
    let low = field * 4096;
    if field < 0x8_0000 {
        low
    } else {
        low + 0xffff_ffff_0000_0000
    }
}
