//! Puts the fields of trees: flags, numbers, names and sized bytes.
ghost use Rattle.std.specs.Prelude.{◌≡◌, ◌++◌, ◌+◌, ◌≤◌, ◌<◌, ◌^◌, [], ◌∷◌, length};
ghost use Rattle.chunk_codec_spec.specs.Fields.{flag_byte, op_byte, name_bytes, sized_bytes};

use plan_base::{Name, Op};
use wire_bytes::Out;

/// The number of an operator.
pub fn op_number(op: Op) -> u8
    ensures { result ≡ op_byte op }
{
    match op {
        Op::Add => 0,
        Op::Sub => 1,
        Op::Mul => 2,
        Op::Div => 3,
        Op::Mod => 4,
        Op::Cat => 5,
        Op::Eq => 6,
        Op::Ne => 7,
        Op::Lt => 8,
        Op::Le => 9,
        Op::Gt => 10,
        Op::Ge => 11,
        Op::Cons => 12,
    }
}

/// Puts a truth value.
pub fn put_flag(flag: bool, out: &mut Out)
    requires { 1 ≤ out.old.room }
    ensures bytes { out.new.bytes ≡ out.old.bytes ++ flag_byte flag ∷ [] }
    ensures room { out.new.room + 1 ≡ out.old.room }
{
    if flag { out.put_u8(1) } else { out.put_u8(0) }
}

/// Puts bytes behind their length in two bytes.
pub fn put_sized(bytes: &[u8], out: &mut Out)
    requires short { length bytes.now < 65536 }
    requires room { length (sized_bytes bytes.now) ≤ out.old.room }
    ensures bytes { out.new.bytes ≡ out.old.bytes ++ sized_bytes bytes.now }
    ensures room { out.new.room + length (sized_bytes bytes.now) ≡ out.old.room }
{
    out.put_u16(bytes.len() as u16);
    out.put_bytes(bytes);
}

/// Appends the spelling of a name: its length in one byte, and its bytes. Condition: the bytes have room.
#[tactic(auto, using(crate::proofs::Puts::name_short))]
pub fn put_name(name: &Name, out: &mut Out)
    requires { length (name_bytes name.now) ≤ out.old.room }
    ensures bytes { out.new.bytes ≡ out.old.bytes ++ name_bytes name.now }
    ensures room { out.new.room + length (name_bytes name.now) ≡ out.old.room }
{
    let bytes = name.as_slice();
    out.put_u8(bytes.len() as u8);
    out.put_bytes(bytes);
}
