//! Why a text gives no packet.
use plan_base::NoMemory;
use plan_types_chunks::ChunkFault;
use program_text::TextFault;

/// Why a text gives no packet.
#[derive(Drop)]
pub enum PacketFault {
    /// It is no typed program: the first refusal.
    Text(TextFault),
    /// Its program has no such chunk: what is wrong first.
    Chunk(ChunkFault),
    /// Memory was refused.
    NoMemory,
}

impl From<NoMemory> for PacketFault {
    ghost use Rattle.std.specs.Prelude.{◌≡◌};
    ghost use Rattle.example_services.specs.declared.fault.PacketFault.TheVariants as fault;

    ghost from_gives = { λ _ e. e ≡ fault.NoMemory };

    fn from(_refused: NoMemory) -> PacketFault {
        PacketFault::NoMemory
    }
}
