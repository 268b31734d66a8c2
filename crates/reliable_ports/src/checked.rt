//! Laws: the text of a port's program is that program, and the chunks of ports are typed.
ghost use Rattle.std.specs.Prelude.{◌≡◌, ℕ, ℤ, List, Ok, length, ◌≤◌};
ghost use Rattle.plan_base.specs.declared.ids.Host.{Host};
ghost use Rattle.checked_chunks.specs.Kept.{IsChecked, IsCheckedChunk};
ghost use Rattle.program_text.specs.Texts.{program_of};
ghost use Rattle.reliable_ports.specs.Programs as spec;
ghost use Rattle.reliable_ports.specs.Texts.{port_text};

/// The text of a port's program is that program.
#[tactic(auto, using(crate::proofs::PortText::port_says))]
pub fn port_is_read()
    ensures { program_of port_text ≡ Ok spec.port_program }
{}

/// The program of a port is typed and well formed, and lacks no types.
#[tactic(auto, using(crate::proofs::PortTyping::port_checked))]
pub fn port_is_checked()
    ensures { IsChecked spec.port_program }
{}

/// So is each chunk that carries an ack, and each that carries a message of at most 4,096 bytes; and they are within the
/// limits of size.
pub fn chunks_are_checked()
    ensures messages { (dest : Host) (seq : ℤ) (body : List ℕ)
        → length body ≤ 4096 → IsCheckedChunk (spec.data_chunk dest seq body) }
    ensures acks { (dest : Host) (next : ℤ) → IsCheckedChunk (spec.ack_chunk dest next) }
{}
