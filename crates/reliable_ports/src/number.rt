//! The numbers of messages.
ghost use Rattle.std.specs.Prelude.{◌≡◌};
ghost use Rattle.reliable_ports.specs.Ends.{number_of};

/// The most messages that are offered and not acknowledged, and how far ahead of the awaited one a message isn't kept
/// any more.
pub const WINDOW: u64 = 64;

/// What a message or an ack takes from a purse.
pub const PRICE: i64 = 4;

/// The number that an int stands for in a message: 0, which is no message's, for one below 0.
pub fn number_of(int: i64) -> u64
    ensures { result ≡ number_of int }
{
    u64::try_from(int).unwrap_or(0)
}
