//! A text from a place on.
ghost use Rattle.std.specs.Prelude.{◌≡◌, ◌<◌, ◌≤◌, get_or, length, drop};

/// The byte at place `i` of a text, or 0 at the end and past it.
pub(crate) fn byte_at(text: &[u8], i: usize) -> u8
    ensures value { result ≡ get_or text.now i 0 }
    ensures inside { 0 < result → i < length text.now }
{
    text.get(i).copied().unwrap_or(0)
}

/// What is left of a text behind its first `count` bytes. Condition: it has so many.
pub(crate) fn after(text: &[u8], count: usize) -> &[u8]
    requires { count ≤ length text.now }
    ensures { result.now ≡ drop count text.now }
{
    &text[count..]
}
