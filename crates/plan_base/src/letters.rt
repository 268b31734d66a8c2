//! Few bytes, which stand in the value itself.

ghost use Rattle.std.specs.Prelude.{◌≡◌, ◌+◌, ◌≤◌, [], ◌++◌, length};

use std::marker::Model;

/// At most `N` bytes, which contracts see as their list. They stand at the end of `N` places.
#[derive(Drop)]
pub struct InlineBytes<const N: usize> {
    all: [u8; N],
    start: usize,
}

impl<const N: usize> Model for InlineBytes<N> {
    ghost use Rattle.std.specs.Prelude.{List, ℕ, ◌≤◌, drop};
    ghost use Rattle.std.specs.Coded.{coded_list, coded_ℕ};

    ghost Value = { List ℕ };

    ghost coded = { coded_list coded_ℕ };

    ghost view = { λ l. drop l.start l.all };

    ghost invariant = { λ l. l.start ≤ N };
}

impl<const N: usize> InlineBytes<N> {
    /// No bytes.
    #[inline(always)]
    pub fn none() -> InlineBytes<N>
        ensures { result ≡ [] }
    {
        InlineBytes {
            all: [0; N],
            start: N,
        }
    }

    /// Puts a word before the bytes. Condition: there is room.
    #[inline(always)]
    fn put(&mut self, word: &[u8])
        requires { length word.now + length self.old ≤ N }
        ensures { self.new ≡ word.now ++ self.old }
    {
        let end = self.start;
        self.start -= word.len();
        let all = &mut self.all[..];
        all[self.start..end].copy_from_slice(word);
    }

    /// The bytes of a word. Condition: at most `N`.
    #[inline(always)]
    pub fn of(word: &[u8]) -> InlineBytes<N>
        requires { length word.now ≤ N }
        ensures { result ≡ word.now }
    {
        let mut letters = InlineBytes::none();
        letters.put(word);
        letters
    }

    /// The bytes, lent.
    #[inline(always)]
    pub fn as_slice(&self) -> &[u8]
        ensures { result.now ≡ self.now }
    {
        let all = &self.all[..];
        &all[self.start..]
    }

    /// The same bytes.
    #[inline(always)]
    pub fn copy(&self) -> InlineBytes<N>
        ensures { result ≡ self.now }
    {
        InlineBytes {
            all: self.all,
            start: self.start,
        }
    }
}
