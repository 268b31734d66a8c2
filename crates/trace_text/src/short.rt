//! A short text, in which a line is put together.
ghost use Rattle.std.specs.Prelude.{◌≡◌, ◌+◌, ◌≤◌, ◌<◌, [], ◌∷◌, ◌++◌, length, OnOk, OnErr};
ghost use Rattle.std.specs.Fmt.{decimal};
ghost use Rattle.plan_printer_spec.specs.Literals.{int_text};
ghost use Rattle.node_core_spec.specs.Texts.{family_text, bound_text, device_text};
ghost use Rattle.trace_text.specs.Lines.{head_of};

use itoa::Buffer;
use plan_base::{Bytes, Dev, Family, Host, NoMemory};
use std::marker::Model;

/// A text of at most 192 bytes, which is written without memory.
#[derive(Drop)]
pub struct ShortText {
    all: [u8; 192],
    len: usize,
}

impl Model for ShortText {
    ghost use Rattle.std.specs.Prelude.{List, ℕ, ◌≤◌, take};
    ghost use Rattle.std.specs.Coded.{coded_list, coded_ℕ};

    ghost Value = { List ℕ };

    ghost coded = { coded_list coded_ℕ };

    ghost view = { λ t. take t.len t.all };

    ghost invariant = { λ t. t.len ≤ 192 };
}

impl ShortText {
    /// No text.
    #[inline(always)]
    pub fn new() -> ShortText
        ensures { result ≡ [] }
    {
        ShortText {
            all: [0; 192],
            len: 0,
        }
    }

    /// Appends a byte. Condition: there is room.
    #[inline(always)]
    pub fn byte(&mut self, byte: u8)
        requires { length self.old + 1 ≤ 192 }
        ensures { self.new ≡ self.old ++ byte ∷ [] }
    {
        self.all[self.len] = byte;
        self.len += 1;
    }

    /// Appends a word. Condition: there is room.
    #[inline(always)]
    pub fn word(&mut self, word: &[u8])
        requires { length self.old + length word.now ≤ 192 }
        ensures { self.new ≡ self.old ++ word.now }
    {
        let start = self.len;
        self.len += word.len();
        self.all[start..self.len].copy_from_slice(word);
    }

    /// Appends a number in decimal. Condition: there is room for 20 digits.
    #[inline(always)]
    #[tactic(auto, using(std::proofs::lemmas::Fmt::decimal_digit))]
    pub fn number(&mut self, n: u64)
        requires { length self.old + 20 ≤ 192 }
        ensures text { self.new ≡ self.old ++ decimal n }
        ensures room { length self.new ≤ length self.old + 20 }
    {
        // (most numbers of a trace have one digit)
        if n < 10 {
            self.byte(b'0' + n as u8);
            return;
        }
        let mut digits = Buffer::new();
        self.word(digits.format(n).as_bytes());
    }

    /// Appends a number with its sign, `~` before a negative one. Condition: there is room for 21 bytes.
    #[inline(always)]
    #[tactic(auto, unfolding(plan_printer_spec::specs::Literals::int_text))]
    pub fn integer(&mut self, n: i64)
        requires { length self.old + 21 ≤ 192 }
        ensures text { self.new ≡ self.old ++ int_text n }
        ensures room { length self.new ≤ length self.old + 21 }
    {
        if n >= 0 {
            self.number(n as u64);
            return;
        }
        self.byte(b'~');
        self.number(n.unsigned_abs());
    }

    /// Appends a family. Condition: there is room for 41 bytes.
    #[inline(always)]
    pub fn family(&mut self, f: Family)
        requires { length self.old + 41 ≤ 192 }
        ensures text { self.new ≡ self.old ++ family_text f }
        ensures room { length self.new ≤ length self.old + 41 }
    {
        self.number(u64::from(f.source.0));
        self.byte(b'.');
        self.number(f.serial);
    }

    /// Appends a family with its bound. Condition: there is room for 69 bytes.
    #[inline(always)]
    pub fn bound(&mut self, f: Family, bound: u32)
        requires { length self.old + 69 ≤ 192 }
        ensures text { self.new ≡ self.old ++ bound_text f bound }
        ensures room { length self.new ≤ length self.old + 69 }
    {
        self.byte(b' ');
        self.family(f);
        self.word(b" bound ");
        self.number(u64::from(bound));
    }

    /// Appends a device. Condition: there is room for 22 bytes.
    #[inline(always)]
    pub fn device(&mut self, dev: Dev)
        requires { length self.old + 22 ≤ 192 }
        ensures text { self.new ≡ self.old ++ device_text dev }
        ensures room { length self.new ≤ length self.old + 22 }
    {
        self.word(b" %");
        self.number(u64::from(dev.0));
    }

    /// Appends the number of an event and the head of its line. Condition: there is room for the word and 43 bytes more.
    #[inline(always)]
    pub fn head(&mut self, event: u64, word: &[u8], host: Host)
        requires { length self.old + length word.now + 43 ≤ 192 }
        ensures text { self.new ≡ self.old ++ head_of event word.now host }
        ensures room { length self.new ≤ length self.old + length word.now + 43 }
    {
        self.number(event);
        self.byte(b' ');
        self.word(word);
        self.word(b" @");
        self.number(u64::from(host.0));
    }

    /// Appends the text. Where an allocation fails, `out` stays.
    pub fn put(&self, out: &mut Bytes) -> Result<(), NoMemory>
        ensures whole { OnOk result (out.new ≡ out.old ++ self.now) }
        ensures stays { OnErr result (out.new ≡ out.old) }
    {
        out.add_all(&self.all[..self.len])?;
        Ok(())
    }
}
