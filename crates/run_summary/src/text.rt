//! The text of a summary.
ghost use Rattle.std.specs.Prelude.{◌≡◌, ◌+◌, ◌≤◌, ◌<◌, [], ◌∷◌, ◌++◌, List, ℕ, length};
ghost use Rattle.machine_maker.specs.Summary.{counts_line, digit_text, labelled, spaced_byte, weight_line};

use arrayvec::ArrayVec;
use itoa::Buffer;
use std::marker::Model;

/// The most bytes that a summary has: the lines have at most 45, 52 and 54.
const TEXT_LEN: usize = 160;

/// The text of a summary, its three lines with their newlines. Contracts see it as its bytes.
#[derive(Drop)]
pub struct SummaryText {
    bytes: ArrayVec<u8, TEXT_LEN>,
}

impl Model for SummaryText {
    ghost Value = { List ℕ };

    ghost view = { λ t. t.bytes.items };
}

impl SummaryText {
    /// No text.
    pub(crate) fn new() -> Self
        ensures { result ≡ [] }
    {
        SummaryText {
            bytes: ArrayVec::new(),
        }
    }

    /// The bytes of the text.
    pub fn as_slice(&self) -> &[u8]
        ensures { result.now ≡ self.now }
    {
        self.bytes.as_slice()
    }

    /// The line with the number, the size and the weight of the machine.
    pub(crate) fn push_weight(&mut self, number: u32, size: u8, weight: u32)
        requires { length self.old + 45 ≤ 160 }
        ensures text { self.new ≡ self.old ++ weight_line number size weight }
        ensures len { length self.new ≤ length self.old + 45 }
    {
        self.push_labelled(b"make ", number);
        self.push_labelled(b" ", u32::from(size));
        self.push_labelled(b" weight ", weight);
        self.push_text(b"\n");
    }

    /// The line with what was counted.
    pub(crate) fn push_counts(&mut self, adds: u32, runs: u32, notifies: u32)
        requires { length self.old + 52 ≤ 160 }
        ensures text { self.new ≡ self.old ++ counts_line adds runs notifies }
        ensures len { length self.new ≤ length self.old + 52 }
    {
        self.push_labelled(b"adds ", adds);
        self.push_labelled(b" runs ", runs);
        self.push_labelled(b" notifies ", notifies);
        self.push_text(b"\n");
    }

    /// A space, and a byte as two hexadecimal digits.
    pub(crate) fn push_spaced(&mut self, byte: u8)
        requires { length self.old + 3 ≤ 160 }
        ensures text { self.new ≡ self.old ++ spaced_byte byte }
        ensures len { length self.new ≡ length self.old + 3 }
    {
        self.push_text(&[b' ', digit(byte / 16), digit(byte % 16)]);
    }

    /// A text.
    pub(crate) fn push_text(&mut self, text: &[u8])
        requires { length self.old + length text.now ≤ 160 }
        ensures { self.new ≡ self.old ++ text.now }
    {
        self.bytes.try_extend_from_slice(text).unwrap();
    }

    /// A word, and a number in decimal.
    fn push_labelled(&mut self, label: &[u8], n: u32)
        requires { length self.old + (length label.now + 10) ≤ 160 }
        ensures text { self.new ≡ self.old ++ labelled label.now n }
        ensures len { length self.new ≤ length self.old + (length label.now + 10) }
    {
        self.push_text(label);
        let mut digits = Buffer::new();
        self.push_text(digits.format(n).as_bytes());
    }
}

fn digit(n: u8) -> u8
    requires { n < 16 }
    ensures { result ≡ digit_text n }
{
    if n < 10 { b'0' + n } else { b'A' + (n - 10) }
}
