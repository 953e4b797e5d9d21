//! An answer in words, put together piece by piece. What finds no memory is left out, and then there is no
//! answer at its end: so no piece needs a test of its own.

use crate::NoAnswer;
use std::alloc::Global;
use std::fmt;

/// The words so far.
#[derive(Drop)]
pub struct Answer {
    words: String,
    lacks: bool,
}

impl Answer {
    /// No words.
    pub(crate) fn new(alloc: Global) -> Answer {
        Answer {
            words: String::new(alloc),
            lacks: false,
        }
    }

    /// All words, where none lacked memory.
    pub(crate) fn into_words(self) -> Result<String, NoAnswer> {
        if self.lacks {
            Err(NoAnswer::Memory)
        } else {
            Ok(self.words)
        }
    }

    /// Puts words at the end.
    pub fn put(&mut self, words: &str) {
        if self.words.push_str(words).is_err() {
            self.lacks = true;
        }
    }

    /// Puts a value at the end, as it is printed.
    pub fn print<T: fmt::Display>(&mut self, value: &T) {
        if write!(self.words, "{value}").is_err() {
            self.lacks = true;
        }
    }

    /// Puts a value at the end, as it stands in code.
    pub fn spell<T: fmt::Debug>(&mut self, value: &T) {
        if write!(self.words, "{value:?}").is_err() {
            self.lacks = true;
        }
    }

    /// Puts a number at the end, in hexadecimal digits.
    pub fn put_bits(&mut self, number: u32) {
        if write!(self.words, "{number:x}").is_err() {
            self.lacks = true;
        }
    }

    /// Puts an octet at the end, in two hexadecimal digits.
    fn put_digits(&mut self, octet: u8) {
        if write!(self.words, "{octet:02x}").is_err() {
            self.lacks = true;
        }
    }

    /// Puts octets at the end, in hexadecimal digits.
    pub fn put_hex(&mut self, octets: &[u8]) {
        for octet in octets {
            self.put_digits(*octet);
        }
    }

    /// Puts octets at the end, as text.
    pub fn put_text(&mut self, octets: &[u8]) {
        for octet in octets {
            self.put_octet(*octet);
        }
    }

    /// Puts an octet of a text at the end.
    fn put_octet(&mut self, octet: u8) {
        match octet {
            b'\n' => self.put("\\n"),
            b'\r' => self.put("\\r"),
            b'\t' => self.put("\\t"),
            b'\\' => self.put("\\\\"),
            b' '..=b'~' => self.print(&char::from(octet)),
            _ => {
                self.put("\\x");
                self.put_digits(octet);
            }
        }
    }

    /// Puts octets at the end, as text in quotes.
    pub fn put_quoted(&mut self, octets: &[u8]) {
        self.put("'");
        self.put_text(octets);
        self.put("'");
    }

    /// Puts numbers at the end, and this between each two.
    pub fn put_numbers(&mut self, between: &str, numbers: &[u32]) {
        for (place, number) in numbers.iter().enumerate() {
            self.put(if place == 0 { "" } else { between });
            self.print(number);
        }
    }
}
