//! Writing a value piece by piece.

ghost use Rattle.std.specs.Prelude.{◌≡◌, ◌<◌, ◌++◌, ◌∷◌, [], length, decimal, IsTrue, OnOk, OnErr};
ghost use Rattle.bencode_text.specs.Bencode.{IsCanonical, string_text};
ghost use Rattle.bencode_text.specs.Draft.{nothing, takes_value, takes_key, takes_end, with_value, with_key, with_dict, with_end};

use crate::append::{append_integer, append_string};
use crate::reader::DEEPEST;
use ot_base::Bytes;
use std::alloc::{AllocError, Global};
use std::marker::Model;

/// Writes one value of bencode (BEP 3), so that its text is canonical: an integer, a string, or a
/// dictionary with its keys in ascending order. Each call adds exactly its text. After a call that
/// wanted memory all is as it was before.
///
/// Contracts see the text so far, the open dictionaries, innermost first, each with its last key
/// and whether that key's value is due, and whether one value stands there whole.
#[derive(Debug, Drop)]
pub struct Writer {
    text: Vec<u8>,
    place: Place,
    /// The dictionaries round the innermost, whose values are due, outermost first.
    outer: Vec<OpenDict>,
}

/// Where the next piece stands.
#[derive(Clone, Copy, Debug, PartialEq, Eq)]
enum Place {
    /// Nothing is written.
    Start,
    /// In this dictionary.
    Dict(OpenDict),
    /// After the one value.
    Whole,
}

/// A dictionary that is open.
#[derive(Clone, Copy, Debug, PartialEq, Eq)]
struct OpenDict {
    last: Option<KeyPlace>,
    /// Whether the value of the last key is due.
    value_due: bool,
}

/// Where a key stands in the text, from the first of its bytes up to and without the place `to`.
#[derive(Clone, Copy, Debug, PartialEq, Eq)]
struct KeyPlace {
    from: usize,
    to: usize,
}

impl Place {
    ghost use Rattle.bencode_text.specs.Writers.{place_after_value, place_outside, dict_here};

    /// The place after a value.
    fn after_value(self) -> Place
        ensures { result ≡ place_after_value self }
    {
        match self {
            Place::Start | Place::Whole => Place::Whole,
            Place::Dict(dict) => Place::Dict(OpenDict {
                last: dict.last,
                value_due: false,
            }),
        }
    }

    /// The place after a dictionary that stood in this one, or in none.
    fn outside(outer: Option<OpenDict>) -> Place
        ensures { result ≡ place_outside outer }
    {
        match outer {
            Some(dict) => Place::Dict(dict).after_value(),
            None => Place::Whole,
        }
    }

    /// Puts the dictionary of this place, if it is in one, round what follows. Want of memory
    /// changes nothing.
    fn enclose(self, outer: &mut Vec<OpenDict>) -> Result<(), AllocError>
        ensures ok { OnOk result (outer.new.items ≡ outer.old.items ++ dict_here self) }
        ensures err { OnErr result (outer.new.items ≡ outer.old.items) }
    {
        if let Place::Dict(dict) = self {
            outer.push(dict)?;
        }
        Ok(())
    }
}

impl Model for Writer {
    ghost use Rattle.bencode_text.specs.Draft.{Draft};

    ghost Value = { Draft };

    ghost use Rattle.bencode_text.specs.Writers.{draft_of, IsWriter};

    ghost view = { draft_of };

    ghost invariant = { IsWriter };
}

impl Writer {
    /// A writer that has written nothing. It takes no memory.
    pub fn new(alloc: Global) -> Self
        ensures { result ≡ nothing }
    {
        Writer {
            text: Vec::new(alloc),
            place: Place::Start,
            outer: Vec::new(alloc),
        }
    }

    /// Writes an integer where a value is due: `i`, its decimal digits, `e`.
    pub fn int(&mut self, value: u64) -> Result<(), AllocError>
        requires { IsTrue (takes_value self.old.dicts self.old.whole) }
        ensures ok { OnOk result
            (self.new ≡ with_value self.old (105 ∷ (decimal value ++ 101 ∷ []))) }
        ensures err { OnErr result (self.new ≡ self.old) }
    {
        append_integer(&mut self.text, value)?;
        self.place = self.place.after_value();
        Ok(())
    }

    /// Writes a string where a value is due: its length in decimal, `:`, its bytes.
    pub fn bytes(&mut self, value: &[u8]) -> Result<(), AllocError>
        requires { IsTrue (takes_value self.old.dicts self.old.whole) }
        ensures ok { OnOk result
            (self.new ≡ with_value self.old (string_text (decimal (length value.now)) value.now)) }
        ensures err { OnErr result (self.new ≡ self.old) }
    {
        append_string(&mut self.text, value)?;
        self.place = self.place.after_value();
        Ok(())
    }

    /// Begins a dictionary where a value is due: `d`. At most 64 are open at once.
    pub fn begin_dict(&mut self) -> Result<(), AllocError>
        requires due { IsTrue (takes_value self.old.dicts self.old.whole) }
        requires room { length self.old.dicts < DEEPEST }
        ensures ok { OnOk result (self.new ≡ with_dict self.old) }
        ensures err { OnErr result (self.new ≡ self.old) }
    {
        self.text.push(b'd')?;
        if self.place.enclose(&mut self.outer).is_err() {
            let _ = self.text.pop();
            return Err(AllocError);
        }
        self.place = Place::Dict(OpenDict {
            last: None,
            value_due: false,
        });
        Ok(())
    }

    /// Writes a key where one is due, greater by raw bytes than the last key of its dictionary.
    pub fn key(&mut self, name: &[u8]) -> Result<(), AllocError>
        requires { IsTrue (takes_key self.old.dicts name.now) }
        ensures ok { OnOk result (self.new ≡ with_key self.old name.now) }
        ensures err { OnErr result (self.new ≡ self.old) }
    {
        append_string(&mut self.text, name)?;
        let to = self.text.len();
        self.place = Place::Dict(OpenDict {
            last: Some(KeyPlace {
                from: to - name.len(),
                to,
            }),
            value_due: true,
        });
        Ok(())
    }

    /// Ends the innermost dictionary where a key is due: `e`.
    pub fn end(&mut self) -> Result<(), AllocError>
        requires { IsTrue (takes_end self.old.dicts) }
        ensures ok { OnOk result (self.new ≡ with_end self.old) }
        ensures err { OnErr result (self.new ≡ self.old) }
    {
        self.text.push(b'e')?;
        self.place = Place::outside(self.outer.pop());
        Ok(())
    }

    /// The text of the one value that was written, which is canonical.
    pub fn finish(self) -> Bytes
        requires { IsTrue self.whole }
        ensures text { result ≡ self.text }
        ensures canonical { IsCanonical result }
    {
        Bytes::from(self.text)
    }
}
