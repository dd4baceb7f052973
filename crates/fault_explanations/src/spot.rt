// Where in a JSON text a byte stands: what it may be part of, and what must follow there.
use crate::place::prefix;
use std::alloc::{AllocError, Global};

/// What must follow.
#[derive(Clone, Copy, Debug, PartialEq, Eq)]
pub(crate) enum Awaited {
    Value,
    /// The name of a member.
    Name,
    /// The colon after a name.
    Colon,
    /// A comma, or the end of what the value before stands in.
    Next,
}

/// What the byte before is part of, where more of it may follow.
#[derive(Clone, Copy, Debug, PartialEq, Eq)]
pub(crate) enum Part {
    /// White space or a mark, or there is none before.
    Nothing,
    Text,
    /// An escape in a text, of which there is the reverse solidus.
    Escape,
    /// A number, or `true`, `false` or `null`.
    Scalar,
}

/// Where an array or an object begins.
#[derive(Clone, Copy, Debug, PartialEq, Eq)]
pub(crate) struct Opened {
    pub(crate) at: usize,
    pub(crate) is_object: bool,
}

/// Where a byte stands.
#[derive(Drop)]
pub(crate) struct Spot {
    pub(crate) awaited: Awaited,
    pub(crate) part: Part,
    /// Where the last text or scalar begins.
    pub(crate) start: usize,
    /// The arrays and objects that haven't ended, the innermost last.
    around: Vec<Opened>,
}

impl Spot {
    /// The innermost array or object that the byte stands in.
    pub(crate) fn innermost(&self) -> Option<Opened> {
        match self.around.as_slice() {
            [.., opened] => Some(*opened),
            [] => None,
        }
    }

    /// Whether that is an object.
    fn is_in_object(&self) -> bool {
        match self.innermost() {
            Some(opened) => opened.is_object,
            None => false,
        }
    }

    /// Goes on after the bracket of this number, which opens.
    fn begin(&mut self, at: usize, is_object: bool, awaited: Awaited) -> Result<(), AllocError> {
        self.mark(awaited);
        match self.around.push(Opened { at, is_object }) {
            Ok(()) => Ok(()),
            Err(_) => Err(AllocError),
        }
    }

    /// Goes on after a mark.
    fn mark(&mut self, awaited: Awaited) {
        self.part = Part::Nothing;
        self.awaited = awaited;
    }

    /// Goes on after the comma that stands behind a value.
    fn comma(&mut self) {
        if self.is_in_object() {
            self.mark(Awaited::Name);
        } else {
            self.mark(Awaited::Value);
        }
    }

    /// Goes on after the last quotation mark of a text.
    fn end_text(&mut self) {
        if self.awaited == Awaited::Name {
            self.mark(Awaited::Colon);
        } else {
            self.mark(Awaited::Next);
        }
    }

    /// Goes on after a byte of a text.
    fn pass_in_text(&mut self, byte: u8) {
        match byte {
            b'"' => self.end_text(),
            b'\\' => self.part = Part::Escape,
            _ => {}
        }
    }

    /// Goes on after the byte of this number, which is part of a scalar.
    fn pass_scalar(&mut self, at: usize) {
        if self.part == Part::Nothing {
            self.start = at;
        }
        self.part = Part::Scalar;
        self.awaited = Awaited::Next;
    }

    /// Goes on after the byte of this number, which is in no text. A byte order mark counts as white space.
    fn pass_outside(&mut self, at: usize, byte: u8) -> Result<(), AllocError> {
        match byte {
            b'[' => return self.begin(at, false, Awaited::Value),
            b'{' => return self.begin(at, true, Awaited::Name),
            b']' | b'}' => {
                let _ = self.around.pop();
                self.mark(Awaited::Next);
            }
            b',' => self.comma(),
            b':' => self.mark(Awaited::Value),
            b'"' => {
                self.part = Part::Text;
                self.start = at;
            }
            b' ' | b'\t' | b'\n' | b'\r' | 0x80..=0xff => self.part = Part::Nothing,
            _ => self.pass_scalar(at),
        }
        Ok(())
    }

    /// Goes on after the byte of this number.
    fn pass(&mut self, at: usize, byte: u8) -> Result<(), AllocError> {
        match self.part {
            Part::Escape => self.part = Part::Text,
            Part::Text => self.pass_in_text(byte),
            Part::Nothing | Part::Scalar => return self.pass_outside(at, byte),
        }
        Ok(())
    }
}

/// Where the byte of this number stands, before which the bytes are read as JSON.
pub(crate) fn spot_at(alloc: Global, bytes: &[u8], at: usize) -> Result<Spot, AllocError> {
    let mut spot = Spot {
        awaited: Awaited::Value,
        part: Part::Nothing,
        start: 0,
        around: Vec::new(alloc),
    };
    for (number, byte) in prefix(bytes, at).iter().enumerate() {
        spot.pass(number, *byte)?;
    }
    Ok(spot)
}
