// The names of members that aren't read.
use crate::samples::front_of;
use json_cursor::string_at;
use std::alloc::{AllocError, Global};

/// The first names of members that aren't read, each as it is spelled, with its quotes, or nothing: three at most.
#[derive(Clone, Copy)]
pub(crate) struct LeftOut<'a> {
    first: [&'a [u8]; 3],
    /// Whether there are other names.
    are_more: bool,
}

impl<'a> LeftOut<'a> {
    /// None yet.
    pub(crate) fn none() -> LeftOut<'a> {
        LeftOut {
            first: [&[], &[], &[]],
            are_more: false,
        }
    }

    /// With this name.
    pub(crate) fn add(&mut self, name: &'a [u8]) {
        for known in &mut self.first {
            if known.is_empty() {
                *known = name;
            }
            if *known == name {
                return;
            }
        }
        self.are_more = true;
    }

    /// With these names.
    pub(crate) fn add_all(&mut self, names: &LeftOut<'a>) {
        for name in &names.first {
            if !name.is_empty() {
                self.add(name);
            }
        }
        self.are_more = self.are_more || names.are_more;
    }

    /// The names, as in ` ("name", "title")`.
    pub(crate) fn text(&self, alloc: Global) -> Result<String, AllocError> {
        let mut text = String::new(alloc);
        for name in &self.first {
            if name.is_empty() {
                break;
            }
            // (each spells a text, so that else memory was refused)
            let Ok(Some((name, _))) = string_at(alloc, name) else {
                return Err(AllocError);
            };
            let before = if text.is_empty() { " (" } else { ", " };
            let shown = front_of(alloc, name.as_str())?;
            write!(text, "{before}{shown}")?;
        }
        if !text.is_empty() {
            text.push_str(if self.are_more { " and more)" } else { ")" })?;
        }
        Ok(text)
    }
}

/// The name of the member at the front as it is spelled, with its quotes; nothing for want of memory.
pub(crate) fn spelled_name(alloc: Global, member: &[u8]) -> Option<&[u8]> {
    let (_, rest) = string_at(alloc, member).ok()??;
    member.get(..member.len().saturating_sub(rest.len()))
}
