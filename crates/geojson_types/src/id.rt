use json_value::{NumText, OwnText};

/// The identifier of a feature (RFC 7946, section 3.2): a text, or a number by its text.
#[derive(Debug, Drop)]
pub enum Id {
    Text(OwnText),
    Number(NumText),
}
