// What is kept of properties that are read from bytes, and the values that a kept text has (RFC 8259, sections 2 to 8).
use json_cursor::read_properties;
use json_reading::property_values;
use json_value::{Items, Json, OwnText, Properties, PropertiesForm};
use std::alloc::Global;

// The text without white space, with its characters written in the one way.
const READ: &str = "{ \"b\" : [1.50, {\"c\":\"\\u00e9\\/\\n\"} , true],\n\t\"b\":null} 7";

const KEPT: &str = "{\"b\":[1.50,{\"c\":\"\u{e9}/\\n\"},true],\"b\":null}";

/// Whether this text is kept of the properties.
fn is_kept(properties: &Properties, text: &str) -> bool {
    match properties.form() {
        PropertiesForm::Text(kept) => kept == text.as_bytes(),
        PropertiesForm::Values(_) => false,
    }
}

/// Whether the properties are kept, and their copy, and their last member is the second `b`, which is null.
fn are_as_read(alloc: Global, properties: &Properties) -> bool {
    let Ok(copy) = properties.copy(alloc) else {
        return false;
    };
    let Ok(members) = property_values(alloc, properties) else {
        return false;
    };
    let is_last = match members.as_slice().last() {
        Some((name, Json::Null)) => name.as_str() == "b",
        _ => false,
    };
    is_kept(properties, KEPT) && is_kept(&copy, KEPT) && members.as_slice().len() == 2 && is_last
}

/// Whether the properties at the front are as they are read, and this follows them.
fn is_read(alloc: Global, text: &str, following: &str) -> bool {
    let Ok(read) = read_properties(alloc, 124, text.as_bytes(), None) else {
        return false;
    };
    let (given, rest) = read;
    let Some(Some(properties)) = given else {
        return false;
    };
    rest == following.as_bytes() && are_as_read(alloc, &properties)
}

// Members out of order, two of one name, and a number with a zero at its end.
const MEMBERS: &str = "{\"b\":1.0,\"a\":null,\"b\":true}";

/// Whether these are the members, in their order.
fn are_members(members: &[(OwnText, Json)]) -> bool {
    match members {
        [
            (first, Json::Number(number)),
            (second, Json::Null),
            (third, Json::Bool(true)),
        ] => {
            first.as_str() == "b"
                && number.text() == "1.0"
                && second.as_str() == "a"
                && third.as_str() == "b"
        }
        _ => false,
    }
}

/// Whether a copy of properties that are these values is what they are.
fn are_copied(alloc: Global, members: Items<(OwnText, Json)>) -> bool {
    let Ok(copy) = Properties::of(members).copy(alloc) else {
        return false;
    };
    match copy.form() {
        PropertiesForm::Values(members) => are_members(members),
        PropertiesForm::Text(_) => false,
    }
}

fn values_are_copied(alloc: Global) -> bool {
    let Ok(read) = read_properties(alloc, 124, MEMBERS.as_bytes(), None) else {
        return false;
    };
    let (given, _rest) = read;
    let Some(Some(properties)) = given else {
        return false;
    };
    let Ok(members) = property_values(alloc, &properties) else {
        return false;
    };
    are_copied(alloc, members)
}

#[test]
fn properties_are_kept_as_their_text(rt: HostRuntime) {
    assert!(rt; values_are_copied(rt.alloc()));
    assert!(rt; is_read(rt.alloc(), READ, " 7"));
}
