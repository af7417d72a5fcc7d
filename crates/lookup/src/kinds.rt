// The kinds of queries: what they are called, how many words they take, and what they find.
ghost use Rattle.std.specs.Prelude.{◌≤◌};

use image::shelf::File;
use link::lookup::{Lent, Looked};
use link::{file_lookup, lookup};
use names::runtime_type_box::{ReadDefault, RuntimeType, parse_proto_default_value};
use shelf_io::say;

#[derive(Clone, Copy, PartialEq, Eq)]
pub enum Kind {
    Message,
    Enum,
    Field,
    FieldNumber,
    Value,
    ValueNumber,
    MessageName,
    EnumName,
}

const KINDS: [Kind; 8] = [
    Kind::Message,
    Kind::Enum,
    Kind::Field,
    Kind::FieldNumber,
    Kind::Value,
    Kind::ValueNumber,
    Kind::MessageName,
    Kind::EnumName,
];

impl Kind {
    // The kind that a word is.
    pub fn named(word: &[u8]) -> Option<Kind> {
        for &kind in &KINDS {
            if kind.name() == word {
                return Some(kind);
            }
        }
        None
    }

    pub fn name(self) -> &'static [u8] {
        match self {
            Kind::Message => b"message",
            Kind::Enum => b"enum",
            Kind::Field => b"field",
            Kind::FieldNumber => b"field-number",
            Kind::Value => b"value",
            Kind::ValueNumber => b"value-number",
            Kind::MessageName => b"message-name",
            Kind::EnumName => b"enum-name",
        }
    }

    // How many words stand behind the kind.
    pub fn words_behind(self) -> usize
        ensures { result ≤ 2 }
    {
        match self {
            Kind::Message | Kind::Enum => 1,
            Kind::Field | Kind::FieldNumber | Kind::Value | Kind::ValueNumber => 2,
            Kind::MessageName | Kind::EnumName => 2,
        }
    }

    // Whether a query asks for a full name.
    pub fn is_naming(self) -> bool {
        matches!(self, Kind::MessageName | Kind::EnumName)
    }
}

// One query: its kind, the words behind it, and the number that it ends in, 0 where it ends in none.
#[derive(Clone, Copy)]
pub struct Query<'a> {
    pub kind: Kind,
    pub first: &'a [u8],
    pub second: &'a [u8],
    pub number: u32,
}

// A number of 32 bits is read as a default of that type is.
fn read_number(t: RuntimeType, word: &[u8]) -> Option<u32> {
    match parse_proto_default_value(t, word, 0) {
        Ok(ReadDefault::Integer(value)) => Some(value.low),
        _ => None,
    }
}

// The number of a file, a message or an enum.
pub fn index_of(word: &[u8]) -> Option<u32> {
    read_number(RuntimeType::U32, word)
}

// The number that a query ends in, 0 where it ends in none; nothing where the word says no number.
pub fn number_of(kind: Kind, word: &[u8]) -> Option<u32> {
    match kind {
        Kind::FieldNumber | Kind::ValueNumber => read_number(RuntimeType::I32, word),
        Kind::MessageName | Kind::EnumName => index_of(word),
        Kind::Message | Kind::Enum | Kind::Field | Kind::Value => Some(0),
    }
}

// The message or enum that a query names, in one file.
fn item_of(q: &Query, file: &File) -> Option<u32> {
    match q.kind {
        Kind::Message | Kind::Field | Kind::FieldNumber => {
            file_lookup::message_by_full_name(file, q.first)
        }
        Kind::Enum | Kind::Value | Kind::ValueNumber => {
            file_lookup::enum_by_full_name(file, q.first)
        }
        Kind::MessageName | Kind::EnumName => None,
    }
}

// The mode in which fields are sought by their own names.
const OWN_NAMES: u32 = 1;

// What a query finds in one file: the message or enum itself, or a field or a value of it.
pub fn found_in(q: &Query, file: &File) -> Option<u32> {
    let item = item_of(q, file)?;
    match q.kind {
        Kind::Field => file_lookup::field_by_name(file, item, OWN_NAMES, q.second),
        Kind::FieldNumber => file_lookup::field_by_number(file, item, q.number),
        Kind::Value => file_lookup::value_by_name(file, item, q.second),
        Kind::ValueNumber => file_lookup::value_by_number(file, item, q.number),
        Kind::Message | Kind::Enum => Some(item),
        Kind::MessageName | Kind::EnumName => None,
    }
}

// The full name that such a query asks for, to the front of `out`.
pub fn name_of(q: &Query, lent: &Lent, file: u32, out: &mut [u8]) -> Looked {
    if let Kind::EnumName = q.kind {
        return lookup::enum_full_name(lent, file, q.number, out);
    }
    lookup::message_full_name(lent, file, q.number, out)
}

// What the number counts that a query finds: flat numbers, but for a value, which has a place in its enum.
fn label(kind: Kind) -> &'static [u8] {
    match kind {
        Kind::Message => b"message ",
        Kind::Enum => b"enum ",
        Kind::Field | Kind::FieldNumber => b"field ",
        Kind::Value | Kind::ValueNumber => b"place ",
        Kind::MessageName | Kind::EnumName => b"",
    }
}

// What was found.
pub fn tell_found(rt: &impl Print, kind: Kind, k: u32) {
    say::text(rt, label(kind));
    say::number(rt, k as u64);
}
