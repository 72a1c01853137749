// The types of an element's value that are read, by bsonspec.org's names.
ghost use Rattle.std.specs.Prelude.{◌≡◌};
ghost use Rattle.payload.specs.Walk.{nests, kind_of};

use figures::refusal::{self, Refusal};
use std::marker::Model;

// The types, each with its number.
#[derive(Clone, Copy, Debug)]
pub(crate) enum BsonType {
    Double = 1,
    String = 2,
    Document = 3,
    Array = 4,
    Boolean = 8,
    Null = 10,
    Int32 = 16,
    Int64 = 18,
}

// An element's type. In a contract it is its number. The type lies in a struct, since an enum has no model.
#[derive(Clone, Copy, Debug)]
pub(crate) struct Kind {
    pub(crate) bson: BsonType,
}

impl Model for Kind {
    ghost use Rattle.std.specs.Prelude.{ℕ};

    ghost Value = { ℕ };

    ghost use Rattle.payload.specs.Kind.{number_of, type_of, read_back};

    ghost view = { λ k. number_of k.bson };

    ghost inverse = { λ n. record { bson = type_of n } };

    ghost inverse_ok = { λ k _. read_back k };
}

impl Kind {
    pub(crate) const STRING: Kind = Kind {
        bson: BsonType::String,
    };

    pub(crate) const ARRAY: Kind = Kind {
        bson: BsonType::Array,
    };

    pub(crate) fn number(self) -> u8
        ensures { result ≡ self }
    {
        self.bson as u8
    }

    // Whether its value is a document.
    pub(crate) fn is_nested(self) -> bool
        ensures { result ≡ nests self }
    {
        matches!(self.bson, BsonType::Document | BsonType::Array)
    }
}

impl TryFrom<u8> for Kind {
    type Error = Refusal;

    ghost try_from_gives = { λ number kind. kind ≡ kind_of number };

    fn try_from(number: u8) -> Result<Self, Refusal> {
        let bson = match number {
            1 => BsonType::Double,
            2 => BsonType::String,
            3 => BsonType::Document,
            4 => BsonType::Array,
            8 => BsonType::Boolean,
            10 => BsonType::Null,
            16 => BsonType::Int32,
            18 => BsonType::Int64,
            _ => return Err(refusal::BAD_TYPE),
        };
        Ok(Kind { bson })
    }
}
