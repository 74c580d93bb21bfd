//! Lists of parts, in brackets and with commas.
ghost use Rattle.std.specs.Prelude.{◌≡◌, ◌++◌, OnOk, map};
ghost use Rattle.machine_reader.specs.Canonical.{list_json};
ghost use Rattle.machine_reader.specs.Texts.{json_text, rest_text};

use crate::bytes::{put, put_byte, put_number};
use machine_desc::Items;
use std::alloc::AllocError;

/// What has a JSON text, which is written after others.
pub trait Written {
    ghost use Rattle.std.specs.Prelude.{◌≡◌, ◌++◌, OnOk};
    ghost use Rattle.serde_json.specs.Data.{Data};
    ghost use Rattle.machine_reader.specs.Texts.{json_text};

    ghost json: { Self → Data };

    fn put(&self, out: &mut Vec<u8>) -> Result<(), AllocError>
        ensures { OnOk result (out.new.items ≡ out.old.items ++ json_text (json self.now)) };
}

/// The elements of a list after the first, each after a comma, and the bracket.
fn put_rest<T: Written>(out: &mut Vec<u8>, parts: &[T]) -> Result<(), AllocError>
    ensures { OnOk result (out.new.items ≡ out.old.items ++ rest_text (map T.json parts.now)) }
{
    for part in parts {
        put_byte(out, b',')?;
        part.put(out)?;
    }
    put_byte(out, b']')
}

/// A list.
#[tactic(auto, unfolding(crate::specs::Texts::json_text, crate::specs::Texts::rest_text))]
pub fn put_list<T: Written>(out: &mut Vec<u8>, parts: &[T]) -> Result<(), AllocError>
    ensures { OnOk result (out.new.items ≡ out.old.items ++ json_text (list_json (map T.json parts.now))) }
{
    match parts {
        [] => put(out, b"[]"),
        [first, rest @ ..] => {
            put_byte(out, b'[')?;
            first.put(out)?;
            put_rest(out, rest)
        }
    }
}

impl Written for u8 {
    ghost use Rattle.machine_reader.specs.Canonical.{number_json};

    ghost json = { number_json };

    #[tactic(auto, unfolding(crate::specs::Texts::json_text))]
    fn put(&self, out: &mut Vec<u8>) -> Result<(), AllocError> {
        put_number(out, u64::from(*self))
    }
}

impl<T: Written> Written for Items<T> {
    ghost use Rattle.std.specs.Prelude.{map};
    ghost use Rattle.machine_reader.specs.Canonical.{list_json};

    ghost json = { λ xs. list_json (map T.json xs) };

    fn put(&self, out: &mut Vec<u8>) -> Result<(), AllocError> {
        put_list(out, self.as_slice())
    }
}
