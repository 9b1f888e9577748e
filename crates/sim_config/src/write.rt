//! Writing the meta text.

ghost use Rattle.std.specs.Prelude.{◌≡◌, IfOk};
ghost use Rattle.serde_json.specs.Data.{object};
ghost use Rattle.serde_json.specs.View.{view};
ghost use Rattle.sim_config.specs.Ranges.{IsMeta};
ghost use Rattle.sim_config.specs.Reading.{meta_of};
ghost use Rattle.sim_config.specs.Written.{meta_bytes, meta_members};

use crate::values::Meta;
use serde_json::{Value, json};
use std::alloc::{AllocError, Global};

/// The allocator has no room for the text.
pub type NoMemory = AllocError;

/// The meta text of these values: compact JSON (RFC 8259) with the keys in the order of their bytes and no
/// newline. Where the values are in their ranges, reading it gives them back.
pub fn meta_text(alloc: Global, meta: &Meta) -> Result<Vec<u8>, NoMemory>
    requires { meta.now.version ≡ 1 }
    ensures bytes { IfOk result (λ text. text.items ≡ meta_bytes meta.now) }
    ensures reads_back { IfOk result (λ text. IsMeta meta.now → meta_of text.items ≡ Ok meta.now) }
{
    meta_value(alloc, meta)?.to_vec(alloc)
}

/// The value that the text is.
fn meta_value(alloc: Global, meta: &Meta) -> Result<Value, AllocError>
    ensures { IfOk result (λ value. view value ≡ object (meta_members meta.now)) }
{
    let shape = meta.shape;
    json!(in alloc; {
        "harts": shape.harts,
        "ram": shape.ram,
        "rom": meta.rom,
        "slice": shape.slice,
        "taken": meta.taken,
        "tohost": shape.tohost,
        "version": meta.version,
    })
}
