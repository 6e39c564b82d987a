ghost use Rattle.std.specs.Prelude.{◌≡◌, ℕ, IfOk, IsErrOf, IsErr};
ghost use Rattle.json_text.specs.Faults.{IsFirstBad, IsFirstDeep};
ghost use Rattle.json_text.specs.Doc.{Shows};
ghost use Rattle.json_text.specs.Causes.{IsErrUnlessNoMemory};

use crate::doc::Doc;
use crate::error::JsonErr;
use crate::reader::read_entries;
use crate::told::texts_told;
use std::alloc::Global;

/// Reads a JSON text (RFC 8259), in which at most 64 lists and maps stand within one another. A value takes 24 bytes; one that
/// ends behind 2^32 - 1 bytes is want of memory. Where an escape stands in the text of a value, each value takes 8 bytes more,
/// and such texts are kept in one piece each.
pub fn read(alloc: Global, bytes: &[u8]) -> Result<Doc<'_>, JsonErr>
    ensures ok { IfOk result (λ doc. Shows doc bytes.now) }
    ensures bad { (at : ℕ) → IsErrOf result (JsonErr.Bad at) → IsFirstBad bytes.now at }
    ensures deep { (at : ℕ) → IsErrOf result (JsonErr.Deep at) → IsFirstDeep bytes.now at }
    // Each fault is told, unless memory runs out.
    ensures is_bad { (at : ℕ) → IsFirstBad bytes.now at → IsErrUnlessNoMemory result (JsonErr.Bad at) }
    ensures is_deep { (at : ℕ) → IsFirstDeep bytes.now at → IsErrUnlessNoMemory result (JsonErr.Deep at) }
{
    let nodes = match read_entries(alloc, bytes) {
        Ok(nodes) => nodes,
        Err(error) => return Err(error),
    };
    match texts_told(alloc, bytes, &nodes) {
        Ok(told) => Ok(Doc { bytes, nodes, told }),
        Err(_) => Err(JsonErr::NoMemory),
    }
}
