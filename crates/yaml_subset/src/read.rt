ghost use Rattle.std.specs.Prelude.{◌≡◌, IfOk, IfErr};
ghost use Rattle.yaml_subset.specs.Docs.{Shows};
ghost use Rattle.yaml_subset.specs.File.{IsFile, IsRefusal, IsRefusalOrMemory, IsErrUnlessNoMemory, IsOkUnlessNoMemory, without_order_mark};
ghost use Rattle.yaml_subset.specs.Trees.{Trees};

use crate::docs::{Docs, docs_of};
use crate::error::YamlErr;
use crate::nodes::nodes_of;
use crate::source::{lines_in, source_of};
use std::alloc::Global;

/// What a file in UTF-8 may begin with.
const ORDER_MARK: char = '\u{feff}';

fn after_order_mark(text: &str) -> &str
    ensures { result.now ≡ without_order_mark text.now }
{
    match text.strip_prefix(ORDER_MARK) {
        Some(rest) => rest,
        None => text,
    }
}

/// Reads a file of the YAML subset. `docs/RESOURCES.md` says what is read and what is refused.
///
/// Of all lines the first one that is refused counts, and on one line a tab in its indent, then what is left out, then its
/// indent, then what spells no scalar, then a name that is there already. At most 32 mappings and sequences stand within one
/// another.
pub fn read_docs(alloc: Global, bytes: &[u8]) -> Result<Docs, YamlErr>
    ensures ok { IfOk result (λ docs. Shows docs bytes.now) }
    ensures err { IfErr result (IsRefusalOrMemory bytes.now) }
    // Each file is read and each refusal is told, unless memory runs out.
    ensures is_read { (documents : Trees) → IsFile bytes.now documents → IsOkUnlessNoMemory result }
    ensures is_refused { (error : YamlErr) → IsRefusal bytes.now error → IsErrUnlessNoMemory result error }
{
    let text = match str::from_utf8(bytes) {
        Ok(text) => after_order_mark(text),
        Err(error) => {
            return Err(YamlErr::NotUtf8 {
                at: error.valid_up_to(),
            });
        }
    };
    let lines = match lines_in(alloc, text) {
        Ok(lines) => lines,
        Err(_) => return Err(YamlErr::NoMemory),
    };
    match nodes_of(alloc, source_of(&lines)) {
        Ok(nodes) => Ok(docs_of(nodes)),
        Err(error) => Err(error),
    }
}
