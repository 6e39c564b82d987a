// The nodes of a file.
ghost use Rattle.std.specs.Prelude.{◌≡◌, IfOk, IfErr};
ghost use Rattle.yaml_subset.specs.Left.{contents_left};
ghost use Rattle.yaml_subset.specs.ReadLines.{Holds, IsLinesCause};

use crate::error::YamlErr;
use crate::left::Source;
use crate::node::Node;
use crate::open::Tip;
use crate::reader::Reader;
use std::alloc::Global;

/// Reads all lines.
pub(crate) fn nodes_of(alloc: Global, lines: Source<'_>) -> Result<Vec<Node>, YamlErr>
    ensures ok { IfOk result (λ nodes. Holds nodes.items (contents_left lines.entry)) }
    ensures err { IfErr result (IsLinesCause (contents_left lines.entry)) }
{
    let mut source = lines;
    let mut reader = Reader {
        nodes: Vec::new(alloc),
        opened: Vec::new(alloc),
        names: Vec::new(alloc),
        tip: Tip::Absent,
    };
    loop {
        match source.next(alloc) {
            Ok(Some(line)) => match reader.take(alloc, line) {
                Ok(()) => {}
                Err(error) => return Err(error),
            },
            Ok(None) => return Ok(reader.nodes),
            Err(_) => return Err(YamlErr::NoMemory),
        }
    }
}
