// Lists and maps as they are written.
ghost use Rattle.std.specs.Prelude.{◌≡◌, ◌++◌, OnOk, OnErr};
ghost use Rattle.json_text.specs.Joined.{comma};

use side_base::{Blob, NoMemory};

/// Appends the comma before an item of a list or a member of a map; nothing before the first one. Without memory `out` stays as
/// it was.
pub fn push_comma(out: &mut Blob, is_first: bool) -> Result<(), NoMemory>
    ensures ok { OnOk result (out.new ≡ out.old ++ comma is_first) }
    ensures err { OnErr result (out.new ≡ out.old) }
{
    if is_first {
        Ok(())
    } else {
        out.push_byte(b',')
    }
}
