ghost use Rattle.std.specs.Prelude.{◌≡◌, ◌≤◌, length, OnOk, OnErr, IfOk};
ghost use Rattle.side_world.specs.Disk.{overwritten};

use std::alloc::{AllocError, Global};

/// How much of a write a crash leaves.
#[derive(Clone, Copy, Debug, PartialEq, Eq)]
pub enum Tear {
    /// Its first bytes, so many of them or all where there are fewer; what lies behind them is as it was.
    Front(usize),
    /// Its last bytes, so many of them or all; what lies before them is as it was, or 0 past the old end.
    Back(usize),
    /// None: this byte stands in the whole range.
    Noise(u8),
}

/// Puts `piece` from place `at` on, over what is there and past the end.
pub(crate) fn overwrite(bytes: &mut Vec<u8>, at: usize, piece: &[u8]) -> Result<(), AllocError>
    requires { at ≤ length bytes.old.items }
    ensures ok { OnOk result (bytes.new.items ≡ overwritten at piece.now bytes.old.items) }
    ensures err { OnErr result (bytes.new.items ≡ bytes.old.items) }
{
    let over = piece.len().min(bytes.len() - at);
    bytes.extend_from_slice(&piece[over..])?;
    bytes[at..at + over].copy_from_slice(&piece[..over]);
    Ok(())
}

/// What stands in the range of a torn write of `piece` over the bytes of `rest`, from its beginning to where the write ends.
pub(crate) fn torn_piece(
    alloc: Global,
    rest: &[u8],
    piece: &[u8],
    tear: Tear,
) -> Result<Vec<u8>, AllocError>
    ensures { IfOk result (λ torn. length torn.items ≤ length piece.now) }
{
    match tear {
        Tear::Front(n) => piece[..n.min(piece.len())].to_vec(alloc),
        Tear::Noise(byte) => vec![in alloc; byte; piece.len()],
        Tear::Back(n) => {
            let kept = piece.len() - n.min(piece.len());
            let mut torn = rest[..kept.min(rest.len())].to_vec(alloc)?;
            torn.resize(kept, 0)?;
            torn.extend_from_slice(&piece[kept..])?;
            Ok(torn)
        }
    }
}
