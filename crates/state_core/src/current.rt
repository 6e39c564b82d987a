//! For which rows a write is current.
ghost use Rattle.std.specs.Prelude.{◌≡◌, ℕ, Option, IsTrue, true};
ghost use Rattle.state_core.specs.Current.{is_current, is_version};

use crate::Mode;
use itoa::Buffer;
use side_base::Text;

/// Whether a write of this mode and ETag is current for a row of this version, or for none.
pub(crate) fn is_current(mode: Mode, etag: &Option<Text>, version: Option<u64>) -> bool
    ensures { result ≡ is_current mode etag.now version }
{
    match (mode, etag) {
        (Mode::LastWrite, _) | (Mode::Unsaid, None) => true,
        (Mode::Unsaid | Mode::FirstWrite, Some(etag)) => is_version(etag, version),
        (Mode::FirstWrite, None) => version.is_none(),
    }
}

/// Whether a write of this mode and ETag is current whatever its key has.
pub(crate) fn is_current_for_all(mode: Mode, etag: &Option<Text>) -> bool
    ensures { IsTrue result → (version : Option ℕ) → is_current mode etag.now version ≡ true }
{
    match (mode, etag) {
        (Mode::LastWrite, _) | (Mode::Unsaid, None) => true,
        (Mode::Unsaid | Mode::FirstWrite, Some(_)) | (Mode::FirstWrite, None) => false,
    }
}

/// Whether there is a row, and its version's decimal text is the ETag.
fn is_version(etag: &Text, version: Option<u64>) -> bool
    ensures { result ≡ is_version etag.now version }
{
    match version {
        Some(version) => Buffer::new().format(version) == etag.as_str(),
        None => false,
    }
}
