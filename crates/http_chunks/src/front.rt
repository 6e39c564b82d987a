ghost use Rattle.std.specs.Prelude.{◌≡◌, ◌≤◌, length, option_map, IfSome};
ghost use Rattle.http_chunks.specs.Front.{after_front};

/// What follows `front` at the beginning of the bytes; `None` where they do not begin with it.
#[tactic(auto, unfolding(crate::specs::Front::after_front))]
pub(crate) fn after_front<'b>(front: &[u8], bytes: &'b [u8]) -> Option<&'b [u8]>
    ensures read { option_map (λ rest. rest.now) result ≡ after_front front.now bytes.now }
    ensures within { IfSome result (λ rest. length rest.now ≤ length bytes.now) }
{
    bytes.strip_prefix(front)
}
