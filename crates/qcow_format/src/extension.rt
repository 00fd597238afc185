// Header extensions.
ghost use Rattle.std.specs.Prelude.{◌≡◌, ◌+◌, ◌≤◌, ◌∷◌, [], length, IfSome, IfNone, MatchOption, true, false};
ghost use Rattle.qcow_format.specs.Extension.{placed_at, end_of, data_of, is_extension, extensions_at, listed, remaining};

use crate::bytes::u32_at;

/// The type of the extension that names the backing file's format.
pub const BACKING_FORMAT: u32 = 0xe279_2aca;

/// A header extension (qcow2 specification, "Header extensions").
#[derive(Clone, Copy, Debug)]
pub struct Extension<'a> {
    /// Its type; 0 is none, since it closes the extensions.
    pub kind: u32,
    /// Its data, without the padding behind it.
    pub body: &'a [u8],
}

/// The extensions of a head, one after the other. Each lends its data from the head.
#[derive(Debug, Drop)]
pub struct Extensions<'a> {
    head: &'a [u8],
    at: usize,
}

// The extension at a place, and where it ends; None where the closing mark stands there, or where what stands there
// runs past the head.
pub(crate) fn extension_at(head: &[u8], at: usize) -> Option<(Extension<'_>, usize)>
    ensures none { IfNone result (is_extension head.now at ≡ false) }
    ensures some { IfSome result (λ _. is_extension head.now at ≡ true) }
    ensures kind { IfSome result (λ found. found.0.kind ≡ (placed_at head.now at).kind) }
    ensures body { IfSome result (λ found. found.0.body.now ≡ data_of head.now (placed_at head.now at)) }
    ensures end { IfSome result (λ found. found.1 ≡ end_of (placed_at head.now at)) }
    ensures within { IfSome result (λ found. found.1 ≤ length head.now) }
{
    if at > head.len() || head.len() - at < 8 {
        return None;
    }
    let kind = u32_at(head, at);
    let size = u32_at(head, at + 4) as usize;
    let padded = size.div_ceil(8) * 8;
    if kind == 0 || head.len() - at - 8 < padded {
        return None;
    }
    let body = &head[at + 8..at + 8 + size];
    Some((Extension { kind, body }, at + 8 + padded))
}

impl<'a> Extensions<'a> {
    // The extensions of a head from a place on.
    pub(crate) fn from(head: &'a [u8], at: usize) -> Extensions<'a>
        ensures { remaining result ≡ listed head.now (extensions_at head.now at) }
    {
        Extensions { head, at }
    }

    /// The next extension, or None at the end of the extensions.
    #[tactic(auto, using(crate::proofs::Walk::walk))]
    pub fn next(&mut self) -> Option<Extension<'a>>
        ensures some { IfSome result (λ e. remaining self.old ≡ (e.kind, e.body.now) ∷ remaining self.new) }
        ensures none { IfNone result (remaining self.old ≡ []) }
        ensures ended { IfNone result (remaining self.new ≡ []) }
    {
        match extension_at(self.head, self.at) {
            None => None,
            Some(found) => {
                self.at = found.1;
                Some(found.0)
            }
        }
    }
}
