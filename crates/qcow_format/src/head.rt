// The extensions of a whole head.
ghost use Rattle.std.specs.Prelude.{◌≡◌};
ghost use Rattle.qcow_format.specs.Extension.{extensions_of, remaining};

use crate::bytes::u32_at;
use crate::extension::Extensions;

/// The extensions of a head: of the first bytes of a file, from its start on. They begin behind the header and end at
/// the closing mark, or where the next one would run past the head. Fewer than 512 bytes hold none.
pub fn extensions(head: &[u8]) -> Extensions<'_>
    ensures { remaining result ≡ extensions_of head.now }
{
    if head.len() < 512 {
        return Extensions::from(&head[..0], 0);
    }
    let version = u32_at(head, 4);
    let at = if version == 2 {
        72
    } else {
        u32_at(head, 100) as usize
    };
    Extensions::from(head, at)
}
