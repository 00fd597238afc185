// Identifiers in texts.
ghost use Rattle.std.specs.Prelude.{◌≡◌};
ghost use Rattle.kv_text.specs.Ids.{this_id};

use sd_names::Id;

/// This identifier, if the value is its hyphenated text (RFC 9562, section 4), in either case.
#[tactic(auto, unfolding(crate::specs::Ids::this_id))]
pub fn read_own_id(id: Id, value: &[u8]) -> Option<Id>
    ensures { result ≡ this_id id value.now }
{
    let found = Id::read(value)?;
    if found.is(&id) { Some(id) } else { None }
}
