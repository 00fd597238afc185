// The domains that a text lists.
ghost use Rattle.std.specs.Prelude.{◌≡◌, ◌≤◌, ◌<◌, ◌++◌, [], ◌∷◌, length, Some, None, IfSome, IfNone, slice_index_or, drop, All, true};
ghost use Rattle.sd_names.specs.Id.{IsIdBytes};
ghost use Rattle.std.specs.Option.{option_map};
ghost use Rattle.std.specs.List.{slice_split};
ghost use Rattle.domain_meta.specs.Values.{is_comma, is_rising, domain_of, domains_of_words, listed_of};
ghost use Rattle.domain_meta.specs.Words.{words_left};

use arrayvec::ArrayVec;
use kv_text::split_once;
use sd_names::Id;
use std::marker::Model;

// How many domains a pool has at most.
const MOST: usize = 4;

/// At most four identifiers. A contract sees the list.
#[derive(Drop)]
pub struct Listed {
    ids: ArrayVec<Id, 4>,
}

impl Model for Listed {
    ghost use Rattle.std.specs.Prelude.{List};
    ghost use Rattle.sd_names.specs.declared.id.Id.{Id};

    ghost Value = { List Id };

    ghost view = { λ l. l.ids.items };
}

impl Listed {
    /// No identifiers.
    pub fn new() -> Listed
        ensures { result ≡ [] }
    {
        Listed {
            ids: ArrayVec::new(),
        }
    }

    // Puts an identifier behind the others.
    fn push(&mut self, id: Id)
        requires { length self.old < 4 }
        ensures { self.new ≡ self.old ++ id ∷ [] }
    {
        self.ids.push(id)
    }

    /// The identifiers, lent.
    pub fn as_slice(&self) -> &[Id]
        ensures list { result.now ≡ self.now }
        ensures few { length result.now ≤ 4 }
    {
        self.ids.as_slice()
    }
}

// Whether each identifier is above the one before it.
fn is_rising(ids: &[Id]) -> bool
    ensures { result ≡ is_rising ids.now }
{
    for next in 1..ids.len() {
        if ids[next - 1].0.cmp(&ids[next].0).is_ge() {
            return false;
        }
    }
    true
}

// One domain of a pool: its identifier, and `:Active`.
#[tactic(auto, unfolding(crate::specs::Values::domain_of))]
fn domain(word: &[u8]) -> Option<Id>
    ensures { result ≡ domain_of word.now }
{
    if word.len() < 36 {
        return None;
    }
    if word[36..] != b":Active"[..] {
        return None;
    }
    Id::read(&word[..36])
}

// The first of the words between commas, and what stands behind its comma, if there is one.
fn first_word(text: &[u8]) -> (&[u8], Option<&[u8]>)
    ensures { slice_split is_comma text.now ≡ result.0.now ∷ words_left result.1 }
{
    match split_once(text, b',') {
        Some((word, more)) => (word, Some(more)),
        None => (text, None),
    }
}

// The domains that stand between commas, if each is one and there are at most four.
fn domains(value: &[u8]) -> Option<Listed>
    ensures some { IfSome result (λ ids. domains_of_words (slice_split is_comma value.now) ≡ Some ids) }
    ensures none { IfNone result (listed_of value.now ≡ None) }
    ensures least { IfSome result (λ ids. 1 ≤ length ids) }
    ensures ids { IfSome result (λ ids. All (λ id. IsIdBytes id.0) ids) }
{
    let mut ids = Listed::new();
    let mut rest = value;
    for _ in 0..MOST {
        let (word, behind) = first_word(rest);
        let Some(id) = domain(word) else {
            return None;
        };
        id.has_sixteen_bytes();
        ids.push(id);
        match behind {
            Some(more) => rest = more,
            None => return Some(ids),
        }
    }
    None
}

/// At most four domains that rise.
#[tactic(auto, unfolding(crate::specs::Values::listed_of))]
pub fn read_listed(value: &[u8]) -> Option<Listed>
    ensures value { option_map (λ ids. ids) result ≡ listed_of value.now }
    ensures listed { IfSome result (λ ids. (1 ≤ length ids) × (length ids ≤ 4) × (is_rising ids ≡ true)) }
    ensures ids { IfSome result (λ ids. All (λ id. IsIdBytes id.0) ids) }
{
    let ids = domains(value)?;
    if is_rising(ids.as_slice()) {
        Some(ids)
    } else {
        None
    }
}
