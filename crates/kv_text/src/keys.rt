// The keys of a text, by their names.
ghost use Rattle.std.specs.Prelude.{◌≡◌, ◌≤◌, [], length, IfOk, IfErr, IfSome, Some, None};
ghost use Rattle.std.specs.Option.{option_map};
ghost use Rattle.sd_names.specs.declared.fault.Key.TheVariants as key;
ghost use Rattle.kv_text.specs.Keys.{value, first_missing, shape_fault, optional, description_of, bytes_of};
ghost use Rattle.kv_text.specs.Text.{IsOneLine, pairs};
ghost use Rattle.kv_text.specs.declared.fault.TextFault.TheVariants as fault;

use crate::fault::TextFault;
use crate::lookup::{first_bad_line, value_of};
use sd_names::Key;

/// The value of a key, lent from the text: the value of the last pair that has it.
pub fn value(text: &[u8], key: Key) -> Option<&[u8]>
    ensures value { option_map (λ v. v.now) result ≡ value key (pairs text.now) }
    ensures one_line { IfSome result (λ v. IsOneLine v.now) }
{
    value_of(text, key.name().as_bytes())
}

/// The value of a key that has to be there.
pub fn needed(text: &[u8], key: Key) -> Result<&[u8], TextFault>
    ensures found { IfOk result (λ v. value key (pairs text.now) ≡ Some v.now) }
    ensures one_line { IfOk result (λ v. IsOneLine v.now) }
    ensures fault { IfErr result (λ e. e ≡ fault.MissingKey key) }
    ensures missing { IfErr result (λ _. value key (pairs text.now) ≡ None) }
{
    match value(text, key) {
        Some(value) => Ok(value),
        None => Err(TextFault::MissingKey(key)),
    }
}

// The first of these keys that isn't there.
#[tactic(auto, unfolding(crate::specs::Keys::first_missing))]
fn first_missing(text: &[u8], keys: &[Key]) -> Option<Key>
    ensures { result ≡ first_missing (pairs text.now) keys.now }
{
    keys.iter().copied().find(|key| value(text, *key).is_none())
}

/// What is wrong with the lines of a text, or which of these keys, that have to be there, isn't: a line that is no
/// pair comes before a key.
#[tactic(auto, unfolding(crate::specs::Keys::shape_fault))]
pub fn shape_fault(text: &[u8], keys: &[Key]) -> Option<TextFault>
    ensures { result ≡ shape_fault text.now keys.now }
{
    if let Some(number) = first_bad_line(text) {
        return Some(TextFault::BadLine(number));
    }
    match first_missing(text, keys) {
        Some(key) => Some(TextFault::MissingKey(key)),
        None => None,
    }
}

/// The value of DESCRIPTION, at most 4,096 bytes; none where the key isn't there.
#[tactic(auto, unfolding(crate::specs::Keys::description_of))]
pub fn description(text: &[u8]) -> Result<&[u8], TextFault>
    ensures value { bytes_of result ≡ optional key.Description [] description_of (value key.Description (pairs text.now)) }
    ensures short { IfOk result (λ bytes. length bytes.now ≤ 4096) }
    ensures one_line { IfOk result (λ bytes. IsOneLine bytes.now) }
{
    match value(text, Key::Description) {
        Some(value) if value.len() <= 4096 => Ok(value),
        Some(_) => Err(TextFault::BadValue(Key::Description)),
        None => Ok(&[]),
    }
}
