// The backing file's format.
ghost use Rattle.std.specs.Prelude.{◌≡◌, ◌+◌, ◌^◌, ◌<◌, length};
ghost use Rattle.qcow_format.specs.Format.{format_named, format_at, found_after, walked};

use crate::extension::{BACKING_FORMAT, extension_at};
use sd_names::{Format, LayerFault};

// The format that a text names.
fn named(text: &[u8]) -> Result<Format, LayerFault>
    ensures { result ≡ format_named text.now }
{
    if text == b"qcow2".as_slice() {
        return Ok(Format::Cow);
    }
    if text == b"raw".as_slice() {
        return Ok(Format::Raw);
    }
    Err(LayerFault::HeaderShape)
}

// The format that an extension at a place names with its data, which has to end within the first 512 bytes.
#[tactic(auto, unfolding(crate::specs::Format::format_at))]
fn format_standing(at: usize, text: &[u8]) -> Result<(u32, Format), LayerFault>
    requires { at + 8 + length text.now < 2 ^ 64 }
    ensures { result ≡ format_at at text.now }
{
    if at + 8 + text.len() > 512 {
        return Err(LayerFault::HeaderShape);
    }
    let format = named(text)?;
    Ok((at as u32, format))
}

// What has been found once an extension was met that stands at a place.
#[tactic(auto, unfolding(crate::specs::Format::found_after))]
fn found_with(
    found: Option<(u32, Format)>,
    kind: u32,
    at: usize,
    text: &[u8],
) -> Result<Option<(u32, Format)>, LayerFault>
    requires { at + 8 + length text.now < 2 ^ 64 }
    ensures { result ≡ found_after found kind at text.now }
{
    if kind != BACKING_FORMAT {
        return Ok(found);
    }
    let format = format_standing(at, text)?;
    Ok(Some(format))
}

// Where the extensions from a place on end, and the last backing format among them.
pub(crate) fn walk(head: &[u8], start: usize) -> Result<(usize, Option<(u32, Format)>), LayerFault>
    ensures { result ≡ walked head.now start }
{
    let mut at = start;
    let mut found = None;
    while let Some(met) = extension_at(head, at) {
        found = found_with(found, met.0.kind, at, met.0.body)?;
        at = met.1;
    }
    Ok((at, found))
}
