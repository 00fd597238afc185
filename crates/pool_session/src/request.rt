// What a line of the script asks for on the first path.
ghost use Rattle.std.specs.Prelude.{◌≡◌, ◌==◌, true, Ok, Err, MatchResult, IfOk};
ghost use Rattle.script_lines.specs.Event.{event_by};
ghost use Rattle.script_lines.specs.Verbs.{word_of, values_of_verb};
ghost use Rattle.pool_session.specs.Request.{is_built, is_capacity, is_part, asked_by, asked_of, if_built, IsSound};

use crate::image::Image;
use script_lines::{Line, VerbWord};
use sd_names::{AllocKind, Format, HostId, Id, Refusal, Verb};

/// What a line asks for. Offsets, lengths and capacities are in bytes.
#[derive(Clone, Copy, Debug)]
pub enum Request {
    /// Boots the host.
    Boot,
    /// Makes the domain as the master of a pool.
    MakePool(Id),
    /// Makes the host the storage pool manager of the domain's pool.
    SpmStart(Id),
    /// Makes an image.
    Create(Image),
    /// Opens the image of a domain.
    Open(Id, Id),
    /// Writes the bytes that stand beside it to the image of a domain, from an offset on.
    Write(Id, Id, u64),
    /// Reads so many bytes of the image of a domain, from an offset on.
    Read(Id, Id, u64, u32),
}

/// Whether a verb is built.
pub fn is_built(verb: VerbWord) -> bool
    ensures { result ≡ is_built verb }
{
    matches!(
        verb,
        VerbWord::MakePool
            | VerbWord::SpmStart
            | VerbWord::Create
            | VerbWord::Open
            | VerbWord::Read
            | VerbWord::Write
    )
}

/// What a line asks for, and the bytes that it writes, or why it is refused: as the line says, or because it isn't of the
/// first path.
pub fn asked<'a>(line: &Line<'a>) -> Result<(Request, &'a [u8]), Refusal>
    ensures asked { MatchResult result
        (λ asked. asked_of (event_by line.now) ≡ Ok (asked.0, asked.1.now))
        (λ refusal. asked_of (event_by line.now) ≡ Err refusal) }
    ensures sound { IfOk result (λ asked. IsSound asked.0 asked.1.now) }
{
    match line {
        Line::Refused(refusal) => Err(*refusal),
        Line::Boot(host) => if_built(is_first(host), Request::Boot, b""),
        Line::Whole(host, verb) => {
            if is_first(host) {
                asked_by(verb)
            } else {
                Err(Refusal::NotBuilt)
            }
        }
        _ => Err(Refusal::NotBuilt),
    }
}

/// A request with the bytes that it writes, if it is one of the first path.
fn if_built<'a>(
    built: bool,
    request: Request,
    bytes: &'a [u8],
) -> Result<(Request, &'a [u8]), Refusal>
    ensures asked { MatchResult result
        (λ asked. if_built built request bytes.now ≡ Ok (asked.0, asked.1.now))
        (λ refusal. if_built built request bytes.now ≡ Err refusal) }
    ensures same { IfOk result (λ asked. (built ≡ true) × (asked.0 ≡ request) × (asked.1.now ≡ bytes.now)) }
{
    if built {
        Ok((request, bytes))
    } else {
        Err(Refusal::NotBuilt)
    }
}

/// Whether this is the one host of a session.
fn is_first(host: &HostId) -> bool
    ensures { result ≡ (host.now == 1) }
{
    host.get() == 1
}

/// What a verb asks for, and the bytes that it writes.
fn asked_by<'a>(verb: &Verb<'a>) -> Result<(Request, &'a [u8]), Refusal>
    ensures asked { MatchResult result
        (λ asked. asked_by (word_of verb.now) (values_of_verb verb.now) ≡ Ok (asked.0, asked.1.now))
        (λ refusal. asked_by (word_of verb.now) (values_of_verb verb.now) ≡ Err refusal) }
    ensures sound { IfOk result (λ asked. IsSound asked.0 asked.1.now) }
{
    match verb {
        Verb::MakePool {
            pool: _,
            sd,
            version,
            text,
        } => if_built(
            *version == 5 && text.is_empty(),
            Request::MakePool(*sd),
            b"",
        ),
        Verb::SpmStart { sd, prev, lver } => {
            if_built(*prev == 0 && *lver == 0, Request::SpmStart(*sd), b"")
        }
        Verb::Open { sd, image } => Ok((Request::Open(*sd, *image), b"")),
        Verb::Read {
            sd,
            image,
            at,
            length,
        } => if_built(
            is_part(*length as usize),
            Request::Read(*sd, *image, *at, *length),
            b"",
        ),
        Verb::Write {
            sd,
            image,
            at,
            bytes,
        } => if_built(
            is_part(bytes.len()),
            Request::Write(*sd, *image, *at),
            bytes,
        ),
        Verb::Create {
            task: _,
            sd,
            image,
            v,
            format: Format::Raw,
            kind: AllocKind::Sparse,
            capacity,
            text,
        } => if_built(
            is_capacity(*capacity) && text.is_empty(),
            Request::Create(Image {
                sd: *sd,
                image: *image,
                volume: *v,
                capacity: *capacity,
            }),
            b"",
        ),
        _ => Err(Refusal::NotBuilt),
    }
}

/// Whether an image may have this capacity.
fn is_capacity(capacity: u64) -> bool
    ensures { result ≡ is_capacity capacity }
{
    capacity % 512 == 0 && capacity >= 512 && capacity <= 1 << 40
}

/// Whether a part of an image may have so many bytes.
fn is_part(count: usize) -> bool
    ensures { result ≡ is_part count }
{
    count >= 1 && count <= 65_536
}
