// The verbs of a script, each with its arguments.
ghost use Rattle.std.specs.Prelude.{◌≡◌, length};
ghost use Rattle.script_lines.specs.Verbs.{ReadsVerb};

use crate::VerbWord;
use crate::arguments::Arguments;
use sd_names::Verb;

/// Reads the arguments of a verb. `room` is room for 65,536 bytes, into which data is decoded. Where an argument is
/// missing or malformed the reader stays at its place.
pub fn read_verb<'a>(
    name: VerbWord,
    args: &mut Arguments<'a>,
    room: &'a mut [u8],
) -> Option<Verb<'a>>
    requires { length room.old ≡ 65536 }
    ensures { ReadsVerb name args.old args.new result }
{
    match name {
        VerbWord::MakePool => make_pool(args),
        VerbWord::SpmStart => spm_start(args),
        VerbWord::SpmStop => Some(Verb::SpmStop),
        VerbWord::AddDomain => add_domain(args),
        VerbWord::Create => create(args),
        VerbWord::Snapshot => snapshot(args),
        VerbWord::DeleteVolume => delete_volume(args),
        VerbWord::DeleteImage => delete_image(args),
        VerbWord::Copy => copy(args),
        VerbWord::Extend => extend(args),
        VerbWord::Describe => describe(args),
        VerbWord::Open => open(args),
        VerbWord::Close => close(args),
        VerbWord::Read => read(args),
        VerbWord::Write => write(args, room),
        VerbWord::PrepareMerge => prepare_merge(args),
        VerbWord::Merge => merge(args),
        VerbWord::FinalizeMerge => finalize_merge(args),
        VerbWord::LiveStart => live_start(args),
        VerbWord::LiveFill => live_fill(args),
        VerbWord::LiveSync => live_sync(args),
        VerbWord::LivePivot => live_pivot(args),
        VerbWord::BoxPost => box_post(args),
        VerbWord::BoxServe => box_serve(args),
        VerbWord::BoxCollect => box_collect(args),
        VerbWord::Tasks => Some(Verb::Tasks),
        VerbWord::ClearTask => clear_task(args),
        VerbWord::Recover => Some(Verb::Recover),
    }
}

/// `make-pool P S VERSION D`
fn make_pool<'a>(args: &mut Arguments<'a>) -> Option<Verb<'a>>
    ensures { ReadsVerb VerbWord.MakePool args.old args.new result }
{
    let pool = args.id()?;
    let sd = args.id()?;
    let version = args.number(4, 5)?;
    let text = args.description()?;
    Some(Verb::MakePool {
        pool,
        sd,
        version: version as u8,
        text,
    })
}

/// `spm-start S PREV LVER`
fn spm_start<'a>(args: &mut Arguments<'a>) -> Option<Verb<'a>>
    ensures { ReadsVerb VerbWord.SpmStart args.old args.new result }
{
    let sd = args.id()?;
    let prev = args.number(0, 250)?;
    let lver = args.number(0, 18446744073709551615)?;
    Some(Verb::SpmStart {
        sd,
        prev: prev as u8,
        lver,
    })
}

/// `add-domain T S VERSION D`
fn add_domain<'a>(args: &mut Arguments<'a>) -> Option<Verb<'a>>
    ensures { ReadsVerb VerbWord.AddDomain args.old args.new result }
{
    let task = args.id()?;
    let sd = args.id()?;
    let version = args.number(4, 5)?;
    let text = args.description()?;
    Some(Verb::AddDomain {
        task,
        sd,
        version: version as u8,
        text,
    })
}

/// `create T S I V F CAP D`
fn create<'a>(args: &mut Arguments<'a>) -> Option<Verb<'a>>
    ensures { ReadsVerb VerbWord.Create args.old args.new result }
{
    let task = args.id()?;
    let (sd, image, v) = args.volume()?;
    let (format, kind) = args.layout()?;
    let capacity = args.number(0, 18446744073709551615)?;
    let text = args.description()?;
    Some(Verb::Create {
        task,
        sd,
        image,
        v,
        format,
        kind,
        capacity,
        text,
    })
}

/// `snapshot T S I V W CAP D`
fn snapshot<'a>(args: &mut Arguments<'a>) -> Option<Verb<'a>>
    ensures { ReadsVerb VerbWord.Snapshot args.old args.new result }
{
    let task = args.id()?;
    let (sd, image, v) = args.volume()?;
    let w = args.set_id()?;
    let capacity = args.number(0, 18446744073709551615)?;
    let text = args.description()?;
    Some(Verb::Snapshot {
        task,
        sd,
        image,
        v,
        w,
        capacity,
        text,
    })
}

/// `delete-volume T S I V`
fn delete_volume<'a>(args: &mut Arguments<'a>) -> Option<Verb<'a>>
    ensures { ReadsVerb VerbWord.DeleteVolume args.old args.new result }
{
    let task = args.id()?;
    let (sd, image, v) = args.volume()?;
    Some(Verb::DeleteVolume { task, sd, image, v })
}

/// `delete-image T S I`
fn delete_image<'a>(args: &mut Arguments<'a>) -> Option<Verb<'a>>
    ensures { ReadsVerb VerbWord.DeleteImage args.old args.new result }
{
    let task = args.id()?;
    let (sd, image) = args.image()?;
    Some(Verb::DeleteImage { task, sd, image })
}

/// `copy T S I V S2 J W F`
fn copy<'a>(args: &mut Arguments<'a>) -> Option<Verb<'a>>
    ensures { ReadsVerb VerbWord.Copy args.old args.new result }
{
    let task = args.id()?;
    let (sd, image, v) = args.volume()?;
    let (to_sd, to_image, w) = args.volume()?;
    let (format, kind) = args.layout()?;
    Some(Verb::Copy {
        task,
        sd,
        image,
        v,
        to_sd,
        to_image,
        w,
        format,
        kind,
    })
}

/// `extend T S I V CAP`
fn extend<'a>(args: &mut Arguments<'a>) -> Option<Verb<'a>>
    ensures { ReadsVerb VerbWord.Extend args.old args.new result }
{
    let task = args.id()?;
    let (sd, image, v) = args.volume()?;
    let capacity = args.number(0, 18446744073709551615)?;
    Some(Verb::Extend {
        task,
        sd,
        image,
        v,
        capacity,
    })
}

/// `describe T S I V D`
fn describe<'a>(args: &mut Arguments<'a>) -> Option<Verb<'a>>
    ensures { ReadsVerb VerbWord.Describe args.old args.new result }
{
    let task = args.id()?;
    let (sd, image, v) = args.volume()?;
    let text = args.description()?;
    Some(Verb::Describe {
        task,
        sd,
        image,
        v,
        text,
    })
}

/// `open S I`
fn open<'a>(args: &mut Arguments<'a>) -> Option<Verb<'a>>
    ensures { ReadsVerb VerbWord.Open args.old args.new result }
{
    let (sd, image) = args.image()?;
    Some(Verb::Open { sd, image })
}

/// `close S I`
fn close<'a>(args: &mut Arguments<'a>) -> Option<Verb<'a>>
    ensures { ReadsVerb VerbWord.Close args.old args.new result }
{
    let (sd, image) = args.image()?;
    Some(Verb::Close { sd, image })
}

/// `read S I AT LEN`
fn read<'a>(args: &mut Arguments<'a>) -> Option<Verb<'a>>
    ensures { ReadsVerb VerbWord.Read args.old args.new result }
{
    let (sd, image) = args.image()?;
    let at = args.number(0, 18446744073709551615)?;
    let length = args.number(1, 65536)?;
    Some(Verb::Read {
        sd,
        image,
        at,
        length: length as u32,
    })
}

/// `write S I AT DATA`
fn write<'a>(args: &mut Arguments<'a>, room: &'a mut [u8]) -> Option<Verb<'a>>
    requires { length room.old ≡ 65536 }
    ensures { ReadsVerb VerbWord.Write args.old args.new result }
{
    let (sd, image) = args.image()?;
    let at = args.number(0, 18446744073709551615)?;
    let bytes = args.data(room)?;
    Some(Verb::Write {
        sd,
        image,
        at,
        bytes,
    })
}

/// `prepare-merge S I V W`
fn prepare_merge<'a>(args: &mut Arguments<'a>) -> Option<Verb<'a>>
    ensures { ReadsVerb VerbWord.PrepareMerge args.old args.new result }
{
    let (sd, image, v) = args.volume()?;
    let w = args.set_id()?;
    Some(Verb::PrepareMerge { sd, image, v, w })
}

/// `merge S I V W GEN`
fn merge<'a>(args: &mut Arguments<'a>) -> Option<Verb<'a>>
    ensures { ReadsVerb VerbWord.Merge args.old args.new result }
{
    let (sd, image, v) = args.volume()?;
    let w = args.set_id()?;
    let generation = args.number(0, 999)?;
    Some(Verb::Merge {
        sd,
        image,
        v,
        w,
        generation: generation as u16,
    })
}

/// `finalize-merge S I V W`
fn finalize_merge<'a>(args: &mut Arguments<'a>) -> Option<Verb<'a>>
    ensures { ReadsVerb VerbWord.FinalizeMerge args.old args.new result }
{
    let (sd, image, v) = args.volume()?;
    let w = args.set_id()?;
    Some(Verb::FinalizeMerge { sd, image, v, w })
}

/// `live-start S I V W`
fn live_start<'a>(args: &mut Arguments<'a>) -> Option<Verb<'a>>
    ensures { ReadsVerb VerbWord.LiveStart args.old args.new result }
{
    let (sd, image, v) = args.volume()?;
    let w = args.set_id()?;
    Some(Verb::LiveStart { sd, image, v, w })
}

/// `live-fill S I N`
fn live_fill<'a>(args: &mut Arguments<'a>) -> Option<Verb<'a>>
    ensures { ReadsVerb VerbWord.LiveFill args.old args.new result }
{
    let (sd, image) = args.image()?;
    let count = args.number(1, 4294967295)?;
    Some(Verb::LiveFill { sd, image, count })
}

/// `live-sync S I`
fn live_sync<'a>(args: &mut Arguments<'a>) -> Option<Verb<'a>>
    ensures { ReadsVerb VerbWord.LiveSync args.old args.new result }
{
    let (sd, image) = args.image()?;
    Some(Verb::LiveSync { sd, image })
}

/// `live-pivot S I`
fn live_pivot<'a>(args: &mut Arguments<'a>) -> Option<Verb<'a>>
    ensures { ReadsVerb VerbWord.LivePivot args.old args.new result }
{
    let (sd, image) = args.image()?;
    Some(Verb::LivePivot { sd, image })
}

/// `box-post S I V LEN MARK`
fn box_post<'a>(args: &mut Arguments<'a>) -> Option<Verb<'a>>
    ensures { ReadsVerb VerbWord.BoxPost args.old args.new result }
{
    let (sd, image, v) = args.volume()?;
    let length = args.number(0, 18446744073709551615)?;
    let mark = args.number(0, 4294967295)?;
    Some(Verb::BoxPost {
        sd,
        image,
        v,
        length,
        mark: mark as u32,
    })
}

/// `box-serve S H`
fn box_serve<'a>(args: &mut Arguments<'a>) -> Option<Verb<'a>>
    ensures { ReadsVerb VerbWord.BoxServe args.old args.new result }
{
    let sd = args.id()?;
    let of = args.host()?;
    Some(Verb::BoxServe { sd, of })
}

/// `box-collect S`
fn box_collect<'a>(args: &mut Arguments<'a>) -> Option<Verb<'a>>
    ensures { ReadsVerb VerbWord.BoxCollect args.old args.new result }
{
    let sd = args.id()?;
    Some(Verb::BoxCollect { sd })
}

/// `clear-task T`
fn clear_task<'a>(args: &mut Arguments<'a>) -> Option<Verb<'a>>
    ensures { ReadsVerb VerbWord.ClearTask args.old args.new result }
{
    let task = args.id()?;
    Some(Verb::ClearTask { task })
}
