// Reading a task's text.
ghost use Rattle.std.specs.Prelude.{◌≡◌, ◌+◌, ◌-◌, ◌≤◌, [], ◌∷◌, All, length, IfOk, IfErr, IfSome};
ghost use Rattle.std.specs.List.{slice_split};
ghost use Rattle.std.specs.Option.{option_map, option_and_then};
ghost use Rattle.kv_text.specs.Gives.{Gives};
ghost use Rattle.sd_names.specs.Id.{IsIdBytes, id_of};
ghost use Rattle.sd_names.specs.declared.refusal.Refusal.TheVariants as refusal;
ghost use Rattle.task_store.specs.Parts.{is_byte};
ghost use Rattle.task_store.specs.ReadTask.{body_in, delete_first, describe_first, ending, extend_first, first_number, first_state, first_value, image_first, is_end, keyed, onto, or_corrupt, state_of, step_value, task_in, task_of, undo_of, values_in, verb_of, volume_first};
ghost use Rattle.task_store.specs.Shown.{undo_shown};
ghost use Rattle.task_store.specs.TaskText.{IsValid};
ghost use Rattle.task_store.specs.Undo.{HasIds, IsStep};

use crate::parts::Parts;
use crate::steps::{Steps, step_key};
use crate::task::Task;
use crate::undo::Undo;
use crate::values::{read_capacity, read_description};
use kv_text::split_once;
use sd_names::{Bytes, Id, NoMemory, Refusal, TaskState, VerbName};
use std::alloc::Global;

// A step whose word is lent from the text.
#[derive(Clone, Copy)]
enum Lent<'a> {
    RemoveImage {
        sd: Id,
        image: Id,
    },
    RemoveVolume {
        sd: Id,
        image: Id,
        v: Id,
    },
    SetLeaf {
        sd: Id,
        image: Id,
        v: Id,
    },
    DropDomain {
        sd: Id,
    },
    FinishDelete {
        sd: Id,
        image: Id,
        v: Id,
        parent: Id,
    },
    FinishRemove {
        sd: Id,
        image: Id,
    },
    FinishExtend {
        sd: Id,
        image: Id,
        v: Id,
        capacity: u64,
    },
    FinishDescribe {
        sd: Id,
        image: Id,
        v: Id,
        word: &'a [u8],
    },
}

// What stands behind the line of the state.
#[derive(Drop)]
struct Body {
    verb: VerbName,
    steps: Steps,
}

// The identifier that the next word is.
fn id(words: &mut Parts<'_>) -> Option<Id>
    ensures value { option_map (λ id. (id, words.new)) result ≡ first_value id_of words.old }
    ensures valid { IfSome result (λ id. IsIdBytes id.0) }
{
    let word = words.next()?;
    let id = Id::read(word)?;
    id.has_sixteen_bytes();
    Some(id)
}

// A domain and an image of it.
fn image(words: &mut Parts<'_>) -> Option<(Id, Id)>
    ensures value { option_map (λ ids. (ids, words.new)) result ≡ image_first words.old }
    ensures valid { IfSome result (λ ids. IsIdBytes ids.0.0 × IsIdBytes ids.1.0) }
{
    let sd = id(words)?;
    let image = id(words)?;
    Some((sd, image))
}

// A domain, an image of it and a volume of that.
fn volume(words: &mut Parts<'_>) -> Option<(Id, Id, Id)>
    ensures value { option_map (λ ids. (ids, words.new)) result ≡ volume_first words.old }
    ensures valid { IfSome result (λ ids. IsIdBytes ids.0.0 × IsIdBytes ids.1.0 × IsIdBytes ids.2.0) }
{
    let (sd, image) = image(words)?;
    let v = id(words)?;
    Some((sd, image, v))
}

fn parent<'a>(words: &mut Parts<'a>) -> Option<Lent<'a>>
    ensures value { option_map (λ lent. (undo_shown lent, words.new)) result ≡ delete_first words.old }
    ensures valid { IfSome result (λ lent. IsStep (undo_shown lent) × HasIds (undo_shown lent)) }
{
    let (sd, image, v) = volume(words)?;
    let parent = id(words)?;
    Some(Lent::FinishDelete {
        sd,
        image,
        v,
        parent,
    })
}

fn capacity<'a>(words: &mut Parts<'a>) -> Option<Lent<'a>>
    ensures value { option_map (λ lent. (undo_shown lent, words.new)) result ≡ extend_first words.old }
    ensures valid { IfSome result (λ lent. IsStep (undo_shown lent) × HasIds (undo_shown lent)) }
{
    let (sd, image, v) = volume(words)?;
    let word = words.next()?;
    let capacity = read_capacity(word)?;
    Some(Lent::FinishExtend {
        sd,
        image,
        v,
        capacity,
    })
}

fn description<'a>(words: &mut Parts<'a>) -> Option<Lent<'a>>
    ensures value { option_map (λ lent. (undo_shown lent, words.new)) result ≡ describe_first words.old }
    ensures valid { IfSome result (λ lent. IsStep (undo_shown lent) × HasIds (undo_shown lent)) }
{
    let (sd, image, v) = volume(words)?;
    let word = words.next()?;
    let word = read_description(word)?;
    Some(Lent::FinishDescribe { sd, image, v, word })
}

// A step of a kind, by the words of its values.
#[tactic(auto, unfolding(crate::specs::ReadTask::values_in))]
fn read_values<'a>(kind: &[u8], words: &mut Parts<'a>) -> Option<Lent<'a>>
    ensures value { option_map (λ lent. (undo_shown lent, words.new)) result ≡ values_in kind.now words.old }
    ensures valid { IfSome result (λ lent. IsStep (undo_shown lent) × HasIds (undo_shown lent)) }
{
    if kind == b"RemoveImage".as_slice() {
        let (sd, image) = image(words)?;
        return Some(Lent::RemoveImage { sd, image });
    }
    if kind == b"RemoveVolume".as_slice() {
        let (sd, image, v) = volume(words)?;
        return Some(Lent::RemoveVolume { sd, image, v });
    }
    if kind == b"SetLeaf".as_slice() {
        let (sd, image, v) = volume(words)?;
        return Some(Lent::SetLeaf { sd, image, v });
    }
    if kind == b"DropDomain".as_slice() {
        let sd = id(words)?;
        return Some(Lent::DropDomain { sd });
    }
    if kind == b"FinishDelete".as_slice() {
        return parent(words);
    }
    if kind == b"FinishRemove".as_slice() {
        let (sd, image) = image(words)?;
        return Some(Lent::FinishRemove { sd, image });
    }
    if kind == b"FinishExtend".as_slice() {
        return capacity(words);
    }
    if kind == b"FinishDescribe".as_slice() {
        return description(words);
    }
    None
}

// The step of a value. Nothing stands behind its last word.
#[tactic(auto, unfolding(crate::specs::ReadTask::undo_of))]
fn read_undo(value: &[u8]) -> Option<Lent<'_>>
    ensures value { option_map undo_shown result ≡ undo_of value.now }
    ensures valid { IfSome result (λ lent. IsStep (undo_shown lent) × HasIds (undo_shown lent)) }
{
    let mut words = Parts::new(value, b' ');
    let kind = words.next()?;
    let lent = read_values(kind, &mut words)?;
    match words.next() {
        Some(_) => None,
        None => Some(lent),
    }
}

// A step that owns its word.
fn owned(alloc: Global, lent: Lent<'_>) -> Result<Undo, NoMemory>
    ensures { IfOk result (λ undo. undo ≡ undo_shown lent.entry) }
{
    Ok(match lent {
        Lent::RemoveImage { sd, image } => Undo::RemoveImage { sd, image },
        Lent::RemoveVolume { sd, image, v } => Undo::RemoveVolume { sd, image, v },
        Lent::SetLeaf { sd, image, v } => Undo::SetLeaf { sd, image, v },
        Lent::DropDomain { sd } => Undo::DropDomain { sd },
        Lent::FinishDelete {
            sd,
            image,
            v,
            parent,
        } => Undo::FinishDelete {
            sd,
            image,
            v,
            parent,
        },
        Lent::FinishRemove { sd, image } => Undo::FinishRemove { sd, image },
        Lent::FinishExtend {
            sd,
            image,
            v,
            capacity,
        } => Undo::FinishExtend {
            sd,
            image,
            v,
            capacity,
        },
        Lent::FinishDescribe { sd, image, v, word } => Undo::FinishDescribe {
            sd,
            image,
            v,
            word: Bytes::copied(alloc, word)?,
        },
    })
}

// The value of a line, if this is its key.
#[tactic(auto, unfolding(crate::specs::ReadTask::keyed))]
fn keyed<'a>(key: &[u8], line: &'a [u8]) -> Option<&'a [u8]>
    ensures { option_map (λ value. value.now) result ≡ keyed key.now line.now }
{
    let (found, value) = split_once(line, b'=')?;
    if found == key { Some(value) } else { None }
}

#[tactic(auto, unfolding(crate::specs::ReadTask::verb_of))]
fn read_verb(word: &[u8]) -> Option<VerbName>
    ensures { result ≡ verb_of word.now }
{
    if word == b"create".as_slice() {
        Some(VerbName::Create)
    } else if word == b"snapshot".as_slice() {
        Some(VerbName::Snapshot)
    } else if word == b"delete-volume".as_slice() {
        Some(VerbName::DeleteVolume)
    } else if word == b"delete-image".as_slice() {
        Some(VerbName::DeleteImage)
    } else if word == b"copy".as_slice() {
        Some(VerbName::Copy)
    } else if word == b"extend".as_slice() {
        Some(VerbName::Extend)
    } else if word == b"describe".as_slice() {
        Some(VerbName::Describe)
    } else if word == b"add-domain".as_slice() {
        Some(VerbName::AddDomain)
    } else {
        None
    }
}

#[tactic(auto, unfolding(crate::specs::ReadTask::state_of))]
fn read_state(word: &[u8]) -> Option<TaskState>
    ensures { result ≡ state_of word.now }
{
    if word == b"OPEN".as_slice() {
        Some(TaskState::Open)
    } else if word == b"DONE".as_slice() {
        Some(TaskState::Done)
    } else if word == b"UNDONE".as_slice() {
        Some(TaskState::Undone)
    } else {
        None
    }
}

// Whether the line `EOF` comes, and nothing behind it.
fn is_end(mut lines: Parts<'_>) -> bool
    ensures { result ≡ is_end lines.entry }
{
    let Some(eof) = lines.next() else {
        return false;
    };
    if eof != b"EOF".as_slice() {
        return false;
    }
    let Some(behind) = lines.next() else {
        return true;
    };
    behind.is_empty() && lines.next().is_none()
}

// The last lines, of which this is the first: the verb.
#[tactic(auto, unfolding(crate::specs::ReadTask::ending))]
fn ending(alloc: Global, line: &[u8], lines: Parts<'_>) -> Option<Body>
    ensures value { result ≡ ending line.now lines.entry }
    ensures none { IfSome result (λ body. body.steps ≡ []) }
{
    let word = keyed(b"VERB", line)?;
    let verb = read_verb(word)?;
    if is_end(lines) {
        Some(Body {
            verb,
            steps: Steps::new(alloc),
        })
    } else {
        None
    }
}

// The value of a line, if it is the step of this number.
#[tactic(auto, unfolding(crate::specs::ReadTask::step_value))]
fn step_value(number: u8, line: &[u8]) -> Option<&[u8]>
    ensures value { option_map (λ value. value.now) result ≡ step_value number line.now }
    ensures few { IfSome result (λ _. number ≤ 15) }
{
    if number < 16 {
        keyed(&step_key(number), line)
    } else {
        None
    }
}

// The steps, of which the first has this number, and the verb behind them. What stands behind a step is read before
// memory is asked for it, so that want of memory is told only of a text that has the form.
fn read_body(alloc: Global, task: Id, number: u8, mut lines: Parts<'_>) -> Result<Body, Refusal>
    requires { number ≤ 16 }
    ensures read { Gives refusal.OutOfMemory result (or_corrupt task (body_in number lines.entry)) }
    ensures few { IfOk result (λ body. length body.steps + number ≤ 16) }
    ensures values { IfOk result (λ body. All IsStep body.steps) }
    ensures ids { IfOk result (λ body. All HasIds body.steps) }
{
    let corrupt = Refusal::TaskCorrupt(task);
    let Some(line) = lines.next() else {
        return Err(corrupt);
    };
    let Some(value) = step_value(number, line) else {
        return ending(alloc, line, lines).ok_or(corrupt);
    };
    let Some(lent) = read_undo(value) else {
        return Err(corrupt);
    };
    let body = read_body(alloc, task, number + 1, lines)?;
    with_front(alloc, lent, body)
}

// A step before others.
fn with_front(alloc: Global, lent: Lent<'_>, body: Body) -> Result<Body, Refusal>
    ensures ok { IfOk result (λ all. all ≡ record { verb = body.verb; steps = undo_shown lent.entry ∷ body.steps }) }
    ensures err { IfErr result (λ e. e ≡ refusal.OutOfMemory) }
{
    let Body { verb, mut steps } = body;
    let Ok(step) = owned(alloc, lent) else {
        return Err(Refusal::OutOfMemory);
    };
    match steps.push_front(step) {
        Ok(()) => Ok(Body { verb, steps }),
        Err(NoMemory) => Err(Refusal::OutOfMemory),
    }
}

// The number of the first step that may come.
fn first_number(state: TaskState) -> u8
    ensures number { result ≡ first_number state }
    ensures few { result ≤ 16 }
{
    match state {
        TaskState::Open => 0,
        TaskState::Done => 16,
        TaskState::Undone => 16,
    }
}

// The state on the first line.
fn first_state(lines: &mut Parts<'_>) -> Option<TaskState>
    ensures { option_map (λ state. (state, lines.new)) result ≡ first_state lines.old }
{
    let line = lines.next()?;
    let word = keyed(b"STATE", line)?;
    read_state(word)
}

impl Task {
    /// The task of the text in the file of the task `id`. Refused as `TaskCorrupt` exactly where the text hasn't the
    /// form: a line `STATE=`, then the steps in the order of their numbers, none in a task that isn't open, then a line
    /// `VERB=` and a line `EOF`, with nothing between and nothing behind; only the last line feed may lack. Want of
    /// memory is told only of a text that has the form.
    #[tactic(auto, unfolding(crate::specs::ReadTask::task_of))]
    pub fn read(alloc: Global, id: Id, text: &[u8]) -> Result<Task, Refusal>
        ensures read { Gives refusal.OutOfMemory result (or_corrupt id (task_of id text.now)) }
        ensures valid { IfOk result IsValid }
    {
        let mut lines = Parts::new(text, b'\n');
        let Some(state) = first_state(&mut lines) else {
            return Err(Refusal::TaskCorrupt(id));
        };
        let body = read_body(alloc, id, first_number(state), lines)?;
        Ok(Task {
            id,
            verb: body.verb,
            state,
            steps: body.steps,
        })
    }
}
