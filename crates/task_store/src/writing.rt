// Writing a task's text.
ghost use Rattle.std.specs.Prelude.{◌≡◌, ◌+◌, ◌*◌, ◌≤◌, ◌++◌, [], ◌∷◌, All, length, take};
ghost use Rattle.kv_text.specs.Text.{line};
ghost use Rattle.sd_names.specs.Id.{id_text};
ghost use Rattle.task_store.specs.TaskText.{IsTask, state_text, step_key, step_lines, text_of, verb_text};
ghost use Rattle.task_store.specs.Undo.{IsStep, image_words, kind_text, spaced, undo_text, value_words, volume_words};

use crate::steps::step_key;
use crate::task::Task;
use crate::undo::Undo;
use itoa::Buffer;
use sd_names::{Id, TaskState, VerbName};

// Puts bytes into the buffer from `at` on, and gives the place behind them.
fn put(into: &mut [u8; 8192], at: usize, bytes: &[u8]) -> usize
    requires { at + length bytes.now ≤ 8192 }
    ensures end { result ≡ at + length bytes.now }
    ensures text { take result into.new ≡ take at into.old ++ bytes.now }
{
    let end = at + bytes.len();
    into[at..end].copy_from_slice(bytes);
    end
}

// A word behind a space.
fn put_word(into: &mut [u8; 8192], at: usize, word: &[u8]) -> usize
    requires { at + length word.now + 1 ≤ 8192 }
    ensures end { result ≡ at + length word.now + 1 }
    ensures text { take result into.new ≡ take at into.old ++ 32 ∷ word.now }
{
    let at = put(into, at, b" ");
    put(into, at, word)
}

fn put_id(into: &mut [u8; 8192], at: usize, id: &Id) -> usize
    requires { at + 37 ≤ 8192 }
    ensures end { result ≡ at + 37 }
    ensures text { take result into.new ≡ take at into.old ++ spaced (id_text id.now.0 ∷ []) }
{
    put_word(into, at, &id.text())
}

// A domain and an image of it.
fn put_image(into: &mut [u8; 8192], at: usize, sd: &Id, image: &Id) -> usize
    requires { at + 74 ≤ 8192 }
    ensures end { result ≡ at + 74 }
    ensures text { take result into.new ≡ take at into.old ++ spaced (image_words sd.now image.now []) }
{
    let at = put_id(into, at, sd);
    put_id(into, at, image)
}

// A domain, an image of it and a volume of that.
fn put_volume(into: &mut [u8; 8192], at: usize, sd: &Id, image: &Id, v: &Id) -> usize
    requires { at + 111 ≤ 8192 }
    ensures end { result ≡ at + 111 }
    ensures text { take result into.new ≡ take at into.old ++ spaced (volume_words sd.now image.now v.now []) }
{
    let at = put_image(into, at, sd, image);
    put_id(into, at, v)
}

fn kind_text(undo: &Undo) -> &'static [u8]
    ensures text { result.now ≡ kind_text undo.now }
    ensures short { length result.now ≤ 14 }
{
    match undo {
        Undo::RemoveImage { .. } => b"RemoveImage",
        Undo::RemoveVolume { .. } => b"RemoveVolume",
        Undo::SetLeaf { .. } => b"SetLeaf",
        Undo::DropDomain { .. } => b"DropDomain",
        Undo::FinishDelete { .. } => b"FinishDelete",
        Undo::FinishRemove { .. } => b"FinishRemove",
        Undo::FinishExtend { .. } => b"FinishExtend",
        Undo::FinishDescribe { .. } => b"FinishDescribe",
    }
}

// The words of a step's values, each behind a space.
fn put_values(into: &mut [u8; 8192], at: usize, undo: &Undo) -> usize
    requires fits { at + 312 ≤ 8192 }
    requires step { IsStep undo.now }
    ensures short { result ≤ at + 312 }
    ensures text { take result into.new ≡ take at into.old ++ spaced (value_words undo.now) }
{
    match undo {
        Undo::RemoveImage { sd, image } => put_image(into, at, sd, image),
        Undo::RemoveVolume { sd, image, v } => put_volume(into, at, sd, image, v),
        Undo::SetLeaf { sd, image, v } => put_volume(into, at, sd, image, v),
        Undo::DropDomain { sd } => put_id(into, at, sd),
        Undo::FinishDelete {
            sd,
            image,
            v,
            parent,
        } => {
            let at = put_volume(into, at, sd, image, v);
            put_id(into, at, parent)
        }
        Undo::FinishRemove { sd, image } => put_image(into, at, sd, image),
        Undo::FinishExtend {
            sd,
            image,
            v,
            capacity,
        } => {
            let at = put_volume(into, at, sd, image, v);
            let mut digits = Buffer::new();
            put_word(into, at, digits.format(*capacity).as_bytes())
        }
        Undo::FinishDescribe { sd, image, v, word } => {
            let at = put_volume(into, at, sd, image, v);
            put_word(into, at, word.as_slice())
        }
    }
}

// The line of a step.
#[tactic(auto, unfolding(crate::specs::Undo::undo_text))]
fn put_step(into: &mut [u8; 8192], at: usize, number: u8, undo: &Undo) -> usize
    requires fits { at + 334 ≤ 8192 }
    requires number { number ≤ 15 }
    requires step { IsStep undo.now }
    ensures short { result ≤ at + 334 }
    ensures text { take result into.new ≡ take at into.old ++ line (step_key number) (undo_text undo.now) }
{
    let at = put(into, at, &step_key(number));
    let at = put(into, at, b"=");
    let at = put(into, at, kind_text(undo));
    let at = put_values(into, at, undo);
    put(into, at, b"\n")
}

// The lines of steps.
fn put_steps(into: &mut [u8; 8192], at: usize, steps: &[Undo]) -> usize
    requires fits { at ≤ 100 }
    requires few { length steps.now ≤ 16 }
    requires steps { All IsStep steps.now }
    ensures short { result ≤ at + 5344 }
    ensures text { take result into.new ≡ take at into.old ++ step_lines 0 steps.now }
{
    let mut end = at;
    let mut number = 0;
    for step in steps {
        end = put_step(into, end, number, step);
        number += 1;
    }
    end
}

fn state_text(state: TaskState) -> &'static [u8]
    ensures text { result.now ≡ state_text state }
    ensures short { length result.now ≤ 6 }
{
    match state {
        TaskState::Open => b"OPEN",
        TaskState::Done => b"DONE",
        TaskState::Undone => b"UNDONE",
    }
}

fn verb_text(verb: VerbName) -> &'static [u8]
    ensures text { result.now ≡ verb_text verb }
    ensures short { length result.now ≤ 13 }
{
    match verb {
        VerbName::Create => b"create",
        VerbName::Snapshot => b"snapshot",
        VerbName::DeleteVolume => b"delete-volume",
        VerbName::DeleteImage => b"delete-image",
        VerbName::Copy => b"copy",
        VerbName::Extend => b"extend",
        VerbName::Describe => b"describe",
        VerbName::AddDomain => b"add-domain",
    }
}

// A line of a key and a value, both short.
fn put_line(into: &mut [u8; 8192], at: usize, key: &[u8], value: &[u8]) -> usize
    requires fits { at + length key.now + length value.now + 2 ≤ 8192 }
    ensures end { result ≡ at + length key.now + length value.now + 2 }
    ensures text { take result into.new ≡ take at into.old ++ line key.now value.now }
{
    let at = put(into, at, key);
    let at = put(into, at, b"=");
    let at = put(into, at, value);
    put(into, at, b"\n")
}

impl Task {
    /// Writes the task's text from the buffer's start on, and gives its length in bytes. The task has at most 16 steps,
    /// and none where it isn't open; each capacity and each word of a description is one that a script line can have.
    #[tactic(auto, unfolding(crate::specs::TaskText::text_of))]
    pub fn write_into(&self, into: &mut [u8; 8192]) -> usize
        requires { IsTask self.now }
        ensures len { result ≡ length (text_of self.now) }
        ensures short { result ≤ 8192 }
        ensures text { take result into.new ≡ text_of self.now }
    {
        let at = put_line(into, 0, b"STATE", state_text(self.state));
        let at = put_steps(into, at, self.steps.as_slice());
        let at = put_line(into, at, b"VERB", verb_text(self.verb));
        put(into, at, b"EOF\n")
    }
}
