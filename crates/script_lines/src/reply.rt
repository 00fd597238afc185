// The text of a reply, pushed into reserved room.
ghost use Rattle.std.specs.Prelude.{◌≡◌, ◌+◌, ◌*◌, ◌%◌, ◌≤◌, ◌++◌, [], ◌∷◌, length, map, vec_capacity, decimal};
ghost use Rattle.sd_names.specs.Id.{id_text};
ghost use Rattle.script_lines.specs.Printed.{printed};
ghost use Rattle.script_lines.specs.Reply.{spaced, done_text, answer_word, state_text, task_word, payload_words, outcome_words, reply_text, IsBounded, IsBoundedPayload};

use crate::push_data;
use sd_names::{
    Answers, Id, Payload, Refusal, TaskState, push_all, push_id, push_number, push_refusal,
};

/// Room in which every reply fits, in bytes.
pub const REPLY_ROOM: usize = 200_000;

/// What a line is answered.
#[derive(Drop)]
pub enum Reply {
    /// `ok`, to a boot or to a host that went down.
    Plain,
    /// `ok` and what the verb's reply carries.
    Done(Payload),
    /// `begun`
    Begun,
    /// `more`
    More,
    /// `refused` and why.
    Refused(Refusal),
}

/// Pushes the reply to the line of a number, from 1, with its line end, into reserved room. `bytes` are those that
/// a read handed out: whole sectors of 512 bytes, at most 65,536 bytes.
pub fn push_reply(text: &mut Vec<u8>, line: u64, reply: &Reply, bytes: &[u8])
    requires room { length text.old.items + REPLY_ROOM ≤ vec_capacity text.old }
    requires whole { length bytes.now % 512 ≡ 0 }
    requires short { length bytes.now ≤ 65536 }
    requires bounded { IsBounded reply.now }
    ensures items { text.new.items ≡ text.old.items ++ reply_text line reply.now bytes.now }
    ensures len { length text.new.items ≤ length text.old.items + REPLY_ROOM }
    ensures capacity { vec_capacity text.old ≤ vec_capacity text.new }
{
    push_number(text, line);
    push_outcome(text, reply, bytes);
    push_all(text, b"\n");
}

/// Pushes the words of a reply, each behind a space.
fn push_outcome(text: &mut Vec<u8>, reply: &Reply, bytes: &[u8])
    requires room { length text.old.items + 198000 ≤ vec_capacity text.old }
    requires whole { length bytes.now % 512 ≡ 0 }
    requires short { length bytes.now ≤ 65536 }
    requires bounded { IsBounded reply.now }
    ensures items { text.new.items ≡ text.old.items ++ spaced (outcome_words reply.now bytes.now) }
    ensures len { length text.new.items ≤ length text.old.items + 198000 }
    ensures capacity { vec_capacity text.old ≤ vec_capacity text.new }
{
    match reply {
        Reply::Plain => push_word(text, b"ok"),
        Reply::Done(payload) => {
            push_word(text, b"ok");
            push_payload(text, payload, bytes);
        }
        Reply::Begun => push_word(text, b"begun"),
        Reply::More => push_word(text, b"more"),
        Reply::Refused(refusal) => {
            push_word(text, b"refused");
            push_all(text, b" ");
            push_refusal(text, refusal);
        }
    }
}

/// Pushes the words that a verb's reply carries, each behind a space.
fn push_payload(text: &mut Vec<u8>, payload: &Payload, bytes: &[u8])
    requires room { length text.old.items + 197000 ≤ vec_capacity text.old }
    requires whole { length bytes.now % 512 ≡ 0 }
    requires short { length bytes.now ≤ 65536 }
    requires bounded { IsBoundedPayload payload.now }
    ensures items { text.new.items ≡ text.old.items ++ spaced (payload_words payload.now bytes.now) }
    ensures len { length text.new.items ≤ length text.old.items + 197000 }
    ensures capacity { vec_capacity text.old ≤ vec_capacity text.new }
{
    match payload {
        Payload::MakePool => {}
        Payload::SpmStart(lver) => push_number_word(text, *lver),
        Payload::SpmStop => {}
        Payload::AddDomain => {}
        Payload::Create => {}
        Payload::Snapshot => {}
        Payload::DeleteVolume => {}
        Payload::DeleteImage => {}
        Payload::Copy => {}
        Payload::Extend => {}
        Payload::Describe => {}
        Payload::Open { reading, capacity } => push_volume(text, reading, *capacity),
        Payload::Close => {}
        Payload::Read { length: _ } => push_read(text, bytes),
        Payload::Write => {}
        Payload::PrepareMerge => {}
        Payload::Merge(generation) => push_number_word(text, u64::from(*generation)),
        Payload::FinalizeMerge => {}
        Payload::LiveStart { front, end } => push_numbers(text, *front, *end),
        Payload::LiveFill { front, end } => push_numbers(text, *front, *end),
        Payload::LiveSync(generation) => push_number_word(text, u64::from(*generation)),
        Payload::LivePivot => {}
        Payload::BoxPost(slot) => push_number_word(text, *slot as u64),
        Payload::BoxServe { done, fail } => {
            push_numbers(text, u64::from(*done), u64::from(*fail))
        }
        Payload::BoxCollect(answers) => push_collected(text, answers),
        Payload::Tasks(tasks) => {
            push_number_word(text, tasks.len() as u64);
            push_tasks(text, tasks.as_slice());
        }
        Payload::ClearTask => {}
        Payload::Recover(count) => push_number_word(text, u64::from(*count)),
    }
}

/// Pushes a short word behind a space.
fn push_word(text: &mut Vec<u8>, word: &[u8])
    requires room { length text.old.items + 8 ≤ vec_capacity text.old }
    requires short { length word.now ≤ 7 }
    ensures items { text.new.items ≡ text.old.items ++ 32 ∷ word.now }
    ensures len { length text.new.items ≤ length text.old.items + 8 }
    ensures capacity { vec_capacity text.old ≤ vec_capacity text.new }
{
    push_all(text, b" ");
    push_all(text, word);
}

/// Pushes a number behind a space.
fn push_number_word(text: &mut Vec<u8>, number: u64)
    requires { length text.old.items + 21 ≤ vec_capacity text.old }
    ensures items { text.new.items ≡ text.old.items ++ 32 ∷ decimal number }
    ensures len { length text.new.items ≤ length text.old.items + 21 }
    ensures capacity { vec_capacity text.old ≤ vec_capacity text.new }
{
    push_all(text, b" ");
    push_number(text, number);
}

/// Pushes two numbers, each behind a space.
fn push_numbers(text: &mut Vec<u8>, first: u64, second: u64)
    requires { length text.old.items + 42 ≤ vec_capacity text.old }
    ensures items { text.new.items ≡ text.old.items ++ spaced (decimal first ∷ decimal second ∷ []) }
    ensures len { length text.new.items ≤ length text.old.items + 42 }
    ensures capacity { vec_capacity text.old ≤ vec_capacity text.new }
{
    push_number_word(text, first);
    push_number_word(text, second);
}

/// Pushes a volume and its capacity, each behind a space.
fn push_volume(text: &mut Vec<u8>, volume: &Id, capacity: u64)
    requires { length text.old.items + 58 ≤ vec_capacity text.old }
    ensures items { text.new.items ≡ text.old.items ++ spaced (id_text volume.now.0 ∷ decimal capacity ∷ []) }
    ensures len { length text.new.items ≤ length text.old.items + 58 }
    ensures capacity { vec_capacity text.old ≤ vec_capacity text.new }
{
    push_all(text, b" ");
    push_id(text, volume);
    push_number_word(text, capacity);
}

/// Pushes the bytes of a read behind a space.
fn push_read(text: &mut Vec<u8>, bytes: &[u8])
    requires room { length text.old.items + 1 + 3 * length bytes.now ≤ vec_capacity text.old }
    requires whole { length bytes.now % 512 ≡ 0 }
    ensures items { text.new.items ≡ text.old.items ++ 32 ∷ printed bytes.now }
    ensures len { length text.new.items ≤ length text.old.items + 1 + 3 * length bytes.now }
    ensures capacity { vec_capacity text.old ≤ vec_capacity text.new }
{
    push_all(text, b" ");
    push_data(text, bytes);
}

/// Pushes what a mailbox answered, each answer behind a space.
fn push_collected(text: &mut Vec<u8>, answers: &Answers)
    requires { length text.old.items + 1638 ≤ vec_capacity text.old }
    ensures items { text.new.items ≡ text.old.items ++ spaced (map answer_word answers.now) }
    ensures len { length text.new.items ≤ length text.old.items + 1638 }
    ensures capacity { vec_capacity text.old ≤ vec_capacity text.new }
{
    // The contract of the count says that there are at most 63.
    let _count = answers.len();
    push_answers(text, answers.as_slice());
}

/// Pushes answers from the mailbox, each behind a space.
fn push_answers(text: &mut Vec<u8>, answers: &[(u32, bool)])
    requires { length text.old.items + 26 * length answers.now ≤ vec_capacity text.old }
    ensures items { text.new.items ≡ text.old.items ++ spaced (map answer_word answers.now) }
    ensures len { length text.new.items ≤ length text.old.items + 26 * length answers.now }
    ensures capacity { vec_capacity text.old ≤ vec_capacity text.new }
{
    for answer in answers {
        push_answer(text, answer.0, answer.1);
    }
}

/// Pushes one answer from the mailbox behind a space.
fn push_answer(text: &mut Vec<u8>, mark: u32, done: bool)
    requires { length text.old.items + 26 ≤ vec_capacity text.old }
    ensures items { text.new.items ≡ text.old.items ++ 32 ∷ answer_word (mark, done) }
    ensures len { length text.new.items ≤ length text.old.items + 26 }
    ensures capacity { vec_capacity text.old ≤ vec_capacity text.new }
{
    push_number_word(text, u64::from(mark));
    push_all(text, done_text(done));
}

/// Whether an answer from the mailbox was done.
fn done_text(done: bool) -> &'static [u8]
    ensures text { result.now ≡ done_text done }
    ensures short { length result.now ≡ 5 }
{
    if done { b":done" } else { b":fail" }
}

/// Pushes tasks, each behind a space.
fn push_tasks(text: &mut Vec<u8>, tasks: &[(Id, TaskState)])
    requires { length text.old.items + 44 * length tasks.now ≤ vec_capacity text.old }
    ensures items { text.new.items ≡ text.old.items ++ spaced (map task_word tasks.now) }
    ensures len { length text.new.items ≤ length text.old.items + 44 * length tasks.now }
    ensures capacity { vec_capacity text.old ≤ vec_capacity text.new }
{
    for task in tasks {
        push_task(text, &task.0, task.1);
    }
}

/// Pushes one task behind a space.
fn push_task(text: &mut Vec<u8>, task: &Id, state: TaskState)
    requires { length text.old.items + 44 ≤ vec_capacity text.old }
    ensures items { text.new.items ≡ text.old.items ++ 32 ∷ task_word (task.now, state) }
    ensures len { length text.new.items ≤ length text.old.items + 44 }
    ensures capacity { vec_capacity text.old ≤ vec_capacity text.new }
{
    push_all(text, b" ");
    push_id(text, task);
    push_all(text, state_text(state));
}

/// What has become of a task.
fn state_text(state: TaskState) -> &'static [u8]
    ensures text { result.now ≡ state_text state }
    ensures short { length result.now ≤ 7 }
{
    match state {
        TaskState::Open => b":open",
        TaskState::Done => b":done",
        TaskState::Undone => b":undone",
    }
}
