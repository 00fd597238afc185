// The words of the verbs.
ghost use Rattle.std.specs.Prelude.{◌≡◌};
ghost use Rattle.script_lines.specs.VerbWord.{verb_of, pool_verb, volume_verb, guest_verb, merge_verb};

/// A verb of a script, without its arguments.
#[derive(Clone, Copy, Debug)]
pub enum VerbWord {
    /// `make-pool`
    MakePool,
    /// `spm-start`
    SpmStart,
    /// `spm-stop`
    SpmStop,
    /// `add-domain`
    AddDomain,
    /// `create`
    Create,
    /// `snapshot`
    Snapshot,
    /// `delete-volume`
    DeleteVolume,
    /// `delete-image`
    DeleteImage,
    /// `copy`
    Copy,
    /// `extend`
    Extend,
    /// `describe`
    Describe,
    /// `open`
    Open,
    /// `close`
    Close,
    /// `read`
    Read,
    /// `write`
    Write,
    /// `prepare-merge`
    PrepareMerge,
    /// `merge`
    Merge,
    /// `finalize-merge`
    FinalizeMerge,
    /// `live-start`
    LiveStart,
    /// `live-fill`
    LiveFill,
    /// `live-sync`
    LiveSync,
    /// `live-pivot`
    LivePivot,
    /// `box-post`
    BoxPost,
    /// `box-serve`
    BoxServe,
    /// `box-collect`
    BoxCollect,
    /// `tasks`
    Tasks,
    /// `clear-task`
    ClearTask,
    /// `recover`
    Recover,
}

/// The verb of a word, if it is one.
pub fn verb_word(word: &[u8]) -> Option<VerbWord>
    ensures { result ≡ verb_of word.now }
{
    if let Some(verb) = pool_verb(word) {
        return Some(verb);
    }
    if let Some(verb) = volume_verb(word) {
        return Some(verb);
    }
    if let Some(verb) = guest_verb(word) {
        return Some(verb);
    }
    merge_verb(word)
}

/// The verbs of the pool and its tasks.
#[tactic(auto, unfolding(crate::specs::VerbWord::pool_verb))]
fn pool_verb(word: &[u8]) -> Option<VerbWord>
    ensures { result ≡ pool_verb word.now }
{
    if word == b"make-pool".as_slice() {
        return Some(VerbWord::MakePool);
    }
    if word == b"spm-start".as_slice() {
        return Some(VerbWord::SpmStart);
    }
    if word == b"spm-stop".as_slice() {
        return Some(VerbWord::SpmStop);
    }
    if word == b"add-domain".as_slice() {
        return Some(VerbWord::AddDomain);
    }
    if word == b"tasks".as_slice() {
        return Some(VerbWord::Tasks);
    }
    if word == b"clear-task".as_slice() {
        return Some(VerbWord::ClearTask);
    }
    if word == b"recover".as_slice() {
        return Some(VerbWord::Recover);
    }
    None
}

/// The verbs that make or change images under a task.
#[tactic(auto, unfolding(crate::specs::VerbWord::volume_verb))]
fn volume_verb(word: &[u8]) -> Option<VerbWord>
    ensures { result ≡ volume_verb word.now }
{
    if word == b"create".as_slice() {
        return Some(VerbWord::Create);
    }
    if word == b"snapshot".as_slice() {
        return Some(VerbWord::Snapshot);
    }
    if word == b"delete-volume".as_slice() {
        return Some(VerbWord::DeleteVolume);
    }
    if word == b"delete-image".as_slice() {
        return Some(VerbWord::DeleteImage);
    }
    if word == b"copy".as_slice() {
        return Some(VerbWord::Copy);
    }
    if word == b"extend".as_slice() {
        return Some(VerbWord::Extend);
    }
    if word == b"describe".as_slice() {
        return Some(VerbWord::Describe);
    }
    None
}

/// The verbs of a guest and of the mailbox.
#[tactic(auto, unfolding(crate::specs::VerbWord::guest_verb))]
fn guest_verb(word: &[u8]) -> Option<VerbWord>
    ensures { result ≡ guest_verb word.now }
{
    if word == b"open".as_slice() {
        return Some(VerbWord::Open);
    }
    if word == b"close".as_slice() {
        return Some(VerbWord::Close);
    }
    if word == b"read".as_slice() {
        return Some(VerbWord::Read);
    }
    if word == b"write".as_slice() {
        return Some(VerbWord::Write);
    }
    if word == b"box-post".as_slice() {
        return Some(VerbWord::BoxPost);
    }
    if word == b"box-serve".as_slice() {
        return Some(VerbWord::BoxServe);
    }
    if word == b"box-collect".as_slice() {
        return Some(VerbWord::BoxCollect);
    }
    None
}

/// The verbs that merge volumes.
#[tactic(auto, unfolding(crate::specs::VerbWord::merge_verb))]
fn merge_verb(word: &[u8]) -> Option<VerbWord>
    ensures { result ≡ merge_verb word.now }
{
    if word == b"prepare-merge".as_slice() {
        return Some(VerbWord::PrepareMerge);
    }
    if word == b"merge".as_slice() {
        return Some(VerbWord::Merge);
    }
    if word == b"finalize-merge".as_slice() {
        return Some(VerbWord::FinalizeMerge);
    }
    if word == b"live-start".as_slice() {
        return Some(VerbWord::LiveStart);
    }
    if word == b"live-fill".as_slice() {
        return Some(VerbWord::LiveFill);
    }
    if word == b"live-sync".as_slice() {
        return Some(VerbWord::LiveSync);
    }
    if word == b"live-pivot".as_slice() {
        return Some(VerbWord::LivePivot);
    }
    None
}
