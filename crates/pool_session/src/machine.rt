// The machine of a session: it answers one line after the other over a disk.
ghost use Rattle.std.specs.Prelude.{◌≡◌, ◌≤◌, ◌+◌, ◌/◌, ◌%◌, ℕ, List, Some, length, take, IfNone, MatchResult};
ghost use Rattle.shared_disk.specs.Content.{Content};
ghost use Rattle.shared_disk.specs.Calls.{IsAligned, IsPiece};
ghost use Rattle.shared_disk.specs.Step.{ResultFaults};
ghost use Rattle.pool_session.specs.Fault.{IsFault};
ghost use Rattle.pool_session.specs.Image.{HoldsFlat, ReadsFlat, file_of};
ghost use Rattle.shared_disk.specs.Calls.{IsSame, Told};
ghost use Rattle.raw_layer.specs.Raw.{ReadsFile};
ghost use Rattle.pool_session.specs.Machine.{part_refusal};

use crate::folders::make_folders;
use crate::image::Image;
use crate::request::asked;
use crate::stage::{Act, Stage};
use script_lines::{Line, Reply};
use sd_names::{HostId, Id, Payload, Refusal};
use shared_disk::SharedDisk;

/// The one host of a session, and the stage that it has reached.
#[derive(Drop)]
pub struct Machine {
    pub host: HostId,
    pub stage: Stage,
    ghost first: { host ≡ 1 },
}

impl Machine {
    ghost use Rattle.std.specs.Prelude.{◌≡◌, ◌≤◌, [], Ok, Err, ℕ, List, false, length, IfSome, IfOk, IsSome, MatchResult};
    ghost use Rattle.sd_names.specs.declared.id.Id.{Id};
    ghost use Rattle.script_lines.specs.Event.{event_by};
    ghost use Rattle.pool_session.specs.Answer.{IsPrintable, answer_in, is_refusal};
    ghost use Rattle.pool_session.specs.AnyDisk.{ActsOn, AnswersOn};
    ghost use Rattle.pool_session.specs.Capacity.{IsCapacity};
    ghost use Rattle.pool_session.specs.Folders.{HasNoFolder};
    ghost use Rattle.pool_session.specs.Machine.{due_of, ActsAt, AnswersAt, IsSoundAct};
    ghost use Rattle.pool_session.specs.Request.{asked_of};
    ghost use Rattle.pool_session.specs.declared.request.Request.TheVariants.{MakePool};

    /// The machine before the first line: host 1, which is off.
    pub fn new() -> Option<Machine>
        ensures known { IsSome result }
        ensures stage { IfSome result (λ machine. machine.stage ≡ Stage.Off) }
    {
        let host = HostId::new(1)?;
        Some(Machine {
            host,
            stage: Stage::Off,
        })
    }

    /// Answers a line that isn't silent. What a read hands out stands at the front of the room, which has 65,536 bytes. A
    /// `make-pool` that is done has found no folder of its domain, whatever the disk holds. What each line does over a disk that
    /// holds anything, `any` says.
    pub fn answer<D: SharedDisk>(&mut self, line: &Line<'_>, room: &mut [u8], disk: &mut D) -> Reply
        requires room { length room.old ≡ 65536 }
        ensures printable { IsPrintable result room.new }
        ensures count { D.faults disk.old ≤ D.faults disk.new }
        ensures new { (sd : Id) → asked_of (event_by line.now) ≡ Ok (MakePool sd, []) → is_refusal result ≡ false → HasNoFolder sd (D.content disk.old) }
        ensures any { AnswersOn D.content self.old.stage (asked_of (event_by line.now)) disk.old (answer_in result room.new) self.new.stage disk.new }
        ensures content { AnswersAt (D.content disk.old) (D.content disk.new) self.old.stage self.new.stage (D.faults disk.old) (D.faults disk.new)
            (asked_of (event_by line.now)) (answer_in result room.new) }
    {
        match self.due(line) {
            Ok((act, bytes)) => self.run(act, bytes, room, disk),
            Err(refusal) => Reply::Refused(refusal),
        }
    }

    // What a line comes to at this stage, and the bytes that it writes, or why it is refused.
    fn due<'a>(&self, line: &Line<'a>) -> Result<(Act, &'a [u8]), Refusal>
        ensures due { MatchResult result
            (λ due. due_of self.now.stage (asked_of (event_by line.now)) ≡ Ok (due.0, due.1.now))
            (λ refusal. due_of self.now.stage (asked_of (event_by line.now)) ≡ Err refusal) }
        ensures sound { IfOk result (λ due. IsSoundAct due.0 due.1.now) }
    {
        let (request, bytes) = asked(line)?;
        match self.stage.act(&request) {
            Some(act) => Ok((act, bytes)),
            None => Err(Refusal::NotBuilt),
        }
    }

    // Does what is due, with the bytes that it writes.
    fn run<D: SharedDisk>(&mut self, act: Act, bytes: &[u8], room: &mut [u8], disk: &mut D) -> Reply
        requires sound { IsSoundAct act bytes.now }
        requires room { length room.old ≡ 65536 }
        ensures printable { IsPrintable result room.new }
        ensures count { D.faults disk.old ≤ D.faults disk.new }
        ensures new { (sd : Id) → act ≡ Act.MakePool sd → is_refusal result ≡ false → HasNoFolder sd (D.content disk.old) }
        ensures any { ActsOn D.content act bytes.now disk.old (answer_in result room.new) self.new.stage disk.new }
        ensures content { ActsAt (D.content disk.old) (D.content disk.new) self.old.stage self.new.stage (D.faults disk.old) (D.faults disk.new)
            act bytes.now (answer_in result room.new) }
    {
        match act {
            Act::Boot => {
                self.stage = Stage::Up;
                Reply::Plain
            }
            Act::MakePool(sd) => self.make_pool(sd, disk),
            Act::SpmStart(sd) => {
                self.stage = Stage::Managed(sd);
                Reply::Done(Payload::SpmStart(1))
            }
            Act::Create(image) => self.create(image, disk),
            Act::Open(image) => {
                self.stage = Stage::Opened(image);
                Reply::Done(Payload::Open {
                    reading: image.volume,
                    capacity: image.capacity,
                })
            }
            Act::Write(image, at) => self.write(image, at, bytes, disk),
            Act::Read(image, at, count) => self.read(image, at, count, room, disk),
        }
    }

    fn make_pool<D: SharedDisk>(&mut self, sd: Id, disk: &mut D) -> Reply
        ensures printable { (room : List ℕ) → IsPrintable result room }
        ensures count { D.faults disk.old ≤ D.faults disk.new }
        ensures new { is_refusal result ≡ false → HasNoFolder sd (D.content disk.old) }
        ensures any { (bytes room : List ℕ) → ActsOn D.content (Act.MakePool sd) bytes disk.old (answer_in result room) self.new.stage disk.new }
        ensures content { (bytes room : List ℕ) → ActsAt (D.content disk.old) (D.content disk.new) self.old.stage self.new.stage (D.faults disk.old) (D.faults disk.new)
            (Act.MakePool sd) bytes (answer_in result room) }
    {
        match make_folders(self.host, sd, disk) {
            Ok(()) => {
                self.stage = Stage::Pooled(sd);
                Reply::Done(Payload::MakePool)
            }
            Err(refusal) => {
                self.stage = Stage::MakePoolStopped(sd);
                Reply::Refused(refusal)
            }
        }
    }

    fn create<D: SharedDisk>(&mut self, image: Image, disk: &mut D) -> Reply
        requires { IsCapacity image.capacity }
        ensures printable { (room : List ℕ) → IsPrintable result room }
        ensures count { D.faults disk.old ≤ D.faults disk.new }
        ensures any { (bytes room : List ℕ) → ActsOn D.content (Act.Create image) bytes disk.old (answer_in result room) self.new.stage disk.new }
        ensures content { (bytes room : List ℕ) → ActsAt (D.content disk.old) (D.content disk.new) self.old.stage self.new.stage (D.faults disk.old) (D.faults disk.new)
            (Act.Create image) bytes (answer_in result room) }
    {
        match image.create(self.host, disk) {
            Ok(()) => {
                self.stage = Stage::Created(image);
                Reply::Done(Payload::Create)
            }
            Err(refusal) => {
                self.stage = Stage::CreateStopped(image);
                Reply::Refused(refusal)
            }
        }
    }

    fn write<D: SharedDisk>(&mut self, image: Image, at: u64, part: &[u8], disk: &mut D) -> Reply
        requires some { 1 ≤ length part.now }
        requires most { length part.now ≤ 65536 }
        ensures printable { (room : List ℕ) → IsPrintable result room }
        ensures count { D.faults disk.old ≤ D.faults disk.new }
        ensures any { (room : List ℕ) → ActsOn D.content (Act.Write image at) part.now disk.old (answer_in result room) self.new.stage disk.new }
        ensures content { (room : List ℕ) → ActsAt (D.content disk.old) (D.content disk.new) self.old.stage self.new.stage (D.faults disk.old) (D.faults disk.new)
            (Act.Write image at) part.now (answer_in result room) }
    {
        if let Some(refusal) = part_refusal(at, part.len(), image.capacity) {
            self.stage = Stage::Opened(image);
            return Reply::Refused(refusal);
        }
        match image.write(self.host, at, part, disk) {
            Ok(()) => {
                self.stage = Stage::Opened(image);
                Reply::Done(Payload::Write)
            }
            Err(refusal) => {
                self.stage = Stage::Stopped(image);
                Reply::Refused(refusal)
            }
        }
    }

    fn read<D: SharedDisk>(
        &mut self,
        image: Image,
        at: u64,
        count: u32,
        room: &mut [u8],
        disk: &mut D,
    ) -> Reply
        requires some { 1 ≤ count }
        requires most { count ≤ 65536 }
        requires room { length room.old ≡ 65536 }
        ensures printable { IsPrintable result room.new }
        ensures count { D.faults disk.old ≤ D.faults disk.new }
        ensures any { (bytes : List ℕ) → ActsOn D.content (Act.Read image at count) bytes disk.old (answer_in result room.new) self.new.stage disk.new }
        ensures content { (bytes : List ℕ) → ActsAt (D.content disk.old) (D.content disk.new) self.old.stage self.new.stage (D.faults disk.old) (D.faults disk.new)
            (Act.Read image at count) bytes (answer_in result room.new) }
    {
        let length = count as usize;
        if let Some(refusal) = part_refusal(at, length, image.capacity) {
            self.stage = Stage::Opened(image);
            return Reply::Refused(refusal);
        }
        match read_front(&image, self.host, at, length, room, disk) {
            Ok(()) => {
                self.stage = Stage::Opened(image);
                Reply::Done(Payload::Read { length: count })
            }
            Err(refusal) => {
                self.stage = Stage::Stopped(image);
                Reply::Refused(refusal)
            }
        }
    }
}

/// Reads so many bytes of an image from an offset on to the front of some room.
fn read_front<D: SharedDisk>(
    image: &Image,
    host: HostId,
    at: u64,
    count: usize,
    room: &mut [u8],
    disk: &mut D,
) -> Result<(), Refusal>
    requires aligned { IsAligned at }
    requires piece { IsPiece count }
    requires within { at + count ≤ image.now.capacity }
    requires room { count ≤ length room.old }
    ensures count { D.faults disk.old ≤ D.faults disk.new }
    ensures faults { ResultFaults (D.faults disk.old) (D.faults disk.new) result }
    ensures read { MatchResult result
        (λ _. Told (D.content disk.old) (D.content disk.new) (λ d e. IsSame d e × ReadsFile d host (file_of image.now) (at / 512) (take count room.new)))
        (λ _. Told (D.content disk.old) (D.content disk.new) IsSame) }
    ensures content { (d : Content) (flat : ℕ → List ℕ) → D.content disk.old ≡ Some d → HoldsFlat image.now flat d
        → (D.content disk.new ≡ Some d)
        × MatchResult result (λ _. ReadsFlat (at / 512) flat (take count room.new)) (λ refusal. IsFault (D.faults disk.old) (D.faults disk.new) refusal) }
{
    let (front, _) = room.split_at_mut(count);
    image.read(host, at, front, disk)
}

/// Why a part of so many bytes from an offset on is refused: it doesn't lie on sectors of 512 bytes, or its end is past the
/// capacity.
fn part_refusal(at: u64, count: usize, capacity: u64) -> Option<Refusal>
    ensures refusal { result ≡ part_refusal at count capacity }
    ensures fits { IfNone result ((at % 512 ≡ 0) × (count % 512 ≡ 0) × (at + count ≤ capacity)) }
{
    let count = count as u64;
    if at % 512 != 0 || count % 512 != 0 {
        return Some(Refusal::Unaligned(at, count));
    }
    match at.checked_add(count) {
        Some(end) if end <= capacity => None,
        Some(end) => Some(Refusal::OutOfRange(end, capacity)),
        None => Some(Refusal::OutOfRange(u64::MAX, capacity)),
    }
}
