// How far the session has come.
ghost use Rattle.std.specs.Prelude.{◌≡◌, Some, None, if◌then◌else◌};
ghost use Rattle.pool_session.specs.Machine.{same_id};

use crate::image::Image;
use crate::request::Request;
use sd_names::Id;

/// The stage that a session has reached: the next line has to ask for what it waits for.
#[derive(Clone, Copy, Debug)]
pub enum Stage {
    /// The host is off.
    Off,
    /// The host is up.
    Up,
    /// The pool of this domain is made.
    Pooled(Id),
    /// The host manages the pool of this domain.
    Managed(Id),
    /// The image is made.
    Created(Image),
    /// The image is open.
    Opened(Image),
    /// The disk has failed while the folders of this domain were made.
    MakePoolStopped(Id),
    /// The disk has failed while this image was made.
    CreateStopped(Image),
    /// The disk has failed in a write or a read of this image.
    Stopped(Image),
}

/// What a request comes to at the stage that waits for it.
#[derive(Clone, Copy, Debug)]
pub enum Act {
    Boot,
    MakePool(Id),
    SpmStart(Id),
    Create(Image),
    Open(Image),
    /// Writes the bytes that stand beside it, from an offset on.
    Write(Image, u64),
    /// Reads so many bytes, from an offset on.
    Read(Image, u64, u32),
}

impl Stage {
    ghost use Rattle.std.specs.Prelude.{◌≡◌, List, ℕ, IfSome};
    ghost use Rattle.pool_session.specs.Request.{IsSound};
    ghost use Rattle.pool_session.specs.Machine.{act_of, IsSoundAct};

    /// What a request comes to, if the stage waits for it and it names the same domain and image.
    pub fn act(&self, request: &Request) -> Option<Act>
        ensures act { result ≡ act_of self.now request.now }
        ensures sound { (bytes : List ℕ) → IsSound request.now bytes → IfSome result (λ act. IsSoundAct act bytes) }
    {
        match (self, request) {
            (Stage::Off, Request::Boot) => Some(Act::Boot),
            (Stage::Up, Request::MakePool(sd)) => Some(Act::MakePool(*sd)),
            (Stage::Pooled(known), Request::SpmStart(sd)) => {
                if sd == known {
                    Some(Act::SpmStart(*known))
                } else {
                    None
                }
            }
            (Stage::Managed(known), Request::Create(image)) => create_in(known, image),
            (Stage::Created(known), Request::Open(sd, image)) => {
                if known.is_named(sd, image) {
                    Some(Act::Open(*known))
                } else {
                    None
                }
            }
            (Stage::Opened(known), Request::Write(sd, image, at)) => {
                if known.is_named(sd, image) {
                    Some(Act::Write(*known, *at))
                } else {
                    None
                }
            }
            (Stage::Opened(known), Request::Read(sd, image, at, count)) => {
                if known.is_named(sd, image) {
                    Some(Act::Read(*known, *at, *count))
                } else {
                    None
                }
            }
            _ => None,
        }
    }
}

/// Making an image comes to something in its own domain alone.
fn create_in(known: &Id, image: &Image) -> Option<Act>
    ensures { result ≡ (if same_id image.now.sd known.now then Some (Act.Create (record image.now { sd = known.now })) else None) }
{
    if image.sd != *known {
        return None;
    }
    Some(Act::Create(Image {
        sd: *known,
        image: image.image,
        volume: image.volume,
        capacity: image.capacity,
    }))
}
