//! Copies of events and outs.

ghost use Rattle.std.specs.Prelude.{◌≡◌, false, IfOk, IsOk};
ghost use Rattle.client_request.specs.Copies.{came_with_octets, has_octets};

use crate::compose::Compose;
use crate::event::{Event, Out, What};
use dns_base::NoMemory;
use std::alloc::Global;

impl What {
    /// The same once more. Where it has no octets, that takes no memory.
    pub fn try_clone(&self, alloc: Global) -> Result<What, NoMemory>
        ensures same { IfOk result (λ copy. copy ≡ self.now) }
        ensures plain { came_with_octets self.now ≡ false → IsOk result }
    {
        match self {
            What::Ask { request } => {
                let request = request.try_clone(alloc)?;
                Ok(What::Ask { request })
            }
            What::Datagram { place, octets } => {
                let octets = octets.try_clone()?;
                Ok(What::Datagram {
                    place: *place,
                    octets,
                })
            }
            What::Bytes { place, octets } => {
                let octets = octets.try_clone()?;
                Ok(What::Bytes {
                    place: *place,
                    octets,
                })
            }
            What::Opened { place } => Ok(What::Opened { place: *place }),
            What::OpenFailed { place, fault } => Ok(What::OpenFailed {
                place: *place,
                fault: *fault,
            }),
            What::SendFailed { place, fault } => Ok(What::SendFailed {
                place: *place,
                fault: *fault,
            }),
            What::ShortSend { place } => Ok(What::ShortSend { place: *place }),
            What::RecvFailed { place, fault } => Ok(What::RecvFailed {
                place: *place,
                fault: *fault,
            }),
            What::Wrote { place, count } => Ok(What::Wrote {
                place: *place,
                count: *count,
            }),
            What::WriteFailed { place, fault } => Ok(What::WriteFailed {
                place: *place,
                fault: *fault,
            }),
            What::ReadFailed { place, fault } => Ok(What::ReadFailed {
                place: *place,
                fault: *fault,
            }),
            What::Ended { place } => Ok(What::Ended { place: *place }),
            What::Tick => Ok(What::Tick),
        }
    }
}

impl Event {
    /// The same once more. Where it has no octets, that takes no memory.
    pub fn try_clone(&self, alloc: Global) -> Result<Event, NoMemory>
        ensures same { IfOk result (λ copy. copy ≡ self.now) }
        ensures plain { came_with_octets self.now.what ≡ false → IsOk result }
    {
        let what = self.what.try_clone(alloc)?;
        Ok(Event {
            moment: self.moment,
            what,
        })
    }
}

impl Out {
    /// The same once more. Where it has no octets, that takes no memory.
    pub fn try_clone(&self) -> Result<Out, NoMemory>
        ensures same { IfOk result (λ copy. copy ≡ self.now) }
        ensures plain { has_octets self.now ≡ false → IsOk result }
    {
        match self {
            Out::Start {
                request,
                server,
                via,
            } => Ok(Out::Start {
                request: *request,
                server: *server,
                via: *via,
            }),
            Out::OpenDgram { place, server } => Ok(Out::OpenDgram {
                place: *place,
                server: *server,
            }),
            Out::OpenStream { place, server } => Ok(Out::OpenStream {
                place: *place,
                server: *server,
            }),
            Out::Send {
                place,
                request,
                id,
                octets,
            } => Ok(Out::Send {
                place: *place,
                request: *request,
                id: *id,
                octets: octets.try_clone()?,
            }),
            Out::Write {
                place,
                request,
                id,
                octets,
            } => Ok(Out::Write {
                place: *place,
                request: *request,
                id: *id,
                octets: octets.try_clone()?,
            }),
            Out::Resume { place, octets } => Ok(Out::Resume {
                place: *place,
                octets: octets.try_clone()?,
            }),
            Out::Close { place } => Ok(Out::Close { place: *place }),
            Out::Stale { request } => Ok(Out::Stale { request: *request }),
            Out::Reply {
                request,
                result: Ok(message),
            } => Ok(Out::Reply {
                request: *request,
                result: Ok(message.try_clone()?),
            }),
            Out::Reply {
                request,
                result: Err(error),
            } => Ok(Out::Reply {
                request: *request,
                result: Err(*error),
            }),
        }
    }
}
