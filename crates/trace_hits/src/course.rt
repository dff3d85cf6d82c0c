//! What is known at a point of a trace, and how events and outs go by.

ghost use Rattle.std.specs.Prelude.{◌≡◌, [], OnOk};
ghost use Rattle.trace_hits.specs.Course as plain;
ghost use Rattle.trace_hits.specs.Point as point;

use crate::point::Point;
use crate::replies::Replies;
use client_request::{Event, Out};
use client_settings::cache;
use dns_base::NoMemory;
use std::alloc::Global;

/// What is known at a point of a trace.
pub(crate) struct Course {
    pub point: Point,
    /// The replies that must be given again.
    pub replies: Replies,
}

impl Drop for Course {
    fn drop(self) {
        let Course {
            point: _,
            replies: _,
        } = self;
    }
}

impl Course {
    /// Before the first row.
    pub(crate) fn new(alloc: Global) -> Course
        ensures point { result.point ≡ point.nothing }
        ensures replies { result.replies ≡ [] }
    {
        Course {
            point: Point::new(alloc),
            replies: Replies::new(alloc),
        }
    }

    /// An event comes.
    pub(crate) fn meet(&mut self, alloc: Global, event: &Event) -> Result<(), NoMemory>
        ensures { OnOk result (self.new ≡ plain.met event.now self.old) }
    {
        self.point.meet(alloc, event)
    }

    /// An out is put.
    fn put(&mut self, alloc: Global, cache: &cache::Config, out: &Out) -> Result<(), NoMemory>
        ensures { OnOk result (plain.Puts cache.now out.now self.old self.new) }
    {
        if let Out::Reply { request, result } = out {
            self.replies
                .put(alloc, cache, &self.point, *request, result)?;
        }
        self.point.put(alloc, out)
    }

    /// The outs of a row are put.
    pub(crate) fn put_all(
        &mut self,
        alloc: Global,
        cache: &cache::Config,
        outs: &[Out],
    ) -> Result<(), NoMemory>
        ensures { OnOk result (plain.PutsAll cache.now outs.now self.old self.new) }
    {
        for out in outs {
            self.put(alloc, cache, out)?;
        }
        Ok(())
    }
}
