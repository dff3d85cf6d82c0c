//! An operation on a resolver of its own.

ghost use Rattle.std.specs.Fn.{FnOnceReturnsAtMut};
ghost use Rattle.stub_resolver.specs.Making.{IsDone, IsNew, ByFile};

use crate::stub::StubResolver;
use client_core::{Clock, Edge};
use client_request::{Error, Words};
use resolv_conf::{OpenFile, ResolvConf};
use std::alloc::Global;

impl<E: Edge + Drop, C: Clock + Drop, W: Words + Drop> StubResolver<E, C, W> {
    /// Makes a resolver of the servers of a configuration, and does something with it, on the caller's thread. Where there is no
    /// memory for it, the answer is what `NoMemory` becomes.
    pub fn run_with_conf<T, F: From<Error>, P: FnOnce(&mut StubResolver<E, C, W>) -> Result<T, F>>(
        alloc: Global,
        conf: ResolvConf,
        edge: E,
        clock: C,
        words: W,
        op: P,
    ) -> Result<T, F>
        requires { P.IsAlwaysCallable op }
        ensures { IsDone (IsNew E.deeds E.waits E.polls E.faults conf edge clock words) (FnOnceReturnsAtMut P.FnOnce op) (F.from_gives Error.NoMemory) result }
    {
        let mut resolver = StubResolver::from_conf(alloc, conf, edge, clock, words)?;
        op(&mut resolver)
    }

    /// The same with the servers that `/etc/resolv.conf` names.
    pub fn run<
        O: OpenFile,
        T,
        F: From<Error>,
        P: FnOnce(&mut StubResolver<E, C, W>) -> Result<T, F>,
    >(alloc: Global, opener: &mut O, edge: E, clock: C, words: W, op: P) -> Result<T, F>
        requires { P.IsAlwaysCallable op }
        ensures { IsDone (ByFile E.deeds E.waits E.polls E.faults (O.files opener.old) (O.faults opener.old) (O.faults opener.new) edge clock words) (FnOnceReturnsAtMut P.FnOnce op) (F.from_gives Error.NoMemory) result }
    {
        let mut resolver = StubResolver::new(alloc, opener, edge, clock, words)?;
        op(&mut resolver)
    }
}
