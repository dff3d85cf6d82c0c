//! A front that waits until doors have sent answers.

ghost use Rattle.std.specs.Prelude.{None};

use client_request::Fault;
use dns_base::NoMemory;
use forward_run::{Front, FrontDeed, ListFront};
use forward_workers::{Door, ListDoor};
use front_peers::{FrontOut, FrontWhat};
use resolv_conf::ServerConf;
use std::sync::atomic::{AtomicU64, Ordering};
use std::thread;

/// How often a front looks whether doors have sent what it waits for.
const LOOKS: u64 = 100_000_000;

/// A door that counts the answers that it sends, together with others.
#[derive(Drop)]
pub struct CountedDoor<'a> {
    pub over: ListDoor,
    pub sent: &'a AtomicU64,
}

impl<'a> Door for CountedDoor<'a> {
    ghost deeds = { λ _. None };

    fn wait(&mut self) -> Result<(), NoMemory> {
        self.over.wait()
    }

    fn has_come(&self) -> bool {
        self.over.has_come()
    }

    fn take(&mut self) -> Result<Option<FrontWhat>, NoMemory> {
        self.over.take()
    }

    fn answer(&mut self, out: &FrontOut) -> Result<(), NoMemory> {
        self.over.answer(out)?;
        self.sent.fetch_add(1, Ordering::SeqCst);
        Ok(())
    }

    fn wake(&mut self) {}

    fn flush(&mut self) {}
}

/// A front that waits until so many answers were sent.
#[derive(Drop)]
pub struct PatientFront<'a> {
    pub over: ListFront,
    pub sent: &'a AtomicU64,
    pub awaited: u64,
}

impl<'a> PatientFront<'a> {
    pub fn deeds(&self) -> &[FrontDeed] {
        self.over.deeds()
    }
}

impl<'a> Front for PatientFront<'a> {
    ghost deeds = { λ _. None };

    ghost polls = { λ f. f.over.polls };

    ghost faults = { λ f. f.over.faults };

    fn listen(&mut self, port: u16) -> Result<(), Fault> {
        self.over.listen(port)
    }

    fn learn_server(&mut self, server: &ServerConf) -> Result<(), NoMemory> {
        self.over.learn_server(server)
    }

    fn act(&mut self, out: &FrontOut) -> Result<(), NoMemory> {
        self.over.act(out)
    }

    fn poll(&mut self) -> Result<Option<FrontWhat>, NoMemory> {
        self.over.poll()
    }

    fn wait(&mut self, _most: u128) {
        for _ in 0..LOOKS {
            if self.sent.load(Ordering::SeqCst) >= self.awaited {
                return;
            }
            thread::yield_now();
        }
    }
}
