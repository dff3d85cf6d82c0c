//! A socket in memory.

ghost use Rattle.std.specs.Prelude.{◌≡◌, [], None, Some, length, IfOk};
ghost use Rattle.socket_places.specs.declared.socket.Deal.{Deal};
ghost use Rattle.socket_places.specs.Told.{IsWithin, after_one};

use crate::socket::{Answer, Deal, Socket};
use dns_values::{NoMemory, Octets, Seq};
use std::alloc::Global;
use std::collections::VecDeque;
use std::marker::Model;

/// A socket that answers by three lists, call by call, and keeps what was done with it.
///
/// Past their ends it opens, takes all octets, and has none to give. It takes no more octets than it is handed, whatever its list
/// says. Its descriptor is the number with which it was made.
#[derive(Drop)]
pub struct ListSocket {
    alloc: Global,
    descriptor: i32,
    openings: VecDeque<Answer<()>>,
    puts: VecDeque<Answer<usize>>,
    takes: VecDeque<Answer<Octets>>,
    deals: Seq<Deal>,
}

impl Model for ListSocket {
    ghost use Rattle.socket_places.specs.Lists.{SocketInMemory};

    ghost Value = { SocketInMemory };

    ghost view = { λ s. record { descriptor = s.descriptor; deals = s.deals } };
}

impl ListSocket {
    /// A socket with which nothing was done.
    pub fn new(
        alloc: Global,
        descriptor: i32,
        openings: Vec<Answer<()>>,
        puts: Vec<Answer<usize>>,
        takes: Vec<Answer<Octets>>,
    ) -> ListSocket
        ensures { result ≡ record { descriptor = descriptor; deals = [] } }
    {
        ListSocket {
            alloc,
            descriptor,
            openings: VecDeque::from(openings),
            puts: VecDeque::from(puts),
            takes: VecDeque::from(takes),
            deals: Seq::new(alloc),
        }
    }

    /// The same socket, with which nothing was done.
    pub fn fresh(self) -> ListSocket
        ensures { result ≡ record { descriptor = self.descriptor; deals = [] } }
    {
        ListSocket {
            deals: Seq::new(self.alloc),
            ..self
        }
    }

    /// What was done with it, in order.
    pub fn deals(&self) -> &[Deal]
        ensures { result.now ≡ self.now.deals }
    {
        self.deals.as_slice()
    }
}

/// The answer, once more.
fn copy_of_opened(answer: &Answer<()>) -> Answer<()>
    ensures { result ≡ answer.now }
{
    match answer {
        Answer::Done(()) => Answer::Done(()),
        Answer::Failed(fault) => Answer::Failed(*fault),
        Answer::Later => Answer::Later,
    }
}

/// The answer, once more.
fn copy_of_put(answer: &Answer<usize>) -> Answer<usize>
    ensures { result ≡ answer.now }
{
    match answer {
        Answer::Done(count) => Answer::Done(*count),
        Answer::Failed(fault) => Answer::Failed(*fault),
        Answer::Later => Answer::Later,
    }
}

/// The answer, of no more octets than there are.
fn within(most: usize, answer: Answer<usize>) -> Answer<usize>
    ensures { IsWithin most result }
{
    match answer {
        Answer::Done(count) => Answer::Done(count.min(most)),
        _ => answer,
    }
}

/// The answer, once more.
fn copy_of_took(answer: &Answer<Octets>) -> Result<Answer<Octets>, NoMemory>
    ensures { IfOk result (λ copy. copy ≡ answer.now) }
{
    match answer {
        Answer::Done(octets) => Ok(Answer::Done(octets.try_clone()?)),
        Answer::Failed(fault) => Ok(Answer::Failed(*fault)),
        Answer::Later => Ok(Answer::Later),
    }
}

impl Socket for ListSocket {
    ghost deals = { λ s. Some s.deals };

    ghost number = { λ s. Some s.descriptor };

    fn descriptor(&self) -> i32 {
        self.descriptor
    }

    fn opened(&mut self) -> Result<Answer<()>, NoMemory> {
        let answer = self.openings.pop_front().unwrap_or(Answer::Done(()));
        self.deals.push(Deal::Opened {
            answer: copy_of_opened(&answer),
        })?;
        Ok(answer)
    }

    fn put(&mut self, octets: &[u8]) -> Result<Answer<usize>, NoMemory> {
        let most = octets.len();
        let answer = within(most, self.puts.pop_front().unwrap_or(Answer::Done(most)));
        self.deals.push(Deal::Put {
            octets: Octets::from_slice(self.alloc, octets)?,
            answer: copy_of_put(&answer),
        })?;
        Ok(answer)
    }

    fn take(&mut self, _alloc: Global, _buf: &mut [u8]) -> Result<Answer<Octets>, NoMemory> {
        let answer = self.takes.pop_front().unwrap_or(Answer::Later);
        self.deals.push(Deal::Took {
            answer: copy_of_took(&answer)?,
        })?;
        Ok(answer)
    }
}
