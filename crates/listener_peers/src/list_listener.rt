//! Listeners in memory.

ghost use Rattle.std.specs.Prelude.{◌≡◌, [], Some, IfOk};
ghost use Rattle.listener_peers.specs.Doors.{without_value};
ghost use Rattle.socket_places.specs.Told.{IsWithin};

use crate::listener::{DgramListener, Letter, Listener, Post};
use dns_values::{NoMemory, Octets, Seq, SocketAddr};
use socket_places::{Answer, ListSocket};
use std::alloc::Global;
use std::collections::VecDeque;
use std::marker::Model;

/// A listener that accepts the streams of one list, or fails, call by call, and keeps what it answered. Past its end there is none.
pub struct ListListener {
    descriptor: i32,
    streams: VecDeque<Answer<ListSocket>>,
    accepts: Seq<Answer<()>>,
}

impl Drop for ListListener {
    fn drop(self) {
        let ListListener {
            descriptor: _,
            streams: _,
            accepts: _,
        } = self;
    }
}

impl Model for ListListener {
    ghost use Rattle.listener_peers.specs.Lists.{ListenerInMemory};

    ghost Value = { ListenerInMemory };

    ghost view = { λ l. record { descriptor = l.descriptor; accepts = l.accepts } };
}

/// The answer without its stream.
fn without_stream(answer: &Answer<ListSocket>) -> Answer<()>
    ensures { result ≡ without_value answer.now }
{
    match answer {
        Answer::Done(_) => Answer::Done(()),
        Answer::Failed(fault) => Answer::Failed(*fault),
        Answer::Later => Answer::Later,
    }
}

impl ListListener {
    /// A listener of these streams, at which no stream was accepted.
    pub fn new(alloc: Global, descriptor: i32, streams: Vec<Answer<ListSocket>>) -> ListListener
        ensures { result ≡ record { descriptor = descriptor; accepts = [] } }
    {
        ListListener {
            descriptor,
            streams: VecDeque::from(streams),
            accepts: Seq::new(alloc),
        }
    }

    /// What it answered, in order.
    pub fn accepts(&self) -> &[Answer<()>]
        ensures { result.now ≡ self.now.accepts }
    {
        self.accepts.as_slice()
    }
}

impl Listener for ListListener {
    type Stream = ListSocket;

    ghost accepts = { λ l. Some l.accepts };

    ghost number = { λ l. Some l.descriptor };

    fn descriptor(&self) -> i32 {
        self.descriptor
    }

    fn accept(&mut self) -> Result<Answer<ListSocket>, NoMemory> {
        let answer = match self.streams.pop_front() {
            Some(Answer::Done(stream)) => Answer::Done(stream.fresh()),
            Some(answer) => answer,
            None => Answer::Later,
        };
        self.accepts.push(without_stream(&answer))?;
        Ok(answer)
    }
}

/// A socket for datagrams of anyone that gives those of one list, and answers by another what it takes, call by call, and keeps what
/// was done with it. Past their ends it has none to give, and takes all octets. It takes no more octets than it is handed, whatever
/// its list says.
pub struct ListDgrams {
    descriptor: i32,
    letters: VecDeque<Answer<Letter>>,
    sends: VecDeque<Answer<usize>>,
    posts: Seq<Post>,
}

impl Drop for ListDgrams {
    fn drop(self) {
        let ListDgrams {
            descriptor: _,
            letters: _,
            sends: _,
            posts: _,
        } = self;
    }
}

impl Model for ListDgrams {
    ghost use Rattle.listener_peers.specs.Lists.{DgramsInMemory};

    ghost Value = { DgramsInMemory };

    ghost view = { λ l. record { descriptor = l.descriptor; posts = l.posts } };
}

impl Letter {
    /// The same datagram.
    fn try_clone(&self) -> Result<Letter, NoMemory>
        ensures { IfOk result (λ copy. copy ≡ self.now) }
    {
        Ok(Letter {
            from: self.from,
            octets: self.octets.try_clone()?,
        })
    }
}

/// The answer, once more.
fn copy_of_came(answer: &Answer<Letter>) -> Result<Answer<Letter>, NoMemory>
    ensures { IfOk result (λ copy. copy ≡ answer.now) }
{
    match answer {
        Answer::Done(letter) => Ok(Answer::Done(letter.try_clone()?)),
        Answer::Failed(fault) => Ok(Answer::Failed(*fault)),
        Answer::Later => Ok(Answer::Later),
    }
}

/// The answer, of no more octets than there are, and once more.
fn within(most: usize, answer: &Answer<usize>) -> (Answer<usize>, Answer<usize>)
    ensures within { IsWithin most result.0 }
    ensures copy { result.1 ≡ result.0 }
{
    match answer {
        Answer::Done(count) => {
            let count = (*count).min(most);
            (Answer::Done(count), Answer::Done(count))
        }
        Answer::Failed(fault) => (Answer::Failed(*fault), Answer::Failed(*fault)),
        Answer::Later => (Answer::Later, Answer::Later),
    }
}

impl ListDgrams {
    /// A socket of these datagrams, with which nothing was done.
    pub fn new(
        alloc: Global,
        descriptor: i32,
        letters: Vec<Answer<Letter>>,
        sends: Vec<Answer<usize>>,
    ) -> ListDgrams
        ensures { result ≡ record { descriptor = descriptor; posts = [] } }
    {
        ListDgrams {
            descriptor,
            letters: VecDeque::from(letters),
            sends: VecDeque::from(sends),
            posts: Seq::new(alloc),
        }
    }

    /// What was done with it, in order.
    pub fn posts(&self) -> &[Post]
        ensures { result.now ≡ self.now.posts }
    {
        self.posts.as_slice()
    }
}

impl DgramListener for ListDgrams {
    ghost posts = { λ l. Some l.posts };

    ghost number = { λ l. Some l.descriptor };

    fn descriptor(&self) -> i32 {
        self.descriptor
    }

    fn receive(&mut self, _alloc: Global, _buf: &mut [u8]) -> Result<Answer<Letter>, NoMemory> {
        let answer = self.letters.pop_front().unwrap_or(Answer::Later);
        self.posts.push(Post::Came {
            answer: copy_of_came(&answer)?,
        })?;
        Ok(answer)
    }

    fn send(&mut self, to: SocketAddr, octets: &Octets) -> Result<Answer<usize>, NoMemory> {
        let most = octets.as_slice().len();
        let planned = self.sends.pop_front().unwrap_or(Answer::Done(most));
        let (answer, copy) = within(most, &planned);
        self.posts.push(Post::Went {
            to,
            octets: octets.try_clone()?,
            answer: copy,
        })?;
        Ok(answer)
    }
}
