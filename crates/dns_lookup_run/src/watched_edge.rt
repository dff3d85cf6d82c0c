//! An edge, and from whom octets came last.

ghost use Rattle.std.specs.Prelude.{◌≡◌, ◌++◌, [], ◌∷◌, None, Some, map, OnOk, IfOk, option_map};
ghost use Rattle.client_core.specs.Edge.{after_deed, after_fault};
ghost use Rattle.client_core.specs.declared.edge.Deed.{Deed};
ghost use Rattle.dns_values.specs.Source.{one_more};
ghost use Rattle.dns_lookup_run.specs.declared.watched_edge.News.TheVariants as news;
ghost use Rattle.dns_lookup_run.specs.Watched.{as_earlier, at_place, datagram_news, heard_after, heard_at, news_after, news_of, opened_at, sent_at, sent_under, with_out};

use client_core::Edge;
use client_request::{Fault, Out, Via, What};
use dns_base::{Header, NoMemory};
use resolv_conf::ServerConf;
use std::alloc::Global;
use std::marker::Model;

/// A server, by its number, and how it is asked.
#[derive(Clone, Copy, Debug, PartialEq, Eq)]
pub struct Heard {
    /// Its number, from 0 as the configuration lists them.
    pub server: u32,
    /// How it is asked.
    pub via: Via,
}

/// What a place brought last.
#[derive(Clone, Copy)]
pub enum News {
    /// It was asked for an earlier request, and brought nothing since.
    Earlier,
    /// It brought nothing.
    Nothing,
    /// A datagram came with fewer octets than a header has (RFC 1035 4.1.1).
    NoMessage,
    /// A datagram came under another id than what was sent there last.
    OtherId,
    /// A datagram came that was cut (TC).
    Cut,
    /// A datagram came with this code.
    Code(u8),
    /// Octets of a stream came.
    Octets,
    /// A fault came.
    Fault(Fault),
}

/// What a place brought, by its number.
#[derive(Clone, Copy)]
pub struct Tidings {
    pub place: u64,
    pub news: News,
}

/// A place that was to be opened.
#[derive(Clone, Copy)]
pub struct Opened {
    pub place: u64,
    pub heard: Heard,
    /// The id of the datagram that was sent there last.
    pub sent: Option<u16>,
    pub news: News,
}

/// An edge that remembers from whom octets came last. All that is done with it is done with the edge that it is made of.
#[derive(Drop)]
pub struct WatchedEdge<E: Edge + Drop> {
    edge: E,
    opened: Vec<Opened>,
    heard: Option<Heard>,
}

impl<E: Edge + Drop> Model for WatchedEdge<E> {
    ghost use Rattle.dns_lookup_run.specs.Watched.{Seen};

    ghost Value = { Seen E };

    ghost view = { λ w. record { edge = w.edge; opened = w.opened.items; heard = w.heard } };
}

/// A place by its number.
fn opened_at(place: u64, opened: &[Opened]) -> Option<Opened>
    ensures { result ≡ opened_at place opened.now }
{
    for one in opened {
        if one.place == place {
            return Some(*one);
        }
    }
    None
}

/// The server at a place, and how it is asked there.
fn heard_at(place: u64, opened: &[Opened]) -> Option<Heard>
    ensures { result ≡ heard_at place opened.now }
{
    match opened_at(place, opened) {
        Some(one) => Some(one.heard),
        None => None,
    }
}

/// The id of what was sent at a place last.
fn sent_at(place: u64, opened: &[Opened]) -> Option<u16>
    ensures { result ≡ sent_at place opened.now }
{
    match opened_at(place, opened) {
        Some(one) => one.sent,
        None => None,
    }
}

/// What a datagram is that came where one was sent under this id.
fn datagram_news(sent: Option<u16>, octets: &[u8]) -> News
    ensures { result ≡ datagram_news sent octets.now }
{
    let [first, second, third, fourth, _, _, _, _, _, _, _, _, ..] = octets else {
        return News::NoMessage;
    };
    let header = Header::from_octets([*first, *second, *third, *fourth]);
    if sent != Some(header.id()) {
        return News::OtherId;
    }
    if header.tc() {
        return News::Cut;
    }
    News::Code(header.rcode().0)
}

/// News of a place.
fn brought(place: u64, news: News) -> Option<Tidings>
    ensures { result ≡ Some (record { place = place; news = news }) }
{
    Some(Tidings { place, news })
}

/// What a place brought, if something came of one.
fn news_of(what: &What, opened: &[Opened]) -> Option<Tidings>
    ensures { result ≡ news_of what.now opened.now }
{
    match what {
        What::Datagram { place, octets } => brought(
            *place,
            datagram_news(sent_at(*place, opened), octets.as_slice()),
        ),
        What::Bytes { place, .. } => brought(*place, News::Octets),
        What::OpenFailed { place, fault }
        | What::SendFailed { place, fault }
        | What::RecvFailed { place, fault }
        | What::WriteFailed { place, fault }
        | What::ReadFailed { place, fault } => brought(*place, News::Fault(*fault)),
        What::ShortSend { place } => brought(*place, News::Fault(Fault::ShortSend)),
        _ => None,
    }
}

/// A place, with these news if it is theirs.
fn at_place(brought: Tidings, opened: Opened) -> Opened
    ensures { result ≡ at_place brought opened }
{
    if opened.place == brought.place {
        Opened {
            news: brought.news,
            ..opened
        }
    } else {
        opened
    }
}

/// Sets the news of a place.
fn set_news(opened: &mut Vec<Opened>, brought: Tidings)
    ensures { opened.new.items ≡ map (at_place brought) opened.old.items }
{
    for one in opened.iter_mut() {
        *one = at_place(brought, *one);
    }
}

/// A place, with the id of what was sent there, if it is this one.
fn sent_under(place: u64, id: u16, opened: Opened) -> Opened
    ensures { result ≡ sent_under place id opened }
{
    if opened.place == place {
        Opened {
            sent: Some(id),
            ..opened
        }
    } else {
        opened
    }
}

/// Sets the id of what was sent at a place.
fn set_sent(opened: &mut Vec<Opened>, place: u64, id: u16)
    ensures { opened.new.items ≡ map (sent_under place id) opened.old.items }
{
    for one in opened.iter_mut() {
        *one = sent_under(place, id, *one);
    }
}

/// Takes each place for one of an earlier request.
fn set_earlier(opened: &mut Vec<Opened>)
    ensures { opened.new.items ≡ map as_earlier opened.old.items }
{
    for one in opened.iter_mut() {
        one.news = News::Earlier;
    }
}

/// From whom octets came last, with what happened too.
fn heard_after(what: &Option<What>, opened: &[Opened], heard: Option<Heard>) -> Option<Heard>
    ensures { result ≡ heard_after what.now opened.now heard }
{
    match what {
        Some(What::Datagram { place, .. }) => heard_at(*place, opened),
        Some(What::Bytes { place, .. }) => heard_at(*place, opened),
        _ => heard,
    }
}

impl<E: Edge + Drop> WatchedEdge<E> {
    /// The edge, of which no octets were heard yet. It takes no memory.
    pub fn new(alloc: Global, edge: E) -> WatchedEdge<E>
        ensures { result ≡ record { edge = edge; opened = []; heard = None } }
    {
        WatchedEdge {
            edge,
            opened: Vec::new(alloc),
            heard: None,
        }
    }

    /// From whom octets came last, since the last `forget`.
    pub fn heard(&self) -> Option<Heard>
        ensures { result ≡ self.now.heard }
    {
        self.heard
    }

    /// The places that were to be opened, in order, with what each brought last.
    pub(crate) fn opened(&self) -> &[Opened]
        ensures { result.now ≡ self.now.opened }
    {
        &self.opened
    }

    /// Forgets from whom octets came and what places brought, and keeps the places.
    pub fn forget(&mut self)
        ensures { self.new ≡ record self.old { opened = map as_earlier self.old.opened; heard = None } }
    {
        self.heard = None;
        set_earlier(&mut self.opened);
    }

    /// Remembers what a place brought, if something came of one.
    fn remember_news(&mut self, what: &Option<What>)
        ensures { self.new ≡ record self.old { opened = news_after what.now self.old.opened } }
    {
        let Some(what) = what else {
            return;
        };
        if let Some(brought) = news_of(what, &self.opened) {
            set_news(&mut self.opened, brought);
        }
    }

    /// Remembers a place that is opened.
    fn remember_place(&mut self, place: u64, server: u32, via: Via) -> Result<(), NoMemory>
        ensures opened { OnOk result (self.new.opened ≡ self.old.opened ++ record { place = place; heard = record { server = server; via = via }; sent = None; news = news.Nothing } ∷ []) }
        ensures edge { self.new.edge ≡ self.old.edge }
        ensures heard { self.new.heard ≡ self.old.heard }
    {
        let heard = Heard { server, via };
        self.opened.push(Opened {
            place,
            heard,
            sent: None,
            news: News::Nothing,
        })?;
        Ok(())
    }

    /// Remembers the place that an out opens, or the id of the datagram that it sends.
    fn remember(&mut self, out: &Out) -> Result<(), NoMemory>
        ensures opened { OnOk result (self.new.opened ≡ with_out out.now self.old.opened) }
        ensures edge { self.new.edge ≡ self.old.edge }
        ensures heard { self.new.heard ≡ self.old.heard }
    {
        match out {
            Out::OpenDgram { place, server } => self.remember_place(*place, *server, Via::Dgram),
            Out::OpenStream { place, server } => self.remember_place(*place, *server, Via::Stream),
            Out::Send { place, id, .. } => {
                set_sent(&mut self.opened, *place, *id);
                Ok(())
            }
            _ => Ok(()),
        }
    }
}

impl<E: Edge + Drop> Edge for WatchedEdge<E> {
    ghost deeds = { λ w. E.deeds w.edge };

    ghost waits = { λ w. E.waits w.edge };

    ghost polls = { λ w. E.polls w.edge };

    ghost faults = { λ w. E.faults w.edge };

    fn learn_server(&mut self, server: &ServerConf) -> Result<(), NoMemory> {
        self.edge.learn_server(server)
    }

    fn act(&mut self, out: &Out) -> Result<(), NoMemory> {
        self.remember(out)?;
        self.edge.act(out)
    }

    fn poll(&mut self) -> Result<Option<What>, NoMemory>
        ensures deeds { IfOk result (λ what. E.deeds self.new.edge ≡ after_deed (Deed.Polled what) (E.deeds self.old.edge)) }
        ensures waits { E.waits self.new.edge ≡ E.waits self.old.edge }
        ensures polls { OnOk result (E.polls self.new.edge ≡ one_more (E.polls self.old.edge)) }
        ensures faults { IfOk result (λ what. E.faults self.new.edge ≡ after_fault what (E.faults self.old.edge)) }
        ensures heard { IfOk result (λ what. self.new.heard ≡ heard_after what self.old.opened self.old.heard) }
        ensures opened { IfOk result (λ what. self.new.opened ≡ news_after what self.old.opened) }
    {
        let what = self.edge.poll()?;
        self.heard = heard_after(&what, &self.opened, self.heard);
        self.remember_news(&what);
        Ok(what)
    }

    fn wait(&mut self, most: u128) {
        self.edge.wait(most);
    }
}
