//! The first four octets of a message, and the counts behind them (RFC 1035 4.1.1).

ghost use Rattle.std.specs.Prelude.{◌≡◌, ◌+◌, ◌≤◌, ◌<◌, ◌++◌, ℕ, List, length, take, drop};
ghost use Rattle.dns_base.specs.Header as spec;
ghost use Rattle.dns_base.specs.Sections as sections;

use crate::numbers::u16_at;
use dns_values::{Opcode, Rcode, Section};
use std::marker::Model;

/// A copy of the id and the flags of a message, its first four octets.
#[derive(Clone, Copy, Debug, PartialEq, Eq)]
pub struct Header {
    octets: [u8; 4],
}

impl Model for Header {
    ghost Value = { List ℕ };

    ghost view = { λ h. h.octets };

    ghost inverse = { λ octets. record { octets = octets } };
}

/// An octet with a bit set or cleared.
fn with_bit(octet: u8, bit: u8, on: bool) -> u8
    ensures { result ≡ spec.with_bit bit on octet }
{
    if on { octet | bit } else { octet & !bit }
}

impl Header {
    /// The header of these octets.
    pub fn from_octets(octets: [u8; 4]) -> Header
        ensures { result ≡ octets }
    {
        Header { octets }
    }

    /// Its four octets.
    pub fn to_octets(&self) -> [u8; 4]
        ensures all { result ≡ self.now }
        ensures four { length self.now ≡ 4 }
    {
        self.octets
    }

    /// Writes it over the first four octets of a message.
    fn write_over(&self, octets: &mut [u8])
        requires { 4 ≤ length octets.old }
        ensures { octets.new ≡ self.now ++ drop 4 octets.old }
    {
        octets[..4].copy_from_slice(&self.octets);
    }

    /// Writes it over the first four octets of a message.
    pub(crate) fn put_over(&self, octets: &mut Vec<u8>)
        requires { 4 ≤ length octets.old.items }
        ensures items { octets.new.items ≡ self.now ++ drop 4 octets.old.items }
        ensures len { length octets.new.items ≡ length octets.old.items }
    {
        self.write_over(octets);
    }

    /// The id, by which an answer is found for its query.
    pub fn id(&self) -> u16
        ensures { result ≡ spec.id_of self.now }
    {
        u16_at(&self.octets, 0)
    }

    /// Sets the id.
    pub fn set_id(&mut self, value: u16)
        ensures { self.new ≡ spec.with_id value self.old }
    {
        self.octets[..2].copy_from_slice(&value.to_be_bytes());
    }

    /// The kind of query.
    pub fn opcode(&self) -> Opcode
        ensures { result.0 ≡ spec.opcode_of self.now }
    {
        Opcode((self.octets[2] >> 3) & 0x0f)
    }

    /// Sets the kind of query to the four low bits of a value.
    pub fn set_opcode(&mut self, value: Opcode)
        ensures { self.new ≡ spec.with_opcode value.0 self.old }
    {
        self.octets[2] = (self.octets[2] & 0x87) | ((value.0 & 0x0f) << 3);
    }

    /// The four bits of the response code.
    pub fn rcode(&self) -> Rcode
        ensures { result.0 ≡ spec.rcode_of self.now }
    {
        Rcode(self.octets[3] & 0x0f)
    }

    /// Sets the response code to the four low bits of a value.
    pub fn set_rcode(&mut self, value: Rcode)
        ensures { self.new ≡ spec.with_rcode value.0 self.old }
    {
        self.octets[3] = (self.octets[3] & 0xf0) | (value.0 & 0x0f);
    }

    /// Whether the message is a response.
    pub fn qr(&self) -> bool
        ensures { result ≡ spec.qr_of self.now }
    {
        self.octets[2] & 0x80 != 0
    }

    /// Says whether the message is a response.
    pub fn set_qr(&mut self, value: bool)
        ensures { self.new ≡ spec.with_qr value self.old }
    {
        self.octets[2] = with_bit(self.octets[2], 0x80, value);
    }

    /// Whether the answer is authoritative.
    pub fn aa(&self) -> bool
        ensures { result ≡ spec.aa_of self.now }
    {
        self.octets[2] & 0x04 != 0
    }

    /// Says whether the answer is authoritative.
    pub fn set_aa(&mut self, value: bool)
        ensures { self.new ≡ spec.with_aa value self.old }
    {
        self.octets[2] = with_bit(self.octets[2], 0x04, value);
    }

    /// Whether the message is truncated.
    pub fn tc(&self) -> bool
        ensures { result ≡ spec.tc_of self.now }
    {
        self.octets[2] & 0x02 != 0
    }

    /// Says whether the message is truncated.
    pub fn set_tc(&mut self, value: bool)
        ensures { self.new ≡ spec.with_tc value self.old }
    {
        self.octets[2] = with_bit(self.octets[2], 0x02, value);
    }

    /// Whether recursion is desired.
    pub fn rd(&self) -> bool
        ensures { result ≡ spec.rd_of self.now }
    {
        self.octets[2] & 0x01 != 0
    }

    /// Says whether recursion is desired.
    pub fn set_rd(&mut self, value: bool)
        ensures { self.new ≡ spec.with_rd value self.old }
    {
        self.octets[2] = with_bit(self.octets[2], 0x01, value);
    }

    /// Whether recursion is available.
    pub fn ra(&self) -> bool
        ensures { result ≡ spec.ra_of self.now }
    {
        self.octets[3] & 0x80 != 0
    }

    /// Says whether recursion is available.
    pub fn set_ra(&mut self, value: bool)
        ensures { self.new ≡ spec.with_ra value self.old }
    {
        self.octets[3] = with_bit(self.octets[3], 0x80, value);
    }

    /// Whether the data is authentic (RFC 4035 3.2.3).
    pub fn ad(&self) -> bool
        ensures { result ≡ spec.ad_of self.now }
    {
        self.octets[3] & 0x20 != 0
    }

    /// Says whether the data is authentic.
    pub fn set_ad(&mut self, value: bool)
        ensures { self.new ≡ spec.with_ad value self.old }
    {
        self.octets[3] = with_bit(self.octets[3], 0x20, value);
    }

    /// Whether checking is disabled (RFC 4035 3.2.2).
    pub fn cd(&self) -> bool
        ensures { result ≡ spec.cd_of self.now }
    {
        self.octets[3] & 0x10 != 0
    }

    /// Says whether checking is disabled.
    pub fn set_cd(&mut self, value: bool)
        ensures { self.new ≡ spec.with_cd value self.old }
    {
        self.octets[3] = with_bit(self.octets[3], 0x10, value);
    }
}

/// How many entries each section of a message has.
#[derive(Clone, Copy, Debug, PartialEq, Eq)]
pub struct HeaderCounts {
    questions: u16,
    answer: u16,
    authority: u16,
    additional: u16,
}

impl Model for HeaderCounts {
    ghost Value = { spec.Counts };

    ghost view = { λ c. record {
      questions = c.questions;
      answer = c.answer;
      authority = c.authority;
      additional = c.additional;
    } };

    ghost inverse = { λ c. record {
      questions = c.questions;
      answer = c.answer;
      authority = c.authority;
      additional = c.additional;
    } };
}

impl HeaderCounts {
    /// The counts of a message.
    pub(crate) fn of(octets: &[u8]) -> HeaderCounts
        requires { 12 ≤ length octets.now }
        ensures { result ≡ spec.counts_of octets.now }
    {
        HeaderCounts {
            questions: u16_at(octets, 4),
            answer: u16_at(octets, 6),
            authority: u16_at(octets, 8),
            additional: u16_at(octets, 10),
        }
    }

    /// No entry in any section.
    pub fn none() -> HeaderCounts
        ensures { result ≡ sections.no_entries }
    {
        HeaderCounts {
            questions: 0,
            answer: 0,
            authority: 0,
            additional: 0,
        }
    }

    /// How many records a section has.
    pub fn records_in(&self, section: Section) -> u16
        ensures { result ≡ sections.entries_in section self.now }
    {
        match section {
            Section::Answer => self.answer,
            Section::Authority => self.authority,
            Section::Additional => self.additional,
        }
    }

    /// Counts a question more.
    pub fn add_question(&mut self)
        requires { self.old.questions < 65535 }
        ensures { self.new ≡ record self.old { questions = self.old.questions + 1 } }
    {
        self.questions += 1;
    }

    /// Counts a record more in a section.
    pub fn add_record(&mut self, section: Section)
        requires { sections.entries_in section self.old < 65535 }
        ensures { self.new ≡ sections.one_more_in section self.old }
    {
        match section {
            Section::Answer => self.answer += 1,
            Section::Authority => self.authority += 1,
            Section::Additional => self.additional += 1,
        }
    }

    /// Writes them over the octets 4 to 11 of a message.
    fn write_over(&self, octets: &mut [u8])
        requires { 12 ≤ length octets.old }
        ensures { octets.new ≡ take 4 octets.old ++ sections.counts_spelling self.now ++ drop 12 octets.old }
    {
        octets[4..12].copy_from_slice(&self.to_octets());
    }

    /// Writes them over the octets 4 to 11 of a message.
    pub(crate) fn put_over(&self, octets: &mut Vec<u8>)
        requires { 12 ≤ length octets.old.items }
        ensures items { octets.new.items ≡ take 4 octets.old.items ++ sections.counts_spelling self.now ++ drop 12 octets.old.items }
        ensures len { length octets.new.items ≡ length octets.old.items }
    {
        self.write_over(octets);
    }

    /// The eight octets of the counts.
    #[tactic(auto, unfolding(crate::specs::Sections::counts_spelling))]
    fn to_octets(&self) -> [u8; 8]
        ensures { result ≡ sections.counts_spelling self.now }
    {
        let [q1, q0] = self.questions.to_be_bytes();
        let [n1, n0] = self.answer.to_be_bytes();
        let [t1, t0] = self.authority.to_be_bytes();
        let [d1, d0] = self.additional.to_be_bytes();
        [q1, q0, n1, n0, t1, t0, d1, d0]
    }

    /// How many questions.
    pub fn qdcount(&self) -> u16
        ensures { result ≡ self.now.questions }
    {
        self.questions
    }

    /// How many records in the answer section.
    pub fn ancount(&self) -> u16
        ensures { result ≡ self.now.answer }
    {
        self.answer
    }

    /// How many records in the authority section.
    pub fn nscount(&self) -> u16
        ensures { result ≡ self.now.authority }
    {
        self.authority
    }

    /// How many records in the additional section.
    pub fn arcount(&self) -> u16
        ensures { result ≡ self.now.additional }
    {
        self.additional
    }
}
