//! What two requests share where one result may serve both.

ghost use Rattle.std.specs.Prelude.{◌≡◌, ◌==◌, IfOk};
ghost use Rattle.std.specs.Cmp.Lexicographic.{pointwise};
ghost use Rattle.dns_names.specs.Name.{lowered, spelling};
ghost use Rattle.right_trace.specs.Keys as keys;
ghost use Rattle.cache_rules.specs.Key.{flag_class, class_in, class_number, key_asking, key_in, same_key, same_key_laws, same_key_partly, key_octets, key_hash, same_key_hash};

use dns_base::{Class, Header, Message, Name, NoMemory, Opcode, Question, Rtype, ToName};
use std::alloc::Global;
use std::hash::{Hash, Hasher};
use std::marker::Model;

/// What a request asks of DNSSEC (RFC 4035 3.2.1, RFC 6840 5.7).
#[derive(Clone, Copy, Debug, PartialEq, Eq, Hash)]
pub enum AdDo {
    /// DNSSEC records: DO is set in its OPT record.
    Do,
    /// Whether the data is authentic: AD is set, and DO is not.
    Ad,
    /// Neither.
    None,
}

impl AdDo {
    /// The class of a request with this header and this DO.
    pub fn of(header: Header, dnssec_ok: bool) -> AdDo
        ensures { flag_class result ≡ class_in header dnssec_ok }
    {
        if dnssec_ok {
            AdDo::Do
        } else if header.ad() {
            AdDo::Ad
        } else {
            AdDo::None
        }
    }

    /// A number of its own.
    fn number(self) -> u8
        ensures { result ≡ class_number (flag_class self) }
    {
        match self {
            AdDo::Do => 0,
            AdDo::Ad => 1,
            AdDo::None => 2,
        }
    }
}

/// Whether records of this type sign others or deny their being there: RRSIG, NSEC and NSEC3 (RFC 4034 3, 4; RFC 5155 3).
pub fn is_signing(rtype: Rtype) -> bool
    ensures { result ≡ keys.is_signing rtype.0 }
{
    rtype == Rtype::RRSIG || rtype == Rtype::NSEC || rtype == Rtype::NSEC3
}

/// The name of a question in lower case.
fn name_in_lower_case(alloc: Global, question: &Question<'_>) -> Result<Name, NoMemory>
    ensures { IfOk result (λ name. name ≡ lowered question.now.name) }
{
    let mut name = question.qname().to_name(alloc)?;
    name.lower();
    Ok(name)
}

/// What is asked, as far as a result depends on it. Two keys are the same but for the case of names.
#[derive(Debug, Drop)]
pub struct Key {
    /// In lower case, so that keys are compared and hashed by their octets.
    qname: Name,
    qclass: Class,
    qtype: Rtype,
    addo: AdDo,
    cd: bool,
    rd: bool,
}

impl Model for Key {
    ghost Value = { keys.Key };

    ghost view = { λ k. record {
      name = k.qname;
      rtype = k.qtype.0;
      class = k.qclass.0;
      flags = flag_class k.addo;
      cd = k.cd;
      rd = k.rd;
    } };

    ghost invariant = { λ k. lowered k.qname ≡ k.qname };
}

impl Key {
    /// The key of a request of which this message is composed, with this DO. None exactly where its results are not
    /// kept: its opcode is not QUERY, or the message has no only question of class IN that is read.
    pub fn of(
        alloc: Global,
        message: &Message,
        header: Header,
        dnssec_ok: bool,
    ) -> Result<Option<Key>, NoMemory>
        ensures { IfOk result (λ k. k ≡ key_in header dnssec_ok message.now) }
    {
        Key::asking(alloc, message.sole_question().ok(), header, dnssec_ok)
    }

    /// The key of a request for this question, with this header and this DO. None exactly where its results are not
    /// kept: its opcode is not QUERY, or there is no question of class IN.
    #[tactic(auto, using(crate::proofs::LowerNames::lowered_low))]
    pub fn asking(
        alloc: Global,
        question: Option<Question<'_>>,
        header: Header,
        dnssec_ok: bool,
    ) -> Result<Option<Key>, NoMemory>
        ensures { IfOk result (λ k. k ≡ key_asking header dnssec_ok question.entry) }
    {
        if header.opcode() != Opcode::QUERY {
            return Ok(None);
        }
        let Some(question) = question else {
            return Ok(None);
        };
        if question.qclass() != Class::IN {
            return Ok(None);
        }
        Ok(Some(Key {
            qname: name_in_lower_case(alloc, &question)?,
            qclass: question.qclass(),
            qtype: question.qtype(),
            addo: AdDo::of(header, dnssec_ok),
            cd: header.cd(),
            rd: header.rd(),
        }))
    }

    /// The name that is asked for, in lower case.
    pub fn qname(&self) -> &Name
        ensures name { result.now ≡ self.now.name }
        ensures lower_case { lowered result.now ≡ self.now.name }
    {
        &self.qname
    }

    /// The class of the records that are asked for.
    pub fn qclass(&self) -> Class
        ensures { result.0 ≡ self.now.class }
    {
        self.qclass
    }

    /// Their type.
    pub fn qtype(&self) -> Rtype
        ensures { result.0 ≡ self.now.rtype }
    {
        self.qtype
    }

    /// What is asked of DNSSEC.
    pub fn addo(&self) -> AdDo
        ensures { flag_class result ≡ self.now.flags }
    {
        self.addo
    }

    /// Whether checking is disabled.
    pub fn cd(&self) -> bool
        ensures { result ≡ self.now.cd }
    {
        self.cd
    }

    /// Whether recursion is desired.
    pub fn rd(&self) -> bool
        ensures { result ≡ self.now.rd }
    {
        self.rd
    }

    /// The same question, asked with other flags.
    pub fn set_addo(&mut self, addo: AdDo)
        ensures { self.new ≡ record self.old { flags = flag_class addo } }
    {
        self.addo = addo;
    }

    /// The same question, asked with or without recursion.
    pub fn set_rd(&mut self, rd: bool)
        ensures { self.new ≡ record self.old { rd = rd } }
    {
        self.rd = rd;
    }

    /// All of it but its name.
    fn to_octets(&self) -> [u8; 8]
        ensures { result ≡ key_octets self.now }
    {
        let [t1, t0] = self.qtype.0.to_be_bytes();
        let [c1, c0] = self.qclass.0.to_be_bytes();
        [
            t1,
            t0,
            c1,
            c0,
            self.addo.number(),
            u8::from(self.cd),
            u8::from(self.rd),
            0,
        ]
    }

    /// The same key.
    pub fn try_clone(&self, alloc: Global) -> Result<Key, NoMemory>
        ensures { IfOk result (λ k. k ≡ self.now) }
    {
        let qname = self.qname.try_clone(alloc)?;
        Ok(Key { qname, ..*self })
    }
}

/// Whether two names have the same octets.
#[tactic(auto, using(crate::proofs::LowerNames::same_octets))]
fn is_spelled_alike(first: &Name, second: &Name) -> bool
    ensures { result ≡ pointwise (pointwise ◌==◌) first.now second.now }
{
    first.as_octets() == second.as_octets()
}

impl PartialEq for Key {
    ghost eq = { same_key };

    ghost laws = { same_key_partly };

    fn eq(&self, other: &Key) -> bool {
        is_spelled_alike(&self.qname, &other.qname)
            && self.qtype == other.qtype
            && self.qclass == other.qclass
            && self.addo.number() == other.addo.number()
            && self.cd == other.cd
            && self.rd == other.rd
    }
}

impl Eq for Key {
    ghost laws = { same_key_laws };
}

impl Hash for Key {
    ghost hash_input = { key_hash };

    ghost respects_eq = { same_key_hash };

    fn hash<H: Hasher>(&self, state: &mut H) {
        state.write(&self.to_octets());
        state.write(self.qname.as_octets());
    }
}
