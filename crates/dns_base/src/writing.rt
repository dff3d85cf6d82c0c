//! Questions and records, written with their names compressed (RFC 1035 4.1.2 and 4.1.3).

ghost use Rattle.std.specs.Prelude.{◌≡◌, ◌<◌, ◌^◌, length, OnOk, IsTrue};
ghost use Rattle.dns_names.specs.Name.{IsLegal};
ghost use Rattle.dns_base.specs.Compression as spec;
ghost use Rattle.dns_base.specs.Data.{data_size, is_of_type};
ghost use Rattle.dns_base.specs.Entries.{question_of, record_of};
ghost use Rattle.dns_base.specs.Holding.{IsAskable, IsWritable, IsWritableData};
ghost use Rattle.dns_base.specs.RecordData.{data_view};
ghost use Rattle.dns_base.specs.declared.record_data.RecordData.{RecordData};

use crate::compressor::Compressor;
use crate::record_data::RecordData;
use dns_names::ParsedName;
use dns_values::{Class, NoMemory, Rtype, Ttl};

impl Compressor {
    /// Appends a question.
    #[tactic(auto, using(crate::proofs::Compressing::continues_on, crate::proofs::Compressing::continues_same), unfolding(crate::specs::Compression::with_question))]
    pub(crate) fn put_question(
        &mut self,
        name: &ParsedName<'_>,
        rtype: Rtype,
        class: Class,
    ) -> Result<(), NoMemory>
        ensures ok { OnOk result (self.new ≡ spec.with_question (question_of name.now rtype class) self.old) }
        ensures kept { spec.Continues self.old self.new }
        ensures askable { OnOk result (IsAskable (question_of name.now rtype class)) }
    {
        self.take_in()?;
        self.put_name(name)?;
        self.put_u16(rtype.0)?;
        self.put_u16(class.0)
    }
}

impl Compressor {
    /// Appends data, with its names compressed where its type lets them be.
    #[tactic(auto, using(crate::proofs::Compressing::continues_on), unfolding(crate::specs::Compression::with_data, crate::specs::Compression::with_numbers))]
    fn put_data(&mut self, rdata: &RecordData<'_>) -> Result<(), NoMemory>
        ensures ok { OnOk result (self.new ≡ spec.with_data (data_view rdata.now) self.old) }
        ensures kept { spec.Continues self.old self.new }
        ensures writable { OnOk result (IsWritableData (data_view rdata.now)) }
    {
        match rdata {
            RecordData::Ns(name)
            | RecordData::Md(name)
            | RecordData::Mf(name)
            | RecordData::Cname(name)
            | RecordData::Mb(name)
            | RecordData::Mg(name)
            | RecordData::Mr(name)
            | RecordData::Ptr(name) => self.put_name(name),
            RecordData::Minfo(first, second) => {
                self.put_name(first)?;
                self.put_name(second)
            }
            RecordData::Mx(preference, exchange) => {
                self.put_u16(*preference)?;
                self.put_name(exchange)
            }
            RecordData::Soa {
                mname,
                rname,
                serial,
                refresh,
                retry,
                expire,
                minimum,
            } => {
                self.put_name(mname)?;
                self.put_name(rname)?;
                self.put_u32(serial.0)?;
                self.put_u32(refresh.0)?;
                self.put_u32(retry.0)?;
                self.put_u32(expire.0)?;
                self.put_u32(minimum.0)
            }
            RecordData::A(_)
            | RecordData::Aaaa(_)
            | RecordData::Dname(_)
            | RecordData::Srv { .. }
            | RecordData::Named { .. }
            | RecordData::Txt(_)
            | RecordData::Opt(_)
            | RecordData::Other(_) => self.put_spelled(rdata),
        }
    }

    /// Appends a record's fields before the length of its data.
    #[tactic(auto, using(crate::proofs::Compressing::continues_on), unfolding(crate::specs::Compression::with_fields))]
    fn put_fields(
        &mut self,
        owner: &ParsedName<'_>,
        rtype: Rtype,
        class: Class,
        ttl: Ttl,
    ) -> Result<(), NoMemory>
        ensures ok { (rdata : RecordData) → OnOk result (self.new ≡ spec.with_fields (record_of owner.now rtype class ttl rdata) self.old) }
        ensures kept { spec.Continues self.old self.new }
        ensures owner { IsLegal owner.now }
        ensures ranges { OnOk result ((rtype.0 < 2 ^ 16) × (class.0 < 2 ^ 16) × (ttl.0 < 2 ^ 32)) }
    {
        self.put_name(owner)?;
        self.put_u16(rtype.0)?;
        self.put_u16(class.0)?;
        self.put_u32(ttl.0)
    }

    /// Appends data behind its length.
    fn put_counted_data(&mut self, rdata: &RecordData<'_>) -> Result<(), NoMemory>
        requires { data_size (data_view rdata.now) < 65536 }
        ensures ok { OnOk result (self.new ≡ spec.with_counted_data (data_view rdata.now) self.old) }
        ensures kept { spec.Continues self.old self.new }
        ensures writable { OnOk result (IsWritableData (data_view rdata.now)) }
    {
        let at = self.len();
        self.put_u16(0)?;
        self.put_data(rdata)?;
        self.put_count(at);
        Ok(())
    }

    /// Appends a record.
    #[tactic(auto, using(crate::proofs::Compressing::continues_on, crate::proofs::Compressing::continues_same), unfolding(crate::specs::Compression::with_record))]
    pub(crate) fn put_record(
        &mut self,
        owner: &ParsedName<'_>,
        rtype: Rtype,
        class: Class,
        ttl: Ttl,
        rdata: &RecordData<'_>,
    ) -> Result<(), NoMemory>
        requires typed { IsTrue (is_of_type rtype.0 (data_view rdata.now)) }
        requires short { data_size (data_view rdata.now) < 65536 }
        ensures ok { OnOk result (self.new ≡ spec.with_record (record_of owner.now rtype class ttl rdata.now) self.old) }
        ensures kept { spec.Continues self.old self.new }
        ensures writable { OnOk result (IsWritable (record_of owner.now rtype class ttl rdata.now)) }
    {
        self.take_in()?;
        self.put_fields(owner, rtype, class, ttl)?;
        self.put_counted_data(rdata)
    }
}
