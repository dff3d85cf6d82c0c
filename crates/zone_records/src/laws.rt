//! What holds of records and zones.

ghost use Rattle.zone_records.specs.Folding.{ZonesLaw};
ghost use Rattle.zone_records.specs.Held.{HeldLaw};
ghost use Rattle.zone_records.specs.Records.{EqualRecordsLaw};
ghost use Rattle.zone_records.specs.Transfers.{TransfersLaw};

/// Records that are equal by their order are the same record.
pub fn equal_records_law()
    ensures { EqualRecordsLaw }
{}

/// Messages that are read to the end of a transfer are one, and these are its updates. Each transfer is read so, however it is
/// cut into messages; changes alone are not to begin with a message of one record.
pub fn transfers_law()
    ensures { TransfersLaw }
{}

/// Sorted lists of the same records are the same list. So where the changes of a zone lead to the records of another, they lead to
/// the very list that a transfer of the whole other zone gives.
pub fn zones_law()
    ensures { ZonesLaw }
{}

/// A transfer makes a zone of nothing, and of a zone: one SOA, of the apex, and records of one class and of no meta type, whose owners
/// are the apex or below it.
pub fn held_law()
    ensures { HeldLaw }
{}
