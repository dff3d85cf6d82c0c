//! What holds of every record.

ghost use Rattle.dns_record.specs.Laws.{RecordLaw};

/// What a recorder wrote is a script of the first of the client's rows, whose replay gives them, and at most the first of one more
/// line behind it.
pub fn record_law()
    ensures { RecordLaw }
{}
