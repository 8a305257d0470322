// Laws of records.
ghost use Rattle.record.specs.Validity.{OneRecord, RecordsValid};

// Every record has a valid entry.
pub fn records_valid()
    ensures { RecordsValid }
{}

// A record is nothing but its entry.
pub fn entries_tell_records()
    ensures { OneRecord }
{}
