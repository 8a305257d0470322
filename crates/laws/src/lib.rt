// Laws over whole texts, apart from how a text is read.
#![tactic(auto)]

ghost use Rattle.laws.specs.Breaks.{LineBreaks};
ghost use Rattle.laws.specs.Counts.{FaultsCounted};
ghost use Rattle.laws.specs.Endings.{OneRefusal};
ghost use Rattle.laws.specs.Headings.{HeadersHold};
ghost use Rattle.laws.specs.LineTable.{LineTable};
ghost use Rattle.laws.specs.Origins.{MessagesName};
ghost use Rattle.laws.specs.Outside.{LinesOutside};
ghost use Rattle.laws.specs.Readings.{RecordsAreReadings};
ghost use Rattle.laws.specs.TableTexts.{TablesRead};
ghost use Rattle.laws.specs.Tables.{BodyLines};
ghost use Rattle.laws.specs.Unreadable.{UnreadableRefused};

// Lines outside messages that are no continuation give nothing, and neither does what follows a refusal up to the next opening.
pub fn lines_outside_add_nothing()
    ensures { LinesOutside }
{}

// A message comes to records and then at most one refusal.
pub fn one_refusal_a_message()
    ensures { OneRefusal }
{}

// A body line of a table starts from the opening's terms, whatever stood on the lines before it.
pub fn body_lines_start_anew()
    ensures { BodyLines }
{}

// So does each body line of a text's table, whose header is its opening line and the continuations behind that.
pub fn tables_read_from_their_opening()
    ensures { TablesRead }
{}

// Each reading of a text of which nothing is refused comes to one record, and each record of one reading.
pub fn records_are_readings()
    ensures { RecordsAreReadings }
{}

// A text has no more faults than lines, so their count is exact.
pub fn faults_are_counted()
    ensures { FaultsCounted }
{}

// A body line of a table is never refused for the sake of a header that was read, though its items meet other terms there.
pub fn headers_never_fail_again()
    ensures { HeadersHold }
{}

// What a line comes to goes by one table of the stages of reading and the kinds of line.
pub fn lines_go_by_a_table()
    ensures { LineTable }
{}

// An opening, a continuation inside a message or a body line without a first dot that may not be read is refused for that, whatever
// stands in it; any other line that may not be read does what one of its kind does.
pub fn unreadable_lines_are_refused_first()
    ensures { UnreadableRefused }
{}

// The records of a message have the station and the source that its opening and its body lines name, the opening's revision, and
// the marks of one series or none.
pub fn messages_name_their_records()
    ensures { MessagesName }
{}

// A .A or .E message of which nothing is refused comes to the records of its items, on whatever line they stand.
pub fn messages_run_over_lines()
    ensures { LineBreaks }
{}
