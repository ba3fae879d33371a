//! Laws of what records are judged to be.
#![tactic(auto)]

ghost use Rattle.check_laws.specs.Checked.{JudgedOnce, LawfulAreRecords, LawfulAreSound};

// Bytes are judged to be one thing: one history, one bad line with its reason, or the numbers of one full history.
pub fn judged_once()
    ensures { JudgedOnce }
{}

// Bytes that are judged to be the record of a history are its record, of which the last line feed may be missing.
pub fn lawful_records()
    ensures { LawfulAreRecords }
{}

// A history whose record bytes are judged to be is sound: it is legal, and its clients are mannered.
pub fn lawful_sound()
    ensures { LawfulAreSound }
{}
