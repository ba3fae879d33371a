//! Laws of records: what a record tells of the history that it was written of.
#![tactic(auto)]

ghost use Rattle.record_laws.specs.Determines.{RecordsDetermine};

// A record spells one history: its table of clients as a map, and its entries in order.
pub fn record_determines()
    ensures { RecordsDetermine }
{}
