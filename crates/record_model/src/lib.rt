//! What a record's bytes are judged to be: a history, its first bad line, or a history that was full: definitions.
//!
//! `specs/Said.antt` has what a line says, `specs/Steps.antt` what a row leads to, `specs/Judged.antt` what a whole record
//! does.
#![tactic(auto)]
