//! Clients that stop inside a block, after each number of its commands.

/// A block of client 2, how many of its commands it says before it stops, and the places of the report.
pub type Row = (&'static str, usize, &'static str);

/// A pop of the one message, after each number of its commands.
pub fn pops() -> [Row; 6] {
    let pop = "begin 2 pop celery\n";
    [
        (pop, 0, in_list()),
        (pop, 1, lost()),
        (pop, 2, lost()),
        (pop, 3, lost()),
        (pop, 4, lost()),
        (pop, 5, unacked()),
    ]
}

/// An acknowledgement of the message that was popped.
pub fn acknowledgements() -> [Row; 5] {
    let ack = "begin 2 pop celery\nrun 2\nbegin 2 ack 7:1\n";
    [
        (ack, 0, unacked()),
        (ack, 1, unacked()),
        (ack, 2, unacked()),
        (ack, 3, unacked()),
        (ack, 4, ended()),
    ]
}

/// A pass that finds the message overdue, which another client popped: its ninth command is the EXEC of the return.
pub fn passes() -> [Row; 15] {
    let pass = "begin 1 pop celery\nrun 1\nat 3600\nbegin 2 pass 3600\n";
    [
        (pass, 0, unacked()),
        (pass, 1, unacked()),
        (pass, 2, unacked()),
        (pass, 3, unacked()),
        (pass, 4, unacked()),
        (pass, 5, unacked()),
        (pass, 6, unacked()),
        (pass, 7, unacked()),
        (pass, 8, unacked()),
        (pass, 9, in_list()),
        (pass, 10, in_list()),
        (pass, 11, in_list()),
        (pass, 12, in_list()),
        (pass, 13, in_list()),
        (pass, 14, in_list()),
    ]
}

/// The message is in its list, still or again.
fn in_list() -> &'static str {
    r#"place 7:1 list celery 0
total list 1 unacked 0 hand 0 ended 0 lost 0 copies 0
"#
}

/// It is lost with its client.
fn lost() -> &'static str {
    r#"place 7:1 lost 2
total list 0 unacked 0 hand 0 ended 0 lost 1 copies 0
"#
}

/// It stands in the table.
fn unacked() -> &'static str {
    r#"place 7:1 unacked
total list 0 unacked 1 hand 0 ended 0 lost 0 copies 0
"#
}

/// It has ended.
fn ended() -> &'static str {
    r#"place 7:1 ended
total list 0 unacked 0 hand 0 ended 1 lost 0 copies 0
"#
}
