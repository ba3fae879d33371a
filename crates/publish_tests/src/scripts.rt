//! Scripts, what comes over a link, and what comes of that.

/// A publication on the empty exchange.
pub const ONE: &str = "celery-publish 1\npublish - celery 0 tasks.add [2,3]\n";

/// A declaration, and a publication on the exchange.
const NAMED: &str = "celery-publish 1\ndeclare ex rk - celery\npublish ex rk 0 tasks.add [2,3]\n";

/// A script, what comes over the link, and how a run ends over it.
pub type Row = (&'static str, &'static [u8], &'static str);

/// Scripts with the replies to them: what follows the last reply stays unread.
pub fn rows_of_replies() -> [Row; 13] {
    [
        ("celery-publish 1", b"", "0 at 0: 1 closed"),
        (ONE, b":1\r\n", "0 at 0: published 7:1\n1 closed"),
        (ONE, b":1\r\n:2\r\n", "0 at 0: published 7:1\n1 closed"),
        (
            ONE,
            b"*3\r\n$7\r\nmessage\r\n$1\r\na\r\n$1\r\nb\r\n:1\r\n",
            "0 at 0: published 7:1\n1 closed",
        ),
        (
            NAMED,
            b":1\r\n*1\r\n$12\r\nrk\x06\x16\x06\x16celery\r\n:1\r\n",
            "0 at 0: published 7:1\n1 closed",
        ),
        (NAMED, b":1\r\n*0\r\n", "0 at 0: no queue 7:1\n1 closed"),
        // an answer that the block doesn't list
        (
            ONE,
            b"-ERR x\r\n",
            "10 at 0: store refused -\"ERR x\"\n1 closed",
        ),
        (
            NAMED,
            b":1\r\n$-1\r\n",
            "10 at 0: store refused $-\n1 closed",
        ),
        (
            "celery-publish 1\npublish - a 0 t []\npublish - b 0 t []\n",
            b":1\r\n+OK\r\n:1\r\n",
            "10 at 0: published 7:1\nstore refused +OK\n1 closed",
        ),
        // no RESP2, and the link's end, before a reply and amid it
        (ONE, b":007\r\n", "6 at 0: link fault\n1 closed"),
        (ONE, b"", "6 at 0: link fault\n1 closed"),
        (ONE, b":1\r", "6 at 0: link fault\n1 closed"),
        (
            "celery-publish 1\npublish - a 0 t []\npublish - b 0 t []\n",
            b":1\r\n",
            "6 at 0: published 7:1\nlink fault\n1 closed",
        ),
    ]
}

/// Scripts by their first bad line, at least one for each reason; no link is used.
pub fn bad_lines() -> [Row; 17] {
    [
        ("", b"", "3 at 1: bad line 1: header\n0 closed"),
        (
            "celery-schedule 1\n",
            b"",
            "3 at 1: bad line 1: header\n0 closed",
        ),
        (
            "celery-publish 1\n\n",
            b"",
            "3 at 2: bad line 2: syntax\n0 closed",
        ),
        (
            "celery-publish 1\npop celery\n",
            b"",
            "3 at 2: bad line 2: syntax\n0 closed",
        ),
        (
            "celery-publish 1\nundeclare ex rk - celery\n",
            b"",
            "3 at 2: bad line 2: syntax\n0 closed",
        ),
        (
            "celery-publish 1\npublish - celery 256 t []\n",
            b"",
            "3 at 2: bad line 2: syntax\n0 closed",
        ),
        (
            "celery-publish 1\ndeclare - rk - celery\n",
            b"",
            "3 at 2: bad line 2: syntax\n0 closed",
        ),
        (
            "celery-publish 1\neta\n",
            b"",
            "3 at 2: bad line 2: syntax\n0 closed",
        ),
        (
            "celery-publish 1\neta tomorrow\n",
            b"",
            "3 at 2: bad line 2: syntax\n0 closed",
        ),
        (
            "celery-publish 1\nexpires 2024-02-30T00:00:00Z\n",
            b"",
            "3 at 2: bad line 2: syntax\n0 closed",
        ),
        (
            "celery-publish 1\neta 2024-02-28T00:00:00Z \n",
            b"",
            "3 at 2: bad line 2: syntax\n0 closed",
        ),
        (
            "celery-publish 1\neta 2024-02-28T00:00:00Z\npublish - - 0 t []\n",
            b"",
            "3 at 3: bad line 3: name\n0 closed",
        ),
        (
            "celery-publish 1\npublish - unacked 0 t []\n",
            b"",
            "3 at 2: bad line 2: reserved\n0 closed",
        ),
        (
            "celery-publish 1\ndeclare ex rk - unacked\n",
            b"",
            "3 at 2: bad line 2: reserved\n0 closed",
        ),
        (
            "celery-publish 1\npublish - celery 0 t {}\n",
            b"",
            "3 at 2: bad line 2: json\n0 closed",
        ),
        (
            "celery-publish 1\npublish - celery 0 t [1.5]\n",
            b"",
            "3 at 2: bad line 2: json\n0 closed",
        ),
        // nothing is sent of the good line before it
        (
            "celery-publish 1\npublish - celery 0 t []\npublish - celery 0 t [\n",
            b":1\r\n",
            "3 at 3: bad line 3: json\n0 closed",
        ),
    ]
}
