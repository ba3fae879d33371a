//! Words, what comes over links, and what comes of that.

/// What a link gives, by pieces of at most 14 bytes; its call of this number fails.
pub type Incoming = (&'static [u8], u64);

/// A run of `serve`: its words, parted by blanks, two links, and the calls of the net and of the sink that fail; then the
/// status and the place, what was written, and what each closed link sent, each with `|` after it.
#[derive(Drop)]
pub struct Row {
    pub words: &'static str,
    pub links: [Incoming; 2],
    pub net_fails: u64,
    pub sink_fails: u64,
    pub status: u8,
    pub place: u64,
    pub text: &'static str,
    pub sent: &'static str,
}

/// No call has this number.
pub const NEVER: u64 = 1_000_000;

/// A client that says PING, and ends.
const PING: Incoming = (b"*1\r\n$4\r\nPING\r\n", NEVER);

/// A run over two clients that say PING; the net's call of this number fails.
fn pings(
    words: &'static str,
    net_fails: u64,
    status: u8,
    text: &'static str,
    sent: &'static str,
) -> Row {
    Row {
        words,
        links: [PING, PING],
        net_fails,
        sink_fails: NEVER,
        status,
        place: 0,
        text,
        sent,
    }
}

/// The net's call 0 is `listen`, and its k-th `accept` is call k.
pub fn rows_of_nets() -> [Row; 8] {
    [
        pings(
            "serve here --connections 1",
            NEVER,
            0,
            "session 1 ended 1\n",
            "+PONG\r\n|",
        ),
        pings(
            "serve here --connections 2",
            NEVER,
            0,
            "session 1 ended 1\nsession 2 ended 1\n",
            "+PONG\r\n|+PONG\r\n|",
        ),
        pings(
            "serve here --turns 1000000 --connections 1",
            NEVER,
            0,
            "session 1 ended 1\n",
            "+PONG\r\n|",
        ),
        pings(
            "serve here --connections 1 --turns 1",
            NEVER,
            0,
            "session 1 turns 1\n",
            "+PONG\r\n|",
        ),
        pings("serve here --connections 1", 0, 6, "link fault\n", ""),
        pings("serve here --connections 1", 1, 6, "link fault\n", ""),
        pings(
            "serve here --connections 2",
            2,
            6,
            "session 1 ended 1\nlink fault\n",
            "+PONG\r\n|",
        ),
        pings(
            "serve here --connections 4095",
            NEVER,
            6,
            "session 1 ended 1\nsession 2 ended 1\nlink fault\n",
            "+PONG\r\n|+PONG\r\n|",
        ),
    ]
}

/// A run over two clients, the second of which says PING.
fn first(link: Incoming, text: &'static str, sent: &'static str) -> Row {
    Row {
        words: "serve here --connections 2",
        links: [link, PING],
        net_fails: NEVER,
        sink_fails: NEVER,
        status: 0,
        place: 0,
        text,
        sent,
    }
}

/// Sessions that end by what comes over their links.
pub fn rows_of_sessions() -> [Row; 5] {
    [
        first(
            (b"", NEVER),
            "session 1 ended 0\nsession 2 ended 1\n",
            "|+PONG\r\n|",
        ),
        first(
            (b"*1\r\n$4\r\nPING\r\n!", NEVER),
            "session 1 wire 1\nsession 2 ended 1\n",
            "+PONG\r\n|+PONG\r\n|",
        ),
        first(
            (b"*1\r\n$4\r\nPING\r\n:1\r\n", NEVER),
            "session 1 not words 1\nsession 2 ended 1\n",
            "+PONG\r\n|+PONG\r\n|",
        ),
        first(
            (b"*1\r\n$4\r\nPING\r\n*1", NEVER),
            "session 1 link 1\nsession 2 ended 1\n",
            "+PONG\r\n|+PONG\r\n|",
        ),
        first(
            (b"*1\r\n$4\r\nPING\r\n", 0),
            "session 1 link 0\nsession 2 ended 1\n",
            "|+PONG\r\n|",
        ),
    ]
}

/// A run over a client that says PING, of whose sink the write of this number fails, each of nine bytes.
fn cut(sink_fails: u64, words: &'static str, text: &'static str, sent: &'static str) -> Row {
    Row {
        words,
        links: [PING, PING],
        net_fails: NEVER,
        sink_fails,
        status: 5,
        place: 0,
        text,
        sent,
    }
}

/// Sinks that fail within a line of a session, or within the text of a status; no connection is accepted after that.
pub fn rows_of_sinks() -> [Row; 5] {
    [
        cut(0, "serve here --connections 2", "", "+PONG\r\n|"),
        cut(1, "serve here --connections 2", "session 1", "+PONG\r\n|"),
        cut(
            3,
            "serve here --connections 2",
            "session 1 ended 1\nsession 2",
            "+PONG\r\n|+PONG\r\n|",
        ),
        cut(
            4,
            "serve here --connections 3",
            "session 1 ended 1\nsession 2 ended 1\n",
            "+PONG\r\n|+PONG\r\n|",
        ),
        cut(1, "serve", "bad word ", ""),
    ]
}

/// Words with the place of the first bad one, or their count where one is missing.
pub fn bad_words() -> [(&'static str, u64); 30] {
    [
        ("", 0),
        ("replay", 0),
        ("Serve here --connections 1", 0),
        ("serve", 1),
        ("serve --connections 1", 1),
        ("serve -- --connections 1", 1),
        ("serve -here --connections 1", 1),
        ("serve here=there --connections 1", 1),
        ("serve here", 2),
        ("serve here there", 2),
        ("serve here --connection 1", 2),
        ("serve here --connections=1", 2),
        ("serve here --connections", 3),
        ("serve here --connections 0", 3),
        ("serve here --connections 4096", 3),
        ("serve here --connections 01", 3),
        ("serve here --connections +1", 3),
        ("serve here --connections 99999999999999999999", 3),
        ("serve here --turns 0", 3),
        ("serve here --turns 1000001", 3),
        ("serve here --turns 1", 4),
        ("serve here --turns 1 --turns 1", 4),
        ("serve here --connections 1 there", 4),
        ("serve here --connections 1 --connections 1", 4),
        ("serve here --connections 1 --turns", 5),
        ("serve here --turns 1 --connections", 5),
        ("serve here --connections 1 --turns x", 5),
        ("serve here --turns 1 --connections 4096", 5),
        ("serve here --connections 1 --turns 1 there", 6),
        ("serve here --turns 1 --connections 1 --turns 1", 6),
    ]
}

/// A run that ends at its words.
pub fn refused(words: &'static str, place: u64, text: &'static str) -> Row {
    Row {
        words,
        links: [PING, PING],
        net_fails: NEVER,
        sink_fails: NEVER,
        status: 2,
        place,
        text,
        sent: "",
    }
}
