//! Streams for `show`.
//!
//! A row is the status, the place, the text that is written, and the stream, in both of which `\n` is a line feed, `\r` a
//! carriage return, `\xff` a byte by its two digits, and `\(256:q)` so many letters. A row with `#` at its
//! front is a remark.

/// Streams that are shown alike in pieces of any size.
pub fn in_any_pieces() -> &'static str {
    r#"
# Whole values, and where a stream ends.
0 0 |  | 
0 0 | *[$"GET", $"k"]\n | *2\r\n$3\r\nGET\r\n$1\r\nk\r\n
0 0 | +""\n-"ERR a\x5cx01b"\n:0\n:-1\n | +\r\n-ERR a\x01b\r\n:0\r\n:-1\r\n
0 0 | :9223372036854775807\n:-9223372036854775808\n | :9223372036854775807\r\n:-9223372036854775808\r\n
0 0 | $-\n*-\n*[]\n$""\n$"\x5cx0d\x5cx0a"\n | $-1\r\n*-1\r\n*0\r\n$0\r\n\r\n$2\r\n\r\n\r\n
0 0 | *[*[*[*[$-]], :1]]\n | *1\r\n*2\r\n*1\r\n*1\r\n$-1\r\n:1\r\n
0 0 | $"\x5c"\x5c\x5c~\x5cx7f\x5cxff"\n | $5\r\n"\x5c~\x7f\xff\r\n
3 0 | unfinished at 0\n | *2\r\n$3\r\nGET\r\n
3 9 | +"OK"\n:7\nunfinished at 9\n | +OK\r\n:7\r\n$3\r\nab
3 5 | +"OK"\nunfinished at 5\n | +OK\r\n*1\r\n
0 0 | *[*[*[*[:1]]], *[*[*[:2]]]]\n | *2\r\n*1\r\n*1\r\n*1\r\n:1\r\n*1\r\n*1\r\n*1\r\n:2\r\n
0 0 | *[*[*[*[+"a", -"b", :0, $"c", $-]]]]\n | *1\r\n*1\r\n*1\r\n*5\r\n+a\r\n-b\r\n:0\r\n$1\r\nc\r\n$-1\r\n
0 0 | *[*[*[*[], *-, *[:1]]]]\n | *1\r\n*1\r\n*3\r\n*0\r\n*-1\r\n*1\r\n:1\r\n
3 0 | unfinished at 0\n | $1048576\r\n
3 0 | unfinished at 0\n | *4096\r\n
# `examples/replies.resp`, with the text beside it.
0 0 | *[$"GET", $"k"]\n+"OK"\n:-42\n$-\n*-\n-"ERR no \x5c"such\x5c" thing"\n*[*[], $"a\x5c\x5c\x5cx00\x5cxff"]\n | *2\r\n$3\r\nGET\r\n$1\r\nk\r\n+OK\r\n:-42\r\n$-1\r\n*-1\r\n-ERR no "such" thing\r\n*2\r\n*0\r\n$4\r\na\x5c\x00\xff\r\n
# Where a value begins.
3 0 | fault BadKind at 0\n | x
3 0 | fault BadKind at 0\n | \r\n
3 5 | +"OK"\nfault BadKind at 5\n | +OK\r\nx
3 12 | +"OK"\n$"k"\nfault BadKind at 12\n | +OK\r\n$1\r\nk\r\nx
3 4 | fault BadKind at 4\n | *1\r\n\n
3 8 | fault BadKind at 8\n | *2\r\n:1\r\n0
3 16 | fault TooDeep at 16\n | *1\r\n*1\r\n*1\r\n*1\r\n*1\r\n
3 16 | fault TooDeep at 16\n | *1\r\n*1\r\n*1\r\n*1\r\n*-1\r\n
3 16 | fault BadKind at 16\n | *1\r\n*1\r\n*1\r\n*1\r\nq
3 0 | fault BadKind at 0\n | \x00
3 0 | fault BadKind at 0\n | \x80
3 14 | *[]\n*-\n$-\nfault BadKind at 14\n | *0\r\n*-1\r\n$-1\r\nx
3 8 | fault BadKind at 8\n | *1\r\n*1\r\nx
3 12 | fault BadKind at 12\n | *1\r\n*1\r\n*1\r\n\r
3 20 | fault BadKind at 20\n | *1\r\n*1\r\n*1\r\n*2\r\n:1\r\nx
3 20 | fault TooDeep at 20\n | *1\r\n*1\r\n*1\r\n*2\r\n:1\r\n*0\r\n
3 20 | fault BadKind at 20\n | *2\r\n*1\r\n*1\r\n*1\r\n:1\r\nx
3 24 | fault BadKind at 24\n | *5\r\n*0\r\n*-1\r\n$-1\r\n$0\r\n\r\nx
3 12 | fault BadKind at 12\n | *3\r\n+a\r\n-b\r\nx
3 32 | fault TooDeep at 32\n | *2\r\n*1\r\n*1\r\n*1\r\n:1\r\n*1\r\n*1\r\n*1\r\n*
3 21 | +"OK"\nfault TooDeep at 21\n | +OK\r\n*1\r\n*1\r\n*1\r\n*1\r\n*
# In an integer.
3 2 | fault BadInteger at 2\n | :007\r\n
3 1 | fault BadInteger at 1\n | :+5\r\n
3 2 | fault BadInteger at 2\n | :-0\r\n
3 1 | fault BadInteger at 1\n | :\r\n
3 2 | fault BadInteger at 2\n | :-\r\n
3 2 | fault BadInteger at 2\n | :1 \r\n
3 3 | fault BadInteger at 3\n | :-1.\r\n
3 19 | fault BadInteger at 19\n | :9223372036854775808\r\n
3 20 | fault BadInteger at 20\n | :-9223372036854775809\r\n
3 20 | fault BadInteger at 20\n | :92233720368547758070\r\n
3 7 | +"OK"\nfault BadInteger at 7\n | +OK\r\n:1x\r\n
3 1 | fault BadInteger at 1\n | :x
3 1 | fault BadInteger at 1\n | :\n
3 2 | fault BadInteger at 2\n | :--
3 2 | fault BadInteger at 2\n | :0x
3 2 | fault BadInteger at 2\n | :0\n
3 2 | fault BadInteger at 2\n | :1\n
3 3 | fault BadInteger at 3\n | :12a
3 3 | fault BadInteger at 3\n | :-1\n
3 21 | fault BadInteger at 21\n | :-92233720368547758080
3 19 | fault BadInteger at 19\n | :9223372036854775810
3 5 | fault BadInteger at 5\n | *1\r\n:x
3 10 | fault BadInteger at 10\n | *2\r\n:1\r\n:-0
3 27 | fault BadInteger at 27\n | *1\r\n*1\r\n:9223372036854775808
3 18 | fault BadInteger at 18\n | *1\r\n*1\r\n*1\r\n*1\r\n:1x
# In a length or a count.
3 7 | fault TooLong at 7\n | $1048577\r\n
3 8 | fault TooLong at 8\n | $10485760\r\n
3 4 | fault TooLong at 4\n | *4097\r\n
3 5 | fault TooLong at 5\n | *40960\r\n
3 2 | fault BadInteger at 2\n | $-0\r\n
3 2 | fault BadInteger at 2\n | $-2\r\n
3 3 | fault BadInteger at 3\n | $-10\r\n
3 1 | fault BadInteger at 1\n | $+1\r\n
3 2 | fault BadInteger at 2\n | $01\r\n
3 2 | fault BadInteger at 2\n | *-2\r\n
3 2 | fault BadInteger at 2\n | *00\r\n
3 1 | fault BadInteger at 1\n | *\r\n
3 5 | fault BadInteger at 5\n | *1\r\n$x\r\n
3 1 | fault BadInteger at 1\n | $\r
3 1 | fault BadInteger at 1\n | $\n
3 2 | fault BadInteger at 2\n | $-\r
3 3 | fault BadInteger at 3\n | $-1x
3 2 | fault BadInteger at 2\n | $0x
3 2 | fault BadInteger at 2\n | $1x
3 2 | fault BadInteger at 2\n | $1\n
3 7 | fault TooLong at 7\n | $2000000
3 1 | fault BadInteger at 1\n | *+1
3 1 | fault BadInteger at 1\n | *x
3 2 | fault BadInteger at 2\n | *-\r
3 2 | fault BadInteger at 2\n | *-0
3 3 | fault BadInteger at 3\n | *-10
3 3 | fault BadInteger at 3\n | *-1x
3 2 | fault BadInteger at 2\n | *01
3 2 | fault BadInteger at 2\n | *0x
3 2 | fault BadInteger at 2\n | *1x
3 2 | fault BadInteger at 2\n | *1\n
3 4 | fault TooLong at 4\n | *5000
3 11 | fault TooLong at 11\n | *1\r\n$1048577
3 6 | fault BadInteger at 6\n | *1\r\n$-2
3 11 | fault BadInteger at 11\n | *2\r\n$-1\r\n$01
3 8 | fault TooLong at 8\n | *1\r\n*4097
3 6 | fault BadInteger at 6\n | *1\r\n*-2
3 12 | fault TooLong at 12\n | *1\r\n*1\r\n*5000
3 9 | fault BadInteger at 9\n | *1\r\n*1\r\n$x
3 16 | fault TooLong at 16\n | *1\r\n*1\r\n*1\r\n*4097
3 14 | fault BadInteger at 14\n | *1\r\n*1\r\n*1\r\n*-0
3 13 | fault BadInteger at 13\n | *1\r\n*1\r\n*1\r\n*x
3 23 | fault TooLong at 23\n | *1\r\n*1\r\n*1\r\n*1\r\n$1048577
3 18 | fault BadInteger at 18\n | *1\r\n*1\r\n*1\r\n*1\r\n$-0
# In a text, and where a line must end.
3 2 | fault NoCrLf at 2\n | +a\n
3 1 | fault NoCrLf at 1\n | -\n
3 3 | fault NoCrLf at 3\n | +a\rb
3 3 | fault NoCrLf at 3\n | -a\r\r
3 3 | fault NoCrLf at 3\n | :1\r1
3 3 | fault NoCrLf at 3\n | $1\r\r
3 4 | fault NoCrLf at 4\n | $-1\rx
3 3 | fault NoCrLf at 3\n | *0\rx
3 4 | fault NoCrLf at 4\n | *-1\rx
3 5 | fault NoCrLf at 5\n | $1\r\nab
3 5 | fault NoCrLf at 5\n | $1\r\na\n
3 6 | fault NoCrLf at 6\n | $1\r\na\rx
3 4 | fault NoCrLf at 4\n | $0\r\n\n
3 1 | fault NoCrLf at 1\n | +\n
3 2 | fault NoCrLf at 2\n | -a\n
3 2 | fault NoCrLf at 2\n | +\r\r
3 2 | fault NoCrLf at 2\n | -\rx
3 3 | fault NoCrLf at 3\n | :0\rx
3 4 | fault NoCrLf at 4\n | :-1\rx
3 3 | fault NoCrLf at 3\n | $0\rx
3 3 | fault NoCrLf at 3\n | *1\rx
3 4 | fault NoCrLf at 4\n | $0\r\nx
3 5 | fault NoCrLf at 5\n | $0\r\n\rx
3 6 | fault NoCrLf at 6\n | $2\r\n\r\nx
3 6 | fault NoCrLf at 6\n | *1\r\n+a\n
3 11 | fault NoCrLf at 11\n | *2\r\n+a\r\n-b\rc
3 7 | fault NoCrLf at 7\n | *1\r\n:1\rx
3 7 | fault NoCrLf at 7\n | *1\r\n$1\rx
3 8 | fault NoCrLf at 8\n | *1\r\n$-1\rx
3 9 | fault NoCrLf at 9\n | *2\r\n$1\r\nab
3 10 | fault NoCrLf at 10\n | *2\r\n$1\r\na\rb
3 7 | fault NoCrLf at 7\n | *1\r\n*1\rx
3 7 | fault NoCrLf at 7\n | *1\r\n*0\rx
3 8 | fault NoCrLf at 8\n | *1\r\n*-1\rx
3 10 | fault NoCrLf at 10\n | *1\r\n*1\r\n+a\n
3 11 | fault NoCrLf at 11\n | *1\r\n*1\r\n*1\rx
3 15 | fault NoCrLf at 15\n | *1\r\n*1\r\n*1\r\n-a\rx
3 16 | fault NoCrLf at 16\n | *1\r\n*1\r\n*1\r\n*-1\rx
3 18 | fault NoCrLf at 18\n | *1\r\n*1\r\n*1\r\n*1\r\n+a\n
3 19 | fault NoCrLf at 19\n | *1\r\n*1\r\n*1\r\n*1\r\n:1\rx
3 19 | fault NoCrLf at 19\n | *1\r\n*1\r\n*1\r\n*1\r\n$1\rx
3 20 | fault NoCrLf at 20\n | *1\r\n*1\r\n*1\r\n*1\r\n$-1\rx
3 21 | fault NoCrLf at 21\n | *1\r\n*1\r\n*1\r\n*1\r\n$1\r\nab
3 22 | fault NoCrLf at 22\n | *1\r\n*1\r\n*1\r\n*1\r\n$1\r\na\rb
"#
}

/// At the limit of a text.
pub fn long_texts() -> &'static str {
    r#"
0 0 | +"\(65536:q)"\n-"\(65536:q)"\n | +\(65536:q)\r\n-\(65536:q)\r\n
3 65537 | fault TooLong at 65537\n | +\(65537:q)
3 65537 | fault NoCrLf at 65537\n | +\(65536:q)\n
3 65538 | fault NoCrLf at 65538\n | -\(65536:q)\rq
3 65537 | fault TooLong at 65537\n | -\(65537:q)
3 65537 | fault NoCrLf at 65537\n | -\(65536:q)\n
3 65538 | fault NoCrLf at 65538\n | +\(65536:q)\rq
3 65541 | fault TooLong at 65541\n | *1\r\n+\(65537:q)
3 65553 | fault TooLong at 65553\n | *1\r\n*1\r\n*1\r\n*1\r\n-\(65537:q)
"#
}

/// Streams at the limit of a value's bytes.
pub fn long_values() -> &'static str {
    r#"
# At the limit of a value's bytes, after values before it.
3 8388608 | fault TooLong at 8388608\n | *9\r\n$1048576\r\n\(1048576:q)\r\n$1048576\r\n\(1048576:q)\r\n$1048576\r\n\(1048576:q)\r\n$1048576\r\n\(1048576:q)\r\n$1048576\r\n\(1048576:q)\r\n$1048576\r\n\(1048576:q)\r\n$1048576\r\n\(1048576:q)\r\n$1048576\r\n\(1048576:q)\r\n
3 8388613 | +"OK"\nfault TooLong at 8388613\n | +OK\r\n*9\r\n$1048576\r\n\(1048576:q)\r\n$1048576\r\n\(1048576:q)\r\n$1048576\r\n\(1048576:q)\r\n$1048576\r\n\(1048576:q)\r\n$1048576\r\n\(1048576:q)\r\n$1048576\r\n\(1048576:q)\r\n$1048576\r\n\(1048576:q)\r\n$1048576\r\n\(1048576:q)\r\n
3 0 | unfinished at 0\n | *9\r\n$1048576\r\n\(1048576:q)\r\n$1048576\r\n\(1048576:q)\r\n$1048576\r\n\(1048576:q)\r\n$1048576\r\n\(1048576:q)\r\n$1048576\r\n\(1048576:q)\r\n$1048576\r\n\(1048576:q)\r\n$1048576\r\n\(1048576:q)\r\n$1048576\r\n\(1048477:q)
3 8388608 | fault TooLong at 8388608\n | *9\r\n$1048576\r\n\(1048576:q)\r\n$1048576\r\n\(1048576:q)\r\n$1048576\r\n\(1048576:q)\r\n$1048576\r\n\(1048576:q)\r\n$1048576\r\n\(1048576:q)\r\n$1048576\r\n\(1048576:q)\r\n$1048576\r\n\(1048576:q)\r\n$1048576\r\n\(1048478:q)
"#
}

/// Streams past that limit, and at the last byte that a value may have.
pub fn in_large_pieces() -> &'static str {
    r#"
# Past the limit of a value's bytes, in each state.
3 8388608 | fault TooLong at 8388608\n | *9\r\n$1048576\r\n\(1048576:q)\r\n$1048576\r\n\(1048576:q)\r\n$1048576\r\n\(1048576:q)\r\n$1048576\r\n\(1048576:q)\r\n$1048576\r\n\(1048576:q)\r\n$1048576\r\n\(1048576:q)\r\n$1048576\r\n\(1048576:q)\r\n$1048476\r\n\(1048476:q)\r\n
3 8388608 | fault TooLong at 8388608\n | *9\r\n$1048576\r\n\(1048576:q)\r\n$1048576\r\n\(1048576:q)\r\n$1048576\r\n\(1048576:q)\r\n$1048576\r\n\(1048576:q)\r\n$1048576\r\n\(1048576:q)\r\n$1048576\r\n\(1048576:q)\r\n$1048576\r\n\(1048576:q)\r\n$1048473\r\n\(1048473:q)\r\n+ab
3 8388608 | fault TooLong at 8388608\n | *9\r\n$1048576\r\n\(1048576:q)\r\n$1048576\r\n\(1048576:q)\r\n$1048576\r\n\(1048576:q)\r\n$1048576\r\n\(1048576:q)\r\n$1048576\r\n\(1048576:q)\r\n$1048576\r\n\(1048576:q)\r\n$1048576\r\n\(1048576:q)\r\n$1048473\r\n\(1048473:q)\r\n-a\r
3 8388608 | fault TooLong at 8388608\n | *9\r\n$1048576\r\n\(1048576:q)\r\n$1048576\r\n\(1048576:q)\r\n$1048576\r\n\(1048576:q)\r\n$1048576\r\n\(1048576:q)\r\n$1048576\r\n\(1048576:q)\r\n$1048576\r\n\(1048576:q)\r\n$1048576\r\n\(1048576:q)\r\n$1048474\r\n\(1048474:q)\r\n:-
3 8388608 | fault TooLong at 8388608\n | *9\r\n$1048576\r\n\(1048576:q)\r\n$1048576\r\n\(1048576:q)\r\n$1048576\r\n\(1048576:q)\r\n$1048576\r\n\(1048576:q)\r\n$1048576\r\n\(1048576:q)\r\n$1048576\r\n\(1048576:q)\r\n$1048576\r\n\(1048576:q)\r\n$1048474\r\n\(1048474:q)\r\n:1
3 8388608 | fault TooLong at 8388608\n | *9\r\n$1048576\r\n\(1048576:q)\r\n$1048576\r\n\(1048576:q)\r\n$1048576\r\n\(1048576:q)\r\n$1048576\r\n\(1048576:q)\r\n$1048576\r\n\(1048576:q)\r\n$1048576\r\n\(1048576:q)\r\n$1048576\r\n\(1048576:q)\r\n$1048473\r\n\(1048473:q)\r\n:1\r
3 8388608 | fault TooLong at 8388608\n | *9\r\n$1048576\r\n\(1048576:q)\r\n$1048576\r\n\(1048576:q)\r\n$1048576\r\n\(1048576:q)\r\n$1048576\r\n\(1048576:q)\r\n$1048576\r\n\(1048576:q)\r\n$1048576\r\n\(1048576:q)\r\n$1048576\r\n\(1048576:q)\r\n$1048474\r\n\(1048474:q)\r\n$1
3 8388608 | fault TooLong at 8388608\n | *9\r\n$1048576\r\n\(1048576:q)\r\n$1048576\r\n\(1048576:q)\r\n$1048576\r\n\(1048576:q)\r\n$1048576\r\n\(1048576:q)\r\n$1048576\r\n\(1048576:q)\r\n$1048576\r\n\(1048576:q)\r\n$1048576\r\n\(1048576:q)\r\n$1048473\r\n\(1048473:q)\r\n$1\r
3 8388608 | fault TooLong at 8388608\n | *9\r\n$1048576\r\n\(1048576:q)\r\n$1048576\r\n\(1048576:q)\r\n$1048576\r\n\(1048576:q)\r\n$1048576\r\n\(1048576:q)\r\n$1048576\r\n\(1048576:q)\r\n$1048576\r\n\(1048576:q)\r\n$1048576\r\n\(1048576:q)\r\n$1048471\r\n\(1048471:q)\r\n$1\r\na
3 8388608 | fault TooLong at 8388608\n | *9\r\n$1048576\r\n\(1048576:q)\r\n$1048576\r\n\(1048576:q)\r\n$1048576\r\n\(1048576:q)\r\n$1048576\r\n\(1048576:q)\r\n$1048576\r\n\(1048576:q)\r\n$1048576\r\n\(1048576:q)\r\n$1048576\r\n\(1048576:q)\r\n$1048470\r\n\(1048470:q)\r\n$1\r\na\r
3 8388608 | fault TooLong at 8388608\n | *9\r\n$1048576\r\n\(1048576:q)\r\n$1048576\r\n\(1048576:q)\r\n$1048576\r\n\(1048576:q)\r\n$1048576\r\n\(1048576:q)\r\n$1048576\r\n\(1048576:q)\r\n$1048576\r\n\(1048576:q)\r\n$1048576\r\n\(1048576:q)\r\n$1048473\r\n\(1048473:q)\r\n*-1
3 8388608 | fault TooLong at 8388608\n | *9\r\n$1048576\r\n\(1048576:q)\r\n$1048576\r\n\(1048576:q)\r\n$1048576\r\n\(1048576:q)\r\n$1048576\r\n\(1048576:q)\r\n$1048576\r\n\(1048576:q)\r\n$1048576\r\n\(1048576:q)\r\n$1048576\r\n\(1048576:q)\r\n$1048473\r\n\(1048473:q)\r\n*1\r
3 8388608 | fault TooLong at 8388608\n | *9\r\n$1048576\r\n\(1048576:q)\r\n$1048576\r\n\(1048576:q)\r\n$1048576\r\n\(1048576:q)\r\n$1048576\r\n\(1048576:q)\r\n$1048576\r\n\(1048576:q)\r\n$1048576\r\n\(1048576:q)\r\n$1048576\r\n\(1048576:q)\r\n$1048464\r\n\(1048464:q)\r\n*1\r\n*1\r\n*1\r\n
3 8388608 | fault TooLong at 8388608\n | *9\r\n$1048576\r\n\(1048576:q)\r\n$1048576\r\n\(1048576:q)\r\n$1048576\r\n\(1048576:q)\r\n$1048576\r\n\(1048576:q)\r\n$1048576\r\n\(1048576:q)\r\n$1048576\r\n\(1048576:q)\r\n$1048576\r\n\(1048576:q)\r\n$1048476\r\n\(1048476:q)\r\nx
# At the last byte that a value may have.
3 8388607 | fault BadKind at 8388607\n | *9\r\n$1048576\r\n\(1048576:q)\r\n$1048576\r\n\(1048576:q)\r\n$1048576\r\n\(1048576:q)\r\n$1048576\r\n\(1048576:q)\r\n$1048576\r\n\(1048576:q)\r\n$1048576\r\n\(1048576:q)\r\n$1048576\r\n\(1048576:q)\r\n$1048475\r\n\(1048475:q)\r\nx
3 8388607 | fault NoCrLf at 8388607\n | *9\r\n$1048576\r\n\(1048576:q)\r\n$1048576\r\n\(1048576:q)\r\n$1048576\r\n\(1048576:q)\r\n$1048576\r\n\(1048576:q)\r\n$1048576\r\n\(1048576:q)\r\n$1048576\r\n\(1048576:q)\r\n$1048576\r\n\(1048576:q)\r\n$1048473\r\n\(1048473:q)\r\n+a\n
3 8388607 | fault BadInteger at 8388607\n | *9\r\n$1048576\r\n\(1048576:q)\r\n$1048576\r\n\(1048576:q)\r\n$1048576\r\n\(1048576:q)\r\n$1048576\r\n\(1048576:q)\r\n$1048576\r\n\(1048576:q)\r\n$1048576\r\n\(1048576:q)\r\n$1048576\r\n\(1048576:q)\r\n$1048473\r\n\(1048473:q)\r\n:0x
3 8388607 | fault TooLong at 8388607\n | *9\r\n$1048576\r\n\(1048576:q)\r\n$1048576\r\n\(1048576:q)\r\n$1048576\r\n\(1048576:q)\r\n$1048576\r\n\(1048576:q)\r\n$1048576\r\n\(1048576:q)\r\n$1048576\r\n\(1048576:q)\r\n$1048576\r\n\(1048576:q)\r\n$1048468\r\n\(1048468:q)\r\n$1048577
3 8388607 | fault NoCrLf at 8388607\n | *9\r\n$1048576\r\n\(1048576:q)\r\n$1048576\r\n\(1048576:q)\r\n$1048576\r\n\(1048576:q)\r\n$1048576\r\n\(1048576:q)\r\n$1048576\r\n\(1048576:q)\r\n$1048576\r\n\(1048576:q)\r\n$1048576\r\n\(1048576:q)\r\n$1048470\r\n\(1048470:q)\r\n$1\r\nab
3 8388607 | fault NoCrLf at 8388607\n | *9\r\n$1048576\r\n\(1048576:q)\r\n$1048576\r\n\(1048576:q)\r\n$1048576\r\n\(1048576:q)\r\n$1048576\r\n\(1048576:q)\r\n$1048576\r\n\(1048576:q)\r\n$1048576\r\n\(1048576:q)\r\n$1048576\r\n\(1048576:q)\r\n$1048472\r\n\(1048472:q)\r\n*1\rx
3 8388607 | fault TooDeep at 8388607\n | *9\r\n$1048576\r\n\(1048576:q)\r\n$1048576\r\n\(1048576:q)\r\n$1048576\r\n\(1048576:q)\r\n$1048576\r\n\(1048576:q)\r\n$1048576\r\n\(1048576:q)\r\n$1048576\r\n\(1048576:q)\r\n$1048576\r\n\(1048576:q)\r\n$1048463\r\n\(1048463:q)\r\n*1\r\n*1\r\n*1\r\n*
0 0 | *[$"\(1048576:q)", $"\(1048576:q)", $"\(1048576:q)", $"\(1048576:q)", $"\(1048576:q)", $"\(1048576:q)", $"\(1048576:q)", $"\(1048476:q)"]\n | *8\r\n$1048576\r\n\(1048576:q)\r\n$1048576\r\n\(1048576:q)\r\n$1048576\r\n\(1048576:q)\r\n$1048576\r\n\(1048576:q)\r\n$1048576\r\n\(1048576:q)\r\n$1048576\r\n\(1048576:q)\r\n$1048576\r\n\(1048576:q)\r\n$1048476\r\n\(1048476:q)\r\n
3 8388613 | +"OK"\nfault TooLong at 8388613\n | +OK\r\n*8\r\n$1048576\r\n\(1048576:q)\r\n$1048576\r\n\(1048576:q)\r\n$1048576\r\n\(1048576:q)\r\n$1048576\r\n\(1048576:q)\r\n$1048576\r\n\(1048576:q)\r\n$1048576\r\n\(1048576:q)\r\n$1048576\r\n\(1048576:q)\r\n$1048477\r\n\(1048477:q)\r\n
"#
}
