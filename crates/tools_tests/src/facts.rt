//! Tests of the facts of a query.

use crate::calls::{Seen, called, called_failing, parts_of};
use crate::compare::{compare, compare_texts};
use marple_base::Seq;
use std::alloc::{AllocError, Global};
use std::process::Abort;
use tools_cli::ToolStatus;

const COUNT: &[u8] =
    b"def count([c],[]) { c = c + 1; }\nr = groupby(pktstream, [srcip], count);\nprint r;\n";

// The facts of a query have this piece.
fn compare_piece(
    rt: &impl Abort,
    alloc: Global,
    query: &[u8],
    piece: &str,
) -> Result<(), AllocError> {
    let told = called(alloc, "facts q", query, &[])?;
    let seen = told.seen();
    compare(rt, seen.status, ToolStatus::Ok, piece);
    compare(rt, seen.complaint, b"", piece);
    let Ok(text) = str::from_utf8(seen.written) else {
        panic!(rt; "the facts are no text");
    };
    assert!(rt;
        text.ends_with("}\n") && text.contains(piece),
        "{piece}: {text}"
    );
    Ok(())
}

// All facts of a text that the grammar has, and of which the first fault is a name.
#[test]
fn says_what_a_refused_query_is(rt: HostRuntime) -> Result<(), AllocError> {
    let wanted = Seen {
        status: ToolStatus::Ok,
        written: b"{\"fault\":{\"columns\":[],\"end\":7,\"expected\":[],\"item\":0,\"kind\":\"UnknownName\",\
            \"limit\":null,\"missing\":[],\"most\":null,\"names\":[],\"place\":\"printed\",\"start\":6},\
            \"fields\":[\"switch\",\"qid\",\"uid\",\"srcip\",\"dstip\",\"srcport\",\"dstport\",\"proto\",\
            \"pkt_len\",\"payload_len\",\"tcpseq\",\"tin\",\"tout\",\"qsize\"],\
            \"items\":[{\"end\":8,\"kind\":\"print\",\"name\":\"x\",\"name_start\":6,\
            \"operator\":\"print\",\"start\":0}],\"marple_facts\":1}\n",
        complaint: b"",
    };
    let _texts = parts_of(&rt, rt.alloc(), "facts q", b"print x;\n", &[], &wanted)?;
    Ok(())
}

/// Pieces of the facts of a count.
const PIECES: &[&str] = &[
    "\"fault\":null",
    "\"statement\":{\"end\":30,\"start\":20}",
    "\"class\":\"linear\"",
    "\"algebra\":\"sums\"",
    "\"depth\":0",
    "\"additive\":true",
    "\"prints\":[\"r\"]",
    "\"reads\":[\"srcip\"]",
    "\"parts\":{\"by\":[\"srcip\"],\"refused\":null,\"sums\":false}",
    "\"commands\":{\"compile\":null,\"enclose\":",
    "\"warnings\":[]",
];

#[test]
fn says_what_a_query_is(rt: HostRuntime) -> Result<(), AllocError> {
    for piece in PIECES {
        compare_piece(&rt, rt.alloc(), COUNT, piece)?;
    }
    Ok(())
}

// The one token that may follow an equals sign and a name of no operator.
#[test]
fn says_what_may_stand_there(rt: HostRuntime) -> Result<(), AllocError> {
    let semicolon = "\"expected\":[{\"kind\":\"token\",\"text\":\";\"}]";
    compare_piece(&rt, rt.alloc(), b"print r", semicolon)?;
    compare_piece(&rt, rt.alloc(), b"print r", "\"start\":7}")
}

// A text of 65,536 bytes may be a query; one byte more is its fault.
#[test]
fn says_that_a_text_is_too_long(rt: HostRuntime) -> Result<(), AllocError> {
    for (count, kind) in &[
        (65_536, "\"kind\":\"NothingPrinted\""),
        (65_537, "\"kind\":\"QueryTooLong\""),
        (65_538, "\"kind\":\"QueryTooLong\""),
        (70_000, "\"kind\":\"QueryTooLong\""),
    ] {
        let text = vec![in rt.alloc(); b' '; *count]?;
        compare_piece(&rt, rt.alloc(), text.as_slice(), kind)?;
    }
    Ok(())
}

// The statuses of `marple`, and some first bytes of the line.
#[test]
fn ends_where_a_write_fails(rt: HostRuntime) -> Result<(), AllocError> {
    let alloc = rt.alloc();
    let mut failing = Seq::new(alloc);
    failing.push(2)?;
    let told = called_failing(alloc, "facts q", COUNT, &[], failing)?;
    compare(&rt, told.status, ToolStatus::OutputFault, "a failed write");
    compare(&rt, told.status.number(), 6, "its number");
    compare(
        &rt,
        told.seen().written.len(),
        100,
        "the bytes that were written",
    );
    compare_texts(&rt, &told.texts, &[b"", b""], "facts q");
    Ok(())
}
