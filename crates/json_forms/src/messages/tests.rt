//! Which lines are messages.
use super::*;
use std::test::Fail;

/// The word of the message that a line is.
fn read(alloc: Global, line: &[u8]) -> Result<&'static str, NoMemory> {
    Ok(match read_message(alloc, line)? {
        None => "none",
        Some(Message::Hello(_)) => "hello",
        Some(Message::Next) => "next",
        Some(Message::Answer { side, .. }) => match side {
            Side::Left => "left",
            Side::Right => "right",
            Side::Equal => "equal",
        },
        Some(Message::Values) => "values",
        Some(Message::Withdraw) => "withdraw",
        Some(Message::Result) => "result",
        Some(Message::Bye) => "bye",
    })
}

#[test]
fn lines_that_are_messages(rt: HostRuntime) -> Result<(), Fail> {
    let table: [(&[u8], &str); 16] = [
        (br#"{"ask":"next"}"#, "next"),
        (br#"{"ask":"values"}"#, "values"),
        (br#"{"ask":"withdraw"}"#, "withdraw"),
        (br#"{"ask":"result"}"#, "result"),
        (br#"{"ask":"bye"}"#, "bye"),
        (br#"{"answer":{"question":1,"side":"left"}}"#, "left"),
        (br#"{"answer":{"side":"right","question":0}}"#, "right"),
        (
            br#"{"answer":{"question":4294967295,"side":"equal"}}"#,
            "equal",
        ),
        (br#"{"hello":{"code":"k1","desk":1,"name":"ana"}}"#, "hello"),
        (
            br#"{"hello":{"code":"","desk":18446744073709551615,"name":""}}"#,
            "hello",
        ),
        // blanks, escapes and members that stand twice
        (b" \t{ \"ask\"\t:\"next\" } \r", "next"),
        (br#"{"\u0061sk":"ne\u0078t"}"#, "next"),
        (br#"{"ask":1,"ask":"next"}"#, "next"),
        (br#"{"ask":"next","ask":"bye"}"#, "bye"),
        (
            br#"{"answer":{"question":1,"side":"left","side":"right"}}"#,
            "right",
        ),
        (
            br#"{"hello":{"code":"\ud83d\ude00","desk":1,"name":"\u00e9"}}"#,
            "hello",
        ),
    ];
    for (line, word) in table {
        assert!(rt; read(rt.alloc(), line)? == word, "{line:?}");
    }
    Ok(())
}

#[test]
fn lines_that_are_no_message(rt: HostRuntime) -> Result<(), Fail> {
    let lines: [&[u8]; 22] = [
        // other names, numbers of members, types and words
        br#"{"ask":"next","answer":{"question":1,"side":"left"}}"#,
        br#"{"ask":"nexT"}"#,
        br#"{"Ask":"next"}"#,
        br#"{"ask":null}"#,
        br#"["ask"]"#,
        br#"{}"#,
        br#""#,
        br#"hi"#,
        br#"{"ask":"next"} {"ask":"next"}"#,
        br#"{"answer":{"question":"1","side":"left"}}"#,
        br#"{"answer":{"question":1,"side":"up"}}"#,
        br#"{"answer":{"question":1,"side":"left","more":1}}"#,
        br#"{"hello":{"code":"k1","desk":1}}"#,
        br#"{"hello":{"code":"k1","desk":"1","name":"ana"}}"#,
        // numbers that aren't whole, are below 0, or too large
        br#"{"answer":{"question":1.0,"side":"left"}}"#,
        br#"{"answer":{"question":1e0,"side":"left"}}"#,
        br#"{"answer":{"question":-1,"side":"left"}}"#,
        br#"{"answer":{"question":4294967296,"side":"left"}}"#,
        br#"{"hello":{"code":"k1","desk":18446744073709551616,"name":"ana"}}"#,
        // a surrogate that stands alone, bytes that aren't UTF-8, and a value that is overwritten but too large for any number
        br#"{"hello":{"code":"\ud83d","desk":1,"name":"ana"}}"#,
        b"{\"ask\":\"\xff\"}",
        br#"{"ask":1e999,"ask":"next"}"#,
    ];
    for line in lines {
        assert!(rt; read(rt.alloc(), line)? == "none", "{line:?}");
    }
    Ok(())
}

#[test]
fn hello_with_its_members(rt: HostRuntime) -> Result<(), Fail> {
    let line = br#"{"hello":{"code":"k1","desk":7,"name":"a\u006ea"}}"#;
    match read_message(rt.alloc(), line)? {
        Some(Message::Hello(hello)) => {
            assert!(rt; hello.name() == b"ana".as_slice());
            assert!(rt; hello.code() == b"k1".as_slice());
            assert_eq!(rt; hello.desk(), 7);
        }
        _ => assert!(rt; false),
    }
    Ok(())
}
