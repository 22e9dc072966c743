// Texts in pieces, and the byte behind which no text can follow.
use sj_scan::Recognizer;
use std::process::Abort;
use std::test::Fail;

const TEXTS: [&[u8]; 12] = [
    b"0",
    b" -12.50E+10\r\n",
    b"\"\"",
    b"[]",
    b" { } ",
    b"[1,[],{\"a\":null,\"a\":[true,false]},\"x\"]",
    b"{\"id\":-0,\"\":{\"k\":[{}]}}",
    b"\"\\ud83d\\ude00 \\u00e9\\uD7ff\\\\\\\"\\/\"",
    b"\"\xc3\xa9\xe0\xa0\x80\xed\x9f\xbf\xef\xbf\xbf\xf0\x90\x80\x80\xf4\x8f\xbf\xbf\"",
    b"[0.5,1e5,-1E-0,100.25e+7]",
    b"[\"a string that is longer than one step of a run of many bytes\",\"\\n\"]",
    b"[[[[[[[[[[0]]]]]]]]]]",
];

// Bytes that begin no text, and with how many of them none begins.
const OTHERS: [(&[u8], usize); 28] = [
    (b"01", 2),
    (b"-a", 2),
    (b"-01", 3),
    (b"1.x", 3),
    (b"1.]", 3),
    (b"1e+x", 4),
    (b"+1", 1),
    (b"1 2", 3),
    (b"]", 1),
    (b"[1,]", 4),
    (b"[1 2]", 4),
    (b"[1}", 3),
    (b"{]", 2),
    (b"{\"a\" 1}", 6),
    (b"{\"a\":1,}", 8),
    (b"{1", 2),
    (b"nul ", 4),
    (b"\"a\x1f\"", 3),
    (b"\"0123456789abcdef\x1f", 18),
    (b"\"\\x", 3),
    (b"\"\\udc00\"", 5),
    (b"\"\\ud800\\u0", 10),
    (b"\"\\ud800\\ud8", 11),
    (b"\"\\ud800x", 8),
    (b"\xc3\xa9", 1),
    (b"\"\xc3(", 3),
    (b"\"\xed\xa0", 3),
    (b"\"\xf5", 2),
];

#[test]
fn takes_texts_in_two_pieces(rt: HostRuntime) -> Result<(), Fail> {
    let mut recognizer = Recognizer::new(rt.alloc());
    for text in TEXTS {
        for cut in 0..=text.len() {
            recognizer.start();
            recognizer.piece(&text[..cut])?;
            assert!(rt; recognizer.begins(), "{text:?} {cut}");
            recognizer.piece(&text[cut..])?;
            assert!(rt; recognizer.finish(), "{text:?} {cut}");
            assert!(rt; recognizer.held() == 0, "{text:?} {cut}");
        }
    }
    Ok(())
}

// Stops the test unless a text begins with exactly those fronts of the bytes that are shorter than `end`.
fn expect_end(
    rt: &impl Abort,
    recognizer: &mut Recognizer,
    text: &[u8],
    end: usize,
) -> Result<(), Fail> {
    for len in 0..=text.len() {
        recognizer.start();
        recognizer.piece(&text[..len])?;
        assert!(rt; recognizer.begins() == (len < end), "{text:?} {len}");
    }
    assert!(rt; !recognizer.finish(), "{text:?}");
    Ok(())
}

#[test]
fn tells_the_byte_behind_which_no_text_follows(rt: HostRuntime) -> Result<(), Fail> {
    let mut recognizer = Recognizer::new(rt.alloc());
    for (text, end) in OTHERS {
        expect_end(&rt, &mut recognizer, text, end)?;
    }
    Ok(())
}

#[test]
fn counts_the_open_containers(rt: HostRuntime) -> Result<(), Fail> {
    let mut recognizer = Recognizer::new(rt.alloc());
    recognizer.piece(b"[{\"a]\":[")?;
    assert!(rt; recognizer.held() == 3);
    recognizer.piece(b"\"[\"]")?;
    assert!(rt; recognizer.held() == 2);
    recognizer.piece(b"}01")?;
    assert!(rt; recognizer.held() == 0);
    assert!(rt; !recognizer.finish());
    Ok(())
}
