// Texts as a document stores them, with their windows.
use crate::cases::expect;
use sj_base::Steps;
use sj_doc::{Kind, Member, StoredText, WINDOW};
use sj_read::read;
use std::process::Abort;
use std::test::Fail;

const LINE: &[u8] =
    b"{\"text\":\"short\",\"sixteen letters.\":-12.5,\"a key of 17 bytes\":\"seventeen letters\",\"last\":\"\\n\"}";

// The text, and whether it has a window, which begins with it.
fn expect_stored(rt: &impl Abort, stored: StoredText<'_>, text: &str, has_window: bool) {
    expect(rt, stored.text, text, "stored");
    match stored.window {
        Some(window) => {
            assert!(rt; has_window);
            assert!(rt; window.len() == WINDOW);
            assert!(rt; window.starts_with(text.as_bytes()));
        }
        None => assert!(rt; !has_window),
    }
}

// The same of the text of a string or a number.
fn expect_value(rt: &impl Abort, member: Member<'_>, text: &str, has_window: bool) {
    match member.node.kind() {
        Kind::String => expect_stored(rt, member.node.stored_text(), text, has_window),
        Kind::Number => expect_stored(rt, member.node.stored_numeral(), text, has_window),
        _ => expect(rt, "another kind", text, "value"),
    }
}

// Short texts have windows, but for one whose escapes were resolved, which stands at the end of the memory.
#[test]
fn lends_windows_of_short_texts(rt: HostRuntime) -> Result<(), Fail> {
    let doc = read(rt.alloc(), LINE)?;
    let wanted = [
        ("text", true, "short", true),
        ("sixteen letters.", true, "-12.5", true),
        ("a key of 17 bytes", false, "seventeen letters", false),
        ("last", true, "\n", false),
    ];
    let mut steps = Steps::new(&rt);
    let mut members = doc.root().children();
    for (key, key_has, text, text_has) in wanted {
        let member = members.next(&mut steps).ok_or("a member is missing")?;
        expect_stored(&rt, member.node.stored_key().ok_or("no key")?, key, key_has);
        expect_value(&rt, member, text, text_has);
    }
    assert!(rt; doc.root().stored_key().is_none());
    Ok(())
}
