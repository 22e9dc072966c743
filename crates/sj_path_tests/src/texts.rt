//! The canonical texts of paths (`sj_path_text`): each of another text of the same path, and read back.

use super::cases::expect;
use sj_base::Bytes;
use sj_path::parse_path;
use sj_path_text::path_text;
use std::alloc::Global;
use std::test::Fail;

/// The canonical text of a path, by any of its texts.
fn canonical(alloc: Global, text: &str) -> Result<String, Fail> {
    let path = parse_path(alloc, text)?;
    let mut out = Bytes::new(alloc);
    path_text(&path, &mut out)?;
    Ok(String::from_utf8(out.into_vec())?)
}

#[test]
fn canonical_texts(rt: HostRuntime) -> Result<(), Fail> {
    for (text, want) in [
        ("$", "lax $"),
        (" strict $ . a . * [ * ] . b", "strict $.\"a\".*[*].\"b\""),
        (
            "$.exists.last.lax.type . to",
            "lax $.\"exists\".\"last\".\"lax\".\"type\".\"to\"",
        ),
        (
            "$.\"a\\u0062\\/\\\"\\\\\\u0001\\u00e9\" . size ( )",
            "lax $.\"ab/\\\"\\\\\\u0001\u{e9}\".size()",
        ),
        (
            "$.\"\\b\\t\\n\\f\\r\\u007f\\uD83D\\uDE00\"",
            "lax $.\"\\b\\t\\n\\f\\r\u{7f}\u{1f600}\"",
        ),
        ("$.\"\"._1", "lax $.\"\".\"_1\""),
        (
            "$[ 0to 1 , last , $.n + 1 to last - 1 ]",
            "lax $[0 to 1, last, $.\"n\" + 1 to last - 1]",
        ),
        ("$[-1][- - 1][(-1)]", "lax $[-1][--1][-1]"),
        ("$[1.50e1, 1E-2, 0.0, 1e3]", "lax $[15, 0.01, 0, 1000]"),
        ("((1 + 2)) * 3 - (4 * 5)", "lax (1 + 2) * 3 - 4 * 5"),
        ("(1 - (2 - 3)) - 4", "lax 1 - (2 - 3) - 4"),
        ("1 - (2 * 3) / (4 % 5)", "lax 1 - 2 * 3 / (4 % 5)"),
        ("- - + $.a", "lax --+$.\"a\""),
        ("-(1 * 2)", "lax -(1 * 2)"),
        ("-1 * -2 - -3", "lax -1 * -2 - -3"),
        ("(-$).a", "lax (-$).\"a\""),
        ("-($.a)", "lax -$.\"a\""),
        ("($.a + 1).abs()", "lax ($.\"a\" + 1).abs()"),
        ("1.type()", "lax 1.type()"),
        ("1.5 .floor() . e5", "lax 1.5.floor().\"e5\""),
        ("\"x\".string()", "lax \"x\".string()"),
        ("null.a", "lax null.\"a\""),
        ("$lax ? (@<>$b)", "lax $lax?(@ != $b)"),
        (
            "$.a ? (!((@ > 1 || @ < 0) && (@ <> 5)))",
            "lax $.\"a\"?(!((@ > 1 || @ < 0) && @ != 5))",
        ),
        (
            "$?(((@==1)&&((@>=2)))||((@<=3||exists((@.a)))))",
            "lax $?(@ == 1 && @ >= 2 || (@ <= 3 || exists(@.\"a\")))",
        ),
        (
            "$?(!exists(@.a)&&!(exists(@)))",
            "lax $?(!exists(@.\"a\") && !exists(@))",
        ),
        (
            "$?(((@==1)is unknown)is  unknown)",
            "lax $?(((@ == 1) is unknown) is unknown)",
        ),
        (
            "$?(@ starts with \"a\" && @.b starts with $c)",
            "lax $?(@ starts with \"a\" && @.\"b\" starts with $c)",
        ),
    ] {
        let found = canonical(rt.alloc(), text)?;
        expect(&rt, found.as_str(), want, text);
        let again = canonical(rt.alloc(), found.as_str())?;
        expect(&rt, again.as_str(), want, want);
    }
    Ok(())
}
