// Texts that a document stores, looked at and copied by their windows.
ghost use Rattle.std.specs.Prelude.{◌≡◌, ◌≤◌, ◌∷◌, take, length, true, IfSome, Some};
ghost use Rattle.sj_doc.specs.Listed.{node_key};
ghost use Rattle.sj_doc.specs.StoredTexts.{IsWindow};
ghost use Rattle.sj_text.specs.Windows.{StandsQuoted, StandsAsKey};

use crate::window::stops_in_16;
use sj_doc::{NodeRef, WINDOW};
use std::simd::prelude::*;

// The most bytes of a string that comes at once, between quotation marks.
const MOST_OF_STRING: usize = WINDOW - 2;

// The most bytes of a key that comes at once, between quotation marks, with a comma before it and a colon behind it.
const MOST_OF_KEY: usize = WINDOW - 4;

/// A byte, and the first bytes of a window behind it.
///
/// They are put together in a register: a window that is read right behind writes of its parts waits for them.
#[inline(always)]
pub fn led(byte: u8, window: &[u8]) -> [u8; WINDOW]
    requires { length window.now ≡ 16 }
    ensures { result ≡ byte ∷ take 15 window.now }
{
    let mut front = [byte; WINDOW];
    u8x16::from_slice(window)
        .shuffle(
            u8x16::splat(byte),
            [16, 0, 1, 2, 3, 4, 5, 6, 7, 8, 9, 10, 11, 12, 13, 14],
        )
        .copy_to_slice(&mut front);
    front
}

/// A comma, a quotation mark, and the first bytes of a window behind them.
#[inline(always)]
pub(crate) fn led_by_comma(window: &[u8]) -> [u8; WINDOW]
    requires { length window.now ≡ 16 }
    ensures { result ≡ 44 ∷ 34 ∷ take 14 window.now }
{
    let mut front = [b','; WINDOW];
    let marks = u8x16::from_array([b',', b'"', 0, 0, 0, 0, 0, 0, 0, 0, 0, 0, 0, 0, 0, 0]);
    u8x16::from_slice(window)
        .shuffle(
            marks,
            [16, 17, 0, 1, 2, 3, 4, 5, 6, 7, 8, 9, 10, 11, 12, 13],
        )
        .copy_to_slice(&mut front);
    front
}

// Whether a text of so few bytes is printed as it stands at the front of its window, and a quotation mark stands behind it.
#[inline(always)]
fn stands_quoted(text: &str, window: &[u8], most: usize) -> bool
    requires window { IsWindow text.now window.now }
    requires room { most ≤ MOST_OF_STRING }
    ensures short { result ≡ true → length text.now ≤ most }
    ensures quoted { result ≡ true → StandsQuoted text.now window.now }
{
    let len = text.len();
    if len > most {
        return false;
    }
    let stops = stops_in_16(u8x16::from_slice(window));
    if stops == 0 {
        return false;
    }
    if stops.trailing_zeros() as usize != len {
        return false;
    }
    window[len] == b'"'
}

/// Whether a string comes at once: it is printed as it stands at the front of its window, with a quotation mark behind it.
#[inline(always)]
pub(crate) fn is_short_string(text: &str, window: &[u8]) -> bool
    requires { IsWindow text.now window.now }
    ensures { result ≡ true → StandsQuoted text.now window.now }
{
    stands_quoted(text, window, MOST_OF_STRING)
}

/// The window of a key that comes at once: it is printed as it stands there, with a quotation mark and a colon behind it.
#[inline(always)]
pub(crate) fn short_key<'d>(node: NodeRef<'d>, key: &str) -> Option<&'d [u8]>
    requires { node_key node ≡ Some key.now }
    ensures { IfSome result (λ w. StandsAsKey key.now w.now) }
{
    let window = node.stored_key()?.window?;
    if stands_quoted(key, window, MOST_OF_KEY) && window[key.len() + 1] == b':' {
        Some(window)
    } else {
        None
    }
}
