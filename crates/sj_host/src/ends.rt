// Where lines end.
ghost use Rattle.std.specs.Prelude.{◌≡◌, ◌<◌, ◌≤◌, [], length, take, IfSome};
ghost use Rattle.sj_rows.specs.Lines.{whole_lines, open_part};

use memchr::{memchr, memrchr};

/// How many bytes the lines have that end in a line feed.
#[tactic(auto, using(crate::proofs::Feeds::none_there))]
pub(crate) fn last_end(bytes: &[u8]) -> usize
    ensures within { result ≤ length bytes.now }
    ensures ends { open_part (take result bytes.now) ≡ [] }
    ensures none { result ≡ 0 → whole_lines bytes.now ≡ [] }
{
    match memrchr(b'\n', bytes) {
        Some(at) => at + 1,
        None => 0,
    }
}

/// How many bytes the first line has with its line feed, where there is one.
fn first_end(bytes: &[u8]) -> Option<usize>
    ensures within { IfSome result (λ end. end ≤ length bytes.now) }
    ensures ends { IfSome result (λ end. open_part (take end bytes.now) ≡ []) }
    ensures some { IfSome result (λ end. 0 < end) }
{
    match memchr(b'\n', bytes) {
        Some(at) => Some(at + 1),
        None => None,
    }
}

/// Fewer of these lines, about half of their bytes: a front that ends in a line feed, or nothing if they are one line.
#[tactic(auto, using(crate::proofs::Feeds::ends_within))]
pub(crate) fn fewer(lines: &[u8]) -> Option<usize>
    ensures less { IfSome result (λ end. end < length lines.now) }
    ensures ends { IfSome result (λ end. open_part (take end lines.now) ≡ []) }
    ensures some { IfSome result (λ end. 0 < end) }
{
    let half = last_end(&lines[..lines.len() / 2]);
    if half > 0 {
        return Some(half);
    }
    match first_end(lines) {
        Some(end) => { if end < lines.len() { Some(end) } else { None } }
        None => None,
    }
}
