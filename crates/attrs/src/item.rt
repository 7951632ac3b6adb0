//! One item of attribute text, and reading it.
ghost use Rattle.std.specs.Prelude.{◌≡◌, ℕ, ◌+◌, ◌-◌, ◌<◌, ◌≤◌, List, length, take, drop, IfSome, IfOk};
ghost use Rattle.std.specs.Option as options;
ghost use Rattle.std.specs.Result as results;
ghost use Rattle.attrs.specs.Grammar.{Keyed, Quoted, Apart};
ghost use Rattle.attrs.specs.Flaws.{ValueFlaw};

use crate::bytes::{is_key_byte, is_quote, is_white, run_end};
use crate::fault::Flaw;
use std::ops::Range;

/// An item: its key, its value without the quotes, and the places of both in the text.
#[derive(Clone, Copy, Debug, PartialEq, Eq)]
pub struct Item<'t> {
    pub key: &'t [u8],
    pub value: &'t [u8],
    pub key_place: usize,
    pub value_place: usize,
}

/// Where a key ends, and where its `=` stands.
#[derive(Clone, Copy)]
pub(crate) struct KeyBounds {
    pub(crate) end: usize,
    pub(crate) equals: usize,
}

/// The bounds of the key that begins at `start`; none where there is no key with an `=` after it.
// The bytes and a place in them, and no slice from there on, since what is answered are places too.
pub(crate) fn key_bounds(bytes: &[u8], start: usize) -> Option<KeyBounds>
    requires { start ≤ length bytes.now }
    ensures within { IfSome result (λ k. (start ≤ k.end) × (k.end ≤ k.equals) × (k.equals < length bytes.now)) }
    ensures keyed { options.MatchOption result ((key : List ℕ) (after : List ℕ) → Keyed (drop start bytes.now) key after → ⊥) (λ k. Keyed (drop start bytes.now) (take (k.end - start) (drop start bytes.now)) (drop (k.equals + 1) bytes.now)) }
{
    let end = run_end(bytes, start, is_key_byte);
    let equals = run_end(bytes, end, is_white);
    if end == start || bytes.get(equals) != Some(&b'=') {
        return None;
    }
    Some(KeyBounds { end, equals })
}

/// The bounds, without its quotes, of the value that follows an `=`, from the byte after it on.
pub(crate) fn value_bounds(bytes: &[u8], from: usize) -> Result<Range<usize>, Flaw>
    requires { from ≤ length bytes.now }
    ensures within { IfOk result (λ v. (from < v.start) × (v.start ≤ v.end) × (v.end < length bytes.now)) }
    ensures quoted { results.MatchResult result (λ v. Quoted (drop from bytes.now) (take (v.end - v.start) (drop v.start bytes.now)) (drop (v.end + 1) bytes.now)) (λ flaw. ValueFlaw (drop from bytes.now) flaw) }
    ensures apart { IfOk result (λ v. Apart (drop (v.end + 1) bytes.now)) }
{
    let open = run_end(bytes, from, is_white);
    let mark = bytes
        .get(open)
        .copied()
        .filter(|byte| is_quote(*byte))
        .ok_or(Flaw::NoQuote)?;
    let start = open + 1;
    let end = run_end(bytes, start, |byte| byte != mark);
    if end == bytes.len() {
        return Err(Flaw::NotClosed);
    }
    if bytes.get(end + 1).is_some_and(|byte| !is_white(*byte)) {
        return Err(Flaw::NoSpace);
    }
    Ok(start..end)
}
