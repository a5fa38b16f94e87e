ghost use Rattle.std.specs.Prelude.{◌≡◌, ◌==◌, ◌<◌, ◌∷◌, false, length, count_by, MatchOption};
ghost use Rattle.std.specs.Str.Lines.{lines, strip_carriage_return};
ghost use Rattle.br_model.specs.BootstrapText.{before_comment, has_closed_quotes};
ghost use Rattle.br_bsr.specs.Scan.{AreAround, LacksByte};

use br_types::place_of;

/// Returns the text before the first byte `end` and the text after it; `None` if there is no such
/// byte.
pub fn cut(text: &[u8], end: u8) -> Option<(&[u8], &[u8])>
    ensures { MatchOption result (LacksByte end text.now) (λ x. AreAround end text.now x.0.now x.1.now) }
{
    match place_of(text, end) {
        Some(i) => Some((&text[..i], &text[i + 1..])),
        None => None,
    }
}

/// Returns the text before its comment, which begins with the first `#` outside quotes.
pub fn without_comment(text: &[u8]) -> &[u8]
    ensures { result.now ≡ before_comment false text.now }
{
    let mut is_quoted = false;
    for (i, byte) in text.iter().enumerate() {
        if *byte == b'#' && !is_quoted {
            return &text[..i];
        }
        if *byte == b'"' {
            is_quoted = !is_quoted;
        }
    }
    text
}

/// Returns the number of quotes.
fn count_quotes(text: &[u8]) -> usize
    ensures { result ≡ count_by (λ c. c == 34) text.now }
{
    text.iter().filter(|byte| **byte == b'"').count()
}

/// Returns whether each quote that is opened is closed.
pub fn are_quotes_closed(text: &[u8]) -> bool
    ensures { result ≡ has_closed_quotes text.now }
{
    count_quotes(text) % 2 == 0
}

/// Returns the line without the CR at its end, if it has one.
fn without_return(line: &[u8]) -> &[u8]
    ensures { result.now ≡ strip_carriage_return line.now }
{
    if !line.is_empty() && line[line.len() - 1] == b'\r' {
        &line[..line.len() - 1]
    } else {
        line
    }
}

/// Returns the first line of a text without its end, and the text after it.
pub fn first_line(text: &[u8]) -> (&[u8], &[u8])
    requires { 0 < length text.now }
    ensures first { lines text.now ≡ result.0.now ∷ lines result.1.now }
    ensures shorter { length result.1.now < length text.now }
{
    match cut(text, b'\n') {
        Some((line, rest)) => (without_return(line), rest),
        None => (text, &text[text.len()..]),
    }
}
