ghost use Rattle.std.specs.Prelude.{◌≡◌, ◌==◌, ◌<◌, ◌+◌, ℕ, position, [], ◌∷◌, length, take, drop, Some, None, MatchOption, IfSome};
ghost use Rattle.spec_script.specs.Words as grammar;

const NEWLINE: u8 = b'\n';

// Where the first separator stands.
fn first_place(separator: u8, bytes: &[u8]) -> Option<usize>
    ensures { result ≡ position (λ b. b == separator) bytes.now }
{
    bytes.iter().position(|b| *b == separator)
}

/// The bytes before the first separator and those behind it. None where there is no separator.
pub fn split_once(separator: u8, bytes: &[u8]) -> Option<(&[u8], &[u8])>
    ensures pieces { MatchOption result
        (grammar.split_at separator bytes.now ≡ bytes.now ∷ [])
        (λ p. grammar.split_at separator bytes.now ≡ p.0.now ∷ grammar.split_at separator p.1.now) }
    ensures place { MatchOption result
        (position (λ b. b == separator) bytes.now ≡ None)
        (λ p. (place : ℕ) × (position (λ b. b == separator) bytes.now ≡ Some place)
        × (p.0.now ≡ take place bytes.now) × (p.1.now ≡ drop (place + 1) bytes.now)) }
    ensures shorter { IfSome result (λ p. length p.1.now < length bytes.now) }
{
    match first_place(separator, bytes) {
        Some(place) => Some((&bytes[..place], &bytes[place + 1..])),
        None => None,
    }
}

/// The first line of a text, without its newline, and what follows.
pub fn first_line(text: &[u8]) -> (&[u8], &[u8])
    requires { 0 < length text.now }
    ensures lines { grammar.lines_of text.now ≡ result.0.now ∷ grammar.lines_of result.1.now }
    ensures shorter { length result.1.now < length text.now }
{
    match split_once(NEWLINE, text) {
        Some((line, after)) => (line, after),
        None => (text, &[]),
    }
}
