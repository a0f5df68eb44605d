// Places in a text: what is looked for stands at an index, or nowhere, which is the text's length.
ghost use Rattle.std.specs.Prelude.{◌≡◌, ◌≤◌, ◌<◌, length, drop, unwrap_or, IfSome, not};
ghost use Rattle.std.specs.List.{list_any, position};
ghost use Rattle.forms.specs.Places.{blank, control, wide_text, textual_of, place_of, begin_of, line_of, brace_of};
ghost use Rattle.forms.specs.Places.{begins_in, begins_with, packet_of};

use hexes::is_digit;
use inputs::is_blank;

// Whether x stands in no text. A terminal's colours (escape) and page breaks (form feed) do.
#[tactic(auto, unfolding(crate::specs::Places::control))]
fn is_control(x: u8) -> bool
    ensures { result ≡ control x }
{
    match x {
        27 | 12 => false,
        127 => true,
        _ => x < b' ' && !is_blank(x),
    }
}

// Whether a text in 16-bit characters begins here: with a byte order mark.
#[tactic(auto, unfolding(crate::specs::Places::wide_text))]
fn is_wide(text: &[u8]) -> bool
    ensures { result ≡ wide_text text.now }
{
    matches!(text, [255, 254, ..] | [254, 255, ..])
}

// Whether a control character is among octets.
fn has_control(text: &[u8]) -> bool
    ensures { result ≡ list_any control text.now }
{
    text.iter().any(|x| is_control(*x))
}

// Where the first character that is no blank stands.
fn unblank(text: &[u8]) -> Option<usize>
    ensures { result ≡ position (λ x. not (blank x)) text.now }
{
    text.iter().position(|x| !is_blank(*x))
}

// Whether octets look like text: none of them is a control character; or they begin as text in 16-bit characters does.
pub fn is_text(text: &[u8]) -> bool
    ensures { result ≡ textual_of text.now }
{
    is_wide(text) || !has_control(text)
}

// Where the first x stands at `from` or after it. Of `place` and `begin` nowhere is the text's length, at which callers cut it then: no Option.
pub fn place(text: &[u8], from: usize, x: u8) -> usize
    requires { from ≤ length text.now }
    ensures { (result ≡ place_of x from (drop from text.now)) × (from ≤ result) × (result ≤ length text.now) }
{
    for i in from..text.len() {
        if text[i] == x {
            return i;
        }
    }
    text.len()
}

// Where the first character that is no blank stands.
pub fn begin(text: &[u8]) -> usize
    ensures { (result ≡ begin_of 0 text.now) × (result ≤ length text.now) }
{
    unblank(text).unwrap_or(text.len())
}

// In which line the character at `at` stands, counted from 1; a blank, and the end of the text, belong to the line of what stands before them.
pub fn line(text: &[u8], at: usize) -> usize
    ensures { result ≡ line_of at text.now }
{
    let mut line = 1;
    let mut breaks = 0;
    for (i, x) in text.iter().enumerate() {
        if at < i {
            return line;
        }
        if *x == b'\n' {
            breaks += 1;
        }
        if !is_blank(*x) {
            line += breaks;
            breaks = 0;
        }
    }
    line
}

// What a line begins with after blanks.
#[derive(Clone, Copy)]
pub enum Begins {
    // Nothing yet.
    Nothing,
    // 0.
    Zero,
    // 0x and digits.
    Digits,
    // 0x and digits and a colon.
    Offset,
    // Anything else.
    Other,
}

impl Begins {
    // With one character more.
    #[tactic(auto, unfolding(crate::specs::Places::begins_with, crate::specs::Places::begins_line, crate::specs::Places::begins_offset))]
    fn with(self, x: u8) -> Self
        ensures { begins_in result ≡ begins_with (begins_in self) x }
    {
        match (self, x) {
            (_, b'\n') => Begins::Nothing,
            (Begins::Nothing, b'0') => Begins::Zero,
            (Begins::Nothing, _) if is_blank(x) => Begins::Nothing,
            (Begins::Zero, b'x') => Begins::Digits,
            (Begins::Digits, b':') => Begins::Offset,
            (Begins::Digits, _) if is_digit(x) => Begins::Digits,
            _ => Begins::Other,
        }
    }
}

// Where the first line begins that begins with 0x, digits and a colon: the lines before it are the head of a packet.
pub fn packet(text: &[u8]) -> Option<usize>
    ensures at { unwrap_or result (length text.now) ≡ packet_of text.now }
    ensures inside { IfSome result (λ i. i < length text.now) }
{
    let mut line = 0;
    let mut so_far = Begins::Nothing;
    for (i, x) in text.iter().enumerate() {
        so_far = so_far.with(*x);
        match so_far {
            Begins::Offset => return Some(line),
            Begins::Nothing => line = i + 1,
            _ => {}
        }
    }
    None
}

// Where the first brace stands, if nothing but blanks stands before it, or an = and blanks: an array's.
pub fn brace(text: &[u8]) -> Option<usize>
    ensures at { unwrap_or result (length text.now) ≡ brace_of text.now }
    ensures inside { IfSome result (λ i. i < length text.now) }
{
    let mut last = b'=';
    for (i, x) in text.iter().enumerate() {
        if *x == b'{' {
            return (last == b'=').then_some(i);
        }
        if !is_blank(*x) {
            last = *x;
        }
    }
    None
}
