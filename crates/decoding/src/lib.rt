// The octets of an input (docs/COMMAND.md, "Input"): as they are, or spelled by a text; and the options that hold the values which an input has.
#![tactic(auto)]

ghost use Rattle.std.specs.Prelude.{◌≡◌, ◌≤◌, length};
ghost use Rattle.inputs.specs.Read.{read_in};
ghost use Rattle.decoding.specs.Decoding.{Answered, raw_of, read_as, read_of, added_of, at_value, line_of, lines_of, is_lines, values_of};

use arguments::Form;
use carriers::Carrier;
use forms::places;
use inputs::Unread;
use numbers::Limit;

// ---- octets

// Takes octets as they are.
fn read_raw(s: &[u8], out: &mut [u8]) -> Result<usize, Unread>
    ensures { Answered (raw_of s.now out.old) (read_in result) out.new }
{
    if out.len() < s.len() {
        return Err(Unread::Long);
    }
    Ok(octets::copy(out, 0, s))
}

// Reads an input in the form that is asked for; where none is, text in the form that it has, and anything else as it is.
#[tactic(auto, unfolding(crate::specs::Decoding::read_as))]
fn read_as(form: Option<Form>, text: &[u8], out: &mut [u8]) -> Result<usize, Unread>
    ensures { Answered (read_as form text.now out.old) (read_in result) out.new }
{
    match form {
        Some(Form::Raw) => read_raw(text, out),
        Some(Form::Base64) => base64_text::read(text, out),
        Some(Form::Hex) => forms::read(text, out),
        None => {
            if places::is_text(text) {
                forms::read(text, out)
            } else {
                read_raw(text, out)
            }
        }
    }
}

// The same by the number of the form (`Form::of`).
pub fn read(form: usize, text: &[u8], out: &mut [u8]) -> Result<usize, Unread>
    ensures { Answered (read_of form text.now out.old) (read_in result) out.new }
{
    read_as(Form::of(form), text, out)
}

// ---- values

// Whether an input is lines of values, by the number of the form: text, but for base64.
fn is_lines(form: usize, text: &[u8]) -> bool
    ensures { result ≡ is_lines form text.now }
{
    match form {
        0 => places::is_text(text),
        1 => true,
        _ => false,
    }
}

// Adds the options of what was read to `value` after the first n octets of `out`.
fn add_read(
    c: Carrier,
    read: Result<usize, Unread>,
    value: &[u8],
    out: &mut [u8],
    n: usize,
) -> Result<usize, Unread>
    requires { n ≤ length out.old }
    ensures { Answered (added_of c (read_in read) value.now out.old n) (read_in result) out.new }
{
    let k = read?;
    let end = k.min(value.len());
    headers::add(out, n, c, &value[..end])
}

// A fault in the blanks before a value is at the value's first character: a blank belongs to the line of what stands before it (`places::line`).
fn at_value(line: &[u8], read: Result<usize, Unread>) -> Result<usize, Unread>
    ensures { read_in result ≡ at_value line.now (read_in read) }
{
    match read {
        Err(Unread::Bad { at, why }) => Err(Unread::Bad {
            at: at.max(places::begin(line)),
            why,
        }),
        read => read,
    }
}

// Adds the options of the value of a line.
fn add_line(c: Carrier, line: &[u8], out: &mut [u8], n: usize) -> Result<usize, Unread>
    requires { n ≤ length out.old }
    ensures { Answered (line_of c line.now out.old n) (read_in result) out.new }
{
    let mut value = [0u8; Limit::INPUT];
    let read = forms::read_list(line, &mut value);
    at_value(line, add_read(c, read, &value, out, n))
}

// Reads lines of values.
fn read_lines(c: Carrier, text: &[u8], out: &mut [u8]) -> Result<usize, Unread>
    ensures { Answered (lines_of c text.now out.old) (read_in result) out.new }
{
    let mut n = 0;
    let mut i = 0;
    while i < text.len() {
        let end = places::place(text, i, b'\n');
        match add_line(c, &text[i..end], out, n) {
            Ok(m) => {
                n = m;
            }
            Err(unread) => return Err(unread.back(i)),
        }
        i = end + 1;
    }
    Ok(n)
}

// Reads the options of the values of an input: one a line, or the whole input as one.
pub fn read_values(form: usize, c: Carrier, text: &[u8], out: &mut [u8]) -> Result<usize, Unread>
    ensures { Answered (values_of form c text.now out.old) (read_in result) out.new }
{
    if is_lines(form, text) {
        return read_lines(c, text, out);
    }
    let mut value = [0u8; Limit::INPUT];
    let whole = read(form, text, &mut value);
    add_read(c, whole, &value, out, 0)
}
