// The forms in which octets are given as text (docs/COMMAND.md, "Input"), told apart by what stands at the front of a text, and each read by the crate
// of its form. Text that is in none of them is refused at the character at which it leaves the form that its front shows.
#![tactic(auto)]

ghost use Rattle.std.specs.Prelude.{◌≡◌};
ghost use Rattle.inputs.specs.Read.{read_in};
ghost use Rattle.inputs.specs.Why as whys;
ghost use Rattle.forms.specs.Fronts.{number_of};
ghost use Rattle.forms.specs.Forms as forms;
ghost use Rattle.forms.specs.Forms.{as_of, list_of, braced_of, headed_of, read_of, Answered};

mod array;
mod front;
pub mod places;

use dumps::Style;
use front::Form;
use groups::Kind;
use inputs::{Unread, Why};

// ---- the forms as data

// A dump whose offsets stand before a blank, whose text column may be fenced, and that may end in an offset alone.
fn bare(digits: usize, opening: Option<u8>, closing: Option<u8>, column: bool, ends: bool) -> Style
    ensures { result ≡ forms.bare digits opening closing column ends }
{
    Style {
        digits,
        prefix: false,
        colon: false,
        pairs: false,
        opening,
        closing,
        column,
        ends,
    }
}

// A dump whose offsets stand before a colon.
fn colon(digits: usize, prefix: bool) -> Style
    ensures { result ≡ forms.colon digits prefix }
{
    Style {
        digits,
        prefix,
        colon: true,
        pairs: true,
        opening: None,
        closing: None,
        column: false,
        ends: false,
    }
}

// The dump of a form.
#[tactic(auto, unfolding(crate::specs::Forms::style_of))]
fn style(form: Form) -> Style
    ensures { result ≡ forms.style_of (number_of form) }
{
    match form {
        Form::Wireshark => bare(4, None, None, false, false),
        Form::Od => bare(6, Some(b'>'), Some(b'<'), false, true),
        Form::Hexdump => bare(8, Some(b'|'), Some(b'|'), true, true),
        Form::Xxd => colon(8, false),
        _ => colon(4, true),
    }
}

// A list with a mark between two groups of a line.
fn marked(mark: u8, single: bool) -> Kind
    ensures { result ≡ forms.marked mark single }
{
    Kind {
        prefix: false,
        mark,
        marked: true,
        single,
        lines: false,
        whole: false,
    }
}

// The list of a form. dhclient writes octets below 16 with one digit, between colons.
#[tactic(auto, unfolding(crate::specs::Forms::kind_of))]
fn kind(form: Form) -> Kind
    ensures { result ≡ forms.kind_of (number_of form) }
{
    match form {
        Form::Colons => marked(b':', true),
        Form::Commas => marked(b',', false),
        Form::Dashes => marked(b'-', false),
        Form::Prefixes => Kind {
            prefix: true,
            mark: b',',
            marked: false,
            single: true,
            lines: false,
            whole: true,
        },
        _ => Kind {
            prefix: false,
            mark: 0,
            marked: false,
            single: false,
            lines: true,
            whole: false,
        },
    }
}

// ---- reading

// Reads a text in a form.
fn read_as(form: Form, text: &[u8], out: &mut [u8]) -> Result<usize, Unread>
    ensures { Answered (as_of (number_of form) text.now out.old) (read_in result) out.new }
{
    if form.is_dump() {
        return dumps::read(style(form), text, out);
    }
    match form {
        Form::Escapes => groups::escapes::read(text, out),
        _ => groups::read(kind(form), text, out),
    }
}

// Reads a list, and no dump: one option's value.
pub fn read_list(text: &[u8], out: &mut [u8]) -> Result<usize, Unread>
    ensures { Answered (list_of text.now out.old) (read_in result) out.new }
{
    let form = front::form_of(text);
    if form.is_dump() {
        return Err(Unread::Bad {
            at: 0,
            why: Why::Form,
        });
    }
    read_as(form, text, out)
}

// A text whose front shows a list, and that leaves it at `at`: on the first line it is no list, but may be a packet's head before a dump, or what stands
// before an array.
fn read_headed(text: &[u8], at: usize, why: Why, out: &mut [u8]) -> Result<usize, Unread>
    ensures { Answered (headed_of at (whys.number_of why) text.now out.old) (read_in result) out.new }
{
    let first = places::begin(text);
    let end = places::place(text, first, b'\n');
    if end < at {
        return Err(Unread::Bad { at, why });
    }
    match places::packet(text) {
        Some(packet) if end < packet => match dumps::read(
            style(Form::Tcpdump),
            &text[packet..],
            out,
        ) {
            Ok(n) => Ok(n),
            Err(unread) => Err(unread.back(packet)),
        },
        _ => read_braced(text, at, why, out),
    }
}

// A text that may be an array, and is no other form by what is wrong at `at`.
fn read_braced(text: &[u8], at: usize, why: Why, out: &mut [u8]) -> Result<usize, Unread>
    ensures { Answered (braced_of at (whys.number_of why) text.now out.old) (read_in result) out.new }
{
    match places::brace(text) {
        Some(brace) => array::read(text, brace, out),
        None => Err(Unread::Bad { at, why }),
    }
}

// Reads a text in the form that it has. One whose front shows a dump is tried as nothing else: a text column may show an array's brace.
pub fn read(text: &[u8], out: &mut [u8]) -> Result<usize, Unread>
    ensures { Answered (read_of text.now out.old) (read_in result) out.new }
{
    let form = front::form_of(text);
    if form.is_dump() {
        return read_as(form, text, out);
    }
    match read_as(form, text, out) {
        Ok(n) => Ok(n),
        Err(Unread::Bad { at, why }) => read_headed(text, at, why, out),
        Err(Unread::Long) => Err(Unread::Long),
    }
}
