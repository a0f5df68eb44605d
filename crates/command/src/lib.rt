// The command `dnr`: an area becomes a record sheet, a sheet becomes octets, a sheet is shown as text or as JSON, and any input as octets.
// `execute` is the whole program: it takes the arguments, and its answer is how the command ends (docs/COMMAND.md, "Exit status"). A result is made
// whole in memory before any of it is written. What is read and what is written, no contract can say; the work itself is that of `reading`, `writing`
// and `showing`.
#![tactic(auto)]

mod help;
mod hints;
mod reads;
mod writes;

ghost use Rattle.std.specs.Prelude.{◌<◌, length};
ghost use Rattle.inputs.specs.Read.{read_in};
ghost use Rattle.decoding.specs.Decoding.{Answered, room};
ghost use Rattle.files.specs.Status.{Delivered, Exited, status_of};
ghost use Rattle.command.specs.Numbers.{Performs, input_of, Takes};

use arguments::{Asked, Command, Form};
use files::{Stop, System, Voice, input, output};
use forms::places;
use inputs::Unread;
use numbers::{Limit, Refusal};

// Octets that hold the text of any sheet: 16 for each octet of the sheet. A parameter without a value takes 4 octets of a sheet and 48 of JSON at most,
// an octet of a value 5, a mandatory key 18 for its 2, an address of 16 a line of 60.
const TEXT: usize = 16 * Limit::SHEET;

// Does what is asked with the octets that were given.
fn perform<R: System>(voice: &Voice<R>, a: Asked, s: &[u8]) -> Result<(), Stop>
    ensures { Performs a s.now (status_of result) }
{
    let mut text = [0u8; TEXT];
    perform_in(voice, a, s, &mut text)
}

// The same with room for the text. Where a long array is lent as an array, no proof computes its length.
fn perform_in<R: System>(
    voice: &Voice<R>,
    a: Asked,
    s: &[u8],
    text: &mut [u8; TEXT],
) -> Result<(), Stop>
    ensures { Performs a s.now (status_of result) }
{
    match a.command {
        Some(Command::Read) => reads::read(voice, a, s, text),
        Some(Command::Write) => writes::write(voice, a, s, text),
        Some(Command::Show) => writes::show(voice, s, text),
        _ => writes::give_octets(voice, a, s, text),
    }
}

// Reads the input as it is asked for: its octets, or the options of its values.
fn decode(a: Asked, text: &[u8], out: &mut [u8]) -> Result<usize, Unread>
    requires { length out.old < 65536 }
    ensures { Answered (input_of a text.now out.old) (read_in result) out.new }
{
    let form = Form::number_in(a.form);
    if !a.value {
        return decoding::read(form, text, out);
    }
    match a.carrier {
        Some(c) => decoding::read_values(form, c, text, out),
        None => decoding::read(form, text, out),
    }
}

// Takes the input, or says why it spells no octets.
fn perform_on<R: System>(voice: &Voice<R>, a: Asked, text: &[u8]) -> Result<(), Stop>
    ensures { Takes a (input_of a text.now room) (status_of result) }
{
    let mut given = [0u8; Limit::INPUT];
    match decode(a, text, &mut given) {
        Ok(n) => {
            let end = n.min(Limit::INPUT);
            perform(voice, a, &given[..end])
        }
        Err(Unread::Bad { at, why }) => Err(voice.unread(places::line(text, at), why)),
        Err(Unread::Long) => Err(voice.refused(Refusal::Input.number(), None)),
    }
}

// Reads the input to `text`, and does what is asked with it.
fn run_on<R: System>(voice: &Voice<R>, a: Asked, text: &mut [u8]) -> Result<(), Stop>
    ensures { Exited (status_of result) }
{
    let s = input::read(voice, a.input, text)?;
    if input::MOST < s.len() {
        return Err(voice.long());
    }
    perform_on(voice, a, s)
}

// The same with the name that messages give the input.
fn run_in<R: System>(voice: &Voice<R>, a: Asked, text: &mut [u8; input::ROOM]) -> Result<(), Stop>
    ensures { Exited (status_of result) }
{
    let mut path = io::buffer();
    run_on(
        &voice.about(input::name(voice.rt, a.input, &mut path)),
        a,
        text,
    )
}

// The same with room for the input.
fn run<R: System>(voice: &Voice<R>, a: Asked) -> Result<(), Stop>
    ensures { Exited (status_of result) }
{
    let mut text = [0u8; input::ROOM];
    run_in(voice, a, &mut text)
}

// Says on standard error how the command is used; whether it could be written, no one is told.
fn say_help<R: System>(rt: &R) {
    let _ = rt.errors().write_all(help::TEXT);
}

// Prints the version.
fn print_version<R: System>(voice: &Voice<R>) -> Result<(), Stop>
    ensures { Delivered (status_of result) }
{
    if voice.json {
        return output::print(voice, b"{\"version\":\"0.3.0\"}\n");
    }
    output::print(voice, b"dnr 0.3.0\n")
}

// The help is text also where JSON is asked for, and so is what is said where it cannot be printed.
fn print_help<R: System>(rt: &R) -> Result<(), Stop>
    ensures { Delivered (status_of result) }
{
    let voice = Voice {
        rt,
        json: false,
        name: b"",
    };
    output::print(&voice, help::TEXT)
}

// The command, with the arguments of the process.
pub fn execute<R: System>(rt: &R) -> Result<(), Stop>
    ensures { Exited (status_of result) }
{
    if arguments::count(rt) < 2 {
        say_help(rt);
        return Err(Stop::Failed);
    }
    let a = arguments::given(rt);
    let voice = Voice {
        rt,
        json: a.json,
        name: b"",
    };
    if let Some(complaint) = a.wrong {
        return Err(voice.usage(complaint));
    }
    match a.command {
        Some(Command::Help) => print_help(rt),
        Some(Command::Version) => print_version(&voice),
        _ => run(&voice, a),
    }
}
