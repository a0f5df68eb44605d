// The words of a command line that have a number, and words by how they begin (docs/COMMAND.md). A table has an entry to a line, as `words` has it: the
// number as an octet (in hexadecimal), the word and a line break. `arguments/Tables` has the numbers by name, and the tables are proved to be the same.
ghost use Rattle.std.specs.Prelude.{◌≡◌};
ghost use Rattle.arguments.specs.Command as command;
ghost use Rattle.arguments.specs.Options as option;
ghost use Rattle.arguments.specs.Tables.{command_of, option_of, carrier_of, is_option, is_dash, front_of};

use crate::{Command, Form};
use carriers::Carrier;
use words::number_of;

// The options.
#[derive(Clone, Copy)]
pub enum Choice {
    Form(Form),
    Output,
    Json,
    Value,
    Strict,
    Force,
    Help,
    // `--`: no later word is an option.
    End,
}

impl Command {
    // The command of a number of the table.
    fn of(number: usize) -> Option<Self>
        ensures { result ≡ command.of number }
    {
        match number {
            1 => Some(Self::Read),
            2 => Some(Self::Write),
            3 => Some(Self::Show),
            4 => Some(Self::Octets),
            5 => Some(Self::Help),
            6 => Some(Self::Version),
            _ => None,
        }
    }
}

impl Choice {
    // The option of a number of the table.
    fn of(number: usize) -> Option<Self>
        ensures { result ≡ option.of number }
    {
        match number {
            1 => Some(Self::Form(Form::Hex)),
            2 => Some(Self::Form(Form::Raw)),
            3 => Some(Self::Form(Form::Base64)),
            4 => Some(Self::Output),
            5 => Some(Self::Json),
            6 => Some(Self::Value),
            7 => Some(Self::Strict),
            8 => Some(Self::Force),
            9 => Some(Self::Help),
            10 => Some(Self::End),
            _ => None,
        }
    }
}

// The command that a word names.
pub fn command_named(word: &[u8]) -> Option<Command>
    ensures { result ≡ command_of word.now }
{
    Command::of(number_of(
        b"\x01read\n\
          \x02write\n\
          \x03show\n\
          \x04octets\n\
          \x05help\n\
          \x05--help\n\
          \x05-h\n\
          \x06version\n\
          \x06--version\n\
          \x06-V\n",
        word,
    ))
}

// The option that a word is.
pub fn option_named(word: &[u8]) -> Option<Choice>
    ensures { result ≡ option_of word.now }
{
    Choice::of(number_of(
        b"\x01--hex\n\
          \x02--raw\n\
          \x03--base64\n\
          \x04-o\n\
          \x04--output\n\
          \x05--json\n\
          \x06--value\n\
          \x07--strict\n\
          \x08--force\n\
          \x09--help\n\
          \x09-h\n\
          \x0a--\n",
        word,
    ))
}

// The carrier that a word names by its number or its name.
pub fn carrier_named(word: &[u8]) -> Option<Carrier>
    ensures { result ≡ carrier_of word.now }
{
    Carrier::of(number_of(
        b"\x011\n\
          \x01dhcp4\n\
          \x01dhcpv4\n\
          \x01DHCP4\n\
          \x01DHCPv4\n\
          \x01DHCPV4\n\
          \x022\n\
          \x02dhcp6\n\
          \x02dhcpv6\n\
          \x02DHCP6\n\
          \x02DHCPv6\n\
          \x02DHCPV6\n\
          \x033\n\
          \x03ra\n\
          \x03RA\n\
          \x044\n\
          \x04ike4\n\
          \x04IKE4\n\
          \x04encdns_ip4\n\
          \x04ENCDNS_IP4\n\
          \x055\n\
          \x05ike6\n\
          \x05IKE6\n\
          \x05encdns_ip6\n\
          \x05ENCDNS_IP6\n",
        word,
    ))
}

// Whether a word is an option: a hyphen and more.
pub fn is_option(word: &[u8]) -> bool
    ensures { result ≡ is_option word.now }
{
    1 < word.len() && word[0] == b'-'
}

// Whether a name is `-`: standard input, standard output.
pub fn is_dash(name: &[u8]) -> bool
    ensures { result ≡ is_dash name.now }
{
    octets::same(name, b"-")
}

// How many octets stand before the file's name in a word that holds both an option and the name; none in any other.
pub fn front_of(word: &[u8]) -> Option<usize>
    ensures { result ≡ front_of word.now }
{
    if word.starts_with(b"-o") {
        return Some(2);
    }
    if word.starts_with(b"--output=") {
        return Some(9);
    }
    None
}
