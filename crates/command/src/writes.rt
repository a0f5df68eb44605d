// `write`, `show` and `octets`: a sheet becomes octets or text, and any input octets.
ghost use Rattle.std.specs.Prelude.{◌≡◌};
ghost use Rattle.vetting.specs.Vetting.{vet_of};
ghost use Rattle.vetting.specs.Vetting as vetting;
ghost use Rattle.files.specs.declared.status.Stop.TheVariants.{Refused};
ghost use Rattle.files.specs.Status.{Delivered, Answers, status_of};
ghost use Rattle.command.specs.Numbers.{write_number, Shows};

use arguments::Asked;
use files::{Stop, System, Voice, output};
use numbers::{Fault, Limit, Refusal};

// Octets that hold what any sheet is written as: 16 records of `Limit::RECORD` octets, and less than 64 more for each.
const OCTETS: usize = Limit::INPUT;

// Prints octets as hexadecimal text, or saves them.
pub fn give_octets<R: System>(
    voice: &Voice<R>,
    a: Asked,
    s: &[u8],
    text: &mut [u8],
) -> Result<(), Stop>
    ensures { Delivered (status_of result) }
{
    match a.output {
        Some(file) => output::save_octets(voice, file, s),
        None => output::print_hex(voice, s, text),
    }
}

// Says that a sheet is refused; with 22 also at which octet, and why the resolver's name there is bad.
fn refuse_sheet<R: System>(voice: &Voice<R>, sheet: &[u8], number: usize, place: usize) -> Stop
    ensures { result ≡ Refused }
{
    if number == Fault::Name.number() {
        return voice.refused_at(place, findings::sheet::reason(sheet, place));
    }
    voice.refused(number, None)
}

// Writes the octets of a sheet.
pub fn write<R: System>(
    voice: &Voice<R>,
    a: Asked,
    sheet: &[u8],
    text: &mut [u8],
) -> Result<(), Stop>
    ensures { Answers (write_number sheet.now) (status_of result) }
{
    let mut octets = [0u8; OCTETS];
    let w = writing::write(sheet, &mut octets);
    if w.number != 0 {
        return Err(refuse_sheet(voice, sheet, w.number, w.place));
    }
    let n = w.length;
    give_octets(voice, a, &octets[..n], text)
}

// Prints a sheet.
fn print_sheet<R: System>(voice: &Voice<R>, sheet: &[u8], text: &mut [u8]) -> Result<(), Stop>
    ensures { Delivered (status_of result) }
{
    let n = showing::show(sheet, text, voice.json);
    output::print(voice, &text[..n])
}

// Shows a sheet that writing accepts: one that passes, and of which no record is large (44).
pub fn show<R: System>(voice: &Voice<R>, sheet: &[u8], text: &mut [u8]) -> Result<(), Stop>
    ensures { Shows (vetting.told (vet_of sheet.now)) (status_of result) }
{
    match vetting::vet(sheet) {
        Err(unfit) => Err(refuse_sheet(voice, sheet, unfit.number(), unfit.place())),
        Ok(vetted) => {
            if vetted.large {
                return Err(voice.refused(Refusal::Large.number(), None));
            }
            print_sheet(voice, sheet, text)
        }
    }
}
