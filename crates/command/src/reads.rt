// `read`: an area becomes a record sheet, and it is said what was left out.
ghost use Rattle.std.specs.Prelude.{◌≡◌, ◌&&◌};
ghost use Rattle.carriers.specs.Carriers.{number_of};
ghost use Rattle.carriers.specs.Told.{carrier_in};
ghost use Rattle.files.specs.declared.status.Stop.TheVariants.{Refused};
ghost use Rattle.files.specs.Status.{Delivered, status_of};
ghost use Rattle.command.specs.Numbers.{reading_of, less, Gives, ReadAs};

use crate::hints::hint;
use arguments::{Asked, Target};
use carriers::Carrier;
use files::{Stop, System, Voice, input, output};
use numbers::{Limit, Refusal};
use reading::Reading;

// ---- what is said

// Says that the area is refused; where it cannot be framed, another carrier may find records.
fn refuse<R: System>(voice: &Voice<R>, carrier: Carrier, area: &[u8], number: usize) -> Stop
    ensures { result ≡ Refused }
{
    if number == Refusal::Framing.number() {
        return voice.refused(number, hint(carrier, area));
    }
    voice.refused(number, None)
}

// Says how many blocks were discarded; where all were, another carrier may find records.
fn tell_less<R: System>(voice: &Voice<R>, carrier: Carrier, area: &[u8], r: Reading) {
    if r.discarded == 0 {
        return;
    }
    if r.discarded < r.found {
        voice.less(r.discarded, r.found, None);
    } else {
        voice.less(r.discarded, r.found, hint(carrier, area));
    }
}

// Says that nothing was found, or what was left out: the discarded blocks and the dropped addresses.
fn tell<R: System>(voice: &Voice<R>, carrier: Carrier, area: &[u8], r: Reading) {
    if r.found == 0 {
        voice.nothing(carrier, area.len(), hint(carrier, area));
        return;
    }
    tell_less(voice, carrier, area, r);
    telling::list(voice.rt, voice.json, voice.name, carrier, area);
}

// ---- what is given

// Whether the file that would be replaced is a sheet with records.
fn has_records<R: System>(rt: &R, file: Target) -> bool {
    let mut room = [0u8; Limit::SHEET];
    let Some(old) = input::load(rt, file, &mut room) else {
        return false;
    };
    vetting::vet(old).is_ok_and(|vetted| 0 < vetted.count)
}

// Saves a sheet. A file that has records is not replaced by a sheet that has none, unless that is asked for.
fn save_sheet<R: System>(
    voice: &Voice<R>,
    force: bool,
    file: Target,
    r: Reading,
    sheet: &[u8],
) -> Result<(), Stop>
    ensures { Delivered (status_of result) }
{
    if r.found == r.discarded && !force && has_records(voice.rt, file) {
        return Err(output::keep(voice, file));
    }
    output::save(voice, file, sheet)
}

// Saves a sheet; in JSON its length is then printed.
fn give_saved<R: System>(
    voice: &Voice<R>,
    force: bool,
    file: Target,
    r: Reading,
    sheet: &[u8],
    text: &mut [u8],
) -> Result<(), Stop>
    ensures { Delivered (status_of result) }
{
    save_sheet(voice, force, file, r, sheet)?;
    if !voice.json {
        return Ok(());
    }
    let n = results::put_saved(text, r, sheet.len());
    output::print(voice, &text[..n])
}

// Prints a reading, or saves its sheet.
fn give_reading<R: System>(
    voice: &Voice<R>,
    a: Asked,
    r: Reading,
    sheet: &[u8],
    text: &mut [u8],
) -> Result<(), Stop>
    ensures { Delivered (status_of result) }
{
    match a.output {
        Some(file) => give_saved(voice, a.force, file, r, sheet, text),
        None => {
            let n = results::put(text, voice.json, r, sheet);
            output::print(voice, &text[..n])
        }
    }
}

// Whether nothing was found, or something was discarded.
fn is_less(r: Reading) -> bool
    ensures { result ≡ less r }
{
    r.found == 0 || r.discarded != 0
}

// How a reading ends whose sheet was given: with `--strict` the answer is no where there is less than all.
fn settled(strict: bool, r: Reading) -> Result<(), Stop>
    ensures { Gives (strict && less r) (status_of result) }
{
    if strict && is_less(r) {
        return Err(Stop::No);
    }
    Ok(())
}

// Reads an area as one of a carrier.
fn read_as<R: System>(
    voice: &Voice<R>,
    a: Asked,
    carrier: Carrier,
    area: &[u8],
    text: &mut [u8],
) -> Result<(), Stop>
    ensures { ReadAs a.strict (reading_of (number_of carrier) area.now) (status_of result) }
{
    let mut sheet = [0u8; Limit::SHEET];
    let r = reading::read(usize::from(carrier.number()), area, &mut sheet);
    if r.number != 0 {
        return Err(refuse(voice, carrier, area, r.number));
    }
    let n = r.length;
    let given = give_reading(voice, a, r, &sheet[..n], text);
    tell(voice, carrier, area, r);
    match given {
        Ok(()) => settled(a.strict, r),
        Err(stop) => Err(stop),
    }
}

// Reads an area.
pub fn read<R: System>(voice: &Voice<R>, a: Asked, area: &[u8], text: &mut [u8]) -> Result<(), Stop>
    ensures { ReadAs a.strict (reading_of (carrier_in a.carrier) area.now) (status_of result) }
{
    match a.carrier {
        Some(carrier) => read_as(voice, a, carrier, area, text),
        None => Err(voice.refused(Refusal::Carrier.number(), None)),
    }
}
