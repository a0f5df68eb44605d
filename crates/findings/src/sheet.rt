// Why a sheet is refused by 22 (RULES T8): what is wrong with the name at the place that `vetting` gives.
ghost use Rattle.std.specs.Prelude.{◌≡◌};
ghost use Rattle.sheets.specs.Sheets.{front_size};
ghost use Rattle.vetting.specs.Weighing.{records_of, TakenAs};
ghost use Rattle.findings.specs.Sheet.{number_in, reason_from, sheet_reason};

use carriers::Carrier;
use reasons::{Reason, name_reason};
use taking::Records;

// Of the records of a taken sheet: the reason of the first whose name ends at the place or after it.
fn seek(c: Carrier, s: &[u8], place: usize) -> Option<Reason>
    requires { TakenAs c s.now }
    ensures { number_in result ≡ reason_from c front_size (records_of s.now) place }
{
    for record in Records::of(c, s) {
        let name = record.parts.name;
        if place <= record.name + name.len() {
            return Some(name_reason(false, name, place.saturating_sub(record.name)));
        }
    }
    None
}

// Why the name at a place of a sheet is bad; none where the octets are no sheet or no name ends at the place or after it.
pub fn reason(s: &[u8], place: usize) -> Option<Reason>
    ensures { number_in result ≡ sheet_reason s.now place }
{
    let Ok(sheet) = taking::take(s) else {
        return None;
    };
    seek(sheet.carrier, s, place)
}
