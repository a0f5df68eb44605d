// Which other carrier would find records in an area (docs/COMMAND.md, "Nothing found").
ghost use Rattle.std.specs.Prelude.{◌≡◌};
ghost use Rattle.carriers.specs.Carriers.{number_of};
ghost use Rattle.carriers.specs.Told.{carrier_in};
ghost use Rattle.command.specs.Hints.{finds_in, hint_of};

use carriers::Carrier;
use numbers::Limit;

// Whether a carrier would find records in an area.
fn finds(carrier: usize, area: &[u8]) -> bool
    ensures { result ≡ finds_in carrier area.now }
{
    let mut sheet = [0u8; Limit::SHEET];
    let r = reading::read(carrier, area, &mut sheet);
    r.number == 0 && r.discarded < r.found
}

// The first other carrier that would.
pub fn hint(carrier: Carrier, area: &[u8]) -> Option<Carrier>
    ensures { carrier_in result ≡ hint_of (number_of carrier) area.now }
{
    let own = usize::from(carrier.number());
    for k in 1..6 {
        if k != own && finds(k, area) {
            return Carrier::of(k);
        }
    }
    None
}
