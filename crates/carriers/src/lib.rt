// The five carriers (RULES C1) and what differs between them as data: one table, with a row for each carrier. Lengths in octets and in
// units of eight are two types that are never mixed (RULES B3); they are converted here alone, each way in one function.
#![tactic(auto)]

ghost use Rattle.std.specs.Prelude.{◌≡◌, ◌<◌, eqb};
ghost use Rattle.numbers.specs.Refusal as refusal;
ghost use Rattle.carriers.specs.Told.{Chooses};
ghost use Rattle.carriers.specs.Carriers.{octets_of, eights_of, chosen_of, facts_of, number_of, code_of, header_of, address_width, length_width, form_of, lifetime_width, as_text};

#[derive(Clone, Copy, PartialEq, Eq)]
pub enum Carrier {
    // 1: DHCPv4 option 162 (RFC 9463 §5).
    Dhcp4,
    // 2: DHCPv6 option 144 (RFC 9463 §4).
    Dhcp6,
    // 3: router advertisement option 144 (RFC 9463 §6).
    Router,
    // 4: IKEv2 attribute 27, ENCDNS_IP4 (RFC 9464 §3.1).
    Ike4,
    // 5: IKEv2 attribute 28, ENCDNS_IP6 (RFC 9464 §3.1).
    Ike6,
}

// The form of a block's body (RULES B1).
#[derive(Clone, Copy, PartialEq, Eq)]
pub enum Form {
    // Carriers 1 and 2: the name in wire form, and alone or with addresses and parameters.
    Wire,
    // Carrier 3: the same with a lifetime before it, a length before the parameters, and padding.
    Padded,
    // Carriers 4 and 5: addresses, the name as text, parameters; there is no name-only form.
    Text,
}

// What is said of a carrier: a row of the table.
#[derive(Clone, Copy)]
pub struct Facts {
    pub number: u8,
    // The code of its own options, or the type of its attributes.
    pub code: usize,
    // Octets of the code in an option's header, and of the length.
    pub width: usize,
    // Whether the highest bit of a code is reserved, and is ignored when read (RFC 7296 §3.15.1).
    pub reserved: bool,
    // Whether a length is in units of eight octets and counts the header (RFC 4861 §4.6).
    pub eights: bool,
    // Whether an area has padding and an end (RFC 2132 §3.1, §3.2), and the data of its own options are one (RFC 3396).
    pub joined: bool,
    // Octets of an address.
    pub address: usize,
    // Octets of the ADN length, of the address length in carriers 1 to 3, and of the parameter length in carrier 3.
    pub length: usize,
    pub form: Form,
}

// A length in octets.
#[derive(Clone, Copy)]
pub struct Octets(pub usize);

impl Octets {
    // Whether it is 0.
    pub fn none(self) -> bool
        ensures { result ≡ eqb self.0 0 }
    {
        self.0 == 0
    }
}

// A length in units of 8 octets, as carrier 3 has it.
#[derive(Clone, Copy)]
pub struct Eights(pub usize);

// The one place where units of eight become octets.
pub fn octets_of(e: Eights) -> Octets
    requires { e.0 < 65536 }
    ensures { result ≡ octets_of e }
{
    Octets(Carrier::UNIT * e.0)
}

// The one place where octets become units of eight.
pub fn eights_of(o: Octets) -> Eights
    ensures { result ≡ eights_of o }
{
    Eights(o.0 / Carrier::UNIT)
}

impl Carrier {
    // Octets of a unit in which carrier 3 counts, and of its lifetime.
    pub const UNIT: usize = 8;

    pub const LIFETIME: usize = 4;

    // Option codes and attribute types.
    pub const DHCP4: usize = 162;

    pub const DHCP6: usize = 144;

    pub const ROUTER: usize = 144;

    pub const IKE4: usize = 27;

    pub const IKE6: usize = 28;

    // The carrier of a number, or that there is none: 0, or 1 when read and 42 of a sheet (specs/Told).
    pub fn of(number: usize) -> Option<Carrier>
        ensures value { result ≡ chosen_of number }
        ensures chooses { Chooses refusal.carrier number result × Chooses refusal.sheet_carrier number result }
    {
        match number {
            1 => Some(Carrier::Dhcp4),
            2 => Some(Carrier::Dhcp6),
            3 => Some(Carrier::Router),
            4 => Some(Carrier::Ike4),
            5 => Some(Carrier::Ike6),
            _ => None,
        }
    }

    // The table.
    pub fn facts(self) -> Facts
        ensures { result ≡ facts_of self }
    {
        match self {
            Carrier::Dhcp4 => Facts {
                number: 1,
                code: Carrier::DHCP4,
                width: 1,
                reserved: false,
                eights: false,
                joined: true,
                address: 4,
                length: 1,
                form: Form::Wire,
            },
            Carrier::Dhcp6 => Facts {
                number: 2,
                code: Carrier::DHCP6,
                width: 2,
                reserved: false,
                eights: false,
                joined: false,
                address: 16,
                length: 2,
                form: Form::Wire,
            },
            Carrier::Router => Facts {
                number: 3,
                code: Carrier::ROUTER,
                width: 1,
                reserved: false,
                eights: true,
                joined: false,
                address: 16,
                length: 2,
                form: Form::Padded,
            },
            Carrier::Ike4 => Facts {
                number: 4,
                code: Carrier::IKE4,
                width: 2,
                reserved: true,
                eights: false,
                joined: false,
                address: 4,
                length: 1,
                form: Form::Text,
            },
            Carrier::Ike6 => Facts {
                number: 5,
                code: Carrier::IKE6,
                width: 2,
                reserved: true,
                eights: false,
                joined: false,
                address: 16,
                length: 1,
                form: Form::Text,
            },
        }
    }

    pub fn number(self) -> u8
        ensures { result ≡ number_of self }
    {
        self.facts().number
    }

    // The code of the options, or the type of the attributes, that are this carrier's blocks.
    pub fn code(self) -> usize
        ensures { result ≡ code_of self }
    {
        self.facts().code
    }

    // Octets of an option's header.
    pub fn header_size(self) -> usize
        ensures { result ≡ header_of self }
    {
        let width = self.facts().width;
        width + width
    }

    // Octets of an address.
    pub fn address_width(self) -> usize
        ensures { result ≡ address_width self }
    {
        self.facts().address
    }

    // Octets of the ADN length, of the address length in carriers 1 to 3, and of the parameter length in carrier 3.
    pub fn length_width(self) -> usize
        ensures { result ≡ length_width self }
    {
        self.facts().length
    }

    // The form of its bodies.
    pub fn form(self) -> Form
        ensures { result ≡ form_of self }
    {
        self.facts().form
    }

    // Octets of a lifetime: only carrier 3 has one.
    pub fn lifetime_width(self) -> usize
        ensures { result ≡ lifetime_width self }
    {
        match self.form() {
            Form::Padded => Carrier::LIFETIME,
            Form::Wire | Form::Text => 0,
        }
    }

    // Whether the name stands as text, and there is no name-only form.
    pub fn as_text(self) -> bool
        ensures { result ≡ as_text self }
    {
        self.form() == Form::Text
    }
}
