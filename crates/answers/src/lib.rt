// What a call gives back that writes one lent buffer: 0 and how many octets it wrote at its front, or the number of a refusal, which changes no
// octet (RULES T6, T7). A sheet that is refused by 22 has also the place at which its name is wrong (RULES T8). Nothing is tested here, and no
// buffer is touched.
#![tactic(auto)]

ghost use Rattle.std.specs.Prelude.{◌≡◌};
ghost use Rattle.answers.specs.Answers.{refuse, told};

// 0 and the length of what was written; or a refusal's number, 0, and of 22 the place, else 0.
#[repr(C)]
#[derive(Clone, Copy)]
pub struct Result {
    pub number: usize,
    pub length: usize,
    pub place: usize,
}

// A refusal.
pub fn refused(number: usize, place: usize) -> Result
    ensures { result ≡ told (refuse number place) }
{
    Result {
        number,
        length: 0,
        place,
    }
}

// The first `length` octets of the buffer are written.
pub fn wrote(length: usize) -> Result
    ensures { (result.number ≡ 0) × (result.length ≡ length) × (result.place ≡ 0) }
{
    Result {
        number: 0,
        length,
        place: 0,
    }
}
