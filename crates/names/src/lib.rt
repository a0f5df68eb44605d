// Names of the DNS in wire form (RULES N1, N2): whether a slice is one, and the place at which it stops being one (RULES N5).
// A name is labels of letters, digits and hyphens, each after its length octet, and the root octet at the very end, 3 to 255 octets.
// The two functions that walk a label call each other over the falling rest of the name, handed on as the number of octets left, and
// answer a number: so compiled, a call is a jump. Nothing here changes a name, folds its case or follows a compression pointer.
#![tactic(auto)]

ghost use Rattle.std.specs.Prelude.{◌≡◌, ◌-◌, ◌≤◌, ◌<◌, length};
ghost use Rattle.names.specs.Names.{alnum};
ghost use Rattle.names.specs.Right.{Right};
ghost use Rattle.names.specs.Wire.{name_check, name_automaton, letter, hyphen, label_fits, hyphen_fits};
ghost use Rattle.names.specs.Answered.{answer_in, named};

// What the walk of a name, in either form, answers of a good one: past every place of 256 octets, and past their end.
pub const GOOD: usize = 257;

// Whether b is a letter or a digit. Small letters, the most frequent, are decided first.
// (Hence the two comparisons: the three tests alone are compiled into one chain, which asks for a digit first.)
#[tactic(auto, unfolding(crate::specs::Names::alnum))]
pub fn is_alnum(b: u8) -> bool
    ensures { result ≡ alnum b }
{
    if b'a' <= b {
        return b.is_ascii_lowercase();
    }
    if b'A' <= b {
        return b.is_ascii_uppercase();
    }
    b.is_ascii_digit()
}

// Whether b is a hyphen that does not end its label, with `left` octets of the label to come, b among them.
fn hyphen_fits(b: u8, left: usize) -> bool
    ensures { result ≡ hyphen_fits left b }
{
    b == b'-' && 1 < left
}

// Whether a label of `size` octets may follow a length octet at `at`: it is not too long, nor is the name with it and a root octet.
fn label_fits(at: usize, size: usize) -> bool
    requires { (at ≤ 256) × (size ≤ 256) }
    ensures { result ≡ label_fits at size }
{
    size <= 63 && at + size <= 253
}

// After a letter or a digit, with `label` octets of the label to come; with none, a length octet is next. The name is the first n octets
// of s, of which `left` are left: each call has fewer, and the place is n - left. `stop` of them come after the label: one test for each
// octet of a label finds the label's end, and the name's.
// Over a reference to the slice, and with a number as the answer, the calls compile to jumps.
#[cycle(after_hyphen_after_letter)]
fn after_letter(s: &&[u8], n: usize, left: usize, label: usize, stop: usize) -> usize
    requires { (n ≤ 256) × (n ≤ length s.now.now) × (left ≤ n) × (stop ≡ left - label) }
    ensures { result ≡ answer_in name_automaton s.now.now n (letter label) left }
{
    let at = n - left;
    if left == stop {
        if left == 0 {
            return n;
        }
        let b = s[at];
        let rest = left - 1;
        let next = at + 1;
        if b == 0 {
            if at == 0 {
                return at;
            }
            if 0 < rest {
                return next;
            }
            return GOOD;
        }
        let size = usize::from(b);
        if !label_fits(at, size) {
            return at;
        }
        if rest == 0 {
            return n;
        }
        if is_alnum(s[next]) {
            return after_letter(s, n, rest - 1, size - 1, rest - size.min(rest));
        }
        return next;
    }
    let b = s[at];
    if is_alnum(b) {
        return after_letter(s, n, left - 1, label - 1, stop);
    }
    if hyphen_fits(b, label) {
        return after_hyphen(s, n, left - 1, label - 1, stop);
    }
    at
}

// The same after a hyphen, where an octet of the label is to come.
#[cycle(after_hyphen_after_letter)]
fn after_hyphen(s: &&[u8], n: usize, left: usize, label: usize, stop: usize) -> usize
    requires { (n ≤ 256) × (n ≤ length s.now.now) × (left ≤ n) × (1 ≤ label) × (stop ≡ left - label) }
    ensures { result ≡ answer_in name_automaton s.now.now n (hyphen label) left }
{
    if left == stop {
        return n;
    }
    let at = n - left;
    let b = s[at];
    if is_alnum(b) {
        return after_letter(s, n, left - 1, label - 1, stop);
    }
    if hyphen_fits(b, label) {
        return after_hyphen(s, n, left - 1, label - 1, stop);
    }
    at
}

// The answer of a walk.
pub fn name_of(place: usize) -> Result<(), usize>
    ensures { result ≡ named place }
{
    if place == GOOD {
        return Ok(());
    }
    Err(place)
}

// The check of at most 256 octets. (`&s[..]`: so that s itself comes in registers.)
fn check_held(s: &[u8]) -> Result<(), usize>
    requires { length s.now ≤ 256 }
    ensures { result ≡ name_check s.now }
{
    let held = &s[..];
    let n = s.len();
    name_of(after_letter(&held, n, n, 0, n))
}

// Whether s is a name, filling s exactly. No name has more than 255 octets, so that what comes after 256 changes nothing.
pub fn check_wire(s: &[u8]) -> Result<(), usize>
    ensures value { result ≡ name_check s.now }
    ensures right { Right s.now result }
{
    if s.len() <= 256 {
        return check_held(s);
    }
    check_held(&s[..256])
}
