// Address lists: which addresses are unusable, which are kept in order, how many those are, and whether any is to be dropped
// (RULES A1, A2). Multicast and host loopback addresses are dropped when read and nowhere else (RULES A3): only reading calls
// `put_kept`; the writer asks `any_unusable` and refuses. Everything is over the width of an address, 4 or 16 octets.
#![tactic(auto)]

ghost use Rattle.std.specs.Prelude.{◌≡◌, ◌+◌, ◌≤◌, ◌<◌, length};
ghost use Rattle.octets.specs.Over.{Wrote};
ghost use Rattle.octets.specs.Lists.{flat};
ghost use Rattle.addresses.specs.Addresses.{Width, unusable, unusable4, unusable16, plain16, list_of, kept_of, has_of, any_of, none_of};

// 224.0.0.0/4 (RFC 5771 §3) and 127.0.0.0/8 (RFC 1122 §3.2.1.3), by the first octet.
fn unusable4(first: u8) -> bool
    ensures { result ≡ unusable4 first }
{
    if first == 127 {
        return true;
    }
    if first < 224 {
        return false;
    }
    first < 240
}

// ff00::/8 and ::1 (RFC 4291 §2.4). Most addresses begin with neither 255 nor 0, so that the first octet decides.
fn unusable16(a: &[u8]) -> bool
    requires { length a.now ≡ 16 }
    ensures { result ≡ unusable16 a.now }
{
    let first = a[0];
    if first != 0 {
        return first == 255;
    }
    if a[15] == 1 {
        return octets::zeros(&a[..15]);
    }
    false
}

// Whether an address of `w` octets is dropped when read.
pub fn dropped(w: usize, a: &[u8]) -> bool
    requires width { Width w }
    requires a_len { length a.now ≡ w }
    ensures { result ≡ unusable w a.now }
{
    if w == 4 {
        return unusable4(a[0]);
    }
    unusable16(a)
}

// Whether the list has an address whose being dropped is `wanted`.
fn has(w: usize, s: &[u8], wanted: bool) -> bool
    requires { Width w }
    ensures { result ≡ has_of w wanted (list_of w s.now) }
{
    for a in s.chunks_exact(w) {
        if dropped(w, a) == wanted {
            return true;
        }
    }
    false
}

// Whether the list holds an address that reading would drop. Addresses are counted where they are few enough: the count is faster than
// a search that leaves at the first.
pub fn any_unusable(w: usize, s: &[u8]) -> bool
    requires { Width w }
    ensures { result ≡ any_of w (list_of w s.now) }
{
    if s.len() < 65536 {
        return kept_count(w, s) < s.len() / w;
    }
    has(w, s, true)
}

// Whether no address is kept; the first that stays decides.
pub fn none_kept(w: usize, s: &[u8]) -> bool
    requires { Width w }
    ensures { result ≡ none_of w (list_of w s.now) }
{
    !has(w, s, false)
}

// Whether an IPv6 address is kept by its first octet alone: it begins neither as ff00::/8 nor as ::1.
fn plain16(first: u8) -> bool
    ensures { result ≡ plain16 first }
{
    first != 0 && first != 255
}

// How many addresses are kept, one by one. A 16-bit count: the compiler takes many addresses of 4 octets at once.
fn count_each<const W: usize>(s: &[u8]) -> usize
    requires width { Width W }
    requires s_len_bound { length s.now < 65536 }
    ensures value { result ≡ length (kept_of W (list_of W s.now)) }
    ensures upper_bound { result ≤ length s.now }
{
    let mut n: u16 = 0;
    let (list, _) = s.as_chunks::<W>();
    for a in list {
        if !dropped(W, a) {
            n += 1;
        }
    }
    usize::from(n)
}

// How many IPv6 addresses are kept: four at a time, mostly by their first octets alone.
fn count_fours(s: &[u8]) -> usize
    requires { length s.now < 65536 }
    ensures value { result ≡ length (kept_of 16 (list_of 16 s.now)) }
    ensures upper_bound { result ≤ length s.now }
{
    let mut n: usize = 0;
    let (fours, rest) = s.split_at(s.len() - s.len() % 64);
    for four in fours.chunks_exact(64) {
        if plain16(four[0]) & plain16(four[16]) & plain16(four[32]) & plain16(four[48]) {
            n += 4;
        } else {
            n += count_each::<16>(four);
        }
    }
    n + count_each::<16>(rest)
}

// How many addresses are kept.
pub fn kept_count(w: usize, s: &[u8]) -> usize
    requires width { Width w }
    requires s_len_bound { length s.now < 65536 }
    ensures value { result ≡ length (kept_of w (list_of w s.now)) }
    ensures upper_bound { result ≤ length s.now }
{
    if w == 4 {
        return count_each::<4>(s);
    }
    count_fours(s)
}

// Writes the addresses that are kept at `o`, in their order, and returns the index after them.
pub fn put_kept(out: &mut [u8], o: usize, w: usize, s: &[u8]) -> usize
    requires width { Width w }
    requires s_in_bounds { o + length (flat (kept_of w (list_of w s.now))) ≤ length out.old }
    ensures { Wrote o (flat (kept_of w (list_of w s.now))) out.old result out.new }
{
    let mut next = o;
    for address in s.chunks_exact(w) {
        if !dropped(w, address) {
            next = octets::copy(out, next, address);
        }
    }
    next
}
