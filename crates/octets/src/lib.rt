// Octets: numbers most significant octet first, whether two runs are the same, and writing into a lent buffer.
// Every other crate reads and writes numbers through the functions here, so that the order of octets is stated in one place
// (RULES C2). What a write leaves in the whole buffer is one record, `Wrote`.
// Nothing here knows of carriers, records or limits.
#![tactic(auto)]

ghost use Rattle.std.specs.Prelude.{◌≡◌, ◌+◌, ◌*◌, ◌^◌, ◌≤◌, ◌<◌, min, length, take, drop};
ghost use Rattle.octets.specs.Lists as lists;
ghost use Rattle.octets.specs.Numbers.{range, be, at16, at32, number_at, all_zero};
ghost use Rattle.octets.specs.Over.{Wrote};

// The most octets that are held at once.
const HELD: usize = 1024;

// From so many octets on, the C library moves them faster than blocks do.
const LONG: usize = 128;

// Octets of a block, which the processor moves at once.
const BLOCK: usize = 16;

// Two octets as a number.
pub fn wide16(upper: u8, lower: u8) -> usize
    ensures value { result ≡ upper * 256 + lower }
    ensures upper_bound { result < 65536 }
{
    usize::from(u16::from_be_bytes([upper, lower]))
}

// The two octets at `i` as a number.
pub fn get16(s: &[u8], i: usize) -> usize
    requires { i + 1 < length s.now }
    ensures value { result ≡ at16 s.now i }
    ensures upper_bound { result < 65536 }
{
    wide16(s[i], s[i + 1])
}

// The one or two octets at `i` as a number.
pub fn get_number(s: &[u8], i: usize, width: usize) -> usize
    requires width_in_bounds { i + width ≤ length s.now }
    requires width_nonzero { (0 < width) × (width ≤ 2) }
    ensures value { result ≡ number_at width i s.now }
    ensures upper_bound { result < 65536 }
{
    if width == 1 {
        return usize::from(s[i]);
    }
    get16(s, i)
}

// The four octets at `i` as a number.
pub fn get32(s: &[u8], i: usize) -> usize
    requires { i + 3 < length s.now }
    ensures value { result ≡ at32 s.now i }
    ensures upper_bound { result < 4294967296 }
{
    get16(s, i) * 65536 + get16(s, i + 2)
}

// Whether two runs of octets are the same.
pub fn same(a: &[u8], b: &[u8]) -> bool
    ensures { result ≡ lists.same a.now b.now }
{
    a == b
}

// Whether all octets are zero.
pub fn zeros(s: &[u8]) -> bool
    ensures { result ≡ all_zero s.now }
{
    s.iter().all(|x| *x == 0)
}

// Writes v in one octet at `at`, and returns the index after it.
pub fn put8(out: &mut [u8], at: usize, v: u8) -> usize
    requires { at < length out.old }
    ensures { Wrote at (be 1 v) out.old result out.new }
{
    out[at] = v;
    at + 1
}

// Writes v in two octets at `at`, and returns the index after them.
pub fn put16(out: &mut [u8], at: usize, v: usize) -> usize
    requires { (at + 2 ≤ length out.old) × (v < 65536) }
    ensures { Wrote at (be 2 v) out.old result out.new }
{
    let [upper, lower] = (v as u16).to_be_bytes();
    out[at] = upper;
    out[at + 1] = lower;
    at + 2
}

// Writes v in one or two octets at `at`, and returns the index after them.
pub fn put_number(out: &mut [u8], at: usize, width: usize, v: usize) -> usize
    requires width_in_bounds { at + width ≤ length out.old }
    requires width_nonzero { (0 < width) × (width ≤ 2) × (v < 256 ^ width) }
    ensures { Wrote at (be width v) out.old result out.new }
{
    if width == 1 {
        return put8(out, at, v as u8);
    }
    put16(out, at, v)
}

// Writes v in four octets at `at`, and returns the index after them.
pub fn put32(out: &mut [u8], at: usize, v: usize) -> usize
    requires { (at + 4 ≤ length out.old) × (v < 4294967296) }
    ensures { Wrote at (be 4 v) out.old result out.new }
{
    let next = put16(out, at, v / 65536);
    put16(out, next, v % 65536)
}

// Writes src at `at` octet by octet, and returns the index after it.
fn copy_each(out: &mut [u8], at: usize, src: &[u8]) -> usize
    requires { at + length src.now ≤ length out.old }
    ensures { Wrote at src.now out.old result out.new }
{
    for (j, &b) in src.iter().enumerate() {
        out[at + j] = b;
    }
    at + src.len()
}

// The same for N octets, all read before one is written: through a local array, so that LLVM makes of it a load and a store (by
// `copy_from_slice` 8 octets take twice as long); the array disappears.
fn copy_held<const N: usize>(out: &mut [u8], at: usize, src: &[u8]) -> usize
    requires { (at + length src.now ≤ length out.old) × (length src.now ≡ N) }
    ensures { Wrote at src.now out.old result out.new }
{
    let mut held = [0u8; N];
    copy_each(&mut held, 0, src);
    copy_each(out, at, &held)
}

// The same for N to 2 N octets: the first N and the last N, which may share some.
fn copy_ends<const N: usize>(out: &mut [u8], at: usize, src: &[u8]) -> usize
    requires { (at + length src.now ≤ length out.old) × (N ≤ length src.now) × (length src.now ≤ 2 * N) }
    ensures { Wrote at src.now out.old result out.new }
{
    let last = src.len() - N;
    copy_held::<N>(out, at, &src[..N]);
    copy_held::<N>(out, at + last, &src[last..])
}

// The same for 4 to 15 octets: by 8 and 8, or by 4 and 4.
fn copy_small(out: &mut [u8], at: usize, src: &[u8]) -> usize
    requires { (at + length src.now ≤ length out.old) × (4 ≤ length src.now) × (length src.now < 16) }
    ensures { Wrote at src.now out.old result out.new }
{
    if src.len() < 8 {
        return copy_ends::<4>(out, at, src);
    }
    copy_ends::<8>(out, at, src)
}

// The same for 16 octets or more: blocks of 16, the last of which may reach back into the one before it. (By what is left, so that the loop's head
// has a number that a must-fail edit can change: docs/DESIGN-PASS.md, 3.)
fn copy_blocks(out: &mut [u8], at: usize, src: &[u8]) -> usize
    requires { (at + length src.now ≤ length out.old) × (16 ≤ length src.now) }
    ensures { Wrote at src.now out.old result out.new }
{
    let mut o = at;
    let mut rest = src;
    while BLOCK <= rest.len() {
        let (block, more) = rest.split_at(BLOCK);
        o = copy_held::<BLOCK>(out, o, block);
        rest = more;
    }
    let last = src.len() - BLOCK;
    copy_held::<BLOCK>(out, at + last, &src[last..])
}

// The same by the C library.
fn copy_once(out: &mut [u8], at: usize, src: &[u8]) -> usize
    requires { at + length src.now ≤ length out.old }
    ensures { Wrote at src.now out.old result out.new }
{
    let end = at + src.len();
    out[at..end].copy_from_slice(src);
    end
}

// The same by the way that is fastest for so many octets.
fn copy_all(out: &mut [u8], at: usize, src: &[u8]) -> usize
    requires { at + length src.now ≤ length out.old }
    ensures { Wrote at src.now out.old result out.new }
{
    let n = src.len();
    if n < 4 {
        return copy_each(out, at, src);
    }
    if n < BLOCK {
        return copy_small(out, at, src);
    }
    if n < LONG {
        return copy_blocks(out, at, src);
    }
    copy_once(out, at, src)
}

// Writes src at `at`, and returns the index after it. (`&src[..]`: docs/DESIGN.md, Speed.)
pub fn copy(out: &mut [u8], at: usize, src: &[u8]) -> usize
    requires { at + length src.now ≤ length out.old }
    ensures { Wrote at src.now out.old result out.new }
{
    copy_all(out, at, &src[..])
}

// Writes the n octets that stand at `from` at `to` in the same buffer, and returns the index after them there. The two places may overlap.
// (Through a local array, which disappears: the slice's own `copy_within` takes half as long again for 255 octets.)
pub fn copy_within(out: &mut [u8], to: usize, from: usize, n: usize) -> usize
    requires { (to + n ≤ length out.old) × (from + n ≤ length out.old) × (n ≤ 1024) }
    ensures { Wrote to (take n (drop from out.old)) out.old result out.new }
{
    let mut held = [0u8; HELD];
    let end = from + n;
    copy_each(&mut held, 0, &out[from..end]);
    copy_each(out, to, &held[..n])
}
