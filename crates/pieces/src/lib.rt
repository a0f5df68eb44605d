// Pieces: joined instances as options 162 (RULES E2): 255 octets each and a last one of 1 to 255, nothing for no octets, no code 255.
// Joined octets are cut in the buffer where they stand, from the front, so that none is overwritten before it has moved.
#![tactic(auto)]

ghost use Rattle.std.specs.Prelude.{◌≡◌, ◌+◌, ◌≤◌, ◌<◌, length, take, drop};
ghost use Rattle.octets.specs.Over.{Wrote};
ghost use Rattle.carriers.specs.declared.Carrier.TheVariants.{Dhcp4};
ghost use Rattle.frames.specs.Emit.{option_of};
ghost use Rattle.pieces.specs.Pieces.{cut_of, cut_octets};

use carriers::Carrier;

// The most octets that an option 162 has after its header.
const PIECE: usize = 255;

// Octets of the options of n joined octets.
pub fn cut_size(n: usize) -> usize
    requires { n < 4294967296 }
    ensures { result ≡ cut_octets n }
{
    n + 2 * ((n + (PIECE - 1)) / PIECE)
}

// Writes an option at `at` whose body is the n octets that stand at `from`, and returns the index after it.
fn put_piece(out: &mut [u8], at: usize, from: usize, n: usize) -> usize
    requires { (at + 2 ≤ from) × (from + n ≤ length out.old) × (n < 256) }
    ensures { Wrote at (option_of Dhcp4 (take n (drop from out.old))) out.old result out.new }
{
    let body = frames::put_header(out, at, Carrier::Dhcp4, n);
    octets::copy_within(out, body, from, n)
}

// The joined octets stand in `out` from `from` on, n of them, with just the room for the headers before them: moves them to the front
// as options 162, and returns the index after these.
pub fn cut_within(out: &mut [u8], from: usize, n: usize) -> usize
    requires n_value { from + n ≡ cut_octets n }
    requires n_in_bounds { from + n ≤ length out.old }
    ensures { Wrote 0 (cut_of (take n (drop from out.old))) out.old result out.new }
{
    let mut i = 0;
    let mut o = 0;
    while i < n {
        let size = PIECE.min(n - i);
        o = put_piece(out, o, from + i, size);
        i += size;
    }
    o
}
