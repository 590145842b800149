// A slice as parts of one size, the pages of memory or the records of the sheet: bytes and numbers in a part, read and written. What is done to
// the slice is said of its parts, once for every size. Nothing is assumed.
#![tactic(auto)]

ghost use Rattle.std.specs.Prelude.{◌≡◌, [], ◌∷◌, ◌+◌, ◌*◌, ◌≤◌, length, get_or};
ghost use Rattle.std.proofs.lemmas.List.Edits.{sets};
ghost use Rattle.rules.specs.Words.{little, number};
ghost use Rattle.rules.specs.Machine.{written};
ghost use Rattle.rules.specs.Flat.{parts};
ghost use Rattle.parts.specs.Place.{Place};

use words::Little;

// Where a part's byte stands in the slice; as much follows there as in the part.
fn start(s: &[u8], size: usize, p: usize, offset: usize) -> usize
    requires { Place s.now size p offset 0 }
    ensures is { result ≡ size * p + offset }
    ensures ends { result + size ≤ length s.now + offset }
{
    size * p + offset
}

#[tactic(auto, using(laws::proofs::Parts::parts_read))]
pub fn byte(s: &[u8], size: usize, p: usize, offset: usize) -> u8
    requires { Place s.now size p offset 1 }
    ensures { result ≡ get_or (get_or (parts size s.now) p []) offset 0 }
{
    s[start(s, size, p, offset)]
}

#[tactic(auto, using(laws::proofs::Parts::parts_number))]
pub fn number<N: Little>(s: &[u8], size: usize, p: usize, offset: usize) -> N
    requires { Place s.now size p offset N.width }
    ensures { N.value result ≡ number N.width (get_or (parts size s.now) p []) offset }
{
    N::read(s, start(s, size, p, offset))
}

#[tactic(auto, using(laws::proofs::Parts::parts_written))]
pub fn put_byte(s: &mut [u8], size: usize, p: usize, offset: usize, b: u8)
    requires { Place s.old size p offset 1 }
    ensures { parts size s.new ≡ written p offset (b ∷ []) (parts size s.old) }
{
    let at = start(s, size, p, offset);
    s[at] = b;
}

#[tactic(auto, using(laws::proofs::Parts::parts_written, laws::proofs::Numbers::length_little))]
pub fn put_number<N: Little>(s: &mut [u8], size: usize, p: usize, offset: usize, x: N)
    requires { Place s.old size p offset N.width }
    ensures { parts size s.new ≡ written p offset (little N.width (N.value x)) (parts size s.old) }
{
    let at = start(s, size, p, offset);
    x.write(s, at);
}

// Copies bytes over the front of a slice. It stays a loop when it is compiled: the library's copy would need `memmove` of whoever links the core for C.
#[tactic(auto, using(crate::proofs::Copied::none_yet, crate::proofs::Copied::one_more, crate::proofs::Copied::all_copied))]
pub fn copy(s: &mut [u8], bytes: &[u8])
    requires { length bytes.now ≤ length s.old }
    ensures { s.new ≡ sets s.old 0 bytes.now }
{
    for i in 0..bytes.len() {
        s[i] = bytes[i];
    }
}

#[tactic(auto, using(laws::proofs::Parts::parts_written, laws::proofs::Parts::sets_tail))]
pub fn put_bytes(s: &mut [u8], size: usize, p: usize, offset: usize, bytes: &[u8])
    requires { Place s.old size p offset (length bytes.now) }
    ensures { parts size s.new ≡ written p offset bytes.now (parts size s.old) }
{
    let at = start(s, size, p, offset);
    copy(&mut s[at..], bytes);
}
