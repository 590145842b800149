// Little-endian numbers in a slice: 2, 4 and 8 bytes, read and written. A wider number is two of half its width, so that the proofs of each
// width cite one law. Nothing is assumed.
#![tactic(auto)]

ghost use Rattle.std.specs.Prelude.{◌≡◌, ℕ, [], ◌∷◌, ◌++◌, ◌+◌, ◌≤◌, length};
ghost use Rattle.std.proofs.lemmas.List.Edits.{sets};
ghost use Rattle.rules.specs.Words.{number, little};

// A little-endian number: how many bytes it takes, and the number that it is.
pub trait Little: Copy {
    ghost width: { ℕ };

    ghost value: { Self → ℕ };

    fn read(s: &[u8], at: usize) -> Self
        requires { at + width ≤ length s.now }
        ensures { value result ≡ number width s.now at };

    fn write(self, s: &mut [u8], at: usize)
        requires { at + width ≤ length s.old }
        ensures { s.new ≡ sets s.old at (little width (value self)) };
}

impl Little for u16 {
    ghost width = { 2 };

    ghost value = { λ x. x };

    fn read(s: &[u8], at: usize) -> u16 {
        u16::from(s[at]) + 256 * u16::from(s[at + 1])
    }

    #[tactic(auto, unfolding(rules::specs::Words::little))]
    fn write(self, s: &mut [u8], at: usize) {
        s[at] = (self % 256) as u8;
        s[at + 1] = (self / 256) as u8;
    }
}

impl Little for u32 {
    ghost width = { 4 };

    ghost value = { λ x. x };

    fn read(s: &[u8], at: usize) -> u32 {
        u32::from(u16::read(s, at)) + 65536 * u32::from(u16::read(s, at + 2))
    }

    fn write(self, s: &mut [u8], at: usize) {
        ((self % 65536) as u16).write(s, at);
        ((self / 65536) as u16).write(s, at + 2);
    }
}

impl Little for u64 {
    ghost width = { 8 };

    ghost value = { λ x. x };

    fn read(s: &[u8], at: usize) -> u64 {
        u64::from(u32::read(s, at)) + 4294967296 * u64::from(u32::read(s, at + 4))
    }

    fn write(self, s: &mut [u8], at: usize) {
        ((self % 4294967296) as u32).write(s, at);
        ((self / 4294967296) as u32).write(s, at + 4);
    }
}

// The number of four bytes.
pub fn join4(a: u8, b: u8, c: u8, d: u8) -> u32
    ensures { little 4 result ≡ a ∷ b ∷ c ∷ d ∷ [] }
{
    (a as u32) + 256 * (b as u32) + 65536 * (c as u32) + 16777216 * (d as u32)
}

// The number of two halves.
pub fn join8(low: u32, high: u32) -> u64
    ensures { little 8 result ≡ little 4 low ++ little 4 high }
{
    (low as u64) + 4294967296 * (high as u64)
}
