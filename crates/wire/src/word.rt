// Big-endian numbers in byte slices. Each width is a function of its own, since std has no trait over the widths.
ghost use Rattle.std.specs.Prelude.{◌≡◌, ◌+◌, ◌≤◌, ◌<◌, length};
ghost use Rattle.std.proofs.lemmas.List.Edits.{sets};
ghost use Rattle.wire.specs.Words.{half_at, word_at, word_bytes, half_bytes};

// The two bytes at `at`, as a number.
pub(crate) fn half(s: &[u8], at: usize) -> usize
    requires { at + 2 ≤ length s.now }
    ensures number { result ≡ half_at s.now at }
    ensures fits { result < 65536 }
{
    u16::from_be_bytes([s[at], s[at + 1]]) as usize
}

// The four bytes at `at`, as a number.
pub(crate) fn word(s: &[u8], at: usize) -> u32
    requires { at + 4 ≤ length s.now }
    ensures { result ≡ word_at s.now at }
{
    u32::from_be_bytes([s[at], s[at + 1], s[at + 2], s[at + 3]])
}

// Stores a number in the two bytes at `at`.
pub(crate) fn put_half(s: &mut [u8], at: usize, x: usize)
    requires room { at + 2 ≤ length s.old }
    requires fits { x < 65536 }
    ensures { s.new ≡ sets s.old at (half_bytes x) }
{
    s[at..at + 2].copy_from_slice(&(x as u16).to_be_bytes());
}

// Stores a number in the four bytes at `at`.
pub(crate) fn put_word(s: &mut [u8], at: usize, x: u32)
    requires { at + 4 ≤ length s.old }
    ensures { s.new ≡ sets s.old at (word_bytes x) }
{
    s[at..at + 4].copy_from_slice(&x.to_be_bytes());
}
