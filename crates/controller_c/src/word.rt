// Little-endian numbers of four bytes in byte slices. That is the machine's order, so the compiler makes one load or one store of the four bytes.
// The crate wire has those of frames, in the other order and with definitions of their own.
ghost use Rattle.std.specs.Prelude.{◌≡◌, ◌+◌, ◌≤◌, length};
ghost use Rattle.std.proofs.lemmas.List.Edits.{sets};
ghost use Rattle.controller_c.specs.Words.{number_at, number_bytes};

// The four bytes at `at`, as a number.
pub(crate) fn word(s: &[u8], at: usize) -> u32
    requires { at + 4 ≤ length s.now }
    ensures { result ≡ number_at s.now at }
{
    u32::from_le_bytes([s[at], s[at + 1], s[at + 2], s[at + 3]])
}

// Stores a number in the four bytes at `at`.
pub(crate) fn put_word(s: &mut [u8], at: usize, x: u32)
    requires { at + 4 ≤ length s.old }
    ensures { s.new ≡ sets s.old at (number_bytes x) }
{
    s[at..at + 4].copy_from_slice(&x.to_le_bytes());
}
