// 16-bit numbers as two bytes each, high byte first, and lists of them (docs/RULES.md, "Packets"). These functions are for this crate and the crates above:
// each asks for what they have checked.

#![tactic(auto)]

ghost use Rattle.std.specs.Prelude.{ℕ, ◌+◌, ◌*◌, ◌≤◌, ◌<◌, ◌≡◌, [], ◌∷◌, ◌++◌, length, take, drop};
ghost use Rattle.tables.specs.Column.{column};
ghost use Rattle.halves.specs.Bytes.{high, low, half, packed};

// The number at byte `at`.
pub fn get_half(s: &[u8], at: usize) -> u16
    requires { at + 1 < length s.now }
    ensures { result ≡ half s.now at }
{
    u16::from_be_bytes([s[at], s[at + 1]])
}

// Puts a number at byte `at`.
// kept: a buffer and a place in it, here and in the crates above: a packet is put together at places that its form gives, which the clauses name.
pub fn put_half(out: &mut [u8], at: usize, x: u16)
    requires { at + 2 ≤ length out.old }
    ensures { out.new ≡ take at out.old ++ (high x ∷ low x ∷ []) ++ drop (at + 2) out.old }
{
    out[at..at + 2].copy_from_slice(&x.to_be_bytes());
}

// Fills a list with numbers: the first from byte `at`, each of the others `gap` bytes after the one before it.
pub fn get_halves(s: &[u8], at: usize, gap: usize, list: &mut [u16])
    requires { (i : ℕ) → i < length list.old → at + gap * i + 1 < length s.now }
    ensures { list.new ≡ column (λ i. half s.now (at + gap * i)) (length list.old) }
{
    for (k, x) in list.iter_mut().enumerate() {
        *x = get_half(s, at + gap * k);
    }
}

// Puts the numbers of a list at the front of the bytes.
pub fn put_halves(list: &[u16], out: &mut [u8])
    requires { 2 * length list.now ≤ length out.old }
    ensures { out.new ≡ packed list.now ++ drop (2 * length list.now) out.old }
{
    for (k, x) in list.iter().enumerate() {
        put_half(out, 2 * k, *x);
    }
}
