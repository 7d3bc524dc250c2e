// A table in which the bytes of a set of steps find the steps to which these lead.
ghost use Rattle.std.specs.Prelude.{◌≡◌, ◌≤◌, ◌+◌, ◌*◌, ℕ, length, get_or};
ghost use Rattle.tables.specs.Bits.{bit};
ghost use Rattle.plan.specs.Leading.{Doubled, no_table, Spread, looked_up};

// An entry for each of the 8 bytes of a set and each value of that byte: one row after the other, since entry 256c + v is how `Spread` speaks of it.
pub const TABLE: usize = 2048;

// Doubles the first `top` entries of a block, with m joined to each of the new ones.
// kept: a list and a number: the half at which the block is parted.
fn double(block: &mut [u64], top: usize, m: u64)
    requires { length block.old ≡ 2 * top }
    ensures { Doubled block.old 0 top m block.new }
{
    let (old, new) = block.split_at_mut(top);
    for (u, entry) in new.iter_mut().enumerate() {
        *entry = old[u] | m;
    }
}

#[derive(Drop)]
pub struct ByteTable {
    entries: [u64; TABLE],
}

impl ByteTable {
    // The table of no step.
    pub fn none() -> ByteTable
        ensures { result ≡ no_table }
    {
        ByteTable {
            entries: [0; TABLE],
        }
    }

    // The relation in which step t leads to the steps of `to[t]` comes to a table of no step.
    pub fn fill(&mut self, to: &[u64])
        requires { (length to.now ≤ 64) × (self.old ≡ no_table) }
        ensures { Spread (λ t s. bit (get_or to.now t 0) s ≡ 1) (length to.now) self.new.entries }
    {
        for (t, steps) in to.iter().enumerate() {
            let base = 256 * (t / 8);
            let top = 1 << (t % 8);
            double(&mut self.entries[base..base + 2 * top], top, *steps);
        }
    }

    // What the bytes of x find in the table.
    pub fn look_up(&self, x: u64) -> u64
        ensures { result ≡ looked_up self.now.entries x 8 }
    {
        let mut r: u64 = 0;
        for (c, byte) in x.to_le_bytes().iter().enumerate() {
            r |= self.entries[256 * c + usize::from(*byte)];
        }
        r
    }
}
