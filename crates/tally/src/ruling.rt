// Rule 4 read off sets of rows.
ghost use Rattle.std.specs.Prelude.{◌≡◌, ◌&&◌, ◌<◌};
ghost use Rattle.words.specs.Sets as Sets;
ghost use Rattle.tally.specs.Ruling.{touches, stands_in, chosen_by};

// Whether variable v occurs in a row of this part of a set, rows 64 w to 64 w + 63.
fn touched(index: &[u64; 384], v: usize, w: usize, part: u64) -> bool
    requires { (v < 32) × (w < 6) }
    ensures { result ≡ touches index.now v w part }
{
    part & (index[6 * v + w] | index[6 * (32 + v) + w]) != 0
}

// Whether the variable occurs in a row of the set.
fn stands_in(index: &[u64; 384], v: usize, set: [u64; 6]) -> bool
    requires { v < 32 }
    ensures { result ≡ stands_in index.now v set }
{
    touched(index, v, 0, set[0])
        | touched(index, v, 1, set[1])
        | touched(index, v, 2, set[2])
        | touched(index, v, 3, set[3])
        | touched(index, v, 4, set[4])
        | touched(index, v, 5, set[5])
}

// Whether variable v is one of these and occurs in a row of the set.
fn passes(index: &[u64; 384], unset: u32, v: u32, set: [u64; 6]) -> bool
    requires { v < 32 }
    ensures { result ≡ Sets.bit unset v && stands_in index.now v set }
{
    if words::bit(unset, v) {
        return stands_in(index, v as usize, set);
    }
    false
}

// Rule 4: the lowest of the free variables that occurs in a row of the set; 32 if none does.
pub(crate) fn chosen(index: &[u64; 384], unset: u32, set: [u64; 6]) -> u32
    ensures { result ≡ chosen_by index.now unset set }
{
    (0..32)
        .find(|&v| passes(index, unset, v, set))
        .unwrap_or(32)
}
