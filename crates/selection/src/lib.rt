// The plain selection, set after set, over a copied layer table and the key of each page: arrays go in by value, and a new array of
// marks comes back, as document 01 has it; their sizes are fixed and used up to `pages`, since nothing allocates. Assumes nothing.
#![tactic(auto)]

ghost use Rattle.std.specs.Prelude.{◌&&◌, ◌≡◌, ◌<◌, ◌≤◌};
ghost use Rattle.paging.specs.Sets.{count};
ghost use Rattle.paging.specs.Selection.{highest, together, chosen};
ghost use Rattle.ranking.specs.Key.{by_key, key_at};
ghost use Rattle.selection.specs.Marks.{marks, marked, layers};

use ranking::Key;

// C_(j-1) and L_j together.
fn joined(layer: [u8; 1024], set: [bool; 1024], pages: usize, j: u8) -> [bool; 1024]
    requires { pages ≤ 1024 }
    ensures { result ≡ marks pages (together (layers layer) j (marked set)) }
{
    let mut out = [false; 1024];
    for q in 0..pages {
        out[q] = set[q] || layer[q] == j;
    }
    out
}

// How many pages of a set outrank page q.
fn above_of(keys: &[Key; 1024], set: &[bool; 1024], pages: usize, q: usize) -> usize
    requires { (pages ≤ 1024) × (q < 1024) }
    ensures { result ≡ count (λ r. marked set.now r && by_key (key_at keys.now) r q) pages }
{
    let mut n = 0;
    for r in 0..pages {
        if set[r] && keys[q] < keys[r] {
            n += 1;
        }
    }
    n
}

// The j highest-ranking pages of a set.
fn kept(keys: [Key; 1024], set: [bool; 1024], pages: usize, j: usize) -> [bool; 1024]
    requires { pages ≤ 1024 }
    ensures { result ≡ marks pages (highest pages (by_key (key_at keys)) (marked set) j) }
{
    let mut out = [false; 1024];
    for q in 0..pages {
        out[q] = set[q] && above_of(&keys, &set, pages, q) < j;
    }
    out
}

// The selection: C_1 to C_k, one after the other.
pub fn selected(layer: [u8; 1024], keys: [Key; 1024], pages: usize, slots: usize) -> [bool; 1024]
    requires { (pages ≤ 1024) × (slots ≤ 64) }
    ensures { result ≡ marks pages (chosen pages (by_key (key_at keys)) (layers layer) slots) }
{
    let mut set = [false; 1024];
    for j in 1..slots + 1 {
        set = kept(keys, joined(layer, set, pages, j as u8), pages, j);
    }
    set
}
