// Single words.
ghost use Rattle.std.specs.Prelude.{◌≡◌, slice_index, slice_set};

// The word at i; 0 past the end.
pub fn word(t: &[u32], i: usize) -> u32
    ensures { result ≡ slice_index t.now i }
{
    t.get(i).copied().unwrap_or(0)
}

// Past the end nothing is written. (A slice's `get_mut` has no clause on what a write through it leaves.)
pub fn put_word(t: &mut [u32], i: usize, v: u32)
    ensures { t.new ≡ slice_set t.old i v }
{
    if i < t.len() {
        t[i] = v;
    }
}
