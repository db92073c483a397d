// Writes a triangle of terms: row i holds the places (i, j) for j from i upward, and the rows stand one behind the other.
ghost use Rattle.std.specs.Prelude.{◌≡◌, ℕ, ◌+◌, ◌<◌, ◌≤◌, length, slice_index};
ghost use Rattle.algebra.specs.Quad.{row as row_of};

// The places (i, i), (i, i + 1), .. up to the end of `row`.
pub fn fill_row<T: Fn(usize, usize) -> u16>(i: usize, row: &mut [u16], term: &T)
    requires fits { i + length row.old ≤ 64 }
    requires callable { (d : ℕ) → d < length row.old → T.pre term.now i (i + d) }
    ensures { (d : ℕ) → d < length row.old → T.post term.now i (i + d) (slice_index row.new d) }
{
    for (d, place) in row.iter_mut().enumerate() {
        *place = term(i, i + d);
    }
}

// `left` rows, from row i on, each one place shorter than the one before. By recursion: after a loop that moves on by the part behind
// each row, a proof does not know the whole.
pub fn fill_rows<T: Fn(usize, usize) -> u16>(i: usize, left: usize, terms: &mut [u16], term: &T)
    requires fits { i + left ≤ 64 }
    requires room { length terms.old ≡ row_of left left }
    requires callable { (j k : ℕ) → j < i + left → k < i + left → T.pre term.now j k }
    ensures { (k d : ℕ) → k + d < left → T.post term.now (i + k) (i + k + d) (slice_index terms.new (row_of left k + d)) }
{
    if left > 0 {
        let (row, behind) = terms.split_at_mut(left);
        fill_row(i, row, term);
        fill_rows(i + 1, left - 1, behind, term);
    }
}
