// Rows of a table, worked through entry by entry. A row is lent by itself, and so is each row that
// it takes in; all are equally long.
#![tactic(auto)]

ghost use Rattle.std.specs.Prelude.{◌≡◌, ℕ, ◌+◌, ◌<◌, length, get_or};
ghost use Rattle.line.specs.Rows.{Picked, RowLifted, RowRaised};

// The row becomes the better of the heads and the tails.
pub fn pick(row: &mut [u16], heads: &[u16], tails: &[u16])
    requires { (length heads.now ≡ length row.old) × (length tails.now ≡ length row.old) }
    ensures { Picked row.new heads.now tails.now }
{
    for i in 0..row.len() {
        row[i] = positions::better(heads[i], tails[i]);
    }
}

// The row becomes at least the values. To raise it by 0 words would say the same, and take longer.
pub fn lift(row: &mut [u16], values: &[u16])
    requires { length values.now ≡ length row.old }
    ensures { RowLifted row.old row.new values.now }
{
    for i in 0..row.len() {
        row[i] = positions::better(values[i], row[i]);
    }
}

// The row becomes at least the values with `words` more on top.
pub fn raise(row: &mut [u16], values: &[u16], words: u16)
    requires same_length { length values.now ≡ length row.old }
    requires by_index { (i : ℕ) → i < length row.old → words + get_or values.now i 0 < 65536 }
    ensures { RowRaised row.old row.new values.now words }
{
    for i in 0..row.len() {
        row[i] = positions::better(row[i], positions::raised(words, values[i]));
    }
}
