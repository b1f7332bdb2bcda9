// Whether table and list agree, in one pass over each: every record is seen to obey its own rules, and each
// cell that it claims to hold its number, and then there is one look at the whole table. Since claims that
// all hold their own numbers are distinct, the table has no stray cell exactly if as many of its cells are
// used as the records claim.
#![tactic(auto)]

ghost use Rattle.std.specs.Prelude.{◌≡◌, ◌<◌, is_some, IfSome, MatchOption};
ghost use Rattle.rules.specs.Tells.{Tells};
ghost use Rattle.rules.specs.Wheels.{Legal};
ghost use Rattle.rules.specs.Flows.{held_cells};
ghost use Rattle.rules.specs.Orders.{Tabled, Ready, Agrees};
ghost use Rattle.agree.specs.Checks.{Ordered, Claimed};

use lent::FlowList;
use rules::{Chip, Record};

// Whether wheel, table length and list length are good, for a list of n records.
pub fn ready(table: &[u8], chip: Chip, n: usize) -> bool
    ensures { Tells result (Ready chip table.now n) }
{
    measure::legal(chip.wheel) && table::is_table(table, chip) && 1 <= n && n <= 64
}

// How many cells the record r, number f counted from 0, claims, if it is in order.
pub fn claimed(table: &[u8], chip: Chip, r: Record, f: usize) -> Option<usize>
    requires ready { Legal chip.wheel × Tabled chip.channels table.now }
    requires f_bound { f < 64 }
    ensures { MatchOption result (¬ Ordered chip table.now f r) (λ k. Claimed chip table.now f r k) }
{
    if !flows::own(chip, r) {
        return None;
    }
    let number = (f + 1) as u8;
    if !table::holds(table, chip, r.path, r.slots, number) {
        return None;
    }
    Some(flows::cells_of(chip.wheel, r))
}

// How many cells the flows hold, if wheel, table and list are good and table and list agree.
pub fn held<T: FlowList>(table: &[u8], list: &[T], chip: Chip) -> Option<usize>
    ensures agree { Tells (is_some result) (Agrees chip table.now (T.count list.now) (T.records list.now)) }
    ensures held { IfSome result (λ k. k ≡ held_cells chip.wheel (T.count list.now) (T.records list.now)) }
{
    let n = T::count(list);
    if !ready(table, chip, n) {
        return None;
    }
    let mut held = 0;
    for f in 0..n {
        held += claimed(table, chip, T::record(list, f), f)?;
    }
    let settled = table::count_used(table) == held;
    if settled { Some(held) } else { None }
}
