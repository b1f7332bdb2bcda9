// The two tables of the line at one start, filled from the last position to the first.
#![tactic(auto)]

ghost use Rattle.std.specs.Prelude.{◌<◌};
ghost use Rattle.line.specs.Rows.{Solved};

use line::{Cut, Tables};

// Both tables of the cut, for 0 to `cap` slots.
pub fn fill(tables: &mut Tables, cut: Cut, cap: usize)
    requires { cap < 64 }
    ensures { Solved cut.task cut.start.0 cap tables.new.heads tables.new.tails }
{
    let mut f = 0;
    for p in (0..cut.task.wheel.n - 1).rev() {
        f = if positions::opens(cut, p) { f + 1 } else { 0 };
        tails::tail_row(&mut tables.tails, &tables.heads, cut.task, p, cap);
        heads::head_row(&mut tables.heads, &tables.tails, cut.task, p, f, cap);
    }
}
