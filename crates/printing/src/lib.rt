// Printing: the text of each answer, put on a page.
#![tactic(auto)]

ghost use Rattle.std.specs.Prelude.{◌++◌};
ghost use Rattle.grammar.specs.Text.{field};
ghost use Rattle.grammar.specs.Answers.{open_text, close_text, report_text, bad_text};
ghost use Rattle.texts.specs.Puts.{Puts, Room};
ghost use Rattle.printing.specs.Tails.{grant_tail, tail};

use rules::{Grant, Refusal, Totals, Yes};
use texts::Page;

// A grant, behind the verb and the flow.
fn put_grant(page: &mut Page, grant: Grant)
    requires { Room page.old (grant_tail grant) }
    ensures { Puts page.old (grant_tail grant) page.new }
{
    page.put(b" slots");
    page.slots(grant.slots);
    page.labelled(b" words", usize::from(grant.words.0));
}

// What a call answers, behind the verb and the flow.
fn put_tail(page: &mut Page, answer: Result<Yes, Refusal>)
    requires { Room page.old (tail answer) }
    ensures { Puts page.old (tail answer) page.new }
{
    match answer {
        Ok(Yes::Granted(grant)) => put_grant(page, grant),
        Ok(Yes::Cells(cells)) => page.labelled(b" cells", cells),
        Err(reason) => page.labelled(b" refused", usize::from(numbers::number(reason))),
    }
}

// The line for a call on a flow.
fn put_answer(page: &mut Page, verb: &[u8], flow: usize, answer: Result<Yes, Refusal>)
    requires { Room page.old ((verb.now ++ field flow) ++ tail answer) }
    ensures { Puts page.old ((verb.now ++ field flow) ++ tail answer) page.new }
{
    page.labelled(verb, flow);
    put_tail(page, answer);
}

// The line for an opening.
pub fn put_open(page: &mut Page, flow: usize, answer: Result<Grant, Refusal>)
    requires { Room page.old (open_text flow answer) }
    ensures { Puts page.old (open_text flow answer) page.new }
{
    put_answer(page, b"open", flow, answer.map(Yes::Granted));
}

// The line for a closing.
pub fn put_close(page: &mut Page, flow: usize, answer: Result<usize, Refusal>)
    requires { Room page.old (close_text flow answer) }
    ensures { Puts page.old (close_text flow answer) page.new }
{
    put_answer(page, b"close", flow, answer.map(Yes::Cells));
}

// The line for a report.
pub fn put_report(page: &mut Page, answer: Result<Totals, Refusal>)
    requires { Room page.old (report_text answer) }
    ensures { Puts page.old (report_text answer) page.new }
{
    match answer {
        Ok(totals) => {
            page.labelled(b"report free", totals.free);
            page.labelled(b" held", totals.held);
        }
        Err(reason) => page.labelled(b"report refused", usize::from(numbers::number(reason))),
    }
}

// The line for a bad line.
pub fn put_bad(page: &mut Page, k: usize)
    requires { Room page.old (bad_text k) }
    ensures { Puts page.old (bad_text k) page.new }
{
    page.labelled(b"line", k);
    page.put(b" bad");
}
