// The numbers of a no, for callers that count refusals instead of naming them.
#![tactic(auto)]

ghost use Rattle.std.specs.Prelude.{◌≡◌};
ghost use Rattle.rules.specs.Numbers.{number};

use rules::Refusal;

// Document 01's number of a refusal.
pub fn number(r: Refusal) -> u8
    ensures { result ≡ number r }
{
    r as u8
}
