// No code: the forms of a line and the text of numbers, as definitions, with the laws that reading
// and printing rest on.
#![tactic(auto)]
