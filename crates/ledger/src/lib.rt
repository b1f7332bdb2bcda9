// The book-keeping behind table and list: which cells a path claims, what marking and clearing do
// to the table, when table and list go on agreeing, and how many cells are held. There is no code
// here: the laws stand in `specs/`.
#![tactic(auto)]
