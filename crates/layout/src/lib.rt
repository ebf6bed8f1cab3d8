// The words of a table, from what they say, and back: the two are one-to-one. Definitions and theorems only.
#![tactic(auto)]
