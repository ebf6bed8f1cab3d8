#![tactic(auto)]

// A table whose entries are in another order: what that changes. Definitions and theorems only.
