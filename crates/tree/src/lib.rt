#![tactic(auto)]

// The tree of a table: what it is, its written form, what generating and sizing say of it, and demand 3. Definitions and theorems only:
// crate maker makes trees, crate checker checks them.
