// Two loss lists merged into one: every number that either has, once, in order from the oldest, coded as the compressor codes.
//
// Here is the rule, with what may be relied on. The crate merge follows it, in words and in bytes, by items as spans has them.

#![tactic(auto)]
