// Trigger statistics: how many trigger words had each trigger bit. A scan keeps and raises the counts; here are their number and their order.
#![tactic(auto)]

// How many counts there are, one for each of the trigger bits 0 to 14 and 27 to 31, in this order. Bits 15 to 26 are spare and have none.
pub const COUNTERS: usize = 20;
