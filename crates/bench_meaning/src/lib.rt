// What the gates of a BENCH text mean, and that the reader's circuits compute it: definitions and theorems alone.

#![tactic(auto)]
