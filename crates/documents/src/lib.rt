// What the public documents say a text means, and that the readers agree: definitions and theorems alone.

#![tactic(auto)]
